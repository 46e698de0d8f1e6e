//! The words in a cell, with spaces between them: letters, cables, groups, wheels and rings.
ghost use Rattle.std.specs.Prelude.{ℕ, List, flat_map, true, false};
ghost use Rattle.kd_pictures.specs.Drawing.{Draws};
ghost use Rattle.kd_printed_sheet.specs.Words.{ring_text, spaced, words_text};

use crate::texts::{NOTHING, SPACE};
use kd_pictures::draw;
use kd_pictures::template::{draw_letter, draw_ordinal};
use kd_sheet::writing::item_text::ItemText;
use kd_state::SheetWheel;
use kd_tables::{Letter, Sink};

/// A value that a table's cell shows as a word. `Kind` says which word: a wheel, for example, has a word for its name
/// and a word for its ring.
pub(crate) trait CellWord<Kind> {
    /// The word that the cell shows.
    ghost text: { Self → List ℕ };

    fn draw_word<W: Sink>(&self, sink: &mut W)
        ensures { Draws W.taken W.has_failed sink.old sink.new (text self.now) };
}

/// A kind of word in a table's cell: a letter.
pub(crate) struct SingleLetter;

/// A kind of word in a table's cell: a value, written as in key sheets.
pub(crate) struct Item;

/// A kind of word in a table's cell: the ground setting's letter for a wheel.
pub(crate) struct Ground;

/// A kind of word in a table's cell: the ring of a wheel, as a letter.
pub(crate) struct RingLetter;

/// A kind of word in a table's cell: the ring of a wheel, as a number.
pub(crate) struct RingNumber;

/// Writes the words with spaces between them. If there are no words, writes a hyphen.
pub(crate) fn draw_words<Kind, W: Sink, T: CellWord<Kind>>(sink: &mut W, words: &[T])
    ensures { Draws W.taken W.has_failed sink.old sink.new (words_text T.text words.now) }
{
    if let [word, rest @ ..] = words {
        word.draw_word(sink);
        draw_spaced(sink, rest);
    } else {
        draw(sink, NOTHING);
    }
}

impl CellWord<SingleLetter> for Letter {
    ghost use Rattle.kd_pictures.specs.Template.{letter_text};

    ghost text = { letter_text };

    fn draw_word<W: Sink>(&self, sink: &mut W) {
        draw_letter(sink, *self);
    }
}

/// The word of a value is its text in key sheets, for example `AB` for a cable, or `VIII` for a wheel.
impl<T: ItemText> CellWord<Item> for T {
    ghost text = { T.item_text };

    fn draw_word<W: Sink>(&self, sink: &mut W) {
        draw(sink, self.item_text().as_str());
    }
}

impl CellWord<Ground> for SheetWheel {
    ghost use Rattle.kd_printed_sheet.specs.Words.{ground_text};

    ghost text = { ground_text };

    fn draw_word<W: Sink>(&self, sink: &mut W) {
        draw_letter(sink, self.letter);
    }
}

impl CellWord<RingLetter> for SheetWheel {
    ghost text = { ring_text false };

    fn draw_word<W: Sink>(&self, sink: &mut W) {
        draw_letter(sink, self.ring);
    }
}

impl CellWord<RingNumber> for SheetWheel {
    ghost text = { ring_text true };

    fn draw_word<W: Sink>(&self, sink: &mut W) {
        draw_ordinal(sink, self.ring);
    }
}

/// Writes words, each after a space.
fn draw_spaced<Kind, W: Sink, T: CellWord<Kind>>(sink: &mut W, words: &[T])
    ensures { Draws W.taken W.has_failed sink.old sink.new (flat_map (spaced T.text) words.now) }
{
    if let [word, rest @ ..] = words {
        draw(sink, SPACE);
        word.draw_word(sink);
        draw_spaced(sink, rest);
    }
}
