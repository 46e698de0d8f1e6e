//! Lists of letters, wheels and cables, with separators.
ghost use Rattle.std.specs.Prelude.{◌++◌};
ghost use Rattle.kd_pictures.specs.Drawing.{Draws};
ghost use Rattle.kd_part_sheet.specs.Words.{cables_text, letter_words, pairs_after, rings_after, shown_text, wheels_after};

use crate::markup::{COMMA, RING, SPACE, WIDE_SPACE};
use crate::texts::NO_CABLES;
use kd_language::Language;
use kd_pictures::template::{Value, draw_letter, draw_letters, draw_ordinal, fill};
use kd_pictures::{draw, draw_in};
use kd_state::SheetWheel;
use kd_tables::{Letter, Sink};

/// Writes letters or, if `are_numbers` is true, their numbers; `first` stands before them, and `separator` between
/// them.
pub(crate) fn draw_shown<W: Sink>(
    sink: &mut W,
    are_numbers: bool,
    first: &str,
    separator: &str,
    letters: &[Letter],
)
    ensures { Draws W.taken W.has_failed sink.old sink.new
        (letter_words are_numbers first.now separator.now letters.now) }
{
    if let [letter, rest @ ..] = letters {
        draw(sink, first);
        draw_one(sink, are_numbers, *letter);
        draw_shown(sink, are_numbers, separator, separator, rest);
    }
}

fn draw_one<W: Sink>(sink: &mut W, is_number: bool, letter: Letter)
    ensures { Draws W.taken W.has_failed sink.old sink.new (shown_text is_number letter) }
{
    if is_number {
        draw_ordinal(sink, letter);
    } else {
        draw_letter(sink, letter);
    }
}

/// Writes the names of wheels, with `first` before them and spaces between them.
pub(crate) fn draw_wheels<W: Sink>(sink: &mut W, first: &str, wheels: &[SheetWheel])
    ensures { Draws W.taken W.has_failed sink.old sink.new (wheels_after first.now wheels.now) }
{
    if let [wheel, rest @ ..] = wheels {
        draw(sink, first);
        draw(sink, wheel.wheel.text().as_str());
        draw_wheels(sink, WIDE_SPACE, rest);
    }
}

/// Writes the letters and numbers of rings, with `first` before them and commas between them.
pub(crate) fn draw_rings<W: Sink>(
    sink: &mut W,
    language: Language,
    first: &str,
    wheels: &[SheetWheel],
)
    ensures { Draws W.taken W.has_failed sink.old sink.new (rings_after first.now wheels.now) }
{
    if let [wheel, rest @ ..] = wheels {
        draw(sink, first);
        fill(
            sink,
            language,
            RING,
            &[Value::Letter(wheel.ring), Value::Ordinal(wheel.ring)],
        );
        draw_rings(sink, language, COMMA, rest);
    }
}

/// Writes the day's cables. If there are none, writes the word for `none`.
pub(crate) fn draw_cables<W: Sink>(sink: &mut W, language: Language, pairs: &[(Letter, Letter)])
    ensures { Draws W.taken W.has_failed sink.old sink.new (cables_text language pairs.now) }
{
    if pairs.is_empty() {
        draw_in(sink, language, NO_CABLES);
    } else {
        draw_pairs(sink, "", pairs);
    }
}

/// Writes pairs of letters, with `first` before them and spaces between them.
fn draw_pairs<W: Sink>(sink: &mut W, first: &str, pairs: &[(Letter, Letter)])
    ensures { Draws W.taken W.has_failed sink.old sink.new (pairs_after first.now pairs.now) }
{
    if let [pair, rest @ ..] = pairs {
        draw(sink, first);
        draw_letters(sink, &[pair.0, pair.1]);
        draw_pairs(sink, SPACE, rest);
    }
}
