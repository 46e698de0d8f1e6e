//! The words that say which parts of a form aren't of one message, and how they differ.
ghost use Rattle.kd_pictures.specs.Drawing.{Draws};
ghost use Rattle.kd_message.specs.ClashWords.{clash_words, difference_words, group_differs, heading_words};
ghost use Rattle.kd_message.specs.ClashWords.{clash_note, clash_paragraph, headings_after, several_note};

use crate::text_sheet::draw_count;
use crate::texts::{
    AND_LINE, DAY_DIFFERS, GROUP_DIFFERS, KEYS_DIFFER, LENGTH_DIFFERS, LETTERS_LACK, LINES,
    NOTE_END, NOTE_SEVERAL, OF_PARTS, SEVERAL, SEVERAL_END, SEVERAL_HEADINGS, TOTALS_DIFFER,
};
use kd_language::Language;
use kd_lost::{Clash, DamagedPart, Difference, PartNumbers, clash_of};
use kd_part_sheet::markup::COMMA;
use kd_pictures::{draw, draw_in};
use kd_tables::Sink;

/// Writes the note that the parts aren't of one message. If the parts are of one message, writes nothing.
pub(crate) fn draw_several_note<W: Sink>(sink: &mut W, language: Language, parts: &[DamagedPart])
    ensures { Draws W.taken W.has_failed sink.old sink.new (several_note language parts.now) }
{
    match clash_of(parts) {
        Some(clash) => draw_clash_note(sink, language, clash),
        None => draw(sink, ""),
    }
}

/// Writes the note that two parts aren't of one message.
fn draw_clash_note<W: Sink>(sink: &mut W, language: Language, clash: Clash)
    ensures { Draws W.taken W.has_failed sink.old sink.new (clash_note language clash) }
{
    draw_in(sink, language, NOTE_SEVERAL);
    draw_clash(sink, language, clash);
    draw(sink, NOTE_END);
}

/// Writes the page's paragraph that two parts aren't of one message. It also has the numbers from the undamaged
/// headings of `parts`.
pub(crate) fn draw_clash_paragraph<W: Sink>(
    sink: &mut W,
    language: Language,
    parts: &[DamagedPart],
    clash: Clash,
)
    ensures { Draws W.taken W.has_failed sink.old sink.new (clash_paragraph language parts.now clash) }
{
    draw_in(sink, language, SEVERAL);
    draw_clash(sink, language, clash);
    draw_in(sink, language, SEVERAL_HEADINGS);
    draw_headings(sink, "", parts);
    draw_in(sink, language, SEVERAL_END);
}

/// Writes on which lines of the form the two parts begin, and how they differ.
fn draw_clash<W: Sink>(sink: &mut W, language: Language, clash: Clash)
    ensures { Draws W.taken W.has_failed sink.old sink.new (clash_words language clash) }
{
    draw_in(sink, language, LINES);
    draw_count(sink, clash.line);
    draw_in(sink, language, AND_LINE);
    draw_count(sink, clash.other_line);
    draw_difference(sink, language, clash.difference);
}

fn draw_difference<W: Sink>(sink: &mut W, language: Language, difference: Difference)
    ensures { Draws W.taken W.has_failed sink.old sink.new (difference_words language difference) }
{
    match difference {
        Difference::Totals => draw_in(sink, language, TOTALS_DIFFER),
        Difference::Group(group) => draw_group_differs(sink, language, group),
        Difference::Keys => draw_in(sink, language, KEYS_DIFFER),
        Difference::Day => draw_in(sink, language, DAY_DIFFERS),
        Difference::Length => draw_in(sink, language, LENGTH_DIFFERS),
        Difference::Letters => draw_in(sink, language, LETTERS_LACK),
    }
}

fn draw_group_differs<W: Sink>(sink: &mut W, language: Language, group: usize)
    ensures { Draws W.taken W.has_failed sink.old sink.new (group_differs language group) }
{
    draw_in(sink, language, GROUP_DIFFERS);
    draw_count(sink, group);
}

/// Writes the numbers from the undamaged headings of `parts`. `first` stands before the numbers of the first undamaged
/// heading, and a comma before the numbers of each later one.
fn draw_headings<W: Sink>(sink: &mut W, first: &str, parts: &[DamagedPart])
    ensures { Draws W.taken W.has_failed sink.old sink.new
        (headings_after first.now parts.now) }
{
    if let [part, rest @ ..] = parts {
        if let Some(numbers) = &part.numbers {
            draw(sink, first);
            draw_heading_words(sink, numbers);
            draw_headings(sink, COMMA, rest);
        } else {
            draw_headings(sink, first, rest);
        }
    }
}

/// Writes the two numbers in a heading: the part's number, and the number of parts.
fn draw_heading_words<W: Sink>(sink: &mut W, numbers: &PartNumbers)
    ensures { Draws W.taken W.has_failed sink.old sink.new (heading_words numbers.now) }
{
    draw_count(sink, usize::from(numbers.part));
    draw(sink, OF_PARTS);
    draw_count(sink, usize::from(numbers.parts));
}
