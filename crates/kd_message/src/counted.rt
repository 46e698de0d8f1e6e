//! Parts that are read by count: the count in the heading is wrong or damaged, and the number of letters that came
//! takes its place.
ghost use Rattle.std.specs.Prelude.{None, Some};
ghost use Rattle.kd_pictures.specs.Drawing.{Draws};
ghost use Rattle.kd_message.specs.TextSheet.{counted_reason, counted_text, damaged_count, groups_told};

use crate::text_sheet::{draw_count, draw_read_text};
use crate::texts::{
    ASK, ASK_END, BY_COUNT, COUNT_DAMAGED, COUNT_DAMAGED_END, FULL_GROUPS, FULL_GROUPS_END,
    REASON_END, SHORT_GROUP, SHORT_GROUP_END,
};
use crate::unread::{draw_count_asked, draw_counts, draw_line_words};
use kd_language::Language;
use kd_lost::{DamagedPart, DamagedText, PartDamage};
use kd_part_sheet::part_sheet::PartPage;
use kd_pictures::template::{Value, fill_in};
use kd_pictures::{draw, draw_in};
use kd_state::SheetDay;
use kd_tables::Sink;

/// Writes what is wrong with the part's letter count, then the text that is read by count, and then what to ask for.
pub(crate) fn draw_counted_text<W: Sink>(
    sink: &mut W,
    page: PartPage,
    day: &SheetDay,
    part: &DamagedPart,
    damage: PartDamage,
    shown: &DamagedText,
)
    ensures { Draws W.taken W.has_failed sink.old sink.new
        (counted_text page.language page.sheet day.now page.name part.now damage shown.now) }
{
    let PartPage { language, name, .. } = page;
    draw_in(sink, language, BY_COUNT);
    draw_counted_reason(sink, language, part, damage);
    draw_groups_told(sink, language, part.came, part.short_group);
    draw(sink, REASON_END);
    draw_read_text(sink, page, day, shown);
    fill_in(sink, language, ASK, &[Value::Number(u16::from(name.part))]);
    draw_count_asked(sink, language, damage, part.short_group);
    draw(sink, ASK_END);
}

/// Writes what is wrong with the letter count of `part`.
pub(crate) fn draw_counted_reason<W: Sink>(
    sink: &mut W,
    language: Language,
    part: &DamagedPart,
    damage: PartDamage,
)
    ensures { Draws W.taken W.has_failed sink.old sink.new
        (counted_reason language part.now damage) }
{
    match damage {
        PartDamage::HeadingDamaged => draw_damaged_count(sink, language, part.line, part.came),
        _ => draw_counts(sink, language, part),
    }
}

/// Writes that the count in a heading is damaged, and how many letters came.
fn draw_damaged_count<W: Sink>(sink: &mut W, language: Language, line: usize, came: usize)
    ensures { Draws W.taken W.has_failed sink.old sink.new (damaged_count language line came) }
{
    draw_line_words(sink, language, line, 1);
    draw_in(sink, language, COUNT_DAMAGED);
    draw_count(sink, came);
    draw_in(sink, language, COUNT_DAMAGED_END);
}

/// Writes the number of the first short group. If no group is short, writes that the number of letters that came may
/// be right.
///
/// A short group doesn't have five letters, and more letters follow.
pub(crate) fn draw_groups_told<W: Sink>(
    sink: &mut W,
    language: Language,
    came: usize,
    group: Option<usize>,
)
    ensures { Draws W.taken W.has_failed sink.old sink.new (groups_told language came group) }
{
    match group {
        Some(group) => draw_short_group(sink, language, group),
        None => draw_full_groups(sink, language, came),
    }
}

fn draw_short_group<W: Sink>(sink: &mut W, language: Language, group: usize)
    ensures { Draws W.taken W.has_failed sink.old sink.new
        (groups_told language 0 (Some group)) }
{
    draw_in(sink, language, SHORT_GROUP);
    draw_count(sink, group);
    draw_in(sink, language, SHORT_GROUP_END);
}

fn draw_full_groups<W: Sink>(sink: &mut W, language: Language, came: usize)
    ensures { Draws W.taken W.has_failed sink.old sink.new (groups_told language came None) }
{
    draw_in(sink, language, FULL_GROUPS);
    draw_count(sink, came);
    draw_in(sink, language, FULL_GROUPS_END);
}
