//! Days of a key sheet that differ only in their numbers.
ghost use Rattle.std.specs.Prelude.{OnOk};
ghost use Rattle.std.specs.String.{string_bytes};
ghost use Rattle.kd_look.specs.Warnings.{WarnsOfDays};

use crate::day_lines::push_day_line;
use crate::texts::ALIKE;
use itoa::Buffer;
use kd_language::Wording;
use kd_sheet::Sheet;
use kd_state::SheetDay;
use std::alloc::AllocError;

/// Appends a warning for each day that differs from an earlier day only in its number.
pub fn push_alike_days(
    lines: &mut String,
    wording: Wording,
    name: &str,
    sheet: &Sheet,
) -> Result<(), AllocError>
    ensures { OnOk result (WarnsOfDays wording.language name.now (string_bytes lines.old)
        → WarnsOfDays wording.language name.now (string_bytes lines.new)) }
{
    for number in 2..32 {
        push_alike(lines, wording, name, sheet, number)?;
    }
    Ok(())
}

/// If the day `number` differs from an earlier day only in its number, appends a warning.
fn push_alike(
    lines: &mut String,
    wording: Wording,
    name: &str,
    sheet: &Sheet,
    number: u8,
) -> Result<(), AllocError>
    ensures { OnOk result (WarnsOfDays wording.language name.now (string_bytes lines.old)
        → WarnsOfDays wording.language name.now (string_bytes lines.new)) }
{
    let Some(earlier) = first_alike(sheet, number) else {
        return Ok(());
    };
    let mut earlier_text = Buffer::new();
    let mut number_text = Buffer::new();
    let words = wording.fill(
        ALIKE,
        &[earlier_text.format(earlier), number_text.format(number)],
    )?;
    push_day_line(lines, wording.language, name, words.as_str())
}

/// Finds the first earlier day that equals day `number` in everything but the number.
fn first_alike(sheet: &Sheet, number: u8) -> Option<u8> {
    let day = sheet.day(number)?;
    for earlier in 1..number {
        if let Some(other) = sheet.day(earlier)
            && are_alike(other, day)
        {
            return Some(earlier);
        }
    }
    None
}

/// Whether the days differ only in their numbers.
fn are_alike(one: &SheetDay, other: &SheetDay) -> bool {
    one.model() == other.model()
        && one.reflector() == other.reflector()
        && (1..=6).all(|slot| have_same_slot(one, other, slot))
        && one.pairs() == other.pairs()
        && one.groups() == other.groups()
        && one.rows() == other.rows()
        && one.pins() == other.pins()
        && one.list() == other.list()
}

/// Whether both days have the same wheel, ring and window letter in slot `slot`.
fn have_same_slot(one: &SheetDay, other: &SheetDay, slot: u8) -> bool {
    one.slot(slot) == other.slot(slot)
        && one.ring(slot) == other.ring(slot)
        && one.window(slot) == other.window(slot)
}
