//! Days of a key sheet that have fewer pairs, or fewer groups, than another day of their model.
ghost use Rattle.std.specs.Prelude.{◌≡◌, ◌++◌, IfOk, OnOk};
ghost use Rattle.std.specs.String.{string_bytes};
ghost use Rattle.kd_language.specs.Language.{text_in};
ghost use Rattle.kd_findings.specs.declared.texts.TheConstants.{WARNING as WARNING_TEXT};
ghost use Rattle.kd_look.specs.Warnings.{counts_in, counts_on, few_day_words};

use kd_findings::texts::WARNING;
use kd_language::Wording;
use kd_sheet::Sheet;
use kd_slips::counts::{DayCounts, counts_of, few_lines};
use std::alloc::{AllocError, Global};

/// Appends a warning for each day that has fewer pairs, or fewer groups, than another day of its model.
#[tactic(auto, unfolding(crate::specs::Warnings::few_day_words))]
pub fn push_few_days(
    lines: &mut String,
    wording: Wording,
    name: &str,
    sheet: &Sheet,
) -> Result<(), AllocError>
    ensures { OnOk result (string_bytes lines.new
        ≡ string_bytes lines.old ++ few_day_words wording.language name.now sheet.now) }
{
    let start = warning_start(wording, name)?;
    let days = counts_in(wording.alloc, sheet)?;
    let few = few_lines(wording, start.as_str(), days.as_slice())?;
    lines.push_str(few.as_str())
}

/// How many pairs and how many groups each day of `sheet` has, in the order of the days.
fn counts_in(alloc: Global, sheet: &Sheet) -> Result<Vec<DayCounts>, AllocError>
    ensures { IfOk result (λ days. days.items ≡ counts_in sheet.now) }
{
    let mut days = Vec::new(alloc);
    for index in 0..31 {
        push_counts(&mut days, sheet, index + 1)?;
    }
    Ok(days)
}

/// If the sheet has the day `number`, appends how many pairs and how many groups this day has.
fn push_counts(days: &mut Vec<DayCounts>, sheet: &Sheet, number: u8) -> Result<(), AllocError>
    ensures { OnOk result (days.new.items ≡ days.old.items ++ counts_on sheet.now number) }
{
    if let Some(day) = sheet.day(number) {
        days.push(counts_of(day))?;
    }
    Ok(())
}

/// The start of a warning: the file's name, and `WARNING`.
fn warning_start(wording: Wording, name: &str) -> Result<String, AllocError>
    ensures { IfOk result (λ start.
        string_bytes start ≡ name.now ++ text_in wording.language WARNING_TEXT) }
{
    let mut start = String::from_str(wording.alloc, name)?;
    start.push_str(wording.language.text(WARNING))?;
    Ok(start)
}
