//! The note on a table that isn't refused.
ghost use Rattle.std.specs.Prelude.{◌≡◌, map, IfOk};
ghost use Rattle.std.specs.String.{string_bytes};
ghost use Rattle.csv.specs.Records.{fields_of};
ghost use Rattle.kd_language.specs.Language.{text_in};
ghost use Rattle.kd_slips.specs.Counts.{counts_of, few_lines};
ghost use Rattle.kd_spreadsheet.specs.Notes.{taken_note};
ghost use Rattle.kd_spreadsheet.specs.declared.texts.TheConstants.{WARNING as WARNING_TEXT};

use super::note::push_bytes;
use super::unread::unread_note;
use crate::texts::WARNING;
use csv::ByteRecord;
use kd_language::Wording;
use kd_slips::counts::{DayCounts, counts_of, few_lines};
use kd_state::SheetDay;
use std::alloc::{AllocError, Global};

/// The note on a table that isn't refused, with the first row `names` and the days `days`.
#[tactic(auto, unfolding(crate::specs::Notes::taken_note))]
pub fn taken_note(
    wording: Wording,
    names: &ByteRecord,
    days: &[SheetDay],
) -> Result<Vec<u8>, AllocError>
    ensures { IfOk result (λ note. note.items
        ≡ taken_note wording.language (fields_of names.now) days.now) }
{
    let mut note = unread_note(wording, names)?;
    let few = few_note(wording, days)?;
    push_bytes(&mut note, few.as_bytes())?;
    Ok(note)
}

/// The warnings about days that have fewer pairs, or fewer groups, than another day of their model.
fn few_note(wording: Wording, days: &[SheetDay]) -> Result<String, AllocError>
    ensures { IfOk result (λ lines. string_bytes lines ≡ few_lines wording.language
        (text_in wording.language WARNING_TEXT) (map counts_of days.now)) }
{
    let counts = counts_of_days(wording.alloc, days)?;
    let start = wording.language.text(WARNING);
    Ok(few_lines(wording, start, counts.as_slice())?)
}

/// For each of `days`, its number of pairs and its number of groups.
fn counts_of_days(alloc: Global, days: &[SheetDay]) -> Result<Vec<DayCounts>, AllocError>
    ensures { IfOk result (λ counts. counts.items ≡ map counts_of days.now) }
{
    let mut counts = Vec::new(alloc);
    for day in days {
        if counts.push(counts_of(day)).is_err() {
            return Err(AllocError);
        }
    }
    Ok(counts)
}
