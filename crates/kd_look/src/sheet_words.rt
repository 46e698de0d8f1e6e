//! A key sheet in words: lines for the days of each model, and lines for the days without groups.
ghost use Rattle.std.specs.Prelude.{◌≡◌, ◌<◌, ◌++◌, true, false, OnOk, flat_map};
ghost use Rattle.std.specs.String.{string_bytes};
ghost use Rattle.kd_look.specs.SheetWords.{lacks_groups, has_day, day_words, numbered_day_words, sort_words};
ghost use Rattle.kd_look.specs.SheetWords.{model_words, sheet_words};

use crate::texts::{DAY, FIRST_DAY, LAST_DAY, WITHOUT_GROUPS};
use crate::values::push_number;
use kd_language::Language;
use kd_sheet::Sheet;
use kd_state::SheetDay;
use kd_tables::Model;
use std::alloc::AllocError;

/// A sort of days: the days for one model, or the rotor machines' days without groups.
#[derive(Clone, Copy)]
pub enum DaySort {
    /// The days for a model.
    Of(Model),
    /// A rotor machine's days without groups.
    WithoutGroups,
}

/// Appends the lines for the days of each model, and for the days without groups.
#[tactic(auto, using(std::proofs::Common::append_assoc), unfolding(crate::specs::SheetWords::sheet_words))]
pub fn push_sheet(text: &mut String, language: Language, sheet: &Sheet) -> Result<(), AllocError>
    ensures { OnOk result (string_bytes text.new
        ≡ string_bytes text.old ++ sheet_words language sheet.now) }
{
    push_models(text, language, sheet, &Model::ALL)?;
    push_sort(
        text,
        language,
        sheet,
        language.text(WITHOUT_GROUPS),
        DaySort::WithoutGroups,
    )
}

/// Appends the lines for the days of each of `models`.
#[tactic(auto, using(std::proofs::Common::append_assoc))]
fn push_models(
    text: &mut String,
    language: Language,
    sheet: &Sheet,
    models: &[Model],
) -> Result<(), AllocError>
    ensures { OnOk result (string_bytes text.new
        ≡ string_bytes text.old ++ flat_map (model_words language sheet.now) models.now) }
{
    match models {
        [model, rest @ ..] => {
            push_model(text, language, sheet, *model)?;
            push_models(text, language, sheet, rest)
        }
        [] => Ok(()),
    }
}

fn push_model(
    text: &mut String,
    language: Language,
    sheet: &Sheet,
    model: Model,
) -> Result<(), AllocError>
    ensures { OnOk result
        (string_bytes text.new ≡ string_bytes text.old ++ model_words language sheet.now model) }
{
    push_sort(
        text,
        language,
        sheet,
        model.text().as_str(),
        DaySort::Of(model),
    )
}

/// Appends the lines for the days of the sort `sort`. Each line begins with `title`.
#[tactic(auto, unfolding(crate::specs::SheetWords::sort_words))]
fn push_sort(
    text: &mut String,
    language: Language,
    sheet: &Sheet,
    title: &str,
    sort: DaySort,
) -> Result<(), AllocError>
    ensures { OnOk result (string_bytes text.new
        ≡ string_bytes text.old ++ sort_words language sheet.now title.now sort) }
{
    for index in 0..31 {
        push_day(text, language, sheet, title, sort, index + 1)?;
    }
    Ok(())
}

/// Appends the words that day `number` adds to the lines for the days of the sort `sort`. Appends nothing if the day
/// isn't of this sort.
#[tactic(auto, unfolding(crate::specs::SheetWords::numbered_day_words))]
fn push_day(
    text: &mut String,
    language: Language,
    sheet: &Sheet,
    title: &str,
    sort: DaySort,
    number: u8,
) -> Result<(), AllocError>
    requires { number < 32 }
    ensures { OnOk result (string_bytes text.new
        ≡ string_bytes text.old ++ numbered_day_words language sheet.now title.now sort number) }
{
    if !has_day(sheet, sort, number) {
        return Ok(());
    }
    let after = has_day(sheet, sort, number + 1);
    if has_day(sheet, sort, number.saturating_sub(1)) {
        push_last_day(text, language, title, after, number)
    } else {
        push_first_day(text, language, title, after, number)
    }
}

/// Whether `sheet` has the day `number`, and the day is of the sort `sort`.
#[tactic(auto, unfolding(crate::specs::SheetWords::has_day))]
fn has_day(sheet: &Sheet, sort: DaySort, number: u8) -> bool
    ensures { result ≡ has_day sheet.now sort number }
{
    match sort {
        DaySort::Of(model) => sheet.has_day_of(model, number),
        DaySort::WithoutGroups => match sheet.day(number) {
            Some(day) => lacks_groups(day),
            None => false,
        },
    }
}

/// Whether `day` is a rotor machine's day without groups.
fn lacks_groups(day: &SheetDay) -> bool
    ensures { result ≡ lacks_groups day.now }
{
    match day.groups() {
        Some(groups) => groups.is_empty(),
        None => false,
    }
}

/// Appends the end of a line for several days: the last day. If the next day also belongs to the line, appends nothing.
#[tactic(auto, using(std::proofs::Common::append_assoc), unfolding(crate::specs::SheetWords::day_words))]
fn push_last_day(
    text: &mut String,
    language: Language,
    title: &str,
    after: bool,
    number: u8,
) -> Result<(), AllocError>
    ensures { OnOk result (string_bytes text.new
        ≡ string_bytes text.old ++ day_words language title.now true after number) }
{
    if after {
        return Ok(());
    }
    push_number(text, number)?;
    text.push_str("\n")
}

/// Appends the start of a line for days: `title` and the first day. If the line has only this day, also ends the line.
#[tactic(auto, using(std::proofs::Common::append_assoc), unfolding(crate::specs::SheetWords::day_words))]
fn push_first_day(
    text: &mut String,
    language: Language,
    title: &str,
    after: bool,
    number: u8,
) -> Result<(), AllocError>
    ensures { OnOk result (string_bytes text.new
        ≡ string_bytes text.old ++ day_words language title.now false after number) }
{
    text.push_str(title)?;
    text.push_str(language.text(if after { FIRST_DAY } else { DAY }))?;
    push_number(text, number)?;
    text.push_str(if after { language.text(LAST_DAY) } else { "\n" })
}
