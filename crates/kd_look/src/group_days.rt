//! Says which days of key sheets have the groups of orders and forms.
ghost use Rattle.std.specs.Prelude.{◌≡◌, ◌↔◌, ◌++◌, ◌+◌, ◌<◌, ◌^◌, ◌∷◌, [], flat_map, length, map, IfOk, IsTrue, OnOk};
ghost use Rattle.std.specs.List.{filter};
ghost use Rattle.std.specs.String.{string_bytes};
ghost use Rattle.kd_state.specs.SheetDay.{AreADaysGroup};
ghost use Rattle.kd_look.specs.GroupDays.{can_be_for, days_with, group_day_line, group_day_words, has_group};
ghost use Rattle.kd_look.specs.GroupDays.{is_day_with, key_slots, lines_for, message_lines, no_group_line, part_lines};
ghost use Rattle.kd_look.specs.GroupDays.{parts_lines, search_of, sheet_lines, suits};
ghost use Rattle.kd_look.specs.MissingDays.{known_of};

use crate::file::File;
use crate::message::groups::Message;
use crate::message::order_head::KeyLine;
use crate::missing_days::ReadFile;
use crate::texts::{GROUP_DAY, NO_GROUP};
use crate::values::group_text;
use itoa::Buffer;
use kd_language::template::push_filled;
use kd_language::{Language, Wording};
use kd_sheet::Sheet;
use kd_state::SheetDay;
use kd_tables::{Letter, Model};
use std::alloc::{AllocError, Global};

/// A message, and a key sheet in which to find the days that have the message's groups.
#[derive(Clone, Copy)]
pub struct Search<'f> {
    /// The name of the message's file.
    pub name: &'f str,
    pub keys: KeyLine,
    /// The name of the sheet's file.
    pub sheet: &'f str,
    pub month: &'f Sheet,
}

/// The lines that say which days of the key sheets have the groups of all orders and forms of `files`.
pub fn group_day_lines(wording: Wording, files: &[ReadFile<'_>]) -> Result<String, AllocError>
    ensures { IfOk result (λ lines.
        string_bytes lines ≡ group_day_words wording.language (map known_of files.now)) }
{
    let mut lines = String::new(wording.alloc);
    for file in files {
        push_message(&mut lines, wording, files, file)?;
    }
    Ok(lines)
}

/// Appends the lines that say which days of the key sheets in `files` have the groups of `file`.
///
/// Appends nothing if `file` isn't a faultless order or form.
fn push_message(
    lines: &mut String,
    wording: Wording,
    files: &[ReadFile<'_>],
    file: &ReadFile<'_>,
) -> Result<(), AllocError>
    ensures { OnOk result (string_bytes lines.new ≡ string_bytes lines.old
        ++ message_lines wording.language (map known_of files.now) (known_of file.now)) }
{
    match &file.message {
        Some(message) => push_sheets(lines, wording, file.name, message, files),
        None => Ok(()),
    }
}

/// Appends the lines that say which days of the key sheets in `files` have the groups of `message`.
///
/// `name` is the name of the message's file.
#[tactic(auto, using(std::proofs::Common::append_assoc))]
fn push_sheets(
    lines: &mut String,
    wording: Wording,
    name: &str,
    message: &Message,
    files: &[ReadFile<'_>],
) -> Result<(), AllocError>
    ensures { OnOk result (string_bytes lines.new ≡ string_bytes lines.old
        ++ flat_map (sheet_lines wording.language name.now message.now) (map known_of files.now)) }
{
    match files {
        [file, rest @ ..] => {
            push_sheet(lines, wording, name, message, file)?;
            push_sheets(lines, wording, name, message, rest)
        }
        [] => Ok(()),
    }
}

/// Appends the lines that say which days of `sheet` have the groups of `message`.
///
/// Appends nothing if `sheet` isn't a key sheet.
fn push_sheet(
    lines: &mut String,
    wording: Wording,
    name: &str,
    message: &Message,
    sheet: &ReadFile<'_>,
) -> Result<(), AllocError>
    ensures { OnOk result (string_bytes lines.new ≡ string_bytes lines.old
        ++ sheet_lines wording.language name.now message.now (known_of sheet.now)) }
{
    match &sheet.file {
        Some(File::Sheet(month)) => {
            let search = Search {
                name,
                keys: message.keys(),
                sheet: sheet.name,
                month,
            };
            push_parts(lines, wording, &search, 1, message.groups())
        }
        Some(File::Machine(_)) | None => Ok(()),
    }
}

/// Appends the lines about `groups`. The first group belongs to part `part`, the second to part `part + 1`.
#[tactic(auto, using(std::proofs::Common::append_assoc))]
fn push_parts(
    lines: &mut String,
    wording: Wording,
    search: &Search<'_>,
    part: usize,
    groups: &[[Letter; 3]],
) -> Result<(), AllocError>
    requires { part + length groups.now < 2 ^ 64 }
    ensures { OnOk result (string_bytes lines.new ≡ string_bytes lines.old
        ++ parts_lines wording.language (search_of search.now) part groups.now) }
{
    match groups {
        [group, rest @ ..] => {
            push_part(lines, wording, search, part, *group)?;
            push_parts(lines, wording, search, part + 1, rest)
        }
        [] => Ok(()),
    }
}

/// Appends the lines that say which days of the sheet have the group of part `part`.
#[tactic(auto, unfolding(crate::specs::GroupDays::part_lines))]
fn push_part(
    lines: &mut String,
    wording: Wording,
    search: &Search<'_>,
    part: usize,
    group: [Letter; 3],
) -> Result<(), AllocError>
    ensures { OnOk result (string_bytes lines.new ≡ string_bytes lines.old
        ++ part_lines wording.language (search_of search.now) part group) }
{
    let days = days_with(wording.alloc, search, group)?;
    let group = group_text(wording.alloc, group)?;
    push_lines_for(
        lines,
        wording.language,
        search,
        part,
        group.as_str(),
        days.as_slice(),
    )
}

/// Appends a line for each of `days`, the days that have the group of part `part`.
///
/// If there are no days, appends the warning that no day has the group. `group` is the group in capital letters.
fn push_lines_for(
    lines: &mut String,
    language: Language,
    search: &Search<'_>,
    part: usize,
    group: &str,
    days: &[u8],
) -> Result<(), AllocError>
    ensures { OnOk result (string_bytes lines.new ≡ string_bytes lines.old
        ++ lines_for language (search_of search.now) part group.now days.now) }
{
    match days {
        [_, ..] => push_days(lines, language, search, part, group, days),
        [] => push_no_group(lines, language, search, part, group),
    }
}

/// Appends a line for each of `days`, the days that have the group of part `part`.
///
/// `group` is the group in capital letters.
#[tactic(auto, using(std::proofs::Common::append_assoc))]
fn push_days(
    lines: &mut String,
    language: Language,
    search: &Search<'_>,
    part: usize,
    group: &str,
    days: &[u8],
) -> Result<(), AllocError>
    ensures { OnOk result (string_bytes lines.new ≡ string_bytes lines.old
        ++ flat_map (group_day_line language (search_of search.now) part group.now) days.now) }
{
    match days {
        [day, rest @ ..] => {
            push_day(lines, language, search, part, group, *day)?;
            push_days(lines, language, search, part, group, rest)
        }
        [] => Ok(()),
    }
}

/// Appends the line that says that the group of part `part` belongs to day `day`.
///
/// `group` is the group in capital letters.
#[tactic(auto, unfolding(crate::specs::GroupDays::group_day_line))]
fn push_day(
    lines: &mut String,
    language: Language,
    search: &Search<'_>,
    part: usize,
    group: &str,
    day: u8,
) -> Result<(), AllocError>
    ensures { OnOk result (string_bytes lines.new ≡ string_bytes lines.old
        ++ group_day_line language (search_of search.now) part group.now day) }
{
    let mut part_text = Buffer::new();
    let mut day_text = Buffer::new();
    push_filled(
        lines,
        language.text(GROUP_DAY),
        &[
            search.name,
            part_text.format(part),
            group,
            day_text.format(day),
            search.sheet,
        ],
    )
}

/// Appends the warning that the group of part `part` belongs to no day of the sheet. Only days for the message's
/// machine count.
///
/// `group` is the group in capital letters.
#[tactic(auto, unfolding(crate::specs::GroupDays::no_group_line))]
fn push_no_group(
    lines: &mut String,
    language: Language,
    search: &Search<'_>,
    part: usize,
    group: &str,
) -> Result<(), AllocError>
    ensures { OnOk result (string_bytes lines.new ≡ string_bytes lines.old
        ++ no_group_line language (search_of search.now) part group.now) }
{
    let mut part_text = Buffer::new();
    push_filled(
        lines,
        language.text(NO_GROUP),
        &[search.name, part_text.format(part), search.sheet, group],
    )
}

/// The numbers of the sheet's days that suit the message and `group`, in ascending order.
fn days_with(alloc: Global, search: &Search<'_>, group: [Letter; 3]) -> Result<Vec<u8>, AllocError>
    ensures { IfOk result (λ days. days.items ≡ days_with (search_of search.now) group) }
{
    let mut days = Vec::new(alloc);
    for index in 0..31 {
        push_day_with(&mut days, search, group, index + 1)?;
    }
    Ok(days)
}

/// If the sheet has day `number`, and this day suits the message and `group`, appends `number`.
fn push_day_with(
    days: &mut Vec<u8>,
    search: &Search<'_>,
    group: [Letter; 3],
    number: u8,
) -> Result<(), AllocError>
    ensures { OnOk result (days.new.items
        ≡ days.old.items ++ filter (is_day_with (search_of search.now) group) (number ∷ [])) }
{
    if is_day_with(search, group, number) {
        days.push(number)?;
    }
    Ok(())
}

/// Whether the sheet has day `number`, and this day suits the message and `group`.
#[tactic(auto, unfolding(crate::specs::GroupDays::is_day_with))]
fn is_day_with(search: &Search<'_>, group: [Letter; 3], number: u8) -> bool
    ensures { result ≡ is_day_with (search_of search.now) group number }
{
    match search.month.day(number) {
        Some(day) => suits(search, group, day),
        None => false,
    }
}

/// Whether `day` has `group`, and is for a model that the message can be for.
fn suits(search: &Search<'_>, group: [Letter; 3], day: &SheetDay) -> bool
    ensures { result ≡ suits (search_of search.now) group day.now }
{
    can_be_for(search.keys, day.model()) && has_group(group, day)
}

/// Whether a message can be for `model`, if `keys` says how the message's keys are written.
fn can_be_for(keys: KeyLine, model: Model) -> bool
    ensures { result ≡ can_be_for keys model }
{
    model.slots() == key_slots(keys)
}

/// The number of slots of a machine, from the form of its lines of keys. A Converter has no slots.
fn key_slots(keys: KeyLine) -> u8
    ensures { result ≡ key_slots keys }
{
    match keys {
        KeyLine::ThreeSlots => 3,
        KeyLine::FourSlots => 4,
        KeyLine::Converter => 0,
    }
}

/// Whether `letters` are the letters of one of the day's groups, in any order.
fn has_group(letters: [Letter; 3], day: &SheetDay) -> bool
    ensures value { result ≡ has_group letters day.now }
    ensures any_order { IsTrue result ↔ AreADaysGroup day.now letters }
{
    day.has_group(letters)
}
