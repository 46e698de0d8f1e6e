//! Finds days that have fewer pairs, or fewer groups, than another day of their model.
ghost use Rattle.std.specs.Prelude.{◌≡◌, ◌++◌, find, OnOk, IfOk};
ghost use Rattle.std.specs.List.{list_any};
ghost use Rattle.std.specs.String.{string_bytes};
ghost use Rattle.kd_slips.specs.Counts.{count, count_words, counts_of, day_lines, few_line, few_lines, few_words};
ghost use Rattle.kd_slips.specs.Counts.{has_more, has_most, noun};

use crate::texts;
use itoa::Buffer;
use kd_language::template::push_filled;
use kd_language::{Language, Wording};
use kd_state::SheetDay;
use kd_tables::Model;
use std::alloc::AllocError;

/// What is counted on a day: its pairs, or its groups.
#[derive(Clone, Copy)]
pub enum Counted {
    Pairs,
    Groups,
}

/// A day, with its numbers of pairs and groups.
#[derive(Clone, Copy)]
pub struct DayCounts {
    pub day: u8,
    pub model: Model,
    pub pairs: usize,
    pub groups: usize,
}

/// A day's numbers of pairs and groups. Both are 0 on a Converter's day.
pub fn counts_of(day: &SheetDay) -> DayCounts
    ensures { result ≡ counts_of day.now }
{
    DayCounts {
        day: day.day(),
        model: day.model(),
        pairs: day.pairs().unwrap_or(&[]).len(),
        groups: day.groups().unwrap_or(&[]).len(),
    }
}

/// The warnings about all days that have fewer pairs, or fewer groups, than another day of their model. Each warning
/// begins with `start`.
pub fn few_lines(wording: Wording, start: &str, days: &[DayCounts]) -> Result<String, AllocError>
    ensures { IfOk result (λ lines.
        string_bytes lines ≡ few_lines wording.language start.now days.now) }
{
    let mut lines = String::new(wording.alloc);
    for day in days {
        push_day(&mut lines, wording, start, days, day)?;
    }
    Ok(lines)
}

/// Appends the warnings about `day`: about its pairs, and about its groups.
#[tactic(auto, using(std::proofs::Common::append_assoc), unfolding(crate::specs::Counts::day_lines))]
fn push_day(
    lines: &mut String,
    wording: Wording,
    start: &str,
    days: &[DayCounts],
    day: &DayCounts,
) -> Result<(), AllocError>
    ensures { OnOk result (string_bytes lines.new
        ≡ string_bytes lines.old ++ day_lines wording.language start.now days.now day.now) }
{
    push_few(lines, wording, start, days, day, Counted::Pairs)?;
    push_few(lines, wording, start, days, day, Counted::Groups)
}

/// If another day of `day`'s model in `days` has more pairs, or more groups, appends the warning about `day`.
///
/// `counted` says whether pairs or groups are compared.
fn push_few(
    lines: &mut String,
    wording: Wording,
    start: &str,
    days: &[DayCounts],
    day: &DayCounts,
    counted: Counted,
) -> Result<(), AllocError>
    ensures { OnOk result (string_bytes lines.new
        ≡ string_bytes lines.old ++ few_line wording.language start.now days.now day.now counted) }
{
    match find_most(counted, days, day, days) {
        Some(most) => push_words(lines, wording, start, counted, day, &most),
        None => Ok(()),
    }
}

/// The first day in `rest` that has more pairs than `day`, and at least as many as each day in `days`.
///
/// If `counted` is `Groups`, groups are compared instead. Only days of the same model are compared.
fn find_most(
    counted: Counted,
    days: &[DayCounts],
    day: &DayCounts,
    rest: &[DayCounts],
) -> Option<DayCounts>
    ensures { result ≡ find (has_most counted days.now day.now) rest.now }
{
    match rest {
        [other, rest @ ..] => {
            if has_most(counted, days, day, other) {
                Some(*other)
            } else {
                find_most(counted, days, day, rest)
            }
        }
        [] => None,
    }
}

/// Whether `other` has more pairs than `day`, and no day in `days` has more than `other`.
///
/// If `counted` is `Groups`, groups are compared instead. Only days of the same model are compared.
fn has_most(counted: Counted, days: &[DayCounts], day: &DayCounts, other: &DayCounts) -> bool
    ensures { result ≡ has_most counted days.now day.now other.now }
{
    has_more(counted, day, other) && !is_topped(counted, other, days)
}

/// Whether one of `days` has more pairs than `day`.
///
/// If `counted` is `Groups`, groups are compared instead. Only days of the same model are compared.
fn is_topped(counted: Counted, day: &DayCounts, days: &[DayCounts]) -> bool
    ensures { result ≡ list_any (has_more counted day.now) days.now }
{
    match days {
        [other, rest @ ..] => has_more(counted, day, other) || is_topped(counted, day, rest),
        [] => false,
    }
}

/// Whether `other` has more pairs than `day`.
///
/// If `counted` is `Groups`, groups are compared instead. Only days of the same model are compared.
fn has_more(counted: Counted, day: &DayCounts, other: &DayCounts) -> bool
    ensures { result ≡ has_more counted day.now other.now }
{
    other.model == day.model && count(counted, day) < count(counted, other)
}

/// Appends the warning that `day` has fewer pairs, or fewer groups, than `most`, another day of its model.
#[tactic(auto, using(std::proofs::Common::append_assoc), unfolding(crate::specs::Counts::few_words))]
fn push_words(
    lines: &mut String,
    wording: Wording,
    start: &str,
    counted: Counted,
    day: &DayCounts,
    most: &DayCounts,
) -> Result<(), AllocError>
    ensures { OnOk result (string_bytes lines.new
        ≡ string_bytes lines.old ++ few_words wording.language start.now counted day.now most.now) }
{
    let words = count_words(wording, counted, count(counted, day))?;
    let mut day_buffer = Buffer::new();
    let mut most_day_buffer = Buffer::new();
    let mut most_buffer = Buffer::new();
    let values = [
        day_buffer.format(day.day),
        words.as_str(),
        most_day_buffer.format(most.day),
        most_buffer.format(count(counted, most)),
    ];
    lines.push_str(start)?;
    push_filled(lines, wording.language.text(texts::FEW), &values)
}

/// The words that give a number of pairs or groups, for example `no pairs`.
#[tactic(auto, unfolding(crate::specs::Counts::count_words))]
fn count_words(wording: Wording, counted: Counted, number: usize) -> Result<String, AllocError>
    ensures { IfOk result (λ words.
        string_bytes words ≡ count_words wording.language counted number) }
{
    let mut words = String::new(wording.alloc);
    let mut buffer = Buffer::new();
    if number == 0 {
        words.push_str(wording.language.text(texts::NO))?;
    } else {
        words.push_str(buffer.format(number))?;
    }
    words.push_str(noun(wording.language, counted, number))?;
    Ok(words)
}

/// A space, then the noun for `number` pairs or groups.
fn noun(language: Language, counted: Counted, number: usize) -> &'static str
    ensures { result.now ≡ noun language counted number }
{
    match counted {
        Counted::Pairs if number == 1 => language.text(texts::PAIR),
        Counted::Pairs => language.text(texts::PAIRS),
        Counted::Groups if number == 1 => language.text(texts::GROUP),
        Counted::Groups => language.text(texts::GROUPS),
    }
}

/// The day's number of pairs or, if `counted` is `Groups`, of groups.
fn count(counted: Counted, day: &DayCounts) -> usize
    ensures { result ≡ count counted day.now }
{
    match counted {
        Counted::Pairs => day.pairs,
        Counted::Groups => day.groups,
    }
}
