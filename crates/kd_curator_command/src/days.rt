//! `Days`: the days that the argument DAYS names.
ghost use Rattle.std.specs.Prelude.{◌≡◌, ◌<◌, ◌≤◌, ◌+◌, [], ◌∷◌, ◌++◌, ℕ, List, Some, MatchOption, length};
ghost use Rattle.std.specs.Prelude.{if◌then◌else◌};
ghost use Rattle.std.specs.List.{before_first, after_first};
ghost use Rattle.kd_curator_command.specs.Days.{AddsDays, AreDays, day_named, days_from, days_named, is_comma, is_hyphen};
ghost use Rattle.kd_curator_command.specs.Days.{has_twice, range_named};

use arrayvec::ArrayVec;
use kd_state::day_of_text;
use std::marker::Model;

/// Up to 31 days of a month, in the order of their pages.
#[derive(Drop)]
pub struct Days {
    numbers: ArrayVec<u8, 31>,
}

impl Model for Days {
    ghost use Rattle.std.specs.Prelude.{List, ℕ};

    ghost Value = { List ℕ };

    ghost view = { λ days. days.numbers.items };
}

impl Days {
    /// An empty list of days.
    pub fn new() -> Self
        ensures { result ≡ [] }
    {
        Days {
            numbers: ArrayVec::new(),
        }
    }

    /// The numbers of the days.
    pub fn as_slice(&self) -> &[u8]
        ensures value { result.now ≡ self.now }
        ensures few { length result.now ≤ 31 }
    {
        self.numbers.as_slice()
    }

    /// Adds the day `number` if `is_wanted`.
    pub fn add_if(&mut self, number: u8, is_wanted: bool)
        requires { length self.old < 31 }
        ensures items { self.new ≡ self.old ++ (if is_wanted then number ∷ [] else []) }
        ensures len { length self.new ≤ length self.old + 1 }
    {
        if is_wanted {
            self.numbers.push(number);
        }
    }

    /// Adds the day `number`. Returns `None` if there are 31 days already.
    pub fn add(&mut self, number: u8) -> Option<()>
        ensures { AddsDays (Some (number ∷ [])) self.old self.new result }
    {
        if self.numbers.is_full() {
            return None;
        }
        self.numbers.push(number);
        Some(())
    }
}

/// The days that `word` names, for example `2`, `1-31` or `1,4,2`. `None` if `word` names no days, or names a day
/// twice.
pub fn days_of_word(word: &str) -> Option<Days>
    ensures { MatchOption result
        ((days : List ℕ) → ¬ (AreDays word.now days))
        (AreDays word.now) }
{
    let mut days = Days::new();
    add_ranges(&mut days, word)?;
    if has_twice(days.as_slice()) {
        return None;
    }
    Some(days)
}

/// Whether `days` has a day twice.
fn has_twice(days: &[u8]) -> bool
    ensures { result ≡ has_twice days.now }
{
    match days {
        [day, rest @ ..] => rest.contains(day) || has_twice(rest),
        [] => false,
    }
}

/// Adds the days of a text such as `1,4-6`, which is a list of ranges with commas between them.
fn add_ranges(days: &mut Days, text: &str) -> Option<()>
    ensures { AddsDays (days_named text.now) days.old days.new result }
{
    match text.split_once(',') {
        None => add_range(days, text),
        Some((range, ranges)) => {
            add_range(days, range)?;
            add_ranges(days, ranges)
        }
    }
}

/// Adds the days of a range: `3` gives one day, and `3-7` gives all days from 3 to 7.
#[tactic(auto, using(std::proofs::lemmas::Str::Pattern::split_once_first), unfolding(crate::specs::Days::range_named))]
fn add_range(days: &mut Days, text: &str) -> Option<()>
    ensures { AddsDays (range_named text.now) days.old days.new result }
{
    match text.split_once('-') {
        None => days.add(day_of(text)?),
        Some((first, last)) => {
            let first = day_of(first)?;
            let last = day_of(last)?;
            if last < first {
                return None;
            }
            add_all(days, first, last)
        }
    }
}

/// The day whose decimal number is `text`.
fn day_of(text: &str) -> Option<u8>
    ensures { result ≡ day_named text.now }
{
    day_of_text(text.as_bytes())
}

/// Adds all days from `first` to `last`.
fn add_all(days: &mut Days, first: u8, last: u8) -> Option<()>
    requires { first ≤ last }
    ensures { AddsDays (Some (days_from first last)) days.old days.new result }
{
    days.add(first)?;
    if first == last {
        return Some(());
    }
    add_all(days, first + 1, last)
}
