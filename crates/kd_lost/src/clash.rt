//! `Clash`: two parts of a received form that can't be put together as one message, and how they differ.
ghost use Rattle.std.specs.Prelude.{◌≡◌, ◌≤◌, ◌+◌, is_none, length};
ghost use Rattle.kd_lost.specs.Clash.{clash_among, clash_of, clash_with, difference_of, first_different_group};
ghost use Rattle.kd_lost.specs.Clash.{first_different_place, have_one_key, have_one_total, line_shown, text_keys_agree};
ghost use Rattle.kd_lost.specs.Clash.{uncovered_among};
ghost use Rattle.kd_lost.specs.OneMessage.{are_of_one_message, bodies_agree, days_agree};
ghost use Rattle.kd_lost.specs.ShownParts.{is_one_message};

use crate::damage::PartDamage;
use crate::damaged_text::DamagedText;
use crate::one_message::{is_stranger, keys_agree, letter_agrees, parts_agree, same_keys};
use crate::part::{DamagedPart, PartNumbers};
use crate::shown_parts::{is_covered, shown_under};
use kd_tables::Letter;

/// Two parts of a form that can't be put together as one message.
#[derive(Clone, Copy, Debug, PartialEq, Eq)]
pub struct Clash {
    /// The line of the form on which the one part begins, counted from 1.
    pub line: usize,
    /// The line on which the other part begins.
    pub other_line: usize,
    pub difference: Difference,
}

/// How two parts differ that can't be put together as one message. Unless `Totals` differ, the parts share a number.
#[derive(Clone, Copy, Debug, PartialEq, Eq)]
pub enum Difference {
    /// The headings give different numbers of parts.
    Totals,
    /// The bodies have different letters, first in this group, counted from 1.
    Group(usize),
    /// The keys differ.
    Keys,
    /// Only one part's group or list letters are of another day.
    Day,
    /// The bodies have different lengths.
    Length,
    /// The two may be one part, sent twice. But the other part is shown, and lacks letters of the one part.
    Letters,
}

/// The first two parts that can't be put together as one message; `None` if there are no such parts.
///
/// Two parts that can't be of one message come before a part whose letters aren't all shown.
pub fn clash_of(parts: &[DamagedPart]) -> Option<Clash>
    ensures clash { result ≡ clash_of parts.now }
    ensures none { is_none result ≡ is_one_message parts.now }
{
    match clash_among(parts) {
        Some(clash) => Some(clash),
        None => uncovered_among(parts, parts),
    }
}

/// The first two of the parts that can't be of one message.
pub(crate) fn clash_among(parts: &[DamagedPart]) -> Option<Clash>
    ensures clash { result ≡ clash_among parts.now }
    ensures none { is_none result ≡ are_of_one_message parts.now }
{
    let [part, rest @ ..] = parts else {
        return None;
    };
    match clash_with(part, rest) {
        Some(clash) => Some(clash),
        None => clash_among(rest),
    }
}

/// `part` and the first of `others` that can't be of one message with it.
fn clash_with(part: &DamagedPart, others: &[DamagedPart]) -> Option<Clash>
    ensures { result ≡ clash_with part.now others.now }
{
    let [other, rest @ ..] = others else {
        return None;
    };
    if parts_agree(part, other) {
        return clash_with(part, rest);
    }
    Some(Clash {
        line: part.line,
        other_line: other.line,
        difference: difference_of(part, other),
    })
}

/// How two parts differ that can't be of one message.
fn difference_of(one: &DamagedPart, other: &DamagedPart) -> Difference
    ensures { result ≡ difference_of one.now other.now }
{
    if !have_one_total(&one.numbers, &other.numbers) {
        return Difference::Totals;
    }
    if let Some(group) = first_different_group(one.body.as_slice(), other.body.as_slice()) {
        return Difference::Group(group);
    }
    if !have_one_key(one, other) {
        Difference::Keys
    } else if are_of_one_day(one, other) {
        Difference::Length
    } else {
        Difference::Day
    }
}

/// Whether two headings give the same number of parts, or one of them is damaged.
fn have_one_total(one: &Option<PartNumbers>, other: &Option<PartNumbers>) -> bool
    ensures { result ≡ have_one_total one.now other.now }
{
    match (one, other) {
        (Some(one), Some(other)) => one.parts == other.parts,
        _ => true,
    }
}

/// Whether two parts may have the same keys, in their headings and in their bodies.
fn have_one_key(one: &DamagedPart, other: &DamagedPart) -> bool
    ensures { result ≡ have_one_key one.now other.now }
{
    keys_agree(one, other) && text_keys_agree(&one.text, &other.text)
}

/// Whether two parts are read with the same keys, or one isn't read with its heading's count.
fn text_keys_agree(
    one: &Result<DamagedText, PartDamage>,
    other: &Result<DamagedText, PartDamage>,
) -> bool
    ensures { result ≡ text_keys_agree one.now other.now }
{
    match (one, other) {
        (Ok(one), Ok(other)) => same_keys(&one.keys, &other.keys),
        _ => true,
    }
}

/// Whether neither of two parts may be from another day than the other part.
fn are_of_one_day(one: &DamagedPart, other: &DamagedPart) -> bool
    ensures { result ≡ days_agree one.now other.now }
{
    !is_stranger(one, other) && !is_stranger(other, one)
}

/// The first group in which two bodies have different letters, counted from 1.
fn first_different_group(one: &[Option<Letter>], other: &[Option<Letter>]) -> Option<usize>
    requires { length one.now ≤ 525 }
    ensures group { result ≡ first_different_group one.now other.now }
    ensures none { is_none result ≡ bodies_agree one.now other.now }
{
    match first_different_place(0, one, other) {
        Some(place) => Some(place / 5 + 1),
        None => None,
    }
}

/// The first place at which two bodies have different letters. `place` is the place of the first letters.
fn first_different_place(
    place: usize,
    one: &[Option<Letter>],
    other: &[Option<Letter>],
) -> Option<usize>
    requires { place + length one.now ≤ 525 }
    ensures { result ≡ first_different_place place one.now other.now }
{
    if let [letter, one @ ..] = one
        && let [again, other @ ..] = other
    {
        if letter_agrees(letter, again) {
            return first_different_place(place + 1, one, other);
        }
        return Some(place);
    }
    None
}

/// The first of `parts` with a letter that the part shown under its number lacks, and this shown part. The shown parts
/// are from `all`.
fn uncovered_among(all: &[DamagedPart], parts: &[DamagedPart]) -> Option<Clash>
    ensures { result ≡ uncovered_among all.now parts.now }
{
    let [part, rest @ ..] = parts else {
        return None;
    };
    if is_covered(all, part) {
        return uncovered_among(all, rest);
    }
    Some(Clash {
        line: part.line,
        other_line: line_shown(all, part),
        difference: Difference::Letters,
    })
}

/// The line on which the part begins that is shown under the number of `part`. If there is no such part, the line of
/// `part`.
fn line_shown(all: &[DamagedPart], part: &DamagedPart) -> usize
    ensures { result ≡ line_shown all.now part.now.line part.now.numbers }
{
    let Some(numbers) = &part.numbers else {
        return part.line;
    };
    match shown_under(all, u16::from(numbers.part)) {
        Some(shown) => shown.line,
        None => part.line,
    }
}
