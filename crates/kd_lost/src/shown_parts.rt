//! Which part of a received form is shown under each number, and whether the form is one whole message.
ghost use Rattle.std.specs.Prelude.{◌≡◌, ◌≢◌, ◌↔◌, ◌≤◌, ◌+◌, All, IsTrue, MatchOption, None, Some, length};
ghost use Rattle.std.specs.List.{range_with_len};
ghost use Rattle.kd_lost.specs.ShownParts.{IsNumberWhole, IsReadWhole, IsWhole, MayBeOfTheDay};
ghost use Rattle.kd_lost.specs.ShownParts.{are_in_order, is_any_read, is_covered, is_number, is_one_message, is_worse};
ghost use Rattle.kd_lost.specs.ShownParts.{numbers_of, shown_under, times_of, total_of};

use crate::clash::clash_of;
use crate::part::{DamagedPart, PartNumbers};
use crate::texts::{is_of_other_day, is_text_within, lost_in, shown_text};
use kd_tables::Letter;

/// The number of parts that the first undamaged heading gives; 0 if all are damaged.
pub fn total_of(parts: &[DamagedPart]) -> u8
    ensures { result ≡ total_of parts.now }
{
    match parts {
        [part, rest @ ..] => match &part.numbers {
            Some(numbers) => numbers.parts,
            None => total_of(rest),
        },
        [] => 0,
    }
}

/// Whether the part numbers never fall, and the first part number is at least `before`.
///
/// Parts without a number are skipped.
pub fn are_in_order(before: u8, parts: &[DamagedPart]) -> bool
    ensures { result ≡ are_in_order before (numbers_of parts.now) }
{
    match parts {
        [part, rest @ ..] => match &part.numbers {
            Some(numbers) => before <= numbers.part && are_in_order(numbers.part, rest),
            None => are_in_order(before, rest),
        },
        [] => true,
    }
}

/// Whether a heading gives `number` as the number of its part.
fn is_number(number: u16, numbers: &Option<PartNumbers>) -> bool
    ensures { result ≡ is_number number numbers.now }
{
    match numbers {
        Some(numbers) => u16::from(numbers.part) == number,
        None => false, // A damaged heading gives no number.
    }
}

/// How many of the received parts have the number `number`.
pub fn times_of(parts: &[DamagedPart], number: u16) -> usize
    ensures { result ≡ times_of parts.now number }
{
    parts
        .iter()
        .filter(|part| is_number(number, &part.numbers))
        .count()
}

/// The part that is shown under `number`: of the parts with this number, the first with the best text.
///
/// A text is better if it has fewer lost letters. If equally many are lost, a text that was read with the heading's
/// letter count is better than a text by count.
pub fn shown_under(parts: &[DamagedPart], number: u16) -> Option<&DamagedPart>
    ensures { MatchOption result
        (shown_under parts.now number ≡ None)
        (λ part. shown_under parts.now number ≡ Some part.now) }
{
    let [part, rest @ ..] = parts else {
        return None;
    };
    let later = shown_under(rest, number);
    if !is_number(number, &part.numbers) {
        return later;
    }
    match later {
        Some(later) if is_worse(part, later) => Some(later),
        _ => Some(part),
    }
}

/// Whether the text of `one` is worse than the text of `other`. It is worse in these cases:
/// - `one` has no text, but `other` has a text.
/// - `one` has more lost letters.
/// - Both have equally many lost letters, and only `other` was read with the heading's count.
fn is_worse(one: &DamagedPart, other: &DamagedPart) -> bool
    ensures { result ≡ is_worse one.now other.now }
{
    match (shown_text(one), shown_text(other)) {
        (Some(text), Some(later)) => {
            let (lost, later_lost) = (lost_in(text), lost_in(later));
            later_lost < lost || later_lost == lost && one.text.is_err() && other.text.is_ok()
        }
        (None, Some(_)) => true,
        (_, None) => false,
    }
}

/// Whether the parts are shown as one message.
///
/// Two conditions must hold:
/// - Every two of the parts can be of one message.
/// - The part that is shown under a number has all letters of the other parts with this number.
pub fn is_one_message(parts: &[DamagedPart]) -> bool
    ensures { result ≡ is_one_message parts.now }
{
    clash_of(parts).is_none()
}

/// Whether the part that is shown under the number of `part` has all letters of `part`.
///
/// The shown part is one of `all`. True if `part` has no number.
pub(crate) fn is_covered(all: &[DamagedPart], part: &DamagedPart) -> bool
    ensures { result ≡ is_covered all.now part.now }
{
    match &part.numbers {
        Some(numbers) => match shown_under(all, u16::from(numbers.part)) {
            Some(shown) => is_text_within(part, shown),
            None => shown_text(part).is_none(),
        },
        None => true,
    }
}

/// Whether at least one part is read, by its heading's count or by the number of received letters.
pub fn is_any_read(parts: &[DamagedPart]) -> bool
    ensures { result ≡ is_any_read parts.now }
{
    match parts {
        [part, rest @ ..] => part.text.is_ok() || part.by_count.is_some() || is_any_read(rest),
        [] => false,
    }
}

/// Whether the form is one whole message.
pub fn is_whole(parts: &[DamagedPart]) -> bool
    ensures { IsTrue result ↔ IsWhole parts.now }
{
    let total = total_of(parts);
    is_one_message(parts)
        && are_numbered(parts)
        && may_be_of_the_day(parts)
        && total > 0
        && are_whole(parts, 1, u16::from(total))
}

/// Whether each part has a number.
fn are_numbered(parts: &[DamagedPart]) -> bool
    ensures { IsTrue result ↔ All (λ part. part.numbers ≢ None) parts.now }
{
    match parts {
        [part, rest @ ..] => part.numbers.is_some() && are_numbered(rest),
        [] => true,
    }
}

/// Whether all parts may be of the day: no group or list letters show that a part is of another day or network.
fn may_be_of_the_day(parts: &[DamagedPart]) -> bool
    ensures { IsTrue result ↔ All MayBeOfTheDay parts.now }
{
    match parts {
        [part, rest @ ..] => !is_of_other_day(part) && may_be_of_the_day(rest),
        [] => true,
    }
}

/// Whether a part with no lost letter is shown under each of the `count` numbers from `number` on.
fn are_whole(parts: &[DamagedPart], number: u16, count: u16) -> bool
    requires { number + count ≤ 256 }
    ensures { IsTrue result
        ↔ All (IsNumberWhole parts.now) (range_with_len number count) }
{
    if count == 0 {
        return true;
    }
    is_number_whole(parts, number) && are_whole(parts, number + 1, count - 1)
}

fn is_number_whole(parts: &[DamagedPart], number: u16) -> bool
    ensures { IsTrue result ↔ IsNumberWhole parts.now number }
{
    match shown_under(parts, number) {
        Some(part) => is_read_whole(part),
        None => false,
    }
}

fn is_read_whole(part: &DamagedPart) -> bool
    ensures { IsTrue result ↔ IsReadWhole part.now }
{
    match &part.text {
        Ok(shown) => are_received(shown.letters.as_slice()),
        Err(_) => false,
    }
}

/// Whether none of `letters` is lost.
fn are_received(letters: &[Option<Letter>]) -> bool
    ensures { IsTrue result ↔ All (λ got. got ≢ None) letters.now }
{
    match letters {
        [letter, rest @ ..] => letter.is_some() && are_received(rest),
        [] => true,
    }
}
