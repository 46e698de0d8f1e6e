//! The warnings of a part: whether its group or its list letters are the day's letters, and which copies of the
//! indicators have lost letters.
ghost use Rattle.std.specs.Prelude.{◌≡◌, ◌≢◌, ◌≤◌, ◌↔◌, length, map, take, All, Any, None, Some, IsTrue, MatchOption};
ghost use Rattle.std.specs.Bool.{OnTrue, OnFalse};
ghost use Rattle.kd_form.specs.PartMaking.{list_letters};
ghost use Rattle.kd_form.specs.KeyPatterns.{IsConverterDay};
ghost use Rattle.kd_lost.specs.Lost.{Completes};
ghost use Rattle.kd_lost.specs.DamagedText.{IsBodyTest, IsGroupTest, IsListTest, IsLostInBoth, front_letters};

use crate::copies::is_letter_for;
use crate::damaged_text::GroupTest;
use arrayvec::ArrayVec;
use kd_form::day_machine::slots_of;
use kd_state::SheetDay;
use kd_tables::Letter;

/// Tests whether `received`, the group of a rotor machine's message part, is one of the day's groups.
pub(crate) fn test_group(day: &SheetDay, received: &[Option<Letter>]) -> GroupTest
    requires { length received.now ≡ 3 }
    ensures { IsGroupTest day.now received.now result }
{
    let Some(letters) = known_letters(received) else {
        return GroupTest::NotTested;
    };
    let group = <[Letter; 3]>::try_from(letters.as_slice()).unwrap();
    if day.has_group(group) {
        GroupTest::Right
    } else {
        GroupTest::Wrong
    }
}

/// Tests the group or the list letters in `body`, which has the letters of a part.
///
/// The part's heading says that there are `counted` letters.
pub(crate) fn test_body(day: &SheetDay, counted: usize, body: &[Option<Letter>]) -> GroupTest
    ensures { IsBodyTest day.now counted body.now result }
{
    if body.len() < front_letters(day) {
        return GroupTest::NotTested;
    }
    match slots_of(day) {
        Some(_) => test_group(day, &body[2..5]),
        None if body.len() == counted => test_list(day, &body[8..10], &body[body.len() - 2..]),
        None => test_list(day, &body[8..10], &[None, None]),
    }
}

/// How many letters of a body stand before its text.
fn front_letters(day: &SheetDay) -> usize
    ensures { result ≡ front_letters day.now }
{
    match slots_of(day) {
        Some(_) => 5,
        None => 10,
    }
}

/// The letters of `received`; `None` if one of them is lost.
fn known_letters(received: &[Option<Letter>]) -> Option<ArrayVec<Letter, 3>>
    requires { length received.now ≤ 3 }
    ensures { MatchOption result
        (Any (λ got. got ≡ None) received.now)
        (λ letters. received.now ≡ map Some letters.items) }
{
    let mut letters = ArrayVec::new();
    for got in received {
        match got {
            Some(letter) => letters.push(*letter),
            None => return None,
        }
    }
    Some(letters)
}

/// Compares `start` and `end`, the received copies of the list letters, with the day's list letters.
pub(crate) fn test_list(
    day: &SheetDay,
    start: &[Option<Letter>],
    end: &[Option<Letter>],
) -> GroupTest
    requires { IsConverterDay day.now }
    ensures { IsListTest (list_letters day.now) start.now end.now result }
{
    let due = day.list().unwrap();
    if !completes(start, &due) || !completes(end, &due) {
        return GroupTest::Wrong;
    }
    if is_lost_in_both(start, end) {
        return GroupTest::NotTested;
    }
    GroupTest::Right
}

/// Whether each letter of `received` is lost, or equals the letter of `letters` at the same place.
fn completes(received: &[Option<Letter>], letters: &[Letter]) -> bool
    ensures { IsTrue result ↔ Completes received.now letters.now }
{
    if let [got, received @ ..] = received
        && let [letter, letters @ ..] = letters
    {
        return is_letter_for(got, *letter) && completes(received, letters);
    }
    received.is_empty() && letters.is_empty()
}

/// Whether both copies of the list letters have a lost letter at the same place.
fn is_lost_in_both(start: &[Option<Letter>], end: &[Option<Letter>]) -> bool
    ensures { IsTrue result ↔ IsLostInBoth start.now end.now }
{
    if let [one, start @ ..] = start
        && let [other, end @ ..] = end
    {
        return (one.is_none() && other.is_none()) || is_lost_in_both(start, end);
    }
    false
}

/// Whether a letter of `received` is lost.
pub(crate) fn has_lost_letter(received: &[Option<Letter>]) -> bool
    ensures lost { OnTrue result (Any (λ got. got ≡ None) received.now) }
    ensures none { OnFalse result (All (λ got. got ≢ None) received.now) }
{
    for got in received {
        if got.is_none() {
            return true;
        }
    }
    false
}
