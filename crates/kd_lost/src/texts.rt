//! The text that is shown for a part, and whether one text has all letters of another text.
ghost use Rattle.std.specs.Prelude.{◌≡◌, MatchOption, None, Some, is_none};
ghost use Rattle.kd_lost.specs.Texts.{is_of_other_day, is_wrong_day, letter_within, letters_within, lost_in, shown_text};
ghost use Rattle.kd_lost.specs.Texts.{text_within};

use crate::damaged_text::{DamagedText, GroupTest};
use crate::part::DamagedPart;
use kd_tables::Letter;

/// The text that is shown for a part: the part's text or, if there is none, its text by count.
pub fn shown_text(part: &DamagedPart) -> Option<&DamagedText>
    ensures { MatchOption result
        (shown_text part.now ≡ None)
        (λ text. shown_text part.now ≡ Some text.now) }
{
    match (&part.text, &part.by_count) {
        (Ok(shown), _) => Some(shown),
        (Err(_), Some(shown)) => Some(shown),
        (Err(_), None) => None,
    }
}

/// Whether the group or the list letters are of another day.
pub fn is_wrong_day(group: GroupTest) -> bool
    ensures { result ≡ is_wrong_day group }
{
    match group {
        GroupTest::Wrong => true,
        GroupTest::Right | GroupTest::NotTested => false,
    }
}

/// Whether the group or the list letters of `part` are of another day.
///
/// They can be tested even in a part that isn't read.
pub(crate) fn is_of_other_day(part: &DamagedPart) -> bool
    ensures { result ≡ is_of_other_day part.now }
{
    match shown_text(part) {
        Some(shown) => is_wrong_day(shown.group),
        None => is_wrong_day(part.group),
    }
}

/// Whether the text of `other` has each letter of the text of `one`, and at most as many lost letters.
pub(crate) fn is_text_within(one: &DamagedPart, other: &DamagedPart) -> bool
    ensures { result ≡ text_within (shown_text one.now) (shown_text other.now) }
{
    match (shown_text(one), shown_text(other)) {
        (None, _) => true,
        (Some(_), None) => false,
        (Some(one), Some(other)) => {
            are_letters_within(one.letters.as_slice(), other.letters.as_slice())
                && lost_in(other) <= lost_in(one)
        }
    }
}

/// Whether each letter of `one` that isn't lost stands in `other`, at the same place.
fn are_letters_within(one: &[Option<Letter>], other: &[Option<Letter>]) -> bool
    ensures { result ≡ letters_within one.now other.now }
{
    let [letter, one @ ..] = one else {
        return true;
    };
    match other {
        [again, other @ ..] => is_within(letter, again) && are_letters_within(one, other),
        [] => letter.is_none() && are_letters_within(one, &[]),
    }
}

fn is_within(letter: &Option<Letter>, again: &Option<Letter>) -> bool
    ensures { result ≡ letter_within letter.now again.now }
{
    match (letter, again) {
        (None, _) => true,
        (Some(letter), Some(again)) => *letter == *again,
        (Some(_), None) => false,
    }
}

/// How many letters of a text are lost.
pub(crate) fn lost_in(shown: &DamagedText) -> usize
    ensures { result ≡ lost_in shown.now }
{
    shown
        .letters
        .as_slice()
        .iter()
        .filter(|letter| is_lost(letter))
        .count()
}

fn is_lost(letter: &Option<Letter>) -> bool
    ensures { result ≡ is_none letter.now }
{
    letter.is_none()
}
