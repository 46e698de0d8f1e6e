//! The plugboard's cables, and the letters in them.
ghost use Rattle.std.specs.Prelude.{◌≡◌, ◌↔◌, IsTrue, map, nat_eq};
ghost use Rattle.std.specs.List.{IsDistinct};
ghost use Rattle.std.specs.Option.{option_to_list};
ghost use Rattle.kd_tables.specs.{Pairs.{are_new_and_distinct, has_letter}, Places.smaller_first};
ghost use Rattle.kd_state.specs.Machine.{cable_letters, letters_in_cables, cable_in_order};
ghost use Rattle.kd_state.specs.Setting.{cable_without};

use kd_tables::Letter;

/// A cable's letters: none, one or two.
pub type Cable = (Option<Letter>, Option<Letter>);

/// The cable with the letters `one` and `other` in alphabetical order. A single letter is at the first end.
pub(crate) fn cable_in_order(one: Option<Letter>, other: Option<Letter>) -> Cable
    ensures { result ≡ cable_in_order one other }
{
    match (one, other) {
        (None, _) => (other, None),
        (Some(_), None) => (one, None),
        (Some(letter), Some(next)) if letter.index() <= next.index() => (one, other),
        (Some(_), Some(_)) => (other, one),
    }
}

/// Puts the letters of each cable in alphabetical order. A single letter moves to the first end.
pub(crate) fn put_in_order(cables: &mut [Cable])
    ensures { cables.new ≡ map (λ cable. cable_in_order cable.0 cable.1) cables.old }
{
    for cable in cables.iter_mut() {
        let (one, other) = *cable;
        *cable = cable_in_order(one, other);
    }
}

/// Whether `letter` is in `cable`.
pub fn lies_in(cable: &Cable, letter: Letter) -> bool
    ensures { result ≡ has_letter (cable_letters cable.now) letter }
{
    is_letter(cable.0, letter) || is_letter(cable.1, letter)
}

/// Whether `end`, which is one end of a cable, has `letter`.
fn is_letter(end: Option<Letter>, letter: Letter) -> bool
    ensures { result ≡ has_letter (option_to_list end) letter }
{
    end == Some(letter)
}

/// Whether `letter` is in one of `cables`.
pub(crate) fn lies_in_any(cables: &[Cable], letter: Letter) -> bool
    ensures { result ≡ has_letter (letters_in_cables cables.now) letter }
{
    for cable in cables {
        if lies_in(cable, letter) {
            return true;
        }
    }
    false
}

/// The letters `one` and `other` in alphabetical order.
pub fn letters_in_order(one: Letter, other: Letter) -> (Letter, Letter)
    ensures { result ≡ smaller_first one other }
{
    if one.index() <= other.index() {
        (one, other)
    } else {
        (other, one)
    }
}

/// `cable` without `letter`, which must be one of the cable's letters.
pub(crate) fn cable_without(cable: &Cable, letter: Letter) -> Cable
    ensures { result ≡ cable_without letter cable.now }
{
    if is_letter(cable.0, letter) {
        (cable.1, None)
    } else {
        (cable.0, None)
    }
}

/// Whether all letters in the cables are different.
pub(crate) fn have_no_letter_twice(cables: &[Cable]) -> bool
    ensures { IsTrue result ↔ IsDistinct nat_eq (letters_in_cables cables.now) }
{
    match cables {
        [cable, rest @ ..] => are_new_and_distinct(cable, rest) && have_no_letter_twice(rest),
        [] => true,
    }
}

/// Whether the letters of `cable` differ from each other, and from all letters in `others`.
pub fn are_new_and_distinct(cable: &Cable, others: &[Cable]) -> bool
    ensures { result
        ≡ are_new_and_distinct (cable_letters cable.now) (letters_in_cables others.now) }
{
    match *cable {
        (None, None) => true,
        (Some(letter), None) | (None, Some(letter)) => !lies_in_any(others, letter),
        (Some(one), Some(other)) => {
            !(other == one || lies_in_any(others, one)) && !lies_in_any(others, other)
        }
    }
}
