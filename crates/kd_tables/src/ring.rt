//! The letters of the Converter's six pin wheels.
ghost use Rattle.std.specs.Prelude.{◌≡◌, ◌↔◌, ◌<◌, ◌≤◌, length, slice_index, Contains, Some, IsSome, IfSome};
ghost use Rattle.kd_tables.specs.Rings.{ring_of, place_on, IsRing};

use super::letter::Letter;
use super::published_text::ring;
use std::marker::Model;

/// The letters of a pin wheel of the Converter M-209, in their order on the wheel, from A on.
#[derive(Clone, Copy)]
pub struct Ring<const N: usize> {
    letters: [Letter; N],
}

impl<const N: usize> Model for Ring<N> {
    ghost use Rattle.std.specs.Prelude.{ℕ, List};
    ghost use Rattle.kd_tables.specs.Rings.{IsRing};

    ghost Value = { List ℕ };

    ghost view = { λ r. r.letters };

    ghost invariant = { λ r. IsRing N r.letters };

    ghost inverse = { λ letters. record { letters = letters } };
}

impl<const N: usize> Ring<N> {
    /// The letters on the pin wheel, in order: one at each place, and all different.
    pub fn letters(&self) -> [Letter; N]
        ensures value { result ≡ self.now }
        ensures ring { IsRing N result }
    {
        self.letters
    }

    /// The pin wheel's letter at `place`, counted from 0.
    pub fn letter_of(&self, place: usize) -> Letter
        requires { place < N }
        ensures value { result ≡ slice_index self.now place }
        ensures within { result < 26 }
        ensures there_alone { place_on self.now result ≡ Some place }
    {
        self.letters[place]
    }

    /// The place of `letter` on the pin wheel, counted from 0; `None` if the wheel lacks the letter.
    pub fn place_of(&self, letter: Letter) -> Option<usize>
        ensures value { result ≡ place_on self.now letter }
        ensures exists { IsSome result ↔ Contains self.now letter }
        ensures within { IfSome result (λ place. place < N) }
        ensures there { IfSome result (λ place. slice_index self.now place ≡ letter) }
    {
        self.letters.iter().position(|other| *other == letter)
    }
}

/// The letters of pin wheel 1: all 26. For all six wheels, the source is War Department TM 11-380.
#[tactic(auto, unfolding(crate::specs::Rings::ring_of))]
pub fn ring1() -> Ring<26>
    ensures { result ≡ ring_of 1 }
{
    Ring {
        letters: ring(b"ABCDEFGHIJKLMNOPQRSTUVWXYZ"),
    }
}

/// The letters of pin wheel 2: all but W.
#[tactic(auto, unfolding(crate::specs::Rings::ring_of))]
pub fn ring2() -> Ring<25>
    ensures { result ≡ ring_of 2 }
{
    Ring {
        letters: ring(b"ABCDEFGHIJKLMNOPQRSTUVXYZ"),
    }
}

/// The letters of pin wheel 3: A to X without W.
#[tactic(auto, unfolding(crate::specs::Rings::ring_of))]
pub fn ring3() -> Ring<23>
    ensures { result ≡ ring_of 3 }
{
    Ring {
        letters: ring(b"ABCDEFGHIJKLMNOPQRSTUVX"),
    }
}

/// The letters of pin wheel 4: A to U.
#[tactic(auto, unfolding(crate::specs::Rings::ring_of))]
pub fn ring4() -> Ring<21>
    ensures { result ≡ ring_of 4 }
{
    Ring {
        letters: ring(b"ABCDEFGHIJKLMNOPQRSTU"),
    }
}

/// The letters of pin wheel 5: A to S.
#[tactic(auto, unfolding(crate::specs::Rings::ring_of))]
pub fn ring5() -> Ring<19>
    ensures { result ≡ ring_of 5 }
{
    Ring {
        letters: ring(b"ABCDEFGHIJKLMNOPQRS"),
    }
}

/// The letters of pin wheel 6: A to Q.
#[tactic(auto, unfolding(crate::specs::Rings::ring_of))]
pub fn ring6() -> Ring<17>
    ensures { result ≡ ring_of 6 }
{
    Ring {
        letters: ring(b"ABCDEFGHIJKLMNOPQ"),
    }
}

/// The place of `letter` on pin wheel `wheel`, counted from 0.
///
/// `None` if the letter isn't on the wheel, or if `wheel` isn't from 1 to 6.
#[tactic(auto, using(crate::proofs::Rings::no_ring))]
pub fn place_on_wheel(wheel: u8, letter: Letter) -> Option<usize>
    ensures value { result ≡ place_on (ring_of wheel) letter }
    ensures exists { IsSome result ↔ Contains (ring_of wheel) letter }
    ensures wheel { IsSome result → (1 ≤ wheel) × (wheel ≤ 6) }
    ensures within { IfSome result (λ place. place < length (ring_of wheel)) }
{
    match wheel {
        1 => ring1().place_of(letter),
        2 => ring2().place_of(letter),
        3 => ring3().place_of(letter),
        4 => ring4().place_of(letter),
        5 => ring5().place_of(letter),
        6 => ring6().place_of(letter),
        _ => None,
    }
}
