//! One pin wheel and its acting pin. The letter that the wheel shows decides which of the wheel's pins acts on the
//! drum.
ghost use Rattle.std.specs.Prelude.{◌≡◌, ◌↔◌, ◌<◌, ◌≤◌, ◌+◌, ◌%◌, IsOk, IsTrue, OnOk, Contains};
ghost use Rattle.kd_tables.specs.Refusals.{refusal_name};
ghost use Rattle.kd_tables.specs.Rings.{IsRing};
ghost use Rattle.kd_pins.specs.PinWheel.{IsWheel, letter_shown, is_acting_pin_effective, place_past, wheel_at_place};
ghost use Rattle.kd_pins.specs.PinWheel.{wheel_showing};

use kd_tables::{Letter, Refusal, RefusalText, Ring};
use std::marker::Model;
use thiserror::Error;

/// A letter isn't on the pin wheel.
#[derive(Clone, Copy, Debug, PartialEq, Eq, Error)]
#[error("{}", self.text())]
pub struct NotOnWheel;

impl NotOnWheel {
    /// The refusal's number and name.
    pub fn text(&self) -> RefusalText
        ensures { result.bytes ≡ refusal_name Refusal.NotOnWheel }
    {
        Refusal::NotOnWheel.text()
    }
}

/// A pin wheel: its letters, in the wheel's own order, with a pin beside each letter.
///
/// The wheel may lack some letters of the alphabet. The field `acting` has the place of the acting pin, because each
/// key press needs this place.
#[derive(Clone, Copy)]
pub struct PinWheel<const N: usize> {
    ring: Ring<N>,
    offset: usize,
    pins: [bool; N],
    acting: usize,
}

impl<const N: usize> Model for PinWheel<N> {
    ghost use Rattle.std.specs.Prelude.{◌≤◌};
    ghost use Rattle.kd_tables.specs.Rings.{IsRing};
    ghost use Rattle.kd_pins.specs.PinWheel.{ActsAt, TurnedWheel, place_past, shown_place_at_acting};

    ghost Value = { TurnedWheel };

    ghost view = { λ w. record {
      ring = w.ring;
      offset = w.offset;
      pins = w.pins;
      place = shown_place_at_acting N w.acting w.offset;
    } };

    ghost invariant = { λ w. IsRing N w.ring × ActsAt N w.acting w.offset × (N ≤ 26) };

    ghost inverse = { λ w. record {
      ring = w.ring;
      offset = w.offset;
      pins = w.pins;
      acting = place_past N w.place w.offset;
    } };

    ghost inverse_ok = { λ w h i. record {
      ring = w.ring;
      offset = w.offset;
      pins = w.pins;
      acting = h.1.past i;
    } };
}

impl<const N: usize> PinWheel<N> {
    /// Makes a wheel that shows its first letter, A, with the pins `pins` beside its letters.
    ///
    /// The acting pin is beside the letter that is `offset` places past the shown letter, in the wheel's own order.
    #[tactic(auto, using(crate::proofs::Rings::at_most_all))]
    pub fn new(ring: Ring<N>, offset: usize, pins: [bool; N]) -> Self
        requires { offset < N }
        ensures value { result
            ≡ record { ring = ring.entry; offset = offset; pins = pins.entry; place = 0 } }
        ensures wheel { IsWheel N result }
    {
        prove!(ring.letters().len() == N);
        PinWheel {
            ring,
            offset,
            pins,
            acting: offset,
        }
    }

    /// Whether the acting pin is effective.
    pub fn acting(&self) -> bool
        ensures { result ≡ is_acting_pin_effective N self.now }
    {
        let PinWheel { pins, acting, .. } = self;
        pins[*acting]
    }

    /// Turns the wheel to the next letter in the wheel's order; after the last letter comes the first.
    pub fn advance(&mut self)
        ensures next { self.new ≡ wheel_at_place self.old (place_past N self.old.place 1) }
        ensures wheel { IsWheel N self.new }
    {
        self.acting = next_place(self.acting, N);
    }

    /// Whether `letter` is on the wheel.
    pub fn has(&self, letter: Letter) -> bool
        ensures { IsTrue result ↔ Contains self.now.ring letter }
    {
        let PinWheel { ring, .. } = self;
        ring.place_of(letter).is_some()
    }

    /// Turns the wheel so that it shows `letter`; does nothing if the letter isn't on the wheel.
    pub fn show(&mut self, letter: Letter)
        ensures turned { self.new ≡ wheel_showing self.old letter }
        ensures shows { Contains self.old.ring letter → letter_shown self.new ≡ letter }
        ensures wheel { IsWheel N self.new }
    {
        if let Some(place) = self.ring.place_of(letter) {
            self.turn(place);
        }
    }

    /// Turns the wheel so that it shows `letter`; refuses and does nothing if the letter isn't on the wheel.
    pub fn set(&mut self, letter: Letter) -> Result<(), NotOnWheel>
        ensures ok { IsOk result ↔ Contains self.old.ring letter }
        ensures turned { self.new ≡ wheel_showing self.old letter }
        ensures shows { OnOk result (letter_shown self.new ≡ letter) }
        ensures wheel { IsWheel N self.new }
    {
        match self.ring.place_of(letter) {
            Some(place) => {
                self.turn(place);
                Ok(())
            }
            None => Err(NotOnWheel),
        }
    }

    /// The letter that the wheel shows.
    pub fn shown(&self) -> Letter
        ensures { result ≡ letter_shown self.now }
    {
        let PinWheel {
            ring,
            offset,
            acting,
            ..
        } = self;
        ring.letter_of((*acting + (N - *offset)) % N)
    }

    /// Turns the wheel so that it shows the letter at `place`, counted from 0.
    fn turn(&mut self, place: usize)
        requires { place < N }
        ensures turned { self.new ≡ wheel_at_place self.old place }
        ensures wheel { IsWheel N self.new }
    {
        self.acting = (place + self.offset) % N;
    }
}

/// The next place after `place` on a wheel of `size` places. Place 0 follows the last place.
///
/// The code compares instead of dividing, because a division would slow each key press.
fn next_place(place: usize, size: usize) -> usize
    requires { place < size }
    ensures { result ≡ place_past size place 1 }
{
    let next = place + 1;
    if next < size { next } else { 0 }
}
