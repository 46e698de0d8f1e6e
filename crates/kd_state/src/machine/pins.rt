//! The letters and pins of the Converter's six wheels, by wheel number.
ghost use Rattle.std.specs.Prelude.{◌≡◌, ◌↔◌, ◌≤◌, slice_set, unwrap_or, Contains, IsSome, IsTrue};
ghost use Rattle.kd_tables.specs.{Pairs.has_letter, Rings.{ring_of, place_on}};
ghost use Rattle.kd_state.specs.Pins.{pin_at, wheel_pins, with_pin};

use kd_pins::PinSet;
use kd_tables::{Letter, Ring, place_on_wheel, ring1, ring2, ring3, ring4, ring5, ring6};

/// Whether `letter` is on pin wheel `wheel`, counted from 1.
#[tactic(auto, using(crate::proofs::Slots::on_wheels))]
pub(crate) fn is_on_wheel(wheel: u8, letter: Letter) -> bool
    ensures value { result ≡ has_letter (ring_of wheel) letter }
    ensures on { IsTrue result ↔ Contains (ring_of wheel) letter }
    ensures wheel { IsTrue result → (1 ≤ wheel) × (wheel ≤ 6) }
{
    place_on_wheel(wheel, letter).is_some()
}

/// Whether the pin at `letter` of pin wheel `wheel` is effective. `None` if there is no such pin.
pub(crate) fn pin_at(pins: &PinSet, wheel: u8, letter: Letter) -> Option<bool>
    ensures { result ≡ pin_at pins.now wheel letter }
{
    let place = place_on_wheel(wheel, letter)?;
    pins_on(pins, wheel).get(place).copied()
}

/// The pins of pin wheel `wheel`; pin wheels are counted from 1. Empty if there is no such wheel.
fn pins_on(pins: &PinSet, wheel: u8) -> &[bool]
    ensures { result.now ≡ wheel_pins pins.now wheel }
{
    match wheel {
        1 => &pins.w1,
        2 => &pins.w2,
        3 => &pins.w3,
        4 => &pins.w4,
        5 => &pins.w5,
        6 => &pins.w6,
        _ => &[],
    }
}

/// Makes the pin at `letter` of pin wheel `wheel` effective or not. The wheel must have the letter.
pub(crate) fn set_pin(pins: &mut PinSet, wheel: u8, letter: Letter, effective: bool)
    requires wheel { (1 ≤ wheel) × (wheel ≤ 6) }
    requires there { IsSome (place_on (ring_of wheel) letter) }
    ensures { pins.new ≡ with_pin pins.old wheel letter effective }
{
    match wheel {
        1 => set_pin_on(&ring1(), &mut pins.w1, letter, effective),
        2 => set_pin_on(&ring2(), &mut pins.w2, letter, effective),
        3 => set_pin_on(&ring3(), &mut pins.w3, letter, effective),
        4 => set_pin_on(&ring4(), &mut pins.w4, letter, effective),
        5 => set_pin_on(&ring5(), &mut pins.w5, letter, effective),
        6 => set_pin_on(&ring6(), &mut pins.w6, letter, effective),
        _ => unreachable!(),
    }
}

/// On the wheel with the letters `ring`, makes the pin at `letter` effective or not.
fn set_pin_on<const N: usize>(ring: &Ring<N>, pins: &mut [bool; N], letter: Letter, effective: bool)
    requires { IsSome (place_on ring.now letter) }
    ensures { pins.new ≡ slice_set pins.old (unwrap_or (place_on ring.now letter) 0) effective }
{
    let place = ring.place_of(letter).unwrap();
    pins[place] = effective;
}
