//! The rows of the table of a Converter M-209.
ghost use Rattle.std.specs.Prelude.{◌≡◌, ◌<◌, ◌≤◌, ◌||◌, length};
ghost use Rattle.kd_pins.specs.PinWheels.{pins_of};
ghost use Rattle.kd_typing.specs.PinTable.{bars_met_in_row, is_in_row, pin_row};

use kd_pins::PinSet;
use kd_tables::{Letter, Reading};
use std::marker::Model;

/// A Converter's key, from which its table is made: its pins, its shown letters, and its bars' readings.
#[derive(Drop)]
pub struct PinRows {
    pins: PinSet,
    letters: [Letter; 6],
    bars: [Reading; 27],
}

impl Model for PinRows {
    ghost use Rattle.kd_pins.specs.PinWheels.{pins_of};
    ghost use Rattle.kd_drum.specs.Converter.{PinKey};

    ghost Value = { PinKey };

    ghost view = { λ r. record { pins = pins_of r.pins; letters = r.letters; bars = r.bars } };
}

impl PinRows {
    /// The rows for a Converter with the pins `pins`, the shown letters `letters`, and the bars' readings `bars`.
    pub fn new(pins: PinSet, letters: [Letter; 6], bars: [Reading; 27]) -> Self
        ensures { result ≡ record { pins = pins_of pins; letters = letters; bars = bars } }
    {
        PinRows {
            pins,
            letters,
            bars,
        }
    }

    /// The letters that are printed for A to Z while exactly the wheels of the set `number` have an effective acting
    /// pin.
    ///
    /// The set's number has six binary digits, for wheels 1 to 6. For example, 110000 is the set of the wheels 1 and 2.
    pub fn row_at(&self, number: usize) -> [Letter; 26]
        requires { number < 64 }
        ensures { result ≡ pin_row self.now number }
    {
        let met = bars_met(&self.bars, number);
        let mut row = [Letter::A; 26];
        for letter in 0..26 {
            row[usize::from(letter)] = Letter::at((25 + met - letter) % 26);
        }
        row
    }

    /// The letters that the wheels show.
    pub(crate) fn letters(&self) -> &[Letter; 6]
        ensures { result.now ≡ self.now.letters }
    {
        &self.letters
    }

    /// Which pins of the six wheels are effective.
    pub(crate) fn pins(&self) -> &PinSet
        ensures { pins_of result.now ≡ self.now.pins }
    {
        &self.pins
    }
}

/// The number of bars with a lug at some wheel of the set `number`.
///
/// The set's number has six binary digits, for wheels 1 to 6. For example, 110000 is the set of the wheels 1 and 2.
fn bars_met(bars: &[Reading; 27], number: usize) -> u8
    ensures value { result ≡ bars_met_in_row bars.now number }
    ensures most { result ≤ 27 }
{
    let mut met = 0;
    for bar in bars {
        if is_met(*bar, number) {
            met += 1;
        }
    }
    met
}

/// Whether a bar with the reading `bar` has a lug at some wheel of the set `number`.
///
/// The set's number has six binary digits, for wheels 1 to 6. For example, 110000 is the set of the wheels 1 and 2.
fn is_met(bar: Reading, number: usize) -> bool
    ensures { result ≡ (is_in_row number bar.0 || is_in_row number bar.1) }
{
    let (smaller, larger) = bar.numbers();
    is_in_row(number, smaller) || is_in_row(number, larger)
}

/// Whether `wheel` is from 1 to 6, and is in set number `number`.
///
/// In binary, the number has six digits, for the wheels 1 to 6. For example, 110000 is the set of the wheels 1 and 2.
fn is_in_row(number: usize, wheel: u8) -> bool
    ensures { result ≡ is_in_row number wheel }
{
    1 <= wheel && wheel <= 6 && (number >> (6 - wheel)) % 2 == 1
}
