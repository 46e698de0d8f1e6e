//! The parts of a Converter M-209.
ghost use Rattle.std.specs.Prelude.{◌≡◌, ◌↔◌, IsTrue, map};
ghost use Rattle.kd_tables.specs.Places.{reading_of};
ghost use Rattle.kd_state.specs.Machine.{AreLegalPinParts, AreOnWheels};

use crate::machine::pins::is_on_wheel;
use crate::prover_facts::{learn_pins, learn_standings};
use kd_pins::PinSet;
use kd_tables::{Letter, Reading, Standing};

/// The parts of a Converter M-209 as it stands on the desk.
#[derive(Clone, Copy)]
pub struct PinParts {
    /// Which pins of the six wheels are effective.
    pub pins: PinSet,
    /// The letter that each wheel shows, from wheel 1 to wheel 6.
    pub letters: [Letter; 6],
    /// The places of the two lugs of each bar, from bar 1 to bar 27.
    pub bars: [Standing; 27],
}

impl PinParts {
    /// Whether the parts are legal: each of the six letters must be on its pin wheel.
    pub(crate) fn is_legal(&self) -> bool
        ensures { IsTrue result ↔ AreLegalPinParts self.now }
    {
        learn_pins(self.pins);
        learn_standings(&self.bars);
        are_on_wheels(&self.letters)
    }
}

/// Whether the first of `letters` is on pin wheel 1, the second on pin wheel 2, and so on.
#[tactic(auto, using(crate::proofs::Slots::is_numbered, crate::proofs::Slots::numbered_at))]
pub(crate) fn are_on_wheels(letters: &[Letter; 6]) -> bool
    ensures { IsTrue result ↔ AreOnWheels letters.now }
{
    for (place, letter) in letters.iter().enumerate() {
        if !is_on_wheel(place as u8 + 1, *letter) {
            return false;
        }
    }
    true
}

/// The readings of a Converter's bars, from bar 1 to bar 27.
pub fn readings_of(bars: &[Standing; 27]) -> [Reading; 27]
    ensures { result ≡ map reading_of bars.now }
{
    let mut readings = [bars[0].reading(); 27];
    for bar in 0..27 {
        readings[bar] = bars[bar].reading();
    }
    readings
}
