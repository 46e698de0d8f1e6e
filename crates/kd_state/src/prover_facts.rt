//! Functions that show facts to the prover. The facts follow from the types of the arguments.
//!
//! These functions have no effect when the program runs.
ghost use Rattle.std.specs.Prelude.{◌≡◌, ◌<◌, ◌^◌, All, length};
ghost use Rattle.kd_tables.specs.Places.{IsBefore, IsReading};
ghost use Rattle.kd_enigma.specs.Plugs.{letters_in_pairs};
ghost use Rattle.kd_state.specs.Line.{IsSettingInRange};
ghost use Rattle.kd_state.specs.Machine.{cable_letters, letters_in_cables, AreLetters, HasAllPins};
ghost use Rattle.kd_state.specs.SheetDay.{HasWheelLetters};

use crate::machine::cable::Cable;
use crate::setting::Setting;
use crate::sheet_day::rotor_entry::SheetWheel;
use kd_pins::PinSet;
use kd_tables::{Letter, Reading, Standing};

/// Shows the prover that each letter is below 26.
pub(crate) fn learn_letters(letters: &[Letter])
    ensures { All (λ letter. letter < 26) letters.now }
{
    for letter in letters {
        prove!(letter.index() < 26);
    }
}

/// Shows the prover that each letter of the pairs is below 26.
pub(crate) fn learn_pair_letters(pairs: &[(Letter, Letter)])
    ensures { All (λ letter. letter < 26) (letters_in_pairs pairs.now) }
{
    for (one, other) in pairs {
        prove!(one.index() < 26 && other.index() < 26);
    }
}

/// Shows the prover that each wheel's ring and window letter are below 26.
pub(crate) fn learn_wheel_letters(wheels: &[SheetWheel])
    ensures { All HasWheelLetters wheels.now }
{
    for wheel in wheels {
        prove!(wheel.ring.index() < 26 && wheel.letter.index() < 26);
    }
}

/// Shows the prover that each group has three letters below 26.
pub(crate) fn learn_group_letters(groups: &[[Letter; 3]])
    ensures { All (AreLetters 3) groups.now }
{
    for group in groups {
        learn_letters(group);
    }
}

/// Shows the prover that each row is a reading (`IsReading`): two numbers from 0 to 6, the smaller one first.
pub(crate) fn learn_readings(rows: &[Reading])
    ensures { All IsReading rows.now }
{
    for row in rows {
        prove!(row.numbers().1 <= 6);
    }
}

/// Shows the prover that each bar's left lug is left of its right lug.
pub(crate) fn learn_standings(bars: &[Standing; 27])
    ensures count { length bars.now ≡ 27 }
    ensures each { All (λ bar. IsBefore bar.0 bar.1) bars.now }
{
    for bar in bars {
        prove!(bar.left() != bar.right());
    }
}

/// Shows the prover that each letter in the cables is below 26.
pub(crate) fn learn_cable_letters(cables: &[Cable; 13])
    ensures count { length cables.now ≡ 13 }
    ensures each { All (λ letter. letter < 26) (letters_in_cables cables.now) }
{
    for cable in cables {
        learn_letters_of_cable(cable);
    }
}

/// Shows the prover that each letter in the cable is below 26.
fn learn_letters_of_cable(cable: &Cable)
    ensures { All (λ letter. letter < 26) (cable_letters cable.now) }
{
    match *cable {
        (None, None) => (),
        (Some(letter), None) | (None, Some(letter)) => learn_letters(&[letter]),
        (Some(one), Some(other)) => learn_letters(&[one, other]),
    }
}

/// Shows the prover that `pins` has a pin for each letter of each pin wheel.
#[tactic(auto, using(crate::proofs::Slots::all_pins))]
pub(crate) fn learn_pins(pins: PinSet)
    ensures { HasAllPins pins }
{
    prove!(pins.w1.len() == 26);
}

/// Shows the prover that a setting's number (if any) is below 256, and its letter (if any) is below 26.
pub(crate) fn learn_setting_range(setting: &Setting)
    ensures { IsSettingInRange setting.now }
{
    match *setting {
        Setting::Pull { cable, letter } | Setting::Put { cable, letter } => {
            learn_range(cable, letter);
        }
        Setting::RingTo { letter, .. } => learn_range(0, letter),
        Setting::Turn { slot, letter } => learn_range(slot, letter),
        Setting::PinTo { wheel, letter, .. } => learn_range(wheel, letter),
        Setting::Seat { slot, .. } => learn_range(slot, Letter::A),
        Setting::LugTo { bar, .. } => learn_range(bar, Letter::A),
        Setting::SeatReflector { .. } => (),
    }
}

/// Shows the prover that `number` is below 256 and `letter` is below 26.
fn learn_range(number: u8, letter: Letter)
    ensures { (number < 2 ^ 8) × (letter < 26) }
{
    prove!(letter.index() < 26);
}
