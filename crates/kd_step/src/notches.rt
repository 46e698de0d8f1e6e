//! A wheel's notches as a table: for each window letter, whether the wheel is at a notch.
ghost use Rattle.std.specs.Prelude.{◌≡◌};
ghost use Rattle.kd_step.specs.Notches.{IsNotchTable};

use kd_tables::{Letter, Wheel, notched};

/// Tabulates the notches of `wheel`: entry `i` is true if the wheel is at a notch while its window shows letter `i`.
pub(crate) fn notches(wheel: Wheel) -> [bool; 26]
    ensures { IsNotchTable wheel result }
{
    let mut notches = [false; 26];
    for index in 0..26 {
        notches[usize::from(index)] = notched(wheel, Letter::at(index));
    }
    notches
}
