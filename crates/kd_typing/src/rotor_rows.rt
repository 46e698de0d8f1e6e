//! The rows of the table of a rotor machine.
ghost use Rattle.std.specs.Prelude.{◌≡◌, ◌<◌, ◌≤◌, ◌+◌, ◌⊎◌, length, map};
ghost use Rattle.kd_typing.specs.RotorTable.{into_row, core_row, wheels_moved, is_at_notch};

use crate::around::{around_all, inward};
use arrayvec::ArrayVec;
use kd_enigma::Plugs;
use kd_state::SheetWheel;
use kd_tables::{Letter, Reflector, notched, reflecting};
use std::marker::Model;

/// The wheels, the reflector and the plugboard of a rotor machine, from which the rows of its table are made.
#[derive(Drop)]
pub struct RotorRows {
    wheels: ArrayVec<SheetWheel, 4>,
    reflector: Reflector,
    plugs: Plugs,
}

impl Model for RotorRows {
    ghost use Rattle.std.specs.Prelude.{◌≤◌};
    ghost use Rattle.arrayvec.specs.ArrayVec.{array_vec_len};
    ghost use Rattle.kd_enigma.specs.Cipher.{RotorKey, IsPlugboard};
    ghost use Rattle.kd_state.specs.SeatedWheels.{key_of_wheels};

    ghost Value = { RotorKey };

    ghost view = { λ r. key_of_wheels r.wheels.items r.reflector r.plugs };

    ghost invariant = { λ r. (3 ≤ array_vec_len r.wheels) × IsPlugboard r.plugs };
}

impl RotorRows {
    ghost use Rattle.kd_enigma.specs.Cipher.{IsPlugboard};
    ghost use Rattle.arrayvec.specs.ArrayVec.{array_vec_len};
    ghost use Rattle.kd_state.specs.SeatedWheels.{key_of_wheels};

    /// The rows for a machine with the three or four wheels `wheels`, the reflector `reflector` and the plugboard
    /// `plugs`.
    pub fn new(wheels: ArrayVec<SheetWheel, 4>, reflector: Reflector, plugs: Plugs) -> Self
        requires wheels { 3 ≤ array_vec_len wheels }
        requires plugs { IsPlugboard plugs }
        ensures { result ≡ key_of_wheels wheels.items reflector plugs }
    {
        RotorRows {
            wheels,
            reflector,
            plugs,
        }
    }

    /// For each key, the place that the key's current reaches through the plugboard and the right wheel.
    ///
    /// The right window shows `letter`.
    #[tactic(auto, using(crate::proofs::WaysAround::into_of_wheels))]
    pub fn into_at(&self, letter: Letter) -> [Letter; 26]
        ensures { result ≡ into_row self.now letter }
    {
        let wheels = self.wheels.as_slice();
        inward(self.plugs, wheels[wheels.len() - 1], letter)
    }

    /// For each place at which the current can enter the core, the place at which it comes out. The core's windows show
    /// `window`.
    ///
    /// The core has the reflector, and all wheels except the right wheel.
    #[tactic(auto, using(crate::proofs::WaysAround::core_of_wheels))]
    pub fn core_at(&self, window: &[Letter]) -> [Letter; 26]
        requires { length window.now + 1 ≡ length self.now.wheels }
        ensures { result ≡ core_row self.now window.now }
    {
        let wheels = self.wheels.as_slice();
        around_all(
            reflecting(self.reflector),
            &wheels[..wheels.len() - 1],
            window,
        )
    }

    /// How many wheels move at the next key press. The middle window shows `middle`, and the right window shows
    /// `right`.
    #[tactic(auto, unfolding(crate::specs::RotorTable::wheels_moved))]
    pub fn steps_at(&self, middle: Letter, right: Letter) -> u8
        ensures value { result ≡ wheels_moved self.now.wheels middle right }
        ensures few { result ≤ 3 }
    {
        let wheels = self.wheels.as_slice();
        match (
            is_at_notch(wheels, 1, middle),
            is_at_notch(wheels, 0, right),
        ) {
            (true, _) => 3,
            (_, true) => 2,
            _ => 1,
        }
    }

    /// The wheels, from the left.
    pub(crate) fn wheels(&self) -> &[SheetWheel]
        ensures { map (λ w. w.letter) result.now ≡ self.now.window }
    {
        self.wheels.as_slice()
    }

    /// How many slots the machine has.
    pub(crate) fn slots(&self) -> usize
        ensures value { result ≡ length self.now.wheels }
        ensures few { (result ≡ 3) ⊎ (result ≡ 4) }
    {
        self.wheels.as_slice().len()
    }
}

/// Whether the wheel `from_right` is at a notch while its window shows `letter`. Here 0 is the right wheel, and 1 is
/// the middle wheel.
fn is_at_notch(wheels: &[SheetWheel], from_right: usize, letter: Letter) -> bool
    requires { from_right < length wheels.now }
    ensures { result ≡ is_at_notch (map (λ w. w.wheel) wheels.now) from_right letter }
{
    notched(wheels[wheels.len() - (from_right + 1)].wheel, letter)
}
