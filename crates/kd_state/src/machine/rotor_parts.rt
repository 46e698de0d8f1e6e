//! The parts of a rotor machine.
ghost use Rattle.std.specs.Prelude.{◌≡◌, ◌↔◌, IsTrue, length};
ghost use Rattle.kd_tables.specs.Tables.{box_of};
ghost use Rattle.kd_state.specs.Machine.{AreLegalRotorParts, AreLetters, with_cables_in_order};

use crate::machine::cable::{self, Cable};
use crate::machine::parts::Parts;
use crate::machine::per_slot::PerSlot;
use crate::machine::per_wheel::PerWheel;
use crate::machine::seats;
use crate::prover_facts::{learn_cable_letters, learn_letters};
use kd_tables::{Letter, Model, Reflector, Wheel, allowed_reflector};

/// The parts of a rotor machine as it stands on the desk.
#[derive(Clone, Copy)]
pub struct RotorParts {
    pub model: Model,
    /// The wheel in each slot, from the left; `None` for an empty slot.
    pub slots: PerSlot<Option<Wheel>>,
    pub reflector: Reflector,
    /// The ring of each of the model's wheels, in box order. Ring 01 is A.
    ///
    /// A wheel has its ring whether or not it is in a slot.
    pub rings: PerWheel<Letter>,
    /// The window letter of each of the model's wheels, in box order.
    ///
    /// A wheel has its window letter whether or not it is in a slot.
    pub letters: PerWheel<Letter>,
    /// The letters in each cable, from cable 1 to cable 13.
    pub cables: [Cable; 13],
}

impl RotorParts {
    /// Whether the parts are legal, by the rules that `Machine::rotor` lists.
    pub(crate) fn is_legal(&self) -> bool
        ensures { IsTrue result ↔ AreLegalRotorParts self.now }
    {
        learn_cable_letters(&self.cables);
        seats::are_legal_seats(self.model, &self.slots)
            && allowed_reflector(self.model, self.reflector)
            && is_box_filled(self.model, &self.rings)
            && is_box_filled(self.model, &self.letters)
            && cable::have_no_letter_twice(&self.cables)
    }

    /// These parts, but with each cable's letters in alphabetical order.
    pub(crate) fn with_cables_in_order(&self) -> RotorParts
        ensures { Parts.Rotor result ≡ with_cables_in_order (Parts.Rotor self.now) }
    {
        let mut parts = *self;
        cable::put_in_order(&mut parts.cables);
        parts
    }
}

/// Whether `letters` has a letter for each wheel of the model's box.
fn is_box_filled(model: Model, letters: &PerWheel<Letter>) -> bool
    ensures { IsTrue result ↔ AreLetters (length (box_of model)) letters.now }
{
    let letters = letters.as_slice();
    learn_letters(letters);
    letters.len() == model.wheels().len()
}
