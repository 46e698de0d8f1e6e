//! Getters of a machine: each call returns one slot, ring, letter, cable, pin or bar.
ghost use Rattle.std.specs.Prelude.{◌≡◌, length, slice_get};
ghost use Rattle.kd_tables.specs.Tables.{box_of};
ghost use Rattle.kd_state.specs.SameParts.{place_in_box};
ghost use Rattle.kd_state.specs.Machine.{model_of, machine_slot, machine_reflector, machine_ring, machine_letter};
ghost use Rattle.kd_state.specs.Machine.{machine_cable, machine_pin, machine_pin_letter, machine_standing};

use super::Machine;
use crate::machine::cable::Cable;
use crate::machine::parts::Parts;
use crate::machine::per_wheel::PerWheel;
use crate::machine::pins::pin_at;
use crate::machine::seats::place_in_box;
use crate::numbered_items::numbered_item;
use kd_tables::{Letter, Model, Reflector, Standing, Wheel};

impl Machine {
    /// The machine's model.
    pub fn model(&self) -> Model
        ensures { result ≡ model_of self.now }
    {
        match &self.parts {
            Parts::Rotor(parts) => parts.model,
            Parts::Pin(_) => Model::M209,
        }
    }

    /// The wheel in slot `slot` (1 is the left slot). `Some(None)` if the slot is empty.
    ///
    /// `None` if the machine lacks the slot.
    pub fn slot(&self, slot: u8) -> Option<Option<Wheel>>
        ensures { result ≡ machine_slot self.now slot }
    {
        match &self.parts {
            Parts::Rotor(parts) => numbered_item(parts.slots.as_slice(), slot),
            Parts::Pin(_) => None,
        }
    }

    /// The reflector. `None` on the Converter M-209.
    pub fn reflector(&self) -> Option<Reflector>
        ensures { result ≡ machine_reflector self.now }
    {
        match &self.parts {
            Parts::Rotor(parts) => Some(parts.reflector),
            Parts::Pin(_) => None,
        }
    }

    /// The ring of `wheel`; ring 01 is A. `None` if the machine lacks the wheel.
    ///
    /// The wheel may be in a slot or in the box.
    pub fn ring(&self, wheel: Wheel) -> Option<Letter>
        ensures { result ≡ machine_ring self.now wheel }
    {
        match &self.parts {
            Parts::Rotor(parts) => letter_of_wheel(parts.model, &parts.rings, wheel),
            Parts::Pin(_) => None,
        }
    }

    /// The window letter of `wheel`. `None` if the machine lacks the wheel.
    ///
    /// The wheel may be in a slot or in the box.
    pub fn letter(&self, wheel: Wheel) -> Option<Letter>
        ensures { result ≡ machine_letter self.now wheel }
    {
        match &self.parts {
            Parts::Rotor(parts) => letter_of_wheel(parts.model, &parts.letters, wheel),
            Parts::Pin(_) => None,
        }
    }

    /// The letters in cable `cable`; cables are counted from 1. `None` if there is no such cable.
    ///
    /// The letters are in alphabetical order; a single letter is at the first end.
    pub fn cable(&self, cable: u8) -> Option<Cable>
        ensures { result ≡ machine_cable self.now cable }
    {
        match &self.parts {
            Parts::Rotor(parts) => numbered_item(&parts.cables, cable),
            Parts::Pin(_) => None,
        }
    }

    /// Whether the pin at `letter` of pin wheel `wheel` is effective. `None` if there is no such pin.
    ///
    /// Pin wheels are counted from 1.
    pub fn pin_at(&self, wheel: u8, letter: Letter) -> Option<bool>
        ensures { result ≡ machine_pin self.now wheel letter }
    {
        match &self.parts {
            Parts::Rotor(_) => None,
            Parts::Pin(parts) => pin_at(&parts.pins, wheel, letter),
        }
    }

    /// The letter that pin wheel `wheel` shows; pin wheels are counted from 1. `None` if there is no such wheel.
    pub fn shown(&self, wheel: u8) -> Option<Letter>
        ensures { result ≡ machine_pin_letter self.now wheel }
    {
        match &self.parts {
            Parts::Rotor(_) => None,
            Parts::Pin(parts) => numbered_item(&parts.letters, wheel),
        }
    }

    /// The places of the two lugs of bar `bar`; bars are counted from 1. `None` if there is no such bar.
    pub fn standing(&self, bar: u8) -> Option<Standing>
        ensures { result ≡ machine_standing self.now bar }
    {
        match &self.parts {
            Parts::Rotor(_) => None,
            Parts::Pin(parts) => numbered_item(&parts.bars, bar),
        }
    }
}

/// The letter for `wheel` in `letters`, which are in the order of the model's box. `None` if the model lacks the wheel.
#[tactic(auto, using(crate::proofs::Wheels::place_nowhere, crate::proofs::Prelude::slice_get_past))]
pub(crate) fn letter_of_wheel(
    model: Model,
    letters: &PerWheel<Letter>,
    wheel: Wheel,
) -> Option<Letter>
    requires { length letters.now ≡ length (box_of model) }
    ensures { result ≡ slice_get letters.now (place_in_box model wheel) }
{
    letters.as_slice().get(place_in_box(model, wheel)?).copied()
}
