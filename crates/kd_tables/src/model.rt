//! The models of cipher machines, and the wheels and reflectors that each model takes.
ghost use Rattle.std.specs.Prelude.{◌≡◌, ◌↔◌, ◌≢◌, ◌<◌, IsTrue, MatchOption, Contains};
ghost use Rattle.kd_tables.specs.Tables.{model_text, family_of, box_of, slots_of, wheels_for, reflectors_of};

use super::reflector::Reflector;
use super::variant_names::{name_of, named};
use super::wheel::Wheel;
use arrayvec::ArrayString;

/// All wheels. A rotor machine's box has the first 5, 8 or 10 of them, in this order.
const WHEELS: [Wheel; 10] = [
    Wheel::I,
    Wheel::II,
    Wheel::III,
    Wheel::IV,
    Wheel::V,
    Wheel::VI,
    Wheel::VII,
    Wheel::VIII,
    Wheel::Beta,
    Wheel::Gamma,
];

/// A model of cipher machine.
#[derive(Clone, Copy, PartialEq, Eq)]
pub enum Model {
    /// The Wehrmacht's Enigma: three wheels out of five.
    EnigmaI,
    /// The Kriegsmarine's Enigma with three wheels out of eight.
    M3,
    /// The Kriegsmarine's Enigma with four wheels: Beta or Gamma at the left, and three wheels out of eight.
    M4,
    /// The Converter M-209: six fixed pin wheels, and a drum of 27 bars.
    M209,
}

/// A family of models with the same sorts of settings.
#[derive(Clone, Copy, PartialEq, Eq)]
pub enum Family {
    /// Rotor machines: a reflector, wheels in slots, and cables.
    Rotor,
    /// Pin machines: pin wheels that can't be taken out, and a drum of bars.
    Pin,
}

/// Looks up `$value` in the table of models and their names.
///
/// If `$read` is `name_of`, the result is the name of the model `$value`. If `$read` is `named`, the result is the
/// model with the name `$value`, or `None` if there is none.
macro_rules! names {
    ($read:ident, $value:expr) => {
        $read!($value, {
            Model::EnigmaI => "Enigma I",
            Model::M3 => "M3",
            Model::M4 => "M4",
            Model::M209 => "M-209",
        })
    };
}

impl Model {
    /// All models.
    pub const ALL: [Model; 4] = [Model::EnigmaI, Model::M3, Model::M4, Model::M209];

    /// The model's name in machine files and sheets.
    pub fn text(self) -> ArrayString<8>
        ensures { result.bytes ≡ model_text self }
    {
        let mut text = ArrayString::new();
        text.push_str(names!(name_of, self));
        text
    }

    /// The model with the name `text`.
    pub fn from_text(text: &[u8]) -> Option<Self>
        ensures { MatchOption result
            ((model : _) → model_text model ≢ text.now)
            (λ model. model_text model ≡ text.now) }
    {
        names!(named, text)
    }

    /// The model's family. Exactly the rotor machines have slots.
    pub fn family(self) -> Family
        ensures value { result ≡ family_of self }
        ensures slots { (result ≡ Family.Rotor) ↔ (0 < slots_of self) }
    {
        match self {
            Model::EnigmaI | Model::M3 | Model::M4 => Family::Rotor,
            Model::M209 => Family::Pin,
        }
    }

    /// The number of slots for wheels; 0 for a Converter M-209, whose wheels can't be taken out.
    pub fn slots(self) -> u8
        ensures { result ≡ slots_of self }
    {
        match self {
            Model::EnigmaI | Model::M3 => 3,
            Model::M4 => 4,
            Model::M209 => 0,
        }
    }

    /// The wheels that may be in slot `slot`. Empty if the model lacks this slot.
    ///
    /// Slots are counted from 1, from left to right. Wheels are in order: I to VIII, then Beta and Gamma.
    pub fn wheels_for(self, slot: u8) -> &'static [Wheel]
        ensures { result.now ≡ wheels_for self slot }
    {
        match (self, slot) {
            (Model::EnigmaI, 1..=3) => &WHEELS[..5],
            (Model::M3, 1..=3) | (Model::M4, 2..=4) => &WHEELS[..8],
            (Model::M4, 1) => &WHEELS[8..],
            (Model::EnigmaI | Model::M3 | Model::M4 | Model::M209, _) => &[],
        }
    }

    /// The model's box: all wheels that may be in the model's slots, from I to VIII, then Beta and Gamma.
    pub fn wheels(self) -> &'static [Wheel]
        ensures { result.now ≡ box_of self }
    {
        match self {
            Model::EnigmaI | Model::M3 => self.wheels_for(1),
            Model::M4 => &WHEELS,
            Model::M209 => &[],
        }
    }

    /// The reflectors of the model.
    pub fn reflectors(self) -> &'static [Reflector]
        ensures { result.now ≡ reflectors_of self }
    {
        match self {
            Model::EnigmaI => &[Reflector::A, Reflector::B, Reflector::C],
            Model::M3 => &[Reflector::B, Reflector::C],
            Model::M4 => &[Reflector::ThinB, Reflector::ThinC],
            Model::M209 => &[],
        }
    }
}

/// Whether `wheel` is in the box of `model`.
pub fn in_box(model: Model, wheel: Wheel) -> bool
    ensures { IsTrue result ↔ Contains (box_of model) wheel }
{
    model.wheels().contains(&wheel)
}

/// Whether `wheel` may be in slot `slot` of `model`. Slots are counted from 1, from left to right.
///
/// On the M4, slot 1 takes only Beta and Gamma, and slots 2 to 4 take only I to VIII.
pub fn allowed(model: Model, slot: u8, wheel: Wheel) -> bool
    ensures { IsTrue result ↔ Contains (wheels_for model slot) wheel }
{
    model.wheels_for(slot).contains(&wheel)
}

/// Whether `reflector` is one of the reflectors of `model`.
pub fn allowed_reflector(model: Model, reflector: Reflector) -> bool
    ensures { IsTrue result ↔ Contains (reflectors_of model) reflector }
{
    model.reflectors().contains(&reflector)
}
