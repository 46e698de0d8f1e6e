//! The machine on the desk.

pub(crate) mod cable;
pub(crate) mod getters;
mod on_key;
pub(crate) mod one_model;
pub(crate) mod parts;
pub(crate) mod per_slot;
pub(crate) mod per_wheel;
pub(crate) mod pin_parts;
pub(crate) mod pins;
pub(crate) mod rotor_parts;
pub(crate) mod seats;

use crate::prover_facts::learn_setting_range;
use crate::setting::Setting;
use crate::setting::why::Illegal;
use parts::Parts;
use pin_parts::PinParts;
use rotor_parts::RotorParts;

/// A machine as it stands on the desk.
#[derive(Clone, Copy)]
pub struct Machine {
    parts: Parts,
}

impl std::marker::Model for Machine {
    ghost use Rattle.kd_state.specs.declared.machine.parts.Parts.{Parts};
    ghost use Rattle.kd_state.specs.Machine.{IsMachine};

    ghost Value = { Parts };

    ghost view = { λ m. m.parts };

    ghost invariant = { λ m. IsMachine m.parts };

    ghost inverse = { λ parts. record { parts = parts } };
}

impl Machine {
    ghost use Rattle.std.specs.Prelude.{◌≡◌, ◌↔◌, IsSome, IfSome, OnOk, OnErr, IfErr};
    ghost use Rattle.kd_state.specs.Machine.{AreLegalRotorParts, AreLegalPinParts, IsMachine, with_cables_in_order};
    ghost use Rattle.kd_state.specs.Setting.{Carries, Refuses};

    /// Creates a rotor machine, or `None` if `parts` aren't legal.
    ///
    /// Legal parts have an item in `slots` for each slot of the model, and a reflector of the model. They have a ring
    /// and a letter for each wheel of the model's box. Each wheel is allowed in its slot, and no wheel is in two slots.
    /// All letters in the cables are different. A cable's letters may come in either order.
    pub fn rotor(parts: RotorParts) -> Option<Machine>
        ensures exists { IsSome result ↔ AreLegalRotorParts parts }
        ensures value { IfSome result (λ machine. machine ≡ with_cables_in_order (Parts.Rotor parts)) }
    {
        if !parts.is_legal() {
            return None;
        }
        Some(Machine {
            parts: Parts::Rotor(parts.with_cables_in_order()),
        })
    }

    /// Creates a Converter M-209, or `None` if one of the six letters isn't on its pin wheel.
    pub fn pin(parts: PinParts) -> Option<Machine>
        ensures exists { IsSome result ↔ AreLegalPinParts parts }
        ensures value { IfSome result (λ machine. machine ≡ Parts.Pin parts) }
    {
        if !parts.is_legal() {
            return None;
        }
        Some(Machine {
            parts: Parts::Pin(parts),
        })
    }

    /// Carries `setting` out.
    ///
    /// If the machine refuses the setting, the machine stays as it was, and the error has the first reason.
    pub fn carry(&mut self, setting: Setting) -> Result<(), Illegal>
        ensures carried { OnOk result (Carries self.old setting self.new) }
        ensures refused { IfErr result (λ illegal. Refuses self.old setting illegal.why) }
        ensures unchanged { OnErr result (self.new ≡ self.old) }
    {
        learn_setting_range(&setting);
        match self.parts.carry(setting) {
            Ok(()) => Ok(()),
            Err(why) => Err(Illegal { why }),
        }
    }

    /// The machine's parts, which are legal.
    pub fn parts(&self) -> &Parts
        ensures parts { result.now ≡ self.now }
        ensures legal { IsMachine self.now }
    {
        &self.parts
    }
}
