//! The rows of a machine's table, for machines of any model.
ghost use Rattle.std.specs.Prelude.{◌≡◌, ◌≤◌, ◌⊎◌, ◌↔◌, IsOk, IfOk, OnOk, IsSome, IfSome, OnSome};
ghost use Rattle.arrayvec.specs.ArrayVec.{array_vec_len};
ghost use Rattle.kd_pictures.specs.Drawing.{Draws};
ghost use Rattle.kd_state.specs.EngineKey.{Rotor};
ghost use Rattle.kd_state.specs.Machine.{AreLegalRotorParts};
ghost use Rattle.kd_state.specs.OwnKeys.{physical_key};
ghost use Rattle.kd_state.specs.TwoCiphers.{IsReady};
ghost use Rattle.kd_tables.specs.Text.{letters_text};
ghost use Rattle.kd_typing.specs.MachineRows.{rows_key};
ghost use Rattle.kd_typing.specs.MachineTable.{TypesAsMachine, shown_letters, table_of_key, table_text};

use crate::pin_rows::PinRows;
use crate::rotor_rows::RotorRows;
use kd_state::{Machine, NotReady, Parts, RotorParts, readings_of, ready_wheels};
use kd_tables::Sink;

/// The rows of the table of a machine.
#[derive(Drop)]
pub enum MachineRows {
    Rotor(RotorRows),
    Pin(PinRows),
}

impl MachineRows {
    /// The rows of the table of `machine`. Typing on the table gives the machine's ciphertext.
    ///
    /// If a slot is empty, or a cable has exactly one letter, returns `NotReady`.
    pub fn of(machine: &Machine) -> Result<MachineRows, NotReady>
        ensures ready { IsOk result ↔ IsReady machine.now }
        ensures key { IfOk result (λ rows. rows_key rows ≡ physical_key machine.now) }
        ensures typing { OnOk result (TypesAsMachine machine.now) }
    {
        match machine.parts() {
            Parts::Rotor(parts) => match rotor_rows(parts) {
                Some(rows) => Ok(MachineRows::Rotor(rows)),
                None => Err(NotReady),
            },
            Parts::Pin(parts) => Ok(MachineRows::Pin(PinRows::new(
                parts.pins,
                parts.letters,
                readings_of(&parts.bars),
            ))),
        }
    }

    /// Writes the table as lines of text, with LFs between them.
    pub fn draw<W: Sink>(&self, sink: &mut W)
        ensures { Draws W.taken W.has_failed sink.old sink.new
            (table_text (table_of_key (rows_key self.now))) }
    {
        match self {
            MachineRows::Rotor(rows) => rows.draw(sink),
            MachineRows::Pin(rows) => rows.draw(sink),
        }
    }

    /// Writes the letters that the machine shows.
    pub fn draw_shown<W: Sink>(&self, sink: &mut W)
        ensures { Draws W.taken W.has_failed sink.old sink.new
            (letters_text (shown_letters (rows_key self.now))) }
    {
        match self {
            MachineRows::Rotor(rows) => rows.draw_shown(sink),
            MachineRows::Pin(rows) => rows.draw_shown(sink),
        }
    }
}

/// The rows of a rotor machine's table. `None` if the machine isn't ready.
fn rotor_rows(parts: &RotorParts) -> Option<RotorRows>
    requires { AreLegalRotorParts parts.now }
    ensures ready { IsSome result ↔ IsReady (Parts.Rotor parts.now) }
    ensures key { IfSome result (λ rows. physical_key (Parts.Rotor parts.now) ≡ Rotor rows) }
    ensures typing { OnSome result (TypesAsMachine (Parts.Rotor parts.now)) }
{
    let ready = ready_wheels(parts)?;
    Some(RotorRows::new(ready.wheels, ready.reflector, ready.plugs))
}
