//! Reads machine files: their versions, models and parts.
ghost use Rattle.kd_tables.specs.Answers.{AgreesOrNoMemory};
ghost use Rattle.std.specs.Prelude.{◌≡◌, ◌<◌, length};
ghost use Rattle.toml.specs.View.{table_view};
ghost use Rattle.kd_tables.specs.Tables.{box_of, slots_of};
ghost use Rattle.kd_sheet.specs.Letters.{letters_at};
ghost use Rattle.kd_sheet.specs.MachineFile.{rotor_parts_in, pin_parts_in, parts_in, machine_in, machine_of};
ghost use Rattle.kd_sheet.specs.MachineText.{file_version};

use crate::document::{parse_table, value_at};
use crate::values::bars::bars_in;
use crate::values::cables::cables_in;
use crate::values::letters::capital_letters;
use crate::values::model::model_in;
use crate::values::numbers::number_at;
use crate::values::pin_wheels::{pins_in, shown_letters_in};
use crate::values::reflector::reflector_in;
use crate::values::slots::slots_in;
use crate::{Key, SheetFault};
use kd_state::{Machine, PerWheel, PinParts, RotorParts};
use kd_tables::{Family, Letter, Model};
use std::alloc::Global;
use toml::Table;

/// The latest version of machine files.
pub const LATEST_VERSION: u8 = 2;

/// The first version of machine files that has `model`. Machines of `model` are written in this version.
pub fn file_version(model: Model) -> u8
    ensures { result ≡ file_version model }
{
    match model {
        Model::EnigmaI | Model::M3 | Model::M209 => 1,
        Model::M4 => 2,
    }
}

/// Reads the text at `key`: a letter for each wheel of the model's box, in box order.
#[tactic(auto, unfolding(crate::specs::Letters::letters_at))]
pub fn box_letters_in(table: &Table, key: Key, model: Model) -> Result<PerWheel<Letter>, SheetFault>
    requires { 0 < slots_of model }
    ensures { result ≡ letters_at key (length (box_of model)) (table_view table.now) }
{
    let letters = capital_letters::<10>(value_at(table, key)?, model.wheels().len());
    let letters = letters.ok_or(SheetFault::BadValue(key))?;
    Ok(PerWheel::new(letters.as_slice()).unwrap())
}

/// Reads a machine file of version 1 or 2, or returns its first fault. The M4 needs version 2.
///
/// `NoMemory` may replace any other result: the contract doesn't say when memory runs out.
pub fn read_machine(alloc: Global, bytes: &[u8]) -> Result<Machine, SheetFault>
    ensures { AgreesOrNoMemory SheetFault.NoMemory (machine_of bytes.now) result }
{
    machine_in(&parse_table(alloc, bytes)?)
}

/// Reads a machine from the table of a machine file of version 1 or 2, or returns the first fault. The M4 needs
/// version 2.
pub fn machine_in(table: &Table) -> Result<Machine, SheetFault>
    ensures { result ≡ machine_in (table_view table.now) }
{
    let version = number_at(table, Key::Version, LATEST_VERSION)?;
    let model = model_in(table)?;
    if version < file_version(model) {
        return Err(SheetFault::UnknownModel);
    }
    parts_in(table, model)
}

/// Reads a machine of `model` from the file's table, or returns the first fault.
#[tactic(auto, using(crate::proofs::ReadBack::Described::rotor_parts_legal, crate::proofs::ReadBack::Described::pin_parts_legal), unfolding(crate::specs::MachineFile::parts_in))]
fn parts_in(table: &Table, model: Model) -> Result<Machine, SheetFault>
    ensures { result ≡ parts_in model (table_view table.now) }
{
    match model.family() {
        Family::Rotor => Ok(Machine::rotor(rotor_parts_in(table, model)?).unwrap()),
        Family::Pin => Ok(Machine::pin(pin_parts_in(table)?).unwrap()),
    }
}

/// Reads the parts of a rotor machine, key by key, or returns the first fault.
#[tactic(auto, unfolding(crate::specs::MachineFile::rotor_parts_in))]
fn rotor_parts_in(table: &Table, model: Model) -> Result<RotorParts, SheetFault>
    requires { 0 < slots_of model }
    ensures { result ≡ rotor_parts_in model (table_view table.now) }
{
    Ok(RotorParts {
        model,
        reflector: reflector_in(table, model)?,
        slots: slots_in(table, Key::Slots, model)?,
        rings: box_letters_in(table, Key::Rings, model)?,
        letters: box_letters_in(table, Key::Letters, model)?,
        cables: cables_in(table)?,
    })
}

/// Reads the parts of a Converter M-209, key by key, or returns the first fault.
#[tactic(auto, unfolding(crate::specs::MachineFile::pin_parts_in))]
fn pin_parts_in(table: &Table) -> Result<PinParts, SheetFault>
    ensures { result ≡ pin_parts_in (table_view table.now) }
{
    Ok(PinParts {
        letters: shown_letters_in(table, Key::Letters)?,
        pins: pins_in(table)?,
        bars: bars_in(table)?,
    })
}
