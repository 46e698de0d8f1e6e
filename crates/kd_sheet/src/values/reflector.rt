//! Reads the reflector, from the key `reflector`.
ghost use Rattle.std.specs.Prelude.{◌≡◌};
ghost use Rattle.toml.specs.View.{table_view};
ghost use Rattle.kd_tables.specs.Tables.{reflector_text, reflectors_of};
ghost use Rattle.kd_sheet.specs.{MachineFile.{reflector_in}, Names.{find_by_text}};

use crate::document::text_at;
use crate::{Key, SheetFault};
use kd_tables::{Model, Reflector};
use toml::Table;

/// Reads the reflector from its name; `model` must have the reflector.
#[tactic(auto, unfolding(crate::specs::MachineFile::reflector_in))]
pub fn reflector_in(table: &Table, model: Model) -> Result<Reflector, SheetFault>
    ensures { result ≡ reflector_in model (table_view table.now) }
{
    let name = text_at(table, Key::Reflector)?;
    reflector_by_name(model, name).ok_or(SheetFault::BadValue(Key::Reflector))
}

/// The reflector named `name`, if `model` has this reflector.
#[tactic(auto, unfolding(crate::specs::Names::find_by_text))]
fn reflector_by_name(model: Model, name: &str) -> Option<Reflector>
    ensures { result ≡ find_by_text reflector_text (reflectors_of model) name.now }
{
    let mut reflectors = model.reflectors().iter().copied();
    reflectors.find(|reflector| reflector.text().as_str() == name)
}
