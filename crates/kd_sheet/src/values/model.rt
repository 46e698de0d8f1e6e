//! Reads the model, from the key `model`.
ghost use Rattle.std.specs.Prelude.{◌≡◌};
ghost use Rattle.toml.specs.View.{table_view};
ghost use Rattle.kd_sheet.specs.MachineFile.{model_in};

use crate::document::text_at;
use crate::{Key, SheetFault};
use kd_tables::Model;
use toml::Table;

/// Reads the model from its name.
#[tactic(auto, unfolding(crate::specs::MachineFile::model_in))]
pub fn model_in(table: &Table) -> Result<Model, SheetFault>
    ensures { result ≡ model_in (table_view table.now) }
{
    let name = text_at(table, Key::Model)?;
    Model::from_text(name.as_bytes()).ok_or(SheetFault::UnknownModel)
}
