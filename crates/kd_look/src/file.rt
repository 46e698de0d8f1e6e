//! `File`: the content of a file, which is a machine or a key sheet.
ghost use Rattle.std.specs.Prelude.{◌≡◌};
ghost use Rattle.toml.specs.View.{table_view};
ghost use Rattle.kd_look.specs.File.{file_in};

use kd_findings::is_machine_file;
use kd_sheet::by_key::{machine_in, sheet_in};
use kd_sheet::{Sheet, SheetFault};
use kd_state::Machine;
use toml::Table;

/// The content of a file.
#[derive(Drop)]
pub enum File {
    Machine(Machine),
    Sheet(Sheet),
}

/// Reads a machine or a key sheet from the table of a file.
#[tactic(auto, unfolding(crate::specs::File::file_in))]
pub fn file_in(document: &Table) -> Result<File, SheetFault>
    ensures { result ≡ file_in (table_view document.now) }
{
    if is_machine_file(document) {
        Ok(File::Machine(machine_in(document)?))
    } else {
        Ok(File::Sheet(sheet_in(document)?))
    }
}
