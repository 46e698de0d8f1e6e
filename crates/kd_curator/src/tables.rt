//! The command `table`: writes a key sheet as printed tables, or as a CSV table for a spreadsheet.
ghost use Rattle.std.specs.Prelude.{◌≡◌, ◌||◌, false, IsErr};
ghost use Rattle.kd_tables.specs.Ports.{port};
ghost use Rattle.kd_curator.specs.Refusals.{is_device};
ghost use Rattle.kd_curator.specs.Tables.{WritesTables};

use crate::fault::Refused;
use crate::machine_and_sheet::read_month;
use kd_language::Language;
use kd_options::TableForm;
use kd_printed_sheet::write_tables;
use kd_tables::Sink;
use std::alloc::Global;

/// Writes the tables of the key sheet `sheet` in the form `form`: a page in `language`, or a CSV table.
///
/// For a fault of the sheet, nothing is written. For `Device`, only a prefix of the tables is written.
pub(crate) fn run_table<W: Sink>(
    alloc: Global,
    language: Language,
    form: TableForm,
    sheet: &[u8],
    sink: &mut W,
) -> Result<(), Refused>
    ensures tables { WritesTables language form sheet.now
        (port W.taken W.has_failed sink.old sink.new) result }
    ensures untouched { IsErr result → is_device result ≡ false → sink.new ≡ sink.old }
    ensures failed { W.has_failed sink.new ≡ (W.has_failed sink.old || is_device result) }
{
    let sheet = read_month(alloc, 0, sheet)?;
    write_tables(sink, language, form, &sheet)?;
    Ok(())
}
