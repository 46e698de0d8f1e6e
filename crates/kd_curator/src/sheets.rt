//! The command `sheet`: makes a key sheet from a spreadsheet's table, or writes a key sheet to fill in.
ghost use Rattle.std.specs.Prelude.{◌≡◌, ◌≤◌, ◌||◌, false, IsErr};
ghost use Rattle.kd_tables.specs.Ports.{port};
ghost use Rattle.kd_options.specs.TableOptions.{texts_of};
ghost use Rattle.kd_host.specs.Writing.{WritesText};
ghost use Rattle.kd_spreadsheet.specs.EmptySheet.{empty_month_text};
ghost use Rattle.kd_curator.specs.Notes.{HasTableNotes};
ghost use Rattle.kd_curator.specs.Refusals.{is_device, refused_device};
ghost use Rattle.kd_curator.specs.Sheets.{MakesSheet};

use crate::fault::Refused;
use kd_language::Wording;
use kd_options::TableOptions;
use kd_spreadsheet::{run_sheet, write_empty_month};
use kd_tables::{Model, Sink};

/// Writes the key sheet with the days of `table`. Writes notes on the table to `errors`, in the language of `wording`.
pub(crate) fn make_sheet<W: Sink, E: Sink>(
    wording: Wording,
    table: &[u8],
    options: &TableOptions<&str>,
    sink: &mut W,
    errors: &mut E,
) -> Result<(), Refused>
    ensures sheet { MakesSheet (texts_of options.now) table.now
        (port W.taken W.has_failed sink.old sink.new) result }
    ensures untouched { IsErr result → is_device result ≡ false → sink.new ≡ sink.old }
    ensures failed { W.has_failed sink.new ≡ (W.has_failed sink.old || is_device result) }
    ensures noted { HasTableNotes wording.language (texts_of options.now) table.now result
        (port E.taken E.has_failed errors.old errors.new) }
{
    let options = TableOptions {
        model: options.model.as_bytes(),
        reflector: options.reflector.as_bytes(),
        window: options.window.as_bytes(),
    };
    match run_sheet(wording, table, &options, sink, errors) {
        Ok(()) => Ok(()),
        Err(fault) => Err(Refused::of_sheet(fault)),
    }
}

/// Writes a key sheet of `days` days of `model`, to fill in.
pub(crate) fn write_empty_sheet<W: Sink>(
    model: Model,
    days: u8,
    sink: &mut W,
) -> Result<(), Refused>
    requires { days ≤ 31 }
    ensures written { WritesText refused_device (empty_month_text model days)
        (port W.taken W.has_failed sink.old sink.new) result }
    ensures failed { W.has_failed sink.new ≡ (W.has_failed sink.old || is_device result) }
{
    write_empty_month(sink, model, days)?;
    Ok(())
}
