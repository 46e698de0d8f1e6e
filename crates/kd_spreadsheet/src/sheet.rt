//! The command `sheet`: makes a key sheet from a table.
ghost use Rattle.std.specs.Prelude.{◌≡◌, ◌⊎◌, ◌||◌, Ok, Err, IfOk, IsErr, List, Some, false, map};
ghost use Rattle.csv.specs.Records.{fields_of};
ghost use Rattle.std.specs.Io.KnownBytes.{Appends};
ghost use Rattle.kd_tables.specs.{Writing.{TakesPrefix}, WriteFault.{is_device}};
ghost use Rattle.kd_state.specs.SheetDay.{Day};
ghost use Rattle.kd_sheet.specs.{Sheet.{month_of}, SheetFile.{sheet_of}, SheetText.{sheet_text}};
ghost use Rattle.kd_tables.specs.Ports.{port};
ghost use Rattle.kd_spreadsheet.specs.Notes.{HasNotesOn, IsTaken, IsTakenOfRows, Tells, table_fault};
ghost use Rattle.kd_options.specs.TableOptions.{texts_of};
ghost use Rattle.kd_spreadsheet.specs.Table.{AreRefusedRows, TableMeans, IsRefusedTable};
ghost use Rattle.kd_spreadsheet.specs.declared.fault.SpreadsheetFault.TheVariants as faults;

use crate::columns::Columns;
use crate::fault::SpreadsheetFault;
use crate::near_names::is_misnamed;
use crate::notes::{put_note, refused_note, taken_note};
use crate::quotes::is_well_quoted;
use crate::records::read_records;
use crate::sheet_writer::write_sheet;
use crate::table_body::{TableBody, read_body};
use csv::ByteRecord;
use kd_language::Wording;
use kd_options::TableOptions;
use kd_state::SheetDay;
use kd_tables::{Sink, WriteFault};

/// The days that a table means, and the note on the table.
#[derive(Drop)]
struct Taken {
    days: Vec<SheetDay>,
    note: Vec<u8>,
}

/// Reads the rows of a table as days. `names` is the first row, and `rows` are the rows under it.
fn take_rows(
    wording: Wording,
    options: &TableOptions<&[u8]>,
    names: &ByteRecord,
    rows: &[ByteRecord],
) -> Result<Taken, SpreadsheetFault>
    ensures taken { IfOk result (λ taken. IsTakenOfRows wording.language (texts_of options.now)
        (fields_of names.now) (map fields_of rows.now) taken.days.items taken.note.items) }
    ensures refused { result ≡ Err faults.Refused
        → AreRefusedRows (texts_of options.now) (fields_of names.now) (map fields_of rows.now) }
{
    let columns = Columns::of_head(names);
    if is_misnamed(&columns, names) {
        return Err(SpreadsheetFault::Refused);
    }
    let Ok(TableBody { days, refused }) = read_body(wording.alloc, options, &columns, rows) else {
        return Err(SpreadsheetFault::NoMemory);
    };
    if refused || days.is_empty() {
        return Err(SpreadsheetFault::Refused);
    }
    match taken_note(wording, names, days.as_slice()) {
        Ok(note) => Ok(Taken { days, note }),
        Err(_) => Err(SpreadsheetFault::NoMemory),
    }
}

/// Reads a table as the days of a key sheet.
fn take_table(
    wording: Wording,
    table: &[u8],
    options: &TableOptions<&[u8]>,
) -> Result<Taken, SpreadsheetFault>
    ensures taken { IfOk result (λ taken. IsTaken wording.language (texts_of options.now)
        table.now taken.days.items taken.note.items) }
    ensures refused { result ≡ Err faults.Refused → IsRefusedTable (texts_of options.now) table.now }
{
    if !is_well_quoted(table) {
        return Err(SpreadsheetFault::Refused);
    }
    let Ok(records) = read_records(wording.alloc, table) else {
        return Err(SpreadsheetFault::NoMemory);
    };
    match records.as_slice() {
        [names, rows @ ..] => take_rows(wording, options, names, rows),
        [] => Err(SpreadsheetFault::Refused),
    }
}

/// If `fault` is `Refused`, writes the notes on the table. Returns `fault`, or `NoMemory` if memory runs out for the
/// notes.
fn tell_refused<N: Sink>(
    fault: SpreadsheetFault,
    wording: Wording,
    table: &[u8],
    options: &TableOptions<&[u8]>,
    notes: &mut N,
) -> SpreadsheetFault
    ensures told { Tells (port N.taken N.has_failed notes.old notes.new) }
    ensures fault { (result ≡ fault) ⊎ (result ≡ faults.NoMemory) }
    ensures noted { HasNotesOn wording.language (texts_of options.now) table.now (Some result)
        (port N.taken N.has_failed notes.old notes.new) }
{
    match fault {
        SpreadsheetFault::Refused => match refused_note(wording, table, options) {
            Ok(note) => {
                put_note(notes, note.as_slice());
                SpreadsheetFault::Refused
            }
            Err(_) => SpreadsheetFault::NoMemory,
        },
        SpreadsheetFault::NoMemory => SpreadsheetFault::NoMemory,
    }
}

/// Writes the key sheet with the days of `table`. If the table isn't refused, `notes` gets a line for each unread
/// column. It also gets a warning for each day that has fewer pairs or groups than another day of its model. The lines
/// are in the language of `wording`.
///
/// On `Refused`, the table is refused, and `notes` gets lines about the table's faults. On `NoMemory`, lines may be
/// missing in `notes`.
pub fn run_sheet<W: Sink, N: Sink>(
    wording: Wording,
    table: &[u8],
    options: &TableOptions<&[u8]>,
    sink: &mut W,
    notes: &mut N,
) -> Result<(), WriteFault<SpreadsheetFault>>
    ensures sheet { IfOk result (λ _. (days : List Day) × TableMeans (texts_of options.now) table.now days
        × Appends (W.taken sink.old) (W.taken sink.new) (sheet_text days)
        × (sheet_of (sheet_text days) ≡ Ok (month_of days))) }
    ensures refused { result ≡ Err (WriteFault.Unwritten faults.Refused)
        → IsRefusedTable (texts_of options.now) table.now }
    ensures device { result ≡ Err WriteFault.Device
        → (days : List Day) × TableMeans (texts_of options.now) table.now days
        × TakesPrefix (W.taken sink.old) (W.taken sink.new) (sheet_text days) }
    ensures untouched { IsErr result → is_device result ≡ false → sink.new ≡ sink.old }
    ensures told { Tells (port N.taken N.has_failed notes.old notes.new) }
    ensures noted { HasNotesOn wording.language (texts_of options.now) table.now
        (table_fault result) (port N.taken N.has_failed notes.old notes.new) }
    ensures failed { W.has_failed sink.new ≡ (W.has_failed sink.old || is_device result) }
{
    let Taken { days, note } = match take_table(wording, table, options) {
        Ok(taken) => taken,
        Err(fault) => {
            let told = tell_refused(fault, wording, table, options, notes);
            return Err(WriteFault::Unwritten(told));
        }
    };
    put_note(notes, note.as_slice());
    match write_sheet(sink, days.as_slice()) {
        Ok(()) => Ok(()),
        Err(_) => Err(WriteFault::Device),
    }
}
