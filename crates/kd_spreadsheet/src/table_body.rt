//! Reads a table row by row.
ghost use Rattle.std.specs.Prelude.{◌≡◌, ◌++◌, ◌∷◌, [], List, ℕ, IfOk, map};
ghost use Rattle.csv.specs.Records.{fields_of};
ghost use Rattle.kd_options.specs.TableOptions.{texts_of};
ghost use Rattle.kd_spreadsheet.specs.Table.{is_taken, IsBodyRead};

use crate::columns::Columns;
use crate::row::{is_blank_row, row_day};
use csv::ByteRecord;
use kd_options::TableOptions;
use kd_state::SheetDay;
use std::alloc::{AllocError, Global};

/// The days in the rows under the first row, and whether one of these rows was refused.
#[derive(Drop)]
pub struct TableBody {
    /// The days of the rows. No two days have the same number.
    pub days: Vec<SheetDay>,
    /// Whether a row was refused.
    pub refused: bool,
}

/// Reads the rows under the first row. Returns the days of these rows, and whether one of these rows is refused.
pub fn read_body(
    alloc: Global,
    options: &TableOptions<&[u8]>,
    columns: &Columns,
    rows: &[ByteRecord],
) -> Result<TableBody, AllocError>
    ensures { IfOk result (λ reading. IsBodyRead (texts_of options.now) columns.now
        (map fields_of rows.now) reading.days.items reading.refused) }
{
    let mut days = Vec::new(alloc);
    let mut refused = false;
    for row in rows {
        refused = read_body_row(&mut days, refused, options, columns, row)?;
    }
    Ok(TableBody { days, refused })
}

/// Reads a row under the first row, and appends its day. Returns whether this row or an earlier row is refused.
fn read_body_row(
    days: &mut Vec<SheetDay>,
    refused: bool,
    options: &TableOptions<&[u8]>,
    columns: &Columns,
    row: &ByteRecord,
) -> Result<bool, AllocError>
    ensures { IfOk result (λ now. (rows : List (List (List ℕ)))
        → IsBodyRead (texts_of options.now) columns.now rows days.old.items refused
        → IsBodyRead (texts_of options.now) columns.now (rows ++ fields_of row.now ∷ [])
        days.new.items now) }
{
    if is_blank_row(columns, row) {
        return Ok(refused);
    }
    let day = match row_day(options, columns, row) {
        Some(day) => day,
        None => return Ok(true),
    };
    if is_taken(days.as_slice(), day.day()) {
        return Ok(true);
    }
    if days.push(day).is_err() {
        return Err(AllocError);
    }
    Ok(refused)
}

/// Whether one of `days` has the number `number`.
fn is_taken(days: &[SheetDay], number: u8) -> bool
    ensures { result ≡ is_taken days.now number }
{
    match days {
        [day, rest @ ..] => day.day() == number || is_taken(rest, number),
        [] => false,
    }
}
