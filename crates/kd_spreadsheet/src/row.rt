//! Reads a row of a table as a day.
ghost use Rattle.std.specs.Prelude.{◌≡◌, ◌-◌, MatchOption, Some};
ghost use Rattle.csv.specs.Records.{fields_of};
ghost use Rattle.std.specs.List.{list_all, list_any, range_with_len};
ghost use Rattle.kd_spreadsheet.specs.{Columns.{cell_at}, Items.{is_blank}};
ghost use Rattle.kd_options.specs.TableOptions.{texts_of};
ghost use Rattle.kd_spreadsheet.specs.Row.{fits_columns, is_at, is_blank_row, is_column_read, places_of};
ghost use Rattle.kd_spreadsheet.specs.Row.{row_values, IsDayOfRow, IsNoDay};

use crate::columns::{Columns, cell_at, cell_or};
use crate::items::is_blank;
use crate::names::model_named;
use crate::pin_row::pin_day;
use crate::rotor_row::rotor_day;
use csv::ByteRecord;
use kd_options::TableOptions;
use kd_state::SheetDay;
use kd_tables::Family;

/// Whether the column at `place` is read.
#[tactic(auto, unfolding(crate::specs::Row::is_column_read))]
pub fn is_column_read(columns: &Columns, place: usize) -> bool
    ensures { result ≡ is_column_read columns.now place }
{
    is_among(place, &places_of(columns)) || is_among(place, &columns.pins)
}

/// Whether `row` is blank in all columns that are read.
#[tactic(auto, unfolding(crate::specs::Row::is_blank_row))]
pub fn is_blank_row(columns: &Columns, row: &ByteRecord) -> bool
    ensures { result ≡ is_blank_row columns.now (fields_of row.now) }
{
    has_nothing(row, &places_of(columns)) && has_nothing(row, &columns.pins)
}

/// The places of all columns that are read, except the pin columns.
pub fn places_of(columns: &Columns) -> [Option<usize>; 10]
    ensures { result ≡ places_of columns.now }
{
    [
        columns.day,
        columns.model,
        columns.reflector,
        columns.wheels,
        columns.rings,
        columns.plugs,
        columns.window,
        columns.groups,
        columns.list,
        columns.bars,
    ]
}

/// Reads a row as a day. `None` if the row doesn't have a legal day.
pub fn row_day(
    options: &TableOptions<&[u8]>,
    columns: &Columns,
    row: &ByteRecord,
) -> Option<SheetDay>
    ensures { MatchOption result
        (IsNoDay (row_values (texts_of options.now) columns.now (fields_of row.now)))
        (λ day. IsDayOfRow (texts_of options.now) columns.now (fields_of row.now) day) }
{
    if !fits_columns(columns, row) {
        return None;
    }
    let model = model_named(cell_or(options.model, row, columns.model))?;
    let day = match model.family() {
        Family::Rotor => rotor_day(options, columns, row, model)?,
        Family::Pin => pin_day(options, columns, row)?,
    };
    let _legal = day.model();
    Some(day)
}

/// Whether one of `columns` is the column at `place`.
fn is_among(place: usize, columns: &[Option<usize>]) -> bool
    ensures { result ≡ list_any (is_at place) columns.now }
{
    match columns {
        [column, rest @ ..] => is_at(place, *column) || is_among(place, rest),
        [] => false,
    }
}

/// Whether `column` is the column at `place`.
fn is_at(place: usize, column: Option<usize>) -> bool
    ensures { result ≡ is_at place column }
{
    match column {
        Some(other) => other == place,
        None => false,
    }
}

/// Whether `row` is blank in each of `columns`.
fn has_nothing(row: &ByteRecord, columns: &[Option<usize>]) -> bool
    ensures { result ≡ list_all (λ column. is_blank (cell_at column (fields_of row.now))) columns.now }
{
    match columns {
        [column, rest @ ..] => is_blank(cell_at(row, *column)) && has_nothing(row, rest),
        [] => true,
    }
}

/// Whether `row` has a cell in each column of the table, and only blank cells beyond the last column.
#[tactic(auto, unfolding(crate::specs::Row::fits_columns))]
fn fits_columns(columns: &Columns, row: &ByteRecord) -> bool
    ensures { result ≡ fits_columns columns.now (fields_of row.now) }
{
    let count = row.len();
    columns.count <= count && are_blank(row, columns.count, count)
}

/// Whether `row` is blank in the columns from `start` to just before `end`.
fn are_blank(row: &ByteRecord, start: usize, end: usize) -> bool
    ensures { result ≡ list_all (λ place. is_blank (cell_at (Some place) (fields_of row.now)))
        (range_with_len start (end - start)) }
{
    (start..end).all(|place| is_blank(cell_at(row, Some(place))))
}
