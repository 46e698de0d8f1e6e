//! Finds misnamed columns: the table lacks a column, and an unread column has nearly this column's name.
ghost use Rattle.std.specs.Prelude.{◌≡◌, ◌≤◌, ◌+◌};
ghost use Rattle.std.specs.List.{list_any};
ghost use Rattle.csv.specs.Records.{fields_of};
ghost use Rattle.kd_spreadsheet.specs.NearNames.{is_meant, is_misnamed, is_near_column, is_near_name, lacks_near};
ghost use Rattle.kd_spreadsheet.specs.NearNames.{near_column, near_from};

use crate::cell::{Cell, column_of};
use crate::columns::{COLUMNS, Columns, cell_at, english_name, german_name, short_name};
use crate::row::is_column_read;
use csv::ByteRecord;
use kd_slips::near_names::is_near;

/// All cells that a row may have.
pub static ALL_CELLS: [Cell; 16] = [
    Cell::Day,
    Cell::Model,
    Cell::Reflector,
    Cell::Wheels,
    Cell::Rings,
    Cell::Window,
    Cell::Plugs,
    Cell::Groups,
    Cell::List,
    Cell::Pins1,
    Cell::Pins2,
    Cell::Pins3,
    Cell::Pins4,
    Cell::Pins5,
    Cell::Pins6,
    Cell::Bars,
];

/// Whether the table has a misnamed column.
#[tactic(auto, unfolding(crate::specs::NearNames::is_misnamed))]
pub fn is_misnamed(columns: &Columns, head: &ByteRecord) -> bool
    ensures { result ≡ is_misnamed columns.now (fields_of head.now) }
{
    lacks_near_any(columns, head, &ALL_CELLS)
}

/// The first unread column with nearly the name of the column of `cell`, among the first 64 columns.
pub fn near_column(columns: &Columns, head: &ByteRecord, cell: Cell) -> Option<usize>
    ensures { result ≡ near_column columns.now (fields_of head.now) cell }
{
    near_from(columns, head, cell, 0, COLUMNS)
}

/// The first unread column with nearly the name of the column of `cell`, among the `count` columns from `place` on.
#[tactic(auto, unfolding(crate::specs::NearNames::near_from))]
fn near_from(
    columns: &Columns,
    head: &ByteRecord,
    cell: Cell,
    place: usize,
    count: usize,
) -> Option<usize>
    requires { place + count ≤ 64 }
    ensures { result ≡ near_from columns.now (fields_of head.now) cell place count }
{
    if count == 0 {
        return None;
    }
    if is_meant(columns, head, cell, place) {
        return Some(place);
    }
    near_from(columns, head, cell, place + 1, count - 1)
}

/// Whether `name` nearly equals `known`: they differ in one stretch of at most two letters.
///
/// For example, `wheles` nearly equals `wheels`. If `known` has fewer than five letters, they differ in at most one
/// letter. Capital and small letters count as equal.
pub fn is_near_name(name: &[u8], known: &str) -> bool
    ensures { result ≡ is_near_name name.now known.now }
{
    let slips = if known.len() < 5 { 1 } else { 2 };
    is_near(slips, name, known.as_bytes())
}

/// Whether the column of one of `cells` is misnamed.
fn lacks_near_any(columns: &Columns, head: &ByteRecord, cells: &[Cell]) -> bool
    ensures { result ≡ list_any (lacks_near columns.now (fields_of head.now)) cells.now }
{
    match cells {
        [cell, rest @ ..] => {
            lacks_near(columns, head, *cell) || lacks_near_any(columns, head, rest)
        }
        [] => false,
    }
}

/// Whether the table lacks the column of `cell`, but has an unread column with nearly this column's name.
fn lacks_near(columns: &Columns, head: &ByteRecord, cell: Cell) -> bool
    ensures { result ≡ lacks_near columns.now (fields_of head.now) cell }
{
    column_of(columns, cell).is_none() && near_column(columns, head, cell).is_some()
}

/// Whether the column at `place` isn't read, and has nearly one of the three names of the column of `cell`.
#[tactic(auto, unfolding(crate::specs::NearNames::is_meant))]
fn is_meant(columns: &Columns, head: &ByteRecord, cell: Cell, place: usize) -> bool
    ensures { result ≡ is_meant columns.now (fields_of head.now) cell place }
{
    !is_column_read(columns, place) && is_near_column(cell, cell_at(head, Some(place)))
}

/// Whether `name` nearly equals one of the three names of the column of `cell`.
fn is_near_column(cell: Cell, name: &[u8]) -> bool
    ensures { result ≡ is_near_column cell name.now }
{
    is_near_name(name, english_name(cell))
        || is_near_name(name, german_name(cell))
        || is_near_name(name, short_name(cell))
}
