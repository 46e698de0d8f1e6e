//! The columns of a table, found by their names in the table's first row.
ghost use Rattle.std.specs.Prelude.{◌≡◌, ◌≤◌, ◌+◌, length};
ghost use Rattle.csv.specs.Records.{fields_of};
ghost use Rattle.kd_spreadsheet.specs.Columns.{cell_at, cell_or, column_from, column_named, columns_of, english_name, german_name};
ghost use Rattle.kd_spreadsheet.specs.Columns.{names_column, pin_columns, short_name};

use crate::cell::Cell;
use crate::items::is_blank;
use crate::names::is_named;
use csv::ByteRecord;

/// How many of a table's columns are searched for names: the first 64.
pub const COLUMNS: usize = 64;

/// The number of a table's columns, and the places of the columns that are read. Places are counted from 0. A column
/// that the table doesn't have is `None`.
#[derive(Clone, Copy)]
pub struct Columns {
    pub count: usize,
    pub day: Option<usize>,
    pub model: Option<usize>,
    pub reflector: Option<usize>,
    pub wheels: Option<usize>,
    pub rings: Option<usize>,
    pub plugs: Option<usize>,
    pub window: Option<usize>,
    pub groups: Option<usize>,
    pub list: Option<usize>,
    pub pins: [Option<usize>; 6],
    pub bars: Option<usize>,
}

impl Columns {
    /// The columns of a table whose first row is `head`.
    #[tactic(auto, unfolding(crate::specs::Columns::columns_of))]
    pub fn of_head(head: &ByteRecord) -> Self
        ensures { result ≡ columns_of (fields_of head.now) }
    {
        Columns {
            count: head.len(),
            day: column_named(head, Cell::Day),
            model: column_named(head, Cell::Model),
            reflector: column_named(head, Cell::Reflector),
            wheels: column_named(head, Cell::Wheels),
            rings: column_named(head, Cell::Rings),
            plugs: column_named(head, Cell::Plugs),
            window: column_named(head, Cell::Window),
            groups: column_named(head, Cell::Groups),
            list: column_named(head, Cell::List),
            pins: pin_columns(head),
            bars: column_named(head, Cell::Bars),
        }
    }
}

/// The text of `row` in `column` or, if this text is blank, `otherwise`.
pub fn cell_or<'a>(otherwise: &'a [u8], row: &'a ByteRecord, column: Option<usize>) -> &'a [u8]
    ensures { result.now ≡ cell_or otherwise.now column (fields_of row.now) }
{
    let cell = cell_at(row, column);
    if is_blank(cell) { otherwise } else { cell }
}

/// The text of `row` in `column`. Empty if the table has no such column, or the row is too short.
pub fn cell_at(row: &ByteRecord, column: Option<usize>) -> &[u8]
    ensures { result.now ≡ cell_at column (fields_of row.now) }
{
    match column {
        Some(place) => row.get(place).unwrap_or(&[]),
        None => &[],
    }
}

/// The English name of the column of `cell`.
pub fn english_name(cell: Cell) -> &'static str
    ensures name { result.now ≡ english_name cell }
    ensures short { length result.now ≤ 32 }
{
    match cell {
        Cell::Day => "day",
        Cell::Model => "model",
        Cell::Reflector => "reflector",
        Cell::Wheels => "wheels",
        Cell::Rings => "rings",
        Cell::Window => "window",
        Cell::Plugs => "plugs",
        Cell::Groups => "groups",
        Cell::List => "list",
        Cell::Pins1 => "pins 1",
        Cell::Pins2 => "pins 2",
        Cell::Pins3 => "pins 3",
        Cell::Pins4 => "pins 4",
        Cell::Pins5 => "pins 5",
        Cell::Pins6 => "pins 6",
        Cell::Bars => "bars",
    }
}

/// The short German name of the column of `cell`; the German name if the column has no short name.
pub fn short_name(cell: Cell) -> &'static str
    ensures name { result.now ≡ short_name cell }
    ensures short { length result.now ≤ 32 }
{
    match cell {
        Cell::Reflector => "UKW",
        Cell::Wheels => "Walzen",
        Cell::Rings => "Ringe",
        Cell::Plugs => "Stecker",
        _ => german_name(cell),
    }
}

/// The German name of the column of `cell`.
pub fn german_name(cell: Cell) -> &'static str
    ensures name { result.now ≡ german_name cell }
    ensures short { length result.now ≤ 32 }
{
    match cell {
        Cell::Day => "Tag",
        Cell::Model => "Modell",
        Cell::Reflector => "Umkehrwalze",
        Cell::Wheels => "Walzenlage",
        Cell::Rings => "Ringstellung",
        Cell::Window => "Grundstellung",
        Cell::Plugs => "Steckerverbindungen",
        Cell::Groups => "Kenngruppen",
        Cell::List => "Liste",
        Cell::Pins1 => "Stifte 1",
        Cell::Pins2 => "Stifte 2",
        Cell::Pins3 => "Stifte 3",
        Cell::Pins4 => "Stifte 4",
        Cell::Pins5 => "Stifte 5",
        Cell::Pins6 => "Stifte 6",
        Cell::Bars => "Stangen",
    }
}

/// The place of the cell's column: the first of the table's first 64 columns that has one of the cell's three names.
fn column_named(head: &ByteRecord, cell: Cell) -> Option<usize>
    ensures { result ≡ column_named cell (fields_of head.now) }
{
    column_from(head, cell, 0, COLUMNS)
}

/// The first column whose name is one of the three names for `cell`. Only the `count` columns from `place` on are
/// searched.
#[tactic(auto, unfolding(crate::specs::Columns::column_from))]
fn column_from(head: &ByteRecord, cell: Cell, place: usize, count: usize) -> Option<usize>
    requires { place + count ≤ 64 }
    ensures { result ≡ column_from cell (fields_of head.now) place count }
{
    if count == 0 {
        return None;
    }
    if names_column(cell, cell_at(head, Some(place))) {
        return Some(place);
    }
    column_from(head, cell, place + 1, count - 1)
}

/// Whether `text` is one of the three names of the column of `cell`.
#[tactic(auto, unfolding(crate::specs::Columns::names_column))]
fn names_column(cell: Cell, text: &[u8]) -> bool
    ensures { result ≡ names_column cell text.now }
{
    is_named(english_name(cell), text)
        || is_named(german_name(cell), text)
        || is_named(short_name(cell), text)
}

/// The columns of a Converter's pins, wheel by wheel.
fn pin_columns(head: &ByteRecord) -> [Option<usize>; 6]
    ensures { result ≡ pin_columns (fields_of head.now) }
{
    [
        column_named(head, Cell::Pins1),
        column_named(head, Cell::Pins2),
        column_named(head, Cell::Pins3),
        column_named(head, Cell::Pins4),
        column_named(head, Cell::Pins5),
        column_named(head, Cell::Pins6),
    ]
}
