//! The words that say which columns a table lacks, which columns are misnamed, or why the first row has no column
//! names.
use super::head::Head;
use super::note::option_name;
use super::words::{Value, Words};
use crate::cell::{Cell, column_of, has_text, is_optional, known_cells};
use crate::columns::{Columns, cell_at, english_name, german_name, short_name};
use crate::names::is_named;
use crate::near_names::{ALL_CELLS, is_near_name, near_column};
use crate::row::{is_blank_row, places_of};
use crate::texts::{IS_UTF16, MEANT, NO_COLUMN, NO_COLUMN_OR_OPTION, NO_NAMES, SAYS_SEPARATOR};
use csv::ByteRecord;
use kd_language::Text;

/// Columns that most tables have. Their names show the language of the table.
static OFTEN_NAMED: [Cell; 5] = [
    Cell::Day,
    Cell::Wheels,
    Cell::Rings,
    Cell::Plugs,
    Cell::Bars,
];

/// Names the misnamed columns, and the missing columns that every table needs, or that one of `rows` needs. If the
/// first row has no column names, not even misnamed ones, says why it has none.
pub fn head_words(head: &Head<'_>, rows: &[ByteRecord]) -> Words {
    let mut lines = Words::new(head.language());
    for cell in &ALL_CELLS {
        tell_near(&mut lines, head, *cell);
    }
    if !names_none(head.columns()) {
        for cell in &ALL_CELLS {
            tell_missing(&mut lines, head, rows, *cell);
        }
    } else if lines.is_empty() {
        lines.tell(nameless_words(cell_at(head.names(), Some(0))), &[]);
    }
    lines
}

/// If the column of `cell` is misnamed, asks whether this column is meant by the mistyped name.
fn tell_near(lines: &mut Words, head: &Head<'_>, cell: Cell) {
    if column_of(head.columns(), cell).is_none()
        && let Some(column) = near_column(head.columns(), head.names(), cell)
    {
        let name = cell_at(head.names(), Some(column));
        lines.tell(
            MEANT,
            &[Value::Text(meant_name(cell, name)), Value::Cell(name)],
        );
    }
}

/// Whether the first row names none of the columns that are read.
fn names_none(columns: &Columns) -> bool {
    are_missing(&places_of(columns)) && are_missing(&columns.pins)
}

fn are_missing(columns: &[Option<usize>]) -> bool {
    for column in columns {
        if column.is_some() {
            return false;
        }
    }
    true
}

/// The reason why the first row, which begins with `cell`, has no column names.
fn nameless_words(cell: &[u8]) -> Text {
    if is_utf16(cell) {
        return IS_UTF16;
    }
    if says_separator(cell) {
        return SAYS_SEPARATOR;
    }
    NO_NAMES
}

/// Whether `cell`, the first cell of a table, begins with the byte order mark of UTF-16.
fn is_utf16(cell: &[u8]) -> bool {
    matches!(cell, [0xFF, 0xFE, ..] | [0xFE, 0xFF, ..])
}

/// Whether `cell` begins with `sep=`, which tells some programs the separator of cells.
fn says_separator(cell: &[u8]) -> bool {
    if cell.len() < 4 {
        return false;
    }
    let (start, _) = cell.split_at(4);
    is_named("sep=", start)
}

/// The name of the column of `cell` that `name` nearly equals: the English, German or short German name.
fn meant_name(cell: Cell, name: &[u8]) -> &'static str {
    if is_near_name(name, english_name(cell)) {
        english_name(cell)
    } else if is_near_name(name, german_name(cell)) {
        german_name(cell)
    } else {
        short_name(cell)
    }
}

/// If the column of `cell` is needed, but neither misnamed nor there, says that the table lacks the column.
fn tell_missing(lines: &mut Words, head: &Head<'_>, rows: &[ByteRecord], cell: Cell) {
    if !is_optional(cell)
        && !has_text(head.options(), head.columns(), cell)
        && near_column(head.columns(), head.names(), cell).is_none()
        && is_in_tables(head, rows, cell)
    {
        missing_column(lines, head, cell);
    }
}

/// Whether every table has `cell`, or a model of `rows` has it.
fn is_in_tables(head: &Head<'_>, rows: &[ByteRecord], cell: Cell) -> bool {
    if matches!(cell, Cell::Day | Cell::Model) {
        return true;
    }
    for row in rows {
        if !is_blank_row(head.columns(), row) && is_in_row(head, row, cell) {
            return true;
        }
    }
    false
}

/// Whether the model of `row` has `cell`.
fn is_in_row(head: &Head<'_>, row: &ByteRecord, cell: Cell) -> bool {
    for other in known_cells(head.options(), head.columns(), row) {
        if *other == cell {
            return true;
        }
    }
    false
}

/// Says that the table lacks the column of `cell`.
fn missing_column(lines: &mut Words, head: &Head<'_>, cell: Cell) {
    let name = Value::Text(name_of(head, cell));
    let option = option_name(cell);
    if option.is_empty() {
        lines.tell(NO_COLUMN, &[name]);
    } else {
        lines.tell(NO_COLUMN_OR_OPTION, &[name, Value::Text(option)]);
    }
}

/// The name of the column of `cell`, in the language in which the table's columns are named.
fn name_of(head: &Head<'_>, cell: Cell) -> &'static str {
    if is_german(head) {
        german_name(cell)
    } else {
        english_name(cell)
    }
}

/// Whether this table has a German name for one of the columns that most tables have.
fn is_german(head: &Head<'_>) -> bool {
    for cell in &OFTEN_NAMED {
        let name = cell_at(head.names(), column_of(head.columns(), *cell));
        if is_named(german_name(*cell), name) || is_named(short_name(*cell), name) {
            return true;
        }
    }
    false
}
