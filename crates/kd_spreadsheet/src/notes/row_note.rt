//! The notes on a row.
ghost use Rattle.std.specs.Prelude.{◌≡◌, ◌++◌, ◌∷◌, ◌<◌, [], ℕ, List, true, flat_map, length, slice_get, IfOk, IfSome};
ghost use Rattle.std.specs.Option.{option_map_or};
ghost use Rattle.std.specs.String.{string_bytes};
ghost use Rattle.csv.specs.Records.{fields_of};
ghost use Rattle.kd_spreadsheet.specs.Cells.{cells_of, day_in, has_columns, is_faulty, row_cells, row_model};
ghost use Rattle.kd_spreadsheet.specs.Columns.{cell_at};
ghost use Rattle.kd_spreadsheet.specs.Notes.{cell_place, line_at, of_day_cell, row_place, same_day_words, AreCellWords, KnowsDays};
ghost use Rattle.kd_spreadsheet.specs.Notes.{TellsCells, TellsPlacedRow, TellsRow};
ghost use Rattle.kd_spreadsheet.specs.Row.{row_values, IsNoDay};

use super::cell_words::cell_words;
use super::found::Found;
use super::head::{Head, PlacedRow};
use super::note::{cell_place, push_due_words, push_line, row_place};
use super::words::{Value, Words};
use crate::cell::{Cell, day_in, has_columns, has_text, is_read, known_cells, row_model, text_of};
use crate::columns::cell_at;
use crate::items::is_blank;
use crate::row::row_day;
use crate::texts::{BEYOND, ROW_ENDS, ROW_IS_NO_DAY, SAME_DAY, UNREADABLE};
use csv::ByteRecord;
use itoa::Buffer;
use std::alloc::AllocError;

/// Appends the notes on a row that isn't blank. Adds the row's day to `found`.
pub fn push_row(
    note: &mut Vec<u8>,
    found: &mut Found,
    head: &Head<'_>,
    number: u64,
    row: &ByteRecord,
) -> Result<(), AllocError>
    ensures { IfOk result (λ _. (more : List ℕ) × (note.new.items ≡ note.old.items ++ more)
        × ((numbers : List ℕ) (rows : List (List (List ℕ)))
        → IfSome (slice_get numbers (length rows)) (λ due. number ≡ due)
        → KnowsDays head.now.columns numbers rows found.old.rows
        → TellsRow head.now.language head.now.options head.now.columns head.now.names numbers rows
        number (fields_of row.now) more
        × KnowsDays head.now.columns numbers (rows ++ fields_of row.now ∷ []) found.new.rows)) }
{
    let place = place_of_row(head, number, row)?;
    let earlier = found.earlier_row(head, row, number);
    let placed = PlacedRow::new(place.as_str().as_bytes(), row, earlier);
    push_placed_row(note, head, &placed)
}

/// The words for the place of `row`, such as `row 5, ` or, if the row's day is known, `row 5 (day 3), `.
fn place_of_row(head: &Head<'_>, number: u64, row: &ByteRecord) -> Result<String, AllocError>
    ensures { IfOk result (λ place. string_bytes place ≡ row_place head.now.language number
        (day_in (cell_at head.now.columns.day (fields_of row.now)))) }
{
    let day = day_in(cell_at(row, head.columns().day));
    row_place(head.wording(), number, day)
}

/// Appends the notes on a row's cells, and on the row as a whole.
fn push_placed_row(
    note: &mut Vec<u8>,
    head: &Head<'_>,
    row: &PlacedRow<'_>,
) -> Result<(), AllocError>
    ensures { IfOk result (λ _. TellsPlacedRow head.now.language head.now.options head.now.columns
        head.now.names row.now.place row.now.cells row.now.earlier note.old.items note.new.items) }
{
    let start = note.len();
    push_row_cells(note, head, row)?;
    let is_due = is_untold(head, row.cells(), start, note.len());
    push_due_words(
        note,
        row.place(),
        &end_words(head, row.cells()),
        is_due,
        head.language().text(ROW_IS_NO_DAY),
    )
}

/// Appends the notes on all cells of a row.
fn push_row_cells(
    note: &mut Vec<u8>,
    head: &Head<'_>,
    row: &PlacedRow<'_>,
) -> Result<(), AllocError>
    ensures { IfOk result (λ _. (more : List ℕ) × (note.new.items ≡ note.old.items ++ more)
        × TellsCells head.now.language head.now.options head.now.columns head.now.names
        row.now.place row.now.cells row.now.earlier
        (row_cells (row_model head.now.options head.now.columns row.now.cells)) more) }
{
    let known = cells_of_row(head, row);
    push_cell(note, head, row, Cell::Day)?;
    push_cell(note, head, row, Cell::Model)?;
    push_cells(note, head, row, known)
}

/// The cells of a row that depend on the row's model. No cells if the model's name can't be read.
fn cells_of_row(head: &Head<'_>, row: &PlacedRow<'_>) -> &'static [Cell]
    ensures { result.now ≡ option_map_or cells_of
        (row_model head.now.options head.now.columns row.now.cells) [] }
{
    known_cells(head.options(), head.columns(), row.cells())
}

/// Appends the notes on `cell`.
fn push_cell(
    note: &mut Vec<u8>,
    head: &Head<'_>,
    row: &PlacedRow<'_>,
    cell: Cell,
) -> Result<(), AllocError>
    ensures { IfOk result (λ _. (lines : List (List ℕ))
        × (note.new.items ≡ note.old.items
        ++ flat_map (line_at (cell_place head.now.columns head.now.names row.now.place cell)) lines)
        × AreCellWords head.now.language head.now.options head.now.columns row.now.cells
        row.now.earlier cell lines) }
{
    let place = cell_place(head, row.place(), cell)?;
    match earlier_row(row, cell) {
        Some(earlier) => push_same_day(note, head, place.as_slice(), earlier),
        None => push_cell_words(note, head, row, place.as_slice(), cell),
    }
}

/// The number of an earlier row with the day in `cell`; `None` if there is no such row, or if `cell` isn't for a day.
fn earlier_row(row: &PlacedRow<'_>, cell: Cell) -> Option<u64>
    ensures { result ≡ of_day_cell row.now.earlier cell }
{
    match cell {
        Cell::Day => row.earlier(),
        _ => None,
    }
}

/// Appends the line that row `earlier` has the day in the cell at `place`, too.
fn push_same_day(
    note: &mut Vec<u8>,
    head: &Head<'_>,
    place: &[u8],
    earlier: u64,
) -> Result<(), AllocError>
    ensures { IfOk result (λ _. note.new.items
        ≡ note.old.items ++ line_at place.now (same_day_words head.now.language earlier)) }
{
    let mut buffer = Buffer::new();
    let words = head.wording().fill(SAME_DAY, &[buffer.format(earlier)])?;
    push_line(note, place, words.as_str().as_bytes())
}

/// Appends the lines that say what is wrong with the text of the cell at `place`.
fn push_cell_words(
    note: &mut Vec<u8>,
    head: &Head<'_>,
    row: &PlacedRow<'_>,
    place: &[u8],
    cell: Cell,
) -> Result<(), AllocError>
    ensures { IfOk result (λ _. (lines : List (List ℕ))
        × (note.new.items ≡ note.old.items ++ flat_map (line_at place.now) lines)
        × (is_faulty head.now.options head.now.columns row.now.cells cell ≡ true → 0 < length lines)) }
{
    let words = words_of(head, row, cell);
    let is_due = is_faulty(head, row, cell);
    let otherwise = head.language().text(UNREADABLE);
    push_due_words(note, place, &words, is_due, otherwise)
}

/// Whether the text of `cell` can't be read. False if the table lacks the cell's column, and no option, such as
/// `--model`, replaces it.
fn is_faulty(head: &Head<'_>, row: &PlacedRow<'_>, cell: Cell) -> bool
    ensures { result ≡ is_faulty head.now.options head.now.columns row.now.cells cell }
{
    let options = head.options();
    let columns = head.columns();
    if !has_text(options, columns, cell) {
        return false;
    }
    let model = row_model(options, columns, row.cells());
    !is_read(model, cell, text_of(options, columns, row.cells(), cell))
}

/// Says what is wrong with the text of `cell`.
fn words_of(head: &Head<'_>, row: &PlacedRow<'_>, cell: Cell) -> Words {
    let options = head.options();
    let columns = head.columns();
    if !has_text(options, columns, cell) {
        return Words::new(head.language());
    }
    let model = row_model(options, columns, row.cells());
    let text = text_of(options, columns, row.cells(), cell);
    cell_words(head.language(), cell, model, text)
}

fn push_cells(
    note: &mut Vec<u8>,
    head: &Head<'_>,
    row: &PlacedRow<'_>,
    cells: &[Cell],
) -> Result<(), AllocError>
    ensures { IfOk result (λ _. (more : List ℕ) × (note.new.items ≡ note.old.items ++ more)
        × TellsCells head.now.language head.now.options head.now.columns head.now.names
        row.now.place row.now.cells row.now.earlier cells.now more) }
{
    if let [cell, rest @ ..] = cells {
        push_cell(note, head, row, *cell)?;
        return push_cells(note, head, row, rest);
    }
    Ok(())
}

/// Whether the row needs a note as a whole: it isn't a day, but its cells have no notes that say why.
///
/// False if the table lacks a column that the row needs. `start` and `end` are the note's lengths before and after the
/// notes on the row's cells.
fn is_untold(head: &Head<'_>, row: &ByteRecord, start: usize, end: usize) -> bool
    ensures { IsNoDay (row_values head.now.options head.now.columns (fields_of row.now))
        → has_columns head.now.options head.now.columns (fields_of row.now) ≡ true
        → end ≡ start → result ≡ true }
{
    let options = head.options();
    let columns = head.columns();
    if end != start || !has_columns(options, columns, row) {
        return false;
    }
    match row_day(options, columns, row) {
        Some(_) => false,
        None => true,
    }
}

/// Says before which column a row ends, or which texts stand beyond the last column.
fn end_words(head: &Head<'_>, row: &ByteRecord) -> Words {
    let mut lines = Words::new(head.language());
    let count = head.columns().count;
    if row.len() < count {
        let name = cell_at(head.names(), Some(row.len()));
        lines.tell(ROW_ENDS, &[Value::Cell(name)]);
    }
    for column in count..row.len() {
        let cell = cell_at(row, Some(column));
        if !is_blank(cell) {
            lines.tell(BEYOND, &[Value::Cell(cell)]);
        }
    }
    lines
}
