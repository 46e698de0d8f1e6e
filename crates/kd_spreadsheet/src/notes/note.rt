//! Appends lines to notes. Each line begins with the place that the line is about.
ghost use Rattle.std.specs.Prelude.{◌≡◌, ◌++◌, ◌<◌, ℕ, List, true, flat_map, length, map, IfOk};
ghost use Rattle.std.specs.String.{string_bytes};
ghost use Rattle.kd_spreadsheet.specs.Notes.{cell_name, cell_place, line_at, option_name, row_place, shown, shown_byte};

use super::head::Head;
use super::words::{Words, shown_byte};
use crate::cell::{Cell, column_of};
use crate::columns::cell_at;
use crate::texts::{ROW, ROW_AND_DAY};
use itoa::Buffer;
use kd_language::Wording;
use kd_tables::split_once;
use std::alloc::AllocError;

/// Appends the lines of `words`, with `place` before each line. If there are no words and `is_due` is true, appends the
/// line `otherwise`.
pub fn push_due_words(
    note: &mut Vec<u8>,
    place: &[u8],
    words: &Words,
    is_due: bool,
    otherwise: &str,
) -> Result<(), AllocError>
    ensures { IfOk result (λ _. (lines : List (List ℕ))
        × (note.new.items ≡ note.old.items ++ flat_map (line_at place.now) lines)
        × (is_due ≡ true → 0 < length lines)) }
{
    if !words.is_empty() {
        return push_lines(note, place, words.as_slice());
    }
    if is_due {
        return push_line(note, place, otherwise.as_bytes());
    }
    Ok(())
}

/// Appends the lines of `words`, with the place before each line.
pub fn push_lines(note: &mut Vec<u8>, place: &[u8], words: &[u8]) -> Result<(), AllocError>
    ensures { IfOk result (λ _. (lines : List (List ℕ)) × (0 < length lines)
        × (note.new.items ≡ note.old.items ++ flat_map (line_at place.now) lines)) }
{
    match split_once(words, b'\n') {
        Some((line, rest)) => {
            push_line(note, place, line)?;
            push_lines(note, place, rest)
        }
        None => push_line(note, place, words),
    }
}

/// Appends a line: a place, then words about this place.
pub fn push_line(note: &mut Vec<u8>, place: &[u8], words: &[u8]) -> Result<(), AllocError>
    ensures { IfOk result (λ _. note.new.items ≡ note.old.items ++ line_at place.now words.now) }
{
    push_bytes(note, place)?;
    push_bytes(note, words)?;
    push_bytes(note, b"\n")
}

/// The words for a row's place, such as `row 5, ` or, if the row's day is known, `row 5 (day 3), `.
pub fn row_place(wording: Wording, number: u64, day: Option<u8>) -> Result<String, AllocError>
    ensures { IfOk result (λ place. string_bytes place ≡ row_place wording.language number day) }
{
    let mut buffer = Buffer::new();
    let row = buffer.format(number);
    match day {
        Some(day) => wording.fill(ROW_AND_DAY, &[row, Buffer::new().format(day)]),
        None => wording.fill(ROW, &[row]),
    }
}

/// The words for the place of `cell`, such as `row 5 (day 3), rings: `. They begin with `row`, the words for the row's
/// place.
pub fn cell_place(head: &Head<'_>, row: &[u8], cell: Cell) -> Result<Vec<u8>, AllocError>
    ensures { IfOk result (λ place. place.items
        ≡ cell_place head.now.columns head.now.names row.now cell) }
{
    let mut place = Vec::new(head.wording().alloc);
    push_bytes(&mut place, row)?;
    push_cell_name(&mut place, head, cell)?;
    push_bytes(&mut place, b": ")?;
    Ok(place)
}

/// Appends the text of `cell`, with `?` for each byte that can't be printed. Of a cell with more than 60 bytes, appends
/// only the start, and then `...`.
pub fn push_shown(note: &mut Vec<u8>, cell: &[u8]) -> Result<(), AllocError>
    ensures { IfOk result (λ _. note.new.items ≡ note.old.items ++ shown cell.now) }
{
    if cell.len() > 60 {
        let (start, _) = cell.split_at(60);
        push_shown_bytes(note, true, start)?;
        return push_bytes(note, b"...");
    }
    push_shown_bytes(note, false, cell)
}

/// Appends `bytes`.
pub fn push_bytes(note: &mut Vec<u8>, bytes: &[u8]) -> Result<(), AllocError>
    ensures { IfOk result (λ _. note.new.items ≡ note.old.items ++ bytes.now) }
{
    note.extend_from_slice(bytes)?;
    Ok(())
}

/// The name of the option that replaces a blank `cell`, such as `--model`; empty if `cell` has no option.
pub fn option_name(cell: Cell) -> &'static str
    ensures { result.now ≡ option_name cell }
{
    match cell {
        Cell::Model => "--model",
        Cell::Reflector => "--reflector",
        Cell::Window => "--window",
        _ => "",
    }
}

/// Appends the name that the table has for the column of `cell`. If the table lacks the column, appends the name of the
/// cell's option, such as `--model`.
fn push_cell_name(place: &mut Vec<u8>, head: &Head<'_>, cell: Cell) -> Result<(), AllocError>
    ensures { IfOk result (λ _. place.new.items
        ≡ place.old.items ++ cell_name head.now.columns head.now.names cell) }
{
    match column_of(head.columns(), cell) {
        Some(column) => push_shown(place, cell_at(head.names(), Some(column))),
        None => push_bytes(place, option_name(cell).as_bytes()),
    }
}

/// Appends `bytes`, with `?` for each byte that can't be printed. If `is_long` is true, `?` also stands for each byte
/// outside of ASCII.
fn push_shown_bytes(note: &mut Vec<u8>, is_long: bool, bytes: &[u8]) -> Result<(), AllocError>
    ensures { IfOk result (λ _. note.new.items
        ≡ note.old.items ++ map (shown_byte is_long) bytes.now) }
{
    if let [byte, rest @ ..] = bytes {
        push_bytes(note, &[shown_byte(is_long, *byte)])?;
        return push_shown_bytes(note, is_long, rest);
    }
    Ok(())
}
