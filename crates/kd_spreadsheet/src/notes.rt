//! Writes notes on the faults of a table.
//!
//! It is proved which rows and cells must have notes, and when there must be a note on columns or on the whole table.
//! The words after a note's place, and the language of these words, are only tested, except for a day that an earlier
//! row has, too.
ghost use Rattle.std.specs.Prelude.{◌≡◌, ◌<◌, ◌&&◌, ◌++◌, ◌∷◌, [], true, flat_map, length, map, slice_get, ℕ, List, IfOk, IfSome};
ghost use Rattle.std.specs.List.{list_any};
ghost use Rattle.csv.specs.Records.{fields_of};
ghost use Rattle.kd_language.specs.Language.{text_in};
ghost use Rattle.kd_tables.specs.Ports.{port};
ghost use Rattle.kd_spreadsheet.specs.Columns.{columns_of};
ghost use Rattle.kd_spreadsheet.specs.Notes.{lacks_column, line_at, unread_note, HasReadRows, HasRowsNote, Tells, TellsTable, TellsText};
ghost use Rattle.kd_spreadsheet.specs.NearNames.{is_misnamed};
ghost use Rattle.kd_options.specs.TableOptions.{texts_of};
ghost use Rattle.kd_spreadsheet.specs.Row.{is_blank_row};
ghost use Rattle.kd_spreadsheet.specs.Rows.{is_well_quoted};
ghost use Rattle.kd_spreadsheet.specs.Table.{AreRows};
ghost use Rattle.kd_spreadsheet.specs.declared.texts.TheConstants.{FIRST_ROW as FIRST_ROW_TEXT};

mod cell_words;
mod found;
mod head;
mod head_words;
mod letter_words;
mod note;
mod row_note;
mod row_numbers;
mod taken;
mod unread;
mod words;

use crate::cell::has_columns;
use crate::columns::Columns;
use crate::near_names::is_misnamed;
use crate::quotes::{is_well_quoted, separator_of, strip_bom};
use crate::records::read_records;
use crate::row::is_blank_row;
use crate::texts::{FIRST_ROW, LACKS_COLUMN, MISNAMED, NO_ROW, NO_SHEET, OPEN_QUOTE};
use csv::ByteRecord;
use found::Found;
use head::Head;
use head_words::head_words;
use kd_language::{Text, Wording};
use kd_options::TableOptions;
use kd_tables::{Sink, put_all};
use note::{push_bytes, push_due_words, push_line};
use row_note::push_row;
use row_numbers::RowNumbers;
use std::alloc::AllocError;
pub use taken::taken_note;
use unread::unread_note;
use words::Words;

/// Writes `note` to the sink `notes`. A failure of the sink is ignored.
pub fn put_note<N: Sink>(notes: &mut N, note: &[u8])
    ensures told { Tells (port N.taken N.has_failed notes.old notes.new) }
    ensures text { TellsText (port N.taken N.has_failed notes.old notes.new) note.now }
{
    let _ = put_all(notes, note);
}

/// The notes on a refused table: on its quotes, its columns and its rows, and on the whole table.
pub fn refused_note(
    wording: Wording,
    table: &[u8],
    options: &TableOptions<&[u8]>,
) -> Result<Vec<u8>, AllocError>
    ensures { IfOk result (λ note. TellsTable wording.language (texts_of options.now)
        table.now note.items) }
{
    let mut note = Vec::new(wording.alloc);
    if !is_well_quoted(table) {
        push_line(&mut note, b"", wording.language.text(OPEN_QUOTE).as_bytes())?;
        return Ok(note);
    }
    push_table(&mut note, wording, table, options)?;
    Ok(note)
}

/// Appends the notes on a refused table whose quotes are right.
fn push_table(
    note: &mut Vec<u8>,
    wording: Wording,
    table: &[u8],
    options: &TableOptions<&[u8]>,
) -> Result<(), AllocError>
    requires empty { note.old.items ≡ [] }
    requires quoted { is_well_quoted table.now ≡ true }
    ensures { IfOk result (λ _. TellsTable wording.language (texts_of options.now)
        table.now note.new.items) }
{
    let records = read_records(wording.alloc, table)?;
    let [names, rows @ ..] = records.as_slice() else {
        return push_line(note, b"", wording.language.text(NO_ROW).as_bytes());
    };
    let columns = Columns::of_head(names);
    let head = Head::new(wording, options, &columns, names);
    push_unread_note(note, &head)?;
    push_faults(note, table, &head, rows)
}

/// Appends the notes on unread columns.
fn push_unread_note(note: &mut Vec<u8>, head: &Head<'_>) -> Result<(), AllocError>
    ensures { IfOk result (λ _. note.new.items
        ≡ note.old.items ++ unread_note head.now.language head.now.names) }
{
    let unread = unread_note(head.wording(), head.names())?;
    push_bytes(note, unread.as_slice())
}

/// Appends the notes on misnamed or missing columns, on the rows, and on the whole table. Appends at least one line.
fn push_faults(
    note: &mut Vec<u8>,
    table: &[u8],
    head: &Head<'_>,
    rows: &[ByteRecord],
) -> Result<(), AllocError>
    requires quoted { is_well_quoted table.now ≡ true }
    requires columns { head.now.columns ≡ columns_of head.now.names }
    requires are { AreRows table.now (head.now.names ∷ map fields_of rows.now) }
    ensures { IfOk result (λ _. (rest : List ℕ) × (note.new.items ≡ note.old.items ++ rest)
        × TellsTable head.now.language head.now.options table.now
        (unread_note head.now.language head.now.names ++ rest)) }
{
    let start = note.len();
    push_head(note, head, rows)?;
    push_rows(note, table, head, rows)?;
    let is_due = note.len() == start;
    let language = head.language();
    push_due_words(
        note,
        b"",
        &Words::new(language),
        is_due,
        language.text(NO_SHEET),
    )
}

/// Appends the notes on misnamed columns, and on missing columns that every table needs, or that one of `rows` needs.
fn push_head(note: &mut Vec<u8>, head: &Head<'_>, rows: &[ByteRecord]) -> Result<(), AllocError>
    ensures { IfOk result (λ _. (missing : List (List ℕ)) × (note.new.items ≡ note.old.items
        ++ flat_map (line_at (text_in head.now.language FIRST_ROW_TEXT)) missing)
        × (is_misnamed head.now.columns head.now.names ≡ true → 0 < length missing)
        × (list_any (lacks_column head.now.options head.now.columns) (map fields_of rows.now) ≡ true
        → 0 < length missing)) }
{
    let is_due = is_misnamed(head.columns(), head.names()) || lacks_column_any(head, rows);
    let place = head.language().text(FIRST_ROW).as_bytes();
    let otherwise = head.language().text(column_fault(head));
    push_due_words(note, place, &head_words(head, rows), is_due, otherwise)
}

/// The words for the columns, if no other line says what is wrong with them.
fn column_fault(head: &Head<'_>) -> Text {
    if is_misnamed(head.columns(), head.names()) {
        MISNAMED
    } else {
        LACKS_COLUMN
    }
}

/// Whether one of `rows` isn't blank, and needs a column that the table lacks.
fn lacks_column_any(head: &Head<'_>, rows: &[ByteRecord]) -> bool
    ensures { result ≡ list_any (lacks_column head.now.options head.now.columns)
        (map fields_of rows.now) }
{
    for row in rows {
        if lacks_column(head, row) {
            return true;
        }
    }
    false
}

/// Whether `row` isn't blank, and needs a column that the table lacks.
fn lacks_column(head: &Head<'_>, row: &ByteRecord) -> bool
    ensures { result ≡ lacks_column head.now.options head.now.columns (fields_of row.now) }
{
    !is_blank_row(head.columns(), row) && !has_columns(head.options(), head.columns(), row)
}

fn push_rows(
    note: &mut Vec<u8>,
    table: &[u8],
    head: &Head<'_>,
    rows: &[ByteRecord],
) -> Result<(), AllocError>
    ensures { IfOk result (λ _. HasRowsNote head.now.language head.now.options head.now.columns
        head.now.names table.now (map fields_of rows.now) note.old.items note.new.items) }
{
    let mut numbers = RowNumbers::new(separator_of(table), strip_bom(table));
    numbers.next_row();
    let mut found = Found::new();
    let mut blank = true;
    for row in rows {
        let number = numbers.next_row();
        push_body_row(note, &mut found, head, number, row)?;
        blank = is_still_blank(blank, head, row);
    }
    let language = head.language();
    push_due_words(
        note,
        b"",
        &Words::new(language),
        blank,
        language.text(NO_ROW),
    )
}

/// Appends the notes on a row under the first row. A blank row has no notes.
fn push_body_row(
    note: &mut Vec<u8>,
    found: &mut Found,
    head: &Head<'_>,
    number: u64,
    row: &ByteRecord,
) -> Result<(), AllocError>
    ensures { IfOk result (λ _. (more : List ℕ) × (note.new.items ≡ note.old.items ++ more)
        × ((numbers : List ℕ) (rows : List (List (List ℕ))) (text : List ℕ)
        → IfSome (slice_get numbers (length rows)) (λ due. number ≡ due)
        → HasReadRows head.now numbers rows text found.old
        → HasReadRows head.now numbers (rows ++ fields_of row.now ∷ []) (text ++ more) found.new)) }
{
    if is_blank_row(head.columns(), row) {
        return Ok(());
    }
    push_row(note, found, head, number, row)
}

/// Whether `row` and all rows before it are blank. `blank` says whether all rows before `row` are blank.
fn is_still_blank(blank: bool, head: &Head<'_>, row: &ByteRecord) -> bool
    ensures { result ≡ (blank && is_blank_row head.now.columns (fields_of row.now)) }
{
    blank && is_blank_row(head.columns(), row)
}
