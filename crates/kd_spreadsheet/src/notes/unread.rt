//! The notes on unread columns.
ghost use Rattle.std.specs.Prelude.{◌≡◌, ◌++◌, ◌+◌, ◌≤◌, IfOk};
ghost use Rattle.csv.specs.Records.{fields_of};
ghost use Rattle.kd_spreadsheet.specs.Columns.{columns_of};
ghost use Rattle.kd_spreadsheet.specs.Notes.{unread_from, unread_line, unread_note};

use super::note::{push_bytes, push_shown};
use crate::columns::{Columns, cell_at};
use crate::items::is_blank;
use crate::row::is_column_read;
use crate::texts::UNREAD_COLUMN;
use csv::ByteRecord;
use kd_language::template::cut;
use kd_language::{Language, Wording};
use std::alloc::AllocError;

/// The notes on a table's unread columns, among the first 64. `head` is the table's first row.
pub fn unread_note(wording: Wording, head: &ByteRecord) -> Result<Vec<u8>, AllocError>
    ensures { IfOk result (λ note. note.items
        ≡ unread_note wording.language (fields_of head.now)) }
{
    let mut note = Vec::new(wording.alloc);
    let columns = Columns::of_head(head);
    push_unread(&mut note, wording.language, &columns, head, 0, 64)?;
    Ok(note)
}

/// Appends the notes on unread columns from `place` on.
#[tactic(auto, unfolding(crate::specs::Notes::unread_from))]
fn push_unread(
    note: &mut Vec<u8>,
    language: Language,
    columns: &Columns,
    head: &ByteRecord,
    place: usize,
    count: usize,
) -> Result<(), AllocError>
    requires columns { columns.now ≡ columns_of (fields_of head.now) }
    requires few { place + count ≤ 64 }
    ensures { IfOk result (λ _. note.new.items
        ≡ note.old.items ++ unread_from language (fields_of head.now) place count) }
{
    if count == 0 {
        return Ok(());
    }
    push_unread_line(note, language, columns, head, place)?;
    push_unread(note, language, columns, head, place + 1, count - 1)
}

/// Appends the note on the column at `place`, if the column has a name, but isn't read.
fn push_unread_line(
    note: &mut Vec<u8>,
    language: Language,
    columns: &Columns,
    head: &ByteRecord,
    place: usize,
) -> Result<(), AllocError>
    requires { columns.now ≡ columns_of (fields_of head.now) }
    ensures { IfOk result (λ _. note.new.items
        ≡ note.old.items ++ unread_line language (fields_of head.now) place) }
{
    let name = cell_at(head, Some(place));
    if is_blank(name) || is_column_read(columns, place) {
        return Ok(());
    }
    let (before, after) = cut(language.text(UNREAD_COLUMN));
    push_bytes(note, before.as_bytes())?;
    push_shown(note, name)?;
    push_bytes(note, after.as_bytes())
}
