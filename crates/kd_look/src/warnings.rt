//! Warnings about a file: about a byte order mark, about the file's keys, and about a key sheet's days.
ghost use Rattle.std.specs.Prelude.{◌≡◌, ◌++◌, IfOk, OnOk};
ghost use Rattle.std.specs.String.{string_bytes};
ghost use Rattle.toml.specs.View.{table_view};
ghost use Rattle.kd_look.specs.Warnings.{AreKeyWarnings, WarnsOfFile, WarnsOfMonth, has_mark, mark_words};

use crate::alike::push_alike_days;
use crate::few_days::push_few_days;
use crate::file::File;
use crate::texts::MARK;
use kd_findings::warning_lines;
use kd_language::{Language, Wording};
use kd_sheet::Sheet;
use std::alloc::AllocError;
use toml::Table;

/// The warnings about a byte order mark, and about the keys of a file's `document`. Each warning is a line.
pub fn key_warnings(
    wording: Wording,
    bytes: &[u8],
    name: &str,
    document: &Table,
) -> Result<String, AllocError>
    ensures { IfOk result (λ lines.
        AreKeyWarnings wording.language name.now bytes.now (table_view document.now)
        (string_bytes lines)) }
{
    let mut lines = String::new(wording.alloc);
    push_mark(&mut lines, wording.language, bytes, name)?;
    let of_document = warning_lines(wording, name, document)?;
    lines.push_str(of_document.as_str())?;
    Ok(lines)
}

/// The warnings about the days of a key sheet. Each warning is a line.
pub fn day_warnings(wording: Wording, name: &str, file: &File) -> Result<String, AllocError>
    ensures { IfOk result (λ lines.
        WarnsOfFile wording.language name.now file.now (string_bytes lines)) }
{
    match file {
        File::Machine(_) => Ok(String::new(wording.alloc)),
        File::Sheet(sheet) => sheet_warnings(wording, name, sheet),
    }
}

/// If the file begins with a byte order mark, appends the warning about this mark.
#[tactic(auto, using(std::proofs::Common::append_assoc), unfolding(crate::specs::Warnings::mark_words))]
pub fn push_mark(
    lines: &mut String,
    language: Language,
    bytes: &[u8],
    name: &str,
) -> Result<(), AllocError>
    ensures { OnOk result (string_bytes lines.new
        ≡ string_bytes lines.old ++ mark_words language name.now bytes.now) }
{
    if has_mark(bytes) {
        lines.push_str(name)?;
        lines.push_str(language.text(MARK))
    } else {
        Ok(())
    }
}

/// Whether the bytes begin with the byte order mark of UTF-8.
#[tactic(auto, unfolding(crate::specs::Warnings::has_mark))]
fn has_mark(bytes: &[u8]) -> bool
    ensures { result ≡ has_mark bytes.now }
{
    bytes.len() > 2 && bytes[0] == 239 && bytes[1] == 187 && bytes[2] == 191
}

/// The warnings about the days of `sheet`. Each warning is a line.
fn sheet_warnings(wording: Wording, name: &str, sheet: &Sheet) -> Result<String, AllocError>
    ensures { IfOk result (λ lines.
        WarnsOfMonth wording.language name.now sheet.now (string_bytes lines)) }
{
    let mut lines = String::new(wording.alloc);
    push_alike_days(&mut lines, wording, name, sheet)?;
    push_few_days(&mut lines, wording, name, sheet)?;
    Ok(lines)
}
