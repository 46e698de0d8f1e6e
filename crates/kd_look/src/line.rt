//! Finds the line of a value in a file.
ghost use Rattle.std.specs.Prelude.{◌≡◌, ◌+◌, ◌<◌, ℕ, Option, None, IfOk, false, length, map, option_map};
ghost use Rattle.std.specs.Option.{option_map_or};
ghost use Rattle.toml.specs.View.{table_view, view};
ghost use Rattle.kd_findings.specs.declared.findings.Finding.{Finding};
ghost use Rattle.kd_findings.specs.NotToml.{line_at};
ghost use Rattle.kd_findings.specs.Kind.{is_given};
ghost use Rattle.kd_look.specs.Line.{ends_line, entry_of, table_at, has_any_key, has_value, is_too_long};
ghost use Rattle.kd_look.specs.Line.{line_in, line_in_text, line_of, line_so_far, or_line, sought_for, sought_without};

use kd_findings::{Finding, KeyPlace, entries_of};
use kd_sheet::by_key::{find_at, parse_table};
use kd_sheet::{Key, SheetFault};
use std::alloc::{AllocError, Global};
use toml::{Table, Value};

/// If a file has more bytes than this, its faults get no line numbers.
const MOST_BYTES: usize = 65_536;

/// If a file has more line ends than this, its faults get no line numbers. To find line numbers, the file is parsed up
/// to each line end.
const MOST_LINES: usize = 2_048;

/// The entry or key to look for in a document, to find the line of a fault.
#[derive(Clone, Copy)]
enum Sought {
    /// The entry of a key sheet with this number, counted from 1.
    Entry(usize),
    /// A key in the entry with this number. If there is no number, a key of the document itself.
    Key(Option<usize>, Key),
    /// Any key of the document.
    AnyKey,
}

/// The line number of each of `findings`. `None` if the line can't be found, or `text` is too long.
///
/// A finding's line is found by trying prefixes of `text`, from line to line. It is the last line of the first prefix
/// that is a document with the finding's entry or key.
pub fn lines_of(
    alloc: Global,
    text: &[u8],
    findings: &[Finding],
) -> Result<Vec<Option<usize>>, AllocError>
    ensures { IfOk result (λ lines. lines.items ≡ map (line_of text.now) findings.now) }
{
    if is_too_long(text) {
        no_lines(alloc, findings)
    } else {
        seek_lines(alloc, text, findings)
    }
}

/// Whether `text` is too long to look for lines in it.
fn is_too_long(text: &[u8]) -> bool
    ensures { result ≡ is_too_long text.now }
{
    text.len() > MOST_BYTES || text.iter().filter(|byte| **byte == b'\n').count() > MOST_LINES
}

/// The line of each of `findings`. Looks for the lines even if `text` is too long.
fn seek_lines(
    alloc: Global,
    text: &[u8],
    findings: &[Finding],
) -> Result<Vec<Option<usize>>, AllocError>
    ensures { IfOk result (λ lines. lines.items
        ≡ map (line_so_far text.now (length text.now)) findings.now) }
{
    let mut lines = no_lines(alloc, findings)?;
    let mut line = 1;
    for (index, byte) in text.iter().enumerate() {
        lines = lines_after(alloc, text, index, line, findings, lines)?;
        if *byte == b'\n' {
            line += 1;
        }
    }
    Ok(lines)
}

/// A list with a `None` for each of `findings`: no line is known.
fn no_lines(alloc: Global, findings: &[Finding]) -> Result<Vec<Option<usize>>, AllocError>
    ensures { IfOk result (λ lines. lines.items ≡ map (λ finding. None) findings.now) }
{
    let mut lines = Vec::new(alloc);
    for finding in findings {
        lines.push(None)?;
    }
    Ok(lines)
}

/// The line numbers of `findings`, as far as they are known after the byte at `index`.
///
/// `lines` has the numbers that were known before this byte. The byte stands in line `line`.
fn lines_after(
    alloc: Global,
    text: &[u8],
    index: usize,
    line: usize,
    findings: &[Finding],
    lines: Vec<Option<usize>>,
) -> Result<Vec<Option<usize>>, AllocError>
    requires within { index < length text.now }
    requires so_far { lines.items ≡ map (line_so_far text.now index) findings.now }
    requires line { line ≡ line_at text.now index }
    ensures { IfOk result (λ next.
        next.items ≡ map (line_so_far text.now (index + 1)) findings.now) }
{
    if ends_line(text, index) {
        lines_with(alloc, &text[..index + 1], line, findings, lines)
    } else {
        Ok(lines)
    }
}

/// Whether a line ends after the byte at `index`.
fn ends_line(text: &[u8], index: usize) -> bool
    requires { index < length text.now }
    ensures { result ≡ ends_line text.now index }
{
    text[index] == b'\n' || index + 1 == text.len()
}

/// Returns `lines`, the line numbers of `findings`, with missing numbers replaced by `line`.
///
/// A finding's number is replaced only if `text` is a document with the entry or key that shows the finding's line.
fn lines_with(
    alloc: Global,
    text: &[u8],
    line: usize,
    findings: &[Finding],
    lines: Vec<Option<usize>>,
) -> Result<Vec<Option<usize>>, AllocError>
    requires { length lines.items ≡ length findings.now }
    ensures { (before : Finding → Option ℕ) → lines.items ≡ map before findings.now
        → IfOk result (λ next. next.items ≡ map (λ finding.
        or_line (before finding) (line_in_text text.now line finding)) findings.now) }
{
    match parse_table(alloc, text) {
        Ok(document) => next_lines(alloc, &document, line, findings, lines.as_slice()),
        Err(SheetFault::NoMemory) => Err(AllocError),
        Err(_) => Ok(lines),
    }
}

/// Returns `lines`, the line numbers of `findings`, with missing numbers replaced by `line`.
///
/// A finding's number is replaced only if `document` has the entry or key that shows the finding's line.
fn next_lines(
    alloc: Global,
    document: &Table,
    line: usize,
    findings: &[Finding],
    lines: &[Option<usize>],
) -> Result<Vec<Option<usize>>, AllocError>
    requires { length lines.now ≡ length findings.now }
    ensures { (before : Finding → Option ℕ) → lines.now ≡ map before findings.now
        → IfOk result (λ next. next.items ≡ map (λ finding.
        or_line (before finding) (line_in (table_view document.now) line finding)) findings.now) }
{
    let mut next = Vec::new(alloc);
    for (index, finding) in findings.iter().enumerate() {
        next.push(known_line(lines[index], document, line, finding))?;
    }
    Ok(next)
}

/// If `known` is a number, this number. Otherwise the answer of `line_in`.
fn known_line(
    known: Option<usize>,
    document: &Table,
    line: usize,
    finding: &Finding,
) -> Option<usize>
    ensures { result ≡ or_line known (line_in (table_view document.now) line finding.now) }
{
    match known {
        Some(known) => Some(known),
        None => line_in(document, line, finding),
    }
}

/// Returns `line` if `document` has the entry or key that shows the line of `finding`; otherwise `None`.
#[tactic(auto, unfolding(crate::specs::Line::line_in))]
fn line_in(document: &Table, line: usize, finding: &Finding) -> Option<usize>
    ensures { result ≡ line_in (table_view document.now) line finding.now }
{
    let sought = sought_for(finding)?;
    if has_value(document, sought) {
        Some(line)
    } else {
        None
    }
}

/// What to look for to find the line of `finding`: an entry or a key.
fn sought_for(finding: &Finding) -> Option<Sought>
    ensures { result ≡ sought_for finding.now.place finding.now.fault }
{
    let KeyPlace { entry, key, .. } = finding.place;
    match finding.fault {
        SheetFault::Missing(missing) => sought_without(entry, missing),
        _ => Some(Sought::Key(entry, key)),
    }
}

/// What to look for if `key` is missing:
/// - in an entry: the entry itself
/// - in the document, if `key` is `day`: any key of the document
/// - in the document, if `key` isn't `day`: nothing (`None`)
fn sought_without(entry: Option<usize>, key: Key) -> Option<Sought>
    ensures { result ≡ sought_without entry key }
{
    match (entry, key) {
        (Some(entry), _) => Some(Sought::Entry(entry)),
        (None, Key::Day) => Some(Sought::AnyKey),
        (None, _) => None,
    }
}

#[tactic(auto, unfolding(crate::specs::Line::has_value))]
fn has_value(document: &Table, sought: Sought) -> bool
    ensures { result ≡ has_value sought (table_view document.now) }
{
    match sought {
        Sought::Entry(entry) => table_at(document, Some(entry)).is_some(),
        Sought::Key(entry, key) => has_key(document, entry, key),
        Sought::AnyKey => has_any_key(document),
    }
}

/// Whether entry `entry` of `document` has `key`. If `entry` is `None`, whether `document` itself has `key`.
fn has_key(document: &Table, entry: Option<usize>, key: Key) -> bool
    ensures { result
        ≡ option_map_or (is_given key) (table_at (table_view document.now) entry) false }
{
    match table_at(document, entry) {
        Some(table) => find_at(table, key).is_some(),
        None => false,
    }
}

/// The table in which to look for a value: `document` itself or, if `entry` is a number, item `entry` of the document's
/// array `day`.
#[tactic(auto, unfolding(crate::specs::Line::table_at))]
fn table_at(document: &Table, entry: Option<usize>) -> Option<&Table>
    ensures { option_map (λ table. table_view table.now) result
        ≡ table_at (table_view document.now) entry }
{
    match entry {
        Some(entry) => entry_of(entries_of(document)?, entry),
        None => Some(document),
    }
}

/// Item number `entry` of `items`, counted from 1. `None` if this item is missing, or isn't a table.
fn entry_of(items: &[Value], entry: usize) -> Option<&Table>
    ensures { option_map (λ table. table_view table.now) result
        ≡ entry_of (map view items.now) entry }
{
    let place = entry.checked_sub(1)?;
    let item = items.get(place)?;
    item.as_table()
}

fn has_any_key(document: &Table) -> bool
    ensures { result ≡ has_any_key (table_view document.now) }
{
    !document.is_empty()
}
