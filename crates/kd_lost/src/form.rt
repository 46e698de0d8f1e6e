//! Reads a damaged form part by part. Letters of the form may be lost.
ghost use Rattle.std.specs.Prelude.{◌≡◌, ◌≢◌, ◌↔◌, ◌+◌, IsTrue, ◌<◌, ◌≤◌, length, IfOk, IfSome, MatchOption, MatchResult, [], false, option_copied, slice_get};
ghost use Rattle.std.specs.Bool.{OnFalse, OnTrue};
ghost use Rattle.kd_form.specs.declared.heading.Heading.{Heading};
ghost use Rattle.kd_lost.specs.DamagedPart.{IsDamagedHeading, first_line};
ghost use Rattle.kd_lost.specs.DamagedForm.{AreFormParts, AreReadWith, IsFormFault, IsReadAs, IsReadOf};
ghost use Rattle.kd_lost.specs.DamagedForm.{cut_at_heading_lines};
ghost use Rattle.kd_lost.specs.Repetitions.{completed_at};
ghost use Rattle.kd_lost.specs.DamagedForm.{damaged_parts_of, parts_cut};
ghost use Rattle.kd_lost.specs.DamagedForm.{ends_part};

use crate::by_count::{find_by_count, is_count_doubted, numbers_by_count};
use crate::heading_line::is_heading_line;
use crate::lines::{heading_line, line_breaks};
use crate::one_message::are_of_one_message;
use crate::part::{DamagedPart, read_damaged_part};
use crate::repetitions::{are_kept, completed_part};
use crate::texts::shown_text;
use crate::tidy::{respaced, tidied};
use kd_state::SheetDay;
use std::alloc::Global;

/// The greatest number of parts that are read from a form. A message has at most 99 parts, but some parts may come
/// twice.
const MOST_PARTS: usize = 255;

/// Why a form in which letters were lost isn't read.
#[derive(Clone, Copy, Debug, PartialEq, Eq)]
pub enum DamagedFormFault {
    /// There wasn't enough memory to read the parts.
    NoMemory,
    /// The form has more than 255 parts.
    TooManyParts,
}

/// Reads each part of `form`. A letter that is lost in one copy of a part is taken from another copy.
///
/// A part begins at each line that is taken for a heading. Each of these lines begins like `PART`. It also has a digit
/// or a slash, or a lost sign in place of the part's number. Lines before the first heading are passed over. But if one
/// of these lines begins like `PART`, or with two groups of five letters, it may belong to a part. Then all lines
/// before the first heading are kept. If `receive` reads a form, this function cuts the form into the same parts as
/// `receive`.
pub fn read_damaged_form(
    alloc: Global,
    day: &SheetDay,
    form: &[u8],
) -> Result<Vec<DamagedPart>, DamagedFormFault>
    ensures read { MatchResult result
        (λ parts. AreFormParts day.now form.now parts.items)
        (IsFormFault (damaged_parts_of form.now)) }
    ensures few { IfOk result (λ parts. length parts.items ≤ 255) }
{
    let alone = read_parts(alloc, day, form, &[])?;
    if !are_of_one_message(alone.as_slice()) {
        return Ok(alone);
    }
    let again = read_parts(alloc, day, form, alone.as_slice())?;
    if are_kept(alone.as_slice(), again.as_slice()) {
        Ok(again)
    } else {
        Ok(alone)
    }
}

/// Reads each part of `form`, with letters from `copies` in place of lost letters. `copies` is empty, or has the parts
/// of the form, each read alone.
fn read_parts(
    alloc: Global,
    day: &SheetDay,
    form: &[u8],
    copies: &[DamagedPart],
) -> Result<Vec<DamagedPart>, DamagedFormFault>
    ensures read { MatchResult result
        (λ parts. AreReadWith day.now copies.now form.now parts.items)
        (IsFormFault (damaged_parts_of form.now)) }
    ensures few { IfOk result (λ parts. length parts.items ≤ 255) }
{
    let mut parts = Vec::new(alloc);
    let mut line = heading_line(form);
    let mut left = Some(tidied(form));
    while let Some(rest) = left {
        if parts.len() == MOST_PARTS {
            return Err(DamagedFormFault::TooManyParts);
        }
        let (part, next) = split_part(rest);
        let Ok(read) = read_one(alloc, day, copies, parts.len(), part, line) else {
            return Err(DamagedFormFault::NoMemory);
        };
        let Ok(()) = parts.push(read) else {
            return Err(DamagedFormFault::NoMemory);
        };
        line += line_breaks(part);
        left = next;
    }
    Ok(parts)
}

/// Reads `part`, which is at place `index` of its form, and begins on line `line`. Letters from the part's copies stand
/// in place of the part's lost letters.
fn read_one(
    alloc: Global,
    day: &SheetDay,
    copies: &[DamagedPart],
    index: usize,
    part: &[u8],
    line: usize,
) -> Result<DamagedPart, DamagedFormFault>
    ensures { MatchResult result
        (λ read. IsReadOf day.now (completed_at copies.now index part.now) read × (read.line ≡ line))
        (λ fault. fault ≡ DamagedFormFault.NoMemory) }
{
    let Some(alone) = part_at(copies, index) else {
        return read_placed(alloc, day, part, line);
    };
    let Some(shown) = shown_text(alone) else {
        return read_placed(alloc, day, part, line);
    };
    let bytes = completed_part(alloc, copies, alone, shown, part)?;
    read_placed(alloc, day, bytes.as_slice(), line)
}

fn part_at(parts: &[DamagedPart], index: usize) -> Option<&DamagedPart>
    ensures { option_copied result ≡ slice_get parts.now index }
{
    parts.get(index)
}

/// Reads `part`, which begins on line `line` of its form.
fn read_placed(
    alloc: Global,
    day: &SheetDay,
    part: &[u8],
    line: usize,
) -> Result<DamagedPart, DamagedFormFault>
    ensures { MatchResult result
        (λ read. IsReadOf day.now part.now read × (read.line ≡ line))
        (λ fault. fault ≡ DamagedFormFault.NoMemory) }
{
    match read_as_meant(alloc, day, part) {
        Ok(mut read) => {
            read.line = line;
            Ok(read)
        }
        Err(fault) => Err(fault),
    }
}

/// If the first line of `part` is a heading, reads `part` as it stands. Otherwise reads `part` with single spaces
/// between the words of the first line.
fn read_as_meant(
    alloc: Global,
    day: &SheetDay,
    part: &[u8],
) -> Result<DamagedPart, DamagedFormFault>
    ensures { MatchResult result
        (IsReadOf day.now part.now)
        (λ fault. fault ≡ DamagedFormFault.NoMemory) }
{
    if is_headed(day, part) {
        return read_with_count(alloc, day, part);
    }
    let Ok(meant) = respaced(alloc, part) else {
        return Err(DamagedFormFault::NoMemory);
    };
    let meant = meant.as_slice();
    let Ok(mut read) = read_with_count(alloc, day, meant) else {
        return Err(DamagedFormFault::NoMemory);
    };
    read.respaced = differs(meant, part);
    Ok(read)
}

/// Whether the first line of `part` is a heading.
fn is_headed(day: &SheetDay, part: &[u8]) -> bool
    ensures headed { OnTrue result ((h : Heading) × IsDamagedHeading day.now (first_line part.now) h) }
    ensures unheaded { OnFalse result
        ((h : Heading) → ¬ (IsDamagedHeading day.now (first_line part.now) h)) }
{
    read_damaged_part(day, part).numbers.is_some()
}

/// Reads `part` as it stands. If the count in its heading may be wrong, also reads `part` by count, with the number of
/// letters that came.
fn read_with_count(
    alloc: Global,
    day: &SheetDay,
    part: &[u8],
) -> Result<DamagedPart, DamagedFormFault>
    ensures { MatchResult result
        (λ read. IsReadAs day.now part.now read × (read.respaced ≡ false))
        (λ fault. fault ≡ DamagedFormFault.NoMemory) }
{
    let mut read = read_damaged_part(day, part);
    if !is_count_doubted(&read) {
        return Ok(read);
    }
    let Ok((counted, found)) = find_by_count(alloc, day, part, read.came) else {
        return Err(DamagedFormFault::NoMemory);
    };
    read.numbers = numbers_by_count(read.numbers, counted, &found);
    read.by_count = found;
    Ok(read)
}

/// Whether `bytes` differ from `others`.
fn differs(bytes: &[u8], others: &[u8]) -> bool
    ensures { IsTrue result ↔ (bytes.now ≢ others.now) }
{
    bytes != others
}

/// The first part of `form`, and the bytes after it, or `None` if there is no other part.
pub(crate) fn split_part(form: &[u8]) -> (&[u8], Option<&[u8]>)
    ensures part { result.0.now ≡ (cut_at_heading_lines form.now).0 }
    ensures others { MatchOption result.1
        ((cut_at_heading_lines form.now).1 ≡ [])
        (λ rest. (cut_at_heading_lines form.now).1 ≡ parts_cut rest.now) }
    ensures shorter { IfSome result.1 (λ rest. length rest.now < length form.now) }
    ensures joined { IfSome result.1
        (λ rest. length result.0.now + length rest.now ≡ length form.now) }
{
    for (index, byte) in form.iter().enumerate() {
        let (_, rest) = form.split_at(index + 1);
        if ends_part(*byte, rest) {
            let (part, _) = form.split_at(index + 1);
            return (part, Some(rest));
        }
    }
    (form, None)
}

/// Whether a part ends with `byte`: an LF before a line that is taken for a heading.
///
/// `rest` has the bytes after `byte`.
pub(crate) fn ends_part(byte: u8, rest: &[u8]) -> bool
    ensures { result ≡ ends_part byte rest.now }
{
    byte == b'\n' && is_heading_line(rest)
}
