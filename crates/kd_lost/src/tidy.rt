//! Drops noise from forms: bytes that no operator sent, such as a byte order mark, or lines that were typed above the
//! form.
ghost use Rattle.std.specs.Prelude.{◌≡◌, ◌++◌, None, Some, MatchOption, MatchResult};
ghost use Rattle.kd_lost.specs.DamagedPart.{first_line};
ghost use Rattle.kd_lost.specs.Tidy.{as_space, ends_word, from_line_end, is_gap, later_heading, respaced};
ghost use Rattle.kd_lost.specs.Tidy.{single_spaced, spaced_byte, tidied, without_mark};

use crate::form::{DamagedFormFault, ends_part};
use crate::heading_line::{after_blanks, is_blank, may_be_part};
use std::alloc::Global;

/// `form` without a byte order mark, and without the lines before its first heading. These lines stay if one of them
/// may belong to a part.
pub(crate) fn tidied(form: &[u8]) -> &[u8]
    ensures { result.now ≡ tidied form.now }
{
    let bytes = without_mark(form);
    if may_be_part(bytes) {
        return bytes;
    }
    match later_heading(bytes) {
        Some(rest) => rest,
        None => bytes,
    }
}

/// `form` without a byte order mark at its start.
#[tactic(auto, using(crate::proofs::Tidying::mark_stripped, crate::proofs::Tidying::mark_absent))]
fn without_mark(form: &[u8]) -> &[u8]
    ensures { result.now ≡ without_mark form.now }
{
    if form.len() < 3 {
        return form;
    }
    let (front, rest) = form.split_at(3);
    if front == b"\xEF\xBB\xBF".as_slice() {
        rest
    } else {
        form
    }
}

/// All bytes from the first heading after the first line to the end. `None` in two cases:
/// - No heading stands after the first line.
/// - A line between the first line and this heading may belong to a part. A part with a damaged heading mustn't be
///   dropped in silence.
fn later_heading(bytes: &[u8]) -> Option<&[u8]>
    ensures { MatchOption result
        (later_heading bytes.now ≡ None)
        (λ rest. later_heading bytes.now ≡ Some rest.now) }
{
    for (index, byte) in bytes.iter().enumerate() {
        let (_, rest) = bytes.split_at(index + 1);
        if ends_part(*byte, rest) {
            return Some(rest);
        }
        if *byte == b'\n' && may_be_part(rest) {
            return None;
        }
    }
    None
}

/// `part` with single spaces between the words of its first line.
pub(crate) fn respaced(alloc: Global, part: &[u8]) -> Result<Vec<u8>, DamagedFormFault>
    ensures { MatchResult result
        (λ bytes. bytes.items ≡ respaced part.now)
        (λ fault. fault ≡ DamagedFormFault.NoMemory) }
{
    let mut bytes = Vec::new(alloc);
    let (line, rest) = line_and_rest(part);
    let Ok(()) = push_single_spaced(&mut bytes, line) else {
        return Err(DamagedFormFault::NoMemory);
    };
    let Ok(()) = bytes.extend_from_slice(rest) else {
        return Err(DamagedFormFault::NoMemory);
    };
    Ok(bytes)
}

/// The first line of `part`, and the bytes from its LF on.
pub(crate) fn line_and_rest(part: &[u8]) -> (&[u8], &[u8])
    ensures line { result.0.now ≡ first_line part.now }
    ensures rest { result.1.now ≡ from_line_end part.now }
{
    for (index, byte) in part.iter().enumerate() {
        if *byte == b'\n' {
            return part.split_at(index);
        }
    }
    part.split_at(part.len())
}

/// Appends the words of `line`, with single spaces between them.
fn push_single_spaced(bytes: &mut Vec<u8>, line: &[u8]) -> Result<(), DamagedFormFault>
    ensures { MatchResult result
        (λ _. bytes.new.items ≡ bytes.old.items ++ single_spaced line.now)
        (λ fault. fault ≡ DamagedFormFault.NoMemory) }
{
    let words = after_blanks(line);
    for (index, byte) in words.iter().enumerate() {
        let (_, rest) = words.split_at(index + 1);
        let Ok(()) = push_spaced(bytes, *byte, rest) else {
            return Err(DamagedFormFault::NoMemory);
        };
    }
    Ok(())
}

/// Appends the bytes that are written for `byte`, which is followed by `rest`:
/// - for a gap before another gap, or at the end of the line: no byte
/// - for any other gap: a space
/// - for any other byte: the byte itself
#[tactic(auto, unfolding(crate::specs::Tidy::spaced_byte))]
fn push_spaced(bytes: &mut Vec<u8>, byte: u8, rest: &[u8]) -> Result<(), DamagedFormFault>
    ensures { MatchResult result
        (λ _. bytes.new.items ≡ bytes.old.items ++ spaced_byte byte rest.now)
        (λ fault. fault ≡ DamagedFormFault.NoMemory) }
{
    if is_gap(byte) && ends_word(rest) {
        return Ok(());
    }
    let Ok(()) = bytes.push(as_space(byte)) else {
        return Err(DamagedFormFault::NoMemory);
    };
    Ok(())
}

/// A space if `byte` is a gap; otherwise `byte` itself.
fn as_space(byte: u8) -> u8
    ensures { result ≡ as_space byte }
{
    if is_gap(byte) { b' ' } else { byte }
}

/// Whether `byte` is a gap between words: a blank, or CR.
fn is_gap(byte: u8) -> bool
    ensures { result ≡ is_gap byte }
{
    is_blank(byte) || byte == b'\r'
}

/// Whether `line` begins with a gap, or is empty.
fn ends_word(line: &[u8]) -> bool
    ensures { result ≡ ends_word line.now }
{
    match line {
        [] => true,
        [byte, ..] => is_gap(*byte),
    }
}
