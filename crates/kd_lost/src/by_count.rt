//! Reads a part *by count*: with the number of received letters in place of a wrong or damaged letter count.
ghost use Rattle.std.specs.Prelude.{◌≡◌, ◌++◌, drop, flat_map, MatchResult};
ghost use Rattle.kd_lost.specs.ByCount.{IsFoundIn, counted_part, explains, first_word, from_blank, heading_count, later_words};
ghost use Rattle.kd_lost.specs.ByCount.{is_count_doubted, numbers_by_count, part_line, telling_line};

use crate::damage::PartDamage;
use crate::damaged_text::DamagedText;
use crate::form::DamagedFormFault;
use crate::heading_line::is_blank;
use crate::part::{DamagedPart, PartNumbers, read_damaged_part};
use crate::short_line::ShortLine;
use crate::tidy::line_and_rest;
use itoa::Buffer;
use kd_state::SheetDay;
use std::alloc::Global;

/// If the short line of `part` explains the wrong count, this line. Otherwise `None`.
///
/// The line explains the count if the count would be right with 50 letters on the line.
pub fn part_line(part: &DamagedPart) -> Option<ShortLine>
    ensures { result ≡ part_line part.now }
{
    telling_line(heading_count(&part.numbers), part.came, &part.short_line)
}

fn telling_line(counted: usize, came: usize, short: &Option<ShortLine>) -> Option<ShortLine>
    ensures { result ≡ telling_line counted came short.now }
{
    match short {
        Some(short) if explains(counted, came, *short) => Some(*short),
        _ => None,
    }
}

/// Whether the short line `short` explains a wrong count.
///
/// With 50 letters on this line, the body would have `counted` letters, as its heading says, instead of `came` letters.
fn explains(counted: usize, came: usize, short: ShortLine) -> bool
    ensures { result ≡ explains counted came short }
{
    counted as u128 + short.letters as u128 == came as u128 + 50
}

/// The letter count in the heading; 0 if the heading is damaged.
pub fn heading_count(numbers: &Option<PartNumbers>) -> usize
    ensures { result ≡ heading_count numbers.now }
{
    match numbers {
        Some(numbers) => numbers.letters,
        None => 0,
    }
}

/// Whether the count in the heading of `part` may be wrong.
pub(crate) fn is_count_doubted(part: &DamagedPart) -> bool
    ensures { result ≡ is_count_doubted part.now.text (part_line part.now) }
{
    match &part.text {
        Err(PartDamage::HeadingDamaged) => true,
        Err(PartDamage::CountWrong) => part_line(part).is_none(),
        _ => false,
    }
}

/// Reads the text of `part` and the numbers in its heading, with `count` as the letter count.
pub(crate) fn find_by_count(
    alloc: Global,
    day: &SheetDay,
    part: &[u8],
    count: usize,
) -> Result<(Option<PartNumbers>, Option<DamagedText>), DamagedFormFault>
    ensures { MatchResult result
        (λ found. IsFoundIn day.now (counted_part count part.now) found.0 found.1)
        (λ fault. fault ≡ DamagedFormFault.NoMemory) }
{
    let Ok(counted) = counted_part(alloc, part, count) else {
        return Err(DamagedFormFault::NoMemory);
    };
    let DamagedPart { numbers, text, .. } = read_damaged_part(day, counted.as_slice());
    match text {
        Ok(shown) => Ok((numbers, Some(shown))),
        Err(_) => Ok((numbers, None)),
    }
}

/// The numbers of a part, even if its letter count is damaged.
///
/// - The received heading is valid: its numbers (`given`).
/// - The received heading is damaged, but the part has a text if its letter count is replaced: the numbers of the
///   heading with the new count (`counted`).
/// - In all other cases: `None`.
pub(crate) fn numbers_by_count(
    given: Option<PartNumbers>,
    counted: Option<PartNumbers>,
    found: &Option<DamagedText>,
) -> Option<PartNumbers>
    ensures { result ≡ numbers_by_count given counted found.now }
{
    match (given, found) {
        (Some(given), _) => Some(given),
        (None, Some(_)) => counted,
        (None, None) => None,
    }
}

/// `part` with another letter count: `count` replaces the third word of its heading.
fn counted_part(alloc: Global, part: &[u8], count: usize) -> Result<Vec<u8>, DamagedFormFault>
    ensures { MatchResult result
        (λ bytes. bytes.items ≡ counted_part count part.now)
        (λ fault. fault ≡ DamagedFormFault.NoMemory) }
{
    let (line, body) = line_and_rest(part);
    let (name, others) = split_word(line);
    let (fraction, others) = split_word(without_first(others));
    let (_, keys) = split_word(without_first(others));
    let mut digits = Buffer::new();
    let mut bytes = Vec::new(alloc);
    let space = b" ".as_slice();
    let count = digits.format(count).as_bytes();
    let pieces = [name, space, fraction, space, count, keys, body];
    let Ok(()) = push_all(&mut bytes, &pieces) else {
        return Err(DamagedFormFault::NoMemory);
    };
    Ok(bytes)
}

/// Appends `pieces`, one after another.
fn push_all(bytes: &mut Vec<u8>, pieces: &[&[u8]]) -> Result<(), DamagedFormFault>
    ensures { MatchResult result
        (λ _. bytes.new.items ≡ bytes.old.items ++ flat_map (λ piece. piece.now) pieces.now)
        (λ fault. fault ≡ DamagedFormFault.NoMemory) }
{
    for piece in pieces {
        let Ok(()) = bytes.extend_from_slice(piece) else {
            return Err(DamagedFormFault::NoMemory);
        };
    }
    Ok(())
}

/// The first word of `line`, and the bytes from its first blank on.
fn split_word(line: &[u8]) -> (&[u8], &[u8])
    ensures word { result.0.now ≡ first_word line.now }
    ensures rest { result.1.now ≡ from_blank line.now }
{
    for (index, byte) in line.iter().enumerate() {
        if is_blank(*byte) {
            return line.split_at(index);
        }
    }
    line.split_at(line.len())
}

/// The first word of `line`.
pub(crate) fn first_word(line: &[u8]) -> &[u8]
    ensures { result.now ≡ first_word line.now }
{
    let (word, _) = split_word(line);
    word
}

/// `line` from its second word on.
pub(crate) fn later_words(line: &[u8]) -> &[u8]
    ensures { result.now ≡ later_words line.now }
{
    let (_, rest) = split_word(line);
    without_first(rest)
}

/// `bytes` without the first byte.
fn without_first(bytes: &[u8]) -> &[u8]
    ensures { result.now ≡ drop 1 bytes.now }
{
    match bytes {
        [_, rest @ ..] => rest,
        [] => bytes,
    }
}
