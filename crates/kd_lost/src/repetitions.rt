//! Parts that came several times: a letter that is lost in one copy of a part is taken from another copy.
ghost use Rattle.std.specs.Prelude.{◌≡◌, ◌++◌, MatchResult, None, Some, slice_index_or};
ghost use Rattle.kd_lost.specs.Repetitions.{are_kept, completed_byte, completed_from, completed_with, copied_letter};
ghost use Rattle.kd_lost.specs.Repetitions.{has_keys_of, is_kept, is_same_part, known_letter};

use crate::damaged_text::DamagedText;
use crate::form::DamagedFormFault;
use crate::one_message::same_keys;
use crate::part::{DamagedPart, PartNumbers};
use crate::received::is_lost;
use crate::short_group::letters_after;
use crate::texts::{is_text_within, shown_text};
use crate::tidy::line_and_rest;
use kd_tables::Letter;
use std::alloc::Global;

/// The bytes of `part`, with letters from its copies in place of lost letters. `read` is the part as it was read alone,
/// and `shown` is the text of `read`.
pub(crate) fn completed_part(
    alloc: Global,
    copies: &[DamagedPart],
    read: &DamagedPart,
    shown: &DamagedText,
    part: &[u8],
) -> Result<Vec<u8>, DamagedFormFault>
    ensures { MatchResult result
        (λ bytes. bytes.items ≡ completed_with copies.now read.now (Some shown.now) part.now)
        (λ fault. fault ≡ DamagedFormFault.NoMemory) }
{
    let mut bytes = Vec::new(alloc);
    let (line, rest) = line_and_rest(part);
    let Ok(()) = bytes.extend_from_slice(line) else {
        return Err(DamagedFormFault::NoMemory);
    };
    let Ok(()) = push_completed(&mut bytes, copies, read, shown, rest) else {
        return Err(DamagedFormFault::NoMemory);
    };
    Ok(bytes)
}

/// Appends the bytes of a body, with letters from the part's copies in place of lost letters.
fn push_completed(
    bytes: &mut Vec<u8>,
    copies: &[DamagedPart],
    read: &DamagedPart,
    shown: &DamagedText,
    body: &[u8],
) -> Result<(), DamagedFormFault>
    ensures { MatchResult result
        (λ _. bytes.new.items
        ≡ bytes.old.items ++ completed_from copies.now read.now shown.now 0 body.now)
        (λ fault. fault ≡ DamagedFormFault.NoMemory) }
{
    let mut place = 0;
    for byte in body {
        let completed = completed_byte(copies, read, shown, place, *byte);
        let Ok(()) = bytes.push(completed) else {
            return Err(DamagedFormFault::NoMemory);
        };
        place = letters_after(place, *byte);
    }
    Ok(())
}

/// For a lost letter that a copy has: the copy's letter. For any other byte: `byte` itself.
#[tactic(auto, unfolding(crate::specs::Repetitions::completed_byte))]
fn completed_byte(
    copies: &[DamagedPart],
    read: &DamagedPart,
    shown: &DamagedText,
    place: usize,
    byte: u8,
) -> u8
    ensures { result ≡ completed_byte (known_letter copies.now read.now shown.now place) byte }
{
    if !is_lost(byte) {
        return byte;
    }
    match known_letter(copies, read, shown, place) {
        Some(letter) => letter.byte(),
        None => byte,
    }
}

/// The received letter at `place` of the part `read`. It comes from the first copy of this part in which the letter
/// isn't lost.
fn known_letter(
    copies: &[DamagedPart],
    read: &DamagedPart,
    shown: &DamagedText,
    place: usize,
) -> Option<Letter>
    ensures { result ≡ known_letter copies.now read.now shown.now place }
{
    let [copy, rest @ ..] = copies else {
        return None;
    };
    match copied_letter(read, shown, place, copy) {
        Some(letter) => Some(letter),
        None => known_letter(rest, read, shown, place),
    }
}

/// The received letter at `place` of `other`, if `other` is a copy of the part `read`.
///
/// `None` if it isn't a copy, or if the letter is lost. `shown` is the text of `read`.
fn copied_letter(
    read: &DamagedPart,
    shown: &DamagedText,
    place: usize,
    other: &DamagedPart,
) -> Option<Letter>
    ensures { result ≡ copied_letter read.now shown.now place other.now }
{
    let text = shown_text(other)?;
    if is_same_part(&read.numbers, &other.numbers) && has_keys_of(shown, text) {
        return letter_at(text, place);
    }
    None
}

/// The received letter at `place` of a text; `None` if it is lost.
fn letter_at(text: &DamagedText, place: usize) -> Option<Letter>
    ensures { result ≡ slice_index_or text.now.received.items place None }
{
    match text.received.as_slice().get(place) {
        Some(letter) => *letter,
        None => None,
    }
}

/// Whether two texts have the same keys and equally many received letters.
fn has_keys_of(one: &DamagedText, other: &DamagedText) -> bool
    ensures { result ≡ has_keys_of one.now other.now }
{
    same_keys(&one.keys, &other.keys) && one.received.len() == other.received.len()
}

/// Whether two headings give the same part number and number of parts, or both are damaged.
fn is_same_part(one: &Option<PartNumbers>, other: &Option<PartNumbers>) -> bool
    ensures { result ≡ is_same_part one.now other.now }
{
    match (one, other) {
        (Some(one), Some(other)) => one.part == other.part && one.parts == other.parts,
        (None, None) => true,
        _ => false,
    }
}

/// Whether each part, read again with letters from its copies, keeps its number and its letters.
pub(crate) fn are_kept(alone: &[DamagedPart], again: &[DamagedPart]) -> bool
    ensures { result ≡ are_kept alone.now again.now }
{
    if let [part, alone @ ..] = alone
        && let [other, again @ ..] = again
    {
        return is_kept(part, other) && are_kept(alone, again);
    }
    alone.is_empty() && again.is_empty()
}

fn is_kept(alone: &DamagedPart, again: &DamagedPart) -> bool
    ensures { result ≡ is_kept alone.now again.now }
{
    is_same_part(&alone.numbers, &again.numbers) && is_text_within(alone, again)
}
