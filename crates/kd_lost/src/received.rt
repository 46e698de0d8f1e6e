//! The received bytes of a part: which letters the bytes stand for, and which of these letters are lost.
ghost use Rattle.std.specs.Prelude.{◌≡◌, ◌≤◌, ◌++◌, ◌↔◌, List, length, map, take, All, Any, Contains, None, IsTrue, IsFalse, is_some};
ghost use Rattle.std.specs.List.{count_by};
ghost use Rattle.std.specs.Option.{option_to_list};
ghost use Rattle.std.specs.Bool.{OnTrue, OnFalse};
ghost use Rattle.kd_lost.specs.Lost.{is_lost, meant_byte, received_letter, received_letters};
ghost use Rattle.kd_lost.specs.DamagedPart.{body_letter, body_letters, filled_byte, is_body_byte};

use arrayvec::ArrayVec;
use kd_form::bounded_list::push_if_room;
use kd_form::text_bytes::{is_text_byte, letter_of_byte};
use kd_tables::Letter;

/// Whether `byte` stands for a lost letter.
pub(crate) fn is_lost(byte: u8) -> bool
    ensures { result ≡ is_lost byte }
{
    byte == b'?' || byte == b'-'
}

/// The byte that `byte` means: the capital letter for a small letter, a space for a tab, otherwise `byte` itself.
pub(crate) fn meant_byte(byte: u8) -> u8
    ensures { result ≡ meant_byte byte }
{
    if byte >= b'a' && byte <= b'z' {
        byte - 32
    } else if byte == b'\t' {
        b' '
    } else {
        byte
    }
}

/// The byte that is read in place of `byte`. B for a lost letter, the capital letter for a small letter, a space for a
/// tab; otherwise `byte` itself.
fn filled_byte(byte: u8) -> u8
    ensures { result ≡ filled_byte byte }
{
    if is_lost(byte) {
        b'B'
    } else {
        meant_byte(byte)
    }
}

/// The first bytes of a heading line, at most 64, with B in place of each lost letter. A small letter means its capital
/// letter, and a tab means a space.
#[tactic(auto, using(crate::proofs::Bytes::filled_more))]
pub(crate) fn filled_line(line: &[u8]) -> ArrayVec<u8, 64>
    ensures { result.items ≡ take 64 (map filled_byte line.now) }
{
    let mut kept = ArrayVec::new();
    for byte in line {
        push_if_room(&mut kept, filled_byte(*byte));
    }
    kept
}

/// Whether `line` has a sign for a lost letter.
pub(crate) fn has_lost_byte(line: &[u8]) -> bool
    ensures lost { OnTrue result (Any (λ byte. IsTrue (is_lost byte)) line.now) }
    ensures none { OnFalse result (All (λ byte. IsFalse (is_lost byte)) line.now) }
{
    for byte in line {
        if is_lost(*byte) {
            return true;
        }
    }
    false
}

/// Whether `part` has no small letter and no tab. These are read as capital letters and spaces.
pub(crate) fn is_spelled(part: &[u8]) -> bool
    ensures { IsTrue result ↔ All (λ byte. meant_byte byte ≡ byte) part.now }
{
    part.iter().all(|byte| meant_byte(*byte) == *byte)
}

/// Whether each byte of `body` is allowed in a body.
pub(crate) fn are_body_bytes(body: &[u8]) -> bool
    ensures { IsTrue result ↔ All (λ byte. IsTrue (is_body_byte byte)) body.now }
{
    body.iter().all(|byte| is_body_byte(*byte))
}

/// Whether `byte` is allowed in a body: a letter, a lost letter, a space, CR or LF.
pub(crate) fn is_body_byte(byte: u8) -> bool
    ensures { result ≡ is_body_byte byte }
{
    is_lost(byte) || is_text_byte(meant_byte(byte))
}

/// The first letters of a body, at most 525.
#[tactic(auto, using(crate::proofs::Bytes::letters_more, crate::proofs::Bytes::kept_already))]
pub(crate) fn received_letters(body: &[u8]) -> ArrayVec<Option<Letter>, 525>
    ensures { result.items ≡ take 525 (received_letters body.now) }
{
    let mut letters = ArrayVec::new();
    for byte in body {
        keep_letter(&mut letters, received_letter(*byte));
    }
    letters
}

/// The first letters of a body, at most 525. A sign that isn't allowed in a body counts as a lost letter.
#[tactic(auto, using(crate::proofs::Bytes::body_more, crate::proofs::Bytes::kept_already))]
pub(crate) fn body_letters(body: &[u8]) -> ArrayVec<Option<Letter>, 525>
    ensures { result.items ≡ body_letters body.now }
{
    let mut letters = ArrayVec::new();
    for byte in body {
        keep_letter(&mut letters, body_letter(*byte));
    }
    letters
}

/// The letter that a byte of a body counts as, when parts are compared:
/// - for a letter: this letter
/// - for a lost letter, or a sign that isn't allowed in a body: a lost letter, `Some(None)`
/// - for a blank or a line end: no letter, `None`
fn body_letter(byte: u8) -> Option<Option<Letter>>
    ensures { result ≡ body_letter byte }
{
    if is_body_byte(byte) {
        received_letter(byte)
    } else {
        Some(None)
    }
}

/// How many letters a body has, lost ones included.
pub(crate) fn letter_count(body: &[u8]) -> usize
    ensures count { result ≡ count_by (λ byte. is_some (received_letter byte)) body.now }
    ensures few { result ≤ length body.now }
{
    body.iter().filter(|byte| is_received(byte)).count()
}

/// Whether `byte` stands for a letter, received or lost.
pub(crate) fn is_received(byte: &u8) -> bool
    ensures { result ≡ is_some (received_letter byte.now) }
{
    received_letter(*byte).is_some()
}

/// Appends `letter`, received or lost. Appends nothing if there is no letter, or no room.
fn keep_letter(letters: &mut ArrayVec<Option<Letter>, 525>, letter: Option<Option<Letter>>)
    ensures { letters.old.items ≡ take 525 letters.old.items
        → letters.new.items ≡ take 525 (letters.old.items ++ option_to_list letter) }
{
    if let Some(letter) = letter {
        push_if_room(letters, letter);
    }
}

/// The letter that a byte of a body stands for; `Some(None)` for a lost letter, `None` if the byte isn't a letter.
fn received_letter(byte: u8) -> Option<Option<Letter>>
    ensures { result ≡ received_letter byte }
{
    if is_lost(byte) {
        return Some(None);
    }
    let letter = letter_of_byte(&None, meant_byte(byte))?;
    Some(Some(letter))
}
