//! `WrongSign`: the first sign in a part's body that isn't allowed there.
ghost use Rattle.std.specs.Prelude.{◌≡◌, ◌+◌, ◌<◌, ◌≤◌, ◌^◌, ◌==◌, if◌then◌else◌, is_some, length, take};
ghost use Rattle.kd_lost.specs.Lost.{received_letter, received_letters};
ghost use Rattle.kd_lost.specs.WrongSign.{IsFirstWrongSign};

use crate::received::{is_body_byte, is_received, letter_count};

/// A sign that isn't allowed in a body. It is no letter, no lost letter, no blank, and no part of a line end.
#[derive(Clone, Copy, Debug, PartialEq, Eq)]
pub struct WrongSign {
    /// The number of the sign's line in the part, counted from 1. The heading is line 1.
    pub line: usize,
    /// The place of the sign among the letters of its line, counted from 1.
    pub letter: usize,
    /// The place of the sign among the letters of the body, counted from 1.
    pub place: usize,
    /// The byte that isn't allowed in a body.
    pub byte: u8,
}

/// The first wrong sign in `body`, the bytes after the heading line of a part.
pub(crate) fn first_wrong_sign(body: &[u8]) -> Option<WrongSign>
    ensures { IsFirstWrongSign body.now result }
{
    let mut line = 2;
    let mut letter = 1;
    for (index, byte) in body.iter().enumerate() {
        if !is_body_byte(*byte) {
            let byte = *byte;
            let place = place_at(body, index);
            return Some(WrongSign {
                line,
                letter,
                place,
                byte,
            });
        }
        line = line_after(line, *byte);
        letter = letter_after(letter, *byte);
    }
    None
}

/// The place of the byte at `index`, counted from 1 among the letters of `body`.
#[tactic(auto, using(crate::proofs::Bytes::letters_counted))]
fn place_at(body: &[u8], index: usize) -> usize
    requires { index ≤ length body.now }
    ensures { result ≡ length (received_letters (take index body.now)) + 1 }
{
    let (before, _) = body.split_at(index);
    letter_count(before) + 1
}

/// The number of the line on which the byte after `byte` stands. `byte` stands on line `line`.
fn line_after(line: usize, byte: u8) -> usize
    requires { line < 2 ^ 63 + 2 }
    ensures { result ≡ (if byte == 10 then line + 1 else line) }
{
    if byte == b'\n' { line + 1 } else { line }
}

/// The place of a letter just after `byte`, counted from 1 among the letters of its line.
///
/// A letter instead of `byte` would have the place `letter`.
fn letter_after(letter: usize, byte: u8) -> usize
    requires { letter < 2 ^ 63 + 2 }
    ensures { result ≡ (if byte == 10 then 1
        else if is_some (received_letter byte) then letter + 1 else letter) }
{
    if byte == b'\n' {
        1
    } else if is_received(&byte) {
        letter + 1
    } else {
        letter
    }
}
