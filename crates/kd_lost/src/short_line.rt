//! `ShortLine`: a short line of a body. A short line has letters, but not exactly 50, and letters follow the line.
ghost use Rattle.std.specs.Prelude.{◌≡◌, ◌&&◌, nat_lt};
ghost use Rattle.kd_lost.specs.ShortLine.{is_short, letters_on, short_line};

use crate::received::letter_count;
use kd_tables::split_once;

/// A short line of a body: it has letters, but not exactly 50, and letters follow it.
#[derive(Clone, Copy, Debug, PartialEq, Eq)]
pub struct ShortLine {
    /// The line's number in the part, counted from 1. The heading is line 1.
    pub line: usize,
    /// How many letters the line has, lost ones included.
    pub letters: usize,
    /// How many letters of the body stand before the line.
    pub before: usize,
}

/// The first short line of `body`. `body` has the bytes after the heading line of a part.
pub(crate) fn first_short_line(body: &[u8]) -> Option<ShortLine>
    ensures { result ≡ short_line body.now }
{
    let all = letters_on(body);
    let mut line = 2;
    let mut left = body;
    while let Some((first, rest)) = split_once(left, b'\n') {
        let letters = letters_on(first);
        if is_short_before(letters, rest) {
            let from = letters_on(left);
            let before = all.saturating_sub(from);
            return Some(ShortLine {
                line,
                letters,
                before,
            });
        }
        line += 1;
        left = rest;
    }
    None
}

/// Whether a line of `letters` letters is short (neither 0 nor 50), and letters follow it in `rest`.
///
/// `rest` has the bytes after the line.
fn is_short_before(letters: usize, rest: &[u8]) -> bool
    ensures { result ≡ (is_short letters && nat_lt 0 (letters_on rest.now)) }
{
    is_short(letters) && letters_on(rest) > 0
}

/// Whether a line of `letters` letters is short: `letters` is neither 0 nor 50.
fn is_short(letters: usize) -> bool
    ensures { result ≡ is_short letters }
{
    letters != 0 && letters != 50
}

/// How many letters stand in `bytes`, lost ones included.
#[tactic(auto, using(crate::proofs::Bytes::letters_counted))]
pub(crate) fn letters_on(bytes: &[u8]) -> usize
    ensures { result ≡ letters_on bytes.now }
{
    letter_count(bytes)
}
