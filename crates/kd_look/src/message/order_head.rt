//! Reads the head of an order without a machine: the lines of keys, and the line `TEXT`.
ghost use Rattle.std.specs.Prelude.{◌≡◌, ◌≤◌, length, IfErr, IfOk};
ghost use Rattle.kd_look.specs.OrderHead.{has_four_letters, head_end, key_line_of, pattern_of};

use super::signs::{WrongByte, fits_at, line_end};

/// The greatest number of lines of keys in an order.
pub const MOST_KEY_LINES: u8 = 99;

/// How keys are written in an order or a form. This depends on the machine.
#[derive(Clone, Copy)]
pub enum KeyLine {
    /// For an Enigma I or an M3.
    ThreeSlots,
    /// For an M4.
    FourSlots,
    /// For a Converter M-209.
    Converter,
}

/// Finds out from the first word of keys which machine the order `text` is for.
#[tactic(auto, unfolding(crate::specs::OrderHead::key_line_of))]
pub fn key_line_of(text: &[u8]) -> KeyLine
    ensures { result ≡ key_line_of text.now }
{
    if fits_at(text, b' ', 6) {
        KeyLine::Converter
    } else if has_four_letters(text) {
        KeyLine::FourSlots
    } else {
        KeyLine::ThreeSlots
    }
}

/// Reads an order's head from the line at `index` on.
///
/// The result is the index at which the order's text begins, or the first wrong byte. At most `left` lines of keys may
/// still come, and then the line `TEXT`.
#[tactic(auto, using(crate::proofs::OrderHead::keys_next, crate::proofs::OrderHead::text_next, crate::proofs::OrderHead::none_left))]
pub fn head_end(text: &[u8], form: KeyLine, left: u8, index: usize) -> Result<usize, WrongByte>
    requires { index ≤ length text.now }
    ensures value { result ≡ head_end text.now form left index }
    ensures end { IfOk result (λ end. end ≤ length text.now) }
    ensures wrong { IfErr result (λ wrong. wrong.index ≤ length text.now) }
{
    if left > 0 && fits_at(text, b'P', index) {
        let next = line_end(text, pattern_of(form), index)?;
        head_end(text, form, left - 1, next)
    } else {
        line_end(text, b"TEXT", index)
    }
}

/// Whether the text has four capital letters after `PART `.
#[tactic(auto, unfolding(crate::specs::OrderHead::has_four_letters))]
fn has_four_letters(text: &[u8]) -> bool
    ensures { result ≡ has_four_letters text.now }
{
    fits_at(text, b'_', 5)
        && fits_at(text, b'_', 6)
        && fits_at(text, b'_', 7)
        && fits_at(text, b'_', 8)
}

/// The pattern of a line of keys: `_` stands for any capital letter, and each other byte for itself.
fn pattern_of(form: KeyLine) -> &'static [u8]
    ensures { result.now ≡ pattern_of form }
{
    match form {
        KeyLine::ThreeSlots => b"PART ___ ___ __ ___",
        KeyLine::FourSlots => b"PART ____ ____ __ ___",
        KeyLine::Converter => b"PART _ ______",
    }
}
