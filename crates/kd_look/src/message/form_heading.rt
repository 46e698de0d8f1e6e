//! Reads a form's heading line, without knowing the machine.
ghost use Rattle.std.specs.Prelude.{◌≡◌, ◌≤◌, ◌<◌, ◌+◌, ◌*◌, length, IfErr, IfOk};
ghost use Rattle.kd_look.specs.FormHeading.{digits_at, heading_at, heading_end, heading_keys, is_letter_count};
ghost use Rattle.kd_look.specs.FormHeading.{keys_or, keys_pattern, number_at, with_digit};

use super::order_head::KeyLine;
use super::signs::{WrongByte, end_of_line, fits_at, marks_end};

/// The values in a heading line of a form, and where the part's body begins.
#[derive(Clone, Copy)]
pub struct FormHeading {
    /// The part's number, counted from 1.
    pub part: usize,
    /// The number of parts.
    pub parts: usize,
    /// The number of letters in the body.
    pub letters: usize,
    /// How the keys of the form's first heading are written. This shows which machine the form is for.
    pub keys: KeyLine,
    /// The index of the body's first byte.
    pub body: usize,
}

/// A number in a form, and the index after it.
#[derive(Clone, Copy)]
pub struct Number {
    pub value: usize,
    pub end: usize,
}

/// The heading at `index`, or the byte at which it is wrong.
///
/// If the part number or the number of parts is out of range, this is the first byte of the part number. If the number
/// of letters is out of range, this is its first byte. `first` says how the keys of the form's first heading are
/// written. For the first heading itself, `first` is `None`.
#[tactic(auto, unfolding(crate::specs::FormHeading::heading_at))]
pub fn heading_at(
    text: &[u8],
    first: Option<KeyLine>,
    index: usize,
) -> Result<FormHeading, WrongByte>
    requires { index ≤ length text.now }
    ensures value { result ≡ heading_at text.now first index }
    ensures body { IfOk result (λ heading. heading.body ≤ length text.now) }
    ensures wrong { IfErr result (λ wrong. wrong.index ≤ length text.now) }
{
    let start = marks_end(text, b"PART ", index)?;
    let part = number_at(text, start)?;
    let slash = marks_end(text, b"/", part.end)?;
    let parts = number_at(text, slash)?;
    if part.value > parts.value || parts.value > 99 {
        return Err(WrongByte {
            index: start,
            mark: b'%',
        });
    }
    let space = marks_end(text, b" ", parts.end)?;
    let count = number_at(text, space)?;
    let keys = keys_or(heading_keys(text, count.end), first);
    let last = marks_end(text, keys_pattern(keys), count.end)?;
    let body = heading_end(text, last)?;
    if !is_letter_count(keys, count.value) {
        return Err(WrongByte {
            index: space,
            mark: b'$',
        });
    }
    Ok(FormHeading {
        part: part.value,
        parts: parts.value,
        letters: count.value,
        keys,
        body,
    })
}

/// The number at `index`, of which at most three digits are read.
///
/// If there is no number, or if it begins with 0, the result is the wrong byte at `index`, with the mark `#`.
#[tactic(auto, unfolding(crate::specs::FormHeading::number_at))]
fn number_at(text: &[u8], index: usize) -> Result<Number, WrongByte>
    requires { index ≤ length text.now }
    ensures value { result ≡ number_at text.now index }
    ensures end { IfOk result (λ number. number.end ≤ length text.now) }
    ensures wrong { IfErr result (λ wrong. wrong.index ≤ length text.now) }
{
    let number = digits_at(text, index);
    if number.value == 0 || fits_at(text, b'0', index) {
        return Err(WrongByte { index, mark: b'#' });
    }
    Ok(number)
}

/// The number at `index`, read up to its third digit, and the index after it. If there is no digit, the number is 0.
#[tactic(auto, unfolding(crate::specs::FormHeading::digits_at))]
fn digits_at(text: &[u8], index: usize) -> Number
    requires { index ≤ length text.now }
    ensures value { result ≡ digits_at text.now index }
    ensures end { result.end ≤ length text.now }
{
    let none = Number {
        value: 0,
        end: index,
    };
    let one = with_digit(text, none);
    let two = with_digit(text, one);
    with_digit(text, two)
}

/// The number, extended by the digit that follows it. If no digit follows, the number itself.
fn with_digit(text: &[u8], number: Number) -> Number
    requires end { number.end ≤ length text.now }
    requires small { number.value < 100 }
    ensures value { result ≡ with_digit text.now number }
    ensures end { result.end ≤ length text.now }
    ensures small { result.value ≤ number.value * 10 + 9 }
{
    match text.get(number.end) {
        Some(byte) if 48 <= *byte && *byte <= 57 => Number {
            value: number.value * 10 + usize::from(*byte - 48),
            end: number.end + 1,
        },
        _ => number,
    }
}

/// Finds out which machine a heading is for. The bytes from `index` on, after the number of letters, show it.
#[tactic(auto, unfolding(crate::specs::FormHeading::heading_keys))]
fn heading_keys(text: &[u8], index: usize) -> KeyLine
    requires { index ≤ length text.now }
    ensures { result ≡ heading_keys text.now index }
{
    if !fits_at(text, b' ', index) {
        return KeyLine::Converter;
    }
    if fits_at(text, b'_', index + 1)
        && fits_at(text, b'_', index + 2)
        && fits_at(text, b'_', index + 3)
        && fits_at(text, b'_', index + 4)
    {
        KeyLine::FourSlots
    } else {
        KeyLine::ThreeSlots
    }
}

/// How the keys of the form's first heading are written: `first`, or `own` if `first` is `None`.
fn keys_or(own: KeyLine, first: Option<KeyLine>) -> KeyLine
    ensures { result ≡ keys_or own first }
{
    first.unwrap_or(own)
}

/// The pattern for the end of a heading line, after the number of letters.
fn keys_pattern(keys: KeyLine) -> &'static [u8]
    ensures { result.now ≡ keys_pattern keys }
{
    match keys {
        KeyLine::ThreeSlots => b" ___ ___",
        KeyLine::FourSlots => b" ____ ____",
        KeyLine::Converter => b"",
    }
}

/// The index after the line end at `index`, or the wrong byte there. If the form ends at `index`, no line end is
/// needed, and the result is `index`.
#[tactic(auto, unfolding(crate::specs::FormHeading::heading_end))]
fn heading_end(text: &[u8], index: usize) -> Result<usize, WrongByte>
    requires { index ≤ length text.now }
    ensures value { result ≡ heading_end text.now index }
    ensures end { IfOk result (λ end. end ≤ length text.now) }
    ensures wrong { IfErr result (λ wrong. wrong.index ≤ length text.now) }
{
    if index == text.len() {
        Ok(index)
    } else {
        end_of_line(text, index)
    }
}

/// Whether a body may have `count` letters.
fn is_letter_count(keys: KeyLine, count: usize) -> bool
    ensures { result ≡ is_letter_count keys count }
{
    match keys {
        KeyLine::Converter => 25 <= count && count <= 520 && count % 5 == 0,
        KeyLine::ThreeSlots | KeyLine::FourSlots => 6 <= count && count <= 250,
    }
}
