//! Compares lines with patterns: in a pattern, `_` stands for any capital letter, and each other byte for itself.
ghost use Rattle.std.specs.Prelude.{◌≡◌, ◌≤◌, ◌<◌, length, IfErr, IfOk, IfSome};
ghost use Rattle.std.specs.Bool.{OnTrue};
ghost use Rattle.kd_look.specs.Signs.{end_of_line, fits_at, fits_mark, line_end, marks_end, wrong_sign};

use kd_form::text_bytes::is_text_byte;

/// A wrong or missing byte in an order or a form.
#[derive(Clone, Copy)]
pub struct WrongByte {
    /// The byte's index, or the length of the text if the byte is missing.
    pub index: usize,
    /// What belongs at `index`: `_` means a capital letter, LF a line end, and `#`, `$` or `%` a
    /// valid number. Any other byte means itself.
    pub mark: u8,
}

/// The index of the first byte that isn't allowed in a text or a body.
pub fn wrong_sign(bytes: &[u8]) -> Option<usize>
    ensures place { result ≡ wrong_sign bytes.now }
    ensures within { IfSome result (λ place. place < length bytes.now) }
{
    bytes.iter().position(|byte| !is_text_byte(*byte))
}

/// Compares the line that begins at `index` with the pattern `marks`.
///
/// The result is the index after the line's end, or the first byte that doesn't fit.
pub fn line_end(text: &[u8], marks: &[u8], index: usize) -> Result<usize, WrongByte>
    requires { index ≤ length text.now }
    ensures value { result ≡ line_end text.now marks.now index }
    ensures end { IfOk result (λ end. end ≤ length text.now) }
    ensures wrong { IfErr result (λ wrong. wrong.index ≤ length text.now) }
{
    let end = marks_end(text, marks, index)?;
    end_of_line(text, end)
}

/// Compares the bytes from `index` on with the pattern `marks`.
///
/// The result is the index after the bytes that fit the whole pattern, or the first byte that doesn't fit.
pub fn marks_end(text: &[u8], marks: &[u8], index: usize) -> Result<usize, WrongByte>
    requires { index ≤ length text.now }
    ensures value { result ≡ marks_end text.now marks.now index }
    ensures end { IfOk result (λ end. end ≤ length text.now) }
    ensures wrong { IfErr result (λ wrong. wrong.index ≤ length text.now) }
{
    match marks {
        [mark, rest @ ..] => {
            if fits_at(text, *mark, index) {
                marks_end(text, rest, index + 1)
            } else {
                Err(WrongByte { index, mark: *mark })
            }
        }
        [] => Ok(index),
    }
}

/// The index after the line end at `index`, or the byte that isn't a line end.
#[tactic(auto, unfolding(crate::specs::Signs::end_of_line))]
pub fn end_of_line(text: &[u8], index: usize) -> Result<usize, WrongByte>
    requires { index ≤ length text.now }
    ensures value { result ≡ end_of_line text.now index }
    ensures end { IfOk result (λ end. end ≤ length text.now) }
    ensures wrong { IfErr result (λ wrong. wrong.index ≤ length text.now) }
{
    if fits_at(text, b'\n', index) {
        return Ok(index + 1);
    }
    if !fits_at(text, b'\r', index) {
        return Err(WrongByte { index, mark: b'\n' });
    }
    if fits_at(text, b'\n', index + 1) {
        return Ok(index + 2);
    }
    Err(WrongByte {
        index: index + 1,
        mark: b'\n',
    })
}

/// Whether the text has a byte at `index`, and this byte fits `mark`.
pub fn fits_at(text: &[u8], mark: u8, index: usize) -> bool
    ensures value { result ≡ fits_at text.now mark index }
    ensures within { OnTrue result (index < length text.now) }
{
    match text.get(index) {
        Some(byte) => fits_mark(mark, *byte),
        None => false,
    }
}

/// Whether `byte` fits `mark`, a byte of a pattern.
fn fits_mark(mark: u8, byte: u8) -> bool
    ensures { result ≡ fits_mark mark byte }
{
    if mark == b'_' {
        65 <= byte && byte <= 90
    } else {
        byte == mark
    }
}
