//! Reads a line by its pattern: `_` stands for any letter, and each other byte stands for itself.
ghost use Rattle.std.specs.Prelude.{◌≡◌, ◌≤◌, ◌<◌, [], ◌+◌, ◌++◌, MatchResult};
ghost use Rattle.std.specs.Bool.{OnTrue, OnFalse};
ghost use Rattle.arrayvec.specs.ArrayVec.{array_vec_len};
ghost use Rattle.kd_form.specs.Order.{IsPatternFault, IsLineWithEnd};
ghost use Rattle.kd_form.specs.Patterns.{blank_count, fits_mark, letters_for_mark, IsFilledLine, IsPatternLine};
ghost use Rattle.kd_form.specs.Patterns.{AreLettersAppended};

use arrayvec::ArrayVec;
use kd_tables::Letter;

/// The greatest number of `_` in a pattern: 13, in a line of keys for four slots.
const MOST_BLANKS: usize = 13;

/// Why bytes aren't a line that fits a pattern.
#[derive(Clone, Copy)]
pub(crate) enum PatternFault {
    /// The bytes fit the pattern so far, but bytes are missing at the end.
    Incomplete,
    /// The line doesn't fit the pattern, whatever bytes follow.
    Mismatch,
}

/// Reads `bytes` as a line that fits `pattern`, followed by a line end; returns the letter at each `_`.
pub(crate) fn read_pattern(
    pattern: &[u8],
    bytes: &[u8],
) -> Result<ArrayVec<Letter, MOST_BLANKS>, PatternFault>
    requires { blank_count pattern.now ≤ 13 }
    ensures { MatchResult result
        (λ letters. IsFilledLine pattern.now letters.items bytes.now)
        (IsPatternFault (IsPatternLine pattern.now) bytes.now) }
{
    let mut letters = ArrayVec::new();
    read_pattern_letters(pattern, bytes, &mut letters)?;
    Ok(letters)
}

/// Reads `bytes` as a line that fits `pattern`, followed by a line end; appends the letter at each `_`.
#[tactic(auto, using(crate::proofs::Lines::pattern_marks))]
fn read_pattern_letters(
    pattern: &[u8],
    bytes: &[u8],
    letters: &mut ArrayVec<Letter, MOST_BLANKS>,
) -> Result<(), PatternFault>
    requires { array_vec_len letters.old + blank_count pattern.now ≤ 13 }
    ensures { MatchResult result
        (λ _. AreLettersAppended pattern.now bytes.now letters.old.items letters.new.items)
        (IsPatternFault (IsPatternLine pattern.now) bytes.now) }
{
    let Some((mark, marks)) = pattern.split_first() else {
        return check_line_end(bytes);
    };
    let Some((byte, rest)) = bytes.split_first() else {
        return Err(PatternFault::Incomplete);
    };
    if !take_marked_letter(letters, *mark, *byte) {
        return Err(PatternFault::Mismatch);
    }
    read_pattern_letters(marks, rest, letters)
}

/// Returns whether `byte` fits `mark`, a byte of a pattern.
///
/// If `mark` is `_` and `byte` is a capital letter, appends this letter to `letters`.
fn take_marked_letter(letters: &mut ArrayVec<Letter, MOST_BLANKS>, mark: u8, byte: u8) -> bool
    requires { mark ≡ 95 → array_vec_len letters.old < 13 }
    ensures fits { result ≡ fits_mark mark byte }
    ensures taken { OnTrue result (letters.new.items ≡ letters.old.items ++ letters_for_mark mark byte) }
    ensures unchanged { OnFalse result (letters.new.items ≡ letters.old.items) }
{
    if mark != b'_' {
        return byte == mark;
    }
    match Letter::from_byte(byte) {
        Some(letter) => {
            letters.push(letter);
            true
        }
        None => false,
    }
}

/// Checks that `bytes` are a line end: LF, or CR and LF.
#[tactic(auto, using(crate::proofs::Lines::end_open, crate::proofs::Lines::end_off))]
fn check_line_end(bytes: &[u8]) -> Result<(), PatternFault>
    ensures { MatchResult result
        (λ _. IsLineWithEnd [] bytes.now)
        (IsPatternFault (IsLineWithEnd []) bytes.now) }
{
    match bytes {
        [b'\n'] => Ok(()),
        [b'\r', b'\n'] => Ok(()),
        [] => Err(PatternFault::Incomplete),
        [b'\r'] => Err(PatternFault::Incomplete),
        _ => Err(PatternFault::Mismatch),
    }
}
