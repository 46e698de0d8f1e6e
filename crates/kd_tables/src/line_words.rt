//! Splits lines into words, and reads and writes numbers and letters.
ghost use Rattle.std.specs.Prelude.{◌≡◌, ◌≢◌, ◌↔◌, ℕ, ◌+◌, ◌^◌, ◌<◌, ◌≤◌, [], ◌∷◌, ◌++◌, length, map, decimal, IsTrue};
ghost use Rattle.std.specs.Prelude.{MatchOption};
ghost use Rattle.arrayvec.specs.ArrayString.{array_string_len};
ghost use Rattle.kd_tables.specs.Text.{letters_text};
ghost use Rattle.kd_tables.specs.LineWords.{words_of, IsWithout, IsFirstPart};

use crate::letter::Letter;
use arrayvec::{ArrayString, ArrayVec};
use itoa::Buffer;
use std::str;

/// The parts of `text` before and after the first `byte`. `None` if `byte` isn't in `text`.
pub fn split_once(text: &[u8], byte: u8) -> Option<(&[u8], &[u8])>
    ensures { MatchOption result
        (IsWithout byte text.now)
        (λ parts. IsFirstPart byte text.now parts.0.now parts.1.now) }
{
    for (end, other) in text.iter().enumerate() {
        if *other == byte {
            return Some((&text[..end], &text[end + 1..]));
        }
    }
    None
}

/// Splits `line` at its spaces into words. `None` if there are more than `N` words.
#[tactic(auto, using(crate::proofs::LineWords::splitting))]
pub fn split_words<const N: usize>(line: &[u8]) -> Option<ArrayVec<&[u8], N>>
    ensures { MatchOption result
        (N < length (words_of line.now))
        (λ words. map (λ word. word.now) words.items ≡ words_of line.now) }
{
    let mut words = ArrayVec::new();
    let mut rest = line;
    while let Some((word, after)) = split_once(rest, b' ') {
        words.try_push(word).ok()?;
        rest = after;
    }
    words.try_push(rest).ok()?;
    Some(words)
}

/// Whether `text` has exactly the bytes of `word`.
pub fn is_word(text: &[u8], word: &str) -> bool
    ensures { IsTrue result ↔ (text.now ≡ word.now) }
{
    text == word.as_bytes()
}

/// Reads a decimal number below 65,536, without leading zeros and without a sign.
pub fn wide_number_of_text(text: &[u8]) -> Option<u16>
    ensures { MatchOption result
        ((number : ℕ) → number < 2 ^ 16 → decimal number ≢ text.now)
        (λ number. decimal number ≡ text.now) }
{
    let number: u16 = str::from_utf8(text).ok()?.parse().ok()?;
    let mut buffer = Buffer::new();
    is_word(text, buffer.format(number)).then_some(number)
}

/// Reads a decimal number below 256, without leading zeros and without a sign.
#[tactic(auto, using(std::proofs::lemmas::Fmt::decimal_injective))]
pub fn number_of_text(text: &[u8]) -> Option<u8>
    ensures { MatchOption result
        ((number : ℕ) → number < 2 ^ 8 → decimal number ≢ text.now)
        (λ number. decimal number ≡ text.now) }
{
    u8::try_from(wide_number_of_text(text)?).ok()
}

/// Reads a text of one capital letter. `None` for other texts.
pub fn letter_of_text(text: &[u8]) -> Option<Letter>
    ensures { MatchOption result
        ((letter : ℕ) → letter < 26 → letters_text (letter ∷ []) ≢ text.now)
        (λ letter. letters_text (letter ∷ []) ≡ text.now) }
{
    match text {
        [byte] => Letter::from_byte(*byte),
        _ => None,
    }
}

/// Appends `number` to `text`, in decimal.
pub fn push_number<const N: usize>(text: &mut ArrayString<N>, number: u8)
    requires { array_string_len text.old + 3 ≤ N }
    ensures bytes { text.new.bytes ≡ text.old.bytes ++ decimal number }
    ensures len { array_string_len text.new ≤ array_string_len text.old + 3 }
{
    let mut buffer = Buffer::new();
    text.push_str(buffer.format(number));
}

/// Appends `letter` to `text`, as a capital letter.
pub fn push_letter<const N: usize>(text: &mut ArrayString<N>, letter: Letter)
    requires { array_string_len text.old < N }
    ensures bytes { text.new.bytes ≡ text.old.bytes ++ letters_text (letter ∷ []) }
    ensures len { array_string_len text.new ≡ array_string_len text.old + 1 }
{
    text.push(char::from(letter.byte()));
}
