//! Reads the heading line of a part of a form.
ghost use Rattle.std.specs.Prelude.{◌≡◌, ◌≢◌, ◌⊎◌, ◌↔◌, ℕ, ◌<◌, List, []};
ghost use Rattle.std.specs.Prelude.{All, decimal, map, take, IsTrue, MatchOption};
ghost use Rattle.kd_tables.specs.Text.{letters_text};
ghost use Rattle.kd_state.specs.Machine.{AreLetters};
ghost use Rattle.kd_tables.specs.LineWords.{line_of, IsWithout};
ghost use Rattle.kd_form.specs.declared.heading.Heading.{Heading};
ghost use Rattle.kd_form.specs.Part.{fraction_text, indicator_words, heading_words};
ghost use Rattle.kd_form.specs.FormParts.{IsFraction, IsLetterCount, IsHeading, IsLineText};
ghost use Rattle.kd_form.specs.FormSteps.{AreFewLetters, AreHeadingWords, IsOpenHeading};
ghost use Rattle.kd_form.specs.PartReading.{IsEndedHeading};
ghost use Rattle.kd_form.specs.BodyCipher.{HasIndicator};

use crate::day_machine::slots_of;
use crate::heading::{Heading, Indicator};
use arrayvec::ArrayVec;
use kd_state::{PerSlot, SheetDay};
use kd_tables::{Letter, is_word, number_of_text, split_once, split_words, wide_number_of_text};

/// Reads a word such as `2/5`: a part's number and the number of all parts. A form has at most 99 parts.
fn read_fraction(word: &[u8]) -> Option<(u8, u8)>
    ensures { MatchOption result
        ((part parts : ℕ) → IsFraction part parts → fraction_text part parts ≢ word.now)
        (λ found. IsFraction found.0 found.1 × (fraction_text found.0 found.1 ≡ word.now)) }
{
    let (part, parts) = split_once(word, b'/')?;
    let part = number_of_text(part)?;
    let parts = number_of_text(parts)?;
    if part < 1 || part > parts || parts > 99 {
        return None;
    }
    Some((part, parts))
}

/// Reads `word` as a letter count that a body may have on the day's model.
#[tactic(auto, using(crate::proofs::Headings::same_count))]
fn read_letter_count(day: &SheetDay, word: &[u8]) -> Option<u16>
    ensures { MatchOption result
        ((count : ℕ) → IsLetterCount day.now count → decimal count ≢ word.now)
        (λ count. IsLetterCount day.now count × (decimal count ≡ word.now)) }
{
    let count = wide_number_of_text(word)?;
    if !is_letter_count(day, count) {
        return None;
    }
    Some(count)
}

/// Reads `word` as capital letters, at most four.
#[tactic(auto, using(crate::proofs::Headings::spelling))]
fn read_few_letters(word: &[u8]) -> Option<ArrayVec<Letter, 4>>
    ensures { MatchOption result
        ((letters : List ℕ) → AreFewLetters letters → letters_text letters ≢ word.now)
        (λ letters. All (λ letter. letter < 26) letters.items
        × (letters_text letters.items ≡ word.now)) }
{
    let mut letters = ArrayVec::new();
    for byte in word {
        if letters.is_full() {
            return None;
        }
        letters.push(Letter::from_byte(*byte)?);
    }
    Some(letters)
}

/// Reads `word` as capital letters, one for each of `slots` slots.
fn read_slots(slots: usize, word: &[u8]) -> Option<PerSlot<Letter>>
    requires { (slots ≡ 3) ⊎ (slots ≡ 4) }
    ensures { MatchOption result
        ((letters : List ℕ) → AreLetters slots letters → letters_text letters ≢ word.now)
        (λ letters. AreLetters slots letters × (letters_text letters ≡ word.now)) }
{
    let letters = read_few_letters(word)?;
    if letters.len() != slots {
        return None;
    }
    PerSlot::new(letters.as_slice())
}

/// Reads the words after the letter count in a heading: the indicator.
///
/// On the Converter M-209, a valid heading ends with the letter count, and the result is `Some(None)`.
fn read_indicator(day: &SheetDay, words: &[&[u8]]) -> Option<Option<Indicator>>
    ensures { MatchOption result
        ((found : _) → HasIndicator day.now found
        → indicator_words found ≢ map (λ word. word.now) words.now)
        (λ found. HasIndicator day.now found
        × (indicator_words found ≡ map (λ word. word.now) words.now)) }
{
    match (slots_of(day), words) {
        (None, []) => Some(None),
        (Some(slots), [ground_setting, enciphered_key]) => {
            let ground_setting = read_slots(slots, ground_setting)?;
            let enciphered_key = read_slots(slots, enciphered_key)?;
            Some(Some(Indicator {
                ground_setting,
                enciphered_key,
            }))
        }
        _ => None,
    }
}

/// Whether a body may have `count` letters on the day's model.
fn is_letter_count(day: &SheetDay, count: u16) -> bool
    ensures { IsTrue result ↔ IsLetterCount day.now count }
{
    match slots_of(day) {
        Some(_) => count >= 6 && count <= 250,
        None => count >= 25 && count <= 520 && count % 5 == 0,
    }
}

/// Reads `words` as a valid heading for the day's model.
fn heading_of_words(day: &SheetDay, words: &[&[u8]]) -> Option<Heading>
    ensures { AreHeadingWords day.now (map (λ word. word.now) words.now) result }
{
    let [name, fraction, count, indicator @ ..] = words else {
        return None;
    };
    if !is_word(name, "PART") {
        return None;
    }
    let (part, parts) = read_fraction(fraction)?;
    let count = read_letter_count(day, count)?;
    let indicator = read_indicator(day, indicator)?;
    let letters = usize::from(count);
    Some(Heading {
        part,
        parts,
        letters,
        indicator,
    })
}

/// Reads `line`, which has no line end, as a valid heading for the day's model.
#[tactic(auto, using(crate::proofs::Headings::too_many_words))]
fn heading_of_line(day: &SheetDay, line: &[u8]) -> Option<Heading>
    ensures { MatchOption result
        ((h : _) → IsHeading day.now h → line_of (heading_words h) ≢ line.now)
        (λ h. IsHeading day.now h × (line_of (heading_words h) ≡ line.now)) }
{
    prove!(slots_of(day) != Some(0));
    let words = split_words::<5>(line)?;
    heading_of_words(day, words.as_slice())
}

/// The heading of a part that ends within its heading line, before any LF.
///
/// `line` is the heading line, or its first 64 bytes if it is longer.
pub(crate) fn heading_of_open_line(day: &SheetDay, line: &[u8]) -> Option<Heading>
    ensures { (part : List ℕ) → IsWithout 10 part → line.now ≡ take 64 part
        → IsOpenHeading day.now part result }
{
    prove!(slots_of(day) != Some(0));
    heading_of_line(day, line)
}

/// The heading of a part whose heading line has ended in LF, or in CR and LF.
///
/// `line` is the heading line without the LF, or its first 64 bytes if it is longer.
pub fn heading_of_ended_line(day: &SheetDay, line: &[u8]) -> Option<Heading>
    ensures { (part : List ℕ) → IsWithout 10 part → line.now ≡ take 64 part
        → IsEndedHeading day.now part result }
{
    prove!(slots_of(day) != Some(0));
    heading_of_line(day, without_return(line))
}

/// `line` without the CR at its end, if it has one.
fn without_return(line: &[u8]) -> &[u8]
    ensures { IsLineText line.now result.now }
{
    match line {
        [text @ .., b'\r'] => text,
        _ => line,
    }
}
