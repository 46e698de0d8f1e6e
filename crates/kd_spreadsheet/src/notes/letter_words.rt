//! The words that say what is wrong with the letters of pins and pairs.
use super::cell_words::item_words;
use super::words::{Value, Words};
use crate::items::{joined, values_in};
use crate::texts::{
    IS_NO_LETTER, IS_NO_PAIR, LETTER_TWICE, OFF_WHEEL, PAIRED_WITH_ITSELF, TOO_LONG,
};
use kd_slips::texts::LETTER_TWICE as IN_TWO_PAIRS;
use kd_tables::{Letter, place_on_wheel};

/// Says that `letter` isn't on a Converter's wheel `wheel`. Says nothing if `letter` is on the wheel.
pub fn off_wheel_words(lines: &mut Words, wheel: u8, letter: Letter) {
    if place_on_wheel(wheel, letter).is_none() {
        let byte = [letter.byte()];
        lines.tell(
            OFF_WHEEL,
            &[Value::Number(u64::from(wheel)), Value::Cell(&byte)],
        );
    }
}

/// Says what is wrong with the effective pins of wheel `wheel`.
pub fn pins_words(lines: &mut Words, text: &[u8], wheel: u8) {
    match joined(text) {
        Some(letters) => pin_letters_words(lines, letters.as_slice(), wheel),
        None => lines.tell(TOO_LONG, &[]),
    }
}

/// Says which bytes aren't letters of wheel `wheel`, and which letters come twice.
fn pin_letters_words(lines: &mut Words, letters: &[u8], wheel: u8) {
    for (index, byte) in letters.iter().enumerate() {
        pin_letter_words(lines, *byte, wheel);
        if letters[..index].contains(byte) {
            lines.tell(LETTER_TWICE, &[Value::Cell(&[*byte])]);
        }
    }
}

/// Says that `byte` isn't a letter, or that the letter isn't on wheel `wheel`. Says nothing if the letter is on the
/// wheel.
fn pin_letter_words(lines: &mut Words, byte: u8, wheel: u8) {
    match Letter::from_byte(byte) {
        Some(letter) => off_wheel_words(lines, wheel, letter),
        None => lines.tell(IS_NO_LETTER, &[Value::Cell(&[byte])]),
    }
}

/// Says what is wrong with the plugged pairs.
pub fn pair_words(lines: &mut Words, text: &[u8]) {
    match values_in::<(Letter, Letter)>(text) {
        Some(pairs) => twice_words(lines, pairs.as_slice()),
        None => item_words::<(Letter, Letter)>(lines, text, IS_NO_PAIR),
    }
}

/// Says which letters are in two pairs, or twice in one pair.
fn twice_words(lines: &mut Words, pairs: &[(Letter, Letter)]) {
    for (index, pair) in pairs.iter().enumerate() {
        let pair = *pair;
        if pair.0 == pair.1 {
            lines.tell(PAIRED_WITH_ITSELF, &[Value::Cell(&[pair.0.byte()])]);
        }
        for other in &pairs[..index] {
            shared_words(lines, *other, pair);
        }
    }
}

/// Says which letters the pairs `other` and `pair` both have.
fn shared_words(lines: &mut Words, other: (Letter, Letter), pair: (Letter, Letter)) {
    let one = [other.0.byte(), other.1.byte()];
    let two = [pair.0.byte(), pair.1.byte()];
    for letter in &two {
        if one.contains(letter) {
            shared_letter_words(lines, *letter, &one, &two);
        }
    }
}

/// Says that `letter` is in the pairs `one` and `two`.
fn shared_letter_words(lines: &mut Words, letter: u8, one: &[u8], two: &[u8]) {
    lines.tell(
        IN_TWO_PAIRS,
        &[Value::Cell(&[letter]), Value::Cell(one), Value::Cell(two)],
    );
}
