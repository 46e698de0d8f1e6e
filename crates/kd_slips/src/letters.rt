//! Refuses texts that don't consist of the right capital letters.
ghost use Rattle.std.specs.Prelude.{◌≡◌, false, length, true, Contains, IfErr, None, OnErr, OnOk};
ghost use Rattle.std.specs.Char.{is_ascii_uppercase};
ghost use Rattle.std.specs.List.{list_all};
ghost use Rattle.kd_tables.specs.Rings.{ring_of};
ghost use Rattle.kd_slips.specs.Items.{HasFault};

use crate::models::box_words;
use crate::slip::{Slip, refuse};
use crate::texts;
use crate::values::{shown, text_at};
use itoa::Buffer;
use kd_language::{Text, Wording};
use kd_sheet::{Key, SheetFault};
use kd_tables::{Letter, Model, place_on_wheel};
use std::alloc::{AllocError, Global};
use toml::Table;

/// `text` in capital letters.
pub fn in_capitals(alloc: Global, text: &str) -> Result<String, AllocError> {
    let mut capitals = String::new(alloc);
    for byte in text.as_bytes() {
        let capital = byte.to_ascii_uppercase();
        if capital.is_ascii() {
            capitals.push(char::from(capital))?;
        }
    }
    Ok(capitals)
}

/// Checks that each byte of `text` is a capital letter.
pub fn check_capitals(wording: Wording, text: &str, fault: SheetFault) -> Result<(), Slip>
    ensures capitals { OnOk result (list_all is_ascii_uppercase text.now ≡ true) }
    ensures other { OnErr result (list_all is_ascii_uppercase text.now ≡ false) }
    ensures slip { IfErr result (HasFault fault None) }
{
    if are_capitals(text.as_bytes()) {
        return Ok(());
    }
    refuse(fault, no_capitals_words(wording, text))
}

fn are_capitals(bytes: &[u8]) -> bool
    ensures { result ≡ list_all is_ascii_uppercase bytes.now }
{
    bytes.iter().all(|byte| byte.is_ascii_uppercase())
}

/// Why `text` is refused: it has a byte that isn't a capital letter.
fn no_capitals_words(wording: Wording, text: &str) -> Result<String, AllocError> {
    let text_shown = shown(wording, text)?;
    if text.len() <= 40 && are_letters(text.as_bytes()) {
        let capitals = in_capitals(wording.alloc, text)?;
        let values = [capitals.as_str(), text_shown.as_str()];
        return wording.fill(texts::SMALL_LETTERS, &values);
    }
    wording.fill(texts::NO_CAPITAL, &[text_shown.as_str()])
}

fn are_letters(bytes: &[u8]) -> bool {
    bytes.iter().all(|byte| byte.is_ascii_alphabetic())
}

/// Checks that the text at the key `window` has a capital letter for each slot of the model.
pub fn check_window(wording: Wording, table: &Table, model: Model) -> Result<(), Slip> {
    let text = text_at(wording, table, Key::Window)?;
    let fault = SheetFault::BadValue(Key::Window);
    let slots = usize::from(model.slots());
    check_text(wording, text, fault, slots, texts::FOR_EACH_SLOT)
}

/// Checks that the text at the key `list` has two capital letters.
pub fn check_list_letters(wording: Wording, table: &Table) -> Result<(), Slip> {
    let text = text_at(wording, table, Key::List)?;
    let fault = SheetFault::BadValue(Key::List);
    check_text(wording, text, fault, 2, texts::FOR_THE_LIST)
}

/// Checks that the text at `key` has a capital letter for each wheel in the model's box.
pub fn check_box_letters(
    wording: Wording,
    table: &Table,
    key: Key,
    model: Model,
) -> Result<(), Slip> {
    let text = text_at(wording, table, key)?;
    let wheels = box_words(wording.language, model);
    let purpose = wording.fill(texts::FOR_EACH_IN_BOX, &[wheels])?;
    let fault = SheetFault::BadValue(key);
    check_letters(wording, text, fault, model.wheels().len(), purpose.as_str())
}

/// Checks that `text` has exactly `count` capital letters. `purpose` says what the letters stand for.
pub fn check_text(
    wording: Wording,
    text: &str,
    fault: SheetFault,
    count: usize,
    purpose: Text,
) -> Result<(), Slip>
    ensures count { OnOk result (length text.now ≡ count) }
    ensures slip { IfErr result (HasFault fault None) }
{
    check_letters(wording, text, fault, count, wording.language.text(purpose))
}

/// Checks that `text` has exactly `count` capital letters. `purpose` says what the letters stand for, in the wording's
/// language.
fn check_letters(
    wording: Wording,
    text: &str,
    fault: SheetFault,
    count: usize,
    purpose: &str,
) -> Result<(), Slip>
    ensures count { OnOk result (length text.now ≡ count) }
    ensures slip { IfErr result (HasFault fault None) }
{
    check_capitals(wording, text, fault)?;
    if text.len() == count {
        return Ok(());
    }
    refuse(fault, other_count_words(wording, text, count, purpose))
}

/// Why `text` is refused: it doesn't have `count` letters. `purpose` says what the letters stand for.
fn other_count_words(
    wording: Wording,
    text: &str,
    count: usize,
    purpose: &str,
) -> Result<String, AllocError> {
    let text_shown = shown(wording, text)?;
    let mut len_buffer = Buffer::new();
    let mut count_buffer = Buffer::new();
    let words = if text.len() == 1 {
        texts::ONE_LETTER
    } else {
        texts::OTHER_LETTERS
    };
    wording.fill(
        words,
        &[
            text_shown.as_str(),
            len_buffer.format(text.len()),
            count_buffer.format(count),
            purpose,
        ],
    )
}

/// The letter `byte`, as a text.
pub fn letter_text(alloc: Global, byte: u8) -> Result<String, AllocError> {
    let mut text = String::new(alloc);
    text.push(char::from(byte))?;
    Ok(text)
}

/// The letters of pin wheel `wheel`, in alphabetical order.
pub fn wheel_letters(alloc: Global, wheel: u8) -> Result<String, AllocError> {
    let mut letters = String::new(alloc);
    for index in 0..26 {
        let letter = Letter::at(index);
        if place_on_wheel(wheel, letter).is_some() {
            letters.push(char::from(letter.byte()))?;
        }
    }
    Ok(letters)
}

/// Checks that `letter` is on pin wheel `wheel`.
pub fn check_on_wheel(
    wording: Wording,
    wheel: u8,
    letter: Letter,
    fault: SheetFault,
) -> Result<(), Slip>
    ensures on { OnOk result (Contains (ring_of wheel) letter) }
    ensures off { OnErr result (¬ Contains (ring_of wheel) letter) }
    ensures slip { IfErr result (HasFault fault None) }
{
    if place_on_wheel(wheel, letter).is_some() {
        return Ok(());
    }
    refuse(fault, no_letter_words(wording, wheel, letter))
}

/// Why `letter` is refused: it isn't on pin wheel `wheel`.
fn no_letter_words(wording: Wording, wheel: u8, letter: Letter) -> Result<String, AllocError> {
    let missing = letter_text(wording.alloc, letter.byte())?;
    let letters = wheel_letters(wording.alloc, wheel)?;
    let mut buffer = Buffer::new();
    wording.fill(
        texts::NOT_ON_WHEEL,
        &[buffer.format(wheel), missing.as_str(), letters.as_str()],
    )
}

/// Checks that the text at `key` has six letters, one for each pin wheel, and that each letter is on its wheel.
pub fn check_shown(wording: Wording, table: &Table, key: Key) -> Result<(), Slip> {
    let text = text_at(wording, table, key)?;
    let fault = SheetFault::BadValue(key);
    check_text(wording, text, fault, 6, texts::FOR_EACH_WHEEL)?;
    let mut wheel = 1;
    for byte in text.as_bytes() {
        if let Some(letter) = Letter::from_byte(*byte)
            && wheel < 7
        {
            check_on_wheel(wording, wheel, letter, fault)?;
            wheel += 1;
        }
    }
    Ok(())
}
