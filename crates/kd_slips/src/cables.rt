//! Refuses cables, pairs and groups that don't have the right letters.
ghost use Rattle.std.specs.Prelude.{IfErr, None};
ghost use Rattle.kd_sheet.specs.declared.fault.SheetFault.TheVariants.{LetterTwice};
ghost use Rattle.kd_slips.specs.Items.{HasFault};

use crate::letters::{check_capitals, check_text, letter_text};
use crate::slip::{Slip, refuse};
use crate::texts;
use crate::values::{check_at_most, item_text, items_at, items_of, shown};
use itoa::Buffer;
use kd_language::Wording;
use kd_sheet::by_key::find_at;
use kd_sheet::{Key, SheetFault};
use std::alloc::AllocError;
use toml::{Table, Value};

/// Checks the cables of a machine file, at the key `cables`.
pub fn check_machine_cables(wording: Wording, table: &Table) -> Result<(), Slip> {
    match find_at(table, Key::Cables) {
        Some(value) => check_cables(
            wording,
            Key::Cables,
            items_of(wording, value, Key::Cables)?,
            None,
        ),
        None => Ok(()),
    }
}

/// Checks the pairs of a day, at the key `plugs`.
pub fn check_pairs(wording: Wording, table: &Table) -> Result<(), Slip> {
    check_cables(
        wording,
        Key::Plugs,
        items_at(wording, table, Key::Plugs)?,
        Some(2),
    )
}

/// Checks the groups of a day, at the key `groups`.
pub fn check_groups(wording: Wording, table: &Table) -> Result<(), Slip> {
    let Some(value) = find_at(table, Key::Groups) else {
        return Ok(());
    };
    let fault = SheetFault::BadValue(Key::Groups);
    let items = items_of(wording, value, Key::Groups)?;
    check_at_most(wording, Key::Groups, items.len(), 4, texts::GROUP_COUNT)?;
    for (place, item) in items.iter().enumerate() {
        let text = item_text(wording, item, place + 1, fault)?;
        check_text(wording, text, fault, 3, texts::FOR_A_GROUP)?;
    }
    Ok(())
}

/// Checks the items of a list of cables. Each cable must have `count` letters or, if `count` is `None`, at most two. No
/// letter may come twice.
fn check_cables(
    wording: Wording,
    key: Key,
    items: &[Value],
    count: Option<usize>,
) -> Result<(), Slip> {
    let fault = SheetFault::BadValue(key);
    check_at_most(wording, key, items.len(), 13, texts::CABLE_COUNT)?;
    for (place, item) in items.iter().enumerate() {
        let text = item_text(wording, item, place + 1, fault)?;
        check_ends(wording, text, fault, count)?;
        check_new(wording, items, place, text)?;
    }
    Ok(())
}

/// If the cable `text` has a letter twice, or a letter of an earlier cable, refuses this cable.
///
/// `text` is the item at place `place` of `items`.
fn check_new(wording: Wording, items: &[Value], place: usize, text: &str) -> Result<(), Slip>
    ensures { IfErr result (HasFault LetterTwice None) }
{
    check_twice_within(wording, text)?;
    for earlier in items.iter().take(place) {
        if let Some(before) = earlier.as_str() {
            for byte in text.as_bytes() {
                check_apart(wording, before, text, *byte)?;
            }
        }
    }
    Ok(())
}

/// If the cable `text` has the same letter at both ends, refuses this cable.
fn check_twice_within(wording: Wording, text: &str) -> Result<(), Slip>
    ensures { IfErr result (HasFault LetterTwice None) }
{
    if let [one, other] = text.as_bytes()
        && one == other
    {
        return refuse(
            SheetFault::LetterTwice,
            both_ends_words(wording, *one, text),
        );
    }
    Ok(())
}

/// Why the cable `text` is refused: it has the letter `byte` at both ends.
fn both_ends_words(wording: Wording, byte: u8, text: &str) -> Result<String, AllocError> {
    let letter = letter_text(wording.alloc, byte)?;
    wording.fill(texts::LETTER_AT_BOTH_ENDS, &[letter.as_str(), text])
}

/// If the cable `earlier` has the letter `byte`, refuses this letter in the cable `text`.
fn check_apart(wording: Wording, earlier: &str, text: &str, byte: u8) -> Result<(), Slip>
    ensures { IfErr result (HasFault LetterTwice None) }
{
    if !earlier.as_bytes().contains(&byte) {
        return Ok(());
    }
    refuse(
        SheetFault::LetterTwice,
        letter_twice_words(wording, byte, earlier, text),
    )
}

/// Why the letter `byte` is refused: the cables `earlier` and `text` both have it.
fn letter_twice_words(
    wording: Wording,
    byte: u8,
    earlier: &str,
    text: &str,
) -> Result<String, AllocError> {
    let letter = letter_text(wording.alloc, byte)?;
    wording.fill(texts::LETTER_TWICE, &[letter.as_str(), earlier, text])
}

/// Checks the text of a cable. It must have `count` capital letters or, if `count` is `None`, at most two.
fn check_ends(
    wording: Wording,
    text: &str,
    fault: SheetFault,
    count: Option<usize>,
) -> Result<(), Slip>
    ensures { IfErr result (HasFault fault None) }
{
    if let Some(count) = count {
        return check_text(wording, text, fault, count, texts::FOR_EACH_END);
    }
    check_capitals(wording, text, fault)?;
    if text.len() <= 2 {
        return Ok(());
    }
    refuse(fault, many_ends_words(wording, text))
}

/// Why the cable `text` is refused: it has more than two letters.
fn many_ends_words(wording: Wording, text: &str) -> Result<String, AllocError> {
    let text_shown = shown(wording, text)?;
    let mut buffer = Buffer::new();
    wording.fill(
        texts::MANY_ENDS,
        &[text_shown.as_str(), buffer.format(text.len())],
    )
}
