//! Refuses pins, bars and rows that a Converter M-209 can't have.
ghost use Rattle.std.specs.Prelude.{◌≡◌, ◌≤◌, ℕ, length, map, Err, IfErr, IsErr, IsOk, None, OnOk, Some};
ghost use Rattle.toml.specs.View.{table_view, view};
ghost use Rattle.kd_slips.specs.Items.{HasFault, IsOfItem, IsOfItsRow, first_refused, reads_pins, refused_pins};
ghost use Rattle.kd_sheet.specs.Bars.{bars_in, rows_in};
ghost use Rattle.kd_sheet.specs.declared.fault.SheetFault.TheVariants.{BadRow, BadValue};
ghost use Rattle.kd_sheet.specs.declared.key.Key.TheVariants as keys;

use crate::letters::{check_capitals, check_on_wheel, letter_text};
use crate::slip::{Slip, refuse, refuse_item};
use crate::texts;
use crate::values::{check_count, item_text, items_at, shown};
use kd_language::{Text, Wording};
use kd_sheet::by_key::{bars_in, find_at, rows_in};
use kd_sheet::{BARS, Key, SheetFault, pins_of_text};
use kd_tables::{Letter, ring1, ring2, ring3, ring4, ring5, ring6};
use std::alloc::AllocError;
use toml::{Table, Value};

/// Checks the pins at the key `pins`. If the desk refuses the pins of a wheel, the slip is about the first such wheel.
#[tactic(auto, unfolding(crate::specs::Items::refused_pins))]
pub fn check_pins(wording: Wording, table: &Table) -> Result<(), Slip>
    ensures read { OnOk result (refused_pins (table_view table.now) ≡ None) }
    ensures item { IfErr result (IsOfItem (refused_pins (table_view table.now))) }
{
    let items = items_at(wording, table, Key::Pins)?;
    check_count(wording, Key::Pins, items.len(), 6, texts::WHEEL_COUNT)?;
    check_pin_items(wording, items)
}

/// Checks the standings at the key `bars`. If the desk refuses a standing, the slip is about the first such standing.
pub fn check_bars(wording: Wording, table: &Table) -> Result<(), Slip>
    ensures read { OnOk result (IsOk (bars_in (table_view table.now))) }
    ensures row { (number : ℕ) → bars_in (table_view table.now) ≡ Err (BadRow number)
        → IfErr result (HasFault (BadRow number) (Some number)) }
    ensures item { IfErr result IsOfItsRow }
{
    match bars_in(table) {
        Ok(_) => Ok(()),
        Err(SheetFault::BadRow(number)) => {
            refuse_row(wording, table, Key::Bars, number, texts::NO_STANDING)
        }
        Err(_) => refuse_list(wording, table, Key::Bars),
    }
}

/// Checks the rows at the key `rows`. If the desk refuses a row, the slip is about the first such row.
pub fn check_rows(wording: Wording, table: &Table) -> Result<(), Slip>
    ensures read { OnOk result (IsOk (rows_in (table_view table.now))) }
    ensures row { (number : ℕ) → rows_in (table_view table.now) ≡ Err (BadRow number)
        → IfErr result (HasFault (BadRow number) (Some number)) }
    ensures item { IfErr result IsOfItsRow }
{
    match rows_in(table) {
        Ok(_) => Ok(()),
        Err(SheetFault::BadRow(number)) => {
            refuse_row(wording, table, Key::Rows, number, texts::NO_ROW)
        }
        Err(_) => refuse_list(wording, table, Key::Rows),
    }
}

/// Refuses the first item that the desk can't read as the pins of its wheel.
fn check_pin_items(wording: Wording, items: &[Value]) -> Result<(), Slip>
    requires { length items.now ≤ 6 }
    ensures read { OnOk result (first_refused reads_pins (map view items.now) ≡ None) }
    ensures item { IfErr result (IsOfItem (first_refused reads_pins (map view items.now))) }
{
    for (index, item) in items.iter().enumerate() {
        let wheel = index as u8 + 1;
        if !reads_pins(wheel, item) {
            return at_item(
                wording,
                refuse_pins(wording, wheel, item),
                usize::from(wheel),
            );
        }
    }
    Ok(())
}

/// Whether the desk can read `item` as the pins of pin wheel `wheel`.
#[tactic(auto, unfolding(crate::specs::Items::reads_pins))]
fn reads_pins(wheel: u8, item: &Value) -> bool
    requires first { 1 ≤ wheel }
    requires last { wheel ≤ 6 }
    ensures { result ≡ reads_pins wheel (view item.now) }
{
    let Some(text) = item.as_str() else {
        return false;
    };
    let text = text.as_bytes();
    match wheel {
        1 => pins_of_text(&ring1(), text).is_some(),
        2 => pins_of_text(&ring2(), text).is_some(),
        3 => pins_of_text(&ring3(), text).is_some(),
        4 => pins_of_text(&ring4(), text).is_some(),
        5 => pins_of_text(&ring5(), text).is_some(),
        _ => pins_of_text(&ring6(), text).is_some(),
    }
}

/// Returns the slip in `checked`, with the item number `item`. If `checked` is `Ok`, no check says why the desk refuses
/// the item. Then the slip has general words.
fn at_item(wording: Wording, checked: Result<(), Slip>, item: usize) -> Result<(), Slip>
    ensures refused { IsErr result }
    ensures slip { IfErr result (IsOfItem (Some item)) }
{
    match checked {
        Ok(()) => refuse_item(
            SheetFault::BadValue(Key::Pins),
            item,
            wording.fill(texts::NOT_THE_PINS, &[]),
        ),
        Err(Slip::Fault(fault, _, words)) => Err(Slip::Fault(fault, Some(item), words)),
        Err(Slip::NoMemory) => Err(Slip::NoMemory),
    }
}

/// Says why the desk can't read `item` as the pins of pin wheel `wheel`.
fn refuse_pins(wording: Wording, wheel: u8, item: &Value) -> Result<(), Slip> {
    let number = usize::from(wheel);
    let text = item_text(wording, item, number, SheetFault::BadValue(Key::Pins))?;
    check_wheel_pins(wording, wheel, text)
}

/// Checks that the pins in `text` are on pin wheel `wheel`, and that no pin comes twice.
fn check_wheel_pins(wording: Wording, wheel: u8, text: &str) -> Result<(), Slip>
    ensures { IfErr result (HasFault (BadValue keys.Pins) None) }
{
    let fault = SheetFault::BadValue(Key::Pins);
    check_capitals(wording, text, fault)?;
    for (place, byte) in text.as_bytes().iter().enumerate() {
        if let Some(letter) = Letter::from_byte(*byte) {
            check_on_wheel(wording, wheel, letter, fault)?;
        }
        if text
            .as_bytes()
            .iter()
            .take(place)
            .any(|earlier| earlier == byte)
        {
            return refuse(fault, pin_twice_words(wording, *byte));
        }
    }
    Ok(())
}

/// Why the pins of a wheel are refused: the pin `byte` is there twice.
fn pin_twice_words(wording: Wording, byte: u8) -> Result<String, AllocError> {
    let pin = letter_text(wording.alloc, byte)?;
    wording.fill(texts::PIN_TWICE, &[pin.as_str()])
}

/// Refuses item number `number` of the list at `key`. If the item is a text, the slip's words are the template `words`,
/// filled with this text.
fn refuse_row(
    wording: Wording,
    table: &Table,
    key: Key,
    number: u8,
    words: Text,
) -> Result<(), Slip>
    ensures refused { IsErr result }
    ensures slip { IfErr result (HasFault (BadRow number) (Some number)) }
{
    let fault = SheetFault::BadRow(number);
    let place = usize::from(number);
    let Some(item) = numbered_item(table, key, number) else {
        return refuse_item(fault, place, wording.fill(texts::ITEM_MISSING, &[]));
    };
    let text = item_text(wording, item, place, fault)?;
    refuse_item(fault, place, row_words(wording, text, words))
}

/// The template `words`, filled with the row `text`.
fn row_words(wording: Wording, text: &str, words: Text) -> Result<String, AllocError> {
    let text_shown = shown(wording, text)?;
    wording.fill(words, &[text_shown.as_str()])
}

/// Item number `number` of the list at `key`, counted from 1.
fn numbered_item(table: &Table, key: Key, number: u8) -> Option<&Value> {
    let items = find_at(table, key)?.as_array()?;
    items.as_slice().get(usize::from(number).checked_sub(1)?)
}

/// Refuses the value at `key`: it isn't a list with an item for each bar.
fn refuse_list(wording: Wording, table: &Table, key: Key) -> Result<(), Slip>
    ensures refused { IsErr result }
    ensures slip { IfErr result IsOfItsRow }
{
    let items = items_at(wording, table, key)?;
    check_count(wording, key, items.len(), BARS, texts::BAR_COUNT)?;
    refuse(
        SheetFault::BadValue(key),
        wording.fill(texts::OTHER_FORM, &[]),
    )
}
