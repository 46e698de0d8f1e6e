//! Refuses values that aren't whole numbers in their range.
ghost use Rattle.std.specs.Prelude.{◌≡◌, IfErr, IfOk, None, OnErr, Some};
ghost use Rattle.toml.specs.View.{view};
ghost use Rattle.kd_sheet.specs.Numbers.{number_up_to};
ghost use Rattle.kd_slips.specs.Items.{HasFault};

use crate::slip::{Slip, refuse};
use crate::texts::{NUMBER_NEEDED, OUT_OF_RANGE, QUOTED_NUMBER};
use crate::values::{kind_of, shown, value_at};
use itoa::Buffer;
use kd_language::Wording;
use kd_sheet::{Key, SheetFault};
use std::alloc::AllocError;
use toml::{Table, Value};

/// The whole number from 1 to `last` at `key`, or the reason why there is none.
pub fn number_at(wording: Wording, table: &Table, key: Key, last: u8) -> Result<u8, Slip> {
    number_of(
        wording,
        value_at(wording, table, key)?,
        SheetFault::BadValue(key),
        last,
    )
}

/// `value` as a whole number from 1 to `last`, or a slip with the fault `fault` if it isn't one.
pub fn number_of(wording: Wording, value: &Value, fault: SheetFault, last: u8) -> Result<u8, Slip>
    ensures value { IfOk result (λ number. number_up_to last (view value.now) ≡ Some number) }
    ensures refused { OnErr result (number_up_to last (view value.now) ≡ None) }
    ensures slip { IfErr result (HasFault fault None) }
{
    if let Some(text) = value.as_str() {
        return refuse(fault, quoted_words(wording, text));
    }
    let Some(number) = value.as_integer() else {
        return refuse(fault, no_number_words(wording, value));
    };
    match u8::try_from(number) {
        Ok(small) if 1 <= small && small <= last => Ok(small),
        _ => refuse(fault, out_of_range_words(wording, number, last)),
    }
}

/// Why `text` is refused: it is a text, and a number is needed.
fn quoted_words(wording: Wording, text: &str) -> Result<String, AllocError> {
    let text_shown = shown(wording, text)?;
    wording.fill(QUOTED_NUMBER, &[text_shown.as_str()])
}

/// Why `value` is refused: it is neither a text nor a whole number, and a number is needed.
fn no_number_words(wording: Wording, value: &Value) -> Result<String, AllocError> {
    wording.fill(NUMBER_NEEDED, &[kind_of(wording.language, value)])
}

/// Why `number` is refused: it isn't from 1 to `last`.
fn out_of_range_words(wording: Wording, number: i64, last: u8) -> Result<String, AllocError> {
    let mut number_buffer = Buffer::new();
    let mut last_buffer = Buffer::new();
    wording.fill(
        OUT_OF_RANGE,
        &[number_buffer.format(number), last_buffer.format(last)],
    )
}

/// Checks that the value at `key` is a whole number from 1 to `last`.
pub fn check_number(wording: Wording, table: &Table, key: Key, last: u8) -> Result<(), Slip> {
    number_at(wording, table, key, last)?;
    Ok(())
}
