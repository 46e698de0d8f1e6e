//! Refuses rings that don't fit the slots of a day's model.

use crate::letters::check_text;
use crate::numbers::number_of;
use crate::slip::{Slip, refuse};
use crate::texts::{FOR_EACH_SLOT, RINGS_NEEDED, SLOT_COUNT};
use crate::values::{check_count, kind_of, value_at};
use kd_language::Wording;
use kd_sheet::{Key, SheetFault};
use kd_tables::Model;
use toml::{Table, Value};

/// Checks the rings of a day: a text with a letter for each slot of the model, or a list with a number for each slot.
pub fn check_rings(wording: Wording, table: &Table, model: Model) -> Result<(), Slip> {
    let value = value_at(wording, table, Key::Rings)?;
    let slots = usize::from(model.slots());
    let fault = SheetFault::BadValue(Key::Rings);
    match value {
        Value::String(text) => check_text(wording, text.as_str(), fault, slots, FOR_EACH_SLOT),
        Value::Array(items) => check_ring_numbers(wording, items.as_slice(), slots),
        _ => refuse(
            fault,
            wording.fill(RINGS_NEEDED, &[kind_of(wording.language, value)]),
        ),
    }
}

/// Checks that a list of ring numbers has `slots` numbers, each from 1 to 26.
fn check_ring_numbers(wording: Wording, items: &[Value], slots: usize) -> Result<(), Slip> {
    check_count(wording, Key::Rings, items.len(), slots, SLOT_COUNT)?;
    for item in items {
        number_of(wording, item, SheetFault::BadValue(Key::Rings), 26)?;
    }
    Ok(())
}
