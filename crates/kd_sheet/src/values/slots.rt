//! Reads which wheel is in each slot, from the left.
ghost use Rattle.std.specs.Prelude.{◌≡◌, ◌<◌, length};
ghost use Rattle.toml.specs.{Data.{string}, View.{table_view}};
ghost use Rattle.kd_tables.specs.{Tables.{slots_of, box_of, wheel_text}, declared.model.Model.TheVariants.{M4}};
ghost use Rattle.kd_sheet.specs.{Names.{find_by_text}, Slots.{wheel_for, slot_for, slots_in}};

use super::items::{FromItem, read_exactly};
use crate::{Key, SheetFault};
use kd_state::PerSlot;
use kd_tables::{Model, Wheel, allowed};
use toml::{Table, Value};

/// Reads an item as the wheel in a slot. At the key `slots`, the empty text means that the slot is empty.
impl FromItem<(Key, Model)> for Option<Wheel> {
    ghost parse = { λ given. slot_for given.0 given.1 };

    #[tactic(auto, unfolding(crate::specs::Slots::slot_for, crate::specs::Slots::wheel_for))]
    fn read_item(given: &(Key, Model), earlier: &[Self], item: &Value) -> Result<Self, SheetFault> {
        let (key, model) = *given;
        let name = item.as_str().ok_or(SheetFault::BadValue(key))?;
        if matches!(key, Key::Slots) && name.is_empty() {
            return Ok(None);
        }
        Ok(Some(wheel_for(key, model, earlier, name)?))
    }
}

/// Reads the wheels in the model's slots from the array at `key`.
#[tactic(auto, unfolding(crate::specs::Slots::slots_in))]
pub fn slots_in(table: &Table, key: Key, model: Model) -> Result<PerSlot<Option<Wheel>>, SheetFault>
    requires { 0 < slots_of model }
    ensures { result ≡ slots_in key model (table_view table.now) }
{
    let count = usize::from(model.slots());
    let slots = read_exactly::<_, _, 4>(table, key, count, &(key, model))?;
    Ok(PerSlot::new(slots.as_slice()).unwrap())
}

/// The wheel named `name`, for the slot after `slots`, or the first fault.
///
/// The fault is `BadValue` if there is no such wheel. It is `WheelNotAllowed` if the wheel may not be in this slot,
/// and `WheelTwice` if one of `slots` has the wheel.
#[tactic(auto, using(crate::proofs::ReadBack::Described::KeyValues::seating), unfolding(crate::specs::Slots::wheel_for))]
fn wheel_for(
    key: Key,
    model: Model,
    slots: &[Option<Wheel>],
    name: &str,
) -> Result<Wheel, SheetFault>
    requires { length slots.now < 27 }
    ensures { result ≡ wheel_for key model slots.now (string name.now) }
{
    let wheel = wheel_by_name(name).ok_or(SheetFault::BadValue(key))?;
    if !allowed(model, slots.len() as u8 + 1, wheel) {
        return Err(SheetFault::WheelNotAllowed);
    }
    if slots.contains(&Some(wheel)) {
        return Err(SheetFault::WheelTwice);
    }
    Ok(wheel)
}

fn wheel_by_name(name: &str) -> Option<Wheel>
    ensures { result ≡ find_by_text wheel_text (box_of M4) name.now }
{
    Wheel::from_text(name.as_bytes())
}
