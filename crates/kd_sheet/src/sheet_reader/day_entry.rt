//! Reads one day of a key sheet from the day's TOML table.
ghost use Rattle.std.specs.Prelude.{◌≡◌, ◌≤◌, ◌<◌, ◌+◌, ◌++◌, length};
ghost use Rattle.toml.specs.View.{view, table_view};
ghost use Rattle.kd_tables.specs.Tables.{slots_of};
ghost use Rattle.kd_state.specs.SheetDay.{IsDayNumber};
ghost use Rattle.kd_sheet.specs.{Document.{read_at}, Letters.{letters_at}};
ghost use Rattle.kd_sheet.specs.SheetFile.{rings_of, sheet_wheels, rotor_day_in, pin_day_in, day_in};
ghost use Rattle.kd_sheet.specs.declared.key.Key.TheVariants as keys;

use crate::document::value_at;
use crate::values::groups::groups_in;
use crate::values::letters::{letters_at, letters_of_numbers, slot_letters};
use crate::values::pairs::pairs_in;
use crate::values::pin_wheels::{pins_in, shown_letters_in};
use crate::values::reflector::reflector_in;
use crate::values::rows::rows_in;
use crate::values::slots::slots_in;
use crate::{Key, SheetFault};
use arrayvec::ArrayVec;
use kd_state::{PerSlot, SheetDay, SheetWheel};
use kd_tables::{Family, Letter, Model, Wheel};
use toml::{Table, Value};

/// Reads the day's rings, one for each slot of `model`.
pub fn rings_in(table: &Table, model: Model) -> Result<PerSlot<Letter>, SheetFault>
    requires { 0 < slots_of model }
    ensures { result ≡ read_at keys.Rings (rings_of (slots_of model)) (table_view table.now) }
{
    rings_of(value_at(table, Key::Rings)?, model).ok_or(SheetFault::BadValue(Key::Rings))
}

/// Reads the day's window letters, one for each slot of `model`.
#[tactic(auto, unfolding(crate::specs::Letters::letters_at))]
pub fn window_in(table: &Table, model: Model) -> Result<PerSlot<Letter>, SheetFault>
    requires { 0 < slots_of model }
    ensures { result ≡ letters_at keys.Window (slots_of model) (table_view table.now) }
{
    slot_letters(value_at(table, Key::Window)?, model).ok_or(SheetFault::BadValue(Key::Window))
}

/// Reads day `number` of a key sheet from the day's table, for a machine of `model`.
#[tactic(auto, unfolding(crate::specs::SheetFile::day_in))]
pub fn day_in(table: &Table, number: u8, model: Model) -> Result<SheetDay, SheetFault>
    requires { IsDayNumber number }
    ensures { result ≡ day_in number model (table_view table.now) }
{
    match model.family() {
        Family::Rotor => rotor_day_in(table, number, model),
        Family::Pin => pin_day_in(table, number),
    }
}

/// Reads a day of a rotor machine.
#[tactic(auto, unfolding(crate::specs::SheetFile::rotor_day_in))]
fn rotor_day_in(table: &Table, number: u8, model: Model) -> Result<SheetDay, SheetFault>
    requires slots { 0 < slots_of model }
    requires day { IsDayNumber number }
    ensures { result ≡ rotor_day_in number model (table_view table.now) }
{
    let reflector = reflector_in(table, model)?;
    let slots = slots_in(table, Key::Wheels, model)?;
    let rings = rings_in(table, model)?;
    let window = window_in(table, model)?;
    let pairs = pairs_in(table)?;
    let groups = groups_in(table)?;
    let mut wheels = ArrayVec::new();
    push_wheels(
        &mut wheels,
        slots.as_slice(),
        rings.as_slice(),
        window.as_slice(),
    );
    let day = SheetDay::rotor(
        number,
        model,
        reflector,
        wheels.as_slice(),
        pairs.as_slice(),
        groups.as_slice(),
    );
    Ok(day.unwrap())
}

/// Reads a ring for each slot of `model`, from a text of capital letters or from an array of numbers.
fn rings_of(value: &Value, model: Model) -> Option<PerSlot<Letter>>
    requires { 0 < slots_of model }
    ensures { result ≡ rings_of (slots_of model) (view value.now) }
{
    match value {
        Value::String(_) => slot_letters(value, model),
        Value::Array(items) => letters_of_numbers(items.as_slice(), model),
        _ => None,
    }
}

/// Appends the wheel of each slot, with the wheel's ring and window letter.
fn push_wheels(
    wheels: &mut ArrayVec<SheetWheel, 4>,
    slots: &[Option<Wheel>],
    rings: &[Letter],
    window: &[Letter],
)
    requires { length wheels.old.items + length slots.now ≤ 4 }
    ensures { wheels.new.items ≡ wheels.old.items ++ sheet_wheels slots.now rings.now window.now }
{
    match (slots, rings, window) {
        ([Some(wheel), slots @ ..], [ring, rings @ ..], [letter, window @ ..]) => {
            wheels.push(SheetWheel {
                wheel: *wheel,
                ring: *ring,
                letter: *letter,
            });
            push_wheels(wheels, slots, rings, window);
        }
        _ => {}
    }
}

/// Reads a day of a Converter M-209.
#[tactic(auto, unfolding(crate::specs::SheetFile::pin_day_in))]
fn pin_day_in(table: &Table, number: u8) -> Result<SheetDay, SheetFault>
    requires { IsDayNumber number }
    ensures { result ≡ pin_day_in number (table_view table.now) }
{
    let rows = rows_in(table)?;
    let pins = pins_in(table)?;
    let window = shown_letters_in(table, Key::Window)?;
    let list = letters_at(table, Key::List)?;
    Ok(SheetDay::pin(number, rows, pins, window, list).unwrap())
}
