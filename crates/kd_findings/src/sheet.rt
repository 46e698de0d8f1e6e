//! Finds the faults of a key sheet, entry by entry.
ghost use Rattle.std.specs.Prelude.{◌≡◌, ◌++◌, ◌<◌, OnOk, IfOk, map};
ghost use Rattle.std.specs.List.{list_any};
ghost use Rattle.toml.specs.View.{view, table_view};
ghost use Rattle.kd_tables.specs.Tables.{slots_of};
ghost use Rattle.kd_sheet.specs.MachineFile.{model_in};
ghost use Rattle.kd_sheet.specs.declared.key.Key.TheVariants as keys;
ghost use Rattle.kd_findings.specs.Faults.{after_model, at_key, faults_of};
ghost use Rattle.kd_findings.specs.SheetFaults.{AreSheetFaults, entry_faults, has_number, model_day_faults, new_day};
ghost use Rattle.kd_findings.specs.SheetFaults.{pin_day_faults, rotor_day_faults, table_faults};

use crate::findings::{Finding, note};
use crate::key_place::KeyPlace;
use crate::texts::{DAY_TWICE, ENTRY_NEEDED};
use itoa::Buffer;
use kd_language::Wording;
use kd_sheet::by_key::{
    groups_in, letters_at, model_in, number_at, pairs_in, pins_in, reflector_in, rings_in, rows_in,
    shown_letters_in, slots_in, window_in,
};
use kd_sheet::{DAYS, Key, SheetFault};
use kd_slips::cables::{check_groups, check_pairs};
use kd_slips::letters::{check_list_letters, check_shown, check_window};
use kd_slips::models::{check_reflector, check_wheels, model_at};
use kd_slips::numbers::check_number;
use kd_slips::pins::{check_pins, check_rows};
use kd_slips::rings::check_rings;
use kd_slips::slip::{Slip, refuse};
use kd_slips::values::kind_of;
use kd_tables::{Family, Model};
use std::alloc::AllocError;
use toml::{Table, Value};

/// The number of faults after which no later entry is judged.
const MOST_FAULTS: usize = 300;

/// Finds the faults of a key sheet's entries. After 300 faults, no later entry is judged.
pub fn sheet_faults(wording: Wording, items: &[Value]) -> Result<Vec<Finding>, AllocError>
    ensures { IfOk result (λ list. AreSheetFaults (map view items.now) (faults_of list.items)) }
{
    let mut list = Vec::new(wording.alloc);
    for (index, item) in items.iter().enumerate() {
        if list.len() >= MOST_FAULTS {
            return Ok(list);
        }
        judge_entry(&mut list, wording, &items[..index], item)?;
    }
    Ok(list)
}

/// Appends the faults of the entry `item`. `earlier` are the items before the entry.
fn judge_entry(
    list: &mut Vec<Finding>,
    wording: Wording,
    earlier: &[Value],
    item: &Value,
) -> Result<(), AllocError>
    ensures { OnOk result (faults_of list.new.items ≡ faults_of list.old.items
        ++ entry_faults (map view earlier.now) (view item.now)) }
{
    match item.as_table() {
        Some(table) => judge_table(list, wording, earlier, table),
        None => {
            let place = KeyPlace::in_entry(earlier.len() + 1, None, Key::Day);
            let fault = Some(SheetFault::BadValue(Key::Day));
            note(list, wording, place, fault, refuse_entry(wording, item))
        }
    }
}

/// Appends the faults of the entry `table`. `earlier` are the items before the entry.
fn judge_table(
    list: &mut Vec<Finding>,
    wording: Wording,
    earlier: &[Value],
    table: &Table,
) -> Result<(), AllocError>
    ensures { OnOk result (faults_of list.new.items ≡ faults_of list.old.items
        ++ table_faults (map view earlier.now) (table_view table.now)) }
{
    let day = number_at(table, Key::Day, DAYS).ok();
    let place = KeyPlace::in_entry(earlier.len() + 1, day, Key::Day);
    let fault = new_day(earlier, table).err();
    note(
        list,
        wording,
        place,
        fault,
        check_day(wording, earlier, table),
    )?;
    judge_model(list, wording, table, place)
}

/// The day of an entry, or the fault of the key `day`. `earlier` are the items before the entry.
#[tactic(auto, unfolding(crate::specs::SheetFaults::new_day))]
fn new_day(earlier: &[Value], table: &Table) -> Result<u8, SheetFault>
    ensures { result ≡ new_day (map view earlier.now) (table_view table.now) }
{
    let number = number_at(table, Key::Day, DAYS)?;
    if have_number(earlier, number) {
        return Err(SheetFault::DayTwice(number));
    }
    Ok(number)
}

/// Whether one of `items` is an entry for the day `number`.
fn have_number(items: &[Value], number: u8) -> bool
    ensures { result ≡ list_any (has_number number) (map view items.now) }
{
    match items {
        [first, rest @ ..] => has_number(first, number) || have_number(rest, number),
        [] => false,
    }
}

/// Says why an entry's day is refused. `earlier` are the items before the entry.
fn check_day(wording: Wording, earlier: &[Value], table: &Table) -> Result<(), Slip> {
    check_number(wording, table, Key::Day, DAYS)?;
    let Ok(day) = number_at(table, Key::Day, DAYS) else {
        return Ok(());
    };
    let before = entry_with(earlier, day);
    let entry = earlier.len().saturating_add(1);
    refuse(
        SheetFault::DayTwice(day),
        day_twice_words(wording, day, before, entry),
    )
}

/// Why the day `day` is refused: entry `before` and entry `entry` are both for this day.
fn day_twice_words(
    wording: Wording,
    day: u8,
    before: usize,
    entry: usize,
) -> Result<String, AllocError> {
    let mut day_buffer = Buffer::new();
    let mut before_buffer = Buffer::new();
    let mut entry_buffer = Buffer::new();
    wording.fill(
        DAY_TWICE,
        &[
            day_buffer.format(day),
            before_buffer.format(before),
            entry_buffer.format(entry),
        ],
    )
}

/// The number of the first entry in `items` that is for the day `number`. Entries are counted from 1.
fn entry_with(items: &[Value], number: u8) -> usize {
    let mut entry = 1usize;
    for item in items {
        if has_number(item, number) {
            return entry;
        }
        entry = entry.saturating_add(1);
    }
    entry
}

/// Whether `item` is an entry for the day `number`.
fn has_number(item: &Value, number: u8) -> bool
    ensures { result ≡ has_number number (view item.now) }
{
    match item.as_table() {
        Some(table) => match number_at(table, Key::Day, DAYS) {
            Ok(day) => day == number,
            Err(_) => false,
        },
        None => false,
    }
}

/// Appends the faults at an entry's key `model` and at the keys that depend on the model. If the model is refused,
/// appends only its fault.
fn judge_model(
    list: &mut Vec<Finding>,
    wording: Wording,
    table: &Table,
    place: KeyPlace,
) -> Result<(), AllocError>
    ensures { OnOk result (faults_of list.new.items ≡ faults_of list.old.items
        ++ after_model (at_key place keys.Model) (model_day_faults place (table_view table.now))
        (model_in (table_view table.now))) }
{
    match model_in(table) {
        Ok(model) => match model.family() {
            Family::Rotor => judge_rotors(list, wording, table, place, model),
            Family::Pin => judge_converter(list, wording, table, place),
        },
        Err(fault) => {
            let place = place.at(Key::Model);
            note(
                list,
                wording,
                place,
                Some(fault),
                check_model(wording, table),
            )
        }
    }
}

/// Appends the faults of an entry for a rotor machine, but no faults at the keys `day` and `model`.
fn judge_rotors(
    list: &mut Vec<Finding>,
    wording: Wording,
    table: &Table,
    place: KeyPlace,
    model: Model,
) -> Result<(), AllocError>
    requires { 0 < slots_of model }
    ensures { OnOk result (faults_of list.new.items
        ≡ faults_of list.old.items ++ rotor_day_faults place model (table_view table.now)) }
{
    let reflector = reflector_in(table, model).err();
    let checked = check_reflector(wording, table, model);
    note(list, wording, place.at(Key::Reflector), reflector, checked)?;
    let wheels = slots_in(table, Key::Wheels, model).err();
    let checked = check_wheels(wording, table, Key::Wheels, model);
    note(list, wording, place.at(Key::Wheels), wheels, checked)?;
    let rings = rings_in(table, model).err();
    note(
        list,
        wording,
        place.at(Key::Rings),
        rings,
        check_rings(wording, table, model),
    )?;
    let window = window_in(table, model).err();
    let checked = check_window(wording, table, model);
    note(list, wording, place.at(Key::Window), window, checked)?;
    let pairs = pairs_in(table).err();
    note(
        list,
        wording,
        place.at(Key::Plugs),
        pairs,
        check_pairs(wording, table),
    )?;
    let groups = groups_in(table).err();
    note(
        list,
        wording,
        place.at(Key::Groups),
        groups,
        check_groups(wording, table),
    )
}

/// Appends the faults of an entry for a Converter, but no faults at the keys `day` and `model`.
fn judge_converter(
    list: &mut Vec<Finding>,
    wording: Wording,
    table: &Table,
    place: KeyPlace,
) -> Result<(), AllocError>
    ensures { OnOk result (faults_of list.new.items
        ≡ faults_of list.old.items ++ pin_day_faults place (table_view table.now)) }
{
    let rows = rows_in(table).err();
    note(
        list,
        wording,
        place.at(Key::Rows),
        rows,
        check_rows(wording, table),
    )?;
    let pins = pins_in(table).err();
    note(
        list,
        wording,
        place.at(Key::Pins),
        pins,
        check_pins(wording, table),
    )?;
    let window = shown_letters_in(table, Key::Window).err();
    let checked = check_shown(wording, table, Key::Window);
    note(list, wording, place.at(Key::Window), window, checked)?;
    let letters = letters_at::<2>(table, Key::List).err();
    let checked = check_list_letters(wording, table);
    note(list, wording, place.at(Key::List), letters, checked)
}

/// Says why an entry's model is refused.
fn check_model(wording: Wording, table: &Table) -> Result<(), Slip> {
    model_at(wording, table)?;
    Ok(())
}

/// Says why `item`, an item of the array `day`, is refused: it isn't a table.
fn refuse_entry(wording: Wording, item: &Value) -> Result<(), Slip> {
    refuse(
        SheetFault::BadValue(Key::Day),
        wording.fill(ENTRY_NEEDED, &[kind_of(wording.language, item)]),
    )
}
