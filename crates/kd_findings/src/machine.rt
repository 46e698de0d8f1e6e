//! Finds the faults of a machine file, key by key.
ghost use Rattle.std.specs.Prelude.{◌≡◌, ◌++◌, ◌<◌, nat_le, length, true, IfOk, OnOk};
ghost use Rattle.std.specs.Option.{option_map_or};
ghost use Rattle.toml.specs.View.{table_view};
ghost use Rattle.kd_tables.specs.Tables.{box_of, slots_of};
ghost use Rattle.kd_sheet.specs.Letters.{letters_at};
ghost use Rattle.kd_sheet.specs.declared.key.Key.TheVariants as keys;
ghost use Rattle.kd_sheet.specs.MachineText.{file_version};
ghost use Rattle.kd_findings.specs.Faults.{after_model, fault_at, in_file, model_file_faults};
ghost use Rattle.kd_findings.specs.Faults.{faults_of, file_model, machine_faults, pin_file_faults, rotor_file_faults};

use crate::findings::{Finding, note};
use crate::key_place::KeyPlace;
use crate::texts::NEW_VERSION_NEEDED;
use kd_language::Wording;
use kd_sheet::by_key::{
    bars_in, box_letters_in, cables_in, model_in, number_at, pins_in, reflector_in,
    shown_letters_in, slots_in,
};
use kd_sheet::{Key, LATEST_VERSION, SheetFault, file_version};
use kd_slips::cables::check_machine_cables;
use kd_slips::letters::{check_box_letters, check_shown};
use kd_slips::models::{check_reflector, check_wheels, model_at};
use kd_slips::numbers::check_number;
use kd_slips::pins::{check_bars, check_pins};
use kd_slips::slip::{Slip, refuse};
use kd_tables::{Family, Model};
use std::alloc::AllocError;
use toml::Table;

/// Finds the faults of a machine file.
#[tactic(auto, using(std::proofs::Common::append_assoc), unfolding(crate::specs::Faults::machine_faults))]
pub fn machine_faults(wording: Wording, table: &Table) -> Result<Vec<Finding>, AllocError>
    ensures { IfOk result (λ list. faults_of list.items ≡ machine_faults (table_view table.now)) }
{
    let mut list = Vec::new(wording.alloc);
    let version = number_at(table, Key::Version, LATEST_VERSION).err();
    let checked = check_number(wording, table, Key::Version, LATEST_VERSION);
    note(
        &mut list,
        wording,
        KeyPlace::in_file(Key::Version),
        version,
        checked,
    )?;
    judge_model(&mut list, wording, table)?;
    Ok(list)
}

/// Appends the faults at a machine file's key `model` and at the keys that depend on the model. If the model is
/// refused, appends only its fault.
fn judge_model(list: &mut Vec<Finding>, wording: Wording, table: &Table) -> Result<(), AllocError>
    ensures { OnOk result (faults_of list.new.items ≡ faults_of list.old.items
        ++ after_model (in_file keys.Model) (model_file_faults (table_view table.now))
        (file_model (table_view table.now))) }
{
    match file_model(table) {
        Ok(model) => match model.family() {
            Family::Rotor => judge_rotors(list, wording, table, model),
            Family::Pin => judge_converter(list, wording, table),
        },
        Err(fault) => {
            let place = KeyPlace::in_file(Key::Model);
            note(
                list,
                wording,
                place,
                Some(fault),
                check_model(wording, table),
            )
        }
    }
}

/// The model of a machine file, or the fault of the key `model`.
#[tactic(auto, unfolding(crate::specs::Faults::file_model))]
fn file_model(table: &Table) -> Result<Model, SheetFault>
    ensures { result ≡ file_model (table_view table.now) }
{
    let model = model_in(table)?;
    if !has_model(number_at(table, Key::Version, LATEST_VERSION).ok(), model) {
        return Err(SheetFault::UnknownModel);
    }
    Ok(model)
}

/// Whether a machine file of version `version` can have `model`. Without a version, it can have any model.
fn has_model(version: Option<u8>, model: Model) -> bool
    ensures { result ≡ option_map_or (nat_le (file_version model)) version true }
{
    match version {
        Some(version) => file_version(model) <= version,
        None => true,
    }
}

/// Appends the faults of a rotor machine's file, but no faults at the keys `version` and `model`.
fn judge_rotors(
    list: &mut Vec<Finding>,
    wording: Wording,
    table: &Table,
    model: Model,
) -> Result<(), AllocError>
    requires { 0 < slots_of model }
    ensures { OnOk result (faults_of list.new.items
        ≡ faults_of list.old.items ++ rotor_file_faults model (table_view table.now)) }
{
    let reflector = reflector_in(table, model).err();
    let checked = check_reflector(wording, table, model);
    note(
        list,
        wording,
        KeyPlace::in_file(Key::Reflector),
        reflector,
        checked,
    )?;
    let slots = slots_in(table, Key::Slots, model).err();
    let checked = check_wheels(wording, table, Key::Slots, model);
    note(list, wording, KeyPlace::in_file(Key::Slots), slots, checked)?;
    judge_box_letters(list, wording, table, Key::Rings, model)?;
    judge_box_letters(list, wording, table, Key::Letters, model)?;
    let cables = cables_in(table).err();
    let checked = check_machine_cables(wording, table);
    note(
        list,
        wording,
        KeyPlace::in_file(Key::Cables),
        cables,
        checked,
    )
}

/// If there is a fault at `key`, appends this fault. The value of `key` must have a letter for each wheel of the box.
fn judge_box_letters(
    list: &mut Vec<Finding>,
    wording: Wording,
    table: &Table,
    key: Key,
    model: Model,
) -> Result<(), AllocError>
    requires { 0 < slots_of model }
    ensures { OnOk result (faults_of list.new.items ≡ faults_of list.old.items
        ++ fault_at (in_file key) (letters_at key (length (box_of model)) (table_view table.now))) }
{
    let fault = box_letters_in(table, key, model).err();
    let checked = check_box_letters(wording, table, key, model);
    note(list, wording, KeyPlace::in_file(key), fault, checked)
}

/// Appends the faults of a Converter's file, but no faults at the keys `version` and `model`.
#[tactic(auto, using(std::proofs::Common::append_assoc), unfolding(crate::specs::Faults::pin_file_faults))]
fn judge_converter(
    list: &mut Vec<Finding>,
    wording: Wording,
    table: &Table,
) -> Result<(), AllocError>
    ensures { OnOk result (faults_of list.new.items
        ≡ faults_of list.old.items ++ pin_file_faults (table_view table.now)) }
{
    let letters = shown_letters_in(table, Key::Letters).err();
    let checked = check_shown(wording, table, Key::Letters);
    note(
        list,
        wording,
        KeyPlace::in_file(Key::Letters),
        letters,
        checked,
    )?;
    let pins = pins_in(table).err();
    note(
        list,
        wording,
        KeyPlace::in_file(Key::Pins),
        pins,
        check_pins(wording, table),
    )?;
    let bars = bars_in(table).err();
    note(
        list,
        wording,
        KeyPlace::in_file(Key::Bars),
        bars,
        check_bars(wording, table),
    )
}

/// Says why a machine file's model is refused.
fn check_model(wording: Wording, table: &Table) -> Result<(), Slip> {
    model_at(wording, table)?;
    refuse(
        SheetFault::UnknownModel,
        wording.fill(NEW_VERSION_NEEDED, &[]),
    )
}
