//! Refuses models, reflectors and wheels that the desk doesn't know, or that don't fit together.
ghost use Rattle.std.specs.Prelude.{◌≡◌, IfErr, IsErr, None};
ghost use Rattle.kd_sheet.specs.declared.fault.SheetFault.TheVariants.{BadValue, UnknownModel, WheelNotAllowed};
ghost use Rattle.kd_sheet.specs.declared.fault.SheetFault.TheVariants.{WheelTwice};
ghost use Rattle.kd_slips.specs.Items.{HasFault};
ghost use Rattle.kd_slips.specs.Shown.{box_words, model_with_article};

use crate::slip::{Slip, refuse};
use crate::texts;
use crate::values::{check_count, item_text, items_at, shown, text_at};
use itoa::Buffer;
use kd_language::{Language, Wording};
use kd_sheet::{Key, SheetFault};
use kd_tables::{Model, Reflector, Wheel, allowed, in_box};
use std::alloc::AllocError;
use toml::{Table, Value};

/// The model's name, with an article before it.
pub fn model_name(language: Language, model: Model) -> &'static str
    ensures { result.now ≡ model_with_article language model }
{
    match model {
        Model::EnigmaI => language.text(texts::AN_ENIGMA_I),
        Model::M3 => language.text(texts::AN_M3),
        Model::M4 => language.text(texts::AN_M4),
        Model::M209 => language.text(texts::A_CONVERTER),
    }
}

/// The wheels in the model's box, in words.
pub fn box_words(language: Language, model: Model) -> &'static str
    ensures { result.now ≡ box_words language model }
{
    match model {
        Model::EnigmaI => language.text(texts::BOX_OF_ENIGMA_I),
        Model::M3 => language.text(texts::BOX_OF_M3),
        Model::M4 => language.text(texts::BOX_OF_M4),
        Model::M209 => language.text(texts::BOX_OF_M209),
    }
}

/// The model at the key `model`, or the reason why there is no valid model.
pub fn model_at(wording: Wording, table: &Table) -> Result<Model, Slip> {
    let name = text_at(wording, table, Key::Model)?;
    match Model::from_text(name.as_bytes()) {
        Some(model) => Ok(model),
        None => unknown_model(wording, name),
    }
}

/// Checks that the text at the key `reflector` names one of the model's reflectors.
pub fn check_reflector(wording: Wording, table: &Table, model: Model) -> Result<(), Slip> {
    let name = text_at(wording, table, Key::Reflector)?;
    if has_reflector(model, name) {
        return Ok(());
    }
    let fault = SheetFault::BadValue(Key::Reflector);
    if let Some(reflector) = near_reflector(model, name) {
        return refuse_case(wording, fault, name, reflector.text().as_str());
    }
    refuse(fault, no_reflector_words(wording, model, name))
}

/// Why `name` is refused: none of the model's reflectors has this name.
fn no_reflector_words(wording: Wording, model: Model, name: &str) -> Result<String, AllocError> {
    let name_shown = shown(wording, name)?;
    wording.fill(
        texts::NO_REFLECTOR,
        &[
            name_shown.as_str(),
            model_name(wording.language, model),
            reflector_words(wording.language, model),
        ],
    )
}

/// Checks that the list at `key` has a valid wheel for each slot of the model. In a machine file, a slot may be empty.
pub fn check_wheels(wording: Wording, table: &Table, key: Key, model: Model) -> Result<(), Slip> {
    let items = items_at(wording, table, key)?;
    let slots = usize::from(model.slots());
    check_count(wording, key, items.len(), slots, texts::SLOT_COUNT)?;
    let mut slot = 1;
    for item in items {
        let name = item_text(wording, item, usize::from(slot), SheetFault::BadValue(key))?;
        check_wheel(wording, items, key, model, slot, name)?;
        if slot < 4 {
            slot += 1;
        }
    }
    Ok(())
}

/// The model's reflectors, in words.
fn reflector_words(language: Language, model: Model) -> &'static str {
    language.text(match model {
        Model::EnigmaI => texts::REFLECTORS_OF_ENIGMA_I,
        Model::M3 => texts::REFLECTORS_OF_M3,
        Model::M4 => texts::REFLECTORS_OF_M4,
        Model::M209 => texts::REFLECTORS_OF_M209,
    })
}

/// The model's reflector that has the name `name`, if capital and small letters count as equal.
fn near_reflector(model: Model, name: &str) -> Option<Reflector> {
    for reflector in model.reflectors() {
        if reflector.text().as_str().eq_ignore_ascii_case(name) {
            return Some(*reflector);
        }
    }
    None
}

/// Refuses a name that no model has.
fn unknown_model(wording: Wording, name: &str) -> Result<Model, Slip>
    ensures refused { IsErr result }
    ensures slip { IfErr result (HasFault UnknownModel None) }
{
    let fault = SheetFault::UnknownModel;
    if let Some(model) = near_model(name) {
        return refuse_case(wording, fault, name, model.text().as_str());
    }
    refuse(fault, no_model_words(wording, name))
}

/// Why `name` is refused: no model has this name.
fn no_model_words(wording: Wording, name: &str) -> Result<String, AllocError> {
    let name_shown = shown(wording, name)?;
    wording.fill(texts::NO_MODEL, &[name_shown.as_str()])
}

/// The model that has the name `name`, if capital and small letters count as equal.
fn near_model(name: &str) -> Option<Model> {
    for model in Model::ALL {
        if model.text().as_str().eq_ignore_ascii_case(name) {
            return Some(model);
        }
    }
    None
}

fn has_reflector(model: Model, name: &str) -> bool {
    match Reflector::from_text(name.as_bytes()) {
        Some(reflector) => model.reflectors().contains(&reflector),
        None => false,
    }
}

/// Checks the wheel `name` for slot `slot`, in the list `items` at `key`.
fn check_wheel(
    wording: Wording,
    items: &[Value],
    key: Key,
    model: Model,
    slot: u8,
    name: &str,
) -> Result<(), Slip> {
    if matches!(key, Key::Slots) && name.is_empty() {
        return Ok(());
    }
    let wheel = match Wheel::from_text(name.as_bytes()) {
        Some(wheel) => wheel,
        None => unknown_wheel(wording, name, key, model)?,
    };
    check_allowed(wording, model, slot, wheel)?;
    check_first(wording, items, slot, name)
}

/// Refuses a name that no wheel has.
fn unknown_wheel(wording: Wording, name: &str, key: Key, model: Model) -> Result<Wheel, Slip>
    ensures refused { IsErr result }
    ensures slip { IfErr result (HasFault (BadValue key) None) }
{
    let fault = SheetFault::BadValue(key);
    if let Some(wheel) = near_wheel(name) {
        return refuse_case(wording, fault, name, wheel.text().as_str());
    }
    refuse(fault, no_wheel_words(wording, name, model))
}

/// Why `name` is refused: no wheel has this name.
fn no_wheel_words(wording: Wording, name: &str, model: Model) -> Result<String, AllocError> {
    let name_shown = shown(wording, name)?;
    wording.fill(
        texts::NO_WHEEL,
        &[
            name_shown.as_str(),
            model_name(wording.language, model),
            box_words(wording.language, model),
        ],
    )
}

/// The wheel that has the name `name`, if capital and small letters count as equal.
fn near_wheel(name: &str) -> Option<Wheel> {
    for wheel in Model::M4.wheels() {
        if wheel.text().as_str().eq_ignore_ascii_case(name) {
            return Some(*wheel);
        }
    }
    None
}

/// Refuses `name`, which differs from the name `right` only in capital and small letters.
fn refuse_case<T>(wording: Wording, fault: SheetFault, name: &str, right: &str) -> Result<T, Slip>
    ensures refused { IsErr result }
    ensures slip { IfErr result (HasFault fault None) }
{
    refuse(fault, wording.fill(texts::OTHER_CASE, &[right, name]))
}

/// Checks that `model` allows `wheel` in slot `slot`.
fn check_allowed(wording: Wording, model: Model, slot: u8, wheel: Wheel) -> Result<(), Slip>
    ensures { IfErr result (HasFault WheelNotAllowed None) }
{
    if allowed(model, slot, wheel) {
        return Ok(());
    }
    refuse(
        SheetFault::WheelNotAllowed,
        not_allowed_words(wording, model, slot, wheel),
    )
}

/// Why `wheel` is refused: `model` doesn't allow it in slot `slot`.
fn not_allowed_words(
    wording: Wording,
    model: Model,
    slot: u8,
    wheel: Wheel,
) -> Result<String, AllocError> {
    let name = wheel.text();
    let mut buffer = Buffer::new();
    if in_box(model, wheel) {
        return wording.fill(
            texts::NOT_FOR_SLOT,
            &[
                name.as_str(),
                buffer.format(slot),
                model_name(wording.language, model),
                slot_words(wording.language, model, slot),
            ],
        );
    }
    wording.fill(
        texts::NOT_IN_BOX,
        &[
            name.as_str(),
            model_name(wording.language, model),
            box_words(wording.language, model),
        ],
    )
}

/// The wheels that slot `slot` of the model takes, in words.
fn slot_words(language: Language, model: Model, slot: u8) -> &'static str {
    match model {
        Model::M4 if slot == 1 => language.text(texts::GREEK_WHEELS),
        Model::M4 => box_words(language, Model::M3),
        Model::EnigmaI | Model::M3 | Model::M209 => box_words(language, model),
    }
}

/// If an earlier slot has the wheel `name`, refuses this wheel in slot `slot`.
fn check_first(wording: Wording, items: &[Value], slot: u8, name: &str) -> Result<(), Slip>
    ensures { IfErr result (HasFault WheelTwice None) }
{
    let mut earlier = 1;
    for item in items {
        if earlier < slot {
            if item.as_str() == Some(name) {
                return refuse(
                    SheetFault::WheelTwice,
                    wheel_twice_words(wording, name, earlier, slot),
                );
            }
            earlier += 1;
        }
    }
    Ok(())
}

/// Why the wheel `name` is refused: it is in the slots `earlier` and `slot`.
fn wheel_twice_words(
    wording: Wording,
    name: &str,
    earlier: u8,
    slot: u8,
) -> Result<String, AllocError> {
    let mut earlier_buffer = Buffer::new();
    let mut slot_buffer = Buffer::new();
    wording.fill(
        texts::WHEEL_TWICE,
        &[
            name,
            earlier_buffer.format(earlier),
            slot_buffer.format(slot),
        ],
    )
}
