//! The letters on a part's sheet: the letters to set, the letters to press, and the letters that the machine then
//! gives.
ghost use Rattle.std.specs.Prelude.{◌≡◌, ◌≤◌, ◌+◌, ℕ, List, length, Ok};
ghost use Rattle.kd_state.specs.EngineKey.{IsWindow};
ghost use Rattle.kd_state.specs.OwnKeys.{sheet_key};
ghost use Rattle.kd_form.specs.Keys.{AreKeys};
ghost use Rattle.kd_form.specs.InternalKey.{IsInternalKey};
ghost use Rattle.kd_form.specs.PartMaking.{IsKeysAnswer, enciphered_choice, part_size};
ghost use Rattle.kd_part_sheet.specs.PartWork.{IsWork, IsWorkable, pin_work, rotor_work};

use crate::cells::{Cell, push_choice, push_copied, push_pressed};
use arrayvec::ArrayVec;
use kd_form::day_machine::DayMachine;
use kd_form::internal_key::internal_key_of;
use kd_form::keys::{Keys, PinKeys, RotorKeys};
use kd_form::sending::part::{fill_last_group, pin_indicators};
use kd_state::SheetDay;
use kd_tables::Letter;
use std::marker::Model;

/// The letters on a part's sheet: the letters to set, the letters to press, and the letters that the machine then
/// gives.
#[derive(Drop)]
pub struct PartWork {
    /// The windows before the letters `key` are pressed: the ground setting, or the external letters.
    pub ground: ArrayVec<Letter, 6>,
    /// The letters that are pressed to find the enciphered key, the message key, or the internal key.
    pub key: ArrayVec<Cell, 12>,
    /// The windows before the text: the message key, or the internal key.
    pub start: ArrayVec<Letter, 6>,
    /// The letters of the body.
    pub body: ArrayVec<Cell, 520>,
}

impl Model for PartWork {
    ghost use Rattle.kd_part_sheet.specs.PartWork.{Work};

    ghost Value = { Work };

    ghost view = { λ work. record {
      ground = work.ground.items;
      key = work.key.items;
      start = work.start.items;
      body = work.body.items;
    } };
}

/// How `text` is enciphered with `keys`: the letters to set, the letters to press, and their ciphertext.
pub fn work_of(day: &SheetDay, part: u8, keys: &Keys, text: &[Letter]) -> PartWork
    requires keys { AreKeys day.now keys.now }
    requires suits { IsKeysAnswer day.now part keys.now (Ok tt) }
    requires few { length text.now ≤ part_size day.now }
    ensures work { IsWork day.now keys.now text.now result }
    ensures workable { IsWorkable day.now result }
{
    match keys {
        Keys::Rotor(keys) => rotor_work(day, keys, text),
        Keys::Pin(keys) => pin_work(day, keys, text),
    }
}

/// The letters to set, the letters to press, and their ciphertext, on a rotor machine.
fn rotor_work(day: &SheetDay, keys: &RotorKeys, text: &[Letter]) -> PartWork
    requires keys { AreKeys day.now (Keys.Rotor keys.now) }
    requires few { length text.now ≤ 245 }
    ensures { result ≡ rotor_work day.now keys.now text.now }
{
    let ground = keys.ground_setting.as_slice();
    let message_key = keys.message_key.as_slice();
    let mut machine = DayMachine::new(day);
    let enciphered_key = machine.encipher_text::<4>(ground, message_key);
    let lamps = machine.encipher_text::<245>(message_key, text);
    let mut key = ArrayVec::new();
    push_pressed(&mut key, message_key, enciphered_key.as_slice());
    let mut body = ArrayVec::new();
    push_copied(&mut body, &keys.fillers);
    push_copied(&mut body, &keys.group);
    push_pressed(&mut body, text, lamps.as_slice());
    PartWork {
        ground: letters_of(ground),
        key,
        start: letters_of(message_key),
        body,
    }
}

/// The letters to set, the letters to encipher, and their ciphertext, on a Converter.
fn pin_work(day: &SheetDay, keys: &PinKeys, text: &[Letter]) -> PartWork
    requires keys { AreKeys day.now (Keys.Pin keys.now) }
    requires window { IsWindow (sheet_key day.now) keys.now.external }
    requires internal { (internal : List ℕ)
        × IsInternalKey (enciphered_choice day.now keys.now) internal }
    requires few { length text.now ≤ 500 }
    ensures { (internal : List ℕ) × IsInternalKey (enciphered_choice day.now keys.now) internal
        × (result ≡ pin_work day.now keys.now internal text.now) }
{
    let mut machine = DayMachine::new(day);
    let internal = internal_key_of(&mut machine, keys).unwrap();
    pin_work_from(day, keys, internal.as_slice(), text)
}

/// The letters to set, the letters to encipher, and their ciphertext, on a Converter. `internal` is the internal key.
fn pin_work_from(day: &SheetDay, keys: &PinKeys, internal: &[Letter], text: &[Letter]) -> PartWork
    requires keys { AreKeys day.now (Keys.Pin keys.now) }
    requires window { IsWindow (sheet_key day.now) keys.now.external }
    requires internal { IsWindow (sheet_key day.now) internal.now }
    requires short { length internal.now ≤ 6 }
    requires few { length text.now ≤ 500 }
    ensures { result ≡ pin_work day.now keys.now internal.now text.now }
{
    let mut machine = DayMachine::new(day);
    let printed = machine.encipher_text::<12>(&keys.external, &[keys.chosen; 12]);
    let filled = fill_last_group(text);
    let enciphered = machine.encipher_text::<500>(internal, filled.as_slice());
    let indicators = pin_indicators(day, keys);
    let mut key = ArrayVec::new();
    push_choice(&mut key, 0, keys.chosen, printed.as_slice());
    let mut body = ArrayVec::new();
    push_copied(&mut body, indicators.as_slice());
    push_pressed(&mut body, filled.as_slice(), enciphered.as_slice());
    push_copied(&mut body, indicators.as_slice());
    PartWork {
        ground: letters_of(&keys.external),
        key,
        start: letters_of(internal),
        body,
    }
}

/// Copies the letters into a vector.
pub fn letters_of(letters: &[Letter]) -> ArrayVec<Letter, 6>
    requires { length letters.now ≤ 6 }
    ensures { result.items ≡ letters.now }
{
    let mut list = ArrayVec::new();
    list.try_extend_from_slice(letters).unwrap();
    list
}
