//! Makes one part of a form from the part's keys and the part's piece of the text.
ghost use Rattle.std.specs.Prelude.{◌≡◌, ◌≤◌, ℕ, List, length, Ok};
ghost use Rattle.kd_state.specs.EngineKey.{IsWindow};
ghost use Rattle.kd_state.specs.OwnKeys.{sheet_key};
ghost use Rattle.kd_form.specs.InternalKey.{IsInternalKey};
ghost use Rattle.kd_form.specs.Keys.{AreKeys};
ghost use Rattle.kd_form.specs.Part.{part_text};
ghost use Rattle.kd_form.specs.PartMaking.{IsKeysAnswer, IsPartTextMade, part_of, part_size, indicator_of};
ghost use Rattle.kd_form.specs.PartMaking.{rotor_letters};
ghost use Rattle.kd_form.specs.PartMaking.{enciphered_choice, pin_indicators, pin_letters, fill_last_group};

use super::body_writer::push_body;
use super::heading_writer::push_heading;
use crate::bounded_list::append_letters;
use crate::day_machine::DayMachine;
use crate::heading::{Heading, Indicator};
use crate::internal_key::internal_key_of;
use crate::keys::{Keys, PinKeys, RotorKeys};
use arrayvec::{ArrayString, ArrayVec};
use kd_state::{PerSlot, SheetDay};
use kd_tables::Letter;

/// An upper bound for the bytes of a part: a heading line, and 520 letters in groups of five.
pub(crate) const LONGEST_PART: usize = 1100;

/// The greatest number of letters of text that a part can have.
pub fn part_size(day: &SheetDay) -> usize
    ensures value { result ≡ part_size day.now }
    ensures some { 245 ≤ result }
    ensures few { result ≤ 500 }
{
    match day.list() {
        Some(_) => 500,
        None => 245,
    }
}

/// Writes part number `part` of `parts`: a heading line, and `text` enciphered with `keys`.
pub(crate) fn make_part(
    day: &SheetDay,
    part: u8,
    parts: u8,
    keys: &Keys,
    text: &[Letter],
) -> ArrayString<LONGEST_PART>
    requires keys { AreKeys day.now keys.now }
    requires suits { IsKeysAnswer day.now part keys.now (Ok tt) }
    requires few { length text.now ≤ part_size day.now }
    ensures { IsPartTextMade day.now part parts keys.now text.now result.bytes }
{
    let mut machine = DayMachine::new(day);
    match keys {
        Keys::Rotor(keys) => {
            let indicator = indicator_of(&mut machine, keys);
            let letters = rotor_letters(&mut machine, keys, text);
            part_text(part, parts, Some(indicator), letters.as_slice())
        }
        Keys::Pin(keys) => {
            let letters = pin_letters(&mut machine, keys, text);
            part_text(part, parts, None, letters.as_slice())
        }
    }
}

/// Writes part number `part` of `parts`: a heading line, and `letters` as the body.
fn part_text(
    part: u8,
    parts: u8,
    indicator: Option<Indicator>,
    letters: &[Letter],
) -> ArrayString<LONGEST_PART>
    requires { length letters.now ≤ 520 }
    ensures { result.bytes ≡ part_text (part_of part parts indicator letters.now) }
{
    let heading = Heading {
        part,
        parts,
        letters: letters.len(),
        indicator,
    };
    let mut text = ArrayString::new();
    push_heading(&mut text, &heading);
    push_body(&mut text, letters);
    text
}

/// The indicator: the ground setting, and the message key enciphered with the ground setting in the windows.
#[tactic(auto, using(crate::proofs::MadeParts::enciphered_length))]
pub fn indicator_of(machine: &mut DayMachine, keys: &RotorKeys) -> Indicator
    requires { AreKeys machine.old (Keys.Rotor keys.now) }
    ensures day { machine.new ≡ machine.old }
    ensures value { result ≡ indicator_of machine.old keys.now }
{
    prove!(keys.message_key.as_slice().len() <= 4);
    let enciphered_key = machine.encipher_text::<4>(
        keys.ground_setting.as_slice(),
        keys.message_key.as_slice(),
    );
    Indicator {
        ground_setting: keys.ground_setting,
        enciphered_key: PerSlot::new(enciphered_key.as_slice()).unwrap(),
    }
}

/// The body of a rotor machine's message part: two fillers, the group, and `text` enciphered with the message key.
pub fn rotor_letters(
    machine: &mut DayMachine,
    keys: &RotorKeys,
    text: &[Letter],
) -> ArrayVec<Letter, 520>
    requires keys { AreKeys machine.old (Keys.Rotor keys.now) }
    requires few { length text.now ≤ 245 }
    ensures value { result.items ≡ rotor_letters machine.old keys.now text.now }
    ensures few { length result.items ≤ 520 }
{
    let enciphered = machine.encipher_text::<245>(keys.message_key.as_slice(), text);
    let mut letters = ArrayVec::new();
    append_letters(&mut letters, &keys.fillers);
    append_letters(&mut letters, &keys.group);
    append_letters(&mut letters, enciphered.as_slice());
    letters
}

/// The body of a part on the Converter M-209: `text` enciphered, with the indicators before and after it.
pub fn pin_letters(
    machine: &mut DayMachine,
    keys: &PinKeys,
    text: &[Letter],
) -> ArrayVec<Letter, 520>
    requires keys { AreKeys machine.old (Keys.Pin keys.now) }
    requires window { IsWindow (sheet_key machine.old) keys.now.external }
    requires internal { (internal : List ℕ)
        × IsInternalKey (enciphered_choice machine.old keys.now) internal }
    requires few { length text.now ≤ 500 }
    ensures value { (internal : List ℕ)
        × IsInternalKey (enciphered_choice machine.old keys.now) internal
        × (result.items ≡ pin_letters machine.old keys.now internal text.now) }
    ensures few { length result.items ≤ 520 }
{
    let internal = internal_key_of(machine, keys).unwrap();
    let text = fill_last_group(text);
    let enciphered = machine.encipher_text::<500>(internal.as_slice(), text.as_slice());
    let indicators = pin_indicators(machine.day, keys);
    let mut letters = ArrayVec::new();
    append_letters(&mut letters, indicators.as_slice());
    append_letters(&mut letters, enciphered.as_slice());
    append_letters(&mut letters, indicators.as_slice());
    letters
}

/// The ten indicators: the chosen letter twice, the external letters, and the day's two list letters.
pub fn pin_indicators(day: &SheetDay, keys: &PinKeys) -> ArrayVec<Letter, 10>
    requires { AreKeys day.now (Keys.Pin keys.now) }
    ensures value { result.items ≡ pin_indicators day.now keys.now }
    ensures ten { length result.items ≡ 10 }
{
    let list = day.list().unwrap();
    let mut indicators = ArrayVec::new();
    indicators.push(keys.chosen);
    indicators.push(keys.chosen);
    append_letters(&mut indicators, &keys.external);
    append_letters(&mut indicators, &list);
    indicators
}

/// `text`, with X appended until the last group of five letters is full.
pub fn fill_last_group(text: &[Letter]) -> ArrayVec<Letter, 500>
    requires { length text.now ≤ 500 }
    ensures { result.items ≡ fill_last_group text.now }
{
    let filler = Letter::from_byte(b'X').unwrap();
    let missing = (5 - text.len() % 5) % 5;
    let mut letters = ArrayVec::new();
    append_letters(&mut letters, text);
    for _ in 0..missing {
        letters.push(filler);
    }
    letters
}
