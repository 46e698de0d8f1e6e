//! The lines of keys in an order: the pattern of a line, and the keys that are made from a line's letters.
ghost use Rattle.std.specs.Prelude.{◌≡◌, ◌≤◌, ◌+◌, ◌⊎◌, ◌++◌, ◌∷◌, length};
ghost use Rattle.kd_state.specs.Machine.{AreLetters};
ghost use Rattle.kd_form.specs.Keys.{AreKeys, AreRotorKeys, ArePinKeys};
ghost use Rattle.kd_form.specs.Patterns.{blank_count};
ghost use Rattle.kd_form.specs.KeyPatterns.{key_pattern, key_letters};

use crate::day_machine::slots_of;
use crate::keys::{Keys, PinKeys, RotorKeys};
use kd_state::{PerSlot, SheetDay};
use kd_tables::Letter;

/// The pattern of a line of keys for the day's model, with `_` for each letter.
pub(crate) fn key_pattern(day: &SheetDay) -> &'static [u8]
    ensures pattern { result.now ≡ key_pattern day.now }
    ensures few { blank_count (key_pattern day.now) ≤ 13 }
    ensures short { length (key_pattern day.now) ≤ 21 }
{
    match slots_of(day) {
        Some(3) => b"PART ___ ___ __ ___",
        Some(_) => b"PART ____ ____ __ ___",
        None => b"PART _ ______",
    }
}

/// Makes keys from `letters`, the letters of a line of keys in their order.
pub(crate) fn keys_of_letters(day: &SheetDay, letters: &[Letter]) -> Keys
    requires { AreLetters (blank_count (key_pattern day.now)) letters.now }
    ensures letters { key_letters result ≡ letters.now }
    ensures keys { AreKeys day.now result }
{
    match slots_of(day) {
        Some(slots) => Keys::Rotor(rotor_keys(slots, letters)),
        None => Keys::Pin(pin_keys(letters)),
    }
}

/// Makes the keys for a rotor machine with `slots` slots from the letters of a line of keys.
fn rotor_keys(slots: usize, letters: &[Letter]) -> RotorKeys
    requires slots { (slots ≡ 3) ⊎ (slots ≡ 4) }
    requires letters { AreLetters (slots + slots + 5) letters.now }
    ensures letters { letters.now
        ≡ result.ground_setting ++ (result.message_key ++ (result.fillers ++ result.group)) }
    ensures keys { AreRotorKeys slots result }
{
    let (ground_setting, rest) = letters.split_at(slots);
    let (message_key, rest) = rest.split_at(slots);
    let (fillers, group) = rest.split_at(2);
    let ground_setting = PerSlot::new(ground_setting).unwrap();
    let message_key = PerSlot::new(message_key).unwrap();
    let fillers = <[Letter; 2]>::try_from(fillers).unwrap();
    let group = <[Letter; 3]>::try_from(group).unwrap();
    RotorKeys {
        ground_setting,
        message_key,
        fillers,
        group,
    }
}

/// Makes the keys for the Converter M-209 from the letters of a line of keys.
fn pin_keys(letters: &[Letter]) -> PinKeys
    requires { AreLetters 7 letters.now }
    ensures letters { letters.now ≡ result.chosen ∷ result.external }
    ensures keys { ArePinKeys result }
{
    let chosen = letters[0];
    let external = <[Letter; 6]>::try_from(&letters[1..]).unwrap();
    PinKeys { chosen, external }
}
