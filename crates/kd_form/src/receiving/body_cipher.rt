//! Reads the letters of a part's body: tests the indicators and the group, and deciphers the text.
ghost use Rattle.std.specs.Prelude.{◌≡◌, ◌<◌, ◌≤◌, ◌↔◌, Some, length, IsTrue, MatchResult};
ghost use Rattle.kd_form.specs.BodyCipher.{HasIndicator, IsRotorAnswer, IsPinAnswer};
ghost use Rattle.kd_form.specs.BodyCipher.{HasIndicatorsAround, keys_of_body, list_of_body, IsPinTextAnswer};
ghost use Rattle.kd_form.specs.PartMaking.{list_letters};
ghost use Rattle.kd_state.specs.EngineKey.{IsWindow};
ghost use Rattle.kd_state.specs.OwnKeys.{sheet_key};
ghost use Rattle.kd_form.specs.KeyPatterns.{IsConverterDay};
ghost use Rattle.kd_form.specs.FormParts.{IsHeading};
ghost use Rattle.kd_form.specs.PartReading.{IsBodyAnswer};

use crate::day_machine::{DayMachine, slots_of};
use crate::fault::FormFault;
use crate::heading::{Heading, Indicator};
use crate::internal_key::internal_key_of;
use crate::keys::PinKeys;
use arrayvec::ArrayVec;
use kd_state::SheetDay;
use kd_tables::Letter;

/// Tests the group of a rotor machine's message part, and deciphers the letters after the group.
fn decipher_rotor_body(
    day: &SheetDay,
    part: u8,
    indicator: &Indicator,
    letters: &[Letter],
) -> Result<ArrayVec<Letter, 500>, FormFault>
    requires indicator { HasIndicator day.now (Some indicator.now) }
    requires some { 5 ≤ length letters.now }
    requires few { length letters.now ≤ 250 }
    ensures { MatchResult result
        (λ text. IsRotorAnswer day.now part indicator.now letters.now (Ok text.items))
        (λ fault. IsRotorAnswer day.now part indicator.now letters.now (Err fault)) }
{
    prove!(indicator.enciphered_key.as_slice().len() <= 4);
    let group = <[Letter; 3]>::try_from(&letters[2..5]).unwrap();
    if !day.has_group(group) {
        return Err(FormFault::WrongGroup(part));
    }
    let mut machine = DayMachine::new(day);
    let message_key = machine.encipher_text::<4>(
        indicator.ground_setting.as_slice(),
        indicator.enciphered_key.as_slice(),
    );
    Ok(machine.encipher_text(message_key.as_slice(), &letters[5..]))
}

/// Whether the last ten letters repeat the first ten, and the first two letters are equal.
fn has_indicators_around(letters: &[Letter]) -> bool
    requires { 20 ≤ length letters.now }
    ensures { IsTrue result ↔ HasIndicatorsAround letters.now }
{
    letters[..10] == letters[letters.len() - 10..] && letters[0] == letters[1]
}

/// The keys in the indicators at the start of `letters`.
fn keys_of_body(letters: &[Letter]) -> PinKeys
    requires { 20 ≤ length letters.now }
    ensures { result ≡ keys_of_body letters.now }
{
    let chosen = letters[1];
    let external = <[Letter; 6]>::try_from(&letters[2..8]).unwrap();
    PinKeys { chosen, external }
}

/// Whether the list letters in the indicators are the day's list letters.
fn has_list_letters(day: &SheetDay, letters: &[Letter]) -> bool
    requires pins { IsConverterDay day.now }
    requires some { 20 ≤ length letters.now }
    ensures { IsTrue result ↔ list_of_body letters.now ≡ list_letters day.now }
{
    let due = day.list().unwrap();
    letters[8..10] == due[..]
}

/// Deciphers `text` with the internal key that `keys` give.
fn decipher_pin_text(
    machine: &mut DayMachine,
    part: u8,
    keys: &PinKeys,
    text: &[Letter],
) -> Result<ArrayVec<Letter, 500>, FormFault>
    requires pins { IsConverterDay machine.old }
    requires window { IsWindow (sheet_key machine.old) keys.now.external }
    requires few { length text.now ≤ 500 }
    ensures { MatchResult result
        (λ plain. IsPinTextAnswer machine.old part keys.now text.now (Ok plain.items))
        (λ fault. IsPinTextAnswer machine.old part keys.now text.now (Err fault)) }
{
    match internal_key_of(machine, keys) {
        Some(internal) => Ok(machine.encipher_text(internal.as_slice(), text)),
        None => Err(FormFault::IndicatorSpent(part)),
    }
}

/// Tests the indicators of a Converter M-209's part, and deciphers the letters between the indicators.
fn decipher_pin_body(
    day: &SheetDay,
    part: u8,
    letters: &[Letter],
) -> Result<ArrayVec<Letter, 500>, FormFault>
    requires pins { IsConverterDay day.now }
    requires some { 20 ≤ length letters.now }
    requires few { length letters.now ≤ 520 }
    ensures { MatchResult result
        (λ text. IsPinAnswer day.now part letters.now (Ok text.items))
        (λ fault. IsPinAnswer day.now part letters.now (Err fault)) }
{
    if !has_indicators_around(letters) {
        return Err(FormFault::IndicatorsDiffer(part));
    }
    let keys = keys_of_body(letters);
    let mut machine = DayMachine::new(day);
    if !machine.can_show(&keys.external) {
        return Err(FormFault::KeyNotOnWheel);
    }
    if !has_list_letters(day, letters) {
        return Err(FormFault::WrongGroup(part));
    }
    decipher_pin_text(&mut machine, part, &keys, &letters[10..letters.len() - 10])
}

/// Deciphers `letters`, the body of the part with the heading `heading`.
///
/// If the body is too long, its last letters may be missing in `letters`. Even then, `letters` must have more letters
/// than any heading allows, so that the fault is `CountWrong`.
pub(crate) fn decipher_body(
    day: &SheetDay,
    heading: &Heading,
    letters: &[Letter],
) -> Result<ArrayVec<Letter, 500>, FormFault>
    requires { IsHeading day.now heading.now }
    ensures { MatchResult result
        (λ text. IsBodyAnswer day.now heading.now.part heading.now letters.now (Ok text.items))
        (λ fault. IsBodyAnswer day.now heading.now.part heading.now letters.now (Err fault)) }
{
    if letters.len() != heading.letters {
        return Err(FormFault::CountWrong(heading.part));
    }
    prove!(slots_of(day) != Some(0));
    match &heading.indicator {
        Some(indicator) => decipher_rotor_body(day, heading.part, indicator, letters),
        None => decipher_pin_body(day, heading.part, letters),
    }
}
