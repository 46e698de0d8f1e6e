//! Deciphers the letters of a body in which letters were lost.
ghost use Rattle.std.specs.Prelude.{◌≡◌, ◌≤◌, ◌-◌, ◌+◌, ◌++◌, ◌<◌, ℕ, List, length, map, drop, take, Some, None, Ok};
ghost use Rattle.std.specs.Prelude.{MatchOption};
ghost use Rattle.kd_state.specs.EngineKey.{IsWindow};
ghost use Rattle.kd_state.specs.OwnKeys.{sheet_key};
ghost use Rattle.kd_form.specs.BodyCipher.{HasIndicator};
ghost use Rattle.kd_form.specs.InternalKey.{IsInternalKey, HaveNoInternalKey};
ghost use Rattle.kd_form.specs.KeyPatterns.{IsConverterDay};
ghost use Rattle.kd_form.specs.PartMaking.{cipher_from, enciphered_choice};
ghost use Rattle.kd_lost.specs.Lost.{Completes, covered, filled};
ghost use Rattle.kd_lost.specs.DamagedText.{IsTextShown, IsDamagedLettersAnswer, IsKeyedTextAnswer};

use crate::copies::keys_of_copies;
use crate::damage::PartDamage;
use crate::damaged_text::{DamagedText, LostCopies, PinTextKeys, TextKeys};
use crate::warnings::{has_lost_letter, test_group, test_list};
use arrayvec::ArrayVec;
use kd_form::day_machine::DayMachine;
use kd_form::heading::Indicator;
use kd_form::internal_key::internal_key_of;
use kd_form::keys::PinKeys;
use kd_state::SheetDay;
use kd_tables::Letter;

/// Deciphers the letters of a message part that was enciphered on a rotor machine. Lost letters stay lost.
pub(crate) fn decipher_rotor(
    day: &SheetDay,
    indicator: &Indicator,
    received: &[Option<Letter>],
) -> DamagedText
    requires indicator { HasIndicator day.now (Some indicator.now) }
    requires some { 5 ≤ length received.now }
    requires few { length received.now ≤ 250 }
    ensures { IsTextShown day.now (Some indicator.now) received.now result }
{
    prove!(indicator.enciphered_key.as_slice().len() <= 4);
    let mut machine = DayMachine::new(day);
    let message_key = machine.encipher_text::<4>(
        indicator.ground_setting.as_slice(),
        indicator.enciphered_key.as_slice(),
    );
    DamagedText {
        letters: decipher_covered(&mut machine, message_key.as_slice(), &received[5..]),
        received: list_of(received),
        keys: TextKeys::Rotor(*indicator),
        group: test_group(day, &received[2..5]),
        copies: None,
    }
}

/// Deciphers the letters of a Converter's part; lost letters stay lost.
pub(crate) fn decipher_pin(
    day: &SheetDay,
    received: &[Option<Letter>],
) -> Result<DamagedText, PartDamage>
    requires pins { IsConverterDay day.now }
    requires some { 20 ≤ length received.now }
    requires few { length received.now ≤ 520 }
    ensures { IsDamagedLettersAnswer day.now None received.now result }
{
    let (_, end) = received.split_at(received.len() - 10);
    let keys = keys_of_copies(&received[..8], &end[..8])?;
    let text = &received[10..received.len() - 10];
    let (letters, internal) = decipher_with_keys(day, &keys, text)?;
    let (_, list) = end.split_at(8);
    Ok(DamagedText {
        letters,
        received: list_of(received),
        keys: TextKeys::Pin(PinTextKeys {
            indicator: keys,
            internal,
        }),
        group: test_list(day, &received[8..10], list),
        copies: Some(LostCopies {
            at_start: has_lost_letter(&received[..10]),
            at_end: has_lost_letter(end),
        }),
    })
}

/// Copies the letters into a vector.
fn list_of(received: &[Option<Letter>]) -> ArrayVec<Option<Letter>, 520>
    requires { length received.now ≤ 520 }
    ensures { result.items ≡ received.now }
{
    let mut list = ArrayVec::new();
    list.try_extend_from_slice(received).unwrap();
    list
}

/// Deciphers `received`, the letters of a Converter's text, with `keys`; lost letters stay lost.
///
/// Also returns the internal key.
fn decipher_with_keys(
    day: &SheetDay,
    keys: &PinKeys,
    received: &[Option<Letter>],
) -> Result<(ArrayVec<Option<Letter>, 500>, ArrayVec<Letter, 6>), PartDamage>
    requires few { length received.now ≤ 500 }
    ensures { IsKeyedTextAnswer day.now keys.now received.now result }
{
    let mut machine = DayMachine::new(day);
    if !machine.can_show(&keys.external) {
        return Err(PartDamage::KeyNotOnWheel);
    }
    match internal_key_of(&mut machine, keys) {
        Some(internal) => {
            let shown = decipher_covered(&mut machine, internal.as_slice(), received);
            Ok((shown, internal))
        }
        None => Err(PartDamage::NoInternalKey),
    }
}

/// Deciphers `received`; at the start, the windows show the letters `window`. Lost letters stay lost.
fn decipher_covered(
    machine: &mut DayMachine,
    window: &[Letter],
    received: &[Option<Letter>],
) -> ArrayVec<Option<Letter>, 500>
    requires window { IsWindow (sheet_key machine.old) window.now }
    requires few { length received.now ≤ 500 }
    ensures { (whole : List ℕ) → Completes received.now whole
        → result.items ≡ covered received.now (cipher_from machine.old window.now whole) }
{
    let text = machine.encipher_text::<500>(window, filled(received).as_slice());
    let mut shown = ArrayVec::new();
    push_covered(&mut shown, received, text.as_slice());
    shown
}

/// `received`, with A in place of each lost letter.
fn filled(received: &[Option<Letter>]) -> ArrayVec<Letter, 500>
    requires { length received.now ≤ 500 }
    ensures { result.items ≡ filled received.now }
{
    let mut letters = ArrayVec::new();
    for got in received {
        letters.push(got.unwrap_or(Letter::A));
    }
    letters
}

/// Appends the letters of `text`, with `None` where `received` has a lost letter.
fn push_covered(
    shown: &mut ArrayVec<Option<Letter>, 500>,
    received: &[Option<Letter>],
    text: &[Letter],
)
    requires { length shown.old.items + length received.now ≤ 500 }
    ensures { shown.new.items ≡ shown.old.items ++ covered received.now text.now }
{
    if let [got, received @ ..] = received
        && let [letter, text @ ..] = text
    {
        shown.push(got.map(|_| *letter));
        push_covered(shown, received, text);
    }
}
