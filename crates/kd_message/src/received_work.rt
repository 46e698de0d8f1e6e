//! What the operator does for a received part: the letters to press, and the letters that the machine then shows.
ghost use Rattle.std.specs.Prelude.{◌≡◌};
ghost use Rattle.kd_state.specs.EngineKey.{IsWindow};
ghost use Rattle.kd_state.specs.OwnKeys.{sheet_key};
ghost use Rattle.kd_form.specs.BodyCipher.{HasIndicator};
ghost use Rattle.kd_part_sheet.specs.PartWork.{IsWorkable};
ghost use Rattle.kd_message.specs.ReceivedWork.{AreShowable, pin_body, pin_received, received_work, rotor_received};

use arrayvec::ArrayVec;
use kd_form::day_machine::DayMachine;
use kd_form::heading::Indicator;
use kd_form::text_bytes::space_letter;
use kd_lost::{DamagedText, PinTextKeys, TextKeys};
use kd_part_sheet::cells::{Cell, push_choice, push_pressed, push_received, push_skipped};
use kd_part_sheet::part_work::{PartWork, letters_of};
use kd_state::SheetDay;

/// The letters to press, and the letters that light up, when a part is deciphered to `shown`.
pub(crate) fn received_work(day: &SheetDay, shown: &DamagedText) -> PartWork
    requires { AreShowable day.now shown.now.keys }
    ensures work { result ≡ received_work day.now shown.now }
    ensures workable { IsWorkable day.now result }
{
    match &shown.keys {
        TextKeys::Rotor(indicator) => rotor_received(day, indicator, shown),
        TextKeys::Pin(keys) => pin_received(day, keys, shown),
    }
}

/// The letters to press, and the letters that light up, on a rotor machine.
#[tactic(auto, using(kd_form::proofs::MadeParts::key_is_window))]
fn rotor_received(day: &SheetDay, indicator: &Indicator, shown: &DamagedText) -> PartWork
    requires { HasIndicator day.now (Some indicator.now) }
    ensures work { result ≡ rotor_received day.now indicator.now shown.now }
    ensures workable { IsWorkable day.now result }
{
    prove!(indicator.enciphered_key.as_slice().len() <= 4);
    let ground = indicator.ground_setting.as_slice();
    let enciphered_key = indicator.enciphered_key.as_slice();
    let received = shown.received.as_slice();
    let (front, rest) = received.split_at(received.len().min(5));
    let mut machine = DayMachine::new(day);
    let message_key = machine.encipher_text::<4>(ground, enciphered_key);
    let mut key = ArrayVec::new();
    push_pressed(&mut key, enciphered_key, message_key.as_slice());
    let mut body = ArrayVec::new();
    push_skipped(&mut body, front);
    push_received(&mut body, &None, rest, shown.letters.as_slice());
    PartWork {
        ground: letters_of(ground),
        key,
        start: letters_of(message_key.as_slice()),
        body,
    }
}

/// On a Converter: the letters to encipher or decipher, and the letters that are printed.
fn pin_received(day: &SheetDay, keys: &PinTextKeys, shown: &DamagedText) -> PartWork
    requires external { IsWindow (sheet_key day.now) keys.now.indicator.external }
    requires internal { IsWindow (sheet_key day.now) keys.now.internal.items }
    ensures work { result ≡ pin_received day.now keys.now shown.now }
    ensures workable { IsWorkable day.now result }
{
    let external = &keys.indicator.external;
    let chosen = keys.indicator.chosen;
    let mut machine = DayMachine::new(day);
    let printed = machine.encipher_text::<12>(external, &[chosen; 12]);
    let mut key = ArrayVec::new();
    push_choice(&mut key, 0, chosen, printed.as_slice());
    PartWork {
        ground: letters_of(external),
        key,
        start: letters_of(keys.internal.as_slice()),
        body: pin_body(day, shown),
    }
}

/// The cells of a Converter's body: the indicators at both ends are skipped, the other letters deciphered.
fn pin_body(day: &SheetDay, shown: &DamagedText) -> ArrayVec<Cell, 520>
    ensures { result.items ≡ pin_body day.now shown.now }
{
    let received = shown.received.as_slice();
    let end = received.len().saturating_sub(10);
    let (front, from_text) = received.split_at(received.len().min(10));
    let (text, _) = from_text.split_at(end.saturating_sub(10));
    let (_, back) = received.split_at(end);
    let mut body = ArrayVec::new();
    push_skipped(&mut body, front);
    push_received(
        &mut body,
        &space_letter(day),
        text,
        shown.letters.as_slice(),
    );
    push_skipped(&mut body, back);
    body
}
