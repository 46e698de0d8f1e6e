//! A machine in words. There is a line for each slot, cable, pin wheel and bar.
ghost use Rattle.std.specs.Prelude.{codes, ◌≡◌, ◌<◌, ◌++◌, ◌∷◌, [], OnOk, Some, None};
ghost use Rattle.std.specs.List.{flat_map, range_with_len};
ghost use Rattle.std.specs.String.{string_bytes};
ghost use Rattle.kd_tables.specs.Text.{letters_text};
ghost use Rattle.kd_look.specs.MachineWords.{label, letter_words, ring_words, wheel_words, slot_words, cable_line};
ghost use Rattle.kd_look.specs.MachineWords.{cable_words, pin_words, pin_wheel_words, bar_words, thing_words};
ghost use Rattle.kd_look.specs.MachineWords.{things_words, reflector_words, machine_words};

use crate::texts;
use crate::values::{push_letter, push_number, push_two_digits};
use kd_language::Language;
use kd_state::Machine;
use kd_tables::{Letter, Wheel};
use std::alloc::AllocError;

/// A sort of numbered parts of a machine: slots, cables, pin wheels or bars. Each sort is numbered from 1.
#[derive(Clone, Copy)]
pub enum Thing {
    Slot,
    Cable,
    PinWheel,
    Bar,
}

/// Appends a line for the model, the reflector, and each slot, cable, pin wheel and bar of `machine`.
#[tactic(auto, using(std::proofs::Common::append_assoc), unfolding(crate::specs::MachineWords::machine_words))]
pub fn push_machine(
    text: &mut String,
    language: Language,
    machine: &Machine,
) -> Result<(), AllocError>
    ensures { OnOk result (string_bytes text.new
        ≡ string_bytes text.old ++ machine_words language machine.now) }
{
    text.push_str(language.text(texts::MODEL))?;
    text.push_str(machine.model().text().as_str())?;
    text.push_str("\n")?;
    push_reflector(text, language, machine)?;
    push_things(text, language, machine, Thing::Slot, 4)?;
    push_things(text, language, machine, Thing::Cable, 13)?;
    push_things(text, language, machine, Thing::PinWheel, 6)?;
    push_things(text, language, machine, Thing::Bar, 27)
}

/// Appends the lines of the slots, cables, pin wheels or bars, from number 1 to `count`. `thing` says which of
/// the four.
fn push_things(
    text: &mut String,
    language: Language,
    machine: &Machine,
    thing: Thing,
    count: u8,
) -> Result<(), AllocError>
    requires { count < 255 }
    ensures { OnOk result (string_bytes text.new
        ≡ string_bytes text.old ++ things_words language machine.now thing count) }
{
    for index in 0..count {
        push_thing(text, language, machine, thing, index + 1)?;
    }
    Ok(())
}

/// Appends the line of the slot, cable, pin wheel or bar `number`. Appends nothing if the machine doesn't have it.
#[tactic(auto, unfolding(crate::specs::MachineWords::thing_words))]
fn push_thing(
    text: &mut String,
    language: Language,
    machine: &Machine,
    thing: Thing,
    number: u8,
) -> Result<(), AllocError>
    ensures { OnOk result (string_bytes text.new
        ≡ string_bytes text.old ++ thing_words language machine.now thing number) }
{
    match thing {
        Thing::Slot => push_slot(text, language, machine, number),
        Thing::Cable => push_cable(text, language, machine, number),
        Thing::PinWheel => push_pin_wheel(text, language, machine, number),
        Thing::Bar => push_bar(text, language, machine, number),
    }
}

/// If the machine has slot `slot`, appends the line of this slot.
#[tactic(auto, using(std::proofs::Common::append_assoc), unfolding(crate::specs::MachineWords::slot_words))]
fn push_slot(
    text: &mut String,
    language: Language,
    machine: &Machine,
    slot: u8,
) -> Result<(), AllocError>
    ensures { OnOk result (string_bytes text.new
        ≡ string_bytes text.old ++ slot_words language machine.now slot) }
{
    let Some(held) = machine.slot(slot) else {
        return Ok(());
    };
    push_label(text, language.text(texts::SLOT), slot)?;
    match held {
        Some(wheel) => push_wheel(text, language, machine, wheel),
        None => text.push_str(language.text(texts::EMPTY)),
    }
}

/// Appends the words for a wheel: its name, its ring and its window letter.
#[tactic(auto, using(std::proofs::Common::append_assoc), unfolding(crate::specs::MachineWords::wheel_words))]
fn push_wheel(
    text: &mut String,
    language: Language,
    machine: &Machine,
    wheel: Wheel,
) -> Result<(), AllocError>
    ensures { OnOk result
        (string_bytes text.new ≡ string_bytes text.old ++ wheel_words language machine.now wheel) }
{
    text.push_str(language.text(texts::WHEEL))?;
    text.push_str(wheel.text().as_str())?;
    text.push_str(language.text(texts::RING))?;
    push_ring(text, machine.ring(wheel))?;
    text.push_str(language.text(texts::WINDOW))?;
    push_optional_letter(text, machine.letter(wheel))?;
    text.push_str("\n")
}

/// Appends a ring as a letter and as a number.
#[tactic(auto, using(std::proofs::Common::append_assoc), unfolding(crate::specs::MachineWords::ring_words))]
fn push_ring(text: &mut String, ring: Option<Letter>) -> Result<(), AllocError>
    ensures { OnOk result (string_bytes text.new ≡ string_bytes text.old ++ ring_words ring) }
{
    let Some(ring) = ring else {
        return Ok(());
    };
    push_letter(text, ring)?;
    text.push_str(" (")?;
    push_two_digits(text, ring.index() as u8 + 1)?;
    text.push_str(")")
}

/// Appends the letter. If there is no letter, appends nothing.
fn push_optional_letter(text: &mut String, letter: Option<Letter>) -> Result<(), AllocError>
    ensures { OnOk result (string_bytes text.new ≡ string_bytes text.old ++ letter_words letter) }
{
    match letter {
        Some(letter) => push_letter(text, letter),
        None => Ok(()),
    }
}

/// Appends the line of cable `cable`. Appends nothing if the machine doesn't have this cable, or if neither end of the
/// cable has a letter.
#[tactic(auto, unfolding(crate::specs::MachineWords::cable_words))]
fn push_cable(
    text: &mut String,
    language: Language,
    machine: &Machine,
    cable: u8,
) -> Result<(), AllocError>
    ensures { OnOk result
        (string_bytes text.new ≡ string_bytes text.old ++ cable_words language machine.now cable) }
{
    match machine.cable(cable) {
        Some((one, other)) => push_cable_line(text, language, cable, one, other),
        None => Ok(()),
    }
}

/// Appends the line of a cable with the ends `one` and `other`. If neither end has a letter, appends nothing.
#[tactic(auto, using(std::proofs::Common::append_assoc), unfolding(crate::specs::MachineWords::cable_line))]
fn push_cable_line(
    text: &mut String,
    language: Language,
    cable: u8,
    one: Option<Letter>,
    other: Option<Letter>,
) -> Result<(), AllocError>
    ensures { OnOk result (string_bytes text.new
        ≡ string_bytes text.old ++ cable_line language cable one other) }
{
    match (one, other) {
        (Some(one), Some(other)) => push_plugged_cable(text, language, cable, one, other),
        (Some(letter), None) | (None, Some(letter)) => push_loose_cable(
            text, language, cable, letter,
        ),
        (None, None) => Ok(()),
    }
}

/// Appends the line of a cable with a letter at each end.
#[tactic(auto, using(std::proofs::Common::append_assoc), unfolding(crate::specs::MachineWords::cable_line))]
fn push_plugged_cable(
    text: &mut String,
    language: Language,
    cable: u8,
    one: Letter,
    other: Letter,
) -> Result<(), AllocError>
    ensures { OnOk result (string_bytes text.new
        ≡ string_bytes text.old ++ cable_line language cable (Some one) (Some other)) }
{
    push_label(text, language.text(texts::CABLE), cable)?;
    push_letter(text, one)?;
    push_letter(text, other)?;
    text.push_str("\n")
}

/// Appends the line of a cable with one letter.
#[tactic(auto, using(std::proofs::Common::append_assoc), unfolding(crate::specs::MachineWords::cable_line))]
fn push_loose_cable(
    text: &mut String,
    language: Language,
    cable: u8,
    letter: Letter,
) -> Result<(), AllocError>
    ensures one { OnOk result (string_bytes text.new
        ≡ string_bytes text.old ++ cable_line language cable (Some letter) None) }
    ensures other { OnOk result (string_bytes text.new
        ≡ string_bytes text.old ++ cable_line language cable None (Some letter)) }
{
    push_label(text, language.text(texts::CABLE), cable)?;
    push_letter(text, letter)?;
    text.push_str(language.text(texts::FREE_END))
}

/// If the machine has pin wheel `wheel`, appends the line of this wheel.
#[tactic(auto, using(std::proofs::Common::append_assoc), unfolding(crate::specs::MachineWords::pin_wheel_words))]
fn push_pin_wheel(
    text: &mut String,
    language: Language,
    machine: &Machine,
    wheel: u8,
) -> Result<(), AllocError>
    ensures { OnOk result (string_bytes text.new
        ≡ string_bytes text.old ++ pin_wheel_words language machine.now wheel) }
{
    let Some(shown) = machine.shown(wheel) else {
        return Ok(());
    };
    push_label(text, language.text(texts::PIN_WHEEL), wheel)?;
    text.push_str(language.text(texts::SHOWN))?;
    push_letter(text, shown)?;
    text.push_str(language.text(texts::PINS))?;
    push_pins(text, machine, wheel)?;
    text.push_str("\n")
}

/// Appends the letters of the effective pins of pin wheel `wheel`.
fn push_pins(text: &mut String, machine: &Machine, wheel: u8) -> Result<(), AllocError>
    ensures { OnOk result (string_bytes text.new
        ≡ string_bytes text.old ++ flat_map (pin_words machine.now wheel) (range_with_len 0 26)) }
{
    for index in 0..26 {
        push_pin(text, machine, wheel, Letter::at(index))?;
    }
    Ok(())
}

/// If the pin at `letter` of pin wheel `wheel` is effective, appends a space and `letter`.
#[tactic(auto, using(std::proofs::Common::append_assoc), unfolding(crate::specs::MachineWords::pin_words))]
fn push_pin(
    text: &mut String,
    machine: &Machine,
    wheel: u8,
    letter: Letter,
) -> Result<(), AllocError>
    ensures { OnOk result
        (string_bytes text.new ≡ string_bytes text.old ++ pin_words machine.now wheel letter) }
{
    match machine.pin_at(wheel, letter) {
        Some(true) => push_spaced_letter(text, letter),
        _ => Ok(()),
    }
}

#[tactic(auto, using(std::proofs::Common::append_assoc))]
fn push_spaced_letter(text: &mut String, letter: Letter) -> Result<(), AllocError>
    ensures { OnOk result (string_bytes text.new
        ≡ string_bytes text.old ++ (codes " " ++ letters_text (letter ∷ []))) }
{
    text.push_str(" ")?;
    push_letter(text, letter)
}

/// If the machine has bar `bar`, appends the line of this bar.
#[tactic(auto, using(std::proofs::Common::append_assoc), unfolding(crate::specs::MachineWords::bar_words))]
fn push_bar(
    text: &mut String,
    language: Language,
    machine: &Machine,
    bar: u8,
) -> Result<(), AllocError>
    ensures { OnOk result (string_bytes text.new
        ≡ string_bytes text.old ++ bar_words language machine.now bar) }
{
    let Some(standing) = machine.standing(bar) else {
        return Ok(());
    };
    push_label(text, language.text(texts::BAR), bar)?;
    text.push_str(standing.text().as_str())?;
    text.push_str("\n")
}

/// Appends the start of a line: the name and the number of a slot, cable, wheel or bar.
#[tactic(auto, using(std::proofs::Common::append_assoc), unfolding(crate::specs::MachineWords::label))]
fn push_label(text: &mut String, name: &str, number: u8) -> Result<(), AllocError>
    ensures { OnOk result (string_bytes text.new ≡ string_bytes text.old ++ label name.now number) }
{
    text.push_str(name)?;
    text.push_str(" ")?;
    push_number(text, number)?;
    text.push_str(": ")
}

/// If the machine has a reflector, appends the line of the reflector.
fn push_reflector(
    text: &mut String,
    language: Language,
    machine: &Machine,
) -> Result<(), AllocError>
    ensures { OnOk result (string_bytes text.new
        ≡ string_bytes text.old ++ reflector_words language machine.now) }
{
    let Some(reflector) = machine.reflector() else {
        return Ok(());
    };
    text.push_str(language.text(texts::REFLECTOR))?;
    text.push_str(reflector.text().as_str())?;
    text.push_str("\n")
}
