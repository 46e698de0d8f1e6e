//! Reads the letters that the Converter's six wheels show, and the wheels' effective pins.
ghost use Rattle.std.specs.Prelude.{◌≡◌, ◌==◌, ◌+◌, ◌<◌, length, map, ok_or};
ghost use Rattle.std.specs.List.{enumerate_from, list_all, position};
ghost use Rattle.toml.specs.View.{view, table_view};
ghost use Rattle.kd_tables.specs.Rings.{ring_of};
ghost use Rattle.kd_tables.specs.Pairs.{has_letter};
ghost use Rattle.kd_sheet.specs.Document.{from_text};
ghost use Rattle.kd_sheet.specs.PinWheels.{shown_letters_in, pins_of_text, pins_of_items, pins_in};
ghost use Rattle.kd_sheet.specs.declared.fault.SheetFault.TheVariants as faults;
ghost use Rattle.kd_sheet.specs.declared.key.Key.TheVariants as keys;

use super::letters::letters_at;
use crate::document::items_at;
use crate::{Key, SheetFault};
use kd_pins::PinSet;
use kd_tables::{Letter, Ring, place_on_wheel, ring1, ring2, ring3, ring4, ring5, ring6};
use toml::{Table, Value};

/// Reads the text at `key`: the letters that the six wheels show, from wheel 1 to wheel 6.
#[tactic(auto, unfolding(crate::specs::PinWheels::shown_letters_in))]
pub fn shown_letters_in(table: &Table, key: Key) -> Result<[Letter; 6], SheetFault>
    ensures { result ≡ shown_letters_in key (table_view table.now) }
{
    let letters = letters_at(table, key)?;
    if !are_on_wheels(1, &letters) {
        return Err(SheetFault::BadValue(key));
    }
    Ok(letters)
}

/// Reads the effective pins of a wheel from `text`, which has the letters of these pins; no letter may come twice.
pub fn pins_of_text<const N: usize>(ring: &Ring<N>, text: &[u8]) -> Option<[bool; N]>
    ensures { result ≡ pins_of_text ring.now text.now }
{
    let letters = ring.letters();
    let mut pins = [false; N];
    for byte in text {
        let index = index_of_byte(&letters, *byte)?;
        if pins[index] {
            return None;
        }
        pins[index] = true;
    }
    Some(pins)
}

/// Reads the effective pins of the six wheels, from an array with an item for each wheel.
#[tactic(auto, unfolding(crate::specs::PinWheels::pins_in))]
pub fn pins_in(table: &Table) -> Result<PinSet, SheetFault>
    ensures { result ≡ pins_in (table_view table.now) }
{
    let items = items_at(table, Key::Pins)?.as_slice();
    let [one, two, three, four, five, six] = items else {
        return Err(SheetFault::BadValue(Key::Pins));
    };
    pins_of_items([one, two, three, four, five, six]).ok_or(SheetFault::BadValue(Key::Pins))
}

/// Whether each of `letters` is on its wheel: the first letter on wheel `wheel`, the second letter on the next wheel,
/// and so on.
#[tactic(auto, using(kd_state::proofs::Slots::on_wheels))]
fn are_on_wheels(wheel: u8, letters: &[Letter]) -> bool
    requires { wheel + length letters.now < 256 }
    ensures { result ≡ list_all (λ numbered. has_letter (ring_of numbered.0) numbered.1)
        (enumerate_from wheel letters.now) }
{
    match letters {
        [first, rest @ ..] => {
            place_on_wheel(wheel, *first).is_some() && are_on_wheels(wheel + 1, rest)
        }
        [] => true,
    }
}

/// Reads the effective pins of the six wheels: the first of `items` is a text of wheel 1's pins, and so on.
fn pins_of_items(items: [&Value; 6]) -> Option<PinSet>
    ensures { ok_or result (faults.BadValue keys.Pins)
        ≡ pins_of_items (map (λ item. view item.now) items.entry) }
{
    let [one, two, three, four, five, six] = items;
    Some(PinSet {
        w1: pins_of_item(&ring1(), one)?,
        w2: pins_of_item(&ring2(), two)?,
        w3: pins_of_item(&ring3(), three)?,
        w4: pins_of_item(&ring4(), four)?,
        w5: pins_of_item(&ring5(), five)?,
        w6: pins_of_item(&ring6(), six)?,
    })
}

/// Reads the effective pins of a wheel from `item`, a text with the letters of these pins.
fn pins_of_item<const N: usize>(ring: &Ring<N>, item: &Value) -> Option<[bool; N]>
    ensures { result ≡ from_text (pins_of_text ring.now) (view item.now) }
{
    pins_of_text(ring, item.as_str()?.as_bytes())
}

/// The index in `letters` of the letter with the ASCII code `byte`, if `letters` has this letter.
fn index_of_byte(letters: &[Letter], byte: u8) -> Option<usize>
    ensures { result ≡ position (λ letter. letter + 65 == byte) letters.now }
{
    letters.iter().position(|letter| letter.byte() == byte)
}
