//! Writes letters: a text of letters, and the letters of effective pins.
ghost use Rattle.std.specs.Prelude.{◌≡◌, ◌+◌, ◌≤◌, ◌++◌, map, length};
ghost use Rattle.arrayvec.specs.ArrayString.{array_string_len};
ghost use Rattle.kd_tables.specs.Text.{letters_text};
ghost use Rattle.kd_sheet.specs.MachineText.{quoted_text, key_line, pins_text, pin_texts};

use super::item_text::ItemString;
use super::lines::{FileString, push_text_line};
use crate::Key;
use kd_pins::PinSet;
use kd_tables::{Letter, Ring, push_letter, ring1, ring2, ring3, ring4, ring5, ring6};

/// Writes `letters` as a text.
pub(crate) fn letters_text(letters: &[Letter]) -> ItemString
    requires { length letters.now ≤ 32 }
    ensures { result.bytes ≡ letters_text letters.now }
{
    let mut text = ItemString::new();
    for letter in letters {
        push_letter(&mut text, *letter);
    }
    text
}

/// Appends a line: `key`, ` = ` and `letters` in double quotes.
pub fn push_letters_line(text: &mut FileString, key: Key, letters: &[Letter])
    requires room { array_string_len text.old + 47 ≤ 2048 }
    requires few { length letters.now ≤ 32 }
    ensures bytes { text.new.bytes
        ≡ text.old.bytes ++ key_line key (quoted_text (letters_text letters.now)) }
    ensures len { array_string_len text.new ≤ array_string_len text.old + 47 }
{
    push_text_line(text, key, letters_text(letters).as_str());
}

/// For each of the six wheels, writes the letters of the wheel's effective pins.
pub fn pin_texts(pins: &PinSet) -> [ItemString; 6]
    ensures { map (λ text. text.bytes) result ≡ pin_texts pins.now }
{
    [
        pins_text(&ring1(), &pins.w1),
        pins_text(&ring2(), &pins.w2),
        pins_text(&ring3(), &pins.w3),
        pins_text(&ring4(), &pins.w4),
        pins_text(&ring5(), &pins.w5),
        pins_text(&ring6(), &pins.w6),
    ]
}

/// Writes the letters of a wheel's effective pins, in the order of the wheel's letters `ring`.
fn pins_text<const N: usize>(ring: &Ring<N>, pins: &[bool; N]) -> ItemString
    requires { N ≤ 32 }
    ensures { result.bytes ≡ pins_text ring.now pins.now }
{
    let mut text = ItemString::new();
    push_pin_letters(&mut text, &ring.letters(), pins);
    text
}

/// Appends the letters whose pins are effective; `pins` has a pin for each of `letters`, in the same order.
fn push_pin_letters(text: &mut ItemString, letters: &[Letter], pins: &[bool])
    requires room { array_string_len text.old + length letters.now ≤ 32 }
    requires pins { length pins.now ≡ length letters.now }
    ensures { text.new.bytes ≡ text.old.bytes ++ pins_text letters.now pins.now }
{
    if let ([letter, letters @ ..], [effective, pins @ ..]) = (letters, pins) {
        if *effective {
            push_letter(text, *letter);
        }
        push_pin_letters(text, letters, pins);
    }
}
