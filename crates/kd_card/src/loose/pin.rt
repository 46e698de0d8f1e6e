//! The settings that a Converter M-209 needs for pins and for the letters that its wheels show.
ghost use Rattle.arrayvec.specs.ArrayVec.{array_vec_len};
ghost use Rattle.kd_card.specs.Loose.{lines_from, pin_line, wheel_pin_lines, pin_wheel_turn_line, loose_lines};
ghost use Rattle.kd_pins.specs.PinWheels.{pins_of};
ghost use Rattle.kd_state.specs.{declared.machine.parts.Parts.TheVariants.Pin, Entry.pin_values, SheetDay.Pin};
ghost use Rattle.std.specs.Prelude.{◌≡◌, ◌+◌, ◌<◌, ◌≤◌, ◌++◌, flat_map, length, zip};

use super::push_unless;
use arrayvec::ArrayVec;
use kd_pins::PinSet;
use kd_state::{PinEntry, PinParts, Setting, Settings};
use kd_tables::{Letter, Ring, ring1, ring2, ring3, ring4, ring5, ring6};

/// Lists the settings for a Converter M-209's pins and wheel letters that aren't as the day says.
///
/// Pins come first, then letters. No setting changes a bar.
pub fn pin_settings(parts: &PinParts, entry: &PinEntry) -> Settings
    ensures lines { result.items ≡ loose_lines (Pin parts.now) (Pin (pin_values entry.now)) }
    ensures few { length result.items ≤ 137 }
{
    let mut settings = ArrayVec::new();
    push_pins(&mut settings, &parts.pins, &entry.pins);
    push_pin_turns(&mut settings, 1, &parts.letters, &entry.window);
    settings
}

/// Appends the setting PIN for each pin that differs between the sets `present` and `wanted`, wheel by wheel.
fn push_pins(settings: &mut Settings, present: &PinSet, wanted: &PinSet)
    requires { array_vec_len settings.old + 131 ≤ 192 }
    ensures items { settings.new.items ≡ settings.old.items
        ++ lines_from wheel_pin_lines 1 (zip (pins_of present.now) (pins_of wanted.now)) }
    ensures few { array_vec_len settings.new ≤ array_vec_len settings.old + 131 }
{
    push_wheel(settings, 1, ring1(), &present.w1, &wanted.w1);
    push_wheel(settings, 2, ring2(), &present.w2, &wanted.w2);
    push_wheel(settings, 3, ring3(), &present.w3, &wanted.w3);
    push_wheel(settings, 4, ring4(), &present.w4, &wanted.w4);
    push_wheel(settings, 5, ring5(), &present.w5, &wanted.w5);
    push_wheel(settings, 6, ring6(), &present.w6, &wanted.w6);
}

/// Appends the setting PIN for each pin of wheel `wheel` that differs from the day's pin. `ring` has the wheel's
/// letters.
fn push_wheel<const N: usize>(
    settings: &mut Settings,
    wheel: u8,
    ring: Ring<N>,
    present: &[bool; N],
    wanted: &[bool; N],
)
    requires { array_vec_len settings.old + N ≤ 192 }
    ensures items { settings.new.items ≡ settings.old.items
        ++ flat_map (pin_line wheel) (zip ring.entry (zip present.now wanted.now)) }
    ensures few { array_vec_len settings.new ≤ array_vec_len settings.old + N }
{
    push_wheel_pins(settings, wheel, &ring.letters(), present, wanted);
}

/// Appends the setting TURN for each pin wheel that shows another letter than the day's.
///
/// `letters` are the letters that the wheels show, and `window` are the day's letters. Both lists begin with the letter
/// of wheel `number`. Wheels are counted from 1.
fn push_pin_turns(settings: &mut Settings, number: u8, letters: &[Letter], window: &[Letter])
    requires few { number + length letters.now < 256 }
    requires room { array_vec_len settings.old + length letters.now ≤ 192 }
    ensures items { settings.new.items ≡ settings.old.items
        ++ lines_from pin_wheel_turn_line number (zip letters.now window.now) }
    ensures few { array_vec_len settings.new ≤ array_vec_len settings.old + length letters.now }
{
    if let [present, letters @ ..] = letters
        && let [wanted, window @ ..] = window
    {
        let (slot, letter) = (number, *wanted);
        push_unless(settings, *present == letter, Setting::Turn { slot, letter });
        push_pin_turns(settings, number + 1, letters, window);
    }
}

/// Appends a setting PIN for each letter of `ring` at which `present` and `wanted` differ, in the order of `ring`.
fn push_wheel_pins(
    settings: &mut Settings,
    wheel: u8,
    ring: &[Letter],
    present: &[bool],
    wanted: &[bool],
)
    requires { array_vec_len settings.old + length ring.now ≤ 192 }
    ensures items { settings.new.items ≡ settings.old.items
        ++ flat_map (pin_line wheel) (zip ring.now (zip present.now wanted.now)) }
    ensures few { array_vec_len settings.new ≤ array_vec_len settings.old + length ring.now }
{
    if let [letter, ring @ ..] = ring
        && let [now, present @ ..] = present
        && let [due, wanted @ ..] = wanted
    {
        let (letter, effective) = (*letter, *due);
        let setting = Setting::PinTo {
            wheel,
            letter,
            effective,
        };
        push_unless(settings, *now == effective, setting);
        push_wheel_pins(settings, wheel, ring, present, wanted);
    }
}
