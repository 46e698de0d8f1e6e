//! The letters that a machine shows after some letters were pressed.
ghost use Rattle.std.specs.Prelude.{◌≡◌, ◌≤◌, ◌⊎◌, length, map};
ghost use Rattle.kd_step.specs.Stepper.{window_after};
ghost use Rattle.kd_state.specs.EngineKey.{IsWindow};
ghost use Rattle.kd_state.specs.OwnKeys.{sheet_key};
ghost use Rattle.kd_state.specs.Machine.{AreOnWheels};
ghost use Rattle.kd_part_sheet.specs.LettersAfter.{letters_after, wheels_after};

use arrayvec::ArrayVec;
use kd_drum::Converter;
use kd_state::{Entry, PinEntry, SheetDay, SheetWheel};
use kd_step::Stepper;
use kd_tables::{Letter, Wheel};

/// The letters that the machine shows after `presses` key presses. Before, it showed `start`.
pub(crate) fn letters_after(day: &SheetDay, start: &[Letter], presses: usize) -> ArrayVec<Letter, 6>
    requires window { IsWindow (sheet_key day.now) start.now }
    requires few { presses ≤ 520 }
    ensures { result.items ≡ letters_after day.now start.now presses }
{
    match day.entry() {
        Entry::Rotor(entry) => windows_after(entry.wheels.as_slice(), start, presses),
        Entry::Pin(entry) => wheels_after(entry, start, presses),
    }
}

/// The letters in the windows of `wheels` after `presses` key presses. Before, the windows showed `start`.
fn windows_after(wheels: &[SheetWheel], start: &[Letter], presses: usize) -> ArrayVec<Letter, 6>
    requires wheels { (length wheels.now ≡ 3) ⊎ (length wheels.now ≡ 4) }
    requires start { length start.now ≡ length wheels.now }
    ensures { result.items ≡ window_after (map (λ w. w.wheel) wheels.now) start.now presses }
{
    let mut letters = ArrayVec::new();
    match (wheels, start) {
        ([a, b, c], [x, y, z]) => {
            let window = turned([a.wheel, b.wheel, c.wheel], [*x, *y, *z], presses);
            letters.try_extend_from_slice(&window).unwrap();
        }
        ([a, b, c, d], [w, x, y, z]) => {
            let window = turned(
                [a.wheel, b.wheel, c.wheel, d.wheel],
                [*w, *x, *y, *z],
                presses,
            );
            letters.try_extend_from_slice(&window).unwrap();
        }
        _ => (),
    }
    letters
}

/// The letters in the windows after `presses` key presses. Before, the windows showed `window`.
fn turned<const S: usize>(wheels: [Wheel; S], window: [Letter; S], presses: usize) -> [Letter; S]
    requires least { 3 ≤ S }
    requires most { S ≤ 4 }
    ensures { result ≡ window_after wheels.entry window.entry presses }
{
    let mut stepper = Stepper::new(wheels, window);
    for _press in 0..presses {
        stepper.step();
    }
    stepper.window()
}

/// The letters on the pin wheels after `presses` letters were enciphered. Before, the wheels showed `start`.
fn wheels_after(entry: &PinEntry, start: &[Letter], presses: usize) -> ArrayVec<Letter, 6>
    requires start { AreOnWheels start.now }
    requires few { presses ≤ 520 }
    ensures { result.items ≡ wheels_after entry.now start.now presses }
{
    let letters = <[Letter; 6]>::try_from(start).unwrap();
    let mut converter = Converter::new(entry.pins, letters, entry.rows).unwrap();
    let mut text = [Letter::A; 520];
    converter.run(&mut text[..presses]);
    let mut shown = ArrayVec::new();
    shown.try_extend_from_slice(&converter.shown()).unwrap();
    shown
}
