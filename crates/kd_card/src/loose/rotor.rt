//! The settings that a rotor machine needs for wheels, reflector, rings and window letters.
ghost use Rattle.arrayvec.specs.ArrayVec.{array_vec_len};
ghost use Rattle.kd_card.specs.Loose.{lines_from, slot_seat_line, wheel_ring_line, slot_turn_line, loose_lines};
ghost use Rattle.kd_state.specs.{declared.machine.parts.Parts.TheVariants.Rotor, SameParts.same_wheel};
ghost use Rattle.kd_state.specs.{Entry.rotor_values, SheetDay.Rotor};
ghost use Rattle.std.specs.Prelude.{◌≡◌, ◌+◌, ◌<◌, ◌≤◌, ◌++◌, length, find, flat_map, zip};

use super::push_unless;
use arrayvec::ArrayVec;
use kd_state::{Machine, RotorEntry, RotorParts, Setting, Settings, SheetWheel};
use kd_tables::Wheel;

/// Lists the settings that set the slots, reflector, rings and letters of a rotor machine as the day says.
///
/// Only what differs from the day gets a setting. Slots come first, then the reflector, then rings, then letters.
/// `parts` are the parts of `machine`.
#[tactic(auto, using(crate::proofs::Leading::few_in_box))]
pub fn rotor_settings(machine: &Machine, parts: &RotorParts, entry: &RotorEntry) -> Settings
    requires { machine.now ≡ Rotor parts.now }
    ensures lines { result.items
        ≡ loose_lines (Rotor parts.now) (Rotor (rotor_values entry.now)) }
    ensures few { length result.items ≤ 19 }
{
    let wheels = entry.wheels.as_slice();
    let reflector = entry.reflector;
    let setting = Setting::SeatReflector { reflector };
    let mut settings = ArrayVec::new();
    push_seats(&mut settings, 1, parts.slots.as_slice(), wheels);
    push_unless(&mut settings, parts.reflector == reflector, setting);
    push_rings(&mut settings, machine, parts.model.wheels(), wheels);
    push_turns(&mut settings, machine, 1, wheels);
    settings
}

/// Appends the setting SEAT for each of `slots` that is empty, or holds another wheel than the day's wheel.
///
/// `wheels` are the day's wheels in these slots. The first of `slots` has the number `number`. Slots are counted from
/// 1.
fn push_seats(settings: &mut Settings, number: u8, slots: &[Option<Wheel>], wheels: &[SheetWheel])
    requires few { number + length slots.now < 256 }
    requires room { array_vec_len settings.old + length slots.now ≤ 192 }
    ensures items { settings.new.items ≡ settings.old.items
        ++ lines_from slot_seat_line number (zip slots.now wheels.now) }
    ensures few { array_vec_len settings.new ≤ array_vec_len settings.old + length slots.now }
{
    if let [seated, slots @ ..] = slots
        && let [wanted, wheels @ ..] = wheels
    {
        let (slot, wheel) = (number, wanted.wheel);
        let is_seated = *seated == Some(wheel);
        push_unless(settings, is_seated, Setting::Seat { slot, wheel });
        push_seats(settings, number + 1, slots, wheels);
    }
}

/// Appends the setting RING for each wheel in `boxed` that the day uses, if its ring isn't at the day's letter.
fn push_rings(settings: &mut Settings, machine: &Machine, boxed: &[Wheel], wheels: &[SheetWheel])
    requires room { array_vec_len settings.old + length boxed.now ≤ 192 }
    ensures items { settings.new.items ≡ settings.old.items
        ++ flat_map (wheel_ring_line machine.now wheels.now) boxed.now }
    ensures few { array_vec_len settings.new ≤ array_vec_len settings.old + length boxed.now }
{
    if let [wheel, rest @ ..] = boxed {
        push_ring(settings, machine, wheels, *wheel);
        push_rings(settings, machine, rest, wheels);
    }
}

/// Appends the setting TURN for each of the day's wheels that isn't turned to the day's letter.
///
/// `wheels` are the day's wheels in slot `number` and the next slots. Slots are counted from 1.
fn push_turns(settings: &mut Settings, machine: &Machine, number: u8, wheels: &[SheetWheel])
    requires few { number + length wheels.now < 256 }
    requires room { array_vec_len settings.old + length wheels.now ≤ 192 }
    ensures items { settings.new.items ≡ settings.old.items
        ++ lines_from (slot_turn_line machine.now) number wheels.now }
    ensures few { array_vec_len settings.new ≤ array_vec_len settings.old + length wheels.now }
{
    if let [SheetWheel { wheel, letter, .. }, rest @ ..] = wheels {
        let (slot, letter) = (number, *letter);
        let is_turned = machine.letter(*wheel) == Some(letter);
        push_unless(settings, is_turned, Setting::Turn { slot, letter });
        push_turns(settings, machine, number + 1, rest);
    }
}

/// Appends the setting RING for `wheel` if the day uses this wheel, and its ring isn't at the day's letter.
fn push_ring(settings: &mut Settings, machine: &Machine, wheels: &[SheetWheel], wheel: Wheel)
    requires { array_vec_len settings.old + 1 ≤ 192 }
    ensures items { settings.new.items
        ≡ settings.old.items ++ wheel_ring_line machine.now wheels.now wheel }
    ensures few { array_vec_len settings.new ≤ array_vec_len settings.old + 1 }
{
    if let Some(SheetWheel { wheel, ring, .. }) = find_wheel(wheels, wheel) {
        let letter = ring;
        let is_set = machine.ring(wheel) == Some(letter);
        push_unless(settings, is_set, Setting::RingTo { wheel, letter });
    }
}

/// Finds `wheel` among the day's wheels. Each of `wheels` also has the day's letters for its ring and its window.
fn find_wheel(wheels: &[SheetWheel], wheel: Wheel) -> Option<SheetWheel>
    ensures { result ≡ find (λ seated. same_wheel wheel seated.wheel) wheels.now }
{
    wheels.iter().copied().find(|seated| wheel == seated.wheel)
}
