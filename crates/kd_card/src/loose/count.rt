//! Counts a machine's loose things: all things that differ from the day, except cables and bars.
ghost use Rattle.kd_pins.specs.PinWheels.{pins_of};
ghost use Rattle.kd_state.specs.{Machine.{machine_ring, machine_letter}, SameParts.same_wheel};
ghost use Rattle.kd_state.specs.Costs.{exactly_one};
ghost use Rattle.std.specs.Prelude.{◌≡◌, ◌≤◌, false, not, nat_eq, length, map, sum, count_by, zip};
ghost use Rattle.std.specs.Option.{option_map_or};
ghost use Rattle.kd_state.specs.Costs as costs;

use kd_pins::PinSet;
use kd_state::{Entry, Machine, Parts, SheetDay, SheetWheel};
use kd_tables::Wheel;

/// Counts the loose things of `machine`: all that isn't as `day` says, except cables and bars.
///
/// The count is 0 if the machine is a Converter M-209 and the day is for a rotor machine, or the other way round.
pub fn loose_count(machine: &Machine, day: &SheetDay) -> usize
    ensures value { result ≡ costs.loose_count machine.now day.now }
    ensures few { result ≤ 137 }
{
    match (machine.parts(), day.entry()) {
        (Parts::Rotor(parts), Entry::Rotor(entry)) => {
            let wheels = entry.wheels.as_slice();
            let slots = loose_slots(parts.slots.as_slice(), wheels);
            let reflector = usize::from(parts.reflector != entry.reflector);
            slots + reflector + loose_rings(machine, wheels) + loose_letters(machine, wheels)
        }
        (Parts::Pin(parts), Entry::Pin(entry)) => {
            let letters = count_differing(&parts.letters, &entry.window);
            loose_pins(&parts.pins, &entry.pins) + letters
        }
        _ => 0,
    }
}

/// Counts the slots without the day's wheel: empty slots, and slots that hold a different wheel.
fn loose_slots(slots: &[Option<Wheel>], wheels: &[SheetWheel]) -> usize
    ensures value { result ≡ count_by
        (λ slot. not (option_map_or (same_wheel slot.1.wheel) slot.0 false))
        (zip slots.now wheels.now) }
    ensures few { result ≤ length wheels.now }
{
    slots
        .iter()
        .zip(wheels)
        .filter(|(slot, wanted)| !holds(slot, wanted))
        .count()
}

/// Whether `slot` holds the wheel of `wanted`.
fn holds(slot: &Option<Wheel>, wanted: &SheetWheel) -> bool
    ensures { result ≡ option_map_or (same_wheel wanted.now.wheel) slot.now false }
{
    *slot == Some(wanted.wheel)
}

/// Counts the day's wheels whose rings aren't set to the day's letters.
fn loose_rings(machine: &Machine, wheels: &[SheetWheel]) -> usize
    ensures value { result ≡ count_by
        (λ w. not (option_map_or (nat_eq w.ring) (machine_ring machine.now w.wheel) false))
        wheels.now }
    ensures few { result ≤ length wheels.now }
{
    wheels
        .iter()
        .filter(|w| machine.ring(w.wheel) != Some(w.ring))
        .count()
}

/// Counts the day's wheels that aren't turned to the day's window letters.
fn loose_letters(machine: &Machine, wheels: &[SheetWheel]) -> usize
    ensures value { result ≡ count_by
        (λ w. not (option_map_or (nat_eq w.letter) (machine_letter machine.now w.wheel) false))
        wheels.now }
    ensures few { result ≤ length wheels.now }
{
    wheels
        .iter()
        .filter(|w| machine.letter(w.wheel) != Some(w.letter))
        .count()
}

/// Counts the pins that differ from the day's, on all six wheels.
fn loose_pins(present: &PinSet, wanted: &PinSet) -> usize
    ensures value { let pairs = zip (pins_of present.now) (pins_of wanted.now) in
        result ≡ sum
        (map (λ wheel. count_by (λ pin. exactly_one pin.0 pin.1) (zip wheel.0 wheel.1)) pairs) }
    ensures few { result ≤ 131 }
{
    count_differing(&present.w1, &wanted.w1)
        + count_differing(&present.w2, &wanted.w2)
        + count_differing(&present.w3, &wanted.w3)
        + count_differing(&present.w4, &wanted.w4)
        + count_differing(&present.w5, &wanted.w5)
        + count_differing(&present.w6, &wanted.w6)
}

/// Counts the places where the pins or letters in `present` differ from the day's pins or letters in `wanted`.
fn count_differing<T: PartialEq>(present: &[T], wanted: &[T]) -> usize
    ensures value { result ≡ count_by (λ z. not (T.eq z.0 z.1)) (zip present.now wanted.now) }
    ensures few { result ≤ length present.now }
{
    present
        .iter()
        .zip(wanted)
        .filter(|(now, due)| now != due)
        .count()
}
