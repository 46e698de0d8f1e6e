//! A value for each slot of a rotor machine.
ghost use Rattle.std.specs.Prelude.{◌≡◌, ◌⊎◌, ◌↔◌, ◌<◌, length, map, slice_set, IsSome, IfSome};
ghost use Rattle.kd_state.specs.Setting.{seat_without};

use crate::machine::seats::seat_without;
use crate::numbered_items::set_item;
use crate::sheet_day::rotor_entry::SheetWheel;
use kd_tables::Wheel;
use std::marker::Model;

/// Three or four values: one for each slot of a rotor machine, from the left.
#[derive(Clone, Copy)]
pub struct PerSlot<T> {
    values: Slots<T>,
}

#[derive(Clone, Copy)]
enum Slots<T> {
    Three([T; 3]),
    Four([T; 4]),
}

impl<T> Model for PerSlot<T> {
    ghost use Rattle.std.specs.Prelude.{List};

    ghost Value = { List T };

    ghost use Rattle.kd_state.specs.Slots.{slot_values, HasSlotCount, slots_of_values};

    ghost view = { λ p. slot_values p.values };

    ghost invariant = { λ p. HasSlotCount p.values };

    ghost inverse = { λ values. record { values = slots_of_values values } };
}

impl<T: Copy> PerSlot<T> {
    /// Creates a `PerSlot` with these values. `None` if there aren't three or four values.
    pub fn new(values: &[T]) -> Option<Self>
        ensures exists { IsSome result ↔ ((length values.now ≡ 3) ⊎ (length values.now ≡ 4)) }
        ensures value { IfSome result (λ slots. slots ≡ values.now) }
    {
        let values = match <[T; 3]>::try_from(values) {
            Ok(values) => Slots::Three(values),
            Err(_) => Slots::Four(<[T; 4]>::try_from(values).ok()?),
        };
        Some(PerSlot { values })
    }

    /// The values, from the left slot to the right slot.
    pub fn as_slice(&self) -> &[T]
        ensures value { result.now ≡ self.now }
        ensures few { (length self.now ≡ 3) ⊎ (length self.now ≡ 4) }
    {
        match &self.values {
            Slots::Three(values) => values,
            Slots::Four(values) => values,
        }
    }

    /// Sets the value for the slot at `place` (0 is the left slot).
    pub fn set(&mut self, place: usize, value: T)
        requires { place < length self.old }
        ensures { self.new ≡ slice_set self.old place value }
    {
        match &mut self.values {
            Slots::Three(values) => set_item(values, place, value),
            Slots::Four(values) => set_item(values, place, value),
        }
    }
}

impl PerSlot<Option<Wheel>> {
    /// Empties the slot that holds `wheel`, if a slot holds it.
    pub(crate) fn take_out(&mut self, wheel: Wheel)
        ensures { self.new ≡ map (seat_without wheel) self.old }
    {
        match &mut self.values {
            Slots::Three(slots) => {
                let [left, middle, right] = *slots;
                *slots = [
                    seat_without(left, wheel),
                    seat_without(middle, wheel),
                    seat_without(right, wheel),
                ];
            }
            Slots::Four(slots) => {
                let [first, left, middle, right] = *slots;
                *slots = [
                    seat_without(first, wheel),
                    seat_without(left, wheel),
                    seat_without(middle, wheel),
                    seat_without(right, wheel),
                ];
            }
        }
    }
}

impl PerSlot<SheetWheel> {
    ghost use Rattle.kd_state.specs.SheetDay.{seats_of_wheels};

    /// The wheel for each slot, without its ring and its window letter.
    pub(crate) fn seats(&self) -> PerSlot<Option<Wheel>>
        ensures { result ≡ seats_of_wheels self.now }
    {
        let values = match &self.values {
            Slots::Three([left, middle, right]) => Slots::Three([
                Some(left.wheel),
                Some(middle.wheel),
                Some(right.wheel),
            ]),
            Slots::Four([first, left, middle, right]) => Slots::Four([
                Some(first.wheel),
                Some(left.wheel),
                Some(middle.wheel),
                Some(right.wheel),
            ]),
        };
        PerSlot { values }
    }
}
