//! A value for each wheel of a rotor machine's box.
ghost use Rattle.std.specs.Prelude.{◌≡◌, ◌⊎◌, ◌↔◌, ◌<◌, length, slice_set, IsSome, IfSome};

use crate::numbered_items::set_item;
use std::marker::Model;

/// Five, eight or ten values: one for each wheel of a rotor machine's box, in the order of the box.
#[derive(Clone, Copy)]
pub struct PerWheel<T> {
    values: Wheels<T>,
}

#[derive(Clone, Copy)]
enum Wheels<T> {
    Five([T; 5]),
    Eight([T; 8]),
    Ten([T; 10]),
}

impl<T> Model for PerWheel<T> {
    ghost use Rattle.std.specs.Prelude.{List};

    ghost Value = { List T };

    ghost use Rattle.kd_state.specs.Wheels.{wheel_values, HasWheelCount, wheels_of_values};

    ghost view = { λ p. wheel_values p.values };

    ghost invariant = { λ p. HasWheelCount p.values };

    ghost inverse = { λ values. record { values = wheels_of_values values } };
}

impl<T: Copy> PerWheel<T> {
    /// Creates a `PerWheel` with these values. `None` if there aren't five, eight or ten values.
    pub fn new(values: &[T]) -> Option<Self>
        ensures exists { IsSome result
            ↔ ((length values.now ≡ 5) ⊎ (length values.now ≡ 8) ⊎ (length values.now ≡ 10)) }
        ensures value { IfSome result (λ wheels. wheels ≡ values.now) }
    {
        let values = match <[T; 5]>::try_from(values) {
            Ok(values) => Wheels::Five(values),
            Err(_) => match <[T; 8]>::try_from(values) {
                Ok(values) => Wheels::Eight(values),
                Err(_) => Wheels::Ten(<[T; 10]>::try_from(values).ok()?),
            },
        };
        Some(PerWheel { values })
    }

    /// The values, in the order of the wheels in the box.
    pub fn as_slice(&self) -> &[T]
        ensures { result.now ≡ self.now }
    {
        match &self.values {
            Wheels::Five(values) => values,
            Wheels::Eight(values) => values,
            Wheels::Ten(values) => values,
        }
    }

    /// Sets the value for the wheel at `place` in the box, counted from 0.
    pub fn set(&mut self, place: usize, value: T)
        requires { place < length self.old }
        ensures { self.new ≡ slice_set self.old place value }
    {
        match &mut self.values {
            Wheels::Five(values) => set_item(values, place, value),
            Wheels::Eight(values) => set_item(values, place, value),
            Wheels::Ten(values) => set_item(values, place, value),
        }
    }
}
