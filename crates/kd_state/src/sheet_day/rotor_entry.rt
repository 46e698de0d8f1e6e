//! The values of a rotor machine's day.
ghost use Rattle.std.specs.Prelude.{◌↔◌, IsPermutation, IsTrue};

use crate::machine::per_slot::PerSlot;
use crate::machine::seats;
use crate::prover_facts::{learn_group_letters, learn_pair_letters, learn_wheel_letters};
use crate::sheet_day::entry::is_day_number;
use arrayvec::ArrayVec;
use kd_tables::{Letter, Model, Reflector, Wheel, allowed_reflector, have_no_letter_twice};

/// A wheel of a day, with its ring and its window letter.
#[derive(Clone, Copy)]
pub struct SheetWheel {
    pub wheel: Wheel,
    /// The wheel's ring, as a letter: ring 01 is A.
    pub ring: Letter,
    /// The letter that shows in the window.
    pub letter: Letter,
}

/// The default is wheel I with ring A and window letter A. It fills unused places of arrays.
impl Default for SheetWheel {
    ghost use Rattle.std.specs.Prelude.{◌≡◌};
    ghost use Rattle.kd_tables.specs.declared.wheel.Wheel.TheVariants.{I};

    ghost is_default = { λ w. w ≡ record { wheel = I; ring = 0; letter = 0 } };

    fn default() -> Self {
        SheetWheel {
            wheel: Wheel::I,
            ring: Letter::A,
            letter: Letter::A,
        }
    }
}

/// The values of a day of a rotor machine.
#[derive(Drop)]
pub struct RotorEntry {
    pub day: u8,
    pub model: Model,
    pub reflector: Reflector,
    /// A wheel for each slot, from the left.
    pub wheels: PerSlot<SheetWheel>,
    /// The plugged pairs, in the sheet's order.
    pub pairs: ArrayVec<(Letter, Letter), 13>,
    /// The day's groups of three letters. Each part of a message carries one of these groups.
    pub groups: ArrayVec<[Letter; 3], 4>,
}

impl RotorEntry {
    ghost use Rattle.std.specs.Prelude.{◌≡◌, ◌⊎◌, ◌≤◌, length, IfSome};
    ghost use Rattle.std.specs.Option.{IsSome};
    ghost use Rattle.kd_state.specs.SheetDay.{rotor_day_of, IsLegalRotorDay, AreOneOfGroups};
    ghost use Rattle.kd_state.specs.Entry.{rotor_values};

    /// The entry with these values. `None` unless there are three or four wheels, at most 13 pairs and at most four
    /// groups.
    pub(crate) fn new(
        day: u8,
        model: Model,
        reflector: Reflector,
        wheels: &[SheetWheel],
        pairs: &[(Letter, Letter)],
        groups: &[[Letter; 3]],
    ) -> Option<RotorEntry>
        ensures exists { IsSome result
            ↔ ((length wheels.now ≡ 3) ⊎ (length wheels.now ≡ 4)) × (length pairs.now ≤ 13)
            × (length groups.now ≤ 4) }
        ensures value { IfSome result (λ entry. rotor_values entry
            ≡ rotor_day_of day model reflector wheels.now pairs.now groups.now) }
    {
        Some(RotorEntry {
            day,
            model,
            reflector,
            wheels: PerSlot::new(wheels)?,
            pairs: ArrayVec::try_from(pairs).ok()?,
            groups: ArrayVec::try_from(groups).ok()?,
        })
    }

    /// Whether the values are legal for a day of a key sheet.
    pub(crate) fn is_legal(&self) -> bool
        ensures { IsTrue result ↔ IsLegalRotorDay (rotor_values self.now) }
    {
        let (pairs, groups) = (self.pairs.as_slice(), self.groups.as_slice());
        learn_wheel_letters(self.wheels.as_slice());
        learn_pair_letters(pairs);
        learn_group_letters(groups);
        is_day_number(self.day)
            && allowed_reflector(self.model, self.reflector)
            && seats::are_legal_seats(self.model, &self.wheels.seats())
            && have_no_letter_twice(pairs)
    }

    /// Whether `letters` are the letters of one of the day's groups, in any order.
    pub(crate) fn has_group(&self, letters: [Letter; 3]) -> bool
        ensures { IsTrue result ↔ AreOneOfGroups self.now.groups.items letters }
    {
        self.groups
            .as_slice()
            .iter()
            .any(|group| are_reordered(*group, letters))
    }
}

/// Whether `letters` are the letters of `group`, in any order.
fn are_reordered(group: [Letter; 3], letters: [Letter; 3]) -> bool
    ensures { IsTrue result ↔ IsPermutation group letters }
{
    let (mut group, mut letters) = (group, letters);
    group.sort_unstable();
    letters.sort_unstable();
    group == letters
}
