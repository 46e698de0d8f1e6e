//! A day of a key sheet.

pub(crate) mod entry;
pub(crate) mod pin_entry;
pub(crate) mod rotor_entry;

use crate::numbered_items::numbered_item;
use entry::Entry;
use kd_pins::PinSet;
use kd_tables::{Letter, Model, Reading, Reflector, Wheel};
use pin_entry::PinEntry;
use rotor_entry::{RotorEntry, SheetWheel};

/// A day of a key sheet.
#[derive(Drop)]
pub struct SheetDay {
    entry: Entry,
}

impl std::marker::Model for SheetDay {
    ghost use Rattle.kd_state.specs.SheetDay.{Day, IsLegalDay};
    ghost use Rattle.kd_state.specs.Entry.{values_of};

    ghost Value = { Day };

    ghost view = { λ s. values_of s.entry };

    ghost invariant = { λ s. IsLegalDay (values_of s.entry) };
}

impl SheetDay {
    ghost use Rattle.std.specs.Prelude.{◌≡◌, ◌↔◌, ◌≤◌, length, IsTrue, IfSome};
    ghost use Rattle.std.specs.Option.{IsSome, option_copied, option_map};
    ghost use Rattle.kd_state.specs.SheetDay.{Rotor, Pin, rotor_day_of, pin_day_of, IsLegalDay, IsLegalRotorDay};
    ghost use Rattle.kd_state.specs.SheetDay.{IsLegalPinDay, IsDayNumber, AreADaysGroup};
    ghost use Rattle.kd_state.specs.SheetDay.{day_number, day_model, rotor_day, pin_day, day_wheel, day_window_letter};
    ghost use Rattle.kd_state.specs.Entry.{values_of};

    /// Creates a day of a rotor machine, or `None` if no key sheet can have these values.
    ///
    /// `day` must be from 1 to 31, and the model must have `reflector`. `wheels` must have a wheel for each slot, from
    /// the left. Each wheel must be allowed in its slot, and no wheel may be in two slots. There may be at most 13
    /// pairs and at most 4 groups. All letters in the pairs must be different.
    pub fn rotor(
        day: u8,
        model: Model,
        reflector: Reflector,
        wheels: &[SheetWheel],
        pairs: &[(Letter, Letter)],
        groups: &[[Letter; 3]],
    ) -> Option<SheetDay>
        ensures exists { IsSome result
            ↔ IsLegalRotorDay (rotor_day_of day model reflector wheels.now pairs.now groups.now) }
        ensures value { IfSome result (λ sheet_day. sheet_day
            ≡ Rotor (rotor_day_of day model reflector wheels.now pairs.now groups.now)) }
    {
        let entry = RotorEntry::new(day, model, reflector, wheels, pairs, groups)?;
        if entry.is_legal() {
            Some(SheetDay {
                entry: Entry::Rotor(entry),
            })
        } else {
            None
        }
    }

    /// Creates a day of the Converter M-209.
    ///
    /// `rows` are the readings that the bars must have, and `pins` are the effective pins. `window` has the letter that
    /// each wheel shows, and `list` has the two letters that name the key list. `None` if `day` isn't from 1 to 31, or
    /// a letter of `window` isn't on its wheel.
    pub fn pin(
        day: u8,
        rows: [Reading; 27],
        pins: PinSet,
        window: [Letter; 6],
        list: [Letter; 2],
    ) -> Option<SheetDay>
        ensures exists { IsSome result ↔ IsLegalPinDay (pin_day_of day rows pins window list) }
        ensures value { IfSome result
            (λ sheet_day. sheet_day ≡ Pin (pin_day_of day rows pins window list)) }
    {
        let entry = PinEntry {
            day,
            rows,
            pins,
            window,
            list,
        };
        if entry.is_legal() {
            Some(SheetDay {
                entry: Entry::Pin(entry),
            })
        } else {
            None
        }
    }

    /// The day of the month, from 1 to 31.
    pub fn day(&self) -> u8
        ensures value { result ≡ day_number self.now }
        ensures within { IsDayNumber result }
    {
        match &self.entry {
            Entry::Rotor(entry) => entry.day,
            Entry::Pin(entry) => entry.day,
        }
    }

    /// The day's model.
    pub fn model(&self) -> Model
        ensures value { result ≡ day_model self.now }
        ensures legal { IsLegalDay self.now }
    {
        match &self.entry {
            Entry::Rotor(entry) => entry.model,
            Entry::Pin(_) => Model::M209,
        }
    }

    /// The wheel for slot `slot` (1 is the left slot). `None` if the day's model has no such slot.
    pub fn slot(&self, slot: u8) -> Option<Wheel>
        ensures { result ≡ option_map (λ seated. seated.wheel) (day_wheel self.now slot) }
    {
        Some(self.seated(slot)?.wheel)
    }

    /// The ring of the wheel for slot `slot` (1 is the left slot); ring 01 is A.
    ///
    /// `None` if the day's model has no such slot.
    pub fn ring(&self, slot: u8) -> Option<Letter>
        ensures { result ≡ option_map (λ seated. seated.ring) (day_wheel self.now slot) }
    {
        Some(self.seated(slot)?.ring)
    }

    /// The day's letter for the window of slot `slot`, or for pin wheel `slot`.
    ///
    /// Slots and pin wheels are counted from 1; slot 1 is the left slot. `None` if there is no such slot or wheel.
    pub fn window(&self, slot: u8) -> Option<Letter>
        ensures { result ≡ day_window_letter self.now slot }
    {
        match &self.entry {
            Entry::Rotor(entry) => Some(numbered_item(entry.wheels.as_slice(), slot)?.letter),
            Entry::Pin(entry) => numbered_item(&entry.window, slot),
        }
    }

    /// The day's reflector. `None` on the Converter M-209.
    pub fn reflector(&self) -> Option<Reflector>
        ensures { result ≡ option_map (λ s. s.reflector) (rotor_day self.now) }
    {
        match &self.entry {
            Entry::Rotor(entry) => Some(entry.reflector),
            Entry::Pin(_) => None,
        }
    }

    /// The plugged pairs, at most 13, in the sheet's order. `None` on the Converter M-209.
    pub fn pairs(&self) -> Option<&[(Letter, Letter)]>
        ensures value { option_copied result ≡ option_map (λ s. s.pairs) (rotor_day self.now) }
        ensures few { IfSome result (λ pairs. length pairs.now ≤ 13) }
    {
        match &self.entry {
            Entry::Rotor(entry) => Some(entry.pairs.as_slice()),
            Entry::Pin(_) => None,
        }
    }

    /// The day's groups of three letters, at most 4. `None` on the Converter M-209.
    ///
    /// Each part of a message has one of these groups, by which the receiver recognizes the day.
    pub fn groups(&self) -> Option<&[[Letter; 3]]>
        ensures value { option_copied result ≡ option_map (λ s. s.groups) (rotor_day self.now) }
        ensures few { IfSome result (λ groups. length groups.now ≤ 4) }
    {
        match &self.entry {
            Entry::Rotor(entry) => Some(entry.groups.as_slice()),
            Entry::Pin(_) => None,
        }
    }

    /// Whether `letters` are the letters of one of the day's groups, in any order. False on the Converter M-209.
    pub fn has_group(&self, letters: [Letter; 3]) -> bool
        ensures { IsTrue result ↔ AreADaysGroup self.now letters }
    {
        match &self.entry {
            Entry::Rotor(entry) => entry.has_group(letters),
            Entry::Pin(_) => false,
        }
    }

    /// The readings that the Converter's bars must have, in any order. `None` on rotor machines.
    pub fn rows(&self) -> Option<[Reading; 27]>
        ensures { result ≡ option_map (λ s. s.rows) (pin_day self.now) }
    {
        match &self.entry {
            Entry::Rotor(_) => None,
            Entry::Pin(entry) => Some(entry.rows),
        }
    }

    /// The effective pins of the Converter M-209. `None` on rotor machines.
    pub fn pins(&self) -> Option<PinSet>
        ensures { result ≡ option_map (λ s. s.pins) (pin_day self.now) }
    {
        match &self.entry {
            Entry::Rotor(_) => None,
            Entry::Pin(entry) => Some(entry.pins),
        }
    }

    /// The two letters that name the Converter's key list. `None` on rotor machines.
    pub fn list(&self) -> Option<[Letter; 2]>
        ensures { result ≡ option_map (λ s. s.list) (pin_day self.now) }
    {
        match &self.entry {
            Entry::Rotor(_) => None,
            Entry::Pin(entry) => Some(entry.list),
        }
    }

    /// The wheel for slot `slot`, with its ring and window letter. `None` if the day's model has no such slot.
    fn seated(&self, slot: u8) -> Option<SheetWheel>
        ensures { result ≡ day_wheel self.now slot }
    {
        match &self.entry {
            Entry::Rotor(entry) => numbered_item(entry.wheels.as_slice(), slot),
            Entry::Pin(_) => None,
        }
    }

    /// The day's values: a `RotorEntry` for a rotor machine, or a `PinEntry` for a Converter M-209.
    pub fn entry(&self) -> &Entry
        ensures value { values_of result.now ≡ self.now }
        ensures legal { IsLegalDay self.now }
    {
        &self.entry
    }
}
