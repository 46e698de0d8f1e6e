//! Tests whether a machine is set as a day says, and whether it shows the day's letters.
ghost use Rattle.std.specs.Prelude.{◌≡◌, ◌≤◌, ◌↔◌, IsTrue, IsPermutation, Some, length, slice_get};
ghost use Rattle.std.specs.List.{AllByRecursion};
ghost use Rattle.kd_state.specs.Entry.{rotor_values};
ghost use Rattle.kd_tables.specs.Tables.{box_of};
ghost use Rattle.kd_state.specs.Machine.{AreLegalRotorParts};
ghost use Rattle.kd_state.specs.OnKey.{IsRotorOnKey, cable_of_column, cables_of};
ghost use Rattle.kd_state.specs.SameParts.{place_in_box};

use crate::costs::tables::column_at;
use crate::machine::Machine;
use crate::machine::cable::{Cable, letters_in_order};
use crate::machine::getters::letter_of_wheel;
use crate::machine::parts::Parts;
use crate::machine::per_wheel::PerWheel;
use crate::machine::pin_parts::readings_of;
use crate::machine::rotor_parts::RotorParts;
use crate::sheet_day::SheetDay;
use crate::sheet_day::entry::Entry;
use crate::sheet_day::rotor_entry::{RotorEntry, SheetWheel};
use kd_tables::{Letter, Model, Reading};

impl Machine {
    ghost use Rattle.kd_state.specs.OnKey.{OnKey, ReadsAs, ShowsWindow};

    /// Whether the machine is set as `day` says; it may show other letters than the day's.
    pub fn on_key(&self, day: &SheetDay) -> bool
        ensures { IsTrue result ↔ OnKey self.now day.now }
    {
        match (self.parts(), day.entry()) {
            (Parts::Rotor(parts), Entry::Rotor(entry)) => is_rotor_on_key(parts, entry),
            (Parts::Pin(parts), Entry::Pin(entry)) => {
                parts.pins.has_same_pins(&entry.pins)
                    && are_same_readings(readings_of(&parts.bars), entry.rows)
            }
            _ => false,
        }
    }

    /// Whether the machine is set as `day` says and shows the day's letters.
    pub fn reads_as(&self, day: &SheetDay) -> bool
        ensures { IsTrue result ↔ ReadsAs self.now day.now }
    {
        self.on_key(day) && self.shows_window(day)
    }

    /// Whether the machine shows the day's letters.
    fn shows_window(&self, day: &SheetDay) -> bool
        ensures { IsTrue result ↔ ShowsWindow self.now day.now }
    {
        match (self.parts(), day.entry()) {
            (Parts::Rotor(parts), Entry::Rotor(entry)) => {
                have_letters(parts.model, &parts.letters, entry.wheels.as_slice())
            }
            (Parts::Pin(parts), Entry::Pin(entry)) => parts.letters == entry.window,
            _ => false,
        }
    }
}

/// Whether a rotor machine has the day's model, wheels, rings and reflector, and the day's cables in any order.
fn is_rotor_on_key(parts: &RotorParts, entry: &RotorEntry) -> bool
    requires { AreLegalRotorParts parts.now }
    ensures { IsTrue result ↔ IsRotorOnKey parts.now (rotor_values entry.now) }
{
    if parts.model != entry.model || parts.reflector != entry.reflector {
        return false;
    }
    let seats = entry.wheels.seats();
    if parts.slots.as_slice() != seats.as_slice() {
        return false;
    }
    if !have_rings(parts.model, &parts.rings, entry.wheels.as_slice()) {
        return false;
    }
    has_cables(parts, cables_of(entry.pairs.as_slice()))
}

/// Whether each of the day's `wheels` has the day's ring. `rings` are the machine's rings, in box order.
fn have_rings(model: Model, rings: &PerWheel<Letter>, wheels: &[SheetWheel]) -> bool
    requires { length rings.now ≡ length (box_of model) }
    ensures { IsTrue result
        ↔ AllByRecursion (λ w. slice_get rings.now (place_in_box model w.wheel) ≡ Some w.ring)
        wheels.now }
{
    match wheels {
        [] => true,
        [first, rest @ ..] => {
            letter_of_wheel(model, rings, first.wheel) == Some(first.ring)
                && have_rings(model, rings, rest)
        }
    }
}

/// Whether each of the day's `wheels` shows the day's letter. `letters` are the machine's window letters, in box order.
fn have_letters(model: Model, letters: &PerWheel<Letter>, wheels: &[SheetWheel]) -> bool
    requires { length letters.now ≡ length (box_of model) }
    ensures { IsTrue result
        ↔ AllByRecursion (λ w. slice_get letters.now (place_in_box model w.wheel) ≡ Some w.letter)
        wheels.now }
{
    match wheels {
        [] => true,
        [first, rest @ ..] => {
            letter_of_wheel(model, letters, first.wheel) == Some(first.letter)
                && have_letters(model, letters, rest)
        }
    }
}

/// Whether `rows` are the same readings as `readings`, in any order.
fn are_same_readings(readings: [Reading; 27], rows: [Reading; 27]) -> bool
    ensures { IsTrue result ↔ IsPermutation readings rows }
{
    let (mut readings, mut rows) = (readings, rows);
    readings.sort_unstable();
    rows.sort_unstable();
    readings == rows
}

/// Whether the cables of `parts` are `cables`, in any order.
fn has_cables(parts: &RotorParts, cables: [Cable; 13]) -> bool
    ensures { IsTrue result ↔ IsPermutation parts.now.cables cables }
{
    let (mut parts, mut cables) = (*parts, cables);
    parts.cables.sort_unstable();
    cables.sort_unstable();
    parts.cables == cables
}

/// The 13 cables of a day: a cable for each of `pairs`, and then empty cables.
fn cables_of(pairs: &[(Letter, Letter)]) -> [Cable; 13]
    requires { length pairs.now ≤ 13 }
    ensures { result ≡ cables_of pairs.now }
{
    let mut cables = [(None, None); 13];
    for place in 0..13 {
        cables[place] = cable_of_column(column_at(pairs, place));
    }
    cables
}

/// The cable with the letters of `column` in alphabetical order. If `column` is `None`, the cable is empty.
fn cable_of_column(column: Option<(Letter, Letter)>) -> Cable
    ensures { result ≡ cable_of_column column }
{
    match column {
        Some((one, other)) => {
            let (first, second) = letters_in_order(one, other);
            (Some(first), Some(second))
        }
        None => (None, None),
    }
}
