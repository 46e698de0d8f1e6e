//! The values of a Converter's day.
use crate::machine::pin_parts::are_on_wheels;
use crate::prover_facts::{learn_pins, learn_readings};
use crate::sheet_day::entry::is_day_number;
use kd_pins::PinSet;
use kd_tables::{Letter, Reading};

/// The values of a day of the Converter M-209.
#[derive(Clone, Copy)]
pub struct PinEntry {
    pub day: u8,
    /// The readings that the bars must have. It doesn't matter which bar has which reading.
    pub rows: [Reading; 27],
    /// Which pins are effective.
    pub pins: PinSet,
    /// The letter that each wheel shows, from wheel 1 to wheel 6.
    pub window: [Letter; 6],
    /// The two letters that name the key list.
    pub list: [Letter; 2],
}

impl PinEntry {
    ghost use Rattle.std.specs.Prelude.{◌↔◌, IsTrue};
    ghost use Rattle.kd_state.specs.SheetDay.{IsLegalPinDay};
    ghost use Rattle.kd_state.specs.Entry.{pin_values};

    /// Whether the values are legal for a day of a key sheet.
    pub(crate) fn is_legal(&self) -> bool
        ensures { IsTrue result ↔ IsLegalPinDay (pin_values self.now) }
    {
        learn_readings(&self.rows);
        learn_pins(self.pins);
        prove!(self.list[0].index() < 26 && self.list[1].index() < 26);
        is_day_number(self.day) && are_on_wheels(&self.window)
    }
}
