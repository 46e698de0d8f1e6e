//! Machines and days, read from their files. There is none if a file has a fault, or if memory runs out.
use crate::named::TextName::{DayWithoutPins, M1, PlainDay, WithoutPins};
use crate::named::{File, changed};
use kd_sheet::{read_machine, read_sheet};
use kd_state::{Machine, SheetDay};
use std::alloc::Global;

/// A machine file, and a sheet with day 1.
pub type Told = (File, File);

/// A machine with its day.
pub type Keyed = (Machine, SheetDay);

/// An Enigma I on its day.
pub const PLAIN: Told = ((M1, "", ""), (PlainDay, "", ""));

/// A Converter without effective pins, on its day.
pub const IDLE: Told = ((WithoutPins, "", ""), (DayWithoutPins, "", ""));

/// Reads the machine from a machine file, after the file's change.
pub fn machine(alloc: Global, file: &File) -> Option<Machine> {
    let text = changed(alloc, file).ok()?;
    read_machine(alloc, text.as_bytes()).ok()
}

/// Reads day 1 from a sheet, after the sheet's change.
pub fn day(alloc: Global, sheet: &File) -> Option<SheetDay> {
    let text = changed(alloc, sheet).ok()?;
    read_sheet(alloc, text.as_bytes()).ok()?.into_day(1)
}

/// Reads a machine and its day.
pub fn keyed(alloc: Global, (file, sheet): &Told) -> Option<Keyed> {
    Some((machine(alloc, file)?, day(alloc, sheet)?))
}
