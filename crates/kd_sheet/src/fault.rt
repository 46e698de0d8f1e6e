//! `SheetFault`: why bytes aren't a machine file or a key sheet.
ghost use Rattle.std.specs.Prelude.{◌≡◌, Some};
ghost use Rattle.kd_sheet.specs.FaultText.{sheet_fault_text};

use super::key::Key;
use kd_tables::{Refusal, RefusalText};
use std::fmt;
use thiserror::Error;

/// Why a file is refused: the first fault, in the order in which the file's keys are tested.
#[derive(Clone, Copy, Debug, PartialEq, Eq, Error)]
pub enum SheetFault {
    /// The bytes aren't a TOML document.
    NotToml,
    /// The text at `model` names no model, or it names the M4 in a machine file of version 1.
    UnknownModel,
    /// A required key is absent.
    Missing(Key),
    /// A key's value is wrong.
    ///
    /// The value, or one of its items, has one of these faults:
    /// - It has the wrong type, form or length.
    /// - It is a number out of range.
    /// - It should name a wheel, or a reflector of the model, but doesn't.
    /// - It has a letter that isn't on its pin wheel, or names a pin twice.
    BadValue(Key),
    /// A letter occurs twice among the cables, or among the pairs.
    LetterTwice,
    /// A wheel is in two slots.
    WheelTwice,
    /// A wheel is in a slot where the model doesn't allow it.
    WheelNotAllowed,
    /// The bar with this number has no valid standing, or the row with this number has no valid reading.
    ///
    /// Bars and rows are counted from 1.
    BadRow(u8),
    /// Two days of a sheet have this number.
    DayTwice(u8),
    /// Memory ran out while the file was read.
    NoMemory,
}

impl SheetFault {
    /// The refusal's number and name, then the fault's key or number if there is one, as in `20 Missing rings`.
    pub fn text(&self) -> RefusalText
        ensures { result.bytes ≡ sheet_fault_text self.now }
    {
        match *self {
            SheetFault::NotToml => Refusal::NotToml.text(),
            SheetFault::UnknownModel => Refusal::UnknownModel.text(),
            SheetFault::Missing(key) => Refusal::Missing.text_with_word(key.name()),
            SheetFault::BadValue(key) => Refusal::BadValue.text_with_word(key.name()),
            SheetFault::LetterTwice => Refusal::LetterTwice.text(),
            SheetFault::WheelTwice => Refusal::WheelTwice.text(),
            SheetFault::WheelNotAllowed => Refusal::WheelNotAllowed.text(),
            SheetFault::BadRow(number) => Refusal::BadRow.text_at(usize::from(number)),
            SheetFault::DayTwice(day) => Refusal::DayTwice.text_at(usize::from(day)),
            SheetFault::NoMemory => Refusal::NoMemory.text(),
        }
    }
}

impl fmt::Display for SheetFault {
    ghost output = { λ fault. Some (sheet_fault_text fault) };

    fn fmt<W: fmt::Write>(&self, f: &mut fmt::Formatter<W>) -> fmt::Result {
        f.write_str(self.text().as_str())
    }
}
