//! `SpreadsheetFault`: why no key sheet is made from a table.
use std::alloc::AllocError;
use thiserror::Error;

/// Why no key sheet is made from a table.
#[derive(Clone, Copy, Debug, PartialEq, Eq, Error)]
pub enum SpreadsheetFault {
    /// The table has faults, and notes on them were written.
    #[error("the table has faults")]
    Refused,
    /// Memory ran out while the table was read, or while notes were made.
    #[error("no memory")]
    NoMemory,
}

impl From<AllocError> for SpreadsheetFault {
    ghost use Rattle.std.specs.Prelude.{◌≡◌};
    ghost use Rattle.kd_spreadsheet.specs.declared.fault.SpreadsheetFault.TheVariants as faults;

    ghost from_gives = { λ _ fault. fault ≡ faults.NoMemory };

    fn from(_: AllocError) -> SpreadsheetFault {
        SpreadsheetFault::NoMemory
    }
}
