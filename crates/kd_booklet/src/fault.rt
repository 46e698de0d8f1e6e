//! `DayFault`: which day can't be planned, and why.

/// Why a day can't be planned.
#[derive(Clone, Copy, Debug, PartialEq, Eq)]
pub enum NoPlan {
    /// The sheet doesn't have the day.
    NoSuchDay,
    /// The machine and the sheet's day are of different models.
    OtherModel,
}

/// A day that can't be planned, and why.
#[derive(Clone, Copy, Debug, PartialEq, Eq)]
pub struct DayFault {
    /// The day's number.
    pub day: u8,
    pub why: NoPlan,
}
