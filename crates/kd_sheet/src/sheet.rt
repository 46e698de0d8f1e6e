//! A key sheet: a month in which some days have an entry.
ghost use Rattle.std.specs.Prelude.{◌≡◌, ◌↔◌, option_copied, slice_set, ◌-◌, IfSome, IsTrue, List, [], Option, Some};
ghost use Rattle.kd_state.specs.SheetDay.{Day, day_number};
ghost use Rattle.kd_sheet.specs.Sheet.{day_of, has_day_of, has_days_of, month_of, HasDayOf, IsMonth};

use kd_state::SheetDay;
use kd_tables::Model as MachineModel;
use std::marker::Model;

/// The number of days of the longest month.
pub const DAYS: u8 = 31;

/// A key sheet: a month in which some days have an entry. The days are stored inline, without heap memory.
#[derive(Drop)]
pub struct Sheet {
    /// Day `n` is at index `n - 1`.
    days: [Option<SheetDay>; DAYS as usize],
}

impl Model for Sheet {
    ghost Value = { List (Option Day) };

    ghost view = { λ sheet. sheet.days };

    ghost invariant = { λ sheet. IsMonth sheet.days };
}

impl Sheet {
    /// Creates a sheet without days.
    #[tactic(auto, using(crate::proofs::ReadBack::Described::blank_month, crate::proofs::ReadBack::Described::empty_month))]
    pub(crate) fn new() -> Self
        ensures { result ≡ month_of [] }
    {
        Sheet {
            days: Default::default(),
        }
    }

    /// Day `number`, if the sheet has this day.
    pub fn day(&self, number: u8) -> Option<&SheetDay>
        ensures value { option_copied result ≡ day_of self.now number }
        ensures number { IfSome result (λ day. day_number day.now ≡ number) }
    {
        let index = usize::from(number).checked_sub(1)?;
        self.days.get(index)?.as_ref()
    }

    /// Whether the sheet has day `number`, and this day is of `model`.
    #[tactic(auto, unfolding(crate::specs::Sheet::has_day_of))]
    pub fn has_day_of(&self, model: MachineModel, number: u8) -> bool
        ensures value { result ≡ has_day_of model self.now number }
        ensures day { IsTrue result ↔ HasDayOf model self.now number }
    {
        match self.day(number) {
            Some(day) => day.model() == model,
            None => false,
        }
    }

    /// Whether the sheet has a day of `model`.
    pub fn has_days_of(&self, model: MachineModel) -> bool
        ensures { result ≡ has_days_of model self.now }
    {
        (1..DAYS + 1).any(|number| self.has_day_of(model, number))
    }

    /// Takes day `number` out of the sheet, if the sheet has this day.
    pub fn into_day(self, number: u8) -> Option<SheetDay>
        ensures value { result ≡ day_of self number }
        ensures number { IfSome result (λ day. day_number day ≡ number) }
    {
        let Sheet { mut days } = self;
        let index = usize::from(number).checked_sub(1)?;
        days.get_mut(index)?.take()
    }

    /// Inserts `day` into the sheet. If the sheet has a day with the same number, `day` replaces that day.
    pub(crate) fn insert(&mut self, day: SheetDay)
        ensures { self.new ≡ slice_set self.old (day_number day - 1) (Some day) }
    {
        let index = usize::from(day.day()) - 1;
        self.days[index] = Some(day);
    }
}
