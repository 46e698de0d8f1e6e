//! A machine and a day of the same model, as one value.
use super::Machine;
use super::parts::Parts;
use super::pin_parts::PinParts;
use super::rotor_parts::RotorParts;
use crate::sheet_day::SheetDay;
use crate::sheet_day::entry::Entry;
use crate::sheet_day::pin_entry::PinEntry;
use crate::sheet_day::rotor_entry::RotorEntry;

/// The parts of a machine, and the values of a day of the same model.
#[derive(Clone, Copy)]
pub enum OneModel<'a> {
    /// An Enigma I, an M3 or an M4, and a day for it.
    Rotor(&'a RotorParts, &'a RotorEntry),
    /// A Converter M-209, and a day for it.
    Pin(&'a PinParts, &'a PinEntry),
}

impl Machine {
    ghost use Rattle.std.specs.Prelude.{◌≢◌, MatchOption};
    ghost use Rattle.kd_state.specs.Machine.{IsMachine, model_of};
    ghost use Rattle.kd_state.specs.SheetDay.{IsLegalDay, day_model};
    ghost use Rattle.kd_state.specs.OneModel.{IsOneModelOf};

    /// The machine's parts and the day's values; `None` if machine and day are of different models.
    pub fn of_one_model<'a>(&'a self, day: &'a SheetDay) -> Option<OneModel<'a>>
        ensures parted { MatchOption result
            (model_of self.now ≢ day_model day.now)
            (IsOneModelOf self.now day.now) }
        ensures machine { IsMachine self.now }
        ensures day { IsLegalDay day.now }
    {
        match (self.parts(), day.entry()) {
            (Parts::Rotor(parts), Entry::Rotor(entry)) if parts.model == entry.model => {
                Some(OneModel::Rotor(parts, entry))
            }
            (Parts::Pin(parts), Entry::Pin(entry)) => Some(OneModel::Pin(parts, entry)),
            _ => None,
        }
    }
}
