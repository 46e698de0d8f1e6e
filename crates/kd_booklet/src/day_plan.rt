//! A day's settings, and the machine to which these settings lead.
ghost use Rattle.std.specs.Prelude.{◌≡◌};
ghost use Rattle.kd_state.specs.Machine.{model_of};
ghost use Rattle.kd_state.specs.SheetDay.{day_model};
ghost use Rattle.kd_booklet.specs.DayPlan.{IsDayPlan};

use crate::hand_list::plan_by_hand;
use kd_state::laws::settings_lead_or_are_refused;
use kd_state::{Entry, Machine, Parts, Settings, SheetDay, carry_all};

/// A day's settings, in an order that suits an operator.
#[derive(Default, Drop)]
pub struct DayPlan {
    /// The day's number.
    pub day: u8,
    pub settings: Settings,
}

/// Plans a shortest list of settings from `machine` to `day`. Returns the plan, and the machine after the settings.
pub fn plan_day(machine: &Machine, day: &SheetDay) -> (DayPlan, Machine)
    requires { model_of machine.now ≡ day_model day.now }
    ensures plan { IsDayPlan machine.now day.now result.0 result.1 }
    ensures model { model_of result.1 ≡ model_of machine.now }
{
    // The calls of `parts` and `entry` show the prover that the machine and the day are legal.
    prove!(matches!(machine.parts(), Parts::Rotor(_) | Parts::Pin(_)));
    prove!(matches!(day.entry(), Entry::Rotor(_) | Entry::Pin(_)));
    settings_lead_or_are_refused();
    let settings = plan_by_hand(machine, day);
    let after = carry_all(machine, settings.as_slice()).unwrap();
    prove!(matches!(after.parts(), Parts::Rotor(_) | Parts::Pin(_)));
    let day = day.day();
    (DayPlan { day, settings }, after)
}
