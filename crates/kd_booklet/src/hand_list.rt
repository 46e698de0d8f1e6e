//! The settings of a shortest card, in an order that suits an operator.
ghost use Rattle.std.specs.Prelude.{◌≡◌};
ghost use Rattle.kd_state.specs.Machine.{model_of};
ghost use Rattle.kd_state.specs.SheetDay.{day_model};
ghost use Rattle.kd_booklet.specs.HandList.{IsHandList};

use crate::stages::hand_order;
use kd_card::Card;
use kd_plan::plan;
use kd_state::{Machine, Settings, SheetDay};

/// Plans a shortest card from `machine` to `day`, and returns its settings: rings come first, window letters last.
pub(crate) fn plan_by_hand(machine: &Machine, day: &SheetDay) -> Settings
    requires { model_of machine.now ≡ day_model day.now }
    ensures { IsHandList machine.now day.now result.items }
{
    let Card { settings, .. } = plan(machine, day).unwrap();
    hand_order(&settings)
}
