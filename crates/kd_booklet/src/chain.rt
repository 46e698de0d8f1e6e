//! The plans of several days: each plan starts from the machine to which the previous plan leads.
ghost use Rattle.std.specs.Prelude.{◌≡◌, ◌+◌, ◌≤◌, length, IfErr, IfOk, OnOk};
ghost use Rattle.arrayvec.specs.ArrayVec.{array_vec_len};
ghost use Rattle.kd_state.specs.Machine.{model_of};
ghost use Rattle.kd_state.specs.SheetDay.{day_model};
ghost use Rattle.kd_sheet.specs.Sheet.{day_of};
ghost use Rattle.kd_booklet.specs.Chain.{ArePlanned, IsDayFault, IsFirstFault, AddsPlans};

use crate::day_plan::{DayPlan, plan_day};
use crate::fault::{DayFault, NoPlan};
use arrayvec::ArrayVec;
use kd_sheet::Sheet;
use kd_state::{Machine, SheetDay};

/// The plans of at most 31 days, one after another.
pub type DayPlans = ArrayVec<DayPlan, 31>;

/// Plans the days `numbers`. The first plan starts from `machine`. Each later plan starts from the machine to which
/// the previous plan leads.
///
/// The fault names the first day that can't be planned: the sheet doesn't have the day, or the day is for another
/// model than the machine's.
pub fn plan_days(machine: &Machine, sheet: &Sheet, numbers: &[u8]) -> Result<DayPlans, DayFault>
    requires { length numbers.now ≤ 31 }
    ensures planned { IfOk result
        (λ plans. ArePlanned sheet.now machine.now numbers.now plans.items) }
    ensures fault { IfErr result (IsFirstFault (model_of machine.now) sheet.now numbers.now) }
{
    let mut plans = ArrayVec::new();
    add_plans(&mut plans, machine, sheet, numbers)?;
    Ok(plans)
}

/// The day `number` of the sheet, if the day is for the machine's model. The fault says that the sheet doesn't have the
/// day, or that the models differ.
pub fn day_of_model<'a>(
    machine: &Machine,
    sheet: &'a Sheet,
    number: u8,
) -> Result<&'a SheetDay, DayFault>
    ensures found { IfOk result (λ day. day_of sheet.now number ≡ Some day.now) }
    ensures model { IfOk result (λ day. model_of machine.now ≡ day_model day.now) }
    ensures fault { IfErr result (IsDayFault (model_of machine.now) sheet.now number) }
{
    let Some(day) = sheet.day(number) else {
        return Err(DayFault {
            day: number,
            why: NoPlan::NoSuchDay,
        });
    };
    if day.model() != machine.model() {
        return Err(DayFault {
            day: number,
            why: NoPlan::OtherModel,
        });
    }
    Ok(day)
}

/// Plans the days `numbers`, and appends their plans to `plans`.
fn add_plans(
    plans: &mut DayPlans,
    machine: &Machine,
    sheet: &Sheet,
    numbers: &[u8],
) -> Result<(), DayFault>
    requires { array_vec_len plans.old + length numbers.now ≤ 31 }
    ensures planned { OnOk result
        (AddsPlans sheet.now machine.now numbers.now plans.old.items plans.new.items) }
    ensures fault { IfErr result (IsFirstFault (model_of machine.now) sheet.now numbers.now) }
{
    let Some((number, numbers)) = numbers.split_first() else {
        return Ok(());
    };
    let day = day_of_model(machine, sheet, *number)?;
    let (plan, after) = plan_day(machine, day);
    plans.push(plan);
    add_plans(plans, &after, sheet, numbers)
}
