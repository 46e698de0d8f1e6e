//! The command `page`: writes an HTML page for each day. The first page starts from the machine file's machine. Each
//! later page starts from the machine to which the previous page leads.
ghost use Rattle.std.specs.Prelude.{◌≡◌, ◌||◌, ◌+◌, ◌-◌, ◌≤◌, ◌++◌, filter, false, IfErr, IfOk, IsErr, length};
ghost use Rattle.std.specs.List.{range_with_len};
ghost use Rattle.kd_state.specs.Machine.{model_of};
ghost use Rattle.kd_tables.specs.Ports.{port};
ghost use Rattle.kd_booklet.specs.Chain.{ArePlanned};
ghost use Rattle.kd_curator.specs.MachineAndSheet.{IsAnswerOnSheet};
ghost use Rattle.kd_curator.specs.Refusals.{is_device};
ghost use Rattle.kd_curator.specs.RunPage.{IsDayRefusal, WritesPages, wanted_days};
ghost use Rattle.kd_sheet.specs.Sheet.{has_day_of};

use crate::fault::{PageFault, Refused};
use crate::machine_and_sheet::read_both;
use kd_booklet::{DayPlans, plan_days, write_pages};
use kd_curator_command::Days;
use kd_language::Language;
use kd_look::NamedFile;
use kd_sheet::Sheet;
use kd_state::Machine;
use kd_tables::{Model, Sink};
use std::alloc::Global;

/// Writes the pages of `days` in one HTML file, in `language`. The first page starts from the machine in the file
/// `machine`.
///
/// The pages show the name of the key sheet's file, without its folder and its ending. If `days` is `None`, the pages
/// are for all days that the sheet has for the machine's model. Faults are tested in this order: faults of the machine
/// file, faults of the sheet, and then, day by day, `NoSuchDay` and `OtherModel`. For all of these faults, nothing is
/// written. For `Device`, only a prefix of the file is written.
pub fn run_page<W: Sink>(
    alloc: Global,
    language: Language,
    machine: &[u8],
    sheet: NamedFile<'_>,
    days: Option<Days>,
    sink: &mut W,
) -> Result<(), Refused>
    ensures pages { IsAnswerOnSheet machine.now sheet.entry.bytes.now
        (λ m month. WritesPages language sheet.entry.name.now month m
        (wanted_days days (model_of m) month)
        (port W.taken W.has_failed sink.old sink.new) result) result }
    ensures untouched { IsErr result → is_device result ≡ false → sink.new ≡ sink.old }
    ensures failed { W.has_failed sink.new ≡ (W.has_failed sink.old || is_device result) }
{
    let (machine, month) = read_both(alloc, machine, sheet.bytes)?;
    let days = wanted_days(days, machine.model(), &month);
    write_days(language, sheet.name, &machine, &month, &days, sink)
}

/// Like `run_page`, but with a machine and a sheet in place of files. Allocates no memory.
pub fn write_days<W: Sink>(
    language: Language,
    name: &str,
    machine: &Machine,
    sheet: &Sheet,
    days: &Days,
    sink: &mut W,
) -> Result<(), Refused>
    ensures pages { WritesPages language name.now sheet.now machine.now days.now
        (port W.taken W.has_failed sink.old sink.new) result }
    ensures untouched { IsErr result → is_device result ≡ false → sink.new ≡ sink.old }
    ensures failed { W.has_failed sink.new ≡ (W.has_failed sink.old || is_device result) }
{
    let plans = plan_or_refuse(machine, sheet, days)?;
    let Some((first, others)) = plans.as_slice().split_first() else {
        return Err(Refused::from(PageFault::NoSuchDay));
    };
    write_pages(sink, language, name, machine, first, others)?;
    Ok(())
}

/// Plans the days. If one or more days can't be planned, refuses the first of them.
fn plan_or_refuse(machine: &Machine, sheet: &Sheet, days: &Days) -> Result<DayPlans, Refused>
    ensures planned { IfOk result
        (λ plans. ArePlanned sheet.now machine.now days.now plans.items) }
    ensures refused { IfErr result (IsDayRefusal (model_of machine.now) sheet.now days.now) }
{
    let numbers = days.as_slice();
    match plan_days(machine, sheet, numbers) {
        Ok(plans) => Ok(plans),
        Err(fault) => Err(Refused::of_day(fault, numbers.len() > 1)),
    }
}

/// The days in `days`. If `days` is `None`, all days that the sheet has for the model.
fn wanted_days(days: Option<Days>, model: Model, sheet: &Sheet) -> Days
    ensures { result ≡ wanted_days days model sheet.now }
{
    match days {
        Some(days) => days,
        None => {
            let mut days = Days::new();
            add_days_of(&mut days, model, sheet, 1);
            days
        }
    }
}

/// Adds the days that the sheet has for the model, from `number` on.
fn add_days_of(days: &mut Days, model: Model, sheet: &Sheet, number: u8)
    requires { length days.old + (32 - number) ≤ 31 }
    ensures { days.new ≡ days.old ++ filter (has_day_of model sheet.now)
        (range_with_len number (32 - number)) }
{
    if number < 32 {
        days.add_if(number, sheet.has_day_of(model, number));
        add_days_of(days, model, sheet, number + 1);
    }
}
