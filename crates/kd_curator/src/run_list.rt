//! The command `list`: writes the settings of a day's page as a list.
ghost use Rattle.std.specs.Prelude.{◌≡◌, ◌||◌, [], ◌∷◌, ◌++◌, false, All, IsErr, OnOk, is_err};
ghost use Rattle.kd_state.specs.Line.{list_text, setting_line, IsSettingInRange};
ghost use Rattle.kd_tables.specs.Ports.{port};
ghost use Rattle.kd_tables.specs.Writing.{Writes};
ghost use Rattle.kd_curator.specs.MachineAndSheet.{IsAnswerOnSheet};
ghost use Rattle.kd_curator.specs.Refusals.{is_device};
ghost use Rattle.kd_curator.specs.RunList.{WritesList};

use crate::fault::Refused;
use crate::machine_and_sheet::read_both;
use kd_booklet::{day_of_model, plan_day};
use kd_sheet::Sheet;
use kd_state::{Machine, Setting};
use kd_tables::{Device, Sink, put_all};
use std::alloc::Global;

/// Writes a shortest list from the machine in the file `machine` to the day `number` of the sheet `sheet`.
///
/// The settings are in the order of the day's page. Faults are tested in this order: faults of the machine file, faults
/// of the sheet, `NoSuchDay`, `OtherModel`. For all of these faults, nothing is written. For `Device`, only a prefix of
/// the list is written.
pub fn run_list<W: Sink>(
    alloc: Global,
    machine: &[u8],
    sheet: &[u8],
    number: u8,
    sink: &mut W,
) -> Result<(), Refused>
    ensures list { IsAnswerOnSheet machine.now sheet.now
        (λ m month. WritesList month m number (port W.taken W.has_failed sink.old sink.new) result)
        result }
    ensures untouched { IsErr result → is_device result ≡ false → sink.new ≡ sink.old }
    ensures failed { W.has_failed sink.new ≡ (W.has_failed sink.old || is_device result) }
{
    let (machine, sheet) = read_both(alloc, machine, sheet)?;
    write_list(&machine, &sheet, number, sink)
}

/// Like `run_list`, but with a machine and a sheet in place of files. Allocates no memory.
pub fn write_list<W: Sink>(
    machine: &Machine,
    sheet: &Sheet,
    number: u8,
    sink: &mut W,
) -> Result<(), Refused>
    ensures list { WritesList sheet.now machine.now number
        (port W.taken W.has_failed sink.old sink.new) result }
    ensures untouched { IsErr result → is_device result ≡ false → sink.new ≡ sink.old }
    ensures failed { W.has_failed sink.new ≡ (W.has_failed sink.old || is_device result) }
{
    let day = match day_of_model(machine, sheet, number) {
        Ok(day) => day,
        Err(fault) => return Err(Refused::of_day(fault, false)),
    };
    let (plan, _) = plan_day(machine, day);
    put_lines(sink, plan.settings.as_slice())?;
    Ok(())
}

fn put_lines<W: Sink>(sink: &mut W, settings: &[Setting]) -> Result<(), Device>
    ensures text { Writes (W.taken sink.old) (W.taken sink.new) (list_text settings.now) result }
    ensures in_range { OnOk result (All IsSettingInRange settings.now) }
    ensures failed { W.has_failed sink.new ≡ (W.has_failed sink.old || is_err result) }
{
    if let Some((setting, rest)) = settings.split_first() {
        put_line(sink, *setting)?;
        put_lines(sink, rest)?;
    }
    Ok(())
}

/// Writes the line of a setting, and LF.
fn put_line<W: Sink>(sink: &mut W, setting: Setting) -> Result<(), Device>
    ensures in_range { IsSettingInRange setting }
    ensures text { Writes (W.taken sink.old) (W.taken sink.new) (setting_line setting ++ 10 ∷ []) result }
    ensures failed { W.has_failed sink.new ≡ (W.has_failed sink.old || is_err result) }
{
    let mut line = setting.line();
    line.push('\n');
    put_all(sink, line.as_str().as_bytes())
}
