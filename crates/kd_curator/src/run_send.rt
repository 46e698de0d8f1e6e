//! The command `send`: writes an HTML page that shows how to encipher an order by hand.
ghost use Rattle.std.specs.Prelude.{◌≡◌, ◌||◌, false, IsErr};
ghost use Rattle.std.specs.Option.{option_copied};
ghost use Rattle.kd_sheet.specs.Sheet.{day_of};
ghost use Rattle.kd_tables.specs.Ports.{port};
ghost use Rattle.kd_curator.specs.MachineAndSheet.{IsAnswerOnSheet};
ghost use Rattle.kd_curator.specs.Refusals.{is_device};
ghost use Rattle.kd_curator.specs.RunSend.{WritesSendPage};

use crate::fault::{PageFault, Refused};
use crate::machine_and_sheet::{DayFiles, read_both};
use kd_message::{PageOptions, write_send_page};
use kd_state::{Machine, SheetDay};
use kd_tables::Sink;
use std::alloc::Global;

/// Writes the page for sending `order` on the machine of `files`. The machine must be on the day's key.
///
/// Faults are tested in this order: faults of the machine file, faults of the sheet, `NoSuchDay`, `NotReady`,
/// `NotOnKey`, faults of the order. For all of these faults, nothing is written. For `Device`, only a prefix of the
/// page is written.
pub fn run_send<W: Sink>(
    alloc: Global,
    options: PageOptions,
    files: DayFiles<'_>,
    order: &[u8],
    sink: &mut W,
) -> Result<(), Refused>
    ensures page { IsAnswerOnSheet files.entry.machine.now files.entry.sheet.now
        (λ m month. WritesSendPage options.results options.language
        (day_of month files.entry.number) m order.now
        (port W.taken W.has_failed sink.old sink.new) result) result }
    ensures untouched { IsErr result → is_device result ≡ false → sink.new ≡ sink.old }
    ensures failed { W.has_failed sink.new ≡ (W.has_failed sink.old || is_device result) }
{
    let (machine, sheet) = read_both(alloc, files.machine, files.sheet)?;
    let day = sheet.day(files.number);
    write_order(alloc, options, &machine, day, order, sink)
}

/// Like `run_send`, but with a machine and a day in place of files. `day` is `None` if the sheet lacks the day.
fn write_order<W: Sink>(
    alloc: Global,
    options: PageOptions,
    machine: &Machine,
    day: Option<&SheetDay>,
    order: &[u8],
    sink: &mut W,
) -> Result<(), Refused>
    ensures page { WritesSendPage options.results options.language (option_copied day.entry) machine.now
        order.now (port W.taken W.has_failed sink.old sink.new) result }
    ensures untouched { IsErr result → is_device result ≡ false → sink.new ≡ sink.old }
    ensures failed { W.has_failed sink.new ≡ (W.has_failed sink.old || is_device result) }
{
    let Some(day) = day else {
        return Err(Refused::from(PageFault::NoSuchDay));
    };
    match write_send_page(alloc, options, machine, day, order, sink) {
        Ok(()) => Ok(()),
        Err(fault) => Err(Refused::of_send(fault)),
    }
}
