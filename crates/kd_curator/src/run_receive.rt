//! The command `receive`: writes an HTML page that shows a form's text, and how to decipher the form by hand.
ghost use Rattle.std.specs.Prelude.{◌≡◌, ◌||◌, false, IsErr};
ghost use Rattle.std.specs.Option.{option_copied};
ghost use Rattle.kd_sheet.specs.Sheet.{day_of};
ghost use Rattle.kd_tables.specs.Ports.{port};
ghost use Rattle.kd_curator.specs.MachineAndSheet.{IsAnswerOnSheet};
ghost use Rattle.kd_curator.specs.Refusals.{has_written, is_device};
ghost use Rattle.kd_curator.specs.RunReceive.{TellsOfForm, WritesReceivePage};
ghost use Rattle.kd_pictures.specs.Drawing.{Draws};
ghost use Rattle.kd_spreadsheet.specs.Notes.{Tells};

use crate::fault::{PageFault, Refused};
use crate::machine_and_sheet::{DayFiles, read_both};
use kd_form::machine_check::check_machine;
use kd_message::{PageOptions, write_receive_page};
use kd_state::{Machine, SheetDay};
use kd_tables::Sink;
use std::alloc::Global;

/// Writes the page for receiving `form` on the machine of `files`. The machine must be on the day's key.
///
/// Faults are tested in this order: faults of the machine file, faults of the sheet, `NoSuchDay`, `NotReady`,
/// `NotOnKey`, `TooManyParts`. For all of these faults, nothing is written. For `Device`, only a prefix of the page is
/// written. For `NotWhole`, the page is written. If a page is written, notes are written to `errors`: what is wrong
/// with the form, and what the sender should repeat.
pub fn run_receive<W: Sink, E: Sink>(
    alloc: Global,
    options: PageOptions,
    files: DayFiles<'_>,
    form: &[u8],
    sink: &mut W,
    errors: &mut E,
) -> Result<(), Refused>
    ensures page { IsAnswerOnSheet files.entry.machine.now files.entry.sheet.now
        (λ m month. WritesReceivePage options.results options.language
        (day_of month files.entry.number) m form.now
        (port W.taken W.has_failed sink.old sink.new) result) result }
    ensures untouched { IsErr result → has_written result ≡ false → sink.new ≡ sink.old }
    ensures failed { W.has_failed sink.new ≡ (W.has_failed sink.old || is_device result) }
    ensures told { IsAnswerOnSheet files.entry.machine.now files.entry.sheet.now
        (λ m month. TellsOfForm options.language (day_of month files.entry.number) m form.now
        (λ text. Draws E.taken E.has_failed errors.old errors.new text) result) result }
    ensures quiet { IsErr result → has_written result ≡ false → errors.new ≡ errors.old }
    ensures tells { Tells (port E.taken E.has_failed errors.old errors.new) }
{
    let (machine, sheet) = read_both(alloc, files.machine, files.sheet)?;
    let day = sheet.day(files.number);
    write_form(alloc, options, &machine, day, form, sink, errors)
}

/// Like `run_receive`, but with a machine and a day in place of files. `day` is `None` if the sheet lacks the day.
fn write_form<W: Sink, E: Sink>(
    alloc: Global,
    options: PageOptions,
    machine: &Machine,
    day: Option<&SheetDay>,
    form: &[u8],
    sink: &mut W,
    errors: &mut E,
) -> Result<(), Refused>
    ensures page { WritesReceivePage options.results options.language
        (option_copied day.entry) machine.now form.now
        (port W.taken W.has_failed sink.old sink.new) result }
    ensures untouched { IsErr result → has_written result ≡ false → sink.new ≡ sink.old }
    ensures failed { W.has_failed sink.new ≡ (W.has_failed sink.old || is_device result) }
    ensures told { TellsOfForm options.language (option_copied day.entry) machine.now form.now
        (λ text. Draws E.taken E.has_failed errors.old errors.new text) result }
    ensures quiet { IsErr result → has_written result ≡ false → errors.new ≡ errors.old }
    ensures tells { Tells (port E.taken E.has_failed errors.old errors.new) }
{
    let Some(day) = day else {
        return Err(Refused::from(PageFault::NoSuchDay));
    };
    if let Err(fault) = check_machine(machine, day) {
        return Err(Refused::of_message(fault));
    }
    match write_receive_page(alloc, options, day, form, sink, errors) {
        Ok(true) => Ok(()),
        Ok(false) => Err(Refused::from(PageFault::NotWhole)),
        Err(fault) => Err(Refused::of_receive(fault)),
    }
}
