//! The command `receive`: deciphers a form, and writes its text.
ghost use Rattle.std.specs.Prelude.{◌≡◌, IsTrue};
ghost use Rattle.kd_desk.specs.Messages.{Receives};
ghost use Rattle.kd_desk.specs.OnDay.{IsAnswerOnDay};
ghost use Rattle.kd_tables.specs.Ports.{FailureAgrees, port};
ghost use Rattle.kd_desk.specs.CallAnswers.{is_refused_before_message, is_device};

use crate::fault::DeskFault;
use crate::machine_and_day::find_day;
use kd_form::receive_stream;
use kd_tables::{Sink, Source};
use std::alloc::Global;

/// Receives `form` on the machine in the file `machine`, and writes the form's text.
///
/// The machine must be on the key of day `number` of the key sheet `sheet`. The form is streamed: a part's text is
/// written when the next part begins. Before the form is read, faults are tested in this order: faults of the machine
/// file, faults of the sheet, `NoSuchDay`, `NotReady`, `NotOnKey`. At these faults, nothing of the form has been read,
/// and nothing has been written.
///
/// While the form is read, the form's own faults, such as `BadByte`, can come. `ReadTooLong` comes if the form has more
/// than 1,048,576 bytes, and `Device` comes if a read or a write fails. The texts of the parts before the fault are
/// written, or a prefix of them if a write failed.
pub fn run_receive<R: Source, W: Sink>(
    alloc: Global,
    machine: &[u8],
    sheet: &[u8],
    number: u8,
    form: &mut R,
    sink: &mut W,
) -> Result<(), DeskFault>
    ensures receives { IsAnswerOnDay machine.now sheet.now number
        (λ m s. Receives m s (port R.remaining R.has_failed form.old form.new)
        (port W.taken W.has_failed sink.old sink.new) result) result }
    ensures untouched { IsTrue (is_refused_before_message result)
        → (form.new ≡ form.old) × (sink.new ≡ sink.old) }
    ensures failed { FailureAgrees (port R.remaining R.has_failed form.old form.new)
        (port W.taken W.has_failed sink.old sink.new) (is_device result) }
{
    let (machine, day) = find_day(alloc, machine, sheet, number)?;
    receive_stream(&machine, &day, form, sink).map_err(DeskFault::from)
}
