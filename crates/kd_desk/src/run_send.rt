//! The command `send`: enciphers an order, and writes its form.
ghost use Rattle.std.specs.Prelude.{◌≡◌, IsTrue};
ghost use Rattle.kd_desk.specs.Messages.{Sends};
ghost use Rattle.kd_desk.specs.OnDay.{IsAnswerOnDay};
ghost use Rattle.kd_tables.specs.Ports.{FailureAgrees, port};
ghost use Rattle.kd_desk.specs.CallAnswers.{is_refused_before_message, is_device};

use crate::fault::DeskFault;
use crate::machine_and_day::find_day;
use kd_form::send_stream;
use kd_tables::{Sink, Source};
use std::alloc::Global;

/// Sends `order` on the machine in the file `machine`, and writes the order's form.
///
/// The machine must be on the key of day `number` of the key sheet `sheet`. The order is streamed: a part is written
/// when the first letter of the next part is read. Before the order is read, faults are tested in this order: faults of
/// the machine file, faults of the sheet, `NoSuchDay`, `NotReady`, `NotOnKey`. At these faults, nothing of the order
/// has been read, and nothing has been written.
///
/// While the order is read, the order's own faults, such as `BadByte`, can come. `ReadTooLong` comes if the order has
/// more than 1,048,576 bytes, and `Device` comes if a read or a write fails. The parts made before the fault are
/// written, or a prefix of them if a write failed.
pub fn run_send<R: Source, W: Sink>(
    alloc: Global,
    machine: &[u8],
    sheet: &[u8],
    number: u8,
    order: &mut R,
    sink: &mut W,
) -> Result<(), DeskFault>
    ensures sends { IsAnswerOnDay machine.now sheet.now number
        (λ m s. Sends m s (port R.remaining R.has_failed order.old order.new)
        (port W.taken W.has_failed sink.old sink.new) result) result }
    ensures untouched { IsTrue (is_refused_before_message result)
        → (order.new ≡ order.old) × (sink.new ≡ sink.old) }
    ensures failed { FailureAgrees (port R.remaining R.has_failed order.old order.new)
        (port W.taken W.has_failed sink.old sink.new) (is_device result) }
{
    let (machine, day) = find_day(alloc, machine, sheet, number)?;
    send_stream(&machine, &day, order, sink).map_err(DeskFault::from)
}
