//! Sends an order: `send` returns the order's form, and `send_stream` writes this form to a sink.
//!
//! An order has a line of keys for each part, then the line TEXT, and then the text to send.
ghost use Rattle.std.specs.Prelude.{◌≡◌, ℕ, List, IsTrue};
ghost use Rattle.kd_tables.specs.Ports.{FailureAgrees, port};
ghost use Rattle.kd_form.specs.Sending.{IsSendFault, IsFormOf};
ghost use Rattle.kd_form.specs.SendStream.{order_message};
ghost use Rattle.kd_form.specs.Streams.{StreamsOnKey, is_device, is_off_key};
ghost use Rattle.kd_form.specs.OnTheKey.{IsAnswerOnKey};

mod body_writer;
mod heading_writer;
mod key_checks;
mod key_line;
pub mod order_head;
pub(crate) mod order_reader;
pub mod part;
mod part_writer;
mod pattern_line;

use super::fault::FormFault;
use super::machine_check::check_machine;
use super::stream::reader::MessageReader;
use super::stream::stream_message;
use super::stream::whole_message::message_result;
use kd_state::{Machine, SheetDay};
use kd_tables::{Sink, Source};
use order_reader::OrderReader;
use std::alloc::Global;

/// Enciphers `order` into a form on `machine`, which must be on the day's key.
///
/// `NotReady` and `NotOnKey` are tested first. Then come faults of the order's head, of the parts' keys, and of the
/// text's bytes. `EmptyText` and `PartKeys` are tested last. `NoMemory` comes only if the order has no fault.
pub fn send(
    alloc: Global,
    machine: &Machine,
    day: &SheetDay,
    order: &[u8],
) -> Result<Vec<u8>, FormFault>
    ensures { IsAnswerOnKey machine.now day.now
        (λ form. IsFormOf day.now order.now form.items)
        (IsSendFault day.now order.now) ((form : List ℕ) × IsFormOf day.now order.now form) result }
{
    check_machine(machine, day)?;
    message_result::<OrderReader>(alloc, day, order)
}

/// Reads an order from `source`, and writes the order's form to `sink`, part by part.
///
/// At most one part is held in memory, and nothing is allocated. `NotReady` and `NotOnKey` are returned before anything
/// is read or written. A fault that further bytes can't change is returned at once, before the rest of the source is
/// read. Other faults are found at the order's end. A part is written as soon as the first letter of the next part has
/// been read. So parts of a refused order may have been written. At most 1,048,576 bytes are read, and then one more,
/// which shows whether the source has ended.
pub fn send_stream<R: Source, W: Sink>(
    machine: &Machine,
    day: &SheetDay,
    source: &mut R,
    sink: &mut W,
) -> Result<(), FormFault>
    ensures streamed { StreamsOnKey machine.now day.now (order_message day.now)
        (port R.remaining R.has_failed source.old source.new)
        (port W.taken W.has_failed sink.old sink.new) result }
    ensures untouched { IsTrue (is_off_key result)
        → (source.new ≡ source.old) × (sink.new ≡ sink.old) }
    ensures failed { FailureAgrees (port R.remaining R.has_failed source.old source.new)
        (port W.taken W.has_failed sink.old sink.new) (is_device result) }
{
    check_machine(machine, day)?;
    stream_message(day, &mut OrderReader::start(day), source, sink)
}
