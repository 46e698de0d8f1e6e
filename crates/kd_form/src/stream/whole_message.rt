//! Reads a message that is in memory: returns its form or text, or only looks for a fault.
ghost use Rattle.std.specs.Prelude.{◌≡◌, ◌||◌, MatchResult};
ghost use Rattle.kd_tables.specs.Ports.{port};
ghost use Rattle.kd_form.specs.OnTheKey.{IsFaultOrNoMemory};
ghost use Rattle.kd_form.specs.StreamSteps.{IsWriteMessageAnswer, HasResult, is_device_interruption};

use super::feeding::feed_all;
use super::interruption::Interruption;
use super::reader::{ChunkReader, MessageReader};
use super::sinks::{BytesSink, NullSink};
use crate::fault::FormFault;
use kd_state::SheetDay;
use kd_tables::Sink;
use std::alloc::Global;

/// The result of reading `message`: a form or a text, or the message's fault.
///
/// `NoMemory` is returned only for a message without a fault.
pub(crate) fn message_result<M: MessageReader + Drop>(
    alloc: Global,
    day: &SheetDay,
    message: &[u8],
) -> Result<Vec<u8>, FormFault>
    ensures { MatchResult result
        (λ text. (M.message day.now).becomes message.now text.items)
        (IsFaultOrNoMemory ((M.message day.now).refused message.now)
        (HasResult (M.message day.now) message.now)) }
{
    let mut kept = BytesSink::new(alloc);
    match write_message::<M, BytesSink>(day, message, &mut kept) {
        Ok(()) => Ok(kept.into_bytes()),
        Err(Interruption::Refused(fault)) => Err(fault),
        Err(Interruption::Device) => {
            check_message::<M>(day, message)?;
            Err(FormFault::NoMemory)
        }
    }
}

/// Returns the fault of `message`, if it has one.
pub(crate) fn check_message<M: MessageReader + Drop>(
    day: &SheetDay,
    message: &[u8],
) -> Result<(), FormFault>
    ensures { MatchResult result
        (λ _. HasResult (M.message day.now) message.now)
        ((M.message day.now).refused message.now) }
{
    write_message::<M, NullSink>(day, message, &mut NullSink)?;
    Ok(())
}

/// Reads `message`, and writes the message's form or text to `sink`.
fn write_message<M: MessageReader + Drop, W: Sink>(
    day: &SheetDay,
    message: &[u8],
    sink: &mut W,
) -> Result<(), Interruption>
    ensures written { IsWriteMessageAnswer (M.message day.now) message.now
        (port W.taken W.has_failed sink.old sink.new) result }
    ensures failed { W.has_failed sink.new ≡ (W.has_failed sink.old || is_device_interruption result) }
{
    let mut reader = M::start(day);
    prove!(message.len() < 1 << 63);
    feed_all(&mut reader, day, message, sink)?;
    reader.finish(day, sink)
}
