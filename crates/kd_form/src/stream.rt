//! The loop that reads a message from a source, and writes the message's result to a sink.
ghost use Rattle.std.specs.Prelude.{[]};
ghost use Rattle.kd_tables.specs.Ports.{port};
ghost use Rattle.kd_form.specs.Streams.{IsStreamed};
ghost use Rattle.kd_form.specs.StreamSteps.{HasReadSoFar};

mod feeding;
pub(crate) mod interruption;
pub(crate) mod reader;
pub(crate) mod sinks;
pub(crate) mod whole_message;

use super::fault::FormFault;
use feeding::{close, read_next};
use kd_tables::{READ_LIMIT, Sink, Source, is_at_end};
use reader::{CHUNK, ChunkReader};

/// Reads a message from `source` to its end, in chunks, and writes the message's result to `sink` meanwhile.
///
/// `context` is the day or the machine that the reader works with.
pub(crate) fn stream_message<Context, M: ChunkReader<Context>, R: Source, W: Sink>(
    context: &Context,
    reader: &mut M,
    source: &mut R,
    sink: &mut W,
) -> Result<(), FormFault>
    requires { HasReadSoFar (M.message context.now) (M.holds context.now reader.old) [] [] }
    ensures { IsStreamed (M.message context.now) (port R.remaining R.has_failed source.old source.new)
        (port W.taken W.has_failed sink.old sink.new) result }
{
    let mut buffer = [0; CHUNK];
    let mut read = 0;
    while read < READ_LIMIT {
        match read_next(
            reader,
            context,
            source,
            sink,
            &mut buffer,
            READ_LIMIT - read,
        )? {
            0 => return close(reader, context, sink),
            count => read += count,
        }
    }
    if !is_at_end(source)? {
        return Err(FormFault::ReadTooLong);
    }
    close(reader, context, sink)
}
