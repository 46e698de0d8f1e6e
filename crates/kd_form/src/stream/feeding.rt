//! Reads one chunk of a message from the source, feeds it to the reader, and writes the reader's output.
ghost use Rattle.std.specs.Prelude.{◌≡◌, ◌<◌, ◌≤◌, ◌||◌, [], ◌∷◌, length, OnOk};
ghost use Rattle.kd_tables.specs.Ports.{port};
ghost use Rattle.kd_form.specs.StreamSteps.{HasRoom, IsFeedAllAnswer, IsCloseAnswer, IsReadNextAnswer};
ghost use Rattle.kd_form.specs.StreamSteps.{is_device_interruption};

use super::interruption::Interruption;
use super::reader::{CHUNK, ChunkReader, MessageReader, Output};
use crate::fault::FormFault;
use arrayvec::ArrayVec;
use kd_state::SheetDay;
use kd_tables::{Sink, Source, put_all};

/// Feeds `bytes` to `reader`, and writes the reader's output to `sink`.
pub(crate) fn feed_all<M: MessageReader, W: Sink>(
    reader: &mut M,
    day: &SheetDay,
    bytes: &[u8],
    sink: &mut W,
) -> Result<(), Interruption>
    requires { HasRoom (M.message day.now) (M.holds day.now reader.old) (length bytes.now) }
    ensures fed { IsFeedAllAnswer (M.message day.now)
        (M.holds day.now reader.old) (M.holds day.now reader.new)
        bytes.now (port W.taken W.has_failed sink.old sink.new) result }
    ensures failed { W.has_failed sink.new ≡ (W.has_failed sink.old || is_device_interruption result) }
{
    let mut output: Output = ArrayVec::new();
    for byte in bytes {
        feed_one(reader, day, *byte, &mut output, sink)?;
    }
    Ok(())
}

/// Feeds `byte` to `reader`, and writes the reader's output to `sink`.
fn feed_one<M: MessageReader, W: Sink>(
    reader: &mut M,
    day: &SheetDay,
    byte: u8,
    output: &mut Output,
    sink: &mut W,
) -> Result<(), Interruption>
    requires room { HasRoom (M.message day.now) (M.holds day.now reader.old) 1 }
    requires empty { output.old.items ≡ [] }
    ensures fed { IsFeedAllAnswer (M.message day.now)
        (M.holds day.now reader.old) (M.holds day.now reader.new)
        (byte ∷ []) (port W.taken W.has_failed sink.old sink.new) result }
    ensures failed { W.has_failed sink.new ≡ (W.has_failed sink.old || is_device_interruption result) }
    ensures emptied { OnOk result (output.new.items ≡ []) }
{
    reader.feed(day, byte, output)?;
    if output.is_empty() {
        return Ok(());
    }
    put_all(sink, output.as_slice())?;
    output.clear();
    Ok(())
}

impl<M: MessageReader> ChunkReader<SheetDay> for M {
    ghost message = { M.message };

    ghost holds = { M.holds };

    fn read_chunk<W: Sink>(
        &mut self,
        context: &SheetDay,
        bytes: &[u8],
        sink: &mut W,
    ) -> Result<(), Interruption> {
        feed_all(self, context, bytes, sink)
    }

    fn finish<W: Sink>(&mut self, context: &SheetDay, sink: &mut W) -> Result<(), Interruption> {
        let mut output: Output = ArrayVec::new();
        let answer = self.end(context, &mut output);
        put_all(sink, output.as_slice())?;
        answer?;
        Ok(())
    }
}

/// Ends the message: writes the rest of the message's result, and returns the message's fault, if it has one.
pub(crate) fn close<Context, M: ChunkReader<Context>, W: Sink>(
    reader: &mut M,
    context: &Context,
    sink: &mut W,
) -> Result<(), FormFault>
    requires { HasRoom (M.message context.now) (M.holds context.now reader.old) 0 }
    ensures { IsCloseAnswer (M.message context.now) (M.holds context.now reader.old)
        (port W.taken W.has_failed sink.old sink.new) result }
{
    reader.finish(context, sink)?;
    Ok(())
}

/// Reads up to `room` bytes from `source`, feeds them to `reader`, and returns their number.
///
/// The result 0 means that the source is at its end.
pub(crate) fn read_next<Context, M: ChunkReader<Context>, R: Source, W: Sink>(
    reader: &mut M,
    context: &Context,
    source: &mut R,
    sink: &mut W,
    buffer: &mut [u8; CHUNK],
    room: usize,
) -> Result<usize, Interruption>
    requires some { 0 < room }
    requires room { HasRoom (M.message context.now) (M.holds context.now reader.old) room }
    ensures { let holds = M.holds context.now in
        let read = port R.remaining R.has_failed source.old source.new in
        let written = port W.taken W.has_failed sink.old sink.new in
        IsReadNextAnswer (M.message context.now)
        (holds reader.old) (holds reader.new) room read written result }
{
    read_into(
        reader,
        context,
        source,
        sink,
        &mut buffer[..room.min(CHUNK)],
    )
}

/// Reads bytes from `source` into `buffer`, feeds them to `reader`, and returns their number.
fn read_into<Context, M: ChunkReader<Context>, R: Source, W: Sink>(
    reader: &mut M,
    context: &Context,
    source: &mut R,
    sink: &mut W,
    buffer: &mut [u8],
) -> Result<usize, Interruption>
    requires some { 0 < length buffer.now }
    requires few { length buffer.now ≤ CHUNK }
    requires room { HasRoom (M.message context.now)
        (M.holds context.now reader.old) (length buffer.now) }
    ensures { let holds = M.holds context.now in
        let read = port R.remaining R.has_failed source.old source.new in
        let written = port W.taken W.has_failed sink.old sink.new in
        let room = length buffer.old in
        IsReadNextAnswer (M.message context.now)
        (holds reader.old) (holds reader.new) room read written result }
{
    let Ok(count) = source.get(buffer) else {
        return Err(Interruption::Device);
    };
    reader.read_chunk(context, &buffer[..count], sink)?;
    Ok(count)
}
