//! Two traits of message readers: `ChunkReader` takes many bytes at once, and `MessageReader` takes one byte.
ghost use Rattle.std.specs.Prelude.{◌≡◌, ◌≤◌, ◌||◌, List, ℕ, [], length};
ghost use Rattle.kd_state.specs.SheetDay.{Day};
ghost use Rattle.kd_tables.specs.Ports.{port};
ghost use Rattle.kd_form.specs.Streams.{Message};
ghost use Rattle.kd_form.specs.StreamSteps.{HasReadSoFar, HasRoom, IsFeedAnswer, IsEndAnswer, IsFeedAllAnswer};
ghost use Rattle.kd_form.specs.StreamSteps.{IsFinishAnswer, is_device_interruption};

use super::interruption::Interruption;
use crate::fault::FormFault;
use crate::sending::part::LONGEST_PART;
use arrayvec::ArrayVec;
use kd_state::SheetDay;
use kd_tables::Sink;

/// The largest number of bytes that are read at once.
pub(crate) const CHUNK: usize = 4096;

/// A reader of one kind of message, which takes many bytes at once. The reader works with a day or a machine, its
/// `Context`.
pub(crate) trait ChunkReader<Context> {
    /// The kind of message.
    ghost message: { Context → Message };

    /// The invariant: it relates the reader's state to the bytes read so far, and to the output for these bytes.
    ghost holds: { Context → Self → List ℕ → List ℕ → Type 0 };

    /// Reads the next bytes of the message, and writes the result's next bytes to `sink`.
    ///
    /// After an error, the reader must not be called again.
    fn read_chunk<W: Sink>(
        &mut self,
        context: &Context,
        bytes: &[u8],
        sink: &mut W,
    ) -> Result<(), Interruption>
        requires few { length bytes.now ≤ CHUNK }
        requires room { HasRoom (message context.now) (holds context.now self.old) (length bytes.now) }
        ensures fed { IsFeedAllAnswer (message context.now)
            (holds context.now self.old) (holds context.now self.new)
            bytes.now (port W.taken W.has_failed sink.old sink.new) result }
        ensures failed { W.has_failed sink.new
            ≡ (W.has_failed sink.old || is_device_interruption result) };

    /// Ends the message, and writes the rest of the output to `sink`, even if the message has a fault.
    fn finish<W: Sink>(&mut self, context: &Context, sink: &mut W) -> Result<(), Interruption>
        requires { HasRoom (message context.now) (holds context.now self.old) 0 }
        ensures ended { IsFinishAnswer (message context.now) (holds context.now self.old)
            (port W.taken W.has_failed sink.old sink.new) result }
        ensures failed { W.has_failed sink.new
            ≡ (W.has_failed sink.old || is_device_interruption result) };
}

/// The output of a reader after one byte: usually nothing, and at most one part.
pub(crate) type Output = ArrayVec<u8, LONGEST_PART>;

/// A reader of one kind of message. It takes one byte at a time, and keeps one part at a time.
pub(crate) trait MessageReader {
    /// The kind of message.
    ghost message: { Day → Message };

    /// The invariant: it relates the reader's state to the bytes read so far, and to the output for these bytes.
    ghost holds: { Day → Self → List ℕ → List ℕ → Type 0 };

    /// Creates a reader that has read nothing.
    fn start(day: &SheetDay) -> Self
        ensures { HasReadSoFar (message day.now) (holds day.now result) [] [] };

    /// Takes the message's next byte. What can be written now is put into `output`.
    ///
    /// After a fault, the reader must not be called again.
    fn feed(&mut self, day: &SheetDay, byte: u8, output: &mut Output) -> Result<(), FormFault>
        requires room { HasRoom (message day.now) (holds day.now self.old) 1 }
        requires empty { output.old.items ≡ [] }
        ensures { IsFeedAnswer (message day.now) (holds day.now self.old) (holds day.now self.new) byte
            output.new.items result };

    /// Ends the message, and puts the rest of the output into `output`, even if the message has a fault.
    fn end(&mut self, day: &SheetDay, output: &mut Output) -> Result<(), FormFault>
        requires room { HasRoom (message day.now) (holds day.now self.old) 0 }
        requires empty { output.old.items ≡ [] }
        ensures { IsEndAnswer (message day.now) (holds day.now self.old) output.new.items result };
}
