//! Types a text on a machine.
ghost use Rattle.std.specs.Prelude.{◌≡◌, IsTrue};
ghost use Rattle.kd_tables.specs.Ports.{FailureAgrees, port};
ghost use Rattle.kd_form.specs.Streams.{is_device, is_off_key};
ghost use Rattle.kd_form.specs.Typing.{TypesIfReady};

mod chunk_letters;

use super::fault::FormFault;
use super::stream::interruption::Interruption;
use super::stream::reader::{CHUNK, ChunkReader};
use super::stream::stream_message;
use arrayvec::ArrayVec;
use chunk_letters::type_chunk;
use kd_state::{Engine, Machine};
use kd_tables::{Letter, Sink, Source, put_all};

/// Types the text from `source` on `machine`, and writes the ciphertext to `sink`, then LF.
///
/// `NotReady` is returned before anything is read or written. A byte that isn't a capital letter, a space, CR or LF is
/// refused, and no further chunk is read. `sink` still gets the ciphertext of all letters before this byte. If `sink`
/// fails to take this ciphertext, the fault is `Device`. At most 1,048,576 bytes are read, and then one more, which
/// shows whether the source has ended.
pub fn type_stream<R: Source, W: Sink>(
    machine: &Machine,
    source: &mut R,
    sink: &mut W,
) -> Result<(), FormFault>
    ensures streamed { TypesIfReady machine.now (port R.remaining R.has_failed source.old source.new)
        (port W.taken W.has_failed sink.old sink.new) result }
    ensures untouched { IsTrue (is_off_key result)
        → (source.new ≡ source.old) × (sink.new ≡ sink.old) }
    ensures failed { FailureAgrees (port R.remaining R.has_failed source.old source.new)
        (port W.taken W.has_failed sink.old sink.new) (is_device result) }
{
    let engine = machine.engine()?;
    let mut typist = Typist {
        engine,
        read: 0,
        letters: ArrayVec::new(),
        lamps: ArrayVec::new(),
    };
    stream_message(machine, &mut typist, source, sink)
}

/// A reader of a typed text, which types the text's letters on a machine.
#[derive(Drop)]
pub(crate) struct Typist {
    engine: Engine,
    /// How many bytes of the text were read.
    read: usize,
    /// The letters of the current chunk, enciphered in place.
    ///
    /// The reader keeps `letters` and `lamps` from chunk to chunk, so that it needn't fill them with placeholders each
    /// time.
    letters: ArrayVec<Letter, CHUNK>,
    /// The lamps that lit up for the current chunk, as capital letters.
    lamps: ArrayVec<u8, CHUNK>,
}

impl ChunkReader<Machine> for Typist {
    ghost use Rattle.kd_state.specs.TwoCiphers.{physical_cipher};
    ghost use Rattle.kd_form.specs.Typing.{text_message, HasTyped};

    ghost message = { λ machine. text_message (physical_cipher machine) };

    ghost holds = { HasTyped };

    fn read_chunk<W: Sink>(
        &mut self,
        _context: &Machine,
        bytes: &[u8],
        sink: &mut W,
    ) -> Result<(), Interruption> {
        let allowed = type_chunk(&mut self.engine, bytes, &mut self.letters, &mut self.lamps);
        self.read += allowed;
        put_all(sink, &self.lamps)?;
        if allowed < bytes.len() {
            return Err(Interruption::Refused(FormFault::BadByte(self.read + 1)));
        }
        Ok(())
    }

    fn finish<W: Sink>(&mut self, _context: &Machine, sink: &mut W) -> Result<(), Interruption> {
        put_all(sink, b"\n")?;
        Ok(())
    }
}
