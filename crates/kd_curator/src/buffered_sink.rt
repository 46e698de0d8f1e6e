//! A sink that gathers small pieces of text before it passes the gathered text on.
ghost use Rattle.std.specs.Prelude.{◌≡◌, ◌≤◌, ◌||◌, [], ◌++◌, take, length, nat_lt, Some, OnErr, OnOk, is_err};
ghost use Rattle.std.specs.Prelude.{option_map};
ghost use Rattle.std.specs.Io.KnownBytes.{append_known, Appends, Keeps};
ghost use Rattle.kd_tables.specs.Ports.{Puts};

use arrayvec::ArrayVec;
use kd_tables::{Failed, Sink};

/// How many bytes a `BufferedSink` gathers, at most, before it passes them on.
const ROOM: usize = 4096;

/// A sink that gathers bytes. It passes the gathered bytes on to another sink when it is full, and at `flush`.
#[derive(Drop)]
pub(crate) struct BufferedSink<W: Sink + Drop> {
    sink: W,
    gathered: ArrayVec<u8, ROOM>,
}

impl<W: Sink + Drop> BufferedSink<W> {
    /// Creates a sink that passes its bytes on to `sink`.
    pub(crate) fn new(sink: W) -> Self
        ensures sink { result.sink ≡ sink }
        ensures gathered { result.gathered.items ≡ [] }
    {
        BufferedSink {
            sink,
            gathered: ArrayVec::new(),
        }
    }

    /// Returns the other sink. Bytes that are still gathered are lost.
    pub(crate) fn into_sink(self) -> W
        ensures { result ≡ self.sink }
    {
        let BufferedSink { sink, .. } = self;
        sink
    }

    /// Passes all gathered bytes on to the other sink. If that sink fails, the bytes that it didn't take stay
    /// gathered.
    pub(crate) fn flush(&mut self) -> Result<(), Failed>
        ensures kept { Keeps (append_known (W.taken self.old.sink) self.old.gathered.items)
            (append_known (W.taken self.new.sink) self.new.gathered.items) }
        ensures passed { OnOk result (self.new.gathered.items ≡ []) }
        ensures left { OnErr result (1 ≤ length self.new.gathered.items) }
        ensures failed { W.has_failed self.new.sink ≡ (W.has_failed self.old.sink || is_err result) }
    {
        let BufferedSink { sink, gathered } = self;
        let done = pass_on(sink, gathered.as_slice());
        let mut left = ArrayVec::new();
        left.try_extend_from_slice(&gathered.as_slice()[done..])
            .unwrap();
        let is_empty = left.is_empty();
        *gathered = left;
        if is_empty { Ok(()) } else { Err(Failed) }
    }
}

impl<W: Sink + Drop> Sink for BufferedSink<W> {
    ghost taken = { λ s. append_known (W.taken s.sink) s.gathered.items };

    ghost has_failed = { λ s. W.has_failed s.sink };

    fn put(&mut self, bytes: &[u8]) -> Result<usize, Failed> {
        if self.gathered.is_full() {
            self.flush()?;
        }
        let count = bytes.len().min(ROOM - self.gathered.len());
        self.gathered
            .try_extend_from_slice(&bytes[..count])
            .unwrap();
        Ok(count)
    }

    fn failed(&self) -> bool {
        self.sink.failed()
    }
}

/// Writes `bytes` to `sink`, and returns how many bytes the sink took. If the sink doesn't fail, it takes all bytes.
#[tactic(auto, using(kd_tables::proofs::SeveralPuts::takes_more, kd_tables::proofs::SeveralPuts::still_failed))]
fn pass_on<W: Sink>(sink: &mut W, bytes: &[u8]) -> usize
    ensures within { result ≤ length bytes.now }
    ensures taken { Appends (W.taken sink.old) (W.taken sink.new) (take result bytes.now) }
    ensures failed { W.has_failed sink.new ≡ (W.has_failed sink.old || nat_lt result (length bytes.now)) }
{
    let mut done = 0;
    while done < bytes.len() {
        match sink.put(&bytes[done..]) {
            Ok(count) => done += count,
            Err(Failed) => return done,
        }
    }
    done
}
