//! Two sinks: `BytesSink` keeps all bytes in memory, and `NullSink` keeps none.
ghost use Rattle.std.specs.Prelude.{◌≡◌, [], false, Some};

use kd_tables::{Failed, Sink};
use std::alloc::Global;

/// A sink that keeps all bytes in memory. It fails if memory runs out.
#[derive(Drop)]
pub(crate) struct BytesSink {
    bytes: Vec<u8>,
    failed: bool,
}

impl BytesSink {
    /// Creates a sink without bytes.
    pub(crate) fn new(alloc: Global) -> Self
        ensures bytes { result.bytes.items ≡ [] }
        ensures failed { result.failed ≡ false }
    {
        BytesSink {
            bytes: Vec::new(alloc),
            failed: false,
        }
    }

    /// Returns the bytes that the sink has taken.
    pub(crate) fn into_bytes(self) -> Vec<u8>
        ensures { result ≡ self.bytes }
    {
        self.bytes
    }
}

impl Sink for BytesSink {
    ghost taken = { λ s. Some s.bytes.items };

    ghost has_failed = { λ s. s.failed };

    fn put(&mut self, bytes: &[u8]) -> Result<usize, Failed> {
        match self.bytes.extend_from_slice(bytes) {
            Ok(()) => Ok(bytes.len()),
            Err(_) => {
                self.failed = true;
                Err(Failed)
            }
        }
    }

    fn failed(&self) -> bool {
        self.failed
    }
}

/// A sink that takes all bytes, and keeps none.
#[derive(Drop)]
pub(crate) struct NullSink;

impl Sink for NullSink {
    ghost has_failed = { λ _. false };

    fn put(&mut self, bytes: &[u8]) -> Result<usize, Failed> {
        Ok(bytes.len())
    }

    fn failed(&self) -> bool {
        false
    }
}
