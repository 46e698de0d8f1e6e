//! A sink in memory, for tests.
ghost use Rattle.std.specs.Prelude.{◌≡◌, ◌≤◌, ◌<◌, ◌-◌, ◌↔◌, ◌||◌, [], false, min, length, Some, IfOk, IsErr, is_err};
ghost use Rattle.kd_tables.specs.Ports.{Puts};

use super::failed::Failed;
use super::sink::Sink;
use arrayvec::ArrayVec;
use std::marker::Model;

/// A sink in memory that takes a given number of bytes, and then fails.
#[derive(Drop)]
pub struct MemorySink<const CAP: usize> {
    bytes: ArrayVec<u8, CAP>,
    limit: usize,
    failed: bool,
}

impl<const CAP: usize> Model for MemorySink<CAP> {
    ghost use Rattle.std.specs.Prelude.{◌≤◌, length};
    ghost use Rattle.kd_tables.specs.Ports.{MemorySinkState};

    ghost Value = { MemorySinkState };

    ghost view = { λ s. record { taken = s.bytes.items; limit = s.limit; failed = s.failed } };

    ghost invariant = { λ s. (length s.bytes.items ≤ s.limit) × (s.limit ≤ CAP) };
}

impl<const CAP: usize> MemorySink<CAP> {
    /// Makes a sink that takes `limit` bytes, and then fails.
    pub fn new(limit: usize) -> Self
        requires { limit ≤ CAP }
        ensures { result ≡ record { taken = []; limit = limit; failed = false } }
    {
        MemorySink {
            bytes: ArrayVec::new(),
            limit,
            failed: false,
        }
    }

    /// The bytes taken so far.
    pub fn taken(&self) -> &[u8]
        ensures { result.now ≡ self.now.taken }
    {
        self.bytes.as_slice()
    }
}

impl<const CAP: usize> Sink for MemorySink<CAP> {
    ghost taken = { λ s. Some s.taken };

    ghost has_failed = { λ s. s.failed };

    fn put(&mut self, bytes: &[u8]) -> Result<usize, Failed>
        ensures bytes { Puts (Some self.old.taken) (Some self.new.taken) bytes.now result }
        ensures failed { self.new.failed ≡ (self.old.failed || is_err result) }
        ensures limit { self.new.limit ≡ self.old.limit }
        ensures room { IfOk result
            (λ count. count ≡ min (length bytes.now) (self.old.limit - length self.old.taken)) }
        ensures refused { IsErr result
            ↔ ((0 < length bytes.now) × (self.old.limit ≡ length self.old.taken)) }
    {
        let count = bytes.len().min(self.limit - self.bytes.len());
        if count == 0 && !bytes.is_empty() {
            self.failed = true;
            return Err(Failed);
        }
        self.bytes.try_extend_from_slice(&bytes[..count]).unwrap();
        Ok(count)
    }

    fn failed(&self) -> bool
        ensures { result ≡ self.now.failed }
    {
        self.failed
    }
}
