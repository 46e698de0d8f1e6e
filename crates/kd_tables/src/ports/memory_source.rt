//! A source in memory, for tests.
ghost use Rattle.std.specs.Prelude.{◌≡◌, ◌≤◌, ◌<◌, ◌-◌, ◌↔◌, ◌||◌, false, min, length, drop, Some, IfOk};
ghost use Rattle.std.specs.Prelude.{OnErr, IsErr, is_err};
ghost use Rattle.std.specs.Option.{option_map};
ghost use Rattle.kd_tables.specs.Ports.{Gets};

use super::failed::Failed;
use super::source::Source;
use std::marker::Model;

/// A source in memory. One `get` gives at most `piece` bytes.
///
/// If `gets_left` is `Some(n)`, the next `n` calls of `get` succeed, and all later calls fail.
#[derive(Drop)]
pub struct MemorySource<'a> {
    rest: &'a [u8],
    piece: usize,
    gets_left: Option<usize>,
    failed: bool,
}

impl<'a> Model for MemorySource<'a> {
    ghost use Rattle.std.specs.Prelude.{◌≤◌};
    ghost use Rattle.kd_tables.specs.Ports.{MemorySourceState};

    ghost Value = { MemorySourceState };

    ghost view = { λ s. record {
      rest = s.rest.now;
      piece = s.piece;
      gets_left = s.gets_left;
      failed = s.failed;
    } };

    ghost invariant = { λ s. 1 ≤ s.piece };
}

impl<'a> MemorySource<'a> {
    /// Makes a source that gives `bytes`, at most `piece` bytes at each `get`.
    ///
    /// If `fail_at` is `Some(n)`, the first `n` calls of `get` succeed, and all later calls fail. If `fail_at` is
    /// `None`, no call fails.
    pub fn new(bytes: &'a [u8], piece: usize, fail_at: Option<usize>) -> Self
        requires { 1 ≤ piece }
        ensures { result ≡ record {
          rest = bytes.now;
          piece = piece;
          gets_left = fail_at;
          failed = false;
        } }
    {
        MemorySource {
            rest: bytes,
            piece,
            gets_left: fail_at,
            failed: false,
        }
    }
}

impl<'a> Source for MemorySource<'a> {
    ghost remaining = { λ s. Some s.rest };

    ghost has_failed = { λ s. s.failed };

    fn get(&mut self, buffer: &mut [u8]) -> Result<usize, Failed>
        ensures bytes { Gets (Some self.old.rest) (Some self.new.rest) buffer.new result }
        ensures failed { self.new.failed ≡ (self.old.failed || is_err result) }
        ensures piece { IfOk result
            (λ count. count ≡ min self.old.piece (min (length buffer.old) (length self.old.rest))) }
        ensures refused { IsErr result ↔ (self.old.gets_left ≡ Some 0) }
        ensures behind { IfOk result (λ count. drop count buffer.new ≡ drop count buffer.old) }
        ensures kept { OnErr result (buffer.new ≡ buffer.old) }
        ensures gets_left { self.new.gets_left ≡ option_map (λ n. n - 1) self.old.gets_left }
        ensures piece_kept { self.new.piece ≡ self.old.piece }
    {
        match self.gets_left {
            Some(0) => {
                self.failed = true;
                return Err(Failed);
            }
            Some(left) => self.gets_left = Some(left - 1),
            None => {}
        }
        let count = self.piece.min(buffer.len()).min(self.rest.len());
        let (given, rest) = self.rest.split_at(count);
        buffer[..count].copy_from_slice(given);
        self.rest = rest;
        Ok(count)
    }

    fn failed(&self) -> bool
        ensures { result ≡ self.now.failed }
    {
        self.failed
    }
}
