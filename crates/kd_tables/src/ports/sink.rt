//! The trait of sinks, to which bytes are written.
ghost use Rattle.std.specs.Prelude.{◌≡◌, ℕ, ◌≤◌, ◌||◌, Bool, List, [], take, Option, Some, None, is_err, length};
ghost use Rattle.kd_tables.specs.Ports.{Puts};

use super::failed::Failed;

/// Something that takes bytes, such as a device or a buffer in memory.
pub trait Sink {
    /// The bytes taken so far; `None` if they aren't known.
    ghost taken: { Self → Option (List ℕ) } = { λ _. None };

    /// Whether a `put` has failed so far.
    ghost has_failed: { Self → Bool };

    /// Takes a prefix of `bytes`, and returns the prefix's length.
    ///
    /// The length is 0 only if `bytes` is empty. A `put` that returns `Failed` takes no byte.
    fn put(&mut self, bytes: &[u8]) -> Result<usize, Failed>
        ensures bytes { Puts (taken self.old) (taken self.new) bytes.now result }
        ensures failed { has_failed self.new ≡ (has_failed self.old || is_err result) };

    /// Whether a `put` has failed so far.
    fn failed(&self) -> bool
        ensures { result ≡ has_failed self.now };
}
