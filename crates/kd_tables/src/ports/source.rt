//! The trait of sources, from which bytes are read.
ghost use Rattle.std.specs.Prelude.{◌≡◌, ℕ, ◌≤◌, ◌||◌, Bool, List, [], drop, Option, Some, None, is_err, length};
ghost use Rattle.kd_tables.specs.Ports.{Gets};

use super::failed::Failed;

/// Something that gives bytes, such as a device or a buffer in memory.
pub trait Source {
    /// The bytes still to come; `None` if they aren't known.
    ghost remaining: { Self → Option (List ℕ) } = { λ _. None };

    /// Whether a `get` has failed so far.
    ghost has_failed: { Self → Bool };

    /// Puts the next bytes into a prefix of `buffer`, and returns the length of this prefix.
    ///
    /// The length is 0 only at the end of the source, or if `buffer` is empty. The call may also change the rest of
    /// `buffer`. A `get` that returns `Failed` neither gives nor loses a byte, but it may change any byte of `buffer`.
    fn get(&mut self, buffer: &mut [u8]) -> Result<usize, Failed>
        ensures bytes { Gets (remaining self.old) (remaining self.new) buffer.new result }
        ensures failed { has_failed self.new ≡ (has_failed self.old || is_err result) };

    /// Whether a `get` has failed so far.
    fn failed(&self) -> bool
        ensures { result ≡ has_failed self.now };
}
