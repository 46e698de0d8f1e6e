//! A counter of comparisons. Each comparison raises the counter by one, and nothing else changes it.
ghost use Rattle.std.specs.Prelude.{◌≡◌, ℕ, ◌+◌, ◌<◌, ◌↔◌, IsTrue, ◌<ℤ◌};

use std::marker::Model;

/// The number of comparisons made so far.
///
/// The field is private to this module, so that other modules can only begin at 0 and count comparisons.
#[derive(Clone, Copy)]
pub struct Scans {
    count: u32,
}

impl Model for Scans {
    ghost Value = { ℕ };

    ghost view = { λ s. s.count };

    ghost inverse = { λ n. record { count = n } };
}

impl Scans {
    /// Creates a counter with the count 0.
    pub fn new() -> Self
        ensures { result ≡ 0 }
    {
        Scans { count: 0 }
    }

    /// Compares two prices: counts one comparison, and returns whether `new` is below `slack`.
    pub fn closer(&mut self, slack: i16, new: i16) -> bool
        requires room { self.old < 4294967295 }
        ensures less { IsTrue result ↔ (new <ℤ slack) }
        ensures counted { self.new ≡ self.old + 1 }
    {
        self.count += 1;
        new < slack
    }

    /// The number of comparisons made so far.
    pub fn count(self) -> u32
        ensures { result ≡ self }
    {
        let Scans { count } = self;
        count
    }
}
