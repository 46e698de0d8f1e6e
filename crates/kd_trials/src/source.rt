//! A source that never ends.
use kd_tables::{Failed, Source};

/// A source of the bytes `front`, and then of `byte` without an end.
#[derive(Drop)]
pub struct Endless {
    front: &'static [u8],
    byte: u8,
    given: usize,
}

impl Endless {
    /// Makes a source that gives `front` first, and then `byte` again and again.
    pub fn new(front: &'static [u8], byte: u8) -> Self {
        Endless {
            front,
            byte,
            given: 0,
        }
    }

    /// The number of bytes given so far.
    pub fn given(&self) -> usize {
        self.given
    }
}

impl Source for Endless {
    ghost use Rattle.std.specs.Prelude.{false};

    ghost has_failed = { λ _. false };

    fn get(&mut self, buffer: &mut [u8]) -> Result<usize, Failed> {
        for place in 0..buffer.len() {
            buffer[place] = match self.front {
                [first, rest @ ..] => {
                    self.front = rest;
                    *first
                }
                [] => self.byte,
            };
        }
        self.given = self.given.saturating_add(buffer.len());
        Ok(buffer.len())
    }

    fn failed(&self) -> bool {
        false
    }
}
