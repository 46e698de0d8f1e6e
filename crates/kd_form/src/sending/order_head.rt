//! Reads the head of an order byte by byte: the lines of keys and the line TEXT.
ghost use Rattle.std.specs.Prelude.{◌≡◌, ◌<◌, ◌↔◌, IsTrue, slice_index, List, ℕ, [], ◌∷◌, ◌++◌};
ghost use Rattle.std.specs.Prelude.{codes, MatchOption, MatchResult};
ghost use Rattle.kd_form.specs.Keys.{AreKeys};
ghost use Rattle.kd_form.specs.Order.{IsPatternFault, IsLineWithEnd, IsKeyLine};
ghost use Rattle.kd_form.specs.OrderSteps.{IsHeadStep, IsHeadBegun, IsHeadLine};

use super::key_line::{key_pattern, keys_of_letters};
use super::pattern_line::{PatternFault, read_pattern};
use crate::keys::Keys;
use arrayvec::ArrayVec;
use kd_state::SheetDay;

/// An upper bound for the bytes in one line of an order's head, line end included.
const LONGEST_LINE: usize = 25;

/// A reader of an order's head: the lines of keys and the line TEXT.
#[derive(Drop)]
pub struct HeadReader {
    keys: ArrayVec<Keys, 99>,
    /// The bytes of the current line.
    line: ArrayVec<u8, LONGEST_LINE>,
}

/// The state of the head after a `HeadReader` has read one more byte.
#[derive(Clone, Copy)]
pub enum HeadStep {
    /// The head isn't complete yet.
    Open,
    /// The head is complete; the text follows.
    Text,
    /// The last byte read is wrong: no order's head begins with the bytes up to this byte.
    Bad,
}

impl HeadReader {
    /// Creates a reader that has read nothing.
    pub fn new() -> Self
        ensures keys { result.keys.items ≡ [] }
        ensures line { result.line.items ≡ [] }
    {
        HeadReader {
            keys: ArrayVec::new(),
            line: ArrayVec::new(),
        }
    }

    /// The keys in the lines read so far.
    pub fn keys(&self) -> &[Keys]
        ensures { result.now ≡ self.now.keys.items }
    {
        self.keys.as_slice()
    }

    /// Takes the next byte of the head.
    ///
    /// Not inlined: otherwise every byte read would pay for this function's stack frame.
    #[inline(never)]
    #[tactic(auto, using(crate::proofs::OrderSteps::line_short))]
    pub fn take(&mut self, day: &SheetDay, byte: u8) -> HeadStep
        requires { (order : List ℕ) × IsHeadBegun day.now self.old.keys.items self.old.line.items order }
        ensures { (order : List ℕ) → IsHeadBegun day.now self.old.keys.items self.old.line.items order
            → IsHeadStep day.now self.new.keys.items self.new.line.items (order ++ byte ∷ []) result }
    {
        prove!(key_pattern(day).len() <= 21);
        self.line.push(byte);
        match read_head_line(day, self.keys.len(), self.line.as_slice()) {
            Ok(Some(keys)) => {
                self.keys.push(keys);
                self.line.clear();
                HeadStep::Open
            }
            Ok(None) => HeadStep::Text,
            Err(PatternFault::Incomplete) => HeadStep::Open,
            Err(PatternFault::Mismatch) => HeadStep::Bad,
        }
    }
}

/// Reads the line after `count` lines of keys: returns the line's keys, or `None` for the line TEXT.
///
/// The first byte decides whether the line is read as keys or as TEXT. After 99 lines of keys, only TEXT is allowed.
#[tactic(auto, using(crate::proofs::OrderSteps::next_text))]
fn read_head_line(day: &SheetDay, count: usize, line: &[u8]) -> Result<Option<Keys>, PatternFault>
    ensures { MatchResult result
        (λ found. MatchOption found (IsLineWithEnd (codes "TEXT") line.now)
        (λ keys. AreKeys day.now keys × IsKeyLine keys line.now × (count < 99)))
        (IsPatternFault (IsHeadLine day.now count) line.now) }
{
    if count < 99 && has_key_line_start(line) {
        let letters = read_pattern(key_pattern(day), line)?;
        Ok(Some(keys_of_letters(day, letters.as_slice())))
    } else {
        read_pattern(b"TEXT", line)?;
        Ok(None)
    }
}

/// Whether the first of `bytes` is P, the first letter of a line of keys.
fn has_key_line_start(bytes: &[u8]) -> bool
    ensures { IsTrue result ↔ (slice_index bytes.now 0 ≡ 80) }
{
    matches!(bytes, [b'P', ..])
}
