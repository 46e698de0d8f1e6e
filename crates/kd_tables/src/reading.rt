//! Readings of bars of the Converter M-209: the numbers of the pin wheels at a bar's two lugs.
ghost use Rattle.std.specs.Prelude.{codes, ◌≡◌, ◌≢◌, ◌↔◌, [], ◌∷◌, ◌++◌, MatchOption, IsSome, IfSome};
ghost use Rattle.kd_tables.specs.Places.{IsReading, smaller_first, reading_text};

use arrayvec::ArrayString;
use std::marker::Model;

/// A reading: the numbers of the pin wheels at a bar's two lugs, the smaller number first.
///
/// The number is 0 for a lug at a place without a wheel. The two numbers differ, or both are 0. Readings are
/// ordered by the smaller number, then by the larger one.
#[derive(Clone, Copy, Default, PartialEq, Eq, PartialOrd, Ord)]
pub struct Reading {
    smaller: u8,
    larger: u8,
}

impl Model for Reading {
    ghost use Rattle.std.specs.Prelude.{ℕ};
    ghost use Rattle.kd_tables.specs.Places.{IsReading};

    ghost Value = { ℕ × ℕ };

    ghost view = { λ r. (r.smaller, r.larger) };

    ghost invariant = { λ r. IsReading (r.smaller, r.larger) };

    ghost inverse = { λ numbers. record { smaller = numbers.0; larger = numbers.1 } };
}

impl Reading {
    /// Makes a reading of the numbers `a` and `b`, which may come in either order.
    ///
    /// `None` if one of the numbers is above 6, or if both are equal and above 0.
    pub fn new(a: u8, b: u8) -> Option<Self>
        ensures exists { IsSome result ↔ IsReading (smaller_first a b) }
        ensures value { IfSome result (λ reading. reading ≡ smaller_first a b) }
    {
        let (smaller, larger) = if a <= b { (a, b) } else { (b, a) };
        if larger > 6 || (smaller == larger && smaller > 0) {
            return None;
        }
        Some(Reading { smaller, larger })
    }

    /// The two numbers, the smaller one first.
    pub fn numbers(self) -> (u8, u8)
        ensures value { result ≡ self }
        ensures reading { IsReading result }
    {
        (self.smaller, self.larger)
    }

    /// The reading's text: the smaller number and the larger number, with `-` between them.
    pub fn text(self) -> ArrayString<8>
        ensures { result.bytes ≡ reading_text self }
    {
        let mut text = ArrayString::new();
        text.push(char::from(b'0' + self.smaller));
        text.push('-');
        text.push(char::from(b'0' + self.larger));
        text
    }

    /// Parses a reading from its text; the smaller number has to come first.
    pub fn from_text(text: &[u8]) -> Option<Self>
        ensures { MatchOption result
            ((numbers : _) → IsReading numbers → reading_text numbers ≢ text.now)
            (λ reading. reading_text reading ≡ text.now) }
    {
        match text {
            [first, b'-', second] => Reading::from_digits(*first, *second),
            _ => None,
        }
    }

    /// Makes a reading from the ASCII codes of its two digits. The smaller digit has to come first.
    fn from_digits(first: u8, second: u8) -> Option<Self>
        ensures { MatchOption result
            ((numbers : _) → IsReading numbers → reading_text numbers ≢ first ∷ codes "-" ++ second ∷ [])
            (λ reading. reading_text reading ≡ first ∷ codes "-" ++ second ∷ []) }
    {
        if b'0' <= first && first <= second {
            Reading::new(first - b'0', second - b'0')
        } else {
            None
        }
    }
}
