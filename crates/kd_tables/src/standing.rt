//! Standings: the places of a bar's two lugs.
ghost use Rattle.std.specs.Prelude.{◌≡◌, ◌≢◌, ◌↔◌, ◌==◌, MatchOption, IsSome, IfSome};
ghost use Rattle.std.specs.List.{position};
ghost use Rattle.kd_tables.specs.Places.{IsBefore, reading_of, standing_text, ArePlaceNames};

use super::place::Place;
use super::reading::Reading;
use arrayvec::ArrayString;
use std::marker::Model;

/// A standing of a bar on the Converter M-209: the places of the left lug and of the right lug.
///
/// Standings are ordered by the left lug's place, then by the right lug's place.
#[derive(Clone, Copy, PartialEq, Eq, PartialOrd, Ord)]
pub struct Standing {
    left: Place,
    right: Place,
}

impl Model for Standing {
    ghost use Rattle.kd_tables.specs.Places.{IsBefore};
    ghost use Rattle.kd_tables.specs.declared.place.Place.{Place};

    ghost Value = { Place × Place };

    ghost view = { λ s. (s.left, s.right) };

    ghost invariant = { λ s. IsBefore s.left s.right };

    ghost inverse = { λ places. record { left = places.0; right = places.1 } };
}

/// By default, the lugs are at `1` and `0L`, the two leftmost places of a bar.
impl Default for Standing {
    ghost use Rattle.std.specs.Prelude.{◌≡◌};
    ghost use Rattle.kd_tables.specs.declared.place.Place.TheVariants.{One, ZeroLeft};

    ghost is_default = { λ s. s ≡ (One, ZeroLeft) };

    fn default() -> Self {
        Standing {
            left: Place::One,
            right: Place::ZeroLeft,
        }
    }
}

impl Standing {
    /// Makes a standing; `None` if the place `left` isn't to the left of the place `right`.
    pub fn new(left: Place, right: Place) -> Option<Self>
        ensures exists { IsSome result ↔ IsBefore left right }
        ensures value { IfSome result (λ standing. standing ≡ (left, right)) }
    {
        if left < right {
            Some(Standing { left, right })
        } else {
            None
        }
    }

    /// The place of the left lug.
    pub fn left(self) -> Place
        ensures { result ≡ self.0 }
    {
        self.left
    }

    /// The place of the right lug, which is always to the right of the left lug's place.
    pub fn right(self) -> Place
        ensures value { result ≡ self.1 }
        ensures after { IsBefore self.0 result }
    {
        self.right
    }

    /// The bar's reading: the numbers of the pin wheels at its two lugs. The number is 0 at a place without a wheel.
    pub fn reading(self) -> Reading
        ensures { result ≡ reading_of self }
    {
        Reading::new(self.left.number(), self.right.number()).unwrap()
    }

    /// The names of the left lug's place and of the right lug's place, with `-` between them.
    pub fn text(self) -> ArrayString<8>
        ensures { result.bytes ≡ standing_text self }
    {
        let mut text = ArrayString::new();
        text.push_str(self.left.name());
        text.push_str("-");
        text.push_str(self.right.name());
        text
    }

    /// Parses a standing from its text: the names of two places, with `-` between the names.
    pub fn from_text(text: &[u8]) -> Option<Self>
        ensures value { MatchOption result
            ((places : _) → IsBefore places.0 places.1 → standing_text places ≢ text.now)
            (λ standing. standing_text standing ≡ text.now) }
        ensures before { IfSome result (λ standing. IsBefore standing.0 standing.1) }
    {
        let dash = dash_in(text)?;
        Standing::from_names(&text[..dash], &text[dash + 1..])
    }

    /// Parses a standing from the names of its two places.
    fn from_names(left: &[u8], right: &[u8]) -> Option<Self>
        ensures { MatchOption result
            ((places : _) → IsBefore places.0 places.1 → ArePlaceNames places left.now right.now → ⊥)
            (λ standing. ArePlaceNames standing left.now right.now) }
    {
        Standing::new(Place::from_text(left)?, Place::from_text(right)?)
    }
}

/// The place of the first `-` in `text`, counted from 0.
fn dash_in(text: &[u8]) -> Option<usize>
    ensures { result ≡ position (λ byte. byte == 45) text.now }
{
    text.iter().position(|byte| *byte == b'-')
}
