//! The places of lugs on a bar.
ghost use Rattle.std.specs.Prelude.{◌≡◌, ◌≢◌, ◌≤◌, length, MatchOption};
ghost use Rattle.kd_tables.specs.Places.{place_text, place_number, places};

use super::variant_names::{name_of, named};
use arrayvec::ArrayString;

/// A place of a lug on a bar of the Converter M-209. Places are in order from left to right.
///
/// At a place with a number, the pin wheel with this number acts. At the two places called zero, no wheel acts.
#[derive(Clone, Copy, PartialEq, Eq, PartialOrd, Ord)]
pub enum Place {
    /// The place where pin wheel 1 acts.
    One,
    /// The left one of the two places where no wheel acts.
    ZeroLeft,
    /// The place where pin wheel 2 acts.
    Two,
    /// The place where pin wheel 3 acts.
    Three,
    /// The place where pin wheel 4 acts.
    Four,
    /// The place where pin wheel 5 acts.
    Five,
    /// The right one of the two places where no wheel acts.
    ZeroRight,
    /// The place where pin wheel 6 acts.
    Six,
}

/// Looks up `$value` in the table of places and their names.
///
/// If `$read` is `name_of`, the result is the name of the place `$value`. If `$read` is `named`, the result is the
/// place with the name `$value`, or `None` if there is none.
macro_rules! names {
    ($read:ident, $value:expr) => {
        $read!($value, {
            Place::One => "1",
            Place::ZeroLeft => "0L",
            Place::Two => "2",
            Place::Three => "3",
            Place::Four => "4",
            Place::Five => "5",
            Place::ZeroRight => "0R",
            Place::Six => "6",
        })
    };
}

impl Place {
    /// All places, from left to right.
    pub const fn all() -> [Place; 8]
        ensures { result ≡ places }
    {
        [
            Place::One,
            Place::ZeroLeft,
            Place::Two,
            Place::Three,
            Place::Four,
            Place::Five,
            Place::ZeroRight,
            Place::Six,
        ]
    }

    /// The place's name.
    pub(crate) const fn name(self) -> &'static str
        ensures value { result.now ≡ place_text self }
        ensures short { length result.now ≤ 2 }
    {
        names!(name_of, self)
    }

    /// The place's name in machine files and cards.
    pub fn text(self) -> ArrayString<8>
        ensures { result.bytes ≡ place_text self }
    {
        let mut text = ArrayString::new();
        text.push_str(self.name());
        text
    }

    /// The place with the name `text`.
    pub fn from_text(text: &[u8]) -> Option<Self>
        ensures { MatchOption result
            ((place : _) → place_text place ≢ text.now)
            (λ place. place_text place ≡ text.now) }
    {
        names!(named, text)
    }

    /// The number of the pin wheel that acts at the place, from 1 to 6; 0 if no wheel acts there.
    pub fn number(self) -> u8
        ensures value { result ≡ place_number self }
        ensures within { result ≤ 6 }
    {
        match self {
            Place::ZeroLeft | Place::ZeroRight => 0,
            Place::One => 1,
            Place::Two => 2,
            Place::Three => 3,
            Place::Four => 4,
            Place::Five => 5,
            Place::Six => 6,
        }
    }
}
