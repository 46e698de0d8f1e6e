//! The two lugs of a bar.
ghost use Rattle.std.specs.Prelude.{◌≡◌, ◌≢◌, MatchOption};
ghost use Rattle.kd_tables.specs.Places.{lug_text};

use super::variant_names::{name_of, named};
use arrayvec::ArrayString;

/// One of the two lugs on a bar of the Converter M-209.
#[derive(Clone, Copy, PartialEq, Eq)]
pub enum Lug {
    Left,
    Right,
}

/// Looks up `$value` in the table of lugs and their names.
///
/// If `$read` is `name_of`, the result is the name of the lug `$value`. If `$read` is `named`, the result is the lug
/// with the name `$value`, or `None` if there is none.
macro_rules! names {
    ($read:ident, $value:expr) => {
        $read!($value, {
            Lug::Left => "L",
            Lug::Right => "R",
        })
    };
}

impl Lug {
    /// The lug's name in cards.
    pub fn text(self) -> ArrayString<8>
        ensures { result.bytes ≡ lug_text self }
    {
        let mut text = ArrayString::new();
        text.push_str(names!(name_of, self));
        text
    }

    /// The lug with the name `text`.
    pub fn from_text(text: &[u8]) -> Option<Self>
        ensures { MatchOption result
            ((lug : _) → lug_text lug ≢ text.now)
            (λ lug. lug_text lug ≡ text.now) }
    {
        names!(named, text)
    }
}
