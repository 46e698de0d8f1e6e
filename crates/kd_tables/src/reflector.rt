//! The reflectors and their published wirings.
ghost use Rattle.std.specs.Prelude.{◌≡◌, ◌≢◌, MatchOption};
ghost use Rattle.kd_tables.specs.Permutation.{IsOwnInverse, MovesEachLetter};
ghost use Rattle.kd_tables.specs.Tables.{reflector_text, reflector_of};

use super::letter::Letter;
use super::published_text::{reflection, wiring};
use super::variant_names::{name_of, named};
use arrayvec::ArrayString;

/// A reflector of the rotor machines: it sends the current back through the wheels.
#[derive(Clone, Copy, PartialEq, Eq)]
pub enum Reflector {
    A,
    B,
    C,
    /// The M4's thin reflector B, written `b`.
    ThinB,
    /// The M4's thin reflector C, written `c`.
    ThinC,
}

/// Looks up `$value` in the table of reflectors and their names.
///
/// If `$read` is `name_of`, the result is the name of the reflector `$value`. If `$read` is `named`, the result is the
/// reflector with the name `$value`, or `None` if there is none.
macro_rules! names {
    ($read:ident, $value:expr) => {
        $read!($value, {
            Reflector::A => "A",
            Reflector::B => "B",
            Reflector::C => "C",
            Reflector::ThinB => "b",
            Reflector::ThinC => "c",
        })
    };
}

impl Reflector {
    /// The reflector's name: a capital letter, or a small letter for a thin reflector.
    pub fn text(self) -> ArrayString<8>
        ensures { result.bytes ≡ reflector_text self }
    {
        let mut text = ArrayString::new();
        text.push_str(names!(name_of, self));
        text
    }

    /// The reflector with the name `text`.
    pub fn from_text(text: &[u8]) -> Option<Self>
        ensures { MatchOption result
            ((reflector : _) → reflector_text reflector ≢ text.now)
            (λ reflector. reflector_text reflector ≡ text.now) }
    {
        names!(named, text)
    }
}

/// The published wiring: for each letter, the letter that the reflector turns it into.
///
/// From the tables of Tony Sale and of the Crypto Museum.
#[tactic(auto, unfolding(crate::specs::Tables::reflector_of))]
pub fn reflecting(reflector: Reflector) -> [Letter; 26]
    ensures table { result ≡ reflector_of reflector }
    ensures own_inverse { IsOwnInverse (reflector_of reflector) }
    ensures none_fixed { MovesEachLetter (reflector_of reflector) }
{
    wiring!(reflection, reflector, {
        Reflector::A => b"EJMZALYXVBWFCRQUONTSPIKHGD",
        Reflector::B => b"YRUHQSLDPXNGOKMIEBFZCWVJAT",
        Reflector::C => b"FVPJIAOYEDRZXWGCTKUQSBNMHL",
        Reflector::ThinB => b"ENKQAUYWJICOPBLMDXZVFTHRGS",
        Reflector::ThinC => b"RDOBJNTKVEHMLFCWZAXGYIPSUQ",
    })
}
