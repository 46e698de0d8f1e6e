//! The wheels of the rotor machines, with their published wirings and notches.
ghost use Rattle.std.specs.Prelude.{◌≡◌, ◌≢◌, MatchOption};
ghost use Rattle.kd_tables.specs.Permutation.{inverse};
ghost use Rattle.kd_tables.specs.Tables.{wheel_text, wiring_of, is_notch};

use super::letter::Letter;
use super::published_text::{inverse_letters, letters, wiring};
use super::variant_names::{name_of, named};
use arrayvec::ArrayString;

/// A wheel of the rotor machines. Wheels I to VIII can step; Beta and Gamma, which only the M4 has, can't.
#[derive(Clone, Copy, PartialEq, Eq)]
pub enum Wheel {
    I,
    II,
    III,
    IV,
    V,
    VI,
    VII,
    VIII,
    /// The M4's Beta wheel, to the left of the three wheels that can step.
    Beta,
    /// The M4's Gamma wheel, to the left of the three wheels that can step.
    Gamma,
}

/// Calls the function `$make` with the published wiring of `$wheel`.
macro_rules! wirings {
    ($make:ident, $wheel:expr) => {
        wiring!($make, $wheel, {
            Wheel::I => b"EKMFLGDQVZNTOWYHXUSPAIBRCJ",
            Wheel::II => b"AJDKSIRUXBLHWTMCQGZNPYFVOE",
            Wheel::III => b"BDFHJLCPRTXVZNYEIWGAKMUSQO",
            Wheel::IV => b"ESOVPZJAYQUIRHXLNFTGKDCMWB",
            Wheel::V => b"VZBRGITYUPSDNHLXAWMJQOFECK",
            Wheel::VI => b"JPGVOUMFYQBENHZRDKASXLICTW",
            Wheel::VII => b"NZJHGRCXMYSWBOUFAIVLPEKQDT",
            Wheel::VIII => b"FKQHTLXOCBJSPDZRAMEWNIUYGV",
            Wheel::Beta => b"LEYJVCNIXWPBQMDRTAKZGFUHOS",
            Wheel::Gamma => b"FSOKANUERHMBTIYCWLQPZXVGJD",
        })
    };
}

/// Looks up `$value` in the table of wheels and their names.
///
/// If `$read` is `name_of`, the result is the name of the wheel `$value`. If `$read` is `named`, the result is the
/// wheel with the name `$value`, or `None` if there is none.
macro_rules! names {
    ($read:ident, $value:expr) => {
        $read!($value, {
            Wheel::I => "I",
            Wheel::II => "II",
            Wheel::III => "III",
            Wheel::IV => "IV",
            Wheel::V => "V",
            Wheel::VI => "VI",
            Wheel::VII => "VII",
            Wheel::VIII => "VIII",
            Wheel::Beta => "Beta",
            Wheel::Gamma => "Gamma",
        })
    };
}

impl Wheel {
    /// The wheel's name in machine files, sheets and cards.
    pub fn text(self) -> ArrayString<8>
        ensures { result.bytes ≡ wheel_text self }
    {
        let mut text = ArrayString::new();
        text.push_str(names!(name_of, self));
        text
    }

    /// The wheel with the name `text`.
    pub fn from_text(text: &[u8]) -> Option<Self>
        ensures { MatchOption result
            ((wheel : _) → wheel_text wheel ≢ text.now)
            (λ wheel. wheel_text wheel ≡ text.now) }
    {
        names!(named, text)
    }
}

/// The published wiring: what each letter becomes on the way in, with ring A and window A.
///
/// The way in leads from right to left. The wirings are from the tables of Tony Sale and of the Crypto Museum.
#[tactic(auto, unfolding(crate::specs::Tables::wiring_of))]
pub fn wiring(wheel: Wheel) -> [Letter; 26]
    ensures { result ≡ wiring_of wheel }
{
    wirings!(letters, wheel)
}

/// The inverse of the published wiring: what each letter becomes on the way back, from left to right.
#[tactic(auto, unfolding(crate::specs::Tables::wiring_of))]
pub fn unwiring(wheel: Wheel) -> [Letter; 26]
    ensures { result ≡ inverse (wiring_of wheel) }
{
    wirings!(inverse_letters, wheel)
}

/// Whether `wheel` is at a notch when it shows the letter `window`. The ring makes no difference.
///
/// When a wheel at a notch steps, the wheel to its left also steps, but Beta and Gamma never do. Some wheels have two
/// notches; Beta and Gamma have none.
pub fn notched(wheel: Wheel, window: Letter) -> bool
    ensures { result ≡ is_notch wheel window }
{
    let notches: &[u8] = match wheel {
        Wheel::I => b"Q",
        Wheel::II => b"E",
        Wheel::III => b"V",
        Wheel::IV => b"J",
        Wheel::V => b"Z",
        Wheel::VI | Wheel::VII | Wheel::VIII => b"MZ",
        Wheel::Beta | Wheel::Gamma => b"",
    };
    notches.contains(&window.byte())
}
