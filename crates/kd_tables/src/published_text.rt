//! Makes tables from the published texts of wheels, reflectors and pin wheels.
ghost use Rattle.std.specs.Prelude.{◌≡◌, ◌-◌, ◌+◌, ◌<◌, slice_index, IsTrue};
ghost use Rattle.kd_tables.specs.Permutation.{inverse, IsPermutation26, IsOwnInverse, MovesEachLetter};
ghost use Rattle.kd_tables.specs.Rings.{IsRing};
ghost use Rattle.kd_tables.specs.Tables.{letters_of};
ghost use Rattle.kd_tables.specs.WiringText.{are_capitals, is_permutation, is_ring_text, is_reflection};

use super::letter::Letter;

/// Calls `$make` with the published text of the wheel or reflector `$part`. The text's first letter is what A becomes.
///
/// The function `$make` is one of three: `letters` makes a wheel's table, `inverse_letters` the inverse of a wheel's
/// table, and `reflection` a reflector's table. The prover checks that each text has what these functions require.
macro_rules! wiring {
    ($make:ident, $part:expr, { $($variant:path => $text:literal,)* }) => {
        match $part {
            $($variant => $make($text),)*
        }
    };
}

pub(crate) use wiring;

/// The letters of `text`, which has only capital letters.
#[tactic(auto, using(std::proofs::lemmas::List::FromFn::fill_by_all))]
pub(crate) fn letters<const N: usize>(text: &[u8; N]) -> [Letter; N]
    requires { IsTrue (are_capitals text.now) }
    ensures { result ≡ letters_of text.now }
{
    let mut letters = [Letter::A; N];
    for place in 0..N {
        letters[place] = letter_at(text, place);
    }
    letters
}

/// The letter that `text` has at `place`, counted from 0.
fn letter_at<const N: usize>(text: &[u8; N], place: usize) -> Letter
    requires capitals { IsTrue (are_capitals text.now) }
    requires within { place < N }
    ensures { result ≡ slice_index text.now place - 65 }
{
    Letter::from_byte(text[place]).unwrap()
}

/// The inverse of the permutation whose published text is `text`.
#[tactic(auto, using(crate::proofs::Wirings::test_permutes))]
pub(crate) fn inverse_letters(text: &[u8; 26]) -> [Letter; 26]
    requires capitals { IsTrue (are_capitals text.now) }
    requires permutation { IsTrue (is_permutation (letters_of text.now)) }
    ensures { result ≡ inverse (letters_of text.now) }
{
    inverse_table(&letters(text))
}

/// The inverse of the permutation `table`.
#[tactic(auto, using(crate::proofs::Products::filled_is_inverse))]
fn inverse_table(table: &[Letter; 26]) -> [Letter; 26]
    requires { IsPermutation26 table.now }
    ensures { result ≡ inverse table.now }
{
    let mut inverse = [Letter::A; 26];
    for place in 0..26 {
        inverse[table[usize::from(place)].index()] = Letter::at(place);
    }
    inverse
}

/// The table of a reflector, from its published text.
#[tactic(auto, using(crate::proofs::Wirings::reflection_returns, crate::proofs::Wirings::reflection_moves))]
pub(crate) fn reflection(text: &[u8; 26]) -> [Letter; 26]
    requires capitals { IsTrue (are_capitals text.now) }
    requires reflection { IsTrue (is_reflection (letters_of text.now)) }
    ensures table { result ≡ letters_of text.now }
    ensures own_inverse { IsOwnInverse (letters_of text.now) }
    ensures none_fixed { MovesEachLetter (letters_of text.now) }
{
    letters(text)
}

/// The letters of a pin wheel, from its published text.
#[tactic(auto, using(crate::proofs::Wirings::text_makes_ring))]
pub(crate) fn ring<const N: usize>(text: &[u8; N]) -> [Letter; N]
    requires { IsTrue (is_ring_text text.now) }
    ensures letters { result ≡ letters_of text.now }
    ensures ring { IsRing N (letters_of text.now) }
{
    letters(text)
}
