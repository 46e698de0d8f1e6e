//! The plugboard, made from pairs of letters.
ghost use Rattle.std.specs.Prelude.{◌≡◌, ◌<◌, ◌↔◌, IsOk, IfOk, slice_index};
ghost use Rattle.kd_tables.specs.Pairs.{NoLetterTwice};
ghost use Rattle.kd_tables.specs.Permutation.{exchange, exchanged};
ghost use Rattle.kd_tables.specs.Refusals.{refusal_name};
ghost use Rattle.kd_enigma.specs.Cipher.{IsPlugboard};

use super::map::Map;
use kd_tables::{Letter, Refusal, RefusalText, have_no_letter_twice};
use std::marker::Model;
use thiserror::Error;

/// A letter occurs twice in the pairs of a plugboard.
#[derive(Clone, Copy, Debug, PartialEq, Eq, Error)]
#[error("{}", self.text())]
pub struct LetterTwice;

impl LetterTwice {
    /// The text of the refusal: `1 LetterTwice`.
    pub fn text(&self) -> RefusalText
        ensures { result.bytes ≡ refusal_name Refusal.LetterTwice }
    {
        Refusal::LetterTwice.text()
    }
}

/// A plugboard: a table of the letter that each letter becomes. A letter without a cable becomes itself.
#[derive(Clone, Copy)]
pub struct Plugs {
    table: [Letter; 26],
}

impl Model for Plugs {
    ghost use Rattle.std.specs.Prelude.{List, ℕ};
    ghost use Rattle.kd_enigma.specs.Cipher.{IsPlugboard};

    ghost Value = { List ℕ };

    ghost view = { λ p. p.table };

    ghost invariant = { λ p. IsPlugboard p.table };

    ghost inverse = { λ table. record { table = table } };
}

impl Plugs {
    /// Makes the plugboard that exchanges the two letters of each pair.
    ///
    /// The order of the pairs makes no difference. The fault is `LetterTwice` if a letter occurs in two
    /// pairs, or twice in one pair.
    pub fn from_pairs(pairs: &[(Letter, Letter)]) -> Result<Plugs, LetterTwice>
        ensures ok { IsOk result ↔ NoLetterTwice pairs.now }
        ensures value { IfOk result (λ plugs. plugs ≡ exchange pairs.now) }
        ensures plugboard { IfOk result IsPlugboard }
    {
        if !have_no_letter_twice(pairs) {
            return Err(LetterTwice);
        }
        let table = std::array::from_fn(|index| exchanged(pairs, Letter::at(index as u8)));
        Ok(Plugs { table })
    }

    /// The letter that a cable exchanges with `letter`; if no cable has `letter`, then `letter` itself.
    pub fn swap(self, letter: Letter) -> Letter
        ensures value { result ≡ slice_index self letter }
        ensures within { result < 26 }
    {
        self.table[letter.index()]
    }

    /// The permutation that the plugboard makes.
    pub(crate) fn map(self) -> Map
        ensures value { result ≡ self }
        ensures plugboard { IsPlugboard self }
    {
        Map::from_table(&self.table)
    }
}

/// The letter that `letter` becomes if the two letters of each pair are exchanged.
fn exchanged(pairs: &[(Letter, Letter)], letter: Letter) -> Letter
    ensures { result ≡ exchanged pairs.now letter }
{
    match pairs {
        [(one, other), rest @ ..] => {
            if letter == *one {
                *other
            } else if letter == *other {
                *one
            } else {
                exchanged(rest, letter)
            }
        }
        [] => letter,
    }
}
