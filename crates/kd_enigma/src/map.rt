//! Permutations of the alphabet, each in a vector of 32 bytes. One shuffle of bytes composes two of them.
ghost use Rattle.std.specs.Prelude.{◌≡◌, ◌<◌, ◌≤◌, nat_lt, slice_index, if◌then◌else◌};
ghost use Rattle.kd_tables.specs.Permutation.{followed_by, shift};

use kd_tables::Letter;
use std::marker::Model;
use std::simd::prelude::*;

/// A permutation of the alphabet in 32 bytes. Bytes 26 to 31 belong to no letter, and map to themselves.
#[derive(Clone, Copy)]
pub(crate) struct Map {
    lanes: u8x32,
}

impl Model for Map {
    ghost use Rattle.std.specs.Prelude.{List, ℕ, ◌++◌, take};
    ghost use Rattle.kd_enigma.specs.Map.{AreLanes, spare_lanes};

    ghost Value = { List ℕ };

    ghost view = { λ m. take 26 m.lanes };

    ghost invariant = { λ m. AreLanes m.lanes };

    ghost inverse = { λ letters. record { lanes = letters ++ spare_lanes } };

    ghost inverse_ok = { λ m h i. record { lanes = h.behind i } };
}

impl Map {
    /// Makes the permutation that takes each letter to its entry in `table`.
    pub(crate) fn from_table(table: &[Letter; 26]) -> Self
        ensures { result ≡ table.now }
    {
        let lanes = std::array::from_fn(
            |lane: usize|
                requires { lane < 32 }
                ensures letter { lane < 26 → result < 26 }
                ensures value { result
                    ≡ (if nat_lt lane 26 then slice_index table.entry.now lane else lane) }
            {
                if lane < 26 {
                    table[lane].index() as u8
                } else {
                    lane as u8
                }
            },
        );
        Map {
            lanes: u8x32::from_array(lanes),
        }
    }

    /// The permutation that moves each letter `by` places forward in the alphabet, with A after Z.
    pub(crate) fn shift(by: u8) -> Self
        requires { by ≤ 26 }
        ensures { result ≡ shift by }
    {
        Map::from_table(&shift_table(by))
    }

    /// Composes two permutations: `self` is applied first, then `second`.
    #[tactic(auto, using(crate::proofs::Maps::followed_by_is_safe, crate::proofs::Maps::followed_by_is))]
    pub(crate) fn then(self, second: Map) -> Self
        ensures { result ≡ followed_by self second }
    {
        Map {
            lanes: second.lanes.swizzle_dyn(self.lanes),
        }
    }

    /// The letter to which this permutation takes `letter`.
    pub(crate) fn at(&self, letter: Letter) -> Letter
        ensures { result ≡ slice_index self.now letter }
    {
        Letter::at(self.lanes[letter.index()])
    }
}

/// The table that moves each letter `by` places forward in the alphabet, with A after Z.
pub(crate) fn shift_table(by: u8) -> [Letter; 26]
    requires { by ≤ 26 }
    ensures { result ≡ shift by }
{
    std::array::from_fn(|index| Letter::at((index as u8 + by) % 26))
}
