//! Compares keys of kinds, lists the keys of a day's columns, and joins each key to its price.
ghost use Rattle.std.specs.Prelude.{◌≡◌, ◌↔◌, ◌≤◌, length, zip, IsTrue};
ghost use Rattle.kd_state.specs.OnKey.{columns_in_order};

use arrayvec::ArrayVec;
use kd_card::Kind;
use kd_state::{column_at, letters_in_order};
use kd_tables::Letter;

pub(crate) fn is_same_key<K: Kind>(one: &K::Key, other: &K::Key) -> bool
    ensures { IsTrue result ↔ (one.now ≡ other.now) }
{
    K::compare(one, other).is_eq()
}

/// The 13 columns of a day: its pairs, each with its letters in alphabetical order, and then empty columns.
pub(crate) fn columns_of(pairs: &[(Letter, Letter)]) -> ArrayVec<Option<(Letter, Letter)>, 13>
    requires { length pairs.now ≤ 13 }
    ensures value { result.items ≡ columns_in_order pairs.now }
    ensures number { length result.items ≡ 13 }
{
    let mut columns = ArrayVec::new();
    for place in 0..13 {
        let pair = column_at(pairs, place).map(|(one, other)| letters_in_order(one, other));
        columns.push(pair);
    }
    columns
}

/// Joins each key in `keys` to the price at the same place in `prices`.
pub(crate) fn with_prices<T: Copy + Default, const N: usize>(
    keys: &[T],
    prices: &[i16; N],
) -> ArrayVec<(T, i16), N>
    requires { length keys.now ≡ N }
    ensures { result.items ≡ zip keys.now prices.now }
{
    let mut pairs = ArrayVec::new();
    for (place, key) in keys.iter().enumerate() {
        pairs.push((*key, prices[place]));
    }
    pairs
}
