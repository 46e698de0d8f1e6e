//! Groups keys with prices into kinds, by sorting.
ghost use Rattle.std.specs.Prelude.{◌≡◌, ◌↔◌, ◌+◌, ◌<◌, ◌≤◌, length, map, IsPermutation, All, IsTrue, None};
ghost use Rattle.kd_card.specs.Kinds.{AreKinds, expansion};
ghost use Rattle.kd_prices.specs.Grouping.{HaveOnePriceEach, IsValidKeyAndPrice, AppendsKinds, AreSorted};
ghost use Rattle.kd_prices.specs.Grouping.{CanBeKinds, kind_of_one};

use super::kind_keys::is_same_key;
use arrayvec::ArrayVec;
use kd_card::{Kind, KindOf};

/// Groups `pairs`, which are keys with prices, into kinds.
///
/// A key is the letters of a cable or column, a standing or a reading. If all keys and prices are valid, and equal keys
/// have equal prices, equal keys share one kind. If equal keys have different prices, several kinds have this key, and
/// `Prices` refuses the kinds.
pub(crate) fn kinds_of<K: Kind, const N: usize>(pairs: ArrayVec<(K::Key, i16), N>) -> ArrayVec<K, N>
    requires small { N ≤ 255 }
    ensures expand { IsPermutation pairs.items (expansion (map K.format.kind result.items)) }
    ensures in_order { HaveOnePriceEach pairs.items → All (IsValidKeyAndPrice K.format) pairs.items
        → AreKinds K.format None result.items }
{
    let mut pairs = pairs;
    sort_by_key::<K>(pairs.as_mut_slice());
    kinds_of_sorted(pairs.as_slice())
}

/// Sorts `pairs`, which are keys with prices, by their keys.
fn sort_by_key<K: Kind>(pairs: &mut [(K::Key, i16)])
    ensures permutation { IsPermutation pairs.old pairs.new }
    ensures sorted { AreSorted K.format pairs.new }
{
    pairs.sort_unstable_by(|one, other| K::compare(&one.0, &other.0));
}

/// Groups `pairs`, which are sorted keys with prices, into kinds.
fn kinds_of_sorted<K: Kind, const N: usize>(pairs: &[(K::Key, i16)]) -> ArrayVec<K, N>
    requires small { N ≤ 255 }
    requires room { length pairs.now ≤ N }
    ensures expand { expansion (map K.format.kind result.items) ≡ pairs.now }
    ensures in_order { CanBeKinds K.format pairs.now → AreKinds K.format None result.items }
{
    let mut kinds = ArrayVec::new();
    if let Some((pair, rest)) = pairs.split_first() {
        push_kinds(kind_of_one(pair), rest, &mut kinds);
    }
    kinds
}

fn kind_of_one<T: Copy>(pair: &(T, i16)) -> KindOf<T>
    ensures { result ≡ kind_of_one pair.now }
{
    let (key, price) = *pair;
    KindOf {
        key,
        count: 1,
        price,
    }
}

/// Appends `kind` to `kinds`, and then the kinds of `pairs`, which are keys with prices.
///
/// The first items of `pairs` may have the key and the price of `kind`. Each of these items only raises the count of
/// `kind` by 1.
fn push_kinds<K: Kind, const N: usize>(
    kind: KindOf<K::Key>,
    pairs: &[(K::Key, i16)],
    kinds: &mut ArrayVec<K, N>,
)
    requires room { length kinds.old.items + length pairs.now < N }
    requires some { 1 ≤ kind.count }
    requires few { kind.count + length pairs.now ≤ 255 }
    ensures { AppendsKinds K.format kind pairs.now kinds.old.items kinds.new.items }
{
    let Some((pair, rest)) = pairs.split_first() else {
        kinds.push(K::of(kind));
        return;
    };
    if is_of_kind::<K>(pair, &kind) {
        let count = kind.count + 1;
        push_kinds(KindOf { count, ..kind }, rest, kinds);
    } else {
        kinds.push(K::of(kind));
        push_kinds(kind_of_one(pair), rest, kinds);
    }
}

fn is_of_kind<K: Kind>(pair: &(K::Key, i16), kind: &KindOf<K::Key>) -> bool
    ensures { IsTrue result ↔ (pair.now ≡ (kind.now.key, kind.now.price)) }
{
    is_same_key::<K>(&pair.0, &kind.key) && pair.1 == kind.price
}
