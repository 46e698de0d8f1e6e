//! Finds the price of each cable, column, bar or row on a card with prices by kind.
ghost use Rattle.std.specs.Prelude.{◌≡◌, ◌↔◌, ◌<◌, length, map, ℤ, List, IsTrue, MatchOption};
ghost use Rattle.kd_card.specs.{Kinds.{AreKindsOf, IsGroup}, Prices.ArePricesInRange};
ghost use Rattle.kd_prices.specs.Grouping.{HasNoneLeft, TakesOne};

use super::kind_keys::is_same_key;
use arrayvec::ArrayVec;
use kd_card::{Kind, KindOf};

/// Finds a price for each key in `keys`: the price of the kind with this key.
///
/// Each key stands for a cable, column, bar or row. `None` if a key has no kind, or comes more or less often than its
/// kind's count says.
pub(crate) fn prices_of<K: Kind, const N: usize>(
    keys: &[K::Key],
    mut kinds: ArrayVec<K, N>,
) -> Option<[i16; N]>
    requires number { length keys.now ≡ N }
    requires kinds { IsGroup K.format N kinds.items }
    ensures { MatchOption result
        ((prices : List ℤ) → ¬ (AreKindsOf K.format keys.now prices kinds.items))
        (λ prices. AreKindsOf K.format keys.now prices kinds.items × ArePricesInRange prices) }
{
    let mut prices = [0; N];
    for (place, key) in keys.iter().enumerate() {
        prices[place] = take_one(key, kinds.as_mut_slice())?;
    }
    Some(prices)
}

/// Lowers the count of a kind with the key `key` by one, and returns the kind's price.
///
/// Returns `None` if no kind with this key has a count above 0.
fn take_one<K: Kind>(key: &K::Key, kinds: &mut [K]) -> Option<i16>
    ensures { MatchOption result
        (HasNoneLeft (map K.format.kind kinds.old) key.now)
        (λ price. TakesOne (map K.format.kind kinds.old) key.now price (map K.format.kind kinds.new)) }
{
    let (kind, rest) = kinds.split_first_mut()?;
    if has_one_left(key, kind) {
        let parts = kind.parts();
        *kind = K::of(KindOf {
            count: parts.count - 1,
            ..parts
        });
        Some(parts.price)
    } else {
        take_one(key, rest)
    }
}

fn has_one_left<K: Kind>(key: &K::Key, kind: &K) -> bool
    ensures { let parts = K.format.kind kind.now in
        IsTrue result ↔ ((parts.key ≡ key.now) × (0 < parts.count)) }
{
    let parts = kind.parts();
    is_same_key::<K>(&parts.key, key) && parts.count > 0
}
