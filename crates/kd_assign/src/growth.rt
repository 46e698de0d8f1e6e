//! Gives one more row a column, by growing a tree of rows and columns as in the Hungarian method.
ghost use Rattle.std.specs.Prelude.{◌≡◌, ℕ, ◌+◌, ◌^◌, ◌<◌, ◌≤◌, length, ℤ, pos, neg_ℤ, ◌+ℤ◌, ◌-ℤ◌, ◌≤ℤ◌};
ghost use Rattle.std.specs.Int.{int_min};
ghost use Rattle.kd_assign.specs.Prices.{AreCostsAtMost, price_at};
ghost use Rattle.kd_assign.specs.Scans.{scans_of_tree};
ghost use Rattle.kd_assign.specs.PartialAssignment.{IsSolvedUpTo};

use crate::nearest::Nearest;
use crate::scans::Scans;

/// Gives row `root` a column. Rows before `root` may get other columns, to make the total cost the least.
///
/// A tree of rows and columns grows from `root`. In each round the nearest column joins the tree, and then the row that
/// holds this column. The growth ends at a free column, which no row holds. For each row `r` of the tree, `plans` gets
/// an assignment. This assignment gives a column to each row up to `root`, except row `r`. The old contents of `plans`
/// are never read.
pub fn assign_row<const N: usize>(
    cost: &[[u8; N]; N],
    prices: &mut [i16; N],
    holders: &mut [Option<usize>; N],
    plans: &mut [[Option<usize>; N]; N],
    root: usize,
    scans: &mut Scans,
)
    requires row { root < N }
    requires few { N ≤ 32 }
    requires costs { AreCostsAtMost 4 cost.now }
    requires solved { IsSolvedUpTo N cost.now prices.old holders.old root }
    requires room { scans.old ≤ 2 ^ 16 }
    ensures len { length prices.new ≡ N }
    ensures plans { length plans.new ≡ N }
    ensures solved { IsSolvedUpTo N cost.now prices.new holders.new (root + 1) }
    ensures least_scans { scans.old + N ≤ scans.new }
    ensures most_scans { scans.new ≤ scans.old + scans_of_tree N (root + 1) }
{
    let mut reached = [false; N];
    plans[root] = *holders;
    let mut nearest = Nearest::new();
    nearest.join(&reached, cost, root, 0, scans);
    loop {
        let column = nearest.column(&reached, prices, holders);
        let row = nearest.row[column];
        let mut plan = plans[row];
        plan[column] = Some(row);
        match holders[column] {
            Some(holder) => {
                reached[column] = true;
                plans[holder] = plan;
                let level = nearest.level(cost, holder, column);
                nearest.join(&reached, cost, holder, level, scans);
            }
            None => {
                let by = nearest.room(prices, column);
                lower_prices(prices, &nearest.ceiling, by);
                *holders = plan;
                return;
            }
        }
    }
}

/// Lowers each column's price to the column's ceiling minus `by`, unless the price is lower already.
fn lower_prices<const N: usize>(prices: &mut [i16; N], ceilings: &[i16; N], by: i16)
    requires low { (j : ℕ) → j < N → neg_ℤ (pos 128) ≤ℤ price_at ceilings.now j }
    requires by { pos 0 ≤ℤ by }
    requires little { by ≤ℤ pos 4 }
    ensures len { length prices.new ≡ N }
    ensures lowered { (j : ℕ) → j < N →
        price_at prices.new j ≡ int_min (price_at prices.old j) (price_at ceilings.now j -ℤ by) }
{
    for column in 0..N {
        prices[column] = prices[column].min(ceilings[column] - by);
    }
}
