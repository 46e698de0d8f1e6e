//! Finds a minimum-cost assignment and its prices.
ghost use Rattle.std.specs.Prelude.{◌≡◌, ◌*◌, ◌≤◌, All, pos, unsigned_abs};
ghost use Rattle.kd_assign.specs.Cheapest.{IsCheapestAssignment};
ghost use Rattle.kd_assign.specs.Prices.{AreCostsAtMost, FitCosts, price_sum};
ghost use Rattle.kd_assign.specs.Scans.{IsScanCount};

use crate::columns::{assignment_cost, columns_of_rows, row_prices};
use crate::growth::assign_row;
use crate::scans::Scans;

/// A minimum-cost assignment of rows to columns. Rows and columns are counted from 0.
#[derive(Clone, Copy)]
pub struct Solution<const N: usize> {
    /// The column of each row.
    pub to: [u8; N],
    /// The price of each row.
    pub row: [i16; N],
    /// The price of each column.
    pub col: [i16; N],
    /// The cost of the assignment.
    pub total: u16,
    /// How many times a column was compared with a row that had just joined a tree.
    pub scans: Scans,
}

/// Finds a minimum-cost assignment by the Hungarian method of Kuhn and Munkres.
///
/// The method grows a tree of tight edges from each row. An edge joins a row and a column. An edge is tight if the
/// prices of its row and its column add up to the cost in their cell. If several assignments cost the least, the
/// contract leaves open which one is found.
pub fn assign<const N: usize>(cost: &[[u8; N]; N]) -> Solution<N>
    requires some { 1 ≤ N }
    requires few { N ≤ 32 }
    requires costs { AreCostsAtMost 4 cost.now }
    ensures cheapest { IsCheapestAssignment cost.now result.to result.total }
    ensures fits { FitCosts cost.now result.row result.col }
    ensures row_prices { All (λ price. unsigned_abs price ≤ 4 * N) result.row }
    ensures col_prices { All (λ price. unsigned_abs price ≤ 4 * N) result.col }
    ensures price_sum { price_sum result.row result.col ≡ pos result.total }
    ensures scans { IsScanCount N result.scans }
{
    let mut col = [0; N];
    let mut holders = [None; N];
    let mut plans = [[None; N]; N];
    let mut scans = Scans::new();
    for row in 0..N {
        assign_row(cost, &mut col, &mut holders, &mut plans, row, &mut scans);
    }
    let to = columns_of_rows(&holders);
    let row = row_prices(cost, &col, &to);
    let total = assignment_cost(cost, &to);
    Solution {
        to,
        row,
        col,
        total,
        scans,
    }
}
