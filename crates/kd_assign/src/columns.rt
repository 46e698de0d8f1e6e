//! Computes each row's column, each row's price, and the cost of a finished assignment.
ghost use Rattle.std.specs.Prelude.{◌≡◌, ℕ, ◌<◌, ◌≤◌, length, slice_index, pos, neg_ℤ, ◌-ℤ◌, ◌≤ℤ◌};
ghost use Rattle.kd_assign.specs.Assignment.{IsOneToOne, assignment_cost};
ghost use Rattle.kd_assign.specs.Prices.{AreCostsAtMost, cost_at, price_at};
ghost use Rattle.kd_assign.specs.PartialAssignment.{IsColumnTakenBy, IsRowAssigned};

/// Turns `holders`, the row of each column, into the column of each row.
pub fn columns_of_rows<const N: usize>(holders: &[Option<usize>; N]) -> [u8; N]
    requires few { N ≤ 32 }
    requires rows { (i j : ℕ) → IsColumnTakenBy holders.now j i → i < N }
    requires seated { (i : ℕ) → i < N → IsRowAssigned holders.now i }
    ensures len { length result ≡ N }
    ensures columns { (i : ℕ) → i < N → IsColumnTakenBy holders.now (slice_index result i) i }
    ensures one_to_one { IsOneToOne result }
{
    let mut columns = [0; N];
    for column in 0..N {
        if let Some(row) = holders[column] {
            columns[row] = column as u8;
        }
    }
    columns
}

/// The price of each row: the cost of the row in its column `to[row]`, minus the price of this column.
pub fn row_prices<const N: usize>(cost: &[[u8; N]; N], prices: &[i16; N], to: &[u8; N]) -> [i16; N]
    requires few { N ≤ 32 }
    requires costs { AreCostsAtMost 4 cost.now }
    requires one_to_one { IsOneToOne to.now }
    requires low { (j : ℕ) → j < N → neg_ℤ (pos 128) ≤ℤ price_at prices.now j }
    requires high { (j : ℕ) → j < N → price_at prices.now j ≤ℤ pos 0 }
    ensures len { length result ≡ N }
    ensures prices { (i : ℕ) → i < N
        → price_at result i ≡ pos (cost_at cost.now i (slice_index to.now i))
        -ℤ price_at prices.now (slice_index to.now i) }
{
    let mut rows = [0; N];
    for row in 0..N {
        let column = to[row] as usize;
        rows[row] = i16::from(cost[row][column]) - prices[column];
    }
    rows
}

/// The cost of the assignment `to`. The list `to` gives each row its column.
pub fn assignment_cost<const N: usize>(cost: &[[u8; N]; N], to: &[u8; N]) -> u16
    requires few { N ≤ 32 }
    requires costs { AreCostsAtMost 4 cost.now }
    requires one_to_one { IsOneToOne to.now }
    ensures { result ≡ assignment_cost cost.now to.now }
{
    let mut total = 0;
    for row in 0..N {
        let column = to[row] as usize;
        total += u16::from(cost[row][column]);
    }
    total
}
