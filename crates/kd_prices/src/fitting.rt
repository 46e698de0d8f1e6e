//! Finds the first cell of a table of costs where the prices of row and column together exceed the cost.
ghost use Rattle.std.specs.Prelude.{◌≡◌, ◌↔◌, ℕ, ◌<◌, length, MatchOption, IsTrue};
ghost use Rattle.kd_prices.specs.{Doubt.IsFirstWithout, Fitting.{FitsAtColumn, IsFirstPlaceWithout, ListsFitAt}};

/// Finds the first cell, row by row, where the prices of row and column together exceed the cost.
///
/// The cell's row and column are counted from 0.
pub(crate) fn first_too_high<const N: usize>(
    costs: &[[u8; N]; N],
    rows: &[i16],
    columns: &[i16],
) -> Option<(usize, usize)>
    requires rows { length rows.now ≡ N }
    requires columns { length columns.now ≡ N }
    ensures { MatchOption result
        ((i j : ℕ) → i < N → j < N → ListsFitAt costs.now rows.now columns.now i j)
        (λ cell. IsFirstWithout (ListsFitAt costs.now rows.now columns.now) N cell.0 cell.1) }
{
    for (row, price) in rows.iter().enumerate() {
        if let Some(column) = first_column_too_high(&costs[row], *price, columns) {
            return Some((row, column));
        }
    }
    None
}

/// Finds the first column, counted from 0, where the row's `price` plus the column's price exceeds the cost.
fn first_column_too_high(costs: &[u8], price: i16, columns: &[i16]) -> Option<usize>
    requires { length costs.now ≡ length columns.now }
    ensures { MatchOption result
        ((j : ℕ) → j < length columns.now → FitsAtColumn costs.now price columns.now j)
        (IsFirstPlaceWithout (FitsAtColumn costs.now price columns.now) (length columns.now)) }
{
    for column in 0..columns.len() {
        if !fits_at_column(costs, price, columns, column) {
            return Some(column);
        }
    }
    None
}

fn fits_at_column(costs: &[u8], price: i16, columns: &[i16], column: usize) -> bool
    requires inside { column < length columns.now }
    requires each { length costs.now ≡ length columns.now }
    ensures { IsTrue result ↔ FitsAtColumn costs.now price columns.now column }
{
    i32::from(price) + i32::from(columns[column]) <= i32::from(costs[column])
}
