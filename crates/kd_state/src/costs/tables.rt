//! The cost tables: the cost of each cable for each of a day's pairs, and of each bar for each of a day's readings.
ghost use Rattle.std.specs.Prelude.{◌≡◌, ◌≤◌, None, length, map, slice_index_or};
ghost use Rattle.kd_state.specs.Costs as costs;
ghost use Rattle.kd_state.specs.Costs.{columns_of};

use crate::costs::{bar_cost, cable_cost};
use crate::machine::cable::Cable;
use kd_tables::{Letter, Reading, Standing};

/// The column at `place`, counted from 0: one of the day's `pairs`, or `None` after the last pair.
#[tactic(auto, using(std::proofs::lemmas::Option::gets, crate::proofs::CostTable::columns_are_the_pairs))]
pub fn column_at(pairs: &[(Letter, Letter)], place: usize) -> Option<(Letter, Letter)>
    ensures { result ≡ slice_index_or (columns_of pairs.now) place None }
{
    pairs.get(place).copied()
}

/// The cost table of cables: the cost of each cable for each of a day's 13 columns.
///
/// Entry `[i][j]` is for cable `i` and column `j`, both counted from 0. The first columns are the day's pairs; the
/// other columns have no pair.
pub fn cable_costs(cables: &[Cable; 13], pairs: &[(Letter, Letter)]) -> [[u8; 13]; 13]
    requires { length pairs.now ≤ 13 }
    ensures { result ≡ costs.costs_by costs.cable_cost cables.now (columns_of pairs.now) }
{
    let mut costs = [[0; 13]; 13];
    for row in 0..13 {
        costs[row] = costs_of_cable(&cables[row], pairs);
    }
    costs
}

/// The costs of one cable for each of a day's 13 columns.
fn costs_of_cable(cable: &Cable, pairs: &[(Letter, Letter)]) -> [u8; 13]
    requires { length pairs.now ≤ 13 }
    ensures { result ≡ map (costs.cable_cost cable.now) (columns_of pairs.now) }
{
    let mut costs = [0; 13];
    for column in 0..13 {
        costs[column] = cable_cost(*cable, column_at(pairs, column));
    }
    costs
}

/// The cost table of bars: the cost of each bar for each of the day's rows.
///
/// Entry `[i][j]` is for bar `i` and row `j`, both counted from 0.
pub fn bar_costs(bars: &[Standing; 27], rows: &[Reading; 27]) -> [[u8; 27]; 27]
    ensures { result ≡ costs.costs_by costs.bar_cost bars.now rows.now }
{
    let mut costs = [[0; 27]; 27];
    for bar in 0..27 {
        costs[bar] = costs_of_bar(bars[bar], rows);
    }
    costs
}

/// The cost of one bar for each of the day's rows.
fn costs_of_bar(bar: Standing, rows: &[Reading; 27]) -> [u8; 27]
    ensures { result ≡ map (costs.bar_cost bar) rows.now }
{
    let mut costs = [0; 27];
    for row in 0..27 {
        costs[row] = bar_cost(bar, rows[row]);
    }
    costs
}
