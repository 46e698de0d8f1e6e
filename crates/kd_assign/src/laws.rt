//! The law of prices: the sum of prices that fit is a lower bound for the cost of every assignment.
ghost use Rattle.kd_assign.specs.Cheapest.{FittingPricesBoundCosts};

/// If prices fit, every one-to-one assignment costs at least the sum of the prices.
///
/// Prices fit if, for each row and each column, the two prices add up to at most the cost in their cell.
#[tactic(auto, using(crate::proofs::Sums::fitting_prices_bound_costs))]
pub fn fitting_prices_bound_costs()
    ensures { FittingPricesBoundCosts }
{}
