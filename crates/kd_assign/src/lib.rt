//! A minimum-cost assignment for a square table of costs, with prices that prove that no assignment costs less.
#![tactic(auto)]

mod columns;
mod growth;
pub mod laws;
mod nearest;
mod scans;
mod solution;

pub use scans::Scans;
pub use solution::{Solution, assign};
