//! Checks whether a card proves itself. Converts prices by number (for each cable, pair, bar or row) to prices by kind.
#![tactic(auto)]

mod carried;
mod checking;
mod doubt;
mod fitting;
mod grouping;
mod kind_cards;
mod kind_keys;
mod kind_prices;
pub mod laws;

pub use checking::check;
pub use doubt::Doubt;
pub use kind_cards::by_kind;
