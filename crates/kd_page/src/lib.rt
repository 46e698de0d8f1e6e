//! The page of a day, to hang beside a machine. The page has pictures, a test of the machine, and the settings in the
//! order in which an operator makes them.
#![tactic(auto)]

mod boxes;
mod day_page;
mod drum;
mod head;
pub mod laws;
mod page;
mod pins;
mod plug_steps;
mod spots;
mod steps;
mod test;
mod wheel_steps;
mod windows;

pub use day_page::draw_day;
pub use head::{FileDays, ListedDay, draw_foot, draw_head};
pub use page::Page;
pub use spots::{Spot, Step};
