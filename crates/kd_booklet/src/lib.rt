//! A booklet: the pages of several days, which are planned one after another. Each page has the day's settings in the
//! order of their checkboxes.
#![tactic(auto)]

mod chain;
mod day_plan;
mod fault;
mod hand_list;
pub mod laws;
mod pages;
mod stages;

pub use chain::{DayPlans, day_of_model, plan_days};
pub use day_plan::{DayPlan, plan_day};
pub use fault::{DayFault, NoPlan};
pub use pages::write_pages;
