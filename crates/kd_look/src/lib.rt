//! Describes machine files, key sheets, orders and forms in English or German words, or names their faults.
#![tactic(auto)]

mod alike;
mod day_lines;
mod fault_words;
mod few_days;
mod file;
mod group_days;
pub mod laws;
mod line;
mod looking;
mod machine_words;
mod message;
mod missing_days;
mod outcome;
mod report;
mod sheet_words;
mod texts;
mod values;
mod warnings;

pub use looking::{NamedFile, look_at};
pub use outcome::{FoundFault, Outcome};
