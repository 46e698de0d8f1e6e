//! The sheet of one part of a message: the rows of its letters, its windows, and its fixed texts.
#![tactic(auto)]

pub mod cells;
pub mod cutting;
pub mod laws;
mod letters_after;
pub mod markup;
pub mod part_sheet;
pub mod part_work;
mod rows;
pub mod sheet;
pub mod texts;
mod windows;
mod words;
