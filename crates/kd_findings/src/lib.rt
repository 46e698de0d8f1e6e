//! Finds all faults of machine files and key sheets, and explains each fault in words. Each fault has a place. The
//! crate also warns about keys that the desk doesn't read, and about cables with letters in falling order.
//!
//! The desk stops at a file's first fault. This crate judges each key separately, with the desk's own readers.
#![tactic(auto)]

mod explanation_words;
mod findings;
mod judging;
mod key_names;
mod key_place;
mod machine;
mod not_toml;
mod sheet;
pub mod texts;
mod unread;
mod warnings;
mod words;

pub use explanation_words::wrong_words;
pub use findings::{Explanation, Finding};
pub use judging::{entries_of, find_faults, is_machine_file};
pub use key_place::KeyPlace;
pub use not_toml::{TextPlace, place_after, push_place, toml_words};
pub use warnings::warning_lines;
pub use words::{first_line, push_entry, push_titled};
