//! The page for typing on a machine. It has keys, lamps, and a table in which a script looks letters up.
#![tactic(auto)]

pub mod laws;
mod page;
mod pin_wheels;
mod script;
mod setting;
mod style;
mod texts;
mod windows;

pub use page::draw_typing_page;
