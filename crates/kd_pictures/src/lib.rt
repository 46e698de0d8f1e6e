//! Pictures of a machine, as text for pages: templates, fixed texts, wheels and plugboards.
#![tactic(auto)]

pub mod board;
mod drawing;
pub mod file_head;
pub mod fives;
pub mod laws;
pub mod numbers;
mod results;
pub mod sheet_name;
mod sockets;
pub mod template;
pub mod texts;
pub mod wheels;
pub mod words;

pub use drawing::{draw, draw_in};
pub use results::Results;
