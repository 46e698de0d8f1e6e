//! Writes lines of machine files and key sheets, and the values in these lines.

pub mod item_text;
pub mod letters;
pub mod lines;
