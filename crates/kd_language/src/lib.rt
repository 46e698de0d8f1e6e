//! Texts in English and in German, and templates that are filled with values.
#![tactic(auto)]

mod language;
pub mod template;
mod wording;

pub use language::{Language, Text};
pub use wording::Wording;
