//! The Converter M-209: its drum, and how it enciphers a letter.
#![tactic(auto)]

mod converter;
mod counts;
pub mod laws;

pub use converter::Converter;
