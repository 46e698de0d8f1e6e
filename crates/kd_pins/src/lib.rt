//! The pin wheels of the Converter M-209.
#![tactic(auto)]

mod pin_set;
mod pin_wheel;

pub use pin_set::PinSet;
pub use pin_wheel::{NotOnWheel, PinWheel};
