//! Says in English or German words why a value in a machine file or a key sheet is refused. Also warns of days with few
//! pairs or groups.
//!
//! For each sort of value, a module has checks, which `kd_findings` calls. A check returns a `Slip` if it refuses the
//! value.
#![tactic(auto)]

pub mod cables;
pub mod counts;
pub mod letters;
pub mod models;
pub mod near_names;
pub mod numbers;
pub mod pins;
pub mod rings;
pub mod slip;
pub mod texts;
pub mod values;

pub use models::{box_words, model_name};
