//! How the wheels of a rotor machine step.
#![tactic(auto)]

pub mod laws;
mod notches;
mod stepper;

pub use stepper::Stepper;
