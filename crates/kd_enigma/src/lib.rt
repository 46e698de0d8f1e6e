//! The rotor machine: plugboard, wheels and reflector.
#![tactic(auto)]

mod enigma;
mod key;
pub mod laws;
mod map;
mod plugs;
mod rotor;

pub use enigma::Enigma;
pub use key::EnigmaKey;
pub use plugs::{LetterTwice, Plugs};
