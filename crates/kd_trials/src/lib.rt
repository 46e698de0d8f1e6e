//! Tests of public calls that no run of a program shows: a module for each crate, and samples.
//!
//! The tests have a crate of their own, and nothing else stands in it, since a crate with tests is proved twice.
#![tactic(auto)]

#[cfg(test)]
mod assign;
#[cfg(test)]
mod card;
#[cfg(test)]
mod desk;
#[cfg(test)]
mod drum;
#[cfg(test)]
mod enigma;
#[cfg(test)]
mod form;
#[cfg(test)]
mod letters;
#[cfg(test)]
mod machines;
#[cfg(test)]
mod named;
#[cfg(test)]
mod pins;
#[cfg(test)]
mod prices;
#[cfg(test)]
mod sheet;
#[cfg(test)]
mod source;
#[cfg(test)]
mod state;
#[cfg(test)]
mod step;
#[cfg(test)]
mod tables;
#[cfg(test)]
mod texts;
