//! Tests of machines: single settings, engines, and the calls that return one part.
mod carrying;
mod engine;
mod getters;
