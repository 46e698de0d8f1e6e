//! Reads values of machine files and key sheets. Each sort of value has its own module.

pub(crate) mod bars;
pub(crate) mod cables;
pub(crate) mod groups;
pub(crate) mod items;
pub(crate) mod letters;
pub(crate) mod model;
pub(crate) mod numbers;
pub(crate) mod pairs;
pub(crate) mod pin_wheels;
pub(crate) mod reflector;
pub(crate) mod rows;
pub(crate) mod slots;
