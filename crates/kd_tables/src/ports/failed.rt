//! `Failed`: the error of a single `put` or `get`.
use thiserror::Error;

/// A `put` of a sink or a `get` of a source failed. The sink took no byte, or the source gave none.
#[derive(Clone, Copy, Debug, PartialEq, Eq, Error)]
#[error("the device refused")]
pub struct Failed;
