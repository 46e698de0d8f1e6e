//! The read limit: how many bytes a source or a file may have.

/// The most bytes that are read from a source or a file.
pub const READ_LIMIT: usize = 1_048_576;
