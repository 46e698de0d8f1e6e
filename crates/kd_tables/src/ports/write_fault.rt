//! `WriteFault`: why a call's output isn't written, or isn't written completely.

/// Why a call's output isn't written, or isn't written completely. `F` is the type of the faults that the call finds
/// before it writes.
#[derive(Clone, Copy, Debug, PartialEq, Eq)]
pub enum WriteFault<F> {
    /// Nothing was written, because of this fault.
    Unwritten(F),
    /// The sink failed. It took a prefix of the output, but not the whole output.
    Device,
}
