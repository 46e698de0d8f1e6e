//! The texts of command-line options that replace blank or missing cells.

/// The texts of the options `--model`, `--reflector` and `--window`, which replace blank or missing cells. An empty
/// text replaces no cell.
#[derive(Drop)]
pub struct TableOptions<T> {
    /// The name of the model.
    pub model: T,
    /// The name of the reflector.
    pub reflector: T,
    /// The window letters.
    pub window: T,
}
