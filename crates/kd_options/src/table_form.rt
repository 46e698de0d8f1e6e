//! `TableForm`: the form of the file with a sheet's tables.

/// The form of the file with a sheet's tables.
#[derive(Clone, Copy, Debug, PartialEq, Eq)]
pub enum TableForm {
    /// An HTML page to print.
    Page,
    /// A CSV table for a spreadsheet.
    Csv,
}
