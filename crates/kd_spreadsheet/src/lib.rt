//! Makes a key sheet from a table of days that a spreadsheet has saved. Also writes key sheets to fill in.
#![tactic(auto)]

mod cell;
mod columns;
mod empty_month;
mod fault;
mod items;
pub mod laws;
mod names;
mod near_names;
mod notes;
mod pin_row;
mod quotes;
mod records;
mod rotor_row;
mod row;
mod sheet;
mod sheet_writer;
mod table_body;
mod texts;

pub use empty_month::write_empty_month;
pub use fault::SpreadsheetFault;
pub use sheet::run_sheet;
pub use sheet_writer::write_sheet;
