//! Key sheets as printed tables: a table for each model of rotor machine, and a key list for each day of a Converter.
#![tactic(auto)]

mod csv_table;
mod days;
mod key_list;
pub mod laws;
mod month_table;
mod table_file;
pub mod texts;
mod words;

pub use table_file::write_tables;
