//! Reads and writes machine files, reads key sheets, and writes single lines of machine files and key sheets.
#![tactic(auto)]

pub mod by_key;
mod document;
mod fault;
mod key;
pub mod laws;
mod machine_reader;
mod machine_writer;
mod sheet;
mod sheet_reader;
mod values;
pub mod writing;

pub use fault::SheetFault;
pub use key::Key;
pub use machine_reader::{LATEST_VERSION, file_version, read_machine};
pub use machine_writer::write_machine;
pub use sheet::{DAYS, Sheet};
pub use sheet_reader::read_sheet;
pub use values::bars::BARS;
pub use values::pin_wheels::pins_of_text;
pub use values::rows::reading_of_text;
