//! What a command line can choose of a table that `curator` reads or writes.
#![tactic(auto)]

mod table_form;
mod table_options;

pub use table_form::TableForm;
pub use table_options::TableOptions;
