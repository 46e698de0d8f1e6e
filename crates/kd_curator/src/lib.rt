//! The commands of the curator, as calls: they write pages, lists and tables, make key sheets, and look at files.
//!
//! `run_curator` is the whole program, from its command line to its output.
#![tactic(auto)]

mod blame;
mod buffered_sink;
mod error_line;
mod fault;
mod files;
mod looks;
mod machine_and_sheet;
mod output_file;
mod program;
pub mod run_list;
pub mod run_orders;
pub mod run_page;
pub mod run_receive;
pub mod run_send;
pub mod run_type;
mod sheets;
mod stop;
mod tables;
mod texts;

pub use blame::{Blame, Remark};
pub use fault::{PageFault, Refused};
pub use kd_curator_command::{
    Command, CommandLine, Days, Direction, MessageTask, NamedCommand, NoCommand, Task,
    days_of_word, language_of, language_of_code, parse_words,
};
pub use kd_language::Language;
pub use machine_and_sheet::DayFiles;
pub use program::run_curator;
pub use stop::{Stop, end_program};
