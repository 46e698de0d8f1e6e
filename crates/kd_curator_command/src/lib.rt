//! The command line of the curator: the grammar of its eight commands, and the parser.
#![tactic(auto)]

mod clap_words;
mod command;
mod days;
mod grammar;
pub mod laws;
mod locale;
mod texts;

pub use command::{Command, CommandLine, MessageTask, NamedCommand, NoCommand, Task, parse_words};
pub use days::{Days, days_of_word};
pub use kd_tables::Direction;
pub use locale::{language_of, language_of_code, language_without_command};
