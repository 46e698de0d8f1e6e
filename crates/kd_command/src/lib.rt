//! Parses the command line of the key desk, which has six commands.
#![tactic(auto)]

mod command;

pub use command::{Action, Command, NamedAction, NamedCommand, NoCommand, Task, parse_words};
pub use kd_tables::Direction;
