//! Calls of the key desk: type a text, print and check cards, apply settings, send and receive messages.
//!
//! `run_desk` is the whole program, from its command line to its output.
#![tactic(auto)]

mod fault;
pub mod laws;
mod list_or_card;
mod machine_and_day;
mod program;
pub mod run_apply;
pub mod run_card;
pub mod run_check;
pub mod run_receive;
pub mod run_send;
pub mod run_type;
mod stop;

pub use fault::DeskFault;
pub use kd_command::{
    Action, Command, Direction, NamedAction, NamedCommand, NoCommand, Task, parse_words,
};
pub use kd_host::{
    AskedNames, Content, FileFault, Files, HostFile, HostFiles, ReaderSource, WriterSink,
    read_whole,
};
pub use program::{run_desk, run_words};
pub use stop::{Stop, end_program};
