//! The host of a program: its files, its standard streams, and the program's end.
#![tactic(auto)]

mod asked_names;
mod content;
mod ending;
mod file_fault;
mod files;
mod host_files;
pub mod laws;
mod memory_files;
mod reader_source;
mod writer_sink;

pub use asked_names::AskedNames;
pub use content::{Content, read_whole};
pub use ending::{Line, end_with_line, refused_line};
pub use file_fault::FileFault;
pub use files::Files;
pub use host_files::{HostFile, HostFiles};
pub use memory_files::{MemoryFile, MemoryFiles};
pub use reader_source::ReaderSource;
pub use writer_sink::WriterSink;
