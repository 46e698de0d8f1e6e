//! Makes new files. A new file is there with all its bytes or not at all, and never replaces another file. Also says
//! why a file can't be read.
#![tactic(auto)]

mod host_new_files;
mod memory_new_files;
mod new_file;
mod new_file_fault;
mod new_files;
mod why_unread;

pub use host_new_files::{HostNewFile, HostNewFiles};
pub use memory_new_files::MemoryNewFiles;
pub use new_file::{begin, publish};
pub use new_file_fault::NewFileFault;
pub use new_files::NewFiles;
pub use why_unread::WhyUnread;
