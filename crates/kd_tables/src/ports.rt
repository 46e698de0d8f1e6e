//! Ports: sources, from which bytes are read, and sinks, to which bytes are written.
mod ending;
mod failed;
mod limit;
mod memory_sink;
mod memory_source;
mod sink;
mod source;
mod write_fault;
mod writing;

pub use ending::is_at_end;
pub use failed::Failed;
pub use limit::READ_LIMIT;
pub use memory_sink::MemorySink;
pub use memory_source::MemorySource;
pub use sink::Sink;
pub use source::Source;
pub use write_fault::WriteFault;
pub use writing::{Device, put_all};
