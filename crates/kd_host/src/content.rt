//! The content of a file that is read whole.
ghost use Rattle.std.specs.Prelude.{◌≡◌, Some};
ghost use Rattle.kd_tables.specs.Ports.{port};
ghost use Rattle.kd_host.specs.Files.{content_of, IsReadWhole};

use crate::file_fault::FileFault;
use kd_tables::{READ_LIMIT, Source};
use std::alloc::Global;
use std::marker::Model;

/// The largest number of bytes that are read at once.
const CHUNK: usize = 4096;

/// The bytes of a file, at most 1,048,576.
#[derive(Drop)]
pub struct Content {
    bytes: Vec<u8>,
}

impl Model for Content {
    ghost use Rattle.std.specs.Prelude.{ℕ, ◌≤◌, List, length};
    ghost use Rattle.kd_tables.specs.Ports.{read_limit};

    ghost Value = { List ℕ };

    ghost view = { λ content. content.bytes.items };

    ghost invariant = { λ content. length content.bytes.items ≤ read_limit };
}

impl Content {
    /// Wraps `bytes`; returns `ReadTooLong` if there are more than `READ_LIMIT` bytes.
    pub fn new(bytes: Vec<u8>) -> Result<Self, FileFault>
        ensures { result ≡ content_of (Some bytes.items) }
    {
        if bytes.len() > READ_LIMIT {
            return Err(FileFault::ReadTooLong);
        }
        Ok(Content { bytes })
    }

    /// All bytes of the file.
    pub fn as_slice(&self) -> &[u8]
        ensures { result.now ≡ self.now }
    {
        self.bytes.as_slice()
    }
}

/// Reads `source` to its end; returns `ReadTooLong` if the source has more than `READ_LIMIT` bytes.
///
/// Reads at most one byte beyond the limit, to see whether the source has more bytes.
pub fn read_whole<S: Source>(alloc: Global, source: &mut S) -> Result<Content, FileFault>
    ensures { IsReadWhole (port S.remaining S.has_failed source.old source.new) result }
{
    let mut bytes = Vec::new(alloc);
    let mut buffer = [0; CHUNK];
    while bytes.len() <= READ_LIMIT {
        let room = (READ_LIMIT + 1 - bytes.len()).min(CHUNK);
        let front = &mut buffer[..room];
        match source.get(front) {
            Ok(0) => return Ok(Content { bytes }),
            Ok(count) => bytes.extend_from_slice(&front[..count])?,
            Err(_) => return Err(FileFault::Device),
        }
    }
    Err(FileFault::ReadTooLong)
}
