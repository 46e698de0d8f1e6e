//! `FileFault`: why a file can't be read or opened.
ghost use Rattle.std.specs.Prelude.{◌≡◌};
ghost use Rattle.kd_host.specs.FileFault.{file_fault_text};

use kd_tables::{Refusal, RefusalText};
use std::alloc::AllocError;
use std::io;

/// Why a file can't be read whole, or can't be opened.
#[derive(Clone, Copy, Debug, PartialEq, Eq)]
pub enum FileFault {
    /// Memory ran out before the file was read whole.
    NoMemory,
    /// The file can't be opened, or a read failed.
    Device,
    /// The file has more than 1,048,576 bytes.
    ReadTooLong,
}

impl FileFault {
    /// The refusal's number and name.
    pub fn text(&self) -> RefusalText
        ensures { result.bytes ≡ file_fault_text self.now }
    {
        match self {
            FileFault::NoMemory => Refusal::NoMemory.text(),
            FileFault::Device => Refusal::Device.text(),
            FileFault::ReadTooLong => Refusal::ReadTooLong.text(),
        }
    }
}

impl From<AllocError> for FileFault {
    ghost use Rattle.std.specs.Prelude.{◌≡◌};
    ghost use Rattle.kd_host.specs.declared.file_fault.FileFault.TheVariants as files;

    ghost from_gives = { λ _ fault. fault ≡ files.NoMemory };

    fn from(_: AllocError) -> FileFault {
        FileFault::NoMemory
    }
}

impl From<io::Error> for FileFault {
    ghost use Rattle.std.specs.Prelude.{◌≡◌};
    ghost use Rattle.std.specs.IoError.{error_kind};
    ghost use Rattle.kd_host.specs.FileFault.{fault_of_kind};

    ghost from_gives = { λ error fault. fault ≡ fault_of_kind (error_kind error) };

    fn from(error: io::Error) -> FileFault {
        match error.kind() {
            io::ErrorKind::OutOfMemory => FileFault::NoMemory,
            _ => FileFault::Device,
        }
    }
}
