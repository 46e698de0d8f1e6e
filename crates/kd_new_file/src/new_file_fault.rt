//! `NewFileFault`: why there is no new file.
use std::alloc::AllocError;
use std::io;

/// Why there is no new file.
#[derive(Clone, Copy)]
pub enum NewFileFault {
    /// There is a file with this name already.
    Taken,
    /// The folder can't take a new file, or a write failed.
    Device,
    /// Memory ran out.
    NoMemory,
}

impl From<io::Error> for NewFileFault {
    ghost use Rattle.std.specs.Prelude.{◌≡◌};
    ghost use Rattle.std.specs.IoError.{error_kind};
    ghost use Rattle.kd_new_file.specs.NewFileFault.{fault_of_kind};

    ghost from_gives = { λ error fault. fault ≡ fault_of_kind (error_kind error) };

    fn from(error: io::Error) -> NewFileFault {
        match error.kind() {
            io::ErrorKind::AlreadyExists => NewFileFault::Taken,
            io::ErrorKind::OutOfMemory => NewFileFault::NoMemory,
            _ => NewFileFault::Device,
        }
    }
}

impl From<AllocError> for NewFileFault {
    ghost use Rattle.std.specs.Prelude.{◌≡◌};
    ghost use Rattle.kd_new_file.specs.declared.new_file_fault.NewFileFault.TheVariants.{NoMemory};

    ghost from_gives = { λ _ fault. fault ≡ NoMemory };

    fn from(_: AllocError) -> NewFileFault {
        NewFileFault::NoMemory
    }
}
