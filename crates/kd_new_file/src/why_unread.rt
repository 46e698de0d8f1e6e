//! `WhyUnread`: why a file can't be read.
ghost use Rattle.std.specs.Prelude.{◌≡◌};
ghost use Rattle.std.specs.IoError.{error_kind};
ghost use Rattle.kd_new_file.specs.WhyUnread.{why_by_kind};

use std::io;

/// Why a file can't be opened or read: the reason that the system gives.
#[derive(Clone, Copy, Debug, PartialEq, Eq)]
pub enum WhyUnread {
    /// There is no file with this name.
    NotThere,
    /// A folder has this name.
    Folder,
    /// The user isn't allowed to read the file.
    NotAllowed,
    /// Another reason.
    Other,
}

impl WhyUnread {
    /// Turns `error`, the fault of opening a file, into the reason why the file can't be read.
    pub fn of_error(error: &io::Error) -> WhyUnread
        ensures { result ≡ why_by_kind (error_kind error.now) }
    {
        match error.kind() {
            io::ErrorKind::NotFound | io::ErrorKind::NotADirectory => WhyUnread::NotThere,
            io::ErrorKind::PermissionDenied => WhyUnread::NotAllowed,
            _ => WhyUnread::Other,
        }
    }
}
