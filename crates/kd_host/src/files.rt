//! `Files`: a trait for reading and opening the files that the command line names.
ghost use Rattle.std.specs.Prelude.{◌≡◌, ◌<◌, [], ◌∷◌, ◌++◌, ℕ, false, List, Option, None, IfSome, IfOk, is_ok, length};
ghost use Rattle.kd_host.specs.Files.{content_of, opening_of, known_file, AskedName, KnownFile, IsOpenAnswer};
ghost use Rattle.kd_tables.specs.Answers.{AgreesOrNoMemory};

use crate::content::Content;
use crate::file_fault::FileFault;
use kd_tables::Source;
use std::alloc::Global;

/// Files that a program asks for by name, with a record of the names that it has asked for.
pub trait Files<'n> {
    /// An opened file, which is streamed.
    type Opened: Source + Drop;

    /// Maps a name to the bytes of the file with this name, if there is one.
    ///
    /// The map is missing (`None`) if the files' bytes aren't known, as for the host's files.
    ghost known: { Self → Option (List ℕ → Option (List ℕ)) } = { λ _. None };

    /// The file names that the program asked for, in order. A flag beside each name says whether the file could be read
    /// or opened.
    ghost asked: { Self → List AskedName };

    /// What is known of the last file given to `take_back`: its unread bytes, and whether a read of it failed.
    ghost returned: { Self → KnownFile };

    /// Reads the file `name` whole.
    ///
    /// Returns `Device` if the file can't be opened, or a read fails. Returns `ReadTooLong` if the file has more than
    /// 1,048,576 bytes. A program may ask for at most 34 names.
    fn read_content(&mut self, alloc: Global, name: &'n str) -> Result<Content, FileFault>
        requires { length (asked self.old) < 34 }
        ensures content { IfSome (known self.old)
            (λ held. AgreesOrNoMemory FileFault.NoMemory (content_of (held name.now)) result) }
        ensures asked { asked self.new ≡ asked self.old ++ (name.now, is_ok result) ∷ [] }
        ensures same { known self.new ≡ known self.old };

    /// Opens the file `name` for streaming.
    ///
    /// Returns `Device` if the file can't be opened. A program may ask for at most 34 names.
    fn open(&mut self, name: &'n str) -> Result<Self::Opened, FileFault>
        requires { length (asked self.old) < 34 }
        ensures opened { IfSome (known self.old) (λ held.
            IsOpenAnswer (opening_of (held name.now))
            (known_file Self.Opened.remaining Self.Opened.has_failed) result) }
        ensures fresh { IfOk result (λ file. Self.Opened.has_failed file ≡ false) }
        ensures asked { asked self.new ≡ asked self.old ++ (name.now, is_ok result) ∷ [] }
        ensures same { known self.new ≡ known self.old };

    /// Takes back an opened file that has been read.
    fn take_back(&mut self, file: Self::Opened)
        ensures returned { returned self.new
            ≡ known_file Self.Opened.remaining Self.Opened.has_failed file }
        ensures asked { asked self.new ≡ asked self.old }
        ensures same { known self.new ≡ known self.old };
}
