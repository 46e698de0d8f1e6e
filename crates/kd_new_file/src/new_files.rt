//! `NewFiles`: a trait for making files in folders, and for asking why a file can't be read.
ghost use Rattle.std.specs.Prelude.{◌≡◌, ◌≢◌, ◌↔◌, [], false, List, ℕ, Option, None, Some, IfOk, IfSome, IsSome, Err, OnErr};
ghost use Rattle.std.specs.Option.{option_map};
ghost use Rattle.kd_new_file.specs.NewFiles.{AddsFile, FilesByName, with_content};

use crate::new_file_fault::NewFileFault;
use crate::why_unread::WhyUnread;
use kd_tables::Sink;

/// Folders in which files are made, named, and removed. `why_unread` gives the reason why a file can't be read.
pub trait NewFiles {
    /// A file that is being written.
    type Written: Sink + Drop;

    /// The files, by their names. `None` if the files aren't known. The host's files aren't known. Known files are in
    /// memory, where no device fails.
    ///
    /// A file that is still being written counts as empty.
    ghost held: { Self → Option FilesByName } = { λ _. None };

    /// Makes an empty file called `name`. Returns `Taken` if there already is a file with this name.
    fn create(&mut self, name: &str) -> Result<Self::Written, NewFileFault>
        ensures added { IfOk result (λ _. AddsFile (held self.old) (held self.new) name.now (Some [])) }
        ensures empty { IfOk result
            (λ file. Self.Written.taken file ≡ option_map (λ _. []) (held self.old)) }
        ensures fresh { IfOk result (λ file. Self.Written.has_failed file ≡ false) }
        ensures taken { IfSome (held self.old)
            (λ files. (result ≡ Err NewFileFault.Taken) ↔ IsSome (files name.now)) }
        ensures device { IfSome (held self.old) (λ _. result ≢ Err NewFileFault.Device) }
        ensures refused { OnErr result (held self.new ≡ held self.old) };

    /// Stores all bytes that were written to `file`, and gives the file the second name `name`. The file was made
    /// under the name `other`.
    ///
    /// Returns `Taken` if there already is a file called `name`.
    fn link(&mut self, file: Self::Written, other: &str, name: &str) -> Result<(), NewFileFault>
        ensures added { IfOk result (λ _.
            AddsFile (held self.old) (held self.new) name.now (Self.Written.taken file)) }
        ensures taken { IfSome (held self.old)
            (λ files. (result ≡ Err NewFileFault.Taken) ↔ IsSome (files name.now)) }
        ensures device { IfSome (held self.old) (λ _. result ≢ Err NewFileFault.Device) }
        ensures refused { OnErr result (held self.new ≡ held self.old) };

    /// If the folder allows it, removes the name `name`.
    fn remove(&mut self, name: &str)
        ensures { held self.new ≡ option_map (λ files. with_content files name.now None) (held self.old) };

    /// The reason why the file `name` can't be read. No contract says which reason a folder gives.
    fn why_unread(&self, name: &str) -> WhyUnread;
}
