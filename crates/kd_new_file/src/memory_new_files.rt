//! New files in memory, for tests of programs.
ghost use Rattle.std.specs.Prelude.{◌≡◌, ◌≢◌, ◌↔◌, Some, Err, OnErr, OnOk, IsSome};
ghost use Rattle.kd_new_file.specs.NewFiles.{AddsFile, files_in};

use crate::new_file_fault::NewFileFault;
use crate::new_files::NewFiles;
use crate::why_unread::WhyUnread;
use kd_tables::MemorySink;
use std::alloc::Global;
use std::collections::BTreeMap;

/// Files in memory. Each new file can have at most `CAP` bytes.
#[derive(Drop)]
pub struct MemoryNewFiles<const CAP: usize> {
    pub alloc: Global,
    /// The bytes of each file, by its name.
    pub files: BTreeMap<String, Vec<u8>>,
}

impl<const CAP: usize> MemoryNewFiles<CAP> {
    /// Adds a file called `name`, with the bytes `bytes`. Returns `Taken` if there already is a file with this name.
    fn add(&mut self, name: &str, bytes: &[u8]) -> Result<(), NewFileFault>
        ensures added { OnOk result
            (AddsFile (Some (files_in self.old.files)) (Some (files_in self.new.files)) name.now (Some bytes.now)) }
        ensures taken { (result ≡ Err NewFileFault.Taken) ↔ IsSome (files_in self.old.files name.now) }
        ensures device { result ≢ Err NewFileFault.Device }
        ensures refused { OnErr result (files_in self.new.files ≡ files_in self.old.files) }
    {
        if self.files.contains_key(name) {
            return Err(NewFileFault::Taken);
        }
        let name = String::from_str(self.alloc, name)?;
        let bytes = Vec::from_slice(self.alloc, bytes)?;
        match self.files.insert(name, bytes) {
            Ok(_) => Ok(()),
            Err(_) => Err(NewFileFault::NoMemory),
        }
    }
}

impl<const CAP: usize> NewFiles for MemoryNewFiles<CAP> {
    ghost use Rattle.std.specs.Prelude.{Some};
    ghost use Rattle.kd_new_file.specs.NewFiles.{files_in};

    type Written = MemorySink<CAP>;

    ghost held = { λ s. Some (files_in s.files) };

    fn create(&mut self, name: &str) -> Result<MemorySink<CAP>, NewFileFault> {
        self.add(name, &[])?;
        Ok(MemorySink::new(CAP))
    }

    fn link(&mut self, file: MemorySink<CAP>, _: &str, name: &str) -> Result<(), NewFileFault> {
        self.add(name, file.taken())
    }

    fn remove(&mut self, name: &str) {
        self.files.remove(name);
    }

    fn why_unread(&self, name: &str) -> WhyUnread {
        if self.files.contains_key(name) {
            WhyUnread::Other
        } else {
            WhyUnread::NotThere
        }
    }
}
