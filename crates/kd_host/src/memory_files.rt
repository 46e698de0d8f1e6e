//! Files in memory, for tests of programs.
ghost use Rattle.std.specs.Prelude.{◌≡◌, ◌||◌, [], option_map, is_err};
ghost use Rattle.kd_host.specs.Files.{content_of, bytes_in_files};
ghost use Rattle.kd_tables.specs.Answers.{AgreesOrNoMemory};
ghost use Rattle.kd_tables.specs.Ports.{Gets};

use crate::asked_names::AskedNames;
use crate::content::Content;
use crate::file_fault::FileFault;
use crate::files::Files;
use kd_tables::{Failed, Source};
use std::alloc::Global;

/// Files in memory: the name and the bytes of each file.
#[derive(Drop)]
pub struct MemoryFiles<'n> {
    files: &'n [(&'n str, &'n [u8])],
    asked: AskedNames<'n>,
    /// The unread bytes of the last file given to `take_back`.
    rest: &'n [u8],
}

impl<'n> MemoryFiles<'n> {
    /// Creates files in memory. If several files have the same name, the first of them is read.
    pub fn new(files: &'n [(&'n str, &'n [u8])]) -> Self
        ensures files { result.files ≡ files.entry }
        ensures asked { result.asked ≡ [] }
    {
        MemoryFiles {
            files,
            asked: AskedNames::new(),
            rest: &[],
        }
    }

    /// The bytes of the first file called `name`.
    fn find(&self, name: &str) -> Option<&'n [u8]>
        ensures { option_map (λ bytes. bytes.now) result ≡ bytes_in_files self.now.files.now name.now }
    {
        let (_, bytes) = self.files.iter().find(|(held, _)| *held == name)?;
        Some(*bytes)
    }

    /// The content of the first file called `name`.
    fn content(&self, alloc: Global, name: &str) -> Result<Content, FileFault>
        ensures { AgreesOrNoMemory FileFault.NoMemory
            (content_of (bytes_in_files self.now.files.now name.now)) result }
    {
        let bytes = self.find(name).ok_or(FileFault::Device)?;
        Content::new(Vec::from_slice(alloc, bytes)?)
    }
}

impl<'n> Files<'n> for MemoryFiles<'n> {
    ghost use Rattle.std.specs.Prelude.{Some, false};
    ghost use Rattle.kd_host.specs.Files.{bytes_in_files};

    type Opened = MemoryFile<'n>;

    ghost known = { λ s. Some (bytes_in_files s.files.now) };

    ghost asked = { λ s. s.asked };

    ghost returned = { λ s. record { bytes = Some s.rest.now; failed = false } };

    fn read_content(&mut self, alloc: Global, name: &'n str) -> Result<Content, FileFault> {
        let content = self.content(alloc, name);
        self.asked.add(name, content.is_ok());
        content
    }

    fn open(&mut self, name: &'n str) -> Result<MemoryFile<'n>, FileFault> {
        let found = self.find(name);
        self.asked.add(name, found.is_some());
        let rest = found.ok_or(FileFault::Device)?;
        Ok(MemoryFile { rest })
    }

    fn take_back(&mut self, file: MemoryFile<'n>) {
        let MemoryFile { rest } = file;
        self.rest = rest;
    }
}

/// An opened file in memory. Reading the file never fails.
#[derive(Drop)]
pub struct MemoryFile<'a> {
    rest: &'a [u8],
}

impl<'a> Source for MemoryFile<'a> {
    ghost use Rattle.std.specs.Prelude.{Some, false};

    ghost remaining = { λ s. Some s.rest.now };

    ghost has_failed = { λ _. false };

    fn get(&mut self, buffer: &mut [u8]) -> Result<usize, Failed> {
        let count = buffer.len().min(self.rest.len());
        let (given, rest) = self.rest.split_at(count);
        buffer[..count].copy_from_slice(given);
        self.rest = rest;
        Ok(count)
    }

    fn failed(&self) -> bool {
        false
    }
}
