//! The files of the host system.
ghost use Rattle.std.specs.Prelude.{◌≡◌, [], None, IfOk, is_some};

use crate::asked_names::AskedNames;
use crate::content::{Content, read_whole};
use crate::file_fault::FileFault;
use crate::files::Files;
use crate::reader_source::ReaderSource;
use kd_tables::{Failed, Source};
use std::alloc::Global;
use std::fs::File;

/// The files of the system that the program runs on.
#[derive(Drop)]
pub struct HostFiles<'n> {
    rt: &'n HostRuntime,
    asked: AskedNames<'n>,
    /// Whether the last file given to `take_back` had a failed read.
    has_failed: bool,
}

impl<'n> HostFiles<'n> {
    /// Gives access to the files that `rt` can open. The record of the names asked for is empty at first.
    pub fn new(rt: &'n HostRuntime) -> Self
        ensures { result.asked ≡ [] }
    {
        HostFiles {
            rt,
            asked: AskedNames::new(),
            has_failed: false,
        }
    }
}

impl<'n> Files<'n> for HostFiles<'n> {
    ghost use Rattle.std.specs.Prelude.{None};

    type Opened = HostFile;

    ghost asked = { λ s. s.asked };

    ghost returned = { λ s. record { bytes = None; failed = s.has_failed } };

    fn read_content(&mut self, alloc: Global, name: &'n str) -> Result<Content, FileFault> {
        let content = read_file(self.rt, alloc, name);
        self.asked.add(name, content.is_ok());
        content
    }

    fn open(&mut self, name: &'n str) -> Result<HostFile, FileFault> {
        let file = open_file(self.rt, name);
        self.asked.add(name, file.is_ok());
        file
    }

    fn take_back(&mut self, file: HostFile) {
        self.has_failed = file.failed();
    }
}

/// Reads the file `name` whole.
fn read_file(rt: &HostRuntime, alloc: Global, name: &str) -> Result<Content, FileFault> {
    let mut file = open_file(rt, name)?;
    match read_whole(alloc, &mut file) {
        Err(FileFault::Device) => Err(file.source.fault().unwrap_or(FileFault::Device)),
        content => content,
    }
}

fn open_file(rt: &HostRuntime, name: &str) -> Result<HostFile, FileFault>
    ensures { IfOk result (λ file. file.source.fault ≡ None) }
{
    let file = File::open(rt, name)?;
    Ok(HostFile::new(file))
}

/// An opened file of the host. No contract says which bytes it gives.
#[derive(Drop)]
pub struct HostFile {
    source: ReaderSource<File>,
}

impl HostFile {
    fn new(file: File) -> Self
        ensures { result.source.fault ≡ None }
    {
        HostFile {
            source: ReaderSource::new(file),
        }
    }
}

impl Source for HostFile {
    ghost has_failed = { λ s. is_some s.source.fault };

    fn get(&mut self, buffer: &mut [u8]) -> Result<usize, Failed> {
        self.source.get(buffer)
    }

    fn failed(&self) -> bool {
        self.source.failed()
    }
}
