//! Makes new files in the folders of the system on which the program runs.
ghost use Rattle.std.specs.Prelude.{◌≡◌, false};

use crate::new_file_fault::NewFileFault;
use crate::new_files::NewFiles;
use crate::why_unread::WhyUnread;
use kd_host::WriterSink;
use kd_tables::{Failed, Sink};
use std::fs::{self, File};

/// The folders of the system on which the program runs. Contracts don't say which files are in them.
#[derive(Drop)]
pub struct HostNewFiles<'h> {
    pub rt: &'h HostRuntime,
}

impl<'h> NewFiles for HostNewFiles<'h> {
    type Written = HostNewFile;

    fn create(&mut self, name: &str) -> Result<HostNewFile, NewFileFault> {
        let file = File::create_new(self.rt, name)?;
        Ok(HostNewFile {
            sink: WriterSink::new(file),
        })
    }

    fn link(&mut self, _: HostNewFile, other: &str, name: &str) -> Result<(), NewFileFault> {
        File::open(self.rt, other)?.sync_all()?;
        fs::hard_link(self.rt, other, name)?;
        Ok(())
    }

    fn remove(&mut self, name: &str) {
        let _ = fs::remove_file(self.rt, name);
    }

    fn why_unread(&self, name: &str) -> WhyUnread {
        match fs::metadata(self.rt, name) {
            Ok(found) if found.is_dir() => return WhyUnread::Folder,
            _ => {}
        }
        match File::open(self.rt, name) {
            Ok(_) => WhyUnread::Other,
            Err(error) => WhyUnread::of_error(&error),
        }
    }
}

/// A file of the host that is being written.
#[derive(Drop)]
pub struct HostNewFile {
    sink: WriterSink<File>,
}

impl Sink for HostNewFile {
    ghost has_failed = { λ s. s.sink.failed };

    fn put(&mut self, bytes: &[u8]) -> Result<usize, Failed> {
        self.sink.put(bytes)
    }

    fn failed(&self) -> bool {
        self.sink.failed()
    }
}
