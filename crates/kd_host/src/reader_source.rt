//! A source that reads from any reader, such as standard input.
ghost use Rattle.std.specs.Prelude.{◌≡◌, ◌↔◌, ◌||◌, None, Some, Ok, IfOk, IfErr, IsErr, OnOk, is_some, is_err};
ghost use Rattle.std.specs.IoError.{error_kind};
ghost use Rattle.kd_tables.specs.Ports.{Gets};
ghost use Rattle.kd_host.specs.FileFault.{fault_of_kind};

use crate::file_fault::FileFault;
use kd_tables::{Failed, Source};
use std::io::{self, Read};

/// A source that reads from a reader. An interrupted read counts as a failure.
#[derive(Drop)]
pub struct ReaderSource<R: Read + Drop> {
    reader: R,
    fault: Option<FileFault>,
}

impl<R: Read + Drop> ReaderSource<R> {
    /// Creates a source of the bytes that `reader` reads.
    pub fn new(reader: R) -> Self
        ensures reader { result.reader ≡ reader }
        ensures fault { result.fault ≡ None }
    {
        ReaderSource {
            reader,
            fault: None,
        }
    }

    /// The fault of the last failed read; `None` if no read has failed.
    pub fn fault(&self) -> Option<FileFault>
        ensures { result ≡ self.now.fault }
    {
        self.fault
    }

    /// Records `answer`, the reader's answer to a read, and returns how many bytes the reader gave.
    fn note(&mut self, answer: io::Result<usize>) -> Result<usize, Failed>
        ensures count { IfOk result (λ count. answer ≡ Ok count) }
        ensures refused { IsErr result ↔ IsErr answer }
        ensures fault { IfErr answer (λ error. self.new.fault ≡ Some (fault_of_kind (error_kind error))) }
        ensures no_fault { OnOk answer (self.new.fault ≡ self.old.fault) }
        ensures reader { self.new.reader ≡ self.old.reader }
    {
        match answer {
            Ok(count) => Ok(count),
            Err(error) => {
                self.fault = Some(FileFault::from(error));
                Err(Failed)
            }
        }
    }
}

impl<R: Read + Drop> Source for ReaderSource<R> {
    ghost remaining = { λ s. R.remaining s.reader };

    ghost has_failed = { λ s. is_some s.fault };

    fn get(&mut self, buffer: &mut [u8]) -> Result<usize, Failed> {
        let answer = self.reader.read(buffer);
        self.note(answer)
    }

    fn failed(&self) -> bool {
        self.fault.is_some()
    }
}
