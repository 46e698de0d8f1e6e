//! The command `look`: describes files in words, or names their faults.
ghost use Rattle.std.specs.Prelude.{◌≡◌, ◌++◌, ◌||◌, false, map, IsErr, OnOk};
ghost use Rattle.kd_tables.specs.Ports.{port};
ghost use Rattle.kd_tables.specs.WriteFault.{is_device as is_write_device};
ghost use Rattle.kd_look.specs.Look.{IsLookAnswer, named_text};
ghost use Rattle.kd_curator_command.specs.CommandLine.{unborrowed_names};
ghost use Rattle.kd_curator.specs.Looks.{Looks, look_answer, named_texts};
ghost use Rattle.kd_curator.specs.Refusals.{has_written, is_device};

use crate::fault::{PageFault, Refused};
use crate::files::FileBytes;
use kd_language::Wording;
use kd_look::{NamedFile, Outcome, look_at};
use kd_sheet::SheetFault;
use kd_tables::{Sink, WriteFault};
use std::alloc::AllocError;

/// Describes the files `names`, whose bytes are `contents`, in words, or names their faults.
pub(crate) fn look_at_files<W: Sink>(
    wording: Wording,
    names: &[&str],
    contents: &[FileBytes],
    sink: &mut W,
) -> Result<(), Refused>
    ensures looks { Looks wording.language (named_texts (unborrowed_names names.now) contents.now)
        (port W.taken W.has_failed sink.old sink.new) result }
    ensures untouched { IsErr result → has_written result ≡ false → sink.new ≡ sink.old }
    ensures failed { W.has_failed sink.new ≡ (W.has_failed sink.old || is_device result) }
{
    answer_of(look_at_all(wording, names, contents, sink))
}

/// Does what `look_at_files` does, but returns the result of `look_at`.
fn look_at_all<W: Sink>(
    wording: Wording,
    names: &[&str],
    contents: &[FileBytes],
    sink: &mut W,
) -> Result<Outcome, WriteFault<AllocError>>
    ensures looks { IsLookAnswer wording.language
        (named_texts (unborrowed_names names.now) contents.now)
        (port W.taken W.has_failed sink.old sink.new) result }
    ensures untouched { IsErr result → is_write_device result ≡ false → sink.new ≡ sink.old }
    ensures failed { W.has_failed sink.new ≡ (W.has_failed sink.old || is_write_device result) }
{
    let mut files = Vec::new(wording.alloc);
    if let Err(fault) = push_files(&mut files, names, contents) {
        return Err(WriteFault::Unwritten(fault));
    }
    look_at(wording, files.as_slice(), sink)
}

/// Appends to `files` a file for each of `names`, with the file's bytes from `contents`.
fn push_files<'f>(
    files: &mut Vec<NamedFile<'f>>,
    names: &[&'f str],
    contents: &'f [FileBytes],
) -> Result<(), AllocError>
    ensures { OnOk result (map named_text files.new.items
        ≡ map named_text files.old.items ++ named_texts (unborrowed_names names.now) contents.now) }
{
    let Some((name, names)) = names.split_first() else {
        return Ok(());
    };
    let Some((content, contents)) = contents.split_first() else {
        return Ok(());
    };
    let bytes = content.as_slice();
    files.push(NamedFile { name: *name, bytes })?;
    push_files(files, names, contents)
}

/// Turns `told`, the answer of `look_at`, into the answer of the command `look`.
fn answer_of(told: Result<Outcome, WriteFault<AllocError>>) -> Result<(), Refused>
    ensures { result ≡ look_answer told }
{
    match told {
        Ok(Outcome::Faultless) => Ok(()),
        Ok(Outcome::Faulty(_)) => Err(Refused::from(PageFault::FaultyFile)),
        Err(WriteFault::Unwritten(_)) => Err(Refused::from(SheetFault::NoMemory)),
        Err(WriteFault::Device) => Err(Refused::from(PageFault::Device)),
    }
}
