//! The files of a command: their names, and their bytes.
ghost use Rattle.std.specs.Prelude.{◌≡◌, ◌≤◌, ◌<◌, ◌+◌, ◌++◌, IfSome, IsErr, OnOk, is_ok, length};
ghost use Rattle.arrayvec.specs.ArrayVec.{array_vec_len};
ghost use Rattle.kd_tables.specs.Answers.{AgreesOrNoMemory};
ghost use Rattle.kd_host.specs.Files.{AreAskedFor};
ghost use Rattle.kd_curator_command.specs.CommandLine.{unborrowed_command, unborrowed_names};
ghost use Rattle.kd_curator.specs.Files.{all_read, behind, contents_of, names_of, text_at};

use arrayvec::ArrayVec;
use kd_curator_command::{Command, NamedCommand};
use kd_host::{Content, FileFault, Files};
use std::alloc::Global;
use std::marker::Model;

/// The greatest number of files that a command reads.
const MOST: usize = 34;

/// The names of a command's files, in the order in which they are read.
pub(crate) type Names<'n> = ArrayVec<&'n str, MOST>;

/// The bytes of a command's files, in the order in which the files are read.
pub(crate) type Contents = ArrayVec<FileBytes, MOST>;

/// The bytes of a file. Before the file is read, there are none.
#[derive(Default, Drop)]
pub(crate) struct FileBytes {
    content: Option<Content>,
}

impl Model for FileBytes {
    ghost use Rattle.std.specs.Prelude.{[], ℕ, List, unwrap_or};

    ghost Value = { List ℕ };

    ghost view = { λ file. unwrap_or file.content [] };
}

impl FileBytes {
    /// Wraps the content of a file.
    fn new(content: Content) -> Self
        ensures { result ≡ content }
    {
        FileBytes {
            content: Some(content),
        }
    }

    /// All bytes of the file.
    pub(crate) fn as_slice(&self) -> &[u8]
        ensures { result.now ≡ self.now }
    {
        match &self.content {
            Some(content) => content.as_slice(),
            None => &[],
        }
    }
}

/// The names of the files of `command`.
pub(crate) fn names_of<'n>(command: &NamedCommand<'n>) -> Names<'n>
    ensures { unborrowed_names result.items ≡ names_of (unborrowed_command command.now) }
{
    match command {
        Command::OnMachine { machine, sheet, .. } => listed(&[*machine, *sheet]),
        Command::Message {
            machine,
            sheet,
            message,
            ..
        } => listed(&[*machine, *sheet, *message]),
        Command::Orders {
            machine,
            sheet,
            orders,
            ..
        } => listed_with(&[*machine, *sheet], orders.as_slice()),
        Command::TypingPage { machine } => listed(&[*machine]),
        Command::Table { sheet, .. } => listed(&[*sheet]),
        Command::Sheet { table, .. } => listed(&[*table]),
        Command::Look { files } => listed(files.as_slice()),
        Command::EmptySheet { .. } => Names::new(),
    }
}

/// A copy of at most three names.
fn listed<'n>(names: &[&'n str]) -> Names<'n>
    requires { length names.now ≤ 3 }
    ensures { result.items ≡ names.now }
{
    let mut listed = Names::new();
    listed.try_extend_from_slice(names).unwrap();
    listed
}

/// A copy of the names `first`, then of the names `others`.
fn listed_with<'n>(first: &[&'n str], others: &[&'n str]) -> Names<'n>
    requires { length first.now + length others.now ≤ 34 }
    ensures { result.items ≡ first.now ++ others.now }
{
    let mut listed = Names::new();
    listed.try_extend_from_slice(first).unwrap();
    listed.try_extend_from_slice(others).unwrap();
    listed
}

/// Reads the files `names`, one after another, and appends their bytes to `contents`.
///
/// After a fault, `contents` has the bytes of the files before the file that can't be read.
pub(crate) fn read_contents<'n, F: Files<'n>>(
    alloc: Global,
    names: &[&'n str],
    files: &mut F,
    contents: &mut Contents,
) -> Result<(), FileFault>
    requires room { array_vec_len contents.old + length names.now ≤ 34 }
    requires asked { length (F.asked files.old) ≡ array_vec_len contents.old }
    ensures read { IfSome (F.known files.old) (λ held. AgreesOrNoMemory FileFault.NoMemory
        (behind contents.old.items (contents_of held (unborrowed_names names.now)))
        (all_read contents.new.items result)) }
    ensures many { OnOk result (length contents.new.items ≡ length contents.old.items + length names.now) }
    ensures asked { AreAskedFor (unborrowed_names names.now)
        (F.asked files.old) (F.asked files.new) (is_ok result) }
    ensures place { IsErr result → length (F.asked files.new) ≡ length contents.new.items + 1 }
{
    for name in names {
        let content = files.read_content(alloc, *name)?;
        contents.push(FileBytes::new(content));
    }
    Ok(())
}

/// The bytes of the command's file at place `place`, counted from 0.
pub(crate) fn text_at(contents: &[FileBytes], place: usize) -> &[u8]
    requires { place < length contents.now }
    ensures { result.now ≡ text_at contents.now place }
{
    contents[place].as_slice()
}

/// The name of the command's file at place `place`, counted from 0; empty if there is no such file.
pub(crate) fn name_at<'n>(names: &[&'n str], place: usize) -> &'n str
    ensures { result.now ≡ text_at (unborrowed_names names.now) place }
{
    match names.get(place) {
        Some(name) => *name,
        None => "",
    }
}
