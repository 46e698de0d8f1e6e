//! `Stop`: why the program stops without success, with its exit status and its line on standard error.
ghost use Rattle.std.specs.Prelude.{◌≡◌, false, Err};
ghost use Rattle.kd_tables.specs.Ports.{port};
ghost use Rattle.kd_desk.specs.Ending.{status_of, stop_line, EndsAs};
ghost use Rattle.kd_desk.specs.Stops.{stop_after};

use crate::fault::DeskFault;
use kd_command::NoCommand;
use kd_host::{FileFault, Line, end_with_line, refused_line};
use kd_tables::Sink;
use std::alloc::AllocError;
use std::io;

/// Why the program stops without success.
#[derive(Clone, Copy, Debug, PartialEq, Eq)]
pub enum Stop {
    /// The command line isn't a command of the desk.
    Usage,
    /// A file that the command line names can't be read whole, or can't be opened.
    Unread(FileFault),
    /// A read of the opened order or form failed while the command was carried out.
    ReadFailed,
    /// The command was refused.
    Refused(DeskFault),
}

impl Stop {
    /// Turns the result of a command into the program's result: a fault becomes a `Stop`.
    pub(crate) fn of_answer(done: Result<(), DeskFault>) -> Result<(), Stop>
        ensures { result ≡ stop_after false done }
    {
        match done {
            Err(fault) => Err(Stop::Refused(fault)),
            Ok(()) => Ok(()),
        }
    }

    /// Turns the result of a command with a streamed file into the program's result: a fault becomes a `Stop`.
    ///
    /// `file_failed` says whether a read of the streamed file failed.
    pub(crate) fn of_file_answer(done: Result<(), DeskFault>, file_failed: bool) -> Result<(), Stop>
        ensures { result ≡ stop_after file_failed done }
    {
        match done {
            Err(DeskFault::Device) if file_failed => Err(Stop::ReadFailed),
            done => Stop::of_answer(done),
        }
    }

    /// The line for standard error.
    fn line(&self) -> Line
        ensures { result.bytes ≡ stop_line self.now }
    {
        match self {
            Stop::Usage => {
                let mut line = Line::new();
                line.push_str("usage: desk COMMAND WORDS\n");
                line
            }
            Stop::Unread(fault) => refused_line(fault.text()),
            Stop::ReadFailed => refused_line(DeskFault::Device.text()),
            Stop::Refused(fault) => refused_line(fault.text()),
        }
    }

    /// The program's exit status.
    fn status(&self) -> u8
        ensures { result ≡ status_of (Err self.now) }
    {
        match self {
            Stop::Usage => 2,
            Stop::Unread(_) | Stop::ReadFailed | Stop::Refused(_) => 1,
        }
    }
}

/// Writes to `errors` the line for the `Stop` in `answer`, if there is one, and returns the exit status.
///
/// The exit status is the same even if the line can't be written.
pub fn end_program<E: Sink>(answer: Result<(), Stop>, errors: &mut E) -> u8
    ensures { EndsAs answer (port E.taken E.has_failed errors.old errors.new) result }
{
    let Err(stop) = answer else {
        return 0;
    };
    end_with_line(stop.line().as_str(), stop.status(), errors)
}

impl From<FileFault> for Stop {
    ghost use Rattle.std.specs.Prelude.{◌≡◌};
    ghost use Rattle.kd_desk.specs.declared.stop.Stop.TheVariants.{Unread};

    ghost from_gives = { λ fault stop. stop ≡ Unread fault };

    fn from(fault: FileFault) -> Stop {
        Stop::Unread(fault)
    }
}

impl From<NoCommand> for Stop {
    ghost use Rattle.std.specs.Prelude.{◌≡◌};
    ghost use Rattle.kd_desk.specs.Stops.{stop_without_command};

    ghost from_gives = { λ why stop. stop ≡ stop_without_command why };

    fn from(why: NoCommand) -> Stop {
        match why {
            NoCommand::Usage => Stop::Usage,
            NoCommand::NoMemory => Stop::from(AllocError),
        }
    }
}

impl From<AllocError> for Stop {
    ghost use Rattle.std.specs.Prelude.{◌≡◌};
    ghost use Rattle.kd_desk.specs.declared.fault.DeskFault.TheVariants.{File};
    ghost use Rattle.kd_sheet.specs.declared.fault.SheetFault.TheVariants.{NoMemory};
    ghost use Rattle.kd_desk.specs.declared.stop.Stop.TheVariants.{Refused};

    ghost from_gives = { λ _ stop. stop ≡ Refused (File NoMemory) };

    fn from(_: AllocError) -> Stop {
        Stop::Refused(DeskFault::from(AllocError))
    }
}

impl From<io::Error> for Stop {
    ghost use Rattle.std.specs.Prelude.{◌≡◌};
    ghost use Rattle.std.specs.IoError.{error_kind};
    ghost use Rattle.kd_desk.specs.Stops.{stop_of_kind};

    ghost from_gives = { λ error stop. stop ≡ stop_of_kind (error_kind error) };

    /// Why the command line can't be read: no memory, or an argument that isn't UTF-8.
    fn from(error: io::Error) -> Stop {
        match error.kind() {
            io::ErrorKind::OutOfMemory => Stop::from(AllocError),
            _ => Stop::Usage,
        }
    }
}
