//! `Stop`: why the program stops without success. A `Stop` gives the exit status, and the text on standard error.
ghost use Rattle.std.specs.Prelude.{◌≡◌, ◌≤◌, ◌+◌, ◌++◌};
ghost use Rattle.arrayvec.specs.ArrayString.{array_string_len};
ghost use Rattle.kd_tables.specs.Ports.{port};
ghost use Rattle.std.specs.IoError.{error_kind};
ghost use Rattle.kd_host.specs.Ending.{EndsWithLine};
ghost use Rattle.kd_curator.specs.Ending.{EndsAs, IsWordsStop, day_prefix, refusal_line, refusal_text, stop_after};
ghost use Rattle.kd_curator_command.specs.CommandLine.{unborrowed_names};

use crate::blame::remark_words;
use crate::error_line::{end_named, end_refused};
use crate::fault::{PageFault, Refused};
use crate::files::name_at;
use crate::texts::{DAY, DAY_END, NOT_UTF8, REFUSED};
use arrayvec::ArrayString;
use kd_host::{FileFault, end_with_line};
use kd_language::Language;
use kd_tables::{Sink, push_number};
use std::alloc::Global;
use std::io;

/// The text of a refusal, which may begin with a day.
type DayText = ArrayString<96>;

/// Why the program stops without success.
#[derive(Drop)]
pub enum Stop {
    /// The command line doesn't mean a command. The text says why.
    Usage(String),
    /// The command was refused.
    Refused(Refused),
}

/// If `answer` has a `Stop`, writes its text to `errors`. Returns the exit status.
///
/// A refusal's line is in `language`. If the refusal is about a file, the line ends with the file's name. `names` are
/// the names of the command's files. The exit status is the same even if the text can't be written.
pub fn end_program<E: Sink>(
    language: Language,
    answer: &Result<(), Stop>,
    names: &[&str],
    errors: &mut E,
) -> u8
    ensures { EndsAs language (unborrowed_names names.now) answer.now
        (port E.taken E.has_failed errors.old errors.new) result }
{
    match answer {
        Ok(()) => end_with_line("", 0, errors),
        Err(Stop::Usage(text)) => end_with_line(text.as_str(), 2, errors),
        Err(Stop::Refused(refused)) => end_with_refusal(language, *refused, names, errors),
    }
}

/// Writes the line for a refusal to `errors`. Returns the exit status 1.
#[tactic(auto, unfolding(crate::specs::Ending::refusal_line))]
fn end_with_refusal<E: Sink>(
    language: Language,
    refused: Refused,
    names: &[&str],
    errors: &mut E,
) -> u8
    ensures { EndsWithLine (refusal_line language (unborrowed_names names.now) refused) 1
        (port E.taken E.has_failed errors.old errors.new) result }
{
    let text = refusal_text(language, refused);
    match refused.blame {
        None => end_named(text.as_str(), "", errors),
        Some(blame) => {
            let words = remark_words(language, blame.remark);
            end_refused(text.as_str(), words, name_at(names, blame.place), errors)
        }
    }
}

/// The text of a refusal, without the remark on a file.
#[tactic(auto, using(std::proofs::Common::append_assoc))]
fn refusal_text(language: Language, refused: Refused) -> DayText
    ensures { result.bytes ≡ refusal_text language refused }
{
    let mut text = DayText::new();
    push_day(&mut text, language, refused.day);
    text.push_str(language.text(REFUSED));
    text.push_str(refused.fault.text(language).as_str());
    text
}

/// If there is a day, appends the words for it.
fn push_day(text: &mut DayText, language: Language, day: Option<u8>)
    requires { array_string_len text.old ≤ 1 }
    ensures bytes { text.new.bytes ≡ text.old.bytes ++ day_prefix language day }
    ensures len { array_string_len text.new ≤ array_string_len text.old + 9 }
{
    if let Some(day) = day {
        text.push_str(language.text(DAY));
        push_number(text, day);
        text.push_str(DAY_END);
    }
}

impl From<FileFault> for Stop {
    ghost use Rattle.std.specs.Prelude.{◌≡◌};
    ghost use Rattle.kd_curator.specs.Refusals.{refused_whole};
    ghost use Rattle.kd_curator.specs.declared.fault.PageFault.TheVariants as faults;
    ghost use Rattle.kd_curator.specs.declared.stop.Stop.TheVariants as stops;

    ghost from_gives = { λ fault stop. stop ≡ stops.Refused (refused_whole (faults.Unread fault)) };

    fn from(fault: FileFault) -> Stop {
        Stop::Refused(Refused::from(PageFault::Unread(fault)))
    }
}

impl Stop {
    /// Turns the result of a command into the program's result. A refusal is turned into a `Stop`.
    pub(crate) fn of_answer(done: Result<(), Refused>) -> Result<(), Stop>
        ensures { result ≡ stop_after done }
    {
        match done {
            Err(refused) => Err(Stop::Refused(refused)),
            Ok(()) => Ok(()),
        }
    }

    /// Why the program stops if it can't read the command line: memory ran out, or a word isn't UTF-8. The text is in
    /// `language`.
    pub fn of_words(alloc: Global, language: Language, error: &io::Error) -> Stop
        ensures { IsWordsStop language (error_kind error.now) result }
    {
        let text = String::from_str(alloc, language.text(NOT_UTF8));
        match (error.kind(), text) {
            (io::ErrorKind::OutOfMemory, _) | (_, Err(_)) => Stop::from(FileFault::NoMemory),
            (_, Ok(text)) => Stop::Usage(text),
        }
    }
}
