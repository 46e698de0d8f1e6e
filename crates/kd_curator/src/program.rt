//! The program: reads the command line and the files, and carries out the command.
ghost use Rattle.std.specs.Prelude.{◌≡◌, ◌≢◌, ◌||◌, [], ℕ, List, false, true, length, map, IsErr, IsTrue};
ghost use Rattle.std.specs.Prelude.{Option, None, Some};
ghost use Rattle.std.specs.Io.KnownBytes.{Keeps, append_known};
ghost use Rattle.kd_tables.specs.Ports.{Port, port};
ghost use Rattle.kd_host.specs.Writing.{WritesText};
ghost use Rattle.kd_curator_command.specs.CommandLine.{HasNoCommand, output_of, unborrowed_command};
ghost use Rattle.kd_language.specs.declared.language.Language.{Language};
ghost use Rattle.kd_new_file.specs.NewFiles.{AddsFile, FilesByName};
ghost use Rattle.kd_curator.specs.OutputFile.{EndsAtSink, EndsFile, EndsWithFile, IsMeantBySome, IsMeantIn, RunsTo};
ghost use Rattle.kd_curator.specs.Ending.{blame_of};
ghost use Rattle.kd_curator.specs.Files.{names_of, text_at};
ghost use Rattle.kd_curator.specs.Notes.{HasMessageNotes, HasNotes, IsLeftAlone};
ghost use Rattle.kd_curator.specs.Program.{CarriesOut, DoesCommand, DoesTask, IsRun, port_with_untaken};
ghost use Rattle.kd_curator.specs.Program.{HasMonth, LacksCommand};
ghost use Rattle.kd_curator.specs.Program.{IsAnswerAfterFlush, is_stopped_before_writing, is_stopped_by_device};
ghost use Rattle.kd_curator.specs.Program.{WorksMessage, is_whole};
ghost use Rattle.kd_curator.specs.Refusals.{has_written, is_device, refused_device, refused_unread};
ghost use Rattle.kd_new_file.specs.declared.why_unread.WhyUnread.{WhyUnread};

use crate::blame::Remark;
use crate::buffered_sink::BufferedSink;
use crate::fault::{PageFault, Refused};
use crate::files::{Contents, FileBytes, name_at, names_of, read_contents, text_at};
use crate::looks::look_at_files;
use crate::machine_and_sheet::DayFiles;
use crate::output_file::end_unwritten;
use crate::run_list::run_list;
use crate::run_orders::send_orders;
use crate::run_page::run_page;
use crate::run_receive::run_receive;
use crate::run_send::run_send;
use crate::run_type::run_type;
use crate::sheets::{make_sheet, write_empty_sheet};
use crate::stop::{Stop, end_program};
use crate::tables::run_table;
use kd_curator_command::{
    Command, MessageTask, NamedCommand, NoCommand, Task, language_without_command, parse_words,
};
use kd_host::{FileFault, Files};
use kd_language::{Language, Wording};
use kd_look::NamedFile;
use kd_message::PageOptions;
use kd_new_file::{NewFileFault, NewFiles, begin, publish};
use kd_tables::{Direction, Failed, Sink, put_all};
use std::alloc::Global;
use std::convert::AsStr;

/// Carries out the command line `words`, which begins with the program's own name. `language` is the computer's
/// language. Words are in this language, unless the command line asks for another language.
///
/// Returns the exit status and the sink. The status is 0 for success, 2 if the words don't mean a command, and 1 for a
/// refusal. With status 1 or 2, a text that says why is written to `errors`. If the text is about a file, it ends with
/// the file's name as in `words`. Before this text, notes may be written to `errors`: by the command `sheet` on a
/// table, and by the command `receive` on a form. Each file is read once, in the order of the command line. If a file
/// can't be read, no later file is asked for, and nothing is written to `sink`. If a read failed, `new_files` is asked
/// for the reason.
///
/// If the words name an output file, nothing is written to `sink`. The output goes to a new file in `new_files`. The
/// new file gets the output file's name exactly if the whole output was written.
pub fn run_curator<'n, S: AsStr, F: Files<'n>, N: NewFiles, W: Sink + Drop, E: Sink>(
    alloc: Global,
    language: Language,
    words: &'n [S],
    files: &mut F,
    new_files: &mut N,
    sink: W,
    errors: &mut E,
) -> (u8, W)
    requires { F.asked files.old ≡ [] }
    ensures { RunsTo language (map S.text words.entry.now) (F.known files.old) (F.asked files.new)
        (N.held new_files.old) (N.held new_files.new)
        (port_with_untaken W.taken W.has_failed sink result.1) (result.1 ≡ sink)
        (port E.taken E.has_failed errors.old errors.new) result.0 }
{
    match parse_words(alloc, language, words) {
        Ok(line) => {
            let request = Request {
                language: line.language.unwrap_or(language),
                command: line.command,
            };
            match line.output {
                Some(name) => {
                    let status = run_to_file(alloc, request, name, files, new_files, errors);
                    (status, sink)
                }
                None => run_to_sink(alloc, request, files, new_files, sink, errors),
            }
        }
        Err(none) => {
            let mut sink = sink;
            let answer = answer_other_words(none, &mut sink);
            let language = language_without_command(language, words);
            (end_program(language, &answer, &[], errors), sink)
        }
    }
}

/// A command that the command line asks for.
#[derive(Drop)]
struct Request<'n> {
    /// The language of the command's words.
    language: Language,
    command: NamedCommand<'n>,
}

/// Carries out `request`, with its output to `sink`.
fn run_to_sink<'n, F: Files<'n>, N: NewFiles, W: Sink + Drop, E: Sink>(
    alloc: Global,
    request: Request<'n>,
    files: &mut F,
    folders: &N,
    sink: W,
    errors: &mut E,
) -> (u8, W)
    requires meant { IsMeantBySome (unborrowed_command request.command) }
    requires asked { F.asked files.old ≡ [] }
    ensures { (l : Language) (words : List (List ℕ))
        → IsMeantIn l words request.entry.language (unborrowed_command request.entry.command)
        → output_of words ≡ None
        → EndsAtSink l words (F.known files.old) (F.asked files.new)
        (port_with_untaken W.taken W.has_failed sink result.1) (result.1 ≡ sink)
        (port E.taken E.has_failed errors.old errors.new) result.0 }
{
    let language = request.language;
    let names = names_of(&request.command);
    let (answer, sink) = run_gathering(alloc, request, files, folders, sink, errors);
    let status = end_program(language, &answer, names.as_slice(), errors);
    (status, sink)
}

/// Carries out `request`, with its output in the new file `name`.
fn run_to_file<'n, F: Files<'n>, N: NewFiles, E: Sink>(
    alloc: Global,
    request: Request<'n>,
    name: &str,
    files: &mut F,
    new_files: &mut N,
    errors: &mut E,
) -> u8
    requires meant { IsMeantBySome (unborrowed_command request.command) }
    requires asked { F.asked files.old ≡ [] }
    ensures { (l : Language) (words : List (List ℕ))
        → IsMeantIn l words request.entry.language (unborrowed_command request.entry.command)
        → EndsWithFile l words (F.known files.old) (F.asked files.new)
        (N.held new_files.old) (N.held new_files.new) name.now
        (names_of (unborrowed_command request.entry.command))
        (port E.taken E.has_failed errors.old errors.new) result }
{
    let language = request.language;
    let names = names_of(&request.command);
    let (other, file) = match begin(alloc, new_files, name) {
        Ok(begun) => begun,
        Err(fault) => return end_unwritten(language, name, fault, errors),
    };
    let (answer, file) = run_gathering(alloc, request, files, new_files, file, errors);
    match end_file(&answer, new_files, file, other.as_str(), name) {
        Ok(()) => end_program(language, &answer, names.as_slice(), errors),
        Err(fault) => end_unwritten(language, name, fault, errors),
    }
}

/// If `answer` says that the whole output was written, publishes the new file `file` as `name`.
///
/// Otherwise removes the file, which was begun under the name `other`. In this case, returns `Device` exactly if a
/// write to the file failed.
fn end_file<N: NewFiles>(
    answer: &Result<(), Stop>,
    new_files: &mut N,
    file: N::Written,
    other: &str,
    name: &str,
) -> Result<(), NewFileFault>
    ensures published { (before : Option FilesByName)
        → AddsFile before (N.held new_files.old) other.now (Some []) → other.now ≢ name.now
        → EndsFile before (N.held new_files.new) name.now (N.Written.taken file) (N.Written.has_failed file)
        (is_whole answer.now) result }
{
    if is_whole(answer) {
        return publish(new_files, file, other, name);
    }
    new_files.remove(other);
    if file.failed() {
        Err(NewFileFault::Device)
    } else {
        Ok(())
    }
}

/// Carries out `request`. The command's output is gathered before it is passed on to `sink`.
fn run_gathering<'n, F: Files<'n>, N: NewFiles, W: Sink + Drop, E: Sink>(
    alloc: Global,
    request: Request<'n>,
    files: &mut F,
    folders: &N,
    sink: W,
    errors: &mut E,
) -> (Result<(), Stop>, W)
    requires meant { IsMeantBySome (unborrowed_command request.command) }
    requires asked { F.asked files.old ≡ [] }
    ensures { (l : Language) (words : List (List ℕ))
        → IsMeantIn l words request.entry.language (unborrowed_command request.entry.command)
        → (left : List ℕ) × IsRun l words (F.known files.old) (F.asked files.new)
        (port_with_untaken W.taken W.has_failed sink result.1 left) (result.1 ≡ sink)
        (port E.taken E.has_failed errors.old errors.new) left result.0 }
{
    let mut gathering = BufferedSink::new(sink);
    let done = run_command(alloc, request, files, folders, &mut gathering, errors);
    let answer = pass_rest_on(done, &mut gathering);
    (answer, gathering.into_sink())
}

/// Reads the command's files, and carries out the command.
fn run_command<'n, F: Files<'n>, N: NewFiles, W: Sink, E: Sink>(
    alloc: Global,
    request: Request<'n>,
    files: &mut F,
    folders: &N,
    sink: &mut W,
    errors: &mut E,
) -> Result<(), Stop>
    requires meant { IsMeantBySome (unborrowed_command request.command) }
    requires asked { F.asked files.old ≡ [] }
    ensures carried { (l : Language) (words : List (List ℕ))
        → IsMeantIn l words request.entry.language (unborrowed_command request.entry.command)
        → CarriesOut l words (F.known files.old) (F.asked files.new)
        (port W.taken W.has_failed sink.old sink.new)
        (port E.taken E.has_failed errors.old errors.new) [] result }
    ensures untouched { IsTrue (is_stopped_before_writing result) → sink.new ≡ sink.old }
    ensures failed { W.has_failed sink.new ≡ (W.has_failed sink.old || is_stopped_by_device result) }
{
    let Request { language, command } = request;
    let names = names_of(&command);
    let mut contents = Contents::new();
    if let Err(fault) = read_contents(alloc, names.as_slice(), files, &mut contents) {
        let refused = refused_unread(names.as_slice(), contents.len(), fault, folders);
        return Err(Stop::Refused(refused));
    }
    let answer = carry_out(alloc, language, command, contents.as_slice(), sink, errors);
    Stop::of_answer(answer)
}

/// The refusal for a file that couldn't be read: the file at place `place` of `names`. If `fault` is `Device`,
/// `folders` gives the reason.
fn refused_unread<N: NewFiles>(
    names: &[&str],
    place: usize,
    fault: FileFault,
    folders: &N,
) -> Refused
    ensures { (why : WhyUnread) × (result ≡ refused_unread place fault why) }
{
    let fault_is = PageFault::Unread(fault);
    match fault {
        FileFault::NoMemory => Refused::from(fault_is),
        FileFault::ReadTooLong => Refused::of_file(fault_is, place, Remark::TooLong),
        FileFault::Device => {
            let why = folders.why_unread(name_at(names, place));
            Refused::of_file(fault_is, place, Remark::Unread(why))
        }
    }
}

/// Answers a command line that means no command. `none` says what it means instead. If it asks for help or for the
/// version, writes the text that it asks for. Otherwise, turns `none` into a `Stop`.
fn answer_other_words<W: Sink>(none: NoCommand, sink: &mut W) -> Result<(), Stop>
    ensures carried { (l : Language) (words : List (List ℕ)) (known : Option (List ℕ → Option (List ℕ)))
        (errors : Port) → IsLeftAlone errors → HasNoCommand words none
        → CarriesOut l words known [] (port W.taken W.has_failed sink.old sink.new) errors [] result }
    ensures why { (words : List (List ℕ)) → HasNoCommand words none → LacksCommand words [] result }
    ensures nothing { blame_of result ≡ None }
    ensures untouched { IsTrue (is_stopped_before_writing result) → sink.new ≡ sink.old }
    ensures failed { W.has_failed sink.new ≡ (W.has_failed sink.old || is_stopped_by_device result) }
{
    match none {
        NoCommand::Asked(text) => Stop::of_answer(show(text.as_str(), sink)),
        NoCommand::Usage(text) => Err(Stop::Usage(text)),
        NoCommand::NoMemory => Err(Stop::from(FileFault::NoMemory)),
    }
}

/// Carries out `command`, whose files have the bytes `contents`.
fn carry_out<W: Sink, E: Sink>(
    alloc: Global,
    language: Language,
    command: NamedCommand<'_>,
    contents: &[FileBytes],
    sink: &mut W,
    errors: &mut E,
) -> Result<(), Refused>
    requires month { HasMonth (unborrowed_command command) }
    requires many { length contents.now ≡ length (names_of (unborrowed_command command)) }
    ensures does { DoesCommand language (unborrowed_command command.entry) contents.now
        (port W.taken W.has_failed sink.old sink.new) result }
    ensures untouched { IsErr result → has_written result ≡ false → sink.new ≡ sink.old }
    ensures failed { W.has_failed sink.new ≡ (W.has_failed sink.old || is_device result) }
    ensures noted { HasNotes language (unborrowed_command command.entry) contents.now result
        (port E.taken E.has_failed errors.old errors.new) }
{
    let wording = Wording { alloc, language };
    match command {
        Command::OnMachine { task, sheet, .. } => {
            do_task(alloc, language, task, sheet, contents, sink)
        }
        Command::Message { task, .. } => {
            work_message(alloc, language, task, contents, sink, errors)
        }
        Command::Orders { orders, task, .. } => {
            send_orders(alloc, language, task, orders.as_slice(), contents, sink)
        }
        Command::TypingPage { .. } => run_type(alloc, language, text_at(contents, 0), sink),
        Command::Table { form, .. } => {
            run_table(alloc, language, form, text_at(contents, 0), sink)
        }
        Command::Sheet { options, .. } => {
            make_sheet(wording, text_at(contents, 0), &options, sink, errors)
        }
        Command::Look { files } => look_at_files(wording, files.as_slice(), contents, sink),
        Command::EmptySheet { model, days } => write_empty_sheet(model, days, sink),
    }
}

/// Carries out `task`. `contents` are the bytes of the machine file, and of the key sheet, whose file has the name
/// `name`.
fn do_task<W: Sink>(
    alloc: Global,
    language: Language,
    task: Task,
    name: &str,
    contents: &[FileBytes],
    sink: &mut W,
) -> Result<(), Refused>
    requires { length contents.now ≡ 2 }
    ensures does { DoesTask language task name.now (text_at contents.now 0) (text_at contents.now 1)
        (port W.taken W.has_failed sink.old sink.new) result }
    ensures untouched { IsErr result → is_device result ≡ false → sink.new ≡ sink.old }
    ensures failed { W.has_failed sink.new ≡ (W.has_failed sink.old || is_device result) }
{
    let machine = text_at(contents, 0);
    let bytes = text_at(contents, 1);
    match task {
        Task::Page { days } => {
            let sheet = NamedFile { name, bytes };
            run_page(alloc, language, machine, sheet, days, sink)
        }
        Task::List(day) => run_list(alloc, machine, bytes, day, sink),
    }
}

/// Carries out `task`. `contents` are the bytes of the machine file, of the key sheet, and of the message.
fn work_message<W: Sink, E: Sink>(
    alloc: Global,
    language: Language,
    task: MessageTask,
    contents: &[FileBytes],
    sink: &mut W,
    errors: &mut E,
) -> Result<(), Refused>
    requires { length contents.now ≡ 3 }
    ensures does { WorksMessage language task (text_at contents.now 0) (text_at contents.now 1)
        (text_at contents.now 2) (port W.taken W.has_failed sink.old sink.new) result }
    ensures untouched { IsErr result → has_written result ≡ false → sink.new ≡ sink.old }
    ensures failed { W.has_failed sink.new ≡ (W.has_failed sink.old || is_device result) }
    ensures noted { HasMessageNotes task.direction language (text_at contents.now 0)
        (text_at contents.now 1) task.day (text_at contents.now 2) result
        (port E.taken E.has_failed errors.old errors.new) }
{
    let options = PageOptions {
        language,
        results: task.results,
    };
    let files = DayFiles {
        machine: text_at(contents, 0),
        sheet: text_at(contents, 1),
        number: task.day,
    };
    let message = text_at(contents, 2);
    match task.direction {
        Direction::Send => run_send(alloc, options, files, message, sink),
        Direction::Receive => run_receive(alloc, options, files, message, sink, errors),
    }
}

/// Writes `text`, the help or the version that the command line asks for.
fn show<W: Sink>(text: &str, sink: &mut W) -> Result<(), Refused>
    ensures written { WritesText refused_device text.now
        (port W.taken W.has_failed sink.old sink.new) result }
    ensures failed { W.has_failed sink.new ≡ (W.has_failed sink.old || is_device result) }
{
    put_all(sink, text.as_bytes())?;
    Ok(())
}

/// If `done` says that the whole output was written, passes the gathered bytes on to the sink. If the sink doesn't
/// take all bytes, the answer is `Device`.
fn pass_rest_on<W: Sink + Drop>(
    done: Result<(), Stop>,
    sink: &mut BufferedSink<W>,
) -> Result<(), Stop>
    ensures kept { Keeps (append_known (W.taken sink.old.sink) sink.old.gathered.items)
        (append_known (W.taken sink.new.sink) sink.new.gathered.items) }
    ensures ends { IsAnswerAfterFlush sink.new.gathered.items done result }
    ensures untouched { is_whole done ≡ false → sink.new ≡ sink.old }
    ensures failed { is_whole done ≡ true
        → W.has_failed sink.new.sink ≡ (W.has_failed sink.old.sink || is_stopped_by_device result) }
{
    if !is_whole(&done) {
        return done;
    }
    match sink.flush() {
        Ok(()) => done,
        Err(Failed) => Err(Stop::Refused(Refused::from(PageFault::Device))),
    }
}

/// Whether the answer `done` says that the whole output was written.
fn is_whole(done: &Result<(), Stop>) -> bool
    ensures { result ≡ is_whole done.now }
{
    match done {
        Ok(()) => true,
        Err(Stop::Refused(refused)) => {
            matches!(refused.fault, PageFault::FaultyFile | PageFault::NotWhole)
        }
        Err(_) => false,
    }
}
