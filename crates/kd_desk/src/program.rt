//! The program: reads the command line and the files, and carries the command out.
ghost use Rattle.std.specs.Prelude.{◌≡◌, ◌≤◌, ◌⊎◌, ◌||◌, [], false, map, length, Err, IfSome, IfOk, IsTrue, is_ok};
ghost use Rattle.kd_command.specs.CommandLine.{unborrowed_command, files_of};
ghost use Rattle.kd_command.specs.CommandLine.{action_files, task_files, with_command_stream};
ghost use Rattle.kd_command.specs.CommandLine.{command_stream, action_stream, task_stream};
ghost use Rattle.kd_command.specs.CommandLine.{IsCommandLineOf, IsNoCommandLine};
ghost use Rattle.kd_desk.specs.Program.{known_command, known_action, known_task, AsksFor, CarriesOutKnown};
ghost use Rattle.kd_desk.specs.Program.{DoesTask, IsCommandDone, HasEnded, IsRun, StopsForMemory};
ghost use Rattle.kd_desk.specs.Program.{is_stopped_before_message, is_stopped_by_port};
ghost use Rattle.kd_command.specs.Inner.{unborrowed_action, unborrowed_task};
ghost use Rattle.kd_desk.specs.Inner.{with_action_stream, with_task_stream};
ghost use Rattle.kd_desk.specs.Inner.{HasNoFailedRead, IsTaskDone};
ghost use Rattle.kd_host.specs.Files.{AreAskedFor, IsReadAnswer, known_file};
ghost use Rattle.kd_desk.specs.OnDay.{IsAnswerOnDay};
ghost use Rattle.kd_tables.specs.Ports.{FailureAgrees, port};
ghost use Rattle.kd_desk.specs.CallAnswers.{is_device, is_refused_before_message};

use crate::fault::DeskFault;
use crate::run_apply::run_apply;
use crate::run_card::run_card;
use crate::run_check::run_check;
use crate::run_receive::run_receive;
use crate::run_send::run_send;
use crate::run_type::run_type;
use crate::stop::{Stop, end_program};
use kd_command::{Action, Command, Direction, NamedAction, NamedCommand, Task, parse_words};
use kd_host::{Content, FileFault, Files};
use kd_tables::{Sink, Source};
use std::alloc::Global;
use std::convert::AsStr;

/// Carries out the command line `words`, which begins with the program's own name.
///
/// Returns the exit status: 0 for success, 2 for an invalid command line, 1 for a refusal. With status 1 or 2, one line
/// on `errors` says why. If `errors` fails, only a prefix of the line is written. Each file is read or opened once, in
/// the order of the command line. An order or a form is opened in its turn, but read only while the command is carried
/// out. Every other file is read whole before the next file is read or opened. If a file can't be read or opened, no
/// later file is asked for. In this case, nothing is read from `source`, and nothing is written to `sink`.
pub fn run_desk<'n, S: AsStr, F: Files<'n>, R: Source, W: Sink, E: Sink>(
    alloc: Global,
    words: &'n [S],
    files: &mut F,
    source: &mut R,
    sink: &mut W,
    errors: &mut E,
) -> u8
    requires { F.asked files.old ≡ [] }
    ensures { HasEnded (IsRun (map S.text words.entry.now) (F.known files.old)
        (F.returned files.new) (F.asked files.new)
        (port R.remaining R.has_failed source.old source.new)
        (port W.taken W.has_failed sink.old sink.new)
        ((source.new ≡ source.old) × (sink.new ≡ sink.old)))
        (port E.taken E.has_failed errors.old errors.new) result }
{
    end_program(run_words(alloc, words, files, source, sink), errors)
}

/// Carries out the command line `words` as `run_desk` does. Returns why the program stops, instead of writing a line.
pub fn run_words<'n, S: AsStr, F: Files<'n>, R: Source, W: Sink>(
    alloc: Global,
    words: &'n [S],
    files: &mut F,
    source: &mut R,
    sink: &mut W,
) -> Result<(), Stop>
    requires { F.asked files.old ≡ [] }
    ensures carried { (command : _) → IsCommandLineOf (map S.text words.entry.now) command
        → CarriesOutKnown (F.returned files.new) (F.known files.old) command
        (port R.remaining R.has_failed source.old source.new)
        (port W.taken W.has_failed sink.old sink.new) result }
    ensures asked { (command : _) → IsCommandLineOf (map S.text words.entry.now) command
        → AsksFor (files_of command) (F.asked files.new) result }
    ensures usage { result ≡ Err Stop.Usage → IsNoCommandLine (map S.text words.entry.now) }
    ensures other_words { IsNoCommandLine (map S.text words.entry.now)
        → (result ≡ Err Stop.Usage) ⊎ StopsForMemory result }
    ensures none_asked { IsNoCommandLine (map S.text words.entry.now) → F.asked files.new ≡ [] }
    ensures untouched { IsTrue (is_stopped_before_message result)
        → (source.new ≡ source.old) × (sink.new ≡ sink.old) }
    ensures failed { FailureAgrees (port R.remaining R.has_failed source.old source.new)
        (port W.taken W.has_failed sink.old sink.new) (is_stopped_by_port result) }
{
    let command = parse_words(alloc, words)?;
    let command = read_files(alloc, command, files)?;
    carry_out(alloc, command, files, source, sink)
}

/// Reads or opens the files that `command` names, in the order of the command line.
///
/// If a file can't be read or opened, returns the fault, and asks for none of the files after it.
fn read_files<'n, F: Files<'n>>(
    alloc: Global,
    command: NamedCommand<'n>,
    files: &mut F,
) -> Result<Command<Content, F::Opened>, FileFault>
    requires { F.asked files.old ≡ [] }
    ensures read { IfSome (F.known files.old) (λ held.
        IsReadAnswer (known_command held (unborrowed_command command.entry))
        (with_command_stream (known_file F.Opened.remaining F.Opened.has_failed)) result) }
    ensures fresh { IfOk result (λ c. HasNoFailedRead F.Opened.has_failed (command_stream c)) }
    ensures asked { AreAskedFor (files_of (unborrowed_command command.entry)) (F.asked files.old)
        (F.asked files.new) (is_ok result) }
{
    let machine = files.read_content(alloc, command.machine)?;
    let action = read_action(alloc, command.action, files)?;
    Ok(Command { machine, action })
}

/// Reads or opens the files that `action` names, as `read_files` does.
fn read_action<'n, F: Files<'n>>(
    alloc: Global,
    action: NamedAction<'n>,
    files: &mut F,
) -> Result<Action<Content, F::Opened>, FileFault>
    requires { length (F.asked files.old) ≤ 1 }
    ensures read { IfSome (F.known files.old) (λ held.
        IsReadAnswer (known_action held (unborrowed_action action.entry))
        (with_action_stream (known_file F.Opened.remaining F.Opened.has_failed)) result) }
    ensures fresh { IfOk result (λ a. HasNoFailedRead F.Opened.has_failed (action_stream a)) }
    ensures asked { AreAskedFor (action_files (unborrowed_action action.entry)) (F.asked files.old)
        (F.asked files.new) (is_ok result) }
    ensures same { F.known files.new ≡ F.known files.old }
{
    match action {
        Action::Type => Ok(Action::Type),
        Action::Apply { list } => {
            let list = files.read_content(alloc, list)?;
            Ok(Action::Apply { list })
        }
        Action::OnDay { sheet, day, task } => {
            let sheet = files.read_content(alloc, sheet)?;
            let task = read_task(alloc, task, files)?;
            Ok(Action::OnDay { sheet, day, task })
        }
    }
}

/// Reads or opens the file that `task` names, as `read_files` does.
fn read_task<'n, F: Files<'n>>(
    alloc: Global,
    task: Task<&'n str, &'n str>,
    files: &mut F,
) -> Result<Task<Content, F::Opened>, FileFault>
    requires { length (F.asked files.old) ≤ 2 }
    ensures read { IfSome (F.known files.old) (λ held.
        IsReadAnswer (known_task held (unborrowed_task task.entry))
        (with_task_stream (known_file F.Opened.remaining F.Opened.has_failed)) result) }
    ensures fresh { IfOk result (λ t. HasNoFailedRead F.Opened.has_failed (task_stream t)) }
    ensures asked { AreAskedFor (task_files (unborrowed_task task.entry)) (F.asked files.old)
        (F.asked files.new) (is_ok result) }
    ensures same { F.known files.new ≡ F.known files.old }
{
    match task {
        Task::Card => Ok(Task::Card),
        Task::Check(card) => {
            let card = files.read_content(alloc, card)?;
            Ok(Task::Check(card))
        }
        Task::Message(direction, file) => {
            let file = files.open(file)?;
            Ok(Task::Message(direction, file))
        }
    }
}

/// Carries out `command`, whose files have been read or opened. Gives the opened file back to `files`.
fn carry_out<'n, F: Files<'n>, R: Source, W: Sink>(
    alloc: Global,
    command: Command<Content, F::Opened>,
    files: &mut F,
    source: &mut R,
    sink: &mut W,
) -> Result<(), Stop>
    requires { HasNoFailedRead F.Opened.has_failed (command_stream command) }
    ensures does { IsCommandDone (F.returned files.new)
        (with_command_stream (known_file F.Opened.remaining F.Opened.has_failed) command)
        (port R.remaining R.has_failed source.old source.new)
        (port W.taken W.has_failed sink.old sink.new) result }
    ensures untouched { IsTrue (is_stopped_before_message result)
        → (source.new ≡ source.old) × (sink.new ≡ sink.old) }
    ensures failed { FailureAgrees (port R.remaining R.has_failed source.old source.new)
        (port W.taken W.has_failed sink.old sink.new) (is_stopped_by_port result) }
    ensures asked { F.asked files.new ≡ F.asked files.old }
{
    let Command { machine, action } = command;
    let machine = machine.as_slice();
    match action {
        Action::Type => Stop::of_answer(run_type(alloc, machine, source, sink)),
        Action::Apply { list } => Stop::of_answer(run_apply(alloc, machine, list.as_slice(), sink)),
        Action::OnDay { sheet, day, task } => {
            carry_task(alloc, machine, sheet.as_slice(), day, task, files, sink)
        }
    }
}

/// Carries out `task` with the machine in the file `machine` and day `number` of the sheet `sheet`. Gives the opened
/// file back to `files`.
fn carry_task<'n, F: Files<'n>, W: Sink>(
    alloc: Global,
    machine: &[u8],
    sheet: &[u8],
    number: u8,
    task: Task<Content, F::Opened>,
    files: &mut F,
    sink: &mut W,
) -> Result<(), Stop>
    requires { HasNoFailedRead F.Opened.has_failed (task_stream task) }
    ensures does { IsTaskDone (F.returned files.new) machine.now sheet.now number
        (with_task_stream (known_file F.Opened.remaining F.Opened.has_failed) task)
        (port W.taken W.has_failed sink.old sink.new) result }
    ensures untouched { IsTrue (is_stopped_before_message result) → sink.new ≡ sink.old }
    ensures failed { W.has_failed sink.new ≡ (W.has_failed sink.old || is_stopped_by_port result) }
    ensures asked { F.asked files.new ≡ F.asked files.old }
{
    match task {
        Task::Card => Stop::of_answer(run_card(alloc, machine, sheet, number, sink)),
        Task::Check(card) => {
            Stop::of_answer(run_check(alloc, machine, sheet, number, card.as_slice(), sink))
        }
        Task::Message(direction, mut file) => {
            let done = carry_message(alloc, machine, sheet, number, direction, &mut file, sink);
            let failed = file.failed();
            files.take_back(file);
            Stop::of_file_answer(done, failed)
        }
    }
}

/// Sends or receives the message in `file`, with the machine in the file `machine` and day `number` of `sheet`.
fn carry_message<O: Source, W: Sink>(
    alloc: Global,
    machine: &[u8],
    sheet: &[u8],
    number: u8,
    direction: Direction,
    file: &mut O,
    sink: &mut W,
) -> Result<(), DeskFault>
    ensures does { IsAnswerOnDay machine.now sheet.now number
        (DoesTask (Task.Message direction (port O.remaining O.has_failed file.old file.new)) number
        (port W.taken W.has_failed sink.old sink.new) result) result }
    ensures untouched { IsTrue (is_refused_before_message result)
        → (file.new ≡ file.old) × (sink.new ≡ sink.old) }
    ensures failed { FailureAgrees (port O.remaining O.has_failed file.old file.new)
        (port W.taken W.has_failed sink.old sink.new) (is_device result) }
{
    match direction {
        Direction::Send => run_send(alloc, machine, sheet, number, file, sink),
        Direction::Receive => run_receive(alloc, machine, sheet, number, file, sink),
    }
}
