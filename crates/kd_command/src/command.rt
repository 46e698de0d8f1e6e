//! The desk's commands, and the parser of the desk's command line.
ghost use Rattle.std.specs.Prelude.{◌≡◌, ◌≢◌, [], ◌∷◌, ℕ, List, false, codes, map, Err, IfSome, IfOk};
ghost use Rattle.clap.specs.Words.{App, app_of, found_of, kind_of, rows_of};
ghost use Rattle.kd_tables.specs.Direction.{direction_name};
ghost use Rattle.kd_command.specs.CommandLine.{desk_grammar};
ghost use Rattle.kd_command.specs.Inner.{IsMadeOf, IsNoCommand, unborrowed_action, with_commands};
ghost use Rattle.kd_command.specs.CommandLine.{unborrowed_command, HaveSheetAndDay, IsActionOf};
ghost use Rattle.kd_command.specs.CommandLine.{IsCommandOf, IsCommandLineOf, IsNoCommandLine};

use clap::error::ErrorKind;
use clap::{Arg, ArgMatches, Command as Grammar, Error};
use kd_state::day_of_text;
use kd_tables::Direction;
use std::alloc::{AllocError, Global};
use std::convert::AsStr;

/// A command of the desk, with its files or their names.
///
/// `F` stands for a file that is read whole, and `O` for an order or a form, which is streamed. In a parsed command,
/// `F` and `O` are file names. When a command is carried out, `F` is the file's contents, and `O` is the opened file.
#[derive(Drop)]
pub struct Command<F, O> {
    /// The machine file.
    pub machine: F,
    /// What is done with the machine.
    pub action: Action<F, O>,
}

/// What a command does with the machine.
#[derive(Drop)]
pub enum Action<F, O> {
    /// Types the text from standard input on the machine.
    Type,
    /// Carries out the settings in `list`, and prints the new machine file.
    Apply {
        list: F,
    },
    /// Does `task` with the machine and a day of the key sheet `sheet`.
    OnDay {
        sheet: F,
        /// The day's number, from 1 to 31.
        day: u8,
        task: Task<F, O>,
    },
}

/// What a command does with the machine and a day.
#[derive(Drop)]
pub enum Task<F, O> {
    /// Prints a shortest card from the machine to the day.
    Card,
    /// Checks whether the card's prices prove that no shorter list sets the machine to the day.
    Check(F),
    /// Sends the order in the file, or receives the form in the file, part by part.
    Message(Direction, O),
}

/// A command with the names of its files, before any file is read or opened.
pub type NamedCommand<'a> = Command<&'a str, &'a str>;

/// An action with the names of its files, before any file is read or opened.
pub type NamedAction<'a> = Action<&'a str, &'a str>;

/// Why no command can be made from a command line.
#[derive(Clone, Copy)]
pub enum NoCommand {
    /// The words aren't a command of the desk.
    Usage,
    /// Memory ran out.
    NoMemory,
}

impl From<AllocError> for NoCommand {
    ghost use Rattle.std.specs.Prelude.{◌≡◌};
    ghost use Rattle.kd_command.specs.declared.command.NoCommand.TheVariants.{NoMemory};

    ghost from_gives = { λ _ why. why ≡ NoMemory };

    fn from(_: AllocError) -> NoCommand {
        NoCommand::NoMemory
    }
}

/// Parses the command line `words`, which begins with the program's own name.
///
/// A file name that begins with `-` must come after the argument `--`, unless the name is `-` alone. The argument `--`
/// may come once, after the command's name. An invalid command line gives `Usage`.
pub fn parse_words<'a, S: AsStr>(
    alloc: Global,
    words: &'a [S],
) -> Result<NamedCommand<'a>, NoCommand>
    ensures said { IfOk result
        (λ command. IsCommandLineOf (map S.text words.entry.now) (unborrowed_command command)) }
    ensures usage { result ≡ Err NoCommand.Usage → IsNoCommandLine (map S.text words.entry.now) }
{
    let matches = match grammar(alloc)?.try_get_matches_from(words) {
        Ok(matches) => matches,
        Err(error) => return Err(no_command(&error)),
    };
    let Some((name, words)) = matches.subcommand() else {
        return Err(NoCommand::Usage);
    };
    command_of(name, words).ok_or(NoCommand::Usage)
}

/// The command named `name`. The arguments in `words` give its file names and its day.
fn command_of<'a>(name: &str, words: &ArgMatches<'a>) -> Option<NamedCommand<'a>>
    ensures said { IfSome result (λ command.
        IsCommandOf (name.now, rows_of (found_of words.now)) (unborrowed_command command)) }
    ensures none { result ≡ None → IsNoCommand (name.now, rows_of (found_of words.now)) }
{
    let machine = words.get_str("MACHINE")?;
    let action = action_of(name, words)?;
    Some(Command { machine, action })
}

/// The action of the command named `name`. The arguments in `words` give its file names and its day.
fn action_of<'a>(name: &str, words: &ArgMatches<'a>) -> Option<NamedAction<'a>>
    ensures said { IfSome result (λ action.
        IsActionOf (name.now, rows_of (found_of words.now)) (unborrowed_action action)) }
    ensures none { result ≡ None → (action : _)
        → ¬ (IsActionOf (name.now, rows_of (found_of words.now)) action) }
{
    match name {
        "type" => Some(Action::Type),
        "apply" => apply_of(words),
        "card" => card_of(words),
        "check" => check_of(words),
        "send" => message_of(words, Direction::Send),
        "receive" => message_of(words, Direction::Receive),
        _ => None,
    }
}

/// The action of `apply`, with the file name in the argument LIST.
fn apply_of<'a>(words: &ArgMatches<'a>) -> Option<NamedAction<'a>>
    ensures said { IfSome result (λ action.
        IsActionOf (codes "apply", rows_of (found_of words.now)) (unborrowed_action action)) }
    ensures none { result ≡ None → (action : _)
        → ¬ (IsActionOf (codes "apply", rows_of (found_of words.now)) action) }
{
    let list = words.get_str("LIST")?;
    Some(Action::Apply { list })
}

/// The action of `card`; `None` if the argument DAY isn't a day's number.
fn card_of<'a>(words: &ArgMatches<'a>) -> Option<NamedAction<'a>>
    ensures said { IfSome result (λ action.
        IsActionOf (codes "card", rows_of (found_of words.now)) (unborrowed_action action)) }
    ensures none { result ≡ None → (action : _)
        → ¬ (IsActionOf (codes "card", rows_of (found_of words.now)) action) }
{
    let (sheet, day) = sheet_and_day(words)?;
    let task = Task::Card;
    Some(Action::OnDay { sheet, day, task })
}

/// The action of `check`; `None` if the argument DAY isn't a day's number.
fn check_of<'a>(words: &ArgMatches<'a>) -> Option<NamedAction<'a>>
    ensures said { IfSome result (λ action.
        IsActionOf (codes "check", rows_of (found_of words.now)) (unborrowed_action action)) }
    ensures none { result ≡ None → (action : _)
        → ¬ (IsActionOf (codes "check", rows_of (found_of words.now)) action) }
{
    let (sheet, day) = sheet_and_day(words)?;
    let card = words.get_str("CARD")?;
    let task = Task::Check(card);
    Some(Action::OnDay { sheet, day, task })
}

/// The action of `send` or `receive`; `None` if the argument DAY isn't a day's number.
fn message_of<'a>(words: &ArgMatches<'a>, direction: Direction) -> Option<NamedAction<'a>>
    ensures said { IfSome result (λ action.
        IsActionOf (direction_name direction, rows_of (found_of words.now)) (unborrowed_action action)) }
    ensures none { result ≡ None → (action : _)
        → ¬ (IsActionOf (direction_name direction, rows_of (found_of words.now)) action) }
{
    let (sheet, day) = sheet_and_day(words)?;
    let file = words.get_str(direction.file_word())?;
    let task = Task::Message(direction, file);
    Some(Action::OnDay { sheet, day, task })
}

/// The sheet's file name and the day's number; `None` if the argument DAY isn't a day's number.
fn sheet_and_day<'a>(words: &ArgMatches<'a>) -> Option<(&'a str, u8)>
    ensures said { IfSome result (λ on. HaveSheetAndDay (rows_of (found_of words.now)) on.0.now on.1) }
    ensures none { result ≡ None → (sheet : List ℕ) (day : ℕ)
        → ¬ (HaveSheetAndDay (rows_of (found_of words.now)) sheet day) }
{
    let sheet = words.get_str("SHEET")?;
    let day = day_of_text(words.get_str("DAY")?.as_bytes())?;
    Some((sheet, day))
}

/// The commands of the desk, each with the names of its arguments.
static COMMANDS: [(&str, &[&str]); 6] = [
    ("type", &["MACHINE"]),
    ("apply", &["MACHINE", "LIST"]),
    ("card", &["MACHINE", "SHEET", "DAY"]),
    ("check", &["MACHINE", "SHEET", "DAY", "CARD"]),
    ("send", &["MACHINE", "SHEET", "DAY", "ORDER"]),
    ("receive", &["MACHINE", "SHEET", "DAY", "FORM"]),
];

/// The grammar of the command line, without options and without help.
fn grammar<'a>(alloc: Global) -> Result<Grammar<'a>, AllocError>
    ensures { IfOk result (λ grammar. app_of grammar ≡ desk_grammar) }
{
    let desk = Grammar::new(alloc, "desk")
        .disable_help_flag(true)
        .disable_help_subcommand(true);
    with_commands(alloc, desk, &COMMANDS)
}

/// Adds `commands` to `grammar`. An item of `commands` has a command's name, and the names of this command's arguments.
fn with_commands<'a>(
    alloc: Global,
    grammar: Grammar<'a>,
    commands: &[(&'a str, &[&'a str])],
) -> Result<Grammar<'a>, AllocError>
    ensures { (app : App) → app_of grammar.entry ≡ app
        → IfOk result (λ more. app_of more ≡ with_commands app commands.now) }
{
    let mut grammar = grammar;
    for (name, words) in commands {
        let command = command_grammar(alloc, *name, *words)?;
        grammar = grammar.subcommand(command)?;
    }
    Ok(grammar)
}

/// The grammar of the command `name`, with one argument for each name in `words`.
fn command_grammar<'a>(
    alloc: Global,
    name: &'a str,
    words: &[&'a str],
) -> Result<Grammar<'a>, AllocError>
    ensures { IfOk result (λ g. IsMadeOf g name.entry.now words.now) }
{
    let mut command = Grammar::new(alloc, name).disable_help_flag(true);
    for word_name in words {
        command = command.arg(Arg::new(alloc, *word_name))?;
    }
    Ok(command)
}

/// Why clap finds no command in the words: memory ran out, or the words aren't a command.
fn no_command(error: &Error) -> NoCommand
    ensures memory { kind_of error.now ≡ ErrorKind.OutOfMemory → result ≡ NoCommand.NoMemory }
    ensures usage { kind_of error.now ≢ ErrorKind.OutOfMemory → result ≡ NoCommand.Usage }
{
    match error.kind() {
        ErrorKind::OutOfMemory => NoCommand::NoMemory,
        _ => NoCommand::Usage,
    }
}
