//! The commands, and the parser of the command line.
ghost use Rattle.std.specs.Prelude.{IsFalse, IsTrue, ◌≡◌, ◌≢◌, ◌≤◌, ◌<◌, ◌+◌, ◌++◌, ℕ, List, Option, None, codes, map, option_map};
ghost use Rattle.std.specs.Prelude.{[], ◌∷◌, length, option_to_list, IfErr, IfOk, IfSome, IsErr};
ghost use Rattle.arrayvec.specs.ArrayVec.{array_vec_len};
ghost use Rattle.clap.specs.Words.{app_of, first_of, found_of, kind_of, rows_of, subcommand_rows_of};
ghost use Rattle.kd_curator_command.specs.CommandLine.{curator_grammar};
ghost use Rattle.kd_options.specs.TableOptions.{texts_of};
ghost use Rattle.kd_curator_command.specs.CommandLine.{HasDay, HasDays, HasForm, HasLanguage, HasNoCommand, HasResults, IsCommandLineOf};
ghost use Rattle.kd_curator_command.specs.CommandLine.{IsCommandOf, IsMeant, IsMessageTask, IsMonthNamed, IsTaskOf, IsUsed};
ghost use Rattle.kd_curator_command.specs.CommandLine.{IsToldAs, NamedCommand, are_blank, asked_language};
ghost use Rattle.kd_curator_command.specs.CommandLine.{option_text, option_texts, output_of, value_said};
ghost use Rattle.kd_curator_command.specs.CommandLine.{unborrowed_command, unborrowed_names};
ghost use Rattle.kd_curator_command.specs.declared.command.MessageTask.{MessageTask};

use crate::clap_words::german_text;
use crate::days::{Days, days_of_word};
use crate::grammar::grammar;
use crate::locale::{language_of_code, language_without_command};
use crate::texts::{IN_QUOTES, MANY_ORDERS, NO_DAY, NO_DAYS, NO_HINT, NO_LANGUAGE, NO_MONTH};
use arrayvec::ArrayVec;
use clap::error::ErrorKind;
use clap::{ArgMatches, Command as Grammar, Error};
use kd_language::{Language, Text, Wording};
use kd_options::{TableForm, TableOptions};
use kd_pictures::Results;
use kd_state::day_of_text;
use kd_tables::{Direction, Model};
use std::alloc::{AllocError, Global};
use std::convert::AsStr;

/// A command, with the names of its files and the texts of its options. `T` is the type of these names and texts.
#[derive(Drop)]
pub enum Command<T> {
    /// Writes how to set a machine to days of a key sheet.
    OnMachine {
        /// The machine file.
        machine: T,
        /// The key sheet.
        sheet: T,
        /// What to write: pages, or a list of settings.
        task: Task,
    },
    /// Writes how to encipher or decipher a message by hand.
    Message {
        /// The machine file.
        machine: T,
        /// The key sheet.
        sheet: T,
        /// The order or the form.
        message: T,
        /// What to do with the message, and the day whose key is used.
        task: MessageTask,
    },
    /// Writes how to encipher several orders by hand, in one file.
    Orders {
        /// The machine file.
        machine: T,
        /// The key sheet.
        sheet: T,
        /// The orders: at least two.
        orders: ArrayVec<T, 32>,
        /// The direction `Send`, the day, and whether the page shows the results.
        task: MessageTask,
    },
    /// Writes a page for typing on a machine.
    TypingPage {
        /// The machine file.
        machine: T,
    },
    /// Writes a key sheet as printed tables.
    Table {
        /// The key sheet.
        sheet: T,
        /// The form of the tables.
        form: TableForm,
    },
    /// Makes a key sheet from a spreadsheet's table.
    Sheet {
        /// The table.
        table: T,
        /// The texts for cells that are blank or missing in the table.
        options: TableOptions<T>,
    },
    /// Describes machine files and key sheets in words, or names their faults.
    Look {
        /// One, two or three files.
        files: ArrayVec<T, 3>,
    },
    /// Writes a key sheet to fill in.
    EmptySheet {
        model: Model,
        /// The number of days in the sheet.
        days: u8,
    },
}

/// The output that a command writes for a machine and for days of a key sheet.
#[derive(Drop)]
pub enum Task {
    /// A page for each day.
    Page {
        /// The days; `None` for all days that the sheet has for the machine's model.
        days: Option<Days>,
    },
    /// A list of settings for `desk apply`: the settings on a day's page. The value is the day's number.
    List(u8),
}

/// What to write for a message.
#[derive(Clone, Copy)]
pub struct MessageTask {
    pub direction: Direction,
    /// The number of the day whose key is used.
    pub day: u8,
    /// Whether the page shows the results. With the option `--blank`, the page has worksheets instead.
    pub results: Results,
}

/// A command whose names and texts are borrowed from the command line.
pub type NamedCommand<'a> = Command<&'a str>;

/// A command, the language of what it writes, and the file for its output.
#[derive(Drop)]
pub struct CommandLine<'a> {
    pub command: NamedCommand<'a>,
    /// The language that the option `--in` asks for; `None` if the option isn't used.
    pub language: Option<Language>,
    /// The new file for the output; `None` for standard output.
    pub output: Option<&'a str>,
}

/// Why a command line doesn't mean a command.
#[derive(Drop)]
pub enum NoCommand {
    /// The command line asks for help, or for the version. The string is the text to show.
    Asked(String),
    /// The words of the command line don't mean a command. The string says why.
    Usage(String),
    /// Memory ran out.
    NoMemory,
}

impl From<AllocError> for NoCommand {
    ghost use Rattle.std.specs.Prelude.{◌≡◌};
    ghost use Rattle.kd_curator_command.specs.declared.command.NoCommand.TheVariants.{NoMemory};

    ghost from_gives = { λ _ none. none ≡ NoMemory };

    fn from(_: AllocError) -> NoCommand {
        NoCommand::NoMemory
    }
}

/// Parses the command line `words`, which begins with the program's own name.
///
/// Help and errors are in the language that `language_without_command` gives. The contract doesn't say so.
pub fn parse_words<'a, S: AsStr>(
    alloc: Global,
    language: Language,
    words: &'a [S],
) -> Result<CommandLine<'a>, NoCommand>
    ensures said { IfOk result
        (λ line. IsCommandLineOf (map S.text words.entry.now) (unborrowed_command line.command)) }
    ensures language { IfOk result
        (λ line. line.language ≡ asked_language (map S.text words.entry.now)) }
    ensures output { IfOk result (λ line.
        option_map (λ name. name.now) line.output ≡ output_of (map S.text words.entry.now)) }
    ensures none { IfErr result (HasNoCommand (map S.text words.entry.now)) }
{
    let wording = Wording {
        alloc,
        language: language_without_command(language, words),
    };
    let mut grammar = grammar(wording)?;
    parse_by(wording, &mut grammar, words)
}

/// Parses the command line `words` by the program's grammar.
fn parse_by<'a, S: AsStr>(
    wording: Wording,
    grammar: &mut Grammar<'a>,
    words: &'a [S],
) -> Result<CommandLine<'a>, NoCommand>
    requires { app_of grammar.old ≡ curator_grammar }
    ensures said { IfOk result
        (λ line. IsCommandLineOf (map S.text words.entry.now) (unborrowed_command line.command)) }
    ensures language { IfOk result
        (λ line. line.language ≡ asked_language (map S.text words.entry.now)) }
    ensures output { IfOk result (λ line.
        option_map (λ name. name.now) line.output ≡ output_of (map S.text words.entry.now)) }
    ensures none { IfErr result (HasNoCommand (map S.text words.entry.now)) }
{
    let matches = match grammar.try_get_matches_from_mut(words) {
        Ok(matches) => matches,
        Err(error) => return Err(no_command(wording, &error, quotes_hint(words))),
    };
    match meant_line(&matches) {
        Some(line) => Ok(line),
        None => Err(no_days(wording, grammar, why_not(&matches))),
    }
}

/// The command, the language and the output file that `matches` mean. `None` if an argument has a wrong value.
fn meant_line<'a>(matches: &ArgMatches<'a>) -> Option<CommandLine<'a>>
    ensures said { IfSome result (λ line.
        IsMeant (subcommand_rows_of matches.now) (unborrowed_command line.command)) }
    ensures language { IfSome result (λ line.
        HasLanguage (subcommand_rows_of matches.now) line.language) }
    ensures output { IfSome result (λ line. option_map (λ name. name.now) line.output
        ≡ value_said (codes "output") (subcommand_rows_of matches.now)) }
    ensures none { result ≡ None → (command : NamedCommand)
        → IsMeant (subcommand_rows_of matches.now) command → (language : Option Language)
        → ¬ (HasLanguage (subcommand_rows_of matches.now) language) }
{
    let command = meant_command(matches)?;
    let language = language_said(matches).ok()?;
    Some(CommandLine {
        command,
        language,
        output: value_said(matches, "output"),
    })
}

/// The value of the argument `name`. `None` if the argument isn't given.
fn value_said<'a>(matches: &ArgMatches<'a>, name: &str) -> Option<&'a str>
    ensures { option_map (λ value. value.now) result
        ≡ value_said name.now (subcommand_rows_of matches.now) }
{
    let (_, words) = matches.subcommand()?;
    words.get_str(name)
}

/// The language in the option `--in`. `Ok(None)` if the option isn't used.
fn language_said(matches: &ArgMatches<'_>) -> Result<Option<Language>, WrongValue>
    ensures said { IfOk result (HasLanguage (subcommand_rows_of matches.now)) }
    ensures none { IsErr result → (language : Option Language)
        → ¬ (HasLanguage (subcommand_rows_of matches.now) language) }
{
    let Some(code) = value_said(matches, "in") else {
        return Ok(None);
    };
    match language_of_code(code) {
        Some(language) => Ok(Some(language)),
        None => Err(WrongValue),
    }
}

/// The error text for words that `clap` accepts, but that don't mean a command. It says why.
fn why_not(matches: &ArgMatches<'_>) -> Text {
    if language_said(matches).is_err() {
        return NO_LANGUAGE;
    }
    match matches.subcommand() {
        Some(("sheet", _)) => NO_MONTH,
        Some(("list", _)) => NO_DAY,
        Some(("send", words)) if day_asked(words).is_some() => MANY_ORDERS,
        Some(("send" | "receive", _)) => NO_DAY,
        _ => NO_DAYS,
    }
}

/// The error for words that `clap` accepts, but that don't mean a command. `why` is the text of the error.
fn no_days(wording: Wording, grammar: &mut Grammar<'_>, why: Text) -> NoCommand
    ensures { IsToldAs ErrorKind.InvalidValue result }
{
    match grammar.error(ErrorKind::InvalidValue, wording.language.text(why)) {
        Ok(error) => no_command(wording, &error, NO_HINT),
        Err(_) => NoCommand::NoMemory,
    }
}

/// If the word `I` comes directly after the word `Enigma`, the hint to type a model's name in quotes. Otherwise, an
/// empty text.
fn quotes_hint<S: AsStr>(words: &[S]) -> Text {
    let mut is_begun = false;
    for word in words {
        let word = word.as_str();
        if is_begun && word == "I" {
            return IN_QUOTES;
        }
        is_begun = word == "Enigma";
    }
    NO_HINT
}

/// The reason why there is no command: the text of `clap`'s error, then `hint`.
fn no_command(wording: Wording, error: &Error, hint: Text) -> NoCommand
    ensures { IsToldAs (kind_of error.now) result }
{
    let Ok(text) = error_text(wording, error, hint) else {
        return NoCommand::NoMemory;
    };
    match error.kind() {
        ErrorKind::OutOfMemory => NoCommand::NoMemory,
        ErrorKind::DisplayHelp | ErrorKind::DisplayVersion => NoCommand::Asked(text),
        _ => NoCommand::Usage(text),
    }
}

/// The text of `clap`'s error, then `hint`, in the wording's language.
fn error_text(wording: Wording, error: &Error, hint: Text) -> Result<String, AllocError> {
    let Wording { alloc, language } = wording;
    let hint = language.text(hint);
    let text = format!(in alloc; "{error}{hint}")?;
    match language {
        Language::English => Ok(text),
        Language::German => german_text(alloc, text.as_str()),
    }
}

/// The command that the name and the arguments in `matches` mean. `None` if an argument has a wrong value.
fn meant_command<'a>(matches: &ArgMatches<'a>) -> Option<NamedCommand<'a>>
    ensures said { IfSome result (λ command.
        IsMeant (subcommand_rows_of matches.now) (unborrowed_command command)) }
    ensures none { result ≡ None → (command : NamedCommand)
        → ¬ (IsMeant (subcommand_rows_of matches.now) command) }
{
    let (name, words) = matches.subcommand()?;
    command_of(name, words)
}

/// The command `name` with the arguments in `words`. `None` if an argument has a wrong value.
fn command_of<'a>(name: &str, words: &ArgMatches<'a>) -> Option<NamedCommand<'a>>
    ensures said { IfSome result (λ command.
        IsCommandOf (name.now, rows_of (found_of words.now)) (unborrowed_command command)) }
    ensures none { result ≡ None → (command : NamedCommand)
        → ¬ (IsCommandOf (name.now, rows_of (found_of words.now)) command) }
{
    match name {
        "table" => table_of(words),
        "sheet" => sheet_of(words),
        "look" => look_of(words),
        "send" => send_of(words),
        "receive" => receive_of(words),
        "type" => typing_page_of(words),
        _ => task_with_files(name, words),
    }
}

/// The command `send` with the arguments in `words`. `None` if an argument has a wrong value, or there are too many
/// orders.
fn send_of<'a>(words: &ArgMatches<'a>) -> Option<NamedCommand<'a>>
    ensures said { IfSome result (λ command.
        IsCommandOf (codes "send", rows_of (found_of words.now)) (unborrowed_command command)) }
    ensures none { result ≡ None → (command : NamedCommand)
        → ¬ (IsCommandOf (codes "send", rows_of (found_of words.now)) command) }
{
    let machine = words.get_str("MACHINE")?;
    let sheet = words.get_str("SHEET")?;
    let orders = words.get_strs("ORDER")?;
    let task = message_task(words, Direction::Send)?;
    match only_name(orders) {
        Some(message) => Some(Command::Message {
            machine,
            sheet,
            message,
            task,
        }),
        None => {
            let several = several_names(orders)?;
            Some(Command::Orders {
                machine,
                sheet,
                orders: several,
                task,
            })
        }
    }
}

/// The only name in `names`. `None` if there isn't exactly one.
fn only_name<'a>(names: &[&'a str]) -> Option<&'a str>
    ensures said { IfSome result (λ name. unborrowed_names names.now ≡ name.now ∷ []) }
    ensures none { result ≡ None → length names.now ≢ 1 }
{
    match names {
        [name] => Some(*name),
        _ => None,
    }
}

/// A copy of `names`. `None` if there aren't 2 to 32 names.
fn several_names<'a>(names: &[&'a str]) -> Option<ArrayVec<&'a str, 32>>
    ensures said { IfSome result (λ listed. listed.items ≡ names.now) }
    ensures many { IfSome result (λ listed. 2 ≤ length names.now) }
    ensures few { IfSome result (λ listed. length names.now ≤ 32) }
    ensures none { result ≡ None → 2 ≤ length names.now → 32 < length names.now }
{
    if names.len() < 2 || names.len() > 32 {
        return None;
    }
    let mut listed = ArrayVec::new();
    listed.try_extend_from_slice(names).unwrap();
    Some(listed)
}

/// The command `receive` with the arguments in `words`. `None` if an argument has a wrong value.
fn receive_of<'a>(words: &ArgMatches<'a>) -> Option<NamedCommand<'a>>
    ensures said { IfSome result (λ command.
        IsCommandOf (codes "receive", rows_of (found_of words.now)) (unborrowed_command command)) }
    ensures none { result ≡ None → (command : NamedCommand)
        → ¬ (IsCommandOf (codes "receive", rows_of (found_of words.now)) command) }
{
    let machine = words.get_str("MACHINE")?;
    let sheet = words.get_str("SHEET")?;
    let message = words.get_str("FORM")?;
    let task = message_task(words, Direction::Receive)?;
    Some(Command::Message {
        machine,
        sheet,
        message,
        task,
    })
}

/// The task for a message, with the day in `words`. `None` if the argument DAY has a wrong value.
fn message_task(words: &ArgMatches<'_>, direction: Direction) -> Option<MessageTask>
    ensures said { IfSome result (IsMessageTask (rows_of (found_of words.now)) direction) }
    ensures none { result ≡ None → (task : MessageTask)
        → ¬ (IsMessageTask (rows_of (found_of words.now)) direction task) }
{
    let day = day_asked(words)?;
    Some(MessageTask {
        direction,
        day,
        results: results_asked(words),
    })
}

/// Whether the page shows the results. With the option `--blank`, the page has worksheets instead.
fn results_asked(words: &ArgMatches<'_>) -> Results
    ensures { HasResults (rows_of (found_of words.now)) result }
{
    if is_used(words, "blank") {
        Results::LeftOpen
    } else {
        Results::Shown
    }
}

/// The command `type` with the arguments in `words`.
fn typing_page_of<'a>(words: &ArgMatches<'a>) -> Option<NamedCommand<'a>>
    ensures said { IfSome result (λ command.
        IsCommandOf (codes "type", rows_of (found_of words.now)) (unborrowed_command command)) }
    ensures none { result ≡ None → (command : NamedCommand)
        → ¬ (IsCommandOf (codes "type", rows_of (found_of words.now)) command) }
{
    let machine = words.get_str("MACHINE")?;
    Some(Command::TypingPage { machine })
}

/// The command `table` with the arguments in `words`.
fn table_of<'a>(words: &ArgMatches<'a>) -> Option<NamedCommand<'a>>
    ensures said { IfSome result (λ command.
        IsCommandOf (codes "table", rows_of (found_of words.now)) (unborrowed_command command)) }
    ensures none { result ≡ None → (command : NamedCommand)
        → ¬ (IsCommandOf (codes "table", rows_of (found_of words.now)) command) }
{
    let sheet = words.get_str("SHEET")?;
    let form = form_of(words);
    Some(Command::Table { sheet, form })
}

/// The form of tables: CSV if `words` have the option `--csv`, otherwise a page.
fn form_of(words: &ArgMatches<'_>) -> TableForm
    ensures { HasForm (rows_of (found_of words.now)) result }
{
    if is_used(words, "csv") {
        TableForm::Csv
    } else {
        TableForm::Page
    }
}

/// Whether the option `name`, which takes no value, is used.
fn is_used(words: &ArgMatches<'_>, name: &str) -> bool
    ensures used { IsTrue result → IsUsed name.now (rows_of (found_of words.now)) }
    ensures unused { IsFalse result → ¬ (IsUsed name.now (rows_of (found_of words.now))) }
{
    match words.get_str(name) {
        Some(word) => is_true(word),
        None => false,
    }
}

/// Whether `word` is `true`. An option that is used has the value `true`.
fn is_true(word: &str) -> bool
    ensures yes { IsTrue result → word.now ≡ codes "true" }
    ensures no { IsFalse result → word.now ≢ codes "true" }
{
    word == "true"
}

/// The command `look` with the files in `words`.
fn look_of<'a>(words: &ArgMatches<'a>) -> Option<NamedCommand<'a>>
    ensures said { IfSome result (λ command.
        IsCommandOf (codes "look", rows_of (found_of words.now)) (unborrowed_command command)) }
    ensures none { result ≡ None → (command : NamedCommand)
        → ¬ (IsCommandOf (codes "look", rows_of (found_of words.now)) command) }
{
    let mut files = ArrayVec::new();
    files.push(words.get_str("FILE")?);
    push_file(&mut files, words, "FILE2");
    push_file(&mut files, words, "FILE3");
    Some(Command::Look { files })
}

/// If the argument `name` is given, appends its value to `files`.
fn push_file<'a>(files: &mut ArrayVec<&'a str, 3>, words: &ArgMatches<'a>, name: &str)
    requires { array_vec_len files.old < 3 }
    ensures items { unborrowed_names files.new.items ≡ unborrowed_names files.old.items
        ++ option_to_list (first_of name.now (rows_of (found_of words.now))) }
    ensures len { array_vec_len files.new ≤ array_vec_len files.old + 1 }
{
    if let Some(file) = words.get_str(name) {
        files.push(file);
    }
}

/// The command `sheet` with the arguments in `words`. `None` if `--empty` is used with a wrong model, a wrong number of
/// days, or an option that fills blank cells.
fn sheet_of<'a>(words: &ArgMatches<'a>) -> Option<NamedCommand<'a>>
    ensures said { IfSome result (λ command.
        IsCommandOf (codes "sheet", rows_of (found_of words.now)) (unborrowed_command command)) }
    ensures none { result ≡ None → (command : NamedCommand)
        → ¬ (IsCommandOf (codes "sheet", rows_of (found_of words.now)) command) }
{
    let table = words.get_str("TABLE")?;
    let options = options_of(words);
    let Some(model) = words.get_str("empty") else {
        return Some(Command::Sheet { table, options });
    };
    if !are_blank(&options) {
        return None;
    }
    let (model, days) = month_named(model, table)?;
    Some(Command::EmptySheet { model, days })
}

fn options_of<'a>(words: &ArgMatches<'a>) -> TableOptions<&'a str>
    ensures { texts_of result ≡ option_texts (rows_of (found_of words.now)) }
{
    TableOptions {
        model: option_text(words, "model"),
        reflector: option_text(words, "reflector"),
        window: option_text(words, "window"),
    }
}

/// The value of the option `name`; empty if the option isn't used.
fn option_text<'a>(words: &ArgMatches<'a>, name: &str) -> &'a str
    ensures { result.now ≡ option_text name.now (rows_of (found_of words.now)) }
{
    words.get_str(name).unwrap_or("")
}

/// Whether the options `--model`, `--reflector` and `--window` are all empty.
fn are_blank(options: &TableOptions<&str>) -> bool
    ensures { result ≡ are_blank (texts_of options.now) }
{
    options.model.is_empty() && options.reflector.is_empty() && options.window.is_empty()
}

/// The model named `model`, and the number of days in `days`. `None` if no model has this name, or the number isn't
/// from 1 to 31.
fn month_named(model: &str, days: &str) -> Option<(Model, u8)>
    ensures said { IfSome result (λ month. IsMonthNamed model.now days.now month.0 month.1) }
    ensures none { result ≡ None → (month : Model × ℕ)
        → ¬ (IsMonthNamed model.now days.now month.0 month.1) }
{
    let model = Model::from_text(model.as_bytes())?;
    let days = day_of_text(days.as_bytes())?;
    Some((model, days))
}

/// The command `name`, which is `page` or `list`, with the arguments in `words`. `None` if an argument has a wrong
/// value.
fn task_with_files<'a>(name: &str, words: &ArgMatches<'a>) -> Option<NamedCommand<'a>>
    requires table { name.now ≢ codes "table" }
    requires sheet { name.now ≢ codes "sheet" }
    requires look { name.now ≢ codes "look" }
    requires send { name.now ≢ codes "send" }
    requires receive { name.now ≢ codes "receive" }
    requires typing { name.now ≢ codes "type" }
    ensures said { IfSome result (λ command.
        IsCommandOf (name.now, rows_of (found_of words.now)) (unborrowed_command command)) }
    ensures none { result ≡ None → (command : NamedCommand)
        → ¬ (IsCommandOf (name.now, rows_of (found_of words.now)) command) }
{
    let machine = words.get_str("MACHINE")?;
    let sheet = words.get_str("SHEET")?;
    let task = task_of(name, words)?;
    Some(Command::OnMachine {
        machine,
        sheet,
        task,
    })
}

/// The task of the command `name`, which is `page` or `list`. `None` if an argument has a wrong value.
fn task_of(name: &str, words: &ArgMatches<'_>) -> Option<Task>
    ensures said { IfSome result (IsTaskOf (name.now, rows_of (found_of words.now))) }
    ensures none { result ≡ None → (task : Task)
        → ¬ (IsTaskOf (name.now, rows_of (found_of words.now)) task) }
{
    match name {
        "page" => page_of(words),
        "list" => list_of(words),
        _ => None,
    }
}

/// The task `page` with the arguments in `words`. `None` if the argument DAYS has a wrong value.
fn page_of(words: &ArgMatches<'_>) -> Option<Task>
    ensures said { IfSome result (IsTaskOf (codes "page", rows_of (found_of words.now))) }
    ensures none { result ≡ None → (task : Task)
        → ¬ (IsTaskOf (codes "page", rows_of (found_of words.now)) task) }
{
    let days = days_asked(words).ok()?;
    Some(Task::Page { days })
}

/// The task `list` with the day in the argument DAY. `None` if the argument isn't the number of a day.
fn list_of(words: &ArgMatches<'_>) -> Option<Task>
    ensures said { IfSome result (IsTaskOf (codes "list", rows_of (found_of words.now))) }
    ensures none { result ≡ None → (task : Task)
        → ¬ (IsTaskOf (codes "list", rows_of (found_of words.now)) task) }
{
    let day = day_asked(words)?;
    Some(Task::List(day))
}

/// The error for an argument with a wrong value.
#[derive(Clone, Copy)]
struct WrongValue;

/// The days in the argument DAYS. `Ok(None)` if the argument isn't given.
fn days_asked(words: &ArgMatches<'_>) -> Result<Option<Days>, WrongValue>
    ensures said { IfOk result (HasDays (rows_of (found_of words.now))) }
    ensures none { IsErr result → (days : Option (List ℕ))
        → ¬ (HasDays (rows_of (found_of words.now)) days) }
{
    let Some(word) = words.get_str("DAYS") else {
        return Ok(None);
    };
    match days_of_word(word) {
        Some(days) => Ok(Some(days)),
        None => Err(WrongValue),
    }
}

/// The day in the argument DAY. `None` if the argument isn't given, or isn't the number of a day.
fn day_asked(words: &ArgMatches<'_>) -> Option<u8>
    ensures said { IfSome result (HasDay (rows_of (found_of words.now))) }
    ensures none { result ≡ None → (day : ℕ) → ¬ (HasDay (rows_of (found_of words.now)) day) }
{
    let word = words.get_str("DAY")?;
    let day = day_of_text(word.as_bytes())?;
    Some(day)
}
