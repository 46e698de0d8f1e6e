//! The grammar of the command line.
ghost use Rattle.std.specs.Prelude.{◌≡◌, false, IfOk};
ghost use Rattle.clap.specs.Words.{App, app_of, rule_of};
ghost use Rattle.kd_curator_command.specs.CommandLine.{IsMadeOf, curator_grammar, flag, lettered, needed, option_rule};
ghost use Rattle.kd_curator_command.specs.CommandLine.{optional, program_alone, rule_of_argument, several, shape_of};
ghost use Rattle.kd_curator_command.specs.CommandLine.{with_commands};

use crate::texts::VALUE_NAMES;
use clap::{Arg, ArgAction, Command as Grammar};
use kd_language::{Language, Text, Wording};
use std::alloc::{AllocError, Global};

/// The version that `--version` shows.
const VERSION: &str = "1.0";

/// The sort of an argument, which says how the argument is given on the command line.
#[derive(Clone, Copy)]
pub(crate) enum ArgumentSort<'a> {
    /// An argument that has to be given.
    Needed,
    /// An argument that has to be given, and may have several values.
    Several,
    /// An argument that may be left out.
    Optional,
    /// An option with a value. The string is the value's name in English.
    Valued(&'a str),
    /// An option of one letter, with a value. The string is the value's name in English.
    Lettered(char, &'a str),
    /// An option that takes no value.
    Flag,
}

/// An argument of a command.
#[derive(Clone, Copy)]
pub(crate) struct Argument<'a> {
    pub(crate) name: &'a str,
    pub(crate) sort: ArgumentSort<'a>,
    /// What the help text says about the argument.
    pub(crate) help: Text,
}

/// A command and its arguments.
#[derive(Clone, Copy)]
pub(crate) struct CommandWords<'a> {
    pub(crate) name: &'a str,
    /// What help says about the command.
    pub(crate) about: Text,
    pub(crate) arguments: &'a [Argument<'a>],
}

const MACHINE: Argument<'static> = Argument {
    name: "MACHINE",
    sort: ArgumentSort::Needed,
    help: ("The machine file", "Die Maschinendatei"),
};

const SHEET: Argument<'static> = Argument {
    name: "SHEET",
    sort: ArgumentSort::Needed,
    help: ("The key sheet", "Die Schlüsseltafel"),
};

const DAY: Argument<'static> = Argument {
    name: "DAY",
    sort: ArgumentSort::Needed,
    help: ("The day, from 1 to 31", "Der Tag, von 1 bis 31"),
};

const LANGUAGE: Argument<'static> = Argument {
    name: "in",
    sort: ArgumentSort::Valued("LANGUAGE"),
    help: (
        "The language of the words, de or en; without it, that of the environment's LANG",
        "Die Sprache aller Texte, de oder en; ohne die Option gilt die Umgebungsvariable LANG",
    ),
};

const OUTPUT: Argument<'static> = Argument {
    name: "output",
    sort: ArgumentSort::Lettered('o', "FILE"),
    help: (
        "Writes the new file FILE, whole or not at all, and no standard output",
        "Schreibt die neue Datei DATEI, ganz oder gar nicht, und nichts auf die Standardausgabe",
    ),
};

const BLANK: Argument<'static> = Argument {
    name: "blank",
    sort: ArgumentSort::Flag,
    help: (
        "Leaves open what the machine gives: worksheets, of which the page without --blank is the solution",
        "Lässt offen, was die Maschine ergibt: Arbeitsblätter, deren Lösung die Seite ohne --blank ist",
    ),
};

/// The commands, in the order in which help lists them.
static COMMANDS: [CommandWords; 8] = [
    CommandWords {
        name: "page",
        about: (
            "Writes an HTML page of each day, from the machine as the day before left it",
            "Schreibt für jeden Tag eine HTML-Seite, ausgehend von der Maschine, wie sie nach dem Tag davor steht",
        ),
        arguments: &[
            MACHINE,
            SHEET,
            Argument {
                name: "DAYS",
                sort: ArgumentSort::Optional,
                help: (
                    "The days, such as 2, 1-31 or 1,4,2; without it, all days for the machine's model",
                    "Die Tage, etwa 2, 1-31 oder 1,4,2; ohne Angabe alle Tage für das Modell der Maschine",
                ),
            },
            LANGUAGE,
            OUTPUT,
        ],
    },
    CommandWords {
        name: "list",
        about: (
            "Writes the settings of a day's page, as a list that desk apply carries out",
            "Schreibt die Handgriffe der Seite eines Tages, als Liste, die desk apply ausführt",
        ),
        arguments: &[MACHINE, SHEET, DAY, LANGUAGE, OUTPUT],
    },
    CommandWords {
        name: "send",
        about: (
            "Writes an HTML page that says, row by row, how to encipher an order by hand",
            "Schreibt eine HTML-Seite, die Zeile für Zeile sagt, wie man einen Auftrag von Hand verschlüsselt",
        ),
        arguments: &[
            MACHINE,
            SHEET,
            DAY,
            Argument {
                name: "ORDER",
                sort: ArgumentSort::Several,
                help: (
                    "The order, as desk send takes it; or up to 32 orders, one page after another",
                    "Der Auftrag, wie ihn desk send nimmt; oder bis zu 32 Aufträge, eine Seite nach der anderen",
                ),
            },
            BLANK,
            LANGUAGE,
            OUTPUT,
        ],
    },
    CommandWords {
        name: "receive",
        about: (
            "Writes an HTML page that says, row by row, how to decipher a form by hand, and its text",
            "Schreibt eine HTML-Seite mit Klartext, die Zeile für Zeile sagt, wie man ein Formular von Hand entschlüsselt",
        ),
        arguments: &[
            MACHINE,
            SHEET,
            DAY,
            Argument {
                name: "FORM",
                sort: ArgumentSort::Needed,
                help: (
                    "The form, with ? for each lost letter",
                    "Das Formular, mit ? für jeden verlorenen Buchstaben",
                ),
            },
            BLANK,
            LANGUAGE,
            OUTPUT,
        ],
    },
    CommandWords {
        name: "type",
        about: (
            "Writes an HTML page on which the machine is typed on, in any browser",
            "Schreibt eine HTML-Seite, mit der man in jedem Browser auf der Maschine tippt",
        ),
        arguments: &[MACHINE, LANGUAGE, OUTPUT],
    },
    CommandWords {
        name: "table",
        about: (
            "Writes a key sheet as an HTML page of tables to print, like the sheets of the time",
            "Schreibt eine Schlüsseltafel als HTML-Seite mit Tabellen zum Drucken, wie die Tafeln von damals",
        ),
        arguments: &[
            Argument {
                name: "csv",
                sort: ArgumentSort::Flag,
                help: (
                    "Writes a table for a spreadsheet instead, in the form CSV",
                    "Schreibt stattdessen eine Tabelle für eine Tabellenkalkulation, im Format CSV",
                ),
            },
            SHEET,
            LANGUAGE,
            OUTPUT,
        ],
    },
    CommandWords {
        name: "sheet",
        about: (
            "Makes a key sheet of a table that a spreadsheet saved as CSV, or an empty key sheet",
            "Macht eine Schlüsseltafel aus einer Tabelle, die als CSV gespeichert ist, oder eine leere Schlüsseltafel",
        ),
        arguments: &[
            Argument {
                name: "model",
                sort: ArgumentSort::Valued("MODEL"),
                help: (
                    "The model, for a table that has no column model",
                    "Das Modell, für eine Tabelle ohne die Spalte Modell",
                ),
            },
            Argument {
                name: "reflector",
                sort: ArgumentSort::Valued("REFLECTOR"),
                help: (
                    "The reflector, for days that lack it",
                    "Die Umkehrwalze, für Tage, bei denen sie fehlt",
                ),
            },
            Argument {
                name: "window",
                sort: ArgumentSort::Valued("LETTERS"),
                help: (
                    "The letters in the windows, for days that lack them",
                    "Die Buchstaben in den Fenstern, für Tage, bei denen sie fehlen",
                ),
            },
            Argument {
                name: "empty",
                sort: ArgumentSort::Valued("MODEL"),
                help: (
                    "Writes a sheet of this model to fill in; then TABLE is the number of its days",
                    "Schreibt eine Tafel dieses Modells zum Ausfüllen; dann ist TABELLE die Zahl ihrer Tage",
                ),
            },
            Argument {
                name: "TABLE",
                sort: ArgumentSort::Needed,
                help: (
                    "The table: CSV, or values separated by semicolons or tabs",
                    "Die Tabelle: CSV, oder Werte mit Semikolons oder Tabulatoren dazwischen",
                ),
            },
            LANGUAGE,
            OUTPUT,
        ],
    },
    CommandWords {
        name: "look",
        about: (
            "Says in words what machine files, key sheets, orders and forms say, or what is wrong with them",
            "Sagt in Worten, was in Maschinendateien, Schlüsseltafeln, Aufträgen und Formularen steht oder was daran falsch ist",
        ),
        arguments: &[
            Argument {
                name: "FILE",
                sort: ArgumentSort::Needed,
                help: (
                    "A machine file, a key sheet, an order or a form",
                    "Eine Maschinendatei, eine Schlüsseltafel, ein Auftrag oder ein Formular",
                ),
            },
            Argument {
                name: "FILE2",
                sort: ArgumentSort::Optional,
                help: ("Another file", "Eine weitere Datei"),
            },
            Argument {
                name: "FILE3",
                sort: ArgumentSort::Optional,
                help: ("Another file", "Eine weitere Datei"),
            },
            LANGUAGE,
        ],
    },
];

/// What help says about the program.
const PROGRAM: Text = (
    "Writes pages to hang beside a cipher machine: what to set for a day, with pictures",
    "Schreibt Seiten zum Aufhängen neben einer Chiffriermaschine: was für einen Tag einzustellen ist, mit Bildern",
);

/// The grammar of the command line. Its help is in the wording's language.
pub(crate) fn grammar<'a>(wording: Wording) -> Result<Grammar<'a>, AllocError>
    ensures { IfOk result (λ grammar. app_of grammar ≡ curator_grammar) }
{
    with_commands(wording, program_grammar(wording), &COMMANDS)
}

/// The grammar of the program alone, without its commands.
fn program_grammar<'a>(wording: Wording) -> Grammar<'a>
    ensures { app_of result ≡ program_alone }
{
    Grammar::new(wording.alloc, "curator")
        .about(wording.language.text(PROGRAM))
        .version(VERSION)
        .disable_help_subcommand(true)
        .subcommand_required(true)
        .arg_required_else_help(true)
}

fn with_commands<'a>(
    wording: Wording,
    grammar: Grammar<'a>,
    commands: &[CommandWords<'a>],
) -> Result<Grammar<'a>, AllocError>
    ensures { (app : App) → app_of grammar.entry ≡ app
        → IfOk result (λ more. app_of more ≡ with_commands app commands.now) }
{
    let mut grammar = grammar;
    for words in commands {
        let command = command_grammar(wording, words)?;
        grammar = grammar.subcommand(command)?;
    }
    Ok(grammar)
}

fn command_grammar<'a>(
    wording: Wording,
    words: &CommandWords<'a>,
) -> Result<Grammar<'a>, AllocError>
    ensures { IfOk result (λ grammar. IsMadeOf grammar (shape_of words.now)) }
{
    let about = wording.language.text(words.about);
    let mut command = Grammar::new(wording.alloc, words.name).about(about);
    for argument in words.arguments {
        command = command.arg(argument_of(wording, argument))?;
    }
    Ok(command)
}

/// Converts `argument` to the form that clap needs.
fn argument_of<'a>(wording: Wording, argument: &Argument<'a>) -> Arg<'a>
    ensures rule { rule_of result ≡ rule_of_argument argument.now }
    ensures local { result.global ≡ false }
{
    let Wording { alloc, language } = wording;
    let Argument { name, sort, help } = *argument;
    let help = language.text(help);
    let english = match sort {
        ArgumentSort::Valued(value) | ArgumentSort::Lettered(_, value) => value,
        _ => name,
    };
    let value = value_name(&VALUE_NAMES, language, english);
    match sort {
        ArgumentSort::Needed => needed(alloc, name, value, help),
        ArgumentSort::Several => several(alloc, name, value, help),
        ArgumentSort::Optional => optional(alloc, name, value, help),
        ArgumentSort::Valued(_) => option(alloc, name, value, help),
        ArgumentSort::Lettered(letter, _) => lettered(alloc, name, letter, value, help),
        ArgumentSort::Flag => flag(alloc, name, help),
    }
}

/// The name of an argument's value in help and errors, in `language`. `english` is its name in English. `names` has the
/// names in both languages.
fn value_name<'a>(names: &[Text], language: Language, english: &'a str) -> &'a str {
    for name in names {
        if name.0 == english {
            return language.text(*name);
        }
    }
    english
}

/// An argument that has to be given. `value` is the value's name in help and errors.
fn needed<'a>(alloc: Global, name: &'a str, value: &'a str, help: &'a str) -> Arg<'a>
    ensures rule { rule_of result ≡ needed name.entry.now }
    ensures local { result.global ≡ false }
{
    Arg::new(alloc, name)
        .required(true)
        .value_name(value)
        .help(help)
}

/// An argument that has to be given, and may have several values. `value` is the name of a value in help and errors.
fn several<'a>(alloc: Global, name: &'a str, value: &'a str, help: &'a str) -> Arg<'a>
    ensures rule { rule_of result ≡ several name.entry.now }
    ensures local { result.global ≡ false }
{
    Arg::new(alloc, name)
        .required(true)
        .action(ArgAction::Append)
        .value_name(value)
        .help(help)
}

/// An argument that may be left out. `value` is the value's name in help and errors.
fn optional<'a>(alloc: Global, name: &'a str, value: &'a str, help: &'a str) -> Arg<'a>
    ensures rule { rule_of result ≡ optional name.entry.now }
    ensures local { result.global ≡ false }
{
    Arg::new(alloc, name).value_name(value).help(help)
}

/// An option with a value. `value` is the value's name in help and errors.
fn option<'a>(alloc: Global, name: &'a str, value: &'a str, help: &'a str) -> Arg<'a>
    ensures rule { rule_of result ≡ option_rule name.entry.now }
    ensures local { result.global ≡ false }
{
    Arg::new(alloc, name)
        .long(name)
        .value_name(value)
        .help(help)
}

/// An option of one letter, with a value. `value` is the value's name in help and errors.
fn lettered<'a>(
    alloc: Global,
    name: &'a str,
    letter: char,
    value: &'a str,
    help: &'a str,
) -> Arg<'a>
    ensures rule { rule_of result ≡ lettered name.entry.now letter }
    ensures local { result.global ≡ false }
{
    Arg::new(alloc, name)
        .short(letter)
        .value_name(value)
        .help(help)
}

/// An option that takes no value.
fn flag<'a>(alloc: Global, name: &'a str, help: &'a str) -> Arg<'a>
    ensures rule { rule_of result ≡ flag name.entry.now }
    ensures local { result.global ≡ false }
{
    Arg::new(alloc, name)
        .long(name)
        .action(ArgAction::SetTrue)
        .help(help)
}
