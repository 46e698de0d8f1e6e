//! The words of `clap` in German.

use kd_language::Text;
use std::alloc::{AllocError, Global};

/// The sentences with which `clap` begins an error. Each sign `~` stands for words from the command line, or for names
/// of the grammar.
const ERRORS: [Text; 6] = [
    (
        "the following required arguments were not provided:\n",
        "es fehlt:\n",
    ),
    ("unrecognized subcommand ", "unbekannter Befehl "),
    (
        "unexpected argument '~' found\n",
        "unerwartetes Argument '~'\n",
    ),
    (
        "unexpected value '~' for '~' found; no more were expected\n",
        "unerwarteter Wert '~' für '~'; weitere Werte sind nicht erlaubt\n",
    ),
    (
        "a value is required for '~' but none was supplied\n",
        "für '~' fehlt ein Wert\n",
    ),
    (
        "the argument '~' cannot be used multiple times\n",
        "das Argument '~' darf nur einmal vorkommen\n",
    ),
];

/// The other sentences and words that `clap` writes in help and in errors, in the order in which they can stand there.
/// Signs `~` are as in `ERRORS`.
const SENTENCES: [Text; 15] = [
    (
        "\n  tip: a similar argument exists: ",
        "\n  Tipp: ein ähnliches Argument ist ",
    ),
    (
        "\n  tip: a similar subcommand exists: ",
        "\n  Tipp: ein ähnlicher Befehl ist ",
    ),
    (
        "\n  tip: some similar subcommands exist: ",
        "\n  Tipp: ähnliche Befehle sind ",
    ),
    (
        "\n  tip: subcommand '~' exists; to use it, remove the '--' before it\n",
        "\n  Tipp: '~' ist ein Befehl; das '--' davor weglassen\n",
    ),
    (
        "\n  tip: to pass '~' as a value, use ",
        "\n  Tipp: '~' als Wert so schreiben: ",
    ),
    ("\n  tip: '~' exists\n", "\n  Tipp: '~' gibt es\n"),
    ("\nUsage: ", "\nAufruf: "),
    (" [OPTIONS] ", " [OPTIONEN] "),
    (" <COMMAND>\n", " <BEFEHL>\n"),
    ("\nCommands:\n", "\nBefehle:\n"),
    ("\nArguments:\n", "\nArgumente:\n"),
    ("\nOptions:\n", "\nOptionen:\n"),
    ("  Print help\n", "  Schreibt diese Hilfe\n"),
    ("  Print version\n", "  Schreibt die Version\n"),
    (
        "\nFor more information, try '--help'.\n",
        "\nMehr dazu mit '--help'.\n",
    ),
];

/// Translates the sentences of `text`, which `clap` wrote, into German.
pub(crate) fn german_text(alloc: Global, text: &str) -> Result<String, AllocError> {
    let mut german = String::new(alloc);
    match text.strip_prefix("error: ") {
        Some(message) => {
            german.push_str("Fehler: ")?;
            let rest = push_error(&mut german, message)?;
            push_sentences(&mut german, rest)?;
        }
        None => push_sentences(&mut german, text)?,
    }
    Ok(german)
}

/// Appends, in German, the sentence with which the error `message` begins. Returns the text after this sentence. If
/// `message` begins with none of `ERRORS`, appends nothing, and returns `message`.
fn push_error<'t>(german: &mut String, message: &'t str) -> Result<&'t str, AllocError> {
    for error in &ERRORS {
        if begins_as(message, *error) {
            return push_sentence(german, message, *error);
        }
    }
    Ok(message)
}

/// Whether `message` begins with the English text of `sentence`, up to the first sign `~`.
fn begins_as(message: &str, sentence: Text) -> bool {
    match sentence.0.split_once('~') {
        Some((start, _)) => message.starts_with(start),
        None => message.starts_with(sentence.0),
    }
}

/// Appends `text`, with its sentences in German.
fn push_sentences(german: &mut String, text: &str) -> Result<(), AllocError> {
    let mut rest = text;
    for sentence in &SENTENCES {
        rest = push_sentence(german, rest, *sentence)?;
    }
    german.push_str(rest)
}

/// Finds the English sentence of `sentence` in `text`. Appends `text` up to the sentence's end, with the sentence in
/// German, and returns the rest of `text`. If `text` lacks the sentence's beginning, appends nothing, and returns
/// `text`.
fn push_sentence<'t>(
    german: &mut String,
    text: &'t str,
    sentence: Text,
) -> Result<&'t str, AllocError> {
    let mut rest = text;
    for (english, translated) in sentence.0.split('~').zip(sentence.1.split('~')) {
        let Some((before, after)) = rest.split_once(english) else {
            break;
        };
        german.push_str(before)?;
        german.push_str(translated)?;
        rest = after;
    }
    Ok(rest)
}
