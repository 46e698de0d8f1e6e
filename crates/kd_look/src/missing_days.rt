//! The warnings about machines for which no key sheet has a day.
ghost use Rattle.std.specs.Prelude.{◌≡◌, ◌++◌, IfOk, OnOk, flat_map, map};
ghost use Rattle.std.specs.List.{list_any};
ghost use Rattle.std.specs.String.{string_bytes};
ghost use Rattle.kd_look.specs.MissingDays.{machine_model, missing_lines, missing_words, no_day_line};
ghost use Rattle.kd_look.specs.MissingDays.{known_of, model_after_for, no_day_words, serves};

use crate::file::File;
use crate::message::groups::Message;
use crate::texts::{CONVERTER, NO_DAY};
use kd_language::template::push_filled;
use kd_language::{Language, Wording};
use kd_slips::texts::{AN_ENIGMA_I, AN_M3, AN_M4};
use kd_tables::Model;
use std::alloc::AllocError;

/// A file's name, and the file's content. The content is `None` if the file has a fault.
#[derive(Drop)]
pub struct ReadFile<'f> {
    pub name: &'f str,
    /// The content of a machine file or a key sheet. `None` for any other file.
    pub file: Option<File>,
    /// The content of an order or a form. `None` for any other file.
    pub message: Option<Message>,
}

/// The warnings about machines for which no key sheet has a day. There are no warnings if there is no key sheet.
pub fn missing_day_warnings(wording: Wording, files: &[ReadFile<'_>]) -> Result<String, AllocError>
    ensures { IfOk result (λ lines. string_bytes lines
        ≡ missing_words wording.language (map known_of files.now)) }
{
    let mut lines = String::new(wording.alloc);
    for file in files {
        push_missing(&mut lines, wording.language, files, file)?;
    }
    Ok(lines)
}

/// If `file` is a machine file, and no key sheet of `files` has a day for the machine, appends the warnings about
/// `file`.
fn push_missing(
    lines: &mut String,
    language: Language,
    files: &[ReadFile<'_>],
    file: &ReadFile<'_>,
) -> Result<(), AllocError>
    ensures { OnOk result (string_bytes lines.new ≡ string_bytes lines.old
        ++ missing_lines language (map known_of files.now) (known_of file.now)) }
{
    match machine_model(file) {
        Some(model) if !is_served(model, files) => {
            push_no_days(lines, language, file.name, model, files)
        }
        Some(_) | None => Ok(()),
    }
}

/// The machine's model; `None` if the file isn't a machine file.
fn machine_model(file: &ReadFile<'_>) -> Option<Model>
    ensures { result ≡ machine_model (known_of file.now) }
{
    match &file.file {
        Some(File::Machine(machine)) => Some(machine.model()),
        Some(File::Sheet(_)) | None => None,
    }
}

/// Whether one of the files is a key sheet that has a day for `model`.
fn is_served(model: Model, files: &[ReadFile<'_>]) -> bool
    ensures { result ≡ list_any (serves model) (map known_of files.now) }
{
    match files {
        [file, rest @ ..] => serves(model, file) || is_served(model, rest),
        [] => false,
    }
}

/// Whether `file` is a key sheet that has a day for `model`.
fn serves(model: Model, file: &ReadFile<'_>) -> bool
    ensures { result ≡ serves model (known_of file.now) }
{
    match &file.file {
        Some(File::Sheet(sheet)) => sheet.has_days_of(model),
        Some(File::Machine(_)) | None => false,
    }
}

/// Appends a warning for each key sheet of `files`. The warning says that the sheet has no day for the machine in the
/// file `name`.
#[tactic(auto, using(std::proofs::Common::append_assoc))]
fn push_no_days(
    lines: &mut String,
    language: Language,
    name: &str,
    model: Model,
    files: &[ReadFile<'_>],
) -> Result<(), AllocError>
    ensures { OnOk result (string_bytes lines.new ≡ string_bytes lines.old
        ++ flat_map (no_day_line language name.now model) (map known_of files.now)) }
{
    match files {
        [file, rest @ ..] => {
            push_no_day(lines, language, name, model, file)?;
            push_no_days(lines, language, name, model, rest)
        }
        [] => Ok(()),
    }
}

/// Appends a warning that `sheet` has no day for the machine in the file `name`. Appends nothing if `sheet` isn't a key
/// sheet.
fn push_no_day(
    lines: &mut String,
    language: Language,
    name: &str,
    model: Model,
    sheet: &ReadFile<'_>,
) -> Result<(), AllocError>
    ensures { OnOk result (string_bytes lines.new
        ≡ string_bytes lines.old ++ no_day_line language name.now model (known_of sheet.now)) }
{
    match &sheet.file {
        Some(File::Sheet(_)) => push_no_day_words(
            lines,
            language,
            name,
            sheet.name,
            model_after_for(language, model),
        ),
        Some(File::Machine(_)) | None => Ok(()),
    }
}

/// Appends a warning that the key sheet `sheet` has no day for the machine in the file `name`. `model` is the machine's
/// model in words.
fn push_no_day_words(
    lines: &mut String,
    language: Language,
    name: &str,
    sheet: &str,
    model: &str,
) -> Result<(), AllocError>
    ensures { OnOk result (string_bytes lines.new
        ≡ string_bytes lines.old ++ no_day_words language name.now sheet.now model.now) }
{
    push_filled(lines, language.text(NO_DAY), &[name, sheet, model])
}

/// The model's name with an article, as in `for an M4`; the German words are in the accusative.
fn model_after_for(language: Language, model: Model) -> &'static str
    ensures { result.now ≡ model_after_for language model }
{
    match model {
        Model::EnigmaI => language.text(AN_ENIGMA_I),
        Model::M3 => language.text(AN_M3),
        Model::M4 => language.text(AN_M4),
        Model::M209 => language.text(CONVERTER),
    }
}
