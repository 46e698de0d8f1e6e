//! The report on one file: its content in words, or its faults.
ghost use Rattle.std.specs.Prelude.{◌≡◌, ◌++◌, None, IfOk, OnOk};
ghost use Rattle.std.specs.Result.{result_ok};
ghost use Rattle.std.specs.String.{string_bytes};
ghost use Rattle.toml.specs.View.{table_view};
ghost use Rattle.kd_look.specs.Report.{Describes, IsDocumentReport, IsReport, file_outcome, file_words};
ghost use Rattle.kd_look.specs.Report.{answer_outcome, file_message, message_outcome, message_report, outcome_of};
ghost use Rattle.kd_look.specs.Groups.{group_lines, message_of};
ghost use Rattle.kd_look.specs.File.{file_in, file_of};

use crate::fault_words::{plain_refusal, refusal};
use crate::file::{File, file_in};
use crate::machine_words::push_machine;
use crate::message::fault::MessageFault;
use crate::message::form::form_answer;
use crate::message::groups::{Message, form_message, order_message, push_groups};
use crate::message::order::order_start;
use crate::message::words::{form_words, is_form, is_message, order_words};
use crate::outcome::{FoundFault, Outcome};
use crate::sheet_words::push_sheet;
use crate::texts::{KEY_SHEET, MACHINE_FILE};
use crate::warnings::{day_warnings, key_warnings};
use kd_language::{Language, Wording};
use kd_sheet::SheetFault;
use kd_sheet::by_key::parse_table;
use std::alloc::AllocError;
use toml::Table;

/// The report on a file.
#[derive(Drop)]
pub struct Report {
    /// The lines about the file.
    pub text: String,
    pub outcome: Outcome,
    /// The content of a faultless machine file or key sheet. `None` for any other file.
    pub file: Option<File>,
    /// The content of a faultless order or form. `None` for any other file.
    pub message: Option<Message>,
}

/// Makes the report on the file called `name`, with the content `bytes`.
pub fn make_report(wording: Wording, bytes: &[u8], name: &str) -> Result<Report, AllocError>
    ensures report { IfOk result (λ made.
        IsReport wording.language name.now bytes.now (string_bytes made.text)) }
    ensures found { IfOk result (λ made. made.outcome ≡ file_outcome bytes.now) }
    ensures file { IfOk result (λ made. made.file ≡ result_ok (file_of bytes.now)) }
    ensures message { IfOk result (λ made. made.message ≡ file_message bytes.now) }
{
    match parse_table(wording.alloc, bytes) {
        Ok(document) => document_report(wording, bytes, name, &document),
        Err(SheetFault::NoMemory) => Err(AllocError),
        Err(_) if is_message(bytes) => message_report(wording, bytes, name),
        Err(fault) => Ok(Report {
            text: plain_refusal(wording, bytes, name, fault)?,
            outcome: Outcome::Faulty(FoundFault::File(fault)),
            file: None,
            message: None,
        }),
    }
}

/// Makes the report on the order or form `bytes` in the file called `name`.
fn message_report(wording: Wording, bytes: &[u8], name: &str) -> Result<Report, AllocError>
    ensures report { IfOk result (λ made.
        string_bytes made.text ≡ message_report wording.language name.now bytes.now) }
    ensures found { IfOk result (λ made. made.outcome ≡ message_outcome bytes.now) }
    ensures file { IfOk result (λ made. made.file ≡ None) }
    ensures message { IfOk result (λ made. made.message ≡ message_of bytes.now) }
{
    if is_form(bytes) {
        let answer = form_answer(bytes);
        let message = form_message(wording.alloc, bytes, &answer)?;
        let text = form_words(wording, name, bytes, &answer)?;
        report_with_groups(text, wording, answer_outcome(&answer), message)
    } else {
        let answer = order_start(bytes);
        let message = order_message(wording.alloc, bytes, &answer)?;
        let text = order_words(wording, name, bytes, &answer)?;
        report_with_groups(text, wording, answer_outcome(&answer), message)
    }
}

/// Makes the report on an order or a form: `text`, and the lines about the groups of `message`.
fn report_with_groups(
    text: String,
    wording: Wording,
    outcome: Outcome,
    message: Option<Message>,
) -> Result<Report, AllocError>
    ensures report { IfOk result (λ made.
        string_bytes made.text ≡ string_bytes text ++ group_lines wording.language message) }
    ensures found { IfOk result (λ made. made.outcome ≡ outcome) }
    ensures file { IfOk result (λ made. made.file ≡ None) }
    ensures message { IfOk result (λ made. made.message ≡ message) }
{
    let mut text = text;
    push_groups(&mut text, wording, &message)?;
    Ok(Report {
        text,
        outcome,
        file: None,
        message,
    })
}

/// The outcome for an order or a form. `answer` is the result of reading it.
fn answer_outcome<A>(answer: &Result<A, MessageFault>) -> Outcome
    ensures { result ≡ answer_outcome answer.now }
{
    match answer {
        Ok(_) => Outcome::Faultless,
        Err(found) => Outcome::Faulty(FoundFault::Message(found.fault)),
    }
}

/// Makes the report on the file called `name`, whose table is `document`.
fn document_report(
    wording: Wording,
    bytes: &[u8],
    name: &str,
    document: &Table,
) -> Result<Report, AllocError>
    ensures report { IfOk result (λ made.
        IsDocumentReport wording.language name.now bytes.now (table_view document.now)
        (string_bytes made.text)) }
    ensures found { IfOk result (λ made.
        made.outcome ≡ outcome_of (file_in (table_view document.now))) }
    ensures file { IfOk result (λ made.
        made.file ≡ result_ok (file_in (table_view document.now))) }
    ensures message { IfOk result (λ made. made.message ≡ None) }
{
    match file_in(document) {
        Ok(file) => Ok(Report {
            text: description(wording, bytes, name, document, &file)?,
            outcome: Outcome::Faultless,
            file: Some(file),
            message: None,
        }),
        Err(fault) => Ok(Report {
            text: refusal(wording, bytes, name, document, fault)?,
            outcome: Outcome::Faulty(FoundFault::File(fault)),
            file: None,
            message: None,
        }),
    }
}

/// The words for the content of the file `name`, and then the file's warnings.
fn description(
    wording: Wording,
    bytes: &[u8],
    name: &str,
    document: &Table,
    file: &File,
) -> Result<String, AllocError>
    ensures { IfOk result (λ text.
        Describes wording.language name.now bytes.now (table_view document.now) file.now
        (string_bytes text)) }
{
    let mut text = String::new(wording.alloc);
    push_file(&mut text, wording.language, name, file)?;
    let keys = key_warnings(wording, bytes, name, document)?;
    text.push_str(keys.as_str())?;
    let days = day_warnings(wording, name, file)?;
    text.push_str(days.as_str())?;
    Ok(text)
}

/// Appends the words for the content of the file `name`.
#[tactic(auto, using(std::proofs::Common::append_assoc), unfolding(crate::specs::Report::file_words))]
fn push_file(
    text: &mut String,
    language: Language,
    name: &str,
    file: &File,
) -> Result<(), AllocError>
    ensures { OnOk result (string_bytes text.new
        ≡ string_bytes text.old ++ file_words language name.now file.now) }
{
    text.push_str(name)?;
    match file {
        File::Machine(machine) => {
            text.push_str(language.text(MACHINE_FILE))?;
            push_machine(text, language, machine)
        }
        File::Sheet(sheet) => {
            text.push_str(language.text(KEY_SHEET))?;
            push_sheet(text, language, sheet)
        }
    }
}
