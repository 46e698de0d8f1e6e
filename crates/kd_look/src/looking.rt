//! `look_at`: describes files in words, or names their faults.
ghost use Rattle.std.specs.Prelude.{◌≡◌, ◌||◌, ◌++◌, ◌∷◌, [], false, map, IfOk, IsErr, OnOk};
ghost use Rattle.std.specs.String.{string_bytes};
ghost use Rattle.kd_tables.specs.{Ports.{port}, WriteFault.{is_device}};
ghost use Rattle.kd_findings.specs.Texts.{AppendsText};
ghost use Rattle.kd_look.specs.Look.{AreReports, IsLookAnswer, IsWholeReport};
ghost use Rattle.kd_look.specs.Look.{comparison_words, known_text, named_text, outcome_of_all};
ghost use Rattle.kd_look.specs.MissingDays.{known_of};
ghost use Rattle.kd_look.specs.Report.{IsReport, file_outcome};

use crate::group_days::group_day_lines;
use crate::missing_days::{ReadFile, missing_day_warnings};
use crate::outcome::Outcome;
use crate::report::{Report, make_report};
use kd_language::Wording;
use kd_tables::{Sink, WriteFault, put_all};
use std::alloc::AllocError;

/// A file that `look_at` describes.
#[derive(Clone, Copy)]
pub struct NamedFile<'f> {
    /// The name of the file. Each line about the file begins with this name.
    pub name: &'f str,
    /// The file's content.
    pub bytes: &'f [u8],
}

/// Describes `files` in the language of `wording`, or names their faults.
pub fn look_at<W: Sink>(
    wording: Wording,
    files: &[NamedFile<'_>],
    sink: &mut W,
) -> Result<Outcome, WriteFault<AllocError>>
    ensures looks { IsLookAnswer wording.language (map named_text files.now)
        (port W.taken W.has_failed sink.old sink.new) result }
    ensures untouched { IsErr result → is_device result ≡ false → sink.new ≡ sink.old }
    ensures failed { W.has_failed sink.new ≡ (W.has_failed sink.old || is_device result) }
{
    let WholeReport { text, outcome } = match report_all(wording, files) {
        Ok(report) => report,
        Err(fault) => return Err(WriteFault::Unwritten(fault)),
    };
    match put_all(sink, text.as_bytes()) {
        Ok(()) => Ok(outcome),
        Err(_) => Err(WriteFault::Device),
    }
}

/// The report on several files.
#[derive(Drop)]
struct WholeReport {
    text: String,
    outcome: Outcome,
}

/// Makes the report on `files`: a report on each file, then the lines that compare the files.
fn report_all(wording: Wording, files: &[NamedFile<'_>]) -> Result<WholeReport, AllocError>
    ensures report { IfOk result (λ made.
        IsWholeReport wording.language (map named_text files.now) (string_bytes made.text)) }
    ensures found { IfOk result (λ made. made.outcome ≡ outcome_of_all (map named_text files.now)) }
{
    let mut text = String::new(wording.alloc);
    let mut known = Vec::new(wording.alloc);
    let outcome = push_reports(&mut text, &mut known, wording, files)?;
    push_comparisons(&mut text, wording, known.as_slice())?;
    Ok(WholeReport { text, outcome })
}

/// Appends the lines that compare `files`. First come the warnings about machines for which no key sheet has a day.
/// Then come the lines that say which days have the messages' groups.
#[tactic(auto, using(std::proofs::Common::append_assoc))]
fn push_comparisons(
    text: &mut String,
    wording: Wording,
    files: &[ReadFile<'_>],
) -> Result<(), AllocError>
    ensures { OnOk result (string_bytes text.new
        ≡ string_bytes text.old ++ comparison_words wording.language (map known_of files.now)) }
{
    let missing = missing_day_warnings(wording, files)?;
    text.push_str(missing.as_str())?;
    let days = group_day_lines(wording, files)?;
    text.push_str(days.as_str())
}

/// Appends the reports on `files` to `text`, and the files' contents to `known`.
fn push_reports<'f>(
    text: &mut String,
    known: &mut Vec<ReadFile<'f>>,
    wording: Wording,
    files: &[NamedFile<'f>],
) -> Result<Outcome, AllocError>
    ensures reports { OnOk result (AppendsText
        (AreReports wording.language (map named_text files.now)) (string_bytes text.old)
        (string_bytes text.new)) }
    ensures found { IfOk result (λ found. found ≡ outcome_of_all (map named_text files.now)) }
    ensures known { OnOk result (map known_of known.new.items
        ≡ map known_of known.old.items ++ map known_text (map named_text files.now)) }
{
    match files {
        [first, rest @ ..] => {
            let found = push_report(text, known, wording, *first)?;
            let later = push_reports(text, known, wording, rest)?;
            Ok(found.or(later))
        }
        [] => Ok(Outcome::Faultless),
    }
}

/// Appends the report on `file` to `text`, and the file's content to `known`.
fn push_report<'f>(
    text: &mut String,
    known: &mut Vec<ReadFile<'f>>,
    wording: Wording,
    file: NamedFile<'f>,
) -> Result<Outcome, AllocError>
    ensures report { OnOk result (AppendsText
        (IsReport wording.language file.entry.name.now file.entry.bytes.now)
        (string_bytes text.old) (string_bytes text.new)) }
    ensures found { IfOk result (λ found. found ≡ file_outcome file.entry.bytes.now) }
    ensures known { OnOk result (map known_of known.new.items
        ≡ map known_of known.old.items ++ known_text (named_text file.entry) ∷ []) }
{
    let Report {
        text: report,
        outcome,
        file: said,
        message,
    } = make_report(wording, file.bytes, file.name)?;
    text.push_str(report.as_str())?;
    known.push(ReadFile {
        name: file.name,
        file: said,
        message,
    })?;
    Ok(outcome)
}
