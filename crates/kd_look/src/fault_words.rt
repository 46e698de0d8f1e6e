//! The lines that name the faults of a file.
ghost use Rattle.std.specs.Prelude.{◌≡◌, ◌++◌, ℕ, List, map, IfOk, OnOk, Err};
ghost use Rattle.std.specs.Result.{result_ok};
ghost use Rattle.std.specs.String.{string_bytes};
ghost use Rattle.toml.specs.View.{table_view};
ghost use Rattle.kd_findings.specs.Faults.{faults_of};
ghost use Rattle.kd_look.specs.FaultWords.{AreFaultLines, IsLineAt, NamesFault, fault_end, fault_line};
ghost use Rattle.kd_look.specs.FaultWords.{AreLinesFor, IsPlainLine, SaysPlainly, line_words};
ghost use Rattle.kd_look.specs.File.{file_in};
ghost use Rattle.kd_look.specs.Line.{line_of};
ghost use Rattle.kd_findings.specs.Texts.{AppendsText};
ghost use Rattle.kd_sheet.specs.Document.{document_of};

use crate::line::lines_of;
use crate::warnings::{key_warnings, push_mark};
use kd_findings::texts::LINE;
use kd_findings::{
    Finding, find_faults, first_line, push_entry, push_titled, toml_words, wrong_words,
};
use kd_language::{Language, Wording};
use kd_sheet::SheetFault;
use std::alloc::AllocError;
use toml::Table;

/// The lines about the faults of a file's `document`, and then the warnings about the document's keys. `fault` is the
/// first of the faults.
pub fn refusal(
    wording: Wording,
    bytes: &[u8],
    name: &str,
    document: &Table,
    fault: SheetFault,
) -> Result<String, AllocError>
    requires { file_in (table_view document.now) ≡ Err fault }
    ensures { IfOk result (λ text.
        NamesFault wording.language name.now bytes.now (table_view document.now) fault
        (string_bytes text)) }
{
    let mut text = fault_lines(wording, bytes, name, document, fault)?;
    text.push_str(key_warnings(wording, bytes, name, document)?.as_str())?;
    Ok(text)
}

/// The line about a file that isn't TOML, and then the warning about a byte order mark.
pub fn plain_refusal(
    wording: Wording,
    bytes: &[u8],
    name: &str,
    fault: SheetFault,
) -> Result<String, AllocError>
    requires { document_of bytes.now ≡ Err fault }
    ensures { IfOk result (λ text.
        SaysPlainly wording.language name.now bytes.now fault (string_bytes text)) }
{
    let mut text = plain_line(wording, bytes, name, fault)?;
    push_mark(&mut text, wording.language, bytes, name)?;
    Ok(text)
}

/// The lines about the faults of a file's `document`. `fault` is the first of these faults.
fn fault_lines(
    wording: Wording,
    bytes: &[u8],
    name: &str,
    document: &Table,
    fault: SheetFault,
) -> Result<String, AllocError>
    requires { file_in (table_view document.now) ≡ Err fault }
    ensures { IfOk result (λ text.
        AreLinesFor wording.language name.now bytes.now (table_view document.now) fault
        (string_bytes text)) }
{
    let findings = find_faults(wording, document)?;
    let mut text = String::new(wording.alloc);
    let lines = lines_of(wording.alloc, bytes, findings.as_slice())?;
    push_findings(
        &mut text,
        wording,
        name,
        findings.as_slice(),
        lines.as_slice(),
    )?;
    Ok(text)
}

/// Appends a line about each of `findings`. `lines` has the number of each finding's line in the file, if it is known.
fn push_findings(
    text: &mut String,
    wording: Wording,
    name: &str,
    findings: &[Finding],
    lines: &[Option<usize>],
) -> Result<(), AllocError>
    ensures { OnOk result ((bytes : List ℕ) → lines.now ≡ map (line_of bytes) findings.now
        → AppendsText (AreFaultLines wording.language name.now bytes (faults_of findings.now))
        (string_bytes text.old) (string_bytes text.new)) }
{
    match (findings, lines) {
        ([finding, findings @ ..], [line, lines @ ..]) => {
            push_finding(text, wording, name, finding, *line)?;
            push_findings(text, wording, name, findings, lines)
        }
        _ => Ok(()),
    }
}

/// Appends the line about `finding`, whose value is in line `line` of the file.
fn push_finding(
    text: &mut String,
    wording: Wording,
    name: &str,
    finding: &Finding,
    line: Option<usize>,
) -> Result<(), AllocError>
    ensures { OnOk result (AppendsText
        (IsLineAt wording.language name.now finding.now.place line finding.now.fault)
        (string_bytes text.old) (string_bytes text.new)) }
{
    let wrong = wrong_words(wording.alloc, &finding.explanation)?;
    push_fault_line(
        text,
        wording.language,
        name,
        finding,
        line,
        first_line(wrong.as_str()),
    )
}

/// Appends the line about `finding`, whose value is in line `line` of the file. `wrong` says what is wrong.
#[tactic(auto, using(std::proofs::Common::append_assoc), unfolding(crate::specs::FaultWords::fault_line))]
fn push_fault_line(
    text: &mut String,
    language: Language,
    name: &str,
    finding: &Finding,
    line: Option<usize>,
    wrong: &str,
) -> Result<(), AllocError>
    ensures { OnOk result (string_bytes text.new ≡ string_bytes text.old
        ++ fault_line language name.now finding.now.place line wrong.now finding.now.fault) }
{
    text.push_str(name)?;
    push_entry(text, language, finding.place.day, finding.place.entry)?;
    push_line(text, language, line)?;
    text.push_str(", ")?;
    text.push_str(finding.place.key.name())?;
    text.push_str(wrong)?;
    push_fault(text, finding.fault)
}

/// If the number of a line is known, appends it.
#[tactic(auto, unfolding(crate::specs::FaultWords::line_words))]
fn push_line(text: &mut String, language: Language, line: Option<usize>) -> Result<(), AllocError>
    ensures { OnOk result (string_bytes text.new
        ≡ string_bytes text.old ++ line_words language line) }
{
    match line {
        Some(number) => push_titled(text, language.text(LINE), number),
        None => Ok(()),
    }
}

/// The line about a file that isn't TOML.
#[tactic(auto, using(std::proofs::Common::append_assoc))]
fn plain_line(
    wording: Wording,
    bytes: &[u8],
    name: &str,
    fault: SheetFault,
) -> Result<String, AllocError>
    requires { result_ok (document_of bytes.now) ≡ None }
    ensures { IfOk result (λ text.
        IsPlainLine wording.language name.now bytes.now fault (string_bytes text)) }
{
    let mut text = String::from_str(wording.alloc, name)?;
    let words = toml_words(wording, bytes)?;
    text.push_str(words.as_str())?;
    push_fault(&mut text, fault)?;
    Ok(text)
}

/// Appends the end of a fault's line: the fault's number and name in parentheses.
#[tactic(auto, using(std::proofs::Common::append_assoc))]
fn push_fault(text: &mut String, fault: SheetFault) -> Result<(), AllocError>
    ensures { OnOk result (string_bytes text.new ≡ string_bytes text.old ++ fault_end fault) }
{
    text.push_str(" (")?;
    text.push_str(fault.text().as_str())?;
    text.push_str(")\n")
}
