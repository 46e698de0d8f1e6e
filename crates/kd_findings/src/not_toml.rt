//! The words for a file that isn't TOML: the place of the fault, the parser's message, and the likely mistake.
ghost use Rattle.std.specs.Prelude.{◌≡◌, ◌+◌, ◌++◌, ◌==◌, count_by, reverse, take, IfOk, OnOk, None};
ghost use Rattle.std.specs.Result.{result_ok};
ghost use Rattle.std.specs.String.{string_bytes};
ghost use Rattle.toml.specs.Errors.{IsWithin, span_start};
ghost use Rattle.kd_sheet.specs.Document.{document_of};
ghost use Rattle.kd_findings.specs.NotToml.{NamesPlace, SaysNotToml, begins_character, characters_to_feed};
ghost use Rattle.kd_findings.specs.NotToml.{column_at, line_at, place_words};

use crate::texts;
use crate::words::{first_line, push_titled};
use kd_language::{Language, Text, Wording};
use std::alloc::AllocError;
use toml::de::Error;

/// A place in a text. Lines and columns are counted from 1, columns in characters.
#[derive(Clone, Copy)]
pub struct TextPlace {
    pub line: usize,
    pub column: usize,
}

/// The words for the place at which `bytes` stop being TOML: its line, its column, and what is wrong there.
pub fn toml_words(wording: Wording, bytes: &[u8]) -> Result<String, AllocError>
    requires { result_ok (document_of bytes.now) ≡ None }
    ensures { IfOk result (λ words. SaysNotToml wording.language bytes.now (string_bytes words)) }
{
    match toml::table_from_slice(wording.alloc, bytes) {
        Ok(_) => Err(AllocError),
        Err(error) => words_at(wording, bytes, &error),
    }
}

/// Appends the place of the byte at `index`: its line, its column, and what is wrong there.
pub fn push_place(
    words: &mut String,
    language: Language,
    bytes: &[u8],
    index: usize,
    reason: &str,
) -> Result<(), AllocError>
    ensures { OnOk result (string_bytes words.new ≡ string_bytes words.old
        ++ place_words language (line_at bytes.now index) (column_at bytes.now index) reason.now) }
{
    let place = place_after(bytes_before(bytes, index));
    push_place_words(words, language, place, reason)
}

/// The words for the parser's fault: its line, its column, and what is wrong there.
fn words_at(wording: Wording, bytes: &[u8], error: &Error) -> Result<String, AllocError>
    requires { IsWithin bytes.now error.now }
    ensures { IfOk result (λ words. NamesPlace wording.language bytes.now
        (span_start error.now) (string_bytes words)) }
{
    let Some(span) = error.span() else {
        return Err(AllocError);
    };
    let place = place_after(&bytes[..span.start]);
    let reason = reason_for(wording, bytes, place.line, error.message())?;
    place_words(wording, place, first_line(reason.as_str()))
}

/// The line and the column after the bytes `before`.
pub fn place_after(before: &[u8]) -> TextPlace
    ensures line { result.line ≡ count_by (λ byte. byte == 10) before.now + 1 }
    ensures column { result.column ≡ characters_to_feed (reverse before.now) + 1 }
{
    let mut line = 1;
    let mut column = 1;
    for byte in before {
        if *byte == b'\n' {
            line += 1;
            column = 1;
        } else if begins_character(*byte) {
            column += 1;
        }
    }
    TextPlace { line, column }
}

/// Whether a character begins with `byte`, in UTF-8.
fn begins_character(byte: u8) -> bool
    ensures { result ≡ begins_character byte }
{
    byte < 128 || 191 < byte
}

/// What is wrong in line `line` of `bytes`, in words. `message` is the parser's message.
fn reason_for(
    wording: Wording,
    bytes: &[u8],
    line: usize,
    message: &str,
) -> Result<String, AllocError> {
    let mistake = hint(bytes, line, message);
    let cause = cause_words(wording, message, mistake)?;
    wording.fill(texts::NOT_TOML, &[cause.as_str()])
}

/// Why a file isn't TOML: the parser's message `message`, and the likely mistake. The parser has only English messages,
/// so German words give the mistake alone.
fn cause_words(wording: Wording, message: &str, mistake: Text) -> Result<String, AllocError> {
    let mut words = String::new(wording.alloc);
    if wording.language == Language::English {
        words.push_str(message)?;
        words.push_str("; ")?;
    }
    words.push_str(wording.language.text(mistake))?;
    Ok(words)
}

/// The likely mistake in line `number` of `bytes`, in which the parser found a fault. `message` is the parser's
/// message.
fn hint(bytes: &[u8], number: usize, message: &str) -> Text {
    let line = numbered_line(bytes, number);
    if message == "invalid UTF-8" {
        texts::NOT_UTF8
    } else if message == "duplicate key" {
        texts::KEY_TWICE
    } else if number == 1 && is_spreadsheet_head(line) {
        texts::SPREADSHEET
    } else {
        line_hint(line)
    }
}

/// The likely mistake in `line`, by its signs.
fn line_hint(line: &[u8]) -> Text {
    let quotes = line.iter().filter(|byte| **byte == b'"').count();
    if has_curly_quote(line) {
        texts::CURLY_QUOTE
    } else if quotes % 2 == 1 {
        texts::QUOTE_MISSING
    } else if has_leading_zero(line) {
        texts::LEADING_ZERO
    } else if line.contains(&b':') && !line.contains(&b'=') {
        texts::COLON
    } else if line.contains(&b'=') {
        texts::SIGN_MISSING
    } else {
        texts::END_MISSING
    }
}

/// Whether a file's first line may name the columns of a spreadsheet: it has at least two separators, and no `=`.
fn is_spreadsheet_head(line: &[u8]) -> bool {
    let separators = line
        .iter()
        .filter(|byte| matches!(**byte, b';' | b',' | b'\t'))
        .count();
    1 < separators && !line.contains(&b'=')
}

/// Whether `line` has a character from U+2000 to U+203F, in UTF-8. These include the curly quotes.
fn has_curly_quote(line: &[u8]) -> bool {
    line.windows(2).any(|pair| matches!(pair, [0xE2, 0x80]))
}

/// Whether a number in `line` begins with a 0, for example `05`.
fn has_leading_zero(line: &[u8]) -> bool {
    line.windows(3).any(|three| match three {
        [before, b'0', digit] => !before.is_ascii_alphanumeric()
            && *before != b'"'
            && digit.is_ascii_digit(),
        _ => false,
    })
}

/// Line `line` of `bytes`, without its line end. Lines are counted from 1.
fn numbered_line(bytes: &[u8], line: usize) -> &[u8] {
    let mut lines = bytes.split(|byte| *byte == b'\n');
    lines.nth(line.saturating_sub(1)).unwrap_or(bytes)
}

/// The words for a place: its line, its column, and what is wrong there.
fn place_words(wording: Wording, place: TextPlace, reason: &str) -> Result<String, AllocError>
    ensures { IfOk result (λ words. string_bytes words
        ≡ place_words wording.language place.line place.column reason.now) }
{
    let mut words = String::new(wording.alloc);
    push_place_words(&mut words, wording.language, place, reason)?;
    Ok(words)
}

/// Appends the words for a place: its line, its column, and what is wrong there.
#[tactic(auto, using(std::proofs::Common::append_assoc), unfolding(crate::specs::NotToml::place_words))]
fn push_place_words(
    words: &mut String,
    language: Language,
    place: TextPlace,
    reason: &str,
) -> Result<(), AllocError>
    ensures { OnOk result (string_bytes words.new
        ≡ string_bytes words.old ++ place_words language place.line place.column reason.now) }
{
    push_titled(words, language.text(texts::LINE), place.line)?;
    push_titled(words, language.text(texts::COLUMN), place.column)?;
    words.push_str(": ")?;
    words.push_str(reason)
}

/// The bytes before the byte at `index`, or all of `bytes` if there is no such byte.
fn bytes_before(bytes: &[u8], index: usize) -> &[u8]
    ensures { result.now ≡ take index bytes.now }
{
    if index < bytes.len() {
        &bytes[..index]
    } else {
        bytes
    }
}
