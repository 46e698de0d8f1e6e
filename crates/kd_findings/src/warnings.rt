//! Warnings about keys that the desk doesn't read, and about cables with letters in falling order.
ghost use Rattle.std.specs.Prelude.{◌≡◌, ◌++◌, IfOk, OnOk, map};
ghost use Rattle.std.specs.List.{flat_map};
ghost use Rattle.std.specs.String.{string_bytes};
ghost use Rattle.toml.specs.View.{table_view, view};
ghost use Rattle.kd_findings.specs.Texts.{AppendsText, ArePieces};
ghost use Rattle.kd_findings.specs.Unread.{unread_key, unread_of};
ghost use Rattle.kd_findings.specs.Warnings.{AreWarnings, TellsUnread, cable_line, cable_lines, is_capital};
ghost use Rattle.kd_findings.specs.Warnings.{order_line, order_lines, unread_line, warning_start};

use crate::judging::{is_machine_file, items_at};
use crate::texts;
use crate::unread::{Meant, Unread, unread_keys};
use crate::words::{first_line, push_entry};
use kd_language::template::push_filled;
use kd_language::{Language, Wording};
use kd_sheet::Key;
use kd_sheet::by_key::model_in;
use kd_slips::values::shown;
use kd_tables::Family;
use std::alloc::AllocError;
use toml::{Table, Value};

/// The warnings about a document. There is a line for each unread key. There is also a line for each cable with two
/// capital letters in falling order, such as `BA`. The desk writes this cable as `AB`.
pub fn warning_lines(wording: Wording, name: &str, document: &Table) -> Result<String, AllocError>
    ensures { IfOk result (λ lines.
        AreWarnings wording.language name.now (table_view document.now) (string_bytes lines)) }
{
    let mut lines = String::new(wording.alloc);
    let unread = unread_keys(wording.alloc, document)?;
    push_all_unread(&mut lines, wording, name, unread.as_slice())?;
    push_orders(&mut lines, wording, name, document)?;
    Ok(lines)
}

fn push_all_unread(
    text: &mut String,
    wording: Wording,
    name: &str,
    keys: &[Unread<'_>],
) -> Result<(), AllocError>
    ensures { OnOk result (AppendsText
        (ArePieces (TellsUnread wording.language name.now) (unread_of keys.now))
        (string_bytes text.old) (string_bytes text.new)) }
{
    for key in keys {
        push_unread(text, wording, name, key)?;
    }
    Ok(())
}

/// Appends the warning about an unread key, with advice on what to write.
fn push_unread(
    text: &mut String,
    wording: Wording,
    name: &str,
    key: &Unread<'_>,
) -> Result<(), AllocError>
    ensures { OnOk result (AppendsText
        (TellsUnread wording.language name.now (unread_key key.now))
        (string_bytes text.old) (string_bytes text.new)) }
{
    let advice = advice_of(wording, key.meant)?;
    push_told(text, wording, name, key, first_line(advice.as_str()))
}

/// The advice for an unread key: what to write instead. Empty if `meant` is `Unknown`.
fn advice_of(wording: Wording, meant: Meant) -> Result<String, AllocError> {
    match meant {
        Meant::Key(key) => wording.fill(texts::WRITE_KEY, &[key.name()]),
        Meant::Entries => wording.fill(texts::WRITE_ENTRIES, &[]),
        Meant::Unknown => Ok(String::new(wording.alloc)),
    }
}

/// Appends the warning about an unread key, with `advice`.
#[tactic(auto, using(std::proofs::Common::append_assoc), unfolding(crate::specs::Warnings::unread_line))]
fn push_told(
    text: &mut String,
    wording: Wording,
    name: &str,
    key: &Unread<'_>,
    advice: &str,
) -> Result<(), AllocError>
    ensures { OnOk result (string_bytes text.new
        ≡ string_bytes text.old
        ++ unread_line wording.language name.now (unread_key key.now) advice.now) }
{
    let key_shown = shown(wording, key.name)?;
    push_start(text, wording.language, name, key.day, key.entry)?;
    let template = wording.language.text(texts::UNREAD);
    push_filled(text, template, &[key_shown.as_str(), advice])
}

/// Appends the start of a warning: the file's name and, for a key in an entry, the entry's day or number.
#[tactic(auto, using(std::proofs::Common::append_assoc), unfolding(crate::specs::Warnings::warning_start))]
fn push_start(
    text: &mut String,
    language: Language,
    name: &str,
    day: Option<u8>,
    entry: Option<usize>,
) -> Result<(), AllocError>
    ensures { OnOk result (string_bytes text.new
        ≡ string_bytes text.old ++ warning_start language name.now day entry) }
{
    text.push_str(name)?;
    push_entry(text, language, day, entry)?;
    text.push_str(language.text(texts::WARNING))
}

/// Appends a warning about each cable with letters in falling order, such as `BA`. If the document isn't a rotor
/// machine's file, appends nothing.
#[tactic(auto, unfolding(crate::specs::Warnings::order_lines))]
fn push_orders(
    lines: &mut String,
    wording: Wording,
    name: &str,
    document: &Table,
) -> Result<(), AllocError>
    ensures { OnOk result (string_bytes lines.new ≡ string_bytes lines.old
        ++ order_lines wording.language name.now (table_view document.now)) }
{
    if !is_machine_file(document) {
        return Ok(());
    }
    match model_in(document) {
        Ok(model) => match model.family() {
            Family::Rotor => push_file_cables(lines, wording, name, document),
            Family::Pin => Ok(()),
        },
        Err(_) => Ok(()),
    }
}

/// Appends a warning about each cable whose letters are in falling order, such as `BA`. The cables are in the array
/// `cables`.
#[tactic(auto, unfolding(crate::specs::Warnings::cable_lines))]
fn push_file_cables(
    lines: &mut String,
    wording: Wording,
    name: &str,
    document: &Table,
) -> Result<(), AllocError>
    ensures { OnOk result (string_bytes lines.new ≡ string_bytes lines.old
        ++ cable_lines wording.language name.now (table_view document.now)) }
{
    match items_at(document, Key::Cables) {
        Some(items) => push_cables(lines, wording, name, items),
        None => Ok(()),
    }
}

/// Appends a warning about each cable in `items` that has two capital letters in falling order, such as `BA`.
fn push_cables(
    lines: &mut String,
    wording: Wording,
    name: &str,
    items: &[Value],
) -> Result<(), AllocError>
    ensures { OnOk result (string_bytes lines.new ≡ string_bytes lines.old
        ++ flat_map (cable_line wording.language name.now) (map view items.now)) }
{
    for item in items {
        push_cable(lines, wording, name, item)?;
    }
    Ok(())
}

/// If the cable `item` is a text of two capital letters in falling order, such as `BA`, appends a warning.
fn push_cable(
    lines: &mut String,
    wording: Wording,
    name: &str,
    item: &Value,
) -> Result<(), AllocError>
    ensures { OnOk result (string_bytes lines.new
        ≡ string_bytes lines.old ++ cable_line wording.language name.now (view item.now)) }
{
    match item.as_str() {
        Some(cable) => push_order(lines, wording, name, cable),
        None => Ok(()),
    }
}

/// If `cable` has two capital letters in falling order, such as `BA`, appends a warning. The desk writes `AB`.
#[tactic(auto, using(std::proofs::Common::append_assoc), unfolding(crate::specs::Warnings::order_line))]
fn push_order(
    lines: &mut String,
    wording: Wording,
    name: &str,
    cable: &str,
) -> Result<(), AllocError>
    ensures { OnOk result (string_bytes lines.new
        ≡ string_bytes lines.old ++ order_line wording.language name.now cable.now) }
{
    match cable.as_bytes() {
        [one, other] if is_capital(*one) && is_capital(*other) && other < one => {
            let mut turned = String::new(wording.alloc);
            turned.push(char::from(*other))?;
            turned.push(char::from(*one))?;
            lines.push_str(name)?;
            lines.push_str(wording.language.text(texts::WARNING))?;
            let template = wording.language.text(texts::CABLE_ORDER);
            push_filled(lines, template, &[cable, turned.as_str()])
        }
        _ => Ok(()),
    }
}

fn is_capital(byte: u8) -> bool
    ensures { result ≡ is_capital byte }
{
    65 <= byte && byte <= 90
}
