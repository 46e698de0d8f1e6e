//! Finds values in a table, and refuses values of another type.
ghost use Rattle.std.specs.Prelude.{◌≡◌, ◌≢◌, ◌<◌, ◌≤◌, ◌++◌, codes, map, IfErr, IfOk, None, OnErr, OnOk, Some};
ghost use Rattle.std.specs.List.{list_all};
ghost use Rattle.std.specs.Option.{option_and_then};
ghost use Rattle.std.specs.String.{string_bytes};
ghost use Rattle.toml.specs.Data.{as_str, get_member};
ghost use Rattle.toml.specs.View.{table_view, view};
ghost use Rattle.kd_sheet.specs.Document.{as_items};
ghost use Rattle.kd_sheet.specs.Key.{key_name};
ghost use Rattle.kd_sheet.specs.declared.fault.SheetFault.TheVariants.{BadValue, Missing};
ghost use Rattle.kd_slips.specs.Items.{HasFault, type_fault};
ghost use Rattle.kd_slips.specs.Shown.{can_be_shown, is_printed, shown_text};

use crate::slip::{Slip, refuse, refuse_item};
use crate::texts;
use itoa::Buffer;
use kd_language::{Language, Text, Wording};
use kd_sheet::by_key::find_at;
use kd_sheet::{Key, SheetFault};
use std::alloc::{AllocError, Global};
use toml::{Table, Value};

/// The length, in bytes, of the longest text that is shown in a line.
const SHOWN: usize = 40;

/// The value at `key`, or a slip if the key is missing.
pub fn value_at(wording: Wording, table: &Table, key: Key) -> Result<&Value, Slip>
    ensures found { IfOk result (λ value.
        get_member (key_name key) (table_view table.now) ≡ Some (view value.now)) }
    ensures missing { OnErr result (get_member (key_name key) (table_view table.now) ≡ None) }
    ensures slip { IfErr result (HasFault (Missing key) None) }
{
    match find_at(table, key) {
        Some(value) => Ok(value),
        None => refuse(
            SheetFault::Missing(key),
            wording.fill(texts::KEY_MISSING, &[key.name()]),
        ),
    }
}

/// The type of `value`, in words.
pub fn kind_of(language: Language, value: &Value) -> &'static str {
    language.text(match value {
        Value::String(_) => texts::A_TEXT,
        Value::Integer(_) => texts::A_NUMBER,
        Value::Float(_) => texts::A_NUMBER_WITH_POINT,
        Value::Boolean(_) => texts::TRUE_OR_FALSE,
        Value::Datetime(_) => texts::A_DATE,
        Value::Array(_) => texts::A_LIST,
        Value::Table(_) => texts::A_TABLE,
    })
}

/// The text at `key`, or the reason why there is no text.
pub fn text_at(wording: Wording, table: &Table, key: Key) -> Result<&str, Slip>
    ensures found { IfOk result (λ text.
        option_and_then as_str (get_member (key_name key) (table_view table.now)) ≡ Some text.now) }
    ensures other { OnErr result
        (option_and_then as_str (get_member (key_name key) (table_view table.now)) ≡ None) }
    ensures slip { IfErr result
        (HasFault (type_fault key (get_member (key_name key) (table_view table.now))) None) }
{
    let value = value_at(wording, table, key)?;
    match value.as_str() {
        Some(text) => Ok(text),
        None => refuse(SheetFault::BadValue(key), no_text_words(wording, value)),
    }
}

/// The text of `item`, or a slip with the fault `fault` if `item` isn't a text. `number` is the item's number in its
/// list.
pub fn item_text(
    wording: Wording,
    item: &Value,
    number: usize,
    fault: SheetFault,
) -> Result<&str, Slip>
    ensures found { IfOk result (λ text. as_str (view item.now) ≡ Some text.now) }
    ensures other { OnErr result (as_str (view item.now) ≡ None) }
    ensures slip { IfErr result (HasFault fault (Some number)) }
{
    match item.as_str() {
        Some(text) => Ok(text),
        None => refuse_item(fault, number, no_text_words(wording, item)),
    }
}

/// Why `value` is refused: it isn't a text, and a text is needed.
fn no_text_words(wording: Wording, value: &Value) -> Result<String, AllocError> {
    wording.fill(texts::TEXT_NEEDED, &[kind_of(wording.language, value)])
}

/// The items of the list `value`, or a slip if `value` isn't a list. `value` stands at `key`.
#[tactic(auto, using(kd_sheet::proofs::ReadBack::Described::KeyValues::Steps::items_found))]
pub fn items_of(wording: Wording, value: &Value, key: Key) -> Result<&[Value], Slip>
    ensures found { IfOk result (λ items. as_items (view value.now) ≡ Some (map view items.now)) }
    ensures other { OnErr result (as_items (view value.now) ≡ None) }
    ensures slip { IfErr result (HasFault (BadValue key) None) }
{
    match value.as_array() {
        Some(items) => Ok(items.as_slice()),
        None => refuse(
            SheetFault::BadValue(key),
            wording.fill(texts::LIST_NEEDED, &[kind_of(wording.language, value)]),
        ),
    }
}

/// The items of the list at `key`, or the reason why there is no list.
pub fn items_at(wording: Wording, table: &Table, key: Key) -> Result<&[Value], Slip>
    ensures found { IfOk result (λ items.
        option_and_then as_items (get_member (key_name key) (table_view table.now))
        ≡ Some (map view items.now)) }
    ensures other { OnErr result
        (option_and_then as_items (get_member (key_name key) (table_view table.now)) ≡ None) }
    ensures slip { IfErr result
        (HasFault (type_fault key (get_member (key_name key) (table_view table.now))) None) }
{
    items_of(wording, value_at(wording, table, key)?, key)
}

/// Checks that `len`, a list's number of items, is `count`.
///
/// If it isn't, the template `text` gives the refusal's words.
pub fn check_count(
    wording: Wording,
    key: Key,
    len: usize,
    count: usize,
    text: Text,
) -> Result<(), Slip>
    ensures same { OnOk result (len ≡ count) }
    ensures other { OnErr result (len ≢ count) }
    ensures slip { IfErr result (HasFault (BadValue key) None) }
{
    if len == count {
        return Ok(());
    }
    refuse(
        SheetFault::BadValue(key),
        other_len_words(wording, len, count, text),
    )
}

/// Checks that `len`, a list's number of items, is at most `most`.
///
/// If it isn't, the template `text` gives the refusal's words.
pub fn check_at_most(
    wording: Wording,
    key: Key,
    len: usize,
    most: usize,
    text: Text,
) -> Result<(), Slip>
    ensures few { OnOk result (len ≤ most) }
    ensures many { OnErr result (most < len) }
    ensures slip { IfErr result (HasFault (BadValue key) None) }
{
    if len <= most {
        return Ok(());
    }
    refuse(
        SheetFault::BadValue(key),
        other_len_words(wording, len, most, text),
    )
}

/// Why a list of `len` items is refused: the template `text`, filled with the number of items in words, and with
/// `count`.
fn other_len_words(
    wording: Wording,
    len: usize,
    count: usize,
    text: Text,
) -> Result<String, AllocError> {
    let items = items_words(wording, len)?;
    let mut buffer = Buffer::new();
    wording.fill(text, &[items.as_str(), buffer.format(count)])
}

/// `text` in backticks. If `text` is long, or has control characters, only its length in bytes.
#[tactic(auto, using(std::proofs::Common::append_assoc), unfolding(crate::specs::Shown::shown_text))]
pub fn shown(wording: Wording, text: &str) -> Result<String, AllocError>
    ensures { IfOk result (λ words. string_bytes words ≡ shown_text wording.language text.now) }
{
    if can_be_shown(text) {
        in_backticks(wording.alloc, text)
    } else {
        let mut buffer = Buffer::new();
        wording.fill(texts::LONG_TEXT, &[buffer.format(text.len())])
    }
}

/// `text` in backticks.
#[tactic(auto, using(std::proofs::Common::append_assoc))]
fn in_backticks(alloc: Global, text: &str) -> Result<String, AllocError>
    ensures { IfOk result (λ words. string_bytes words ≡ codes "`" ++ text.now ++ codes "`") }
{
    let mut words = String::new(alloc);
    words.push_str("`")?;
    words.push_str(text)?;
    words.push_str("`")?;
    Ok(words)
}

/// The number of items in a list, in words.
fn items_words(wording: Wording, len: usize) -> Result<String, AllocError> {
    let mut buffer = Buffer::new();
    match len {
        0 => wording.fill(texts::NONE_STANDS, &[]),
        1 => wording.fill(texts::ONE_STANDS, &[]),
        _ => wording.fill(texts::SEVERAL_STAND, &[buffer.format(len)]),
    }
}

/// Whether `text` has at most 40 bytes, none of which is a control character.
#[tactic(auto, unfolding(crate::specs::Shown::can_be_shown))]
fn can_be_shown(text: &str) -> bool
    ensures { result ≡ can_be_shown text.now }
{
    text.len() <= SHOWN && are_printed(text.as_bytes())
}

fn are_printed(bytes: &[u8]) -> bool
    ensures { result ≡ list_all is_printed bytes.now }
{
    bytes.iter().all(|byte| is_printed(*byte))
}

/// Whether `byte` isn't a control character.
fn is_printed(byte: u8) -> bool
    ensures { result ≡ is_printed byte }
{
    32 <= byte && byte != 127
}
