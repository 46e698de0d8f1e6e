//! Writes the lines of machine files and key sheets: each is a key, `=` and a value.
ghost use Rattle.std.specs.{Prelude.{codes, decimal, ◌≡◌, ◌+◌, ◌*◌, ◌≤◌, ◌++◌, map, length}, List.{flat_map, join_by}};
ghost use Rattle.arrayvec.specs.ArrayString.{array_string_len};
ghost use Rattle.kd_sheet.specs.{Key.{key_name}, MachineText.{quoted_text, array_text, key_line}};

use super::item_text::ItemText;
use crate::Key;
use arrayvec::ArrayString;
use kd_tables::push_number;

/// A text of at most 2048 bytes: a machine file, or one day of a key sheet.
pub type FileString = ArrayString<2048>;

/// Appends a line: `key`, ` = ` and `number`.
pub fn push_number_line(text: &mut FileString, key: Key, number: u8)
    requires { array_string_len text.old + 16 ≤ 2048 }
    ensures bytes { text.new.bytes ≡ text.old.bytes ++ key_line key (decimal number) }
    ensures len { array_string_len text.new ≤ array_string_len text.old + 16 }
{
    push_key(text, key);
    push_number(text, number);
    text.push_str("\n");
}

/// Appends a line: `key`, ` = ` and `value` in double quotes.
pub fn push_text_line(text: &mut FileString, key: Key, value: &str)
    requires { array_string_len text.old + length value.now + 15 ≤ 2048 }
    ensures bytes { text.new.bytes ≡ text.old.bytes ++ key_line key (quoted_text value.now) }
    ensures len { array_string_len text.new ≤ array_string_len text.old + length value.now + 15 }
{
    push_key(text, key);
    push_quoted(text, value);
    text.push_str("\n");
}

/// Appends a line: `key`, ` = ` and an array of the texts of `items`.
pub fn push_list_line<T: ItemText>(text: &mut FileString, key: Key, items: &[T])
    requires { array_string_len text.old + 36 * length items.now + 15 ≤ 2048 }
    ensures bytes { text.new.bytes
        ≡ text.old.bytes ++ key_line key (array_text (map T.item_text items.now)) }
    ensures len { array_string_len text.new ≤ array_string_len text.old + 36 * length items.now + 15 }
{
    push_key(text, key);
    text.push_str("[");
    push_items(text, items);
    text.push_str("]\n");
}

/// Appends `key` and ` = `.
fn push_key(text: &mut FileString, key: Key)
    requires { array_string_len text.old + 12 ≤ 2048 }
    ensures bytes { text.new.bytes ≡ text.old.bytes ++ (key_name key ++ codes " = ") }
    ensures len { array_string_len text.new ≤ array_string_len text.old + 12 }
{
    text.push_str(key.name());
    text.push_str(" = ");
}

/// Appends the texts of `items` in double quotes, with a comma and a space between them.
fn push_items<T: ItemText>(text: &mut FileString, items: &[T])
    requires { array_string_len text.old + 36 * length items.now ≤ 2048 }
    ensures bytes { text.new.bytes
        ≡ text.old.bytes ++ join_by quoted_text (codes ", ") (map T.item_text items.now) }
    ensures len { array_string_len text.new ≤ array_string_len text.old + 36 * length items.now }
{
    if let [first, rest @ ..] = items {
        push_quoted(text, first.item_text().as_str());
        push_more_items(text, rest);
    }
}

/// Appends the texts of `items` in double quotes, each after a comma and a space.
fn push_more_items<T: ItemText>(text: &mut FileString, items: &[T])
    requires { array_string_len text.old + 36 * length items.now ≤ 2048 }
    ensures bytes { text.new.bytes ≡ text.old.bytes ++ flat_map
        (λ text. codes ", " ++ quoted_text text) (map T.item_text items.now) }
    ensures len { array_string_len text.new ≤ array_string_len text.old + 36 * length items.now }
{
    if let [first, rest @ ..] = items {
        text.push_str(", ");
        push_quoted(text, first.item_text().as_str());
        push_more_items(text, rest);
    }
}

/// Appends `value` in double quotes.
fn push_quoted(text: &mut FileString, value: &str)
    requires { array_string_len text.old + length value.now + 2 ≤ 2048 }
    ensures bytes { text.new.bytes ≡ text.old.bytes ++ quoted_text value.now }
    ensures len { array_string_len text.new ≡ array_string_len text.old + length value.now + 2 }
{
    text.push_str("\"");
    text.push_str(value);
    text.push_str("\"");
}
