//! Reads letters from texts of capital letters, and from numbers.
ghost use Rattle.std.specs.Prelude.{◌≡◌, ◌-◌, ◌<◌, ◌≤◌, length, map, nat_eq, IfSome, option_map};
ghost use Rattle.toml.specs.View.{view, table_view};
ghost use Rattle.kd_tables.specs.Tables.{slots_of};
ghost use Rattle.kd_sheet.specs.{Document.{from_text}, Letters.{capital_letters, letters_at}};
ghost use Rattle.kd_sheet.specs.Numbers.{number_up_to, letters_of_numbers};

use super::numbers::number_up_to;
use crate::document::value_at;
use crate::{Key, SheetFault};
use arrayvec::ArrayVec;
use kd_state::PerSlot;
use kd_tables::{Letter, Model};
use toml::{Table, Value};

/// Reads a text of exactly `count` capital letters, where `count` is at most `N`.
pub fn capital_letters<const N: usize>(value: &Value, count: usize) -> Option<ArrayVec<Letter, N>>
    requires { count ≤ N }
    ensures value { option_map (λ letters. letters.items) result
        ≡ from_text (capital_letters (nat_eq count)) (view value.now) }
    ensures count { IfSome result (λ letters. length letters.items ≡ count) }
{
    let text = value.as_str()?.as_bytes();
    if text.len() != count {
        return None;
    }
    let mut letters = ArrayVec::new();
    for byte in text {
        letters.push(Letter::from_byte(*byte)?);
    }
    Some(letters)
}

/// Reads a text of exactly `N` capital letters.
pub fn letters_of_text<const N: usize>(value: &Value) -> Option<[Letter; N]>
    requires { N ≤ 26 }
    ensures { result ≡ from_text (capital_letters (nat_eq N)) (view value.now) }
{
    capital_letters(value, N)?.into_inner().ok()
}

/// Reads the text at `key`: exactly `N` capital letters.
#[tactic(auto, unfolding(crate::specs::Letters::letters_at))]
pub fn letters_at<const N: usize>(table: &Table, key: Key) -> Result<[Letter; N], SheetFault>
    requires { N ≤ 26 }
    ensures { result ≡ letters_at key N (table_view table.now) }
{
    letters_of_text(value_at(table, key)?).ok_or(SheetFault::BadValue(key))
}

/// Reads a text with a capital letter for each slot of `model`.
pub fn slot_letters(value: &Value, model: Model) -> Option<PerSlot<Letter>>
    requires { 0 < slots_of model }
    ensures { result ≡ from_text (capital_letters (nat_eq (slots_of model))) (view value.now) }
{
    let letters = capital_letters::<4>(value, usize::from(model.slots()))?;
    PerSlot::new(letters.as_slice())
}

/// Reads an array with a number from 1 to 26 for each slot of `model`. 1 is A.
pub fn letters_of_numbers(items: &[Value], model: Model) -> Option<PerSlot<Letter>>
    requires { 0 < slots_of model }
    ensures { result ≡ letters_of_numbers (slots_of model) (map view items.now) }
{
    if items.len() != usize::from(model.slots()) {
        return None;
    }
    let mut letters = ArrayVec::<Letter, 4>::new();
    for item in items {
        letters.push(letter_of_number(item)?);
    }
    PerSlot::new(letters.as_slice())
}

/// Reads a number from 1 to 26 as a letter. 1 is A.
fn letter_of_number(item: &Value) -> Option<Letter>
    ensures { result ≡ option_map (λ number. number - 1) (number_up_to 26 (view item.now)) }
{
    Letter::new(number_up_to(item, 26)? - 1)
}
