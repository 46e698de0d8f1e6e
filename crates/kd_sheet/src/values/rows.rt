//! Reads the rows of a day, from the key `rows`: the readings that the 27 bars must have.
ghost use Rattle.std.specs.Prelude.{◌≡◌, ◌+◌, ◌&&◌, nat_le, is_some, IfSome};
ghost use Rattle.toml.specs.View.{view, table_view};
ghost use Rattle.kd_sheet.specs.{Bars.{or_bad_row, reading_of_text, rows_in}, Document.{from_text}};

use super::bars::BARS;
use super::items::{FromItem, read_exactly};
use crate::{Key, SheetFault};
use kd_tables::Reading;
use toml::{Table, Value};

/// Reads an item as a row: the reading that a bar must have. The fault `BadRow` has the row's number, from 1.
impl FromItem<()> for Reading {
    ghost parse = { λ _. or_bad_row reading_of_text };

    fn read_item(_given: &(), earlier: &[Self], item: &Value) -> Result<Self, SheetFault> {
        reading_of_item(item).ok_or(SheetFault::BadRow(earlier.len() as u8 + 1))
    }
}

/// Reads a bar's reading, such as `0-3` or `3-0`: two different digits from 0 to 6, or `0-0`.
#[tactic(auto, unfolding(crate::specs::Bars::reading_of_text))]
pub fn reading_of_text(text: &[u8]) -> Option<Reading>
    ensures { result ≡ reading_of_text text.now }
{
    match text {
        [one, b'-', other] => Reading::new(digit_value(*one)?, digit_value(*other)?),
        _ => None,
    }
}

/// Reads the rows of a day: the readings that the 27 bars must have.
#[tactic(auto, unfolding(crate::specs::Bars::rows_in))]
pub fn rows_in(table: &Table) -> Result<[Reading; BARS], SheetFault>
    ensures { result ≡ rows_in (table_view table.now) }
{
    let rows = read_exactly(table, Key::Rows, BARS, &())?;
    Ok(rows.into_inner().ok().unwrap())
}

/// Reads `item` as a bar's reading.
fn reading_of_item(item: &Value) -> Option<Reading>
    ensures { result ≡ from_text reading_of_text (view item.now) }
{
    reading_of_text(item.as_str()?.as_bytes())
}

/// The number that `byte` means, if it is an ASCII digit from 0 to 6.
fn digit_value(byte: u8) -> Option<u8>
    ensures value { IfSome result (λ number. byte ≡ number + 48) }
    ensures exists { is_some result ≡ (nat_le 48 byte && nat_le byte 54) }
{
    byte.checked_sub(b'0').filter(|digit| *digit <= 6)
}
