//! Reads whole numbers from 1 to a limit.
ghost use Rattle.std.specs.Prelude.{◌≡◌, ◌≤◌, IfOk, IfSome};
ghost use Rattle.toml.specs.View.{view, table_view};
ghost use Rattle.kd_sheet.specs.{Document.{read_at}, Numbers.{number_up_to}};

use crate::document::value_at;
use crate::{Key, SheetFault};
use toml::{Table, Value};

/// Reads `value` as a whole number from 1 to `last`.
pub fn number_up_to(value: &Value, last: u8) -> Option<u8>
    ensures value { result ≡ number_up_to last (view value.now) }
    ensures within { IfSome result (λ number. (1 ≤ number) × (number ≤ last)) }
{
    let number = u8::try_from(value.as_integer()?).ok()?;
    (1 <= number && number <= last).then_some(number)
}

/// Reads the whole number at `key`, which must be from 1 to `last`.
pub fn number_at(table: &Table, key: Key, last: u8) -> Result<u8, SheetFault>
    ensures value { result ≡ read_at key (number_up_to last) (table_view table.now) }
    ensures within { IfOk result (λ number. (1 ≤ number) × (number ≤ last)) }
{
    number_up_to(value_at(table, key)?, last).ok_or(SheetFault::BadValue(key))
}
