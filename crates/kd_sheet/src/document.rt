//! Parses a TOML document, and finds values, texts and arrays in the document's table.
ghost use Rattle.kd_tables.specs.Answers.{AgreesOrNoMemory};
ghost use Rattle.std.specs.Prelude.{◌≡◌, map, ok_or, option_map};
ghost use Rattle.toml.specs.{Data.{get_member, as_str}, View.{view, table_view}};
ghost use Rattle.kd_sheet.specs.Document.{result_map, document_of, value_at, read_at, as_items};
ghost use Rattle.kd_sheet.specs.Key.{key_name};
ghost use Rattle.kd_sheet.specs.declared.fault.SheetFault.TheVariants as faults;

use crate::{Key, SheetFault};
use std::alloc::Global;
use toml::value::Array;
use toml::{Table, Value};

/// Parses `bytes` as a TOML document.
#[tactic(auto, using(crate::proofs::ReadBack::Described::KeyValues::Steps::document_parsed, crate::proofs::ReadBack::Described::KeyValues::Steps::document_refused))]
pub fn parse_table(alloc: Global, bytes: &[u8]) -> Result<Table, SheetFault>
    ensures { AgreesOrNoMemory SheetFault.NoMemory
        (document_of bytes.now) (result_map table_view result) }
{
    match toml::table_from_slice(alloc, bytes) {
        Ok(table) => Ok(table),
        Err(error) if error.is_memory() => Err(SheetFault::NoMemory),
        Err(_) => Err(SheetFault::NotToml),
    }
}

/// The value at `key`, if the table has one.
pub fn find_at(table: &Table, key: Key) -> Option<&Value>
    ensures { option_map (λ value. view value.now) result
        ≡ get_member (key_name key) (table_view table.now) }
{
    table.get(key.name())
}

/// The value at `key`, or the fault `Missing`.
pub fn value_at(table: &Table, key: Key) -> Result<&Value, SheetFault>
    ensures { result_map (λ value. view value.now) result ≡ value_at key (table_view table.now) }
{
    find_at(table, key).ok_or(SheetFault::Missing(key))
}

/// The text at `key`, or the fault `Missing` or `BadValue`.
pub fn text_at(table: &Table, key: Key) -> Result<&str, SheetFault>
    ensures { result_map (λ text. text.now) result ≡ read_at key as_str (table_view table.now) }
{
    let value = value_at(table, key)?;
    value.as_str().ok_or(SheetFault::BadValue(key))
}

/// The items of the array `value`, or the fault `BadValue(key)`.
#[tactic(auto, using(crate::proofs::ReadBack::Described::KeyValues::Steps::items_found))]
pub fn array_items(value: &Value, key: Key) -> Result<&Array, SheetFault>
    ensures { result_map (λ items. map view items.now.items) result
        ≡ ok_or (as_items (view value.now)) (faults.BadValue key) }
{
    value.as_array().ok_or(SheetFault::BadValue(key))
}

/// The items of the array at `key`, or the fault `Missing` or `BadValue`.
pub fn items_at(table: &Table, key: Key) -> Result<&Array, SheetFault>
    ensures { result_map (λ items. map view items.now.items) result
        ≡ read_at key as_items (table_view table.now) }
{
    array_items(value_at(table, key)?, key)
}
