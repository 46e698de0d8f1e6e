//! Reads a key sheet: a TOML document with an array of days.
ghost use Rattle.kd_tables.specs.Answers.{AgreesOrNoMemory};
ghost use Rattle.std.specs.Prelude.{◌≡◌, map, List};
ghost use Rattle.toml.specs.View.{table_view, view};
ghost use Rattle.kd_state.specs.SheetDay.{Day};
ghost use Rattle.kd_sheet.specs.{Document.{read_items, result_map}, Sheet.{month_of}};
ghost use Rattle.kd_sheet.specs.SheetFile.{day_for, sheet_in, sheet_of};

pub(crate) mod day_entry;

use crate::document::{items_at, parse_table};
use crate::sheet::{DAYS, Sheet};
use crate::values::model::model_in;
use crate::values::numbers::number_at;
use crate::{Key, SheetFault};
use day_entry::day_in;
use kd_state::SheetDay;
use std::alloc::Global;
use toml::{Table, Value};

/// Reads a key sheet, or returns its first fault.
///
/// `NoMemory` may replace any other result: the contract doesn't say when memory runs out.
pub fn read_sheet(alloc: Global, bytes: &[u8]) -> Result<Sheet, SheetFault>
    ensures { AgreesOrNoMemory SheetFault.NoMemory (sheet_of bytes.now) result }
{
    sheet_in(&parse_table(alloc, bytes)?)
}

/// Reads a key sheet from the sheet's table, or returns the first fault.
pub fn sheet_in(table: &Table) -> Result<Sheet, SheetFault>
    ensures { result ≡ sheet_in (table_view table.now) }
{
    sheet_of_items(items_at(table, Key::Day)?)
}

/// Reads `items` as the days of a sheet.
#[tactic(auto, using(crate::proofs::ReadBack::Described::first_month, crate::proofs::ReadBack::Described::KeyValues::Steps::read_after_all))]
fn sheet_of_items(items: &[Value]) -> Result<Sheet, SheetFault>
    ensures { result ≡ result_map month_of (read_items day_for (map view items.now)) }
{
    let mut sheet = Sheet::new();
    for item in items {
        let day = day_for(&sheet, item)?;
        sheet.insert(day);
    }
    Ok(sheet)
}

/// Reads the day that `item` describes, or returns the item's first fault. `sheet` has the days of earlier items.
#[tactic(auto, using(crate::proofs::ReadBack::Described::day_of_is_some), unfolding(crate::specs::SheetFile::day_for))]
fn day_for(sheet: &Sheet, item: &Value) -> Result<SheetDay, SheetFault>
    ensures { (days : List Day) → sheet.now ≡ month_of days → result ≡ day_for days (view item.now) }
{
    let table = item.as_table().ok_or(SheetFault::BadValue(Key::Day))?;
    let number = number_at(table, Key::Day, DAYS)?;
    if sheet.day(number).is_some() {
        return Err(SheetFault::DayTwice(number));
    }
    day_in(table, number, model_in(table)?)
}
