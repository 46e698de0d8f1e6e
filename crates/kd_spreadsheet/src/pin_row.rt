//! Reads a row as a Converter's day.
ghost use Rattle.std.specs.Prelude.{◌≡◌, MatchOption, Some, option_map};
ghost use Rattle.std.specs.Option.{option_and_then};
ghost use Rattle.csv.specs.Records.{fields_of};
ghost use Rattle.kd_state.specs.SheetDay.{Pin};
ghost use Rattle.kd_spreadsheet.specs.Items.{exactly, letters_in, readings_in};
ghost use Rattle.kd_spreadsheet.specs.PinRow.{pins_after, pins_at, pins_in, pin_values};
ghost use Rattle.kd_options.specs.TableOptions.{texts_of};
ghost use Rattle.kd_spreadsheet.specs.Row.{IsNoDay};

use crate::columns::{Columns, cell_at, cell_or};
use crate::items::{joined, number_in, values_in};
use csv::ByteRecord;
use kd_options::TableOptions;
use kd_pins::PinSet;
use kd_sheet::pins_of_text;
use kd_state::SheetDay;
use kd_tables::{Letter, Reading, Ring, ring1, ring2, ring3, ring4, ring5, ring6};

/// Reads a row as a Converter's day. `None` if the row doesn't have a legal day.
#[tactic(auto, unfolding(crate::specs::PinRow::pin_values))]
pub fn pin_day(
    options: &TableOptions<&[u8]>,
    columns: &Columns,
    row: &ByteRecord,
) -> Option<SheetDay>
    ensures { MatchOption result
        (IsNoDay (option_map Pin (pin_values (texts_of options.now) columns.now (fields_of row.now))))
        (λ day. option_map Pin (pin_values (texts_of options.now) columns.now (fields_of row.now))
        ≡ Some day) }
{
    let number = number_in(cell_at(row, columns.day))?;
    let list = letters_in::<2>(cell_at(row, columns.list))?;
    let pins = pins_in(columns, row)?;
    let window = letters_in::<6>(cell_or(options.window, row, columns.window))?;
    let rows = bars_in(cell_at(row, columns.bars))?;
    SheetDay::pin(number, rows, pins, window, list)
}

/// The letters in a cell. `None` if there aren't exactly `N` letters.
fn letters_in<const N: usize>(text: &[u8]) -> Option<[Letter; N]>
    ensures { result ≡ option_and_then (exactly N) (letters_in text.now) }
{
    let letters = values_in::<Letter>(text)?;
    <[Letter; N]>::try_from(letters.as_slice()).ok()
}

/// The pins of all six wheels in a row; `None` if the pins of a wheel can't be read.
#[tactic(auto, unfolding(crate::specs::PinRow::pins_in))]
fn pins_in(columns: &Columns, row: &ByteRecord) -> Option<PinSet>
    ensures { result ≡ pins_in columns.now.pins (fields_of row.now) }
{
    let w1 = pins_at(&ring1(), columns.pins[0], row)?;
    let w2 = pins_at(&ring2(), columns.pins[1], row)?;
    let w3 = pins_at(&ring3(), columns.pins[2], row)?;
    pins_after(columns, row, w1, w2, w3)
}

/// The pins of the wheel with the letters `ring`. The cell in column `column` has the letters of the wheel's effective
/// pins.
fn pins_at<const N: usize>(
    ring: &Ring<N>,
    column: Option<usize>,
    row: &ByteRecord,
) -> Option<[bool; N]>
    ensures { result ≡ pins_at ring.now column (fields_of row.now) }
{
    let place = column?;
    let text = joined(cell_at(row, Some(place)))?;
    pins_of_text(ring, text.as_slice())
}

/// The pins of all six wheels. Wheels 1 to 3 have the pins `w1`, `w2` and `w3`. The pins of wheels 4 to 6 come from the
/// cells of `row`.
fn pins_after(
    columns: &Columns,
    row: &ByteRecord,
    w1: [bool; 26],
    w2: [bool; 25],
    w3: [bool; 23],
) -> Option<PinSet>
    ensures { result ≡ pins_after columns.now.pins (fields_of row.now) w1 w2 w3 }
{
    let w4 = pins_at(&ring4(), columns.pins[3], row)?;
    let w5 = pins_at(&ring5(), columns.pins[4], row)?;
    let w6 = pins_at(&ring6(), columns.pins[5], row)?;
    Some(PinSet {
        w1,
        w2,
        w3,
        w4,
        w5,
        w6,
    })
}

/// The readings in a cell. `None` if there isn't one reading for each bar.
fn bars_in(text: &[u8]) -> Option<[Reading; 27]>
    ensures { result ≡ option_and_then (exactly 27) (readings_in text.now) }
{
    let rows = values_in::<Reading>(text)?;
    <[Reading; 27]>::try_from(rows.as_slice()).ok()
}
