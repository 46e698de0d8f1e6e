//! A month's table for a model of rotor machine. Each day has a row, and the last day comes first.
ghost use Rattle.std.specs.Prelude.{◌≡◌, flat_map, option_copied, Some};
ghost use Rattle.kd_pictures.specs.Drawing.{Draws};
ghost use Rattle.kd_sheet.specs.Sheet.{day_of};
ghost use Rattle.kd_state.specs.Entry.{rotor_values, values_of};
ghost use Rattle.kd_printed_sheet.specs.MonthTable.{has_numbered_rings, month_head, month_table, ring_cell};
ghost use Rattle.kd_printed_sheet.specs.MonthTable.{row_of, row_text, setting_cells, span_text, table_of_days};
ghost use Rattle.kd_printed_sheet.specs.MonthTable.{table_text, wheel_cell, word_cells};

use crate::days::{days_of, first_of};
use crate::texts::{
    CELL, COLUMNS, FIRST_TO_LAST, MONTH, MONTH_END, ONE_DAY, RING, ROW, ROW_END, WHEEL,
};
use crate::words::{Ground, Item, draw_words};
use kd_language::Language;
use kd_pictures::draw;
use kd_pictures::template::{Value, fill, fill_in};
use kd_sheet::Sheet;
use kd_state::{Entry, RotorEntry, SheetDay, SheetWheel};
use kd_tables::{Letter, Model, Sink};

/// Writes the table of the sheet's days for `model`. If the sheet has no day for `model`, writes nothing.
#[tactic(auto, unfolding(crate::specs::MonthTable::month_table))]
pub(crate) fn draw_month<W: Sink>(sink: &mut W, language: Language, model: Model, sheet: &Sheet)
    ensures { Draws W.taken W.has_failed sink.old sink.new (month_table language model sheet.now) }
{
    let days = days_of(model, sheet);
    draw_days(sink, language, model, sheet, days.as_slice());
}

/// Whether the model's key sheets give rings as numbers, and not as letters.
pub(crate) fn has_numbered_rings(model: Model) -> bool
    ensures { result ≡ has_numbered_rings model }
{
    match model {
        Model::EnigmaI => true,
        Model::M3 | Model::M4 | Model::M209 => false,
    }
}

/// Writes the table of the days `days`, which stand in falling order.
fn draw_days<W: Sink>(sink: &mut W, language: Language, model: Model, sheet: &Sheet, days: &[u8])
    ensures { Draws W.taken W.has_failed sink.old sink.new
        (table_of_days language model sheet.now days.now) }
{
    if let [last, earlier @ ..] = days {
        draw_table(sink, language, model, sheet, *last, earlier);
    }
}

/// Writes the table of the day `last` and of the days `earlier`, which stand in falling order.
fn draw_table<W: Sink>(
    sink: &mut W,
    language: Language,
    model: Model,
    sheet: &Sheet,
    last: u8,
    earlier: &[u8],
)
    ensures { Draws W.taken W.has_failed sink.old sink.new
        (table_text language model sheet.now last earlier.now) }
{
    draw_month_head(sink, language, model, last, earlier);
    draw_day(sink, language, sheet.day(last));
    draw_rows(sink, language, sheet, earlier);
    draw(sink, MONTH_END);
}

fn draw_month_head<W: Sink>(
    sink: &mut W,
    language: Language,
    model: Model,
    last: u8,
    earlier: &[u8],
)
    ensures { Draws W.taken W.has_failed sink.old sink.new
        (month_head language model last earlier.now) }
{
    let slots = u16::from(model.slots());
    fill_in(sink, language, MONTH, &[Value::Model(model)]);
    draw_span(sink, language, last, earlier);
    fill_in(
        sink,
        language,
        COLUMNS,
        &[
            Value::Number(slots),
            Value::Number(slots),
            Value::Number(slots),
            Value::Number(slots),
        ],
    );
}

/// Writes the words for the days of a table: one day, or the first day and the last day.
fn draw_span<W: Sink>(sink: &mut W, language: Language, last: u8, earlier: &[u8])
    ensures { Draws W.taken W.has_failed sink.old sink.new (span_text language last earlier.now) }
{
    let last_number = Value::Number(u16::from(last));
    if let [_, ..] = earlier {
        let first = Value::Number(u16::from(first_of(last, earlier)));
        fill_in(sink, language, FIRST_TO_LAST, &[first, last_number]);
    } else {
        fill_in(sink, language, ONE_DAY, &[last_number]);
    }
}

fn draw_rows<W: Sink>(sink: &mut W, language: Language, sheet: &Sheet, days: &[u8])
    ensures { Draws W.taken W.has_failed sink.old sink.new
        (flat_map (λ number. row_of (day_of sheet.now number)) days.now) }
{
    if let [number, rest @ ..] = days {
        draw_day(sink, language, sheet.day(*number));
        draw_rows(sink, language, sheet, rest);
    }
}

/// Writes the row of a rotor machine's day; nothing for a Converter's day, or for no day.
fn draw_day<W: Sink>(sink: &mut W, language: Language, day: Option<&SheetDay>)
    ensures { Draws W.taken W.has_failed sink.old sink.new (row_of (option_copied day.entry)) }
{
    match day {
        Some(day) => draw_entry(sink, language, day.entry()),
        None => {}
    }
}

fn draw_entry<W: Sink>(sink: &mut W, language: Language, entry: &Entry)
    ensures { Draws W.taken W.has_failed sink.old sink.new (row_of (Some (values_of entry.now))) }
{
    match entry {
        Entry::Rotor(entry) => draw_row(sink, language, entry),
        Entry::Pin(_) => {}
    }
}

fn draw_row<W: Sink>(sink: &mut W, language: Language, entry: &RotorEntry)
    ensures { Draws W.taken W.has_failed sink.old sink.new (row_text (rotor_values entry.now)) }
{
    draw_setting_cells(sink, language, entry);
    draw_word_cells(sink, entry);
}

/// Writes the cells of the day, the reflector, the wheels and their rings.
fn draw_setting_cells<W: Sink>(sink: &mut W, language: Language, entry: &RotorEntry)
    ensures { Draws W.taken W.has_failed sink.old sink.new (setting_cells (rotor_values entry.now)) }
{
    let wheels = entry.wheels.as_slice();
    let day = Value::Number(u16::from(entry.day));
    fill(
        sink,
        language,
        ROW,
        &[day, Value::Reflector(entry.reflector)],
    );
    draw_wheels(sink, language, wheels);
    draw_rings(sink, language, has_numbered_rings(entry.model), wheels);
}

/// Writes the cells of the cables, the ground setting and the groups.
fn draw_word_cells<W: Sink>(sink: &mut W, entry: &RotorEntry)
    ensures { Draws W.taken W.has_failed sink.old sink.new (word_cells (rotor_values entry.now)) }
{
    draw(sink, CELL);
    draw_words::<Item, W, (Letter, Letter)>(sink, entry.pairs.as_slice());
    draw(sink, CELL);
    draw_words::<Ground, W, SheetWheel>(sink, entry.wheels.as_slice());
    draw(sink, CELL);
    draw_words::<Item, W, [Letter; 3]>(sink, entry.groups.as_slice());
    draw(sink, ROW_END);
}

fn draw_wheels<W: Sink>(sink: &mut W, language: Language, wheels: &[SheetWheel])
    ensures { Draws W.taken W.has_failed sink.old sink.new (flat_map wheel_cell wheels.now) }
{
    if let [wheel, rest @ ..] = wheels {
        fill(sink, language, WHEEL, &[Value::Wheel(wheel.wheel)]);
        draw_wheels(sink, language, rest);
    }
}

/// Writes the rings of the wheels, as numbers or as letters.
fn draw_rings<W: Sink>(sink: &mut W, language: Language, are_numbers: bool, wheels: &[SheetWheel])
    ensures { Draws W.taken W.has_failed sink.old sink.new
        (flat_map (ring_cell are_numbers) wheels.now) }
{
    if let [wheel, rest @ ..] = wheels {
        draw_ring(sink, language, are_numbers, wheel);
        draw_rings(sink, language, are_numbers, rest);
    }
}

fn draw_ring<W: Sink>(sink: &mut W, language: Language, is_number: bool, wheel: &SheetWheel)
    ensures { Draws W.taken W.has_failed sink.old sink.new (ring_cell is_number wheel.now) }
{
    if is_number {
        fill(sink, language, RING, &[Value::Ordinal(wheel.ring)]);
    } else {
        fill(sink, language, RING, &[Value::Letter(wheel.ring)]);
    }
}
