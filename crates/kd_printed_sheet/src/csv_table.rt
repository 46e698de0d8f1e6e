//! The days of a key sheet as a CSV table for a spreadsheet. Each day has a row, and the first day comes first.
ghost use Rattle.std.specs.Prelude.{◌≡◌, flat_map, option_copied, Some, zip};
ghost use Rattle.kd_pictures.specs.Drawing.{Draws};
ghost use Rattle.kd_sheet.specs.Sheet.{day_of};
ghost use Rattle.kd_state.specs.Entry.{pin_values, rotor_values, values_of};
ghost use Rattle.kd_printed_sheet.specs.CsvTable.{csv_text, day_cells, day_line};
ghost use Rattle.kd_printed_sheet.specs.CsvTable.{effective_cell, effective_cells, effective_letter};
ghost use Rattle.kd_printed_sheet.specs.CsvTable.{has_lists, head_line, key_cells, list_cells, pin_line, rotor_line};
ghost use Rattle.kd_printed_sheet.specs.Words.{ring_text, words_text};

use crate::days::DAYS;
use crate::month_table::has_numbered_rings;
use crate::texts::{
    COLUMN_NAMES, COMMA, LIST_COLUMN_NAMES, NO_GROUPS, NO_LIST, PIN_MODEL, ROW_END,
};
use crate::words::{Ground, Item, RingLetter, RingNumber, SingleLetter, draw_words};
use itoa::Buffer;
use kd_pictures::draw;
use kd_pictures::template::{draw_letter, draw_letters};
use kd_pins::PinSet;
use kd_sheet::Sheet;
use kd_state::{Entry, PinEntry, RotorEntry, SheetDay, SheetWheel};
use kd_tables::{Letter, Model, Reading, Ring, Sink, ring1, ring2, ring3, ring4, ring5, ring6};

/// Writes the CSV table of the sheet's days.
#[tactic(auto, unfolding(crate::specs::CsvTable::csv_text))]
pub(crate) fn draw_csv<W: Sink>(sink: &mut W, sheet: &Sheet)
    ensures { Draws W.taken W.has_failed sink.old sink.new (csv_text sheet.now) }
{
    let has_lists = has_lists(sheet);
    draw_head(sink, has_lists);
    draw_lines(sink, has_lists, sheet, &DAYS);
}

/// Whether the sheet has a Converter's day.
#[tactic(auto, unfolding(crate::specs::CsvTable::has_lists))]
fn has_lists(sheet: &Sheet) -> bool
    ensures { result ≡ has_lists sheet.now }
{
    sheet.has_days_of(Model::M209)
}

/// Writes the names of the columns.
fn draw_head<W: Sink>(sink: &mut W, has_lists: bool)
    ensures { Draws W.taken W.has_failed sink.old sink.new (head_line has_lists) }
{
    draw(sink, COLUMN_NAMES);
    draw(sink, if has_lists { LIST_COLUMN_NAMES } else { "" });
    draw(sink, ROW_END);
}

fn draw_lines<W: Sink>(sink: &mut W, has_lists: bool, sheet: &Sheet, numbers: &[u8])
    ensures { Draws W.taken W.has_failed sink.old sink.new
        (flat_map (λ number. day_line has_lists (day_of sheet.now number)) numbers.now) }
{
    if let [number, rest @ ..] = numbers {
        draw_day(sink, has_lists, sheet.day(*number));
        draw_lines(sink, has_lists, sheet, rest);
    }
}

fn draw_day<W: Sink>(sink: &mut W, has_lists: bool, day: Option<&SheetDay>)
    ensures { Draws W.taken W.has_failed sink.old sink.new
        (day_line has_lists (option_copied day.entry)) }
{
    match day {
        Some(day) => draw_entry(sink, has_lists, day.entry()),
        None => {}
    }
}

fn draw_entry<W: Sink>(sink: &mut W, has_lists: bool, entry: &Entry)
    ensures { Draws W.taken W.has_failed sink.old sink.new
        (day_line has_lists (Some (values_of entry.now))) }
{
    match entry {
        Entry::Rotor(entry) => draw_rotor_line(sink, has_lists, entry),
        Entry::Pin(entry) => draw_pin_line(sink, entry),
    }
}

fn draw_rotor_line<W: Sink>(sink: &mut W, has_lists: bool, entry: &RotorEntry)
    ensures { Draws W.taken W.has_failed sink.old sink.new
        (rotor_line has_lists (rotor_values entry.now)) }
{
    draw_day_cells(sink, entry);
    draw_key_cells(sink, entry);
    draw_list_cells(sink, has_lists);
    draw(sink, ROW_END);
}

/// Writes the cells of the day, the model and the reflector.
fn draw_day_cells<W: Sink>(sink: &mut W, entry: &RotorEntry)
    ensures { Draws W.taken W.has_failed sink.old sink.new (day_cells (rotor_values entry.now)) }
{
    draw(sink, Buffer::new().format(entry.day));
    draw(sink, COMMA);
    draw(sink, entry.model.text().as_str());
    draw(sink, COMMA);
    draw(sink, entry.reflector.text().as_str());
}

/// Writes the cells of the wheels, the rings, the cables, the ground setting and the groups.
fn draw_key_cells<W: Sink>(sink: &mut W, entry: &RotorEntry)
    ensures { Draws W.taken W.has_failed sink.old sink.new (key_cells (rotor_values entry.now)) }
{
    let wheels = entry.wheels.as_slice();
    draw(sink, COMMA);
    draw_words::<Item, W, SheetWheel>(sink, wheels);
    draw(sink, COMMA);
    draw_rings(sink, has_numbered_rings(entry.model), wheels);
    draw(sink, COMMA);
    draw_words::<Item, W, (Letter, Letter)>(sink, entry.pairs.as_slice());
    draw(sink, COMMA);
    draw_words::<Ground, W, SheetWheel>(sink, wheels);
    draw(sink, COMMA);
    draw_words::<Item, W, [Letter; 3]>(sink, entry.groups.as_slice());
}

/// Writes the rings of the wheels, as numbers or as letters.
fn draw_rings<W: Sink>(sink: &mut W, are_numbers: bool, wheels: &[SheetWheel])
    ensures { Draws W.taken W.has_failed sink.old sink.new
        (words_text (ring_text are_numbers) wheels.now) }
{
    if are_numbers {
        draw_words::<RingNumber, W, SheetWheel>(sink, wheels);
    } else {
        draw_words::<RingLetter, W, SheetWheel>(sink, wheels);
    }
}

fn draw_list_cells<W: Sink>(sink: &mut W, has_lists: bool)
    ensures { Draws W.taken W.has_failed sink.old sink.new (list_cells has_lists) }
{
    draw(sink, if has_lists { NO_LIST } else { "" });
}

fn draw_pin_line<W: Sink>(sink: &mut W, entry: &PinEntry)
    ensures { Draws W.taken W.has_failed sink.old sink.new (pin_line (pin_values entry.now)) }
{
    draw(sink, Buffer::new().format(entry.day));
    draw(sink, PIN_MODEL);
    draw_words::<SingleLetter, W, Letter>(sink, &entry.window);
    draw(sink, NO_GROUPS);
    draw_letters(sink, &entry.list);
    draw_pins(sink, &entry.pins);
    draw(sink, COMMA);
    draw_words::<Item, W, Reading>(sink, &entry.rows);
    draw(sink, ROW_END);
}

/// Writes the cells of the six wheels, each with the letters of its effective pins.
fn draw_pins<W: Sink>(sink: &mut W, pins: &PinSet)
    ensures { Draws W.taken W.has_failed sink.old sink.new (effective_cells pins.now) }
{
    draw_wheel(sink, &ring1(), &pins.w1);
    draw_wheel(sink, &ring2(), &pins.w2);
    draw_wheel(sink, &ring3(), &pins.w3);
    draw_wheel(sink, &ring4(), &pins.w4);
    draw_wheel(sink, &ring5(), &pins.w5);
    draw_wheel(sink, &ring6(), &pins.w6);
}

/// Writes the cell of a pin wheel: the letters of its effective pins. `ring` has the wheel's letters, and `pins` says
/// which of its pins are effective.
fn draw_wheel<const N: usize, W: Sink>(sink: &mut W, ring: &Ring<N>, pins: &[bool])
    ensures { Draws W.taken W.has_failed sink.old sink.new (effective_cell ring.now pins.now) }
{
    draw(sink, COMMA);
    draw_effective(sink, &ring.letters(), pins);
}

fn draw_effective<W: Sink>(sink: &mut W, letters: &[Letter], pins: &[bool])
    ensures { Draws W.taken W.has_failed sink.old sink.new
        (flat_map effective_letter (zip letters.now pins.now)) }
{
    if let [letter, letters @ ..] = letters
        && let [effective, pins @ ..] = pins
    {
        draw_if(sink, *letter, *effective);
        draw_effective(sink, letters, pins);
    }
}

fn draw_if<W: Sink>(sink: &mut W, letter: Letter, effective: bool)
    ensures { Draws W.taken W.has_failed sink.old sink.new (effective_letter (letter, effective)) }
{
    if effective {
        draw_letter(sink, letter);
    }
}
