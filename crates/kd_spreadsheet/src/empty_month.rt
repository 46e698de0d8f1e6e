//! Writes a key sheet to fill in.
ghost use Rattle.std.specs.{Prelude.{◌≡◌, ◌+◌, ◌*◌, ◌<◌, ◌≤◌, ◌||◌, ◌++◌, map, length, is_err}, List.{concat, range_with_len}};
ghost use Rattle.arrayvec.specs.ArrayString.{array_string_len};
ghost use Rattle.kd_tables.specs.{Tables.{slots_of}, Writing.{Writes}};
ghost use Rattle.kd_sheet.specs.SheetText.{section_text, sections_text};
ghost use Rattle.kd_spreadsheet.specs.EmptySheet.{unknown_line, unknown_items_line, empty_rotor_lines, empty_pin_lines};
ghost use Rattle.kd_spreadsheet.specs.EmptySheet.{empty_day_lines, empty_month_text};

use crate::sheet_writer::push_day_head;
use kd_sheet::Key;
use kd_sheet::writing::item_text::ItemString;
use kd_sheet::writing::lines::{FileString, push_list_line, push_text_line};
use kd_tables::{Device, Family, Model, Sink, put_all};

/// Writes a key sheet to fill in, with `days` days of `model`. In the sheet, `?` stands for each missing letter and
/// number.
///
/// A day that still has a `?` is refused. On the fault `Device`, the sink has taken a prefix of the text.
#[tactic(auto, unfolding(crate::specs::EmptySheet::empty_month_text))]
pub fn write_empty_month<W: Sink>(sink: &mut W, model: Model, days: u8) -> Result<(), Device>
    requires { days ≤ 31 }
    ensures text { Writes (W.taken sink.old) (W.taken sink.new) (empty_month_text model days) result }
    ensures failed { W.has_failed sink.new ≡ (W.has_failed sink.old || is_err result) }
{
    put_empty(sink, false, model, 1, days)
}

/// Writes the sections of `count` days. The first is day `number`.
fn put_empty<W: Sink>(
    sink: &mut W,
    started: bool,
    model: Model,
    number: u8,
    count: u8,
) -> Result<(), Device>
    requires { number + count < 256 }
    ensures text { Writes (W.taken sink.old) (W.taken sink.new)
        (sections_text started (map (empty_day_lines model) (range_with_len number count))) result }
    ensures failed { W.has_failed sink.new ≡ (W.has_failed sink.old || is_err result) }
{
    if count == 0 {
        return Ok(());
    }
    let section = empty_section(started, model, number);
    match put_all(sink, section.as_str().as_bytes()) {
        Ok(()) => put_empty(sink, true, model, number + 1, count - 1),
        Err(Device) => Err(Device),
    }
}

/// The section of a day to fill in: `[[day]]` and the day's lines. If `started` is true, an empty line stands before
/// the section.
fn empty_section(started: bool, model: Model, number: u8) -> FileString
    ensures { result.bytes ≡ section_text started (empty_day_lines model number) }
{
    let mut text = FileString::new();
    text.push_str(if started { "\n[[day]]\n" } else { "[[day]]\n" });
    push_empty_day(&mut text, model, number);
    text
}

/// Appends all lines of day `number` for `model`, with `?` for each missing letter and number.
fn push_empty_day(text: &mut FileString, model: Model, number: u8)
    requires { array_string_len text.old ≤ 16 }
    ensures { text.new.bytes ≡ text.old.bytes ++ concat (empty_day_lines model number) }
{
    push_day_head(text, number, model);
    match model.family() {
        Family::Rotor => push_empty_rotor(text, model),
        Family::Pin => push_empty_pin(text),
    }
}

/// Appends the lines that follow the number and the model of a Converter's day.
fn push_empty_pin(text: &mut FileString)
    requires { array_string_len text.old ≤ 64 }
    ensures { text.new.bytes ≡ text.old.bytes ++ concat empty_pin_lines }
{
    push_unknown(text, Key::List, 2);
    push_unknown_items::<6>(text, Key::Pins, "?");
    push_unknown(text, Key::Window, 6);
    push_unknown_items::<27>(text, Key::Rows, "?-?");
}

/// Appends a TOML line that gives the key `key` a text of `count` question marks.
#[tactic(auto, unfolding(crate::specs::EmptySheet::unknown_line))]
fn push_unknown(text: &mut FileString, key: Key, count: u8)
    requires room { array_string_len text.old + 24 ≤ 2048 }
    requires few { count ≤ 6 }
    ensures bytes { text.new.bytes ≡ text.old.bytes ++ unknown_line key count }
    ensures len { array_string_len text.new ≤ array_string_len text.old + 24 }
{
    let letters = match count {
        0 => "",
        1 => "?",
        2 => "??",
        3 => "???",
        4 => "????",
        5 => "?????",
        _ => "??????",
    };
    push_text_line(text, key, letters);
}

/// Appends the line of the TOML key `key`. Its value is an array of `N` items, each written as `item`.
#[tactic(auto, unfolding(crate::specs::EmptySheet::unknown_items_line))]
fn push_unknown_items<const N: usize>(text: &mut FileString, key: Key, item: &str)
    requires room { array_string_len text.old + 36 * N + 15 ≤ 2048 }
    requires short { length item.now ≤ 32 }
    ensures bytes { text.new.bytes ≡ text.old.bytes ++ unknown_items_line key N item.now }
    ensures len { array_string_len text.new ≤ array_string_len text.old + 36 * N + 15 }
{
    let item = ItemString::from(item).unwrap();
    push_list_line(text, key, &[item; N]);
}

/// Appends the lines that follow the number and the model of a rotor machine's day.
fn push_empty_rotor(text: &mut FileString, model: Model)
    requires room { array_string_len text.old ≤ 64 }
    requires slots { 0 < slots_of model }
    ensures { text.new.bytes ≡ text.old.bytes ++ concat (empty_rotor_lines (slots_of model)) }
{
    let slots = model.slots();
    push_unknown(text, Key::Reflector, 1);
    if slots == 3 {
        push_unknown_items::<3>(text, Key::Wheels, "?");
    } else {
        push_unknown_items::<4>(text, Key::Wheels, "?");
    }
    push_unknown(text, Key::Rings, slots);
    push_unknown(text, Key::Window, slots);
    push_unknown_items::<10>(text, Key::Plugs, "??");
    push_unknown_items::<4>(text, Key::Groups, "???");
}
