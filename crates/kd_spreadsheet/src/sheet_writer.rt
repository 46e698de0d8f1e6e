//! Writes key sheets, for all models.
ghost use Rattle.std.specs.{Prelude.{◌≡◌, ◌≤◌, ◌||◌, ◌++◌, map, length, is_err}, List.{concat}};
ghost use Rattle.arrayvec.specs.ArrayString.{array_string_len};
ghost use Rattle.kd_tables.specs.{Text.{letters_text}, Writing.{Writes}};
ghost use Rattle.kd_state.specs.{SheetDay.{IsLegalRotorDay, IsLegalPinDay}, Entry.{rotor_values, pin_values}};
ghost use Rattle.kd_sheet.specs.SheetText.{day_head_lines, wheels_lines, plugs_lines, converter_lines, day_lines};
ghost use Rattle.kd_sheet.specs.SheetText.{rotor_day_lines, pin_day_lines, section_text, sections_text, sheet_text};

use kd_sheet::Key;
use kd_sheet::writing::item_text::ItemString;
use kd_sheet::writing::letters::{pin_texts, push_letters_line};
use kd_sheet::writing::lines::{FileString, push_list_line, push_number_line, push_text_line};
use kd_state::{Entry, PinEntry, RotorEntry, SheetDay, SheetWheel};
use kd_tables::{Device, Model, Sink, push_letter, put_all};

/// Writes the key sheet with the days `days`, in this order.
///
/// On the fault `Device`, the sink has taken a prefix of the text. If there is a day, and all days have different
/// numbers, `read_sheet` reads exactly these days in the text. The law `written_sheets_are_read_back` of `kd_sheet`
/// says so.
#[tactic(auto, unfolding(kd_sheet::specs::SheetText::sheet_text))]
pub fn write_sheet<W: Sink>(sink: &mut W, days: &[SheetDay]) -> Result<(), Device>
    ensures text { Writes (W.taken sink.old) (W.taken sink.new) (sheet_text days.now) result }
    ensures failed { W.has_failed sink.new ≡ (W.has_failed sink.old || is_err result) }
{
    put_sections(sink, false, days)
}

/// Appends the first two lines of a day: the day's number, and its model.
pub fn push_day_head(text: &mut FileString, number: u8, model: Model)
    requires { array_string_len text.old ≤ 16 }
    ensures bytes { text.new.bytes ≡ text.old.bytes ++ concat (day_head_lines number model) }
    ensures len { array_string_len text.new ≤ 64 }
{
    push_number_line(text, Key::Day, number);
    push_text_line(text, Key::Model, model.text().as_str());
}

/// Writes the sections of `days`. If `started` is true, an empty line stands before the first section.
fn put_sections<W: Sink>(sink: &mut W, started: bool, days: &[SheetDay]) -> Result<(), Device>
    ensures text { Writes (W.taken sink.old) (W.taken sink.new)
        (sections_text started (map day_lines days.now)) result }
    ensures failed { W.has_failed sink.new ≡ (W.has_failed sink.old || is_err result) }
{
    match days {
        [day, rest @ ..] => {
            let section = section_of(started, day);
            match put_all(sink, section.as_str().as_bytes()) {
                Ok(()) => put_sections(sink, true, rest),
                Err(Device) => Err(Device),
            }
        }
        [] => Ok(()),
    }
}

/// The section of `day`: the line `[[day]]`, and the day's lines. If `started` is true, an empty line stands before the
/// section.
fn section_of(started: bool, day: &SheetDay) -> FileString
    ensures { result.bytes ≡ section_text started (day_lines day.now) }
{
    let mut text = FileString::new();
    text.push_str(if started { "\n[[day]]\n" } else { "[[day]]\n" });
    match day.entry() {
        Entry::Rotor(entry) => push_rotor_day(&mut text, entry),
        Entry::Pin(entry) => push_pin_day(&mut text, entry),
    }
    text
}

fn push_rotor_day(text: &mut FileString, entry: &RotorEntry)
    requires legal { IsLegalRotorDay (rotor_values entry.now) }
    requires room { array_string_len text.old ≤ 16 }
    ensures { text.new.bytes ≡ text.old.bytes ++ concat (rotor_day_lines (rotor_values entry.now)) }
{
    push_day_head(text, entry.day, entry.model);
    push_wheels_lines(text, entry);
    push_plugs_lines(text, entry);
}

/// Appends the lines of the reflector, and of the wheels with their rings and window letters.
fn push_wheels_lines(text: &mut FileString, entry: &RotorEntry)
    requires { array_string_len text.old ≤ 64 }
    ensures bytes { text.new.bytes ≡ text.old.bytes ++ concat (wheels_lines (rotor_values entry.now)) }
    ensures len { array_string_len text.new ≤ 400 }
{
    let wheels = entry.wheels.as_slice();
    push_text_line(text, Key::Reflector, entry.reflector.text().as_str());
    push_list_line(text, Key::Wheels, wheels);
    push_text_line(text, Key::Rings, rings_text(wheels).as_str());
    push_text_line(text, Key::Window, window_text(wheels).as_str());
}

/// The rings of `wheels`, as letters.
fn rings_text(wheels: &[SheetWheel]) -> ItemString
    requires { length wheels.now ≤ 32 }
    ensures { result.bytes ≡ letters_text (map (λ w. w.ring) wheels.now) }
{
    let mut text = ItemString::new();
    for wheel in wheels {
        push_letter(&mut text, wheel.ring);
    }
    text
}

fn window_text(wheels: &[SheetWheel]) -> ItemString
    requires { length wheels.now ≤ 32 }
    ensures { result.bytes ≡ letters_text (map (λ w. w.letter) wheels.now) }
{
    let mut text = ItemString::new();
    for wheel in wheels {
        push_letter(&mut text, wheel.letter);
    }
    text
}

/// Appends the lines of the plugged pairs and of the groups.
fn push_plugs_lines(text: &mut FileString, entry: &RotorEntry)
    requires legal { IsLegalRotorDay (rotor_values entry.now) }
    requires room { array_string_len text.old ≤ 400 }
    ensures { text.new.bytes ≡ text.old.bytes ++ concat (plugs_lines (rotor_values entry.now)) }
{
    push_list_line(text, Key::Plugs, entry.pairs.as_slice());
    push_list_line(text, Key::Groups, entry.groups.as_slice());
}

fn push_pin_day(text: &mut FileString, entry: &PinEntry)
    requires legal { IsLegalPinDay (pin_values entry.now) }
    requires room { array_string_len text.old ≤ 16 }
    ensures { text.new.bytes ≡ text.old.bytes ++ concat (pin_day_lines (pin_values entry.now)) }
{
    push_day_head(text, entry.day, Model::M209);
    push_converter_lines(text, entry);
}

/// Appends the lines that follow the number and the model of a Converter's day.
fn push_converter_lines(text: &mut FileString, entry: &PinEntry)
    requires legal { IsLegalPinDay (pin_values entry.now) }
    requires room { array_string_len text.old ≤ 64 }
    ensures { text.new.bytes ≡ text.old.bytes ++ concat (converter_lines (pin_values entry.now)) }
{
    push_letters_line(text, Key::List, &entry.list);
    push_list_line(text, Key::Pins, &pin_texts(&entry.pins));
    push_letters_line(text, Key::Window, &entry.window);
    push_list_line(text, Key::Rows, &entry.rows);
}
