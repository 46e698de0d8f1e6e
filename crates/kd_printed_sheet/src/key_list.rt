//! The key list of a Converter's day: the lugs of the bars, the effective pins, and the 26-letter check.
ghost use Rattle.std.specs.Prelude.{◌≡◌, ◌≤◌, ◌+◌, flat_map, length, slice_get, option_copied, Some};
ghost use Rattle.std.specs.List.{enumerate_from};
ghost use Rattle.kd_pins.specs.PinWheel.{is_effective};
ghost use Rattle.kd_pictures.specs.Drawing.{Draws};
ghost use Rattle.kd_sheet.specs.Sheet.{day_of};
ghost use Rattle.kd_state.specs.Entry.{pin_values};
ghost use Rattle.kd_state.specs.SheetDay.{Pin};
ghost use Rattle.kd_printed_sheet.specs.KeyList.{bar_head, bar_line, check_of, key_list, key_list_of, pin_cells, pin_shown};

use crate::texts::{
    BAR, BAR_BELOW_TEN, CHECK, CHECK_END, EFFECTIVE, INEFFECTIVE, KEY_LIST, KEY_LIST_COLUMNS,
    KEY_LIST_END, NO_PIN, ROW_END,
};
use crate::words::{SingleLetter, draw_words};
use kd_language::Language;
use kd_pictures::fives::draw_fives;
use kd_pictures::template::{Value, draw_letters, fill, fill_in};
use kd_pictures::{draw, draw_in};
use kd_pins::PinSet;
use kd_sheet::Sheet;
use kd_state::{Entry, PinEntry, SheetDay, own_engine};
use kd_tables::{Letter, Model, Reading, Sink, ring1, ring2, ring3, ring4, ring5, ring6};

/// Writes a key list for each Converter's day among the days `numbers`.
pub(crate) fn draw_key_lists<W: Sink>(
    sink: &mut W,
    language: Language,
    sheet: &Sheet,
    numbers: &[u8],
)
    ensures { Draws W.taken W.has_failed sink.old sink.new
        (flat_map (λ number. key_list_of language (day_of sheet.now number)) numbers.now) }
{
    if let [number, rest @ ..] = numbers {
        draw_day(sink, language, sheet.day(*number));
        draw_key_lists(sink, language, sheet, rest);
    }
}

/// Writes the key list of a Converter's day. Writes nothing for a rotor machine's day, or if `day` is `None`.
fn draw_day<W: Sink>(sink: &mut W, language: Language, day: Option<&SheetDay>)
    ensures { Draws W.taken W.has_failed sink.old sink.new
        (key_list_of language (option_copied day.entry)) }
{
    match day {
        Some(day) => draw_list_of(sink, language, day),
        None => {}
    }
}

fn draw_list_of<W: Sink>(sink: &mut W, language: Language, day: &SheetDay)
    ensures { Draws W.taken W.has_failed sink.old sink.new (key_list_of language (Some day.now)) }
{
    match day.entry() {
        Entry::Rotor(_) => {}
        Entry::Pin(entry) => draw_list(sink, language, entry, &check_of(day, entry)),
    }
}

/// Writes the key list of the day `entry`, with the 26-letter check `check`.
fn draw_list<W: Sink>(sink: &mut W, language: Language, entry: &PinEntry, check: &[Letter; 26])
    requires { check.now ≡ check_of (pin_values entry.now) }
    ensures { Draws W.taken W.has_failed sink.old sink.new (key_list language (pin_values entry.now)) }
{
    let day = Value::Number(u16::from(entry.day));
    fill_in(sink, language, KEY_LIST, &[Value::Model(Model::M209), day]);
    draw_letters(sink, &entry.list);
    draw_in(sink, language, KEY_LIST_COLUMNS);
    draw_lines(sink, language, &entry.pins, 0, &entry.rows);
    draw_in(sink, language, CHECK);
    draw_fives(sink, 0, check);
    draw_in(sink, language, CHECK_END);
    draw_words::<SingleLetter, W, Letter>(sink, &entry.window);
    draw(sink, KEY_LIST_END);
}

/// Writes the lines of the bars with the readings `rows`. The first of these bars has the number `place + 1`.
fn draw_lines<W: Sink>(sink: &mut W, language: Language, pins: &PinSet, place: u8, rows: &[Reading])
    requires { place + length rows.now ≤ 27 }
    ensures { Draws W.taken W.has_failed sink.old sink.new
        (flat_map (bar_line pins.now) (enumerate_from place rows.now)) }
{
    if let [row, rest @ ..] = rows {
        draw_bar(sink, language, place + 1, *row);
        draw_pins(sink, language, pins, place);
        draw(sink, ROW_END);
        draw_lines(sink, language, pins, place + 1, rest);
    }
}

/// Writes the number of bar `bar`, in two digits, and the wheels at its two lugs.
fn draw_bar<W: Sink>(sink: &mut W, language: Language, bar: u8, row: Reading)
    ensures { Draws W.taken W.has_failed sink.old sink.new (bar_head bar row) }
{
    let (smaller, larger) = row.numbers();
    fill(
        sink,
        language,
        if bar < 10 { BAR_BELOW_TEN } else { BAR },
        &[
            Value::Number(u16::from(bar)),
            Value::Number(u16::from(smaller)),
            Value::Number(u16::from(larger)),
        ],
    );
}

/// Writes, for each of the six wheels, the cell of its pin at place `place`.
fn draw_pins<W: Sink>(sink: &mut W, language: Language, pins: &PinSet, place: u8)
    ensures { Draws W.taken W.has_failed sink.old sink.new (pin_cells pins.now place) }
{
    draw_pin(sink, language, &ring1().letters(), &pins.w1, place);
    draw_pin(sink, language, &ring2().letters(), &pins.w2, place);
    draw_pin(sink, language, &ring3().letters(), &pins.w3, place);
    draw_pin(sink, language, &ring4().letters(), &pins.w4, place);
    draw_pin(sink, language, &ring5().letters(), &pins.w5, place);
    draw_pin(sink, language, &ring6().letters(), &pins.w6, place);
}

/// Writes the cell of the pin at place `place` of a wheel. `letters` and `pins` are the wheel's letters and pins.
fn draw_pin<W: Sink>(sink: &mut W, language: Language, letters: &[Letter], pins: &[bool], place: u8)
    ensures { Draws W.taken W.has_failed sink.old sink.new
        (pin_shown (slice_get letters.now place) (is_effective pins.now place)) }
{
    let place = usize::from(place);
    let effective = pins.get(place).copied().unwrap_or(false);
    draw_pin_cell(sink, language, letters.get(place).copied(), effective);
}

fn draw_pin_cell<W: Sink>(sink: &mut W, language: Language, letter: Option<Letter>, effective: bool)
    ensures { Draws W.taken W.has_failed sink.old sink.new (pin_shown letter effective) }
{
    match letter {
        None => draw(sink, NO_PIN),
        Some(letter) => draw_letter_cell(sink, language, letter, effective),
    }
}

fn draw_letter_cell<W: Sink>(sink: &mut W, language: Language, letter: Letter, effective: bool)
    ensures { Draws W.taken W.has_failed sink.old sink.new (pin_shown (Some letter) effective) }
{
    if effective {
        fill(sink, language, EFFECTIVE, &[Value::Letter(letter)]);
    } else {
        draw(sink, INEFFECTIVE);
    }
}

/// The 26-letter check: the ciphertext of 26 times A, with the day's pins and lugs, and with A on each wheel at the
/// start.
fn check_of(day: &SheetDay, entry: &PinEntry) -> [Letter; 26]
    requires { day.now ≡ Pin (pin_values entry.now) }
    ensures { result ≡ check_of (pin_values entry.now) }
{
    let mut engine = own_engine(day);
    let mut text = [Letter::A; 26];
    let _ = engine.turn_to(&[Letter::A; 6]);
    engine.run(&mut text);
    text
}
