//! The table of a Converter's pins. It marks the pins that are effective after the settings, and frames the pins that
//! change.
ghost use Rattle.std.specs.Prelude.{◌≡◌, ◌++◌, flat_map};
ghost use Rattle.kd_tables.specs.Permutation.{alphabet};
ghost use Rattle.kd_pictures.specs.Drawing.{Draws};
ghost use Rattle.kd_page.specs.Pins.{cell_text, is_same_pin, pin_item, pin_cell, pin_cells, pin_head, pin_inside};
ghost use Rattle.kd_page.specs.Pins.{pin_lines, pin_shown, pin_spot};
ghost use Rattle.kd_page.specs.Pins.{pin_wheel, pins_caption, pins_step};

use crate::boxes::{draw_boxes, pin_mark};
use crate::page::Page;
use crate::spots::{Spot, Step};
use crate::steps::draw_step;
use kd_language::Language;
use kd_pictures::draw;
use kd_pictures::numbers::PIN_WHEELS;
use kd_pictures::template::{Value, fill, fill_in};
use kd_pictures::texts::{
    CELL, NO_PIN, PIN_LINES, PIN_ROW, PIN_SHOWN, PIN_WHEEL, PINS, PINS_END, ROW_END, SET_CELL,
};
use kd_pictures::words::{Mark, Word};
use kd_tables::{Letter, Sink};

pub(crate) fn draw_pins_step<W: Sink>(sink: &mut W, page: &Page<'_>)
    ensures { Draws W.taken W.has_failed sink.old sink.new
        (pins_step page.now) }
{
    let count = page.count_at(&Step::Pins.spot());
    draw_step(sink, page, Word::Pins, count);
    draw_pins_caption(sink, page.language());
    draw_pin_wheels(sink, page, &PIN_WHEELS);
    draw(sink, PINS_END);
}

#[tactic(auto, using(crate::proofs::Alphabets::is_alphabet))]
pub(crate) fn alphabet() -> [Letter; 26]
    ensures { result ≡ alphabet }
{
    let mut letters = [Letter::A; 26];
    for place in 0..26 {
        letters[usize::from(place)] = Letter::at(place);
    }
    letters
}

/// Writes the caption with the meaning of the marks.
#[tactic(auto, unfolding(crate::specs::Pins::pins_caption))]
fn draw_pins_caption<W: Sink>(sink: &mut W, language: Language)
    ensures { Draws W.taken W.has_failed sink.old sink.new (pins_caption language) }
{
    fill_in(
        sink,
        language,
        PINS,
        &[Value::Mark(Mark::Effective), Value::Mark(Mark::Ineffective)],
    );
}

fn draw_pin_wheels<W: Sink>(sink: &mut W, page: &Page<'_>, wheels: &[u8])
    ensures { Draws W.taken W.has_failed sink.old sink.new (flat_map (pin_wheel page.now) wheels.now) }
{
    if let [wheel, rest @ ..] = wheels {
        draw_pin_wheel(sink, page, *wheel);
        draw_pin_wheels(sink, page, rest);
    }
}

/// Writes a wheel of the table: its head, and two rows of 13 letters.
fn draw_pin_wheel<W: Sink>(sink: &mut W, page: &Page<'_>, wheel: u8)
    ensures { Draws W.taken W.has_failed sink.old sink.new (pin_wheel page.now wheel) }
{
    let letters = alphabet();
    let (upper, lower) = letters.split_at(13);
    let count = page.count_at(&Step::Pins.row(wheel));
    draw_pin_head(sink, page.language(), wheel, count);
    draw(sink, PIN_ROW);
    draw_pin_cells(sink, page, wheel, upper);
    draw(sink, PIN_ROW);
    draw_pin_cells(sink, page, wheel, lower);
    draw(sink, ROW_END);
}

/// Writes the heading of a wheel: the wheel's number, and the number `count` of pins to set.
fn draw_pin_head<W: Sink>(sink: &mut W, language: Language, wheel: u8, count: u8)
    ensures { Draws W.taken W.has_failed sink.old sink.new (pin_head language wheel count) }
{
    let number = Value::Number(u16::from(wheel));
    fill_in(sink, language, PIN_WHEEL, &[number, Value::Count(count)]);
    draw_pin_lines(sink, language, wheel, count);
}

/// Writes the first words of the lines that set a wheel's pins, such as `PIN 3`. Writes nothing if `count`, the number
/// of pins to set, is 0.
fn draw_pin_lines<W: Sink>(sink: &mut W, language: Language, wheel: u8, count: u8)
    ensures { Draws W.taken W.has_failed sink.old sink.new (pin_lines wheel count) }
{
    if count != 0 {
        fill(
            sink,
            language,
            PIN_LINES,
            &[Value::Number(u16::from(wheel))],
        );
    }
}

fn draw_pin_cells<W: Sink>(sink: &mut W, page: &Page<'_>, wheel: u8, letters: &[Letter])
    ensures { Draws W.taken W.has_failed sink.old sink.new (pin_cells page.now wheel letters.now) }
{
    if let [letter, rest @ ..] = letters {
        let effective = page.after().pin_at(wheel, *letter);
        draw_pin_cell(sink, page, wheel, *letter, effective);
        draw_pin_cells(sink, page, wheel, rest);
    }
}

/// Writes the cell of a pin. `effective` says whether the pin is effective after the settings; `None` means that the
/// wheel doesn't have the letter.
fn draw_pin_cell<W: Sink>(
    sink: &mut W,
    page: &Page<'_>,
    wheel: u8,
    letter: Letter,
    effective: Option<bool>,
)
    ensures { Draws W.taken W.has_failed sink.old sink.new (pin_cell page.now wheel letter effective) }
{
    match effective {
        None => draw(sink, NO_PIN),
        Some(effective) => draw_pin_item(sink, page, wheel, letter, effective),
    }
}

fn draw_pin_item<W: Sink>(sink: &mut W, page: &Page<'_>, wheel: u8, letter: Letter, effective: bool)
    ensures { Draws W.taken W.has_failed sink.old sink.new (pin_item page.now wheel letter effective) }
{
    let was = page.before().pin_at(wheel, letter);
    draw(sink, cell_text(is_same_pin(effective, was)));
    draw_pin_inside(sink, page, wheel, letter, effective);
}

fn cell_text(is_same: bool) -> &'static str
    ensures { result.now ≡ cell_text is_same }
{
    if is_same { CELL } else { SET_CELL }
}

fn is_same_pin(effective: bool, was: Option<bool>) -> bool
    ensures { result ≡ is_same_pin effective was }
{
    match was {
        Some(old) => old == effective,
        None => false,
    }
}

/// Writes the content of a pin's cell: the pin's checkbox or, if no setting sets the pin, the pin's letter and mark.
fn draw_pin_inside<W: Sink>(
    sink: &mut W,
    page: &Page<'_>,
    wheel: u8,
    letter: Letter,
    effective: bool,
)
    ensures { Draws W.taken W.has_failed sink.old sink.new
        (pin_inside page.now wheel letter effective) }
{
    let spot = pin_spot(wheel, letter);
    if page.count_at(&spot) == 0 {
        draw_pin(sink, page.language(), letter, effective);
    } else {
        draw_boxes(sink, page, &spot);
    }
}

fn pin_spot(wheel: u8, letter: Letter) -> Spot
    ensures { result ≡ pin_spot wheel letter }
{
    Spot {
        step: Step::Pins,
        row: Some(wheel),
        cell: Some(letter),
    }
}

fn draw_pin<W: Sink>(sink: &mut W, language: Language, letter: Letter, effective: bool)
    ensures { Draws W.taken W.has_failed sink.old sink.new (pin_shown letter effective) }
{
    fill(
        sink,
        language,
        PIN_SHOWN,
        &[Value::Letter(letter), Value::Mark(pin_mark(effective))],
    );
}
