//! The letters to set last, in the windows or on the pin wheels. Each letter has a checkbox.
ghost use Rattle.std.specs.Prelude.{◌≡◌, ◌++◌, flat_map};
ghost use Rattle.kd_state.specs.Machine.{machine_pin_letter};
ghost use Rattle.kd_pictures.specs.Drawing.{Draws};
ghost use Rattle.kd_page.specs.Windows.{letter_box, letter_in_slot, letter_shown, letters_step};
ghost use Rattle.kd_page.specs.Windows.{window_box, windows_step};

use crate::boxes::draw_boxes;
use crate::page::Page;
use crate::spots::Step;
use crate::steps::draw_full_step;
use kd_pictures::numbers::{PIN_WHEELS, SLOTS};
use kd_pictures::template::{Value, fill, fill_in};
use kd_pictures::texts::{
    LETTER_BOX, LETTER_BOX_END, LETTERS, LETTERS_END, LIST_END, WINDOW_BOX, WINDOW_BOX_END, WINDOWS,
};
use kd_pictures::words::Word;
use kd_pictures::{draw, draw_in};
use kd_state::Machine;
use kd_tables::{Letter, Sink};

pub(crate) fn draw_windows_step<W: Sink>(sink: &mut W, page: &Page<'_>)
    ensures { Draws W.taken W.has_failed sink.old sink.new (windows_step page.now) }
{
    let count = page.count_at(&Step::Turns.spot());
    draw_full_step(sink, page, Word::Windows, count);
    draw_in(sink, page.language(), WINDOWS);
    draw_window_boxes(sink, page, &SLOTS);
    draw(sink, LIST_END);
}

fn draw_window_boxes<W: Sink>(sink: &mut W, page: &Page<'_>, slots: &[u8])
    ensures { Draws W.taken W.has_failed sink.old sink.new
        (flat_map (λ slot. window_box page.now slot (letter_in_slot page.now.after slot)) slots.now) }
{
    if let [slot, rest @ ..] = slots {
        draw_window_box(sink, page, *slot, letter_in_slot(page.after(), *slot));
        draw_window_boxes(sink, page, rest);
    }
}

fn draw_window_box<W: Sink>(sink: &mut W, page: &Page<'_>, slot: u8, shown: Option<Letter>)
    ensures { Draws W.taken W.has_failed sink.old sink.new (window_box page.now slot shown) }
{
    if let Some(letter) = shown {
        let number = Value::Number(u16::from(slot));
        fill_in(
            sink,
            page.language(),
            WINDOW_BOX,
            &[number, Value::Letter(letter), Value::Ordinal(letter)],
        );
        draw_boxes(sink, page, &Step::Turns.row(slot));
        draw(sink, WINDOW_BOX_END);
    }
}

/// Writes the step in which the letters of the pin wheels are set.
pub(crate) fn draw_letters_step<W: Sink>(sink: &mut W, page: &Page<'_>)
    ensures { Draws W.taken W.has_failed sink.old sink.new (letters_step page.now) }
{
    let count = page.count_at(&Step::Turns.spot());
    draw_full_step(sink, page, Word::Letters, count);
    draw_in(sink, page.language(), LETTERS);
    draw_letter_boxes(sink, page, &PIN_WHEELS);
    draw(sink, LETTERS_END);
}

fn draw_letter_boxes<W: Sink>(sink: &mut W, page: &Page<'_>, wheels: &[u8])
    ensures { Draws W.taken W.has_failed sink.old sink.new
        (flat_map (λ wheel. letter_box page.now wheel (machine_pin_letter page.now.after wheel))
        wheels.now) }
{
    if let [wheel, rest @ ..] = wheels {
        draw_letter_box(sink, page, *wheel, page.after().shown(*wheel));
        draw_letter_boxes(sink, page, rest);
    }
}

fn draw_letter_box<W: Sink>(sink: &mut W, page: &Page<'_>, wheel: u8, shown: Option<Letter>)
    ensures { Draws W.taken W.has_failed sink.old sink.new (letter_box page.now wheel shown) }
{
    if let Some(letter) = shown {
        fill(sink, page.language(), LETTER_BOX, &[Value::Letter(letter)]);
        draw_boxes(sink, page, &Step::Turns.row(wheel));
        draw(sink, LETTER_BOX_END);
    }
}

/// The letter in the window of a slot, or on a pin wheel.
pub(crate) fn letter_shown(machine: &Machine, number: u8) -> Option<Letter>
    ensures { result ≡ letter_shown machine.now number }
{
    letter_in_slot(machine, number).or(machine.shown(number))
}

fn letter_in_slot(machine: &Machine, slot: u8) -> Option<Letter>
    ensures { result ≡ letter_in_slot machine.now slot }
{
    let wheel = machine.slot(slot)??;
    machine.letter(wheel)
}
