//! The page of one day.
ghost use Rattle.std.specs.Prelude.{◌≡◌, ◌++◌};
ghost use Rattle.kd_state.specs.TwoCiphers.{IsReady};
ghost use Rattle.kd_pictures.specs.Drawing.{Draws};
ghost use Rattle.kd_page.specs.DayPage.{compare_pins, day_head, day_text, pin_text, rotor_text, steps_text, wheels_text};

use crate::drum::draw_lugs_step;
use crate::page::Page;
use crate::pins::draw_pins_step;
use crate::plug_steps::{draw_in_step, draw_out_step};
use crate::steps::draw_page_title;
use crate::test::draw_test_step;
use crate::wheel_steps::{draw_rings_in_box, draw_rings_step, draw_seats_step};
use crate::windows::{draw_letters_step, draw_windows_step};
use kd_language::Language;
use kd_pictures::draw;
use kd_pictures::template::{Value, fill, fill_in};
use kd_pictures::texts::{BOX_BEFORE, COMPARE_PIN, DAY, DAY_END, DAY_TITLED};
use kd_pictures::wheels::{draw_both, draw_one};
use kd_pictures::words::{Mark, is_converter};
use kd_tables::Sink;

/// Writes a day's page: its head, its steps, and the test.
pub fn draw_day<W: Sink>(sink: &mut W, page: &Page<'_>)
    requires { IsReady page.now.after }
    ensures { Draws W.taken W.has_failed sink.old sink.new (day_text page.now) }
{
    draw_day_head(sink, page);
    draw_steps(sink, page);
    draw_test_step(sink, page);
    draw(sink, DAY_END);
}

fn draw_day_head<W: Sink>(sink: &mut W, page: &Page<'_>)
    ensures { Draws W.taken W.has_failed sink.old sink.new (day_head page.now) }
{
    let language = page.language();
    let day = Value::Number(u16::from(page.day()));
    let count = Value::Count(page.settings().len() as u8);
    fill(sink, language, DAY, &[day]);
    draw_page_title(sink, page);
    fill_in(sink, language, DAY_TITLED, &[count]);
}

fn draw_steps<W: Sink>(sink: &mut W, page: &Page<'_>)
    ensures { Draws W.taken W.has_failed sink.old sink.new (steps_text page.now) }
{
    if is_converter(page.model()) {
        draw_pin_steps(sink, page);
    } else {
        draw_rotor_steps(sink, page);
    }
}

/// Writes the pictures of a rotor machine's wheels, the rings of the wheels in the box, and the steps.
fn draw_rotor_steps<W: Sink>(sink: &mut W, page: &Page<'_>)
    ensures { Draws W.taken W.has_failed sink.old sink.new (rotor_text page.now) }
{
    draw_wheels(sink, page);
    draw_rings_in_box(sink, page, BOX_BEFORE, page.before());
    draw_rings_step(sink, page);
    draw_seats_step(sink, page);
    draw_out_step(sink, page);
    draw_in_step(sink, page);
    draw_windows_step(sink, page);
}

/// Writes the pictures of the wheels, with words that say what to compare first.
fn draw_wheels<W: Sink>(sink: &mut W, page: &Page<'_>)
    ensures { Draws W.taken W.has_failed sink.old sink.new (wheels_text page.now) }
{
    if page.settings().is_empty() {
        draw_one(sink, page.language(), page.after());
    } else {
        draw_both(sink, page.language(), page.before(), page.after());
    }
}

fn draw_pin_steps<W: Sink>(sink: &mut W, page: &Page<'_>)
    ensures { Draws W.taken W.has_failed sink.old sink.new (pin_text page.now) }
{
    draw_compare_pins(sink, page.language());
    draw_pins_step(sink, page);
    draw_lugs_step(sink, page);
    draw_letters_step(sink, page);
}

/// Writes the words that say what to compare first on a Converter.
#[tactic(auto, unfolding(crate::specs::DayPage::compare_pins))]
fn draw_compare_pins<W: Sink>(sink: &mut W, language: Language)
    ensures { Draws W.taken W.has_failed sink.old sink.new (compare_pins language) }
{
    fill_in(
        sink,
        language,
        COMPARE_PIN,
        &[Value::Mark(Mark::LugStays), Value::Mark(Mark::LugLeaves)],
    );
}
