//! The pin wheels, the knob and the keys on a Converter's page.
ghost use Rattle.std.specs.Prelude.{◌≡◌, ◌++◌, flat_map};
ghost use Rattle.kd_pictures.specs.Drawing.{Draws};
ghost use Rattle.kd_typing_page.specs.PinWheels.{letter_option, pin_desk, wheel_text, wheels_text};

use crate::texts::{KEYS, KNOB, LETTER, PIN_HEAD, PIN_KEYS, PIN_TAPE, WHEEL, WHEEL_END};
use kd_language::Language;
use kd_pictures::template::{Value, fill, fill_in};
use kd_pictures::{draw, draw_in};
use kd_tables::{Letter, Model, Sink, ring1, ring2, ring3, ring4, ring5, ring6};

/// Writes a Converter's pin wheels, knob, keys and tape.
pub(crate) fn draw_pin_desk<W: Sink>(sink: &mut W, language: Language, model: Model)
    ensures { Draws W.taken W.has_failed sink.old sink.new (pin_desk language model) }
{
    fill_in(sink, language, PIN_HEAD, &[Value::Model(model)]);
    draw_wheels(sink, language);
    draw_in(sink, language, KNOB);
    draw_in(sink, language, KEYS);
    draw(sink, PIN_KEYS);
    draw_in(sink, language, PIN_TAPE);
}

fn draw_wheels<W: Sink>(sink: &mut W, language: Language)
    ensures { Draws W.taken W.has_failed sink.old sink.new (wheels_text language) }
{
    draw_wheel(sink, language, 1, &ring1().letters());
    draw_wheel(sink, language, 2, &ring2().letters());
    draw_wheel(sink, language, 3, &ring3().letters());
    draw_wheel(sink, language, 4, &ring4().letters());
    draw_wheel(sink, language, 5, &ring5().letters());
    draw_wheel(sink, language, 6, &ring6().letters());
}

fn draw_wheel<W: Sink>(sink: &mut W, language: Language, wheel: u8, letters: &[Letter])
    ensures { Draws W.taken W.has_failed sink.old sink.new (wheel_text language wheel letters.now) }
{
    let number = u16::from(wheel);
    fill_in(
        sink,
        language,
        WHEEL,
        &[
            Value::Number(number),
            Value::Number(number),
            Value::Number(number),
        ],
    );
    draw_letters(sink, language, letters);
    fill_in(sink, language, WHEEL_END, &[Value::Number(number)]);
}

/// Writes the letters that a wheel can show.
fn draw_letters<W: Sink>(sink: &mut W, language: Language, letters: &[Letter])
    ensures { Draws W.taken W.has_failed sink.old sink.new (flat_map letter_option letters.now) }
{
    if let [letter, rest @ ..] = letters {
        fill(sink, language, LETTER, &[Value::Letter(*letter)]);
        draw_letters(sink, language, rest);
    }
}
