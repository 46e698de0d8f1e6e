//! Fills values into a template.
ghost use Rattle.std.specs.Prelude.{codes, decimal, ◌≡◌, [], ◌∷◌, ◌++◌, map, if◌then◌else◌};
ghost use Rattle.kd_tables.specs.Text.{letters_text};
ghost use Rattle.kd_pictures.specs.Drawing.{Draws};
ghost use Rattle.kd_language.specs.Language.{in_language, text_in};
ghost use Rattle.kd_pictures.specs.declared.texts.TheConstants.{SETTINGS as SETTINGS_TEXT};
ghost use Rattle.kd_language.specs.Template.{filled};
ghost use Rattle.kd_pictures.specs.Template.{count_text, letter_text, ordinal_text, value_text};

use crate::drawing::{draw, draw_in};
use crate::texts::{NO_SETTINGS, ONE_SETTING, SETTINGS};
use crate::words::{Class, Mark, Word, model_name};
use arrayvec::ArrayString;
use itoa::Buffer;
use kd_language::template::cut;
use kd_language::{Language, Text};
use kd_state::Setting;
use kd_tables::{Letter, Model, Place, Reflector, Sink, Wheel, push_letter};

/// A value that is filled into a template.
#[derive(Clone, Copy)]
pub enum Value {
    Number(u16),
    Letter(Letter),
    Ordinal(Letter),
    Wheel(Wheel),
    Reflector(Reflector),
    Place(Place),
    Line(Setting),
    Count(u8),
    Model(Model),
    Word(Word),
    Class(Class),
    Mark(Mark),
}

/// Writes `template`, with its signs `~` replaced by the values, in order. Words are in `language`.
pub fn fill<W: Sink>(sink: &mut W, language: Language, template: &str, values: &[Value])
    ensures { Draws W.taken W.has_failed sink.old sink.new
        (filled template.now (map (value_text language) values.now)) }
{
    if let [value, values @ ..] = values {
        let (piece, rest) = cut(template);
        draw(sink, piece);
        draw_value(sink, language, *value);
        fill(sink, language, rest, values);
    } else {
        draw(sink, template);
    }
}

/// Writes `text` in `language`, with its signs `~` replaced by the values, in order.
pub fn fill_in<W: Sink>(sink: &mut W, language: Language, text: Text, values: &[Value])
    ensures { Draws W.taken W.has_failed sink.old sink.new
        (filled (in_language language text.entry.0.now text.entry.1.now)
        (map (value_text language) values.now)) }
{
    fill(sink, language, language.text(text), values);
}

fn draw_value<W: Sink>(sink: &mut W, language: Language, value: Value)
    ensures { Draws W.taken W.has_failed sink.old sink.new (value_text language value) }
{
    match value {
        Value::Number(number) => draw(sink, Buffer::new().format(number)),
        Value::Letter(letter) => draw_letter(sink, letter),
        Value::Ordinal(letter) => draw_ordinal(sink, letter),
        Value::Wheel(wheel) => draw(sink, wheel.text().as_str()),
        Value::Reflector(reflector) => draw(sink, reflector.text().as_str()),
        Value::Place(place) => draw(sink, place.text().as_str()),
        Value::Line(setting) => draw(sink, setting.line().as_str()),
        Value::Count(number) => draw_count(sink, language, number),
        Value::Model(model) => draw(sink, model_name(model)),
        Value::Word(word) => draw(sink, word.text(language)),
        Value::Class(class) => draw(sink, class.text()),
        Value::Mark(mark) => draw(sink, mark.text()),
    }
}

pub fn draw_letter<W: Sink>(sink: &mut W, letter: Letter)
    ensures { Draws W.taken W.has_failed sink.old sink.new (letter_text letter) }
{
    let mut text = ArrayString::<1>::new();
    push_letter(&mut text, letter);
    draw(sink, text.as_str());
}

/// Writes letters with nothing between them.
pub fn draw_letters<W: Sink>(sink: &mut W, letters: &[Letter])
    ensures { Draws W.taken W.has_failed sink.old sink.new (letters_text letters.now) }
{
    if let [letter, rest @ ..] = letters {
        draw_letter(sink, *letter);
        draw_letters(sink, rest);
    }
}

/// Writes the number of a letter, from 01 to 26.
pub fn draw_ordinal<W: Sink>(sink: &mut W, letter: Letter)
    ensures { Draws W.taken W.has_failed sink.old sink.new (ordinal_text letter) }
{
    let number = letter.index() + 1;
    draw_zero(sink, number < 10);
    draw(sink, Buffer::new().format(number));
}

fn draw_zero<W: Sink>(sink: &mut W, is_short: bool)
    ensures { Draws W.taken W.has_failed sink.old sink.new (if is_short then codes "0" else []) }
{
    if is_short {
        draw(sink, "0");
    } else {
        draw(sink, "");
    }
}

/// Writes the number of settings in words, such as `nothing to change` or `3 settings`.
fn draw_count<W: Sink>(sink: &mut W, language: Language, number: u8)
    ensures { Draws W.taken W.has_failed sink.old sink.new (count_text language number) }
{
    match number {
        0 => draw_in(sink, language, NO_SETTINGS),
        1 => draw_in(sink, language, ONE_SETTING),
        _ => draw_several(sink, language, number),
    }
}

fn draw_several<W: Sink>(sink: &mut W, language: Language, number: u8)
    ensures { Draws W.taken W.has_failed sink.old sink.new
        (decimal number ++ text_in language SETTINGS_TEXT) }
{
    draw(sink, Buffer::new().format(number));
    draw_in(sink, language, SETTINGS);
}
