//! The picture of the windows, or of a Converter's wheels, that the operator has to set.
ghost use Rattle.std.specs.Prelude.{◌≡◌, ◌+◌, ◌≤◌, length};
ghost use Rattle.kd_pictures.specs.Drawing.{Draws};
ghost use Rattle.kd_part_sheet.specs.Windows.{window_item, window_items, window_words, windows_text, windows_title, words_after};

use crate::markup::{COMMA, WHEEL, WHEEL_WORDS, WINDOW_WORDS, WINDOWS_END, WINDOWS_TITLE_END};
use crate::texts::{WHEELS, WINDOW, WINDOWS};
use kd_language::Language;
use kd_pictures::draw;
use kd_pictures::template::{Value, fill, fill_in};
use kd_tables::{Letter, Sink};

/// Writes the picture of windows, or of a Converter's wheels, with the letters `letters`.
pub(crate) fn draw_windows<W: Sink>(
    sink: &mut W,
    language: Language,
    is_converter: bool,
    letters: &[Letter],
)
    requires { length letters.now ≤ 6 }
    ensures { Draws W.taken W.has_failed sink.old sink.new
        (windows_text language is_converter letters.now) }
{
    draw(sink, windows_title(language, is_converter));
    draw_all_words(sink, language, is_converter, "", 1, letters);
    draw(sink, WINDOWS_TITLE_END);
    draw_items(sink, language, is_converter, 1, letters);
    draw(sink, WINDOWS_END);
}

/// The beginning of the picture, up to the windows in its title.
fn windows_title(language: Language, is_converter: bool) -> &'static str
    ensures { result.now ≡ windows_title language is_converter }
{
    if is_converter {
        language.text(WHEELS)
    } else {
        language.text(WINDOWS)
    }
}

/// Writes the words for windows, which are numbered from `number` on. `first` stands before the first window, and a
/// comma before each later window.
fn draw_all_words<W: Sink>(
    sink: &mut W,
    language: Language,
    is_converter: bool,
    first: &str,
    number: u8,
    letters: &[Letter],
)
    requires { number + length letters.now ≤ 7 }
    ensures { Draws W.taken W.has_failed sink.old sink.new
        (words_after is_converter first.now number letters.now) }
{
    if let [letter, rest @ ..] = letters {
        draw(sink, first);
        draw_words(sink, language, is_converter, number, *letter);
        draw_all_words(sink, language, is_converter, COMMA, number + 1, rest);
    }
}

fn draw_words<W: Sink>(
    sink: &mut W,
    language: Language,
    is_converter: bool,
    number: u8,
    letter: Letter,
)
    ensures { Draws W.taken W.has_failed sink.old sink.new
        (window_words is_converter number letter) }
{
    let number = Value::Number(u16::from(number));
    if is_converter {
        fill(
            sink,
            language,
            WHEEL_WORDS,
            &[number, Value::Letter(letter)],
        );
    } else {
        fill(
            sink,
            language,
            WINDOW_WORDS,
            &[number, Value::Letter(letter), Value::Ordinal(letter)],
        );
    }
}

/// Writes the windows of the picture. The first of them has number `number`.
fn draw_items<W: Sink>(
    sink: &mut W,
    language: Language,
    is_converter: bool,
    number: u8,
    letters: &[Letter],
)
    requires some { 1 ≤ number }
    requires few { number + length letters.now ≤ 7 }
    ensures { Draws W.taken W.has_failed sink.old sink.new
        (window_items language is_converter number letters.now) }
{
    if let [letter, rest @ ..] = letters {
        draw_item(sink, language, is_converter, number, *letter);
        draw_items(sink, language, is_converter, number + 1, rest);
    }
}

fn draw_item<W: Sink>(
    sink: &mut W,
    language: Language,
    is_converter: bool,
    number: u8,
    letter: Letter,
)
    requires some { 1 ≤ number }
    requires few { number ≤ 6 }
    ensures { Draws W.taken W.has_failed sink.old sink.new
        (window_item language is_converter number letter) }
{
    let slot = u16::from(number);
    let letter_value = Value::Letter(letter);
    if is_converter {
        let x = 2 + 60 * (slot - 1);
        fill(
            sink,
            language,
            WHEEL,
            &[
                Value::Number(x + 20),
                Value::Number(slot),
                Value::Number(x),
                Value::Number(x + 20),
                letter_value,
            ],
        );
    } else {
        let x = 2 + 96 * (slot - 1);
        fill_in(
            sink,
            language,
            WINDOW,
            &[
                Value::Number(x),
                Value::Number(slot),
                Value::Number(x),
                Value::Number(x + 20),
                letter_value,
                Value::Number(x + 62),
                Value::Ordinal(letter),
            ],
        );
    }
}
