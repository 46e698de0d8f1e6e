//! The test of the real machine. For the keys to press, the test says which lamps light up, or which letters are
//! printed.
ghost use Rattle.std.specs.Prelude.{◌≡◌, ◌++◌, flat_map, length};
ghost use Rattle.kd_state.specs.Machine.{model_of};
ghost use Rattle.kd_state.specs.TwoCiphers.{IsReady, physical_cipher};
ghost use Rattle.kd_pictures.specs.Drawing.{Draws};
ghost use Rattle.kd_page.specs.Test.{again_all, again_at, again_end, again_text, fewest_text, letters_again};
ghost use Rattle.kd_page.specs.Test.{test_end, test_keys, test_step, test_text, test_title, test_words};
ghost use Rattle.kd_page.specs.Windows.{letter_shown};

use crate::page::Page;
use crate::pins::alphabet;
use crate::steps::draw_plain_step;
use crate::windows::letter_shown;
use kd_language::Language;
use kd_pictures::fives::draw_fives;
use kd_pictures::numbers::LATER_WHEELS;
use kd_pictures::template::{Value, draw_letter, fill, fill_in};
use kd_pictures::texts::{
    AGAIN_END_PIN, AGAIN_END_ROTOR, AGAIN_ROTOR, FEWEST, STEP_END, TEST_END_PIN, TEST_END_ROTOR,
    TEST_LAMPS, TEST_PIN, TEST_ROTOR,
};
use kd_pictures::words::{Word, is_converter};
use kd_pictures::{draw, draw_in};
use kd_state::Machine;
use kd_tables::{Letter, Model, Sink};

pub(crate) fn draw_test_step<W: Sink>(sink: &mut W, page: &Page<'_>)
    requires { IsReady page.now.after }
    ensures { Draws W.taken W.has_failed sink.old sink.new (test_step page.now) }
{
    draw_plain_step(sink, page, test_title(page.model()));
    draw_test_words(sink, page.language(), page.model());
    draw_test(sink, page.language(), page.after());
    draw_letters_again(sink, page);
    draw_again_end(sink, page.language(), page.model());
    draw_fewest(sink, page);
    draw(sink, STEP_END);
}

fn test_title(model: Model) -> Word
    ensures { result ≡ test_title model }
{
    if is_converter(model) {
        Word::PrintTest
    } else {
        Word::LampTest
    }
}

/// Writes the instructions for the test.
fn draw_test_words<W: Sink>(sink: &mut W, language: Language, model: Model)
    ensures { Draws W.taken W.has_failed sink.old sink.new (test_words language model) }
{
    if is_converter(model) {
        draw_in(sink, language, TEST_PIN);
    } else {
        draw_in(sink, language, TEST_ROTOR);
    }
}

/// Writes the keys, the letters that light up or are printed for them, and the words of `draw_test_end`.
fn draw_test<W: Sink>(sink: &mut W, language: Language, machine: &Machine)
    requires { IsReady machine.now }
    ensures { Draws W.taken W.has_failed sink.old sink.new (test_text language machine.now) }
{
    let keys = test_keys(machine);
    draw_fives(sink, 0, &keys);
    draw(sink, TEST_LAMPS);
    draw_fives(sink, 0, &enciphered(machine, keys));
    draw_test_end(sink, language, machine.model());
}

/// Writes the words that say what to set again after the test: the windows, or a Converter's letters.
fn draw_test_end<W: Sink>(sink: &mut W, language: Language, model: Model)
    ensures { Draws W.taken W.has_failed sink.old sink.new (test_end language model) }
{
    if is_converter(model) {
        draw_in(sink, language, TEST_END_PIN);
    } else {
        draw_in(sink, language, TEST_END_ROTOR);
    }
}

/// The keys to press in the test: the alphabet or, on a Converter, 26 times A.
fn test_keys(machine: &Machine) -> [Letter; 26]
    ensures { result ≡ test_keys machine.now }
{
    if is_converter(machine.model()) {
        [Letter::A; 26]
    } else {
        alphabet()
    }
}

/// The letters that light up or are printed when the keys `keys` are pressed on `machine`.
#[tactic(auto, using(kd_state::proofs::Keys::engine_cipher))]
fn enciphered(machine: &Machine, keys: [Letter; 26]) -> [Letter; 26]
    requires { IsReady machine.now }
    ensures { result ≡ physical_cipher machine.now keys }
{
    let mut engine = machine.engine().unwrap();
    let mut text = keys;
    engine.run(&mut text);
    text
}

/// Writes the letters that the machine shows after the settings.
fn draw_letters_again<W: Sink>(sink: &mut W, page: &Page<'_>)
    ensures { Draws W.taken W.has_failed sink.old sink.new (letters_again page.now.after) }
{
    if is_converter(page.model()) {
        draw_again_all(sink, page, " ", false);
    } else {
        draw_again_all(sink, page, ", ", true);
    }
}

fn draw_again_all<W: Sink>(sink: &mut W, page: &Page<'_>, separator: &str, has_number: bool)
    ensures { Draws W.taken W.has_failed sink.old sink.new
        (again_all separator.now has_number page.now.after) }
{
    let first = letter_shown(page.after(), 1);
    draw_again_at(sink, page.language(), "", has_number, first);
    draw_again_from(sink, page, separator, has_number, &LATER_WHEELS);
}

/// Writes the letters that the slots or pin wheels `numbers` show, each after `separator`.
fn draw_again_from<W: Sink>(
    sink: &mut W,
    page: &Page<'_>,
    separator: &str,
    has_number: bool,
    numbers: &[u8],
)
    ensures { Draws W.taken W.has_failed sink.old sink.new
        (flat_map (λ number. again_at separator.now has_number (letter_shown page.now.after number))
        numbers.now) }
{
    if let [number, rest @ ..] = numbers {
        let shown = letter_shown(page.after(), *number);
        draw_again_at(sink, page.language(), separator, has_number, shown);
        draw_again_from(sink, page, separator, has_number, rest);
    }
}

fn draw_again_at<W: Sink>(
    sink: &mut W,
    language: Language,
    separator: &str,
    has_number: bool,
    shown: Option<Letter>,
)
    ensures { Draws W.taken W.has_failed sink.old sink.new
        (again_at separator.now has_number shown) }
{
    if let Some(letter) = shown {
        draw(sink, separator);
        draw_again(sink, language, has_number, letter);
    }
}

/// Writes `letter`, one of the letters to set again after the test. If `has_number` is true, the letter's number stands
/// beside it.
fn draw_again<W: Sink>(sink: &mut W, language: Language, has_number: bool, letter: Letter)
    ensures { Draws W.taken W.has_failed sink.old sink.new (again_text has_number letter) }
{
    if has_number {
        fill(
            sink,
            language,
            AGAIN_ROTOR,
            &[Value::Letter(letter), Value::Ordinal(letter)],
        );
    } else {
        draw_letter(sink, letter);
    }
}

/// Writes the end of the sentence that says which letters to set again. Then writes a field for the letters that the
/// machine shows when it is put away.
fn draw_again_end<W: Sink>(sink: &mut W, language: Language, model: Model)
    ensures { Draws W.taken W.has_failed sink.old sink.new (again_end language model) }
{
    if is_converter(model) {
        draw_in(sink, language, AGAIN_END_PIN);
    } else {
        draw_in(sink, language, AGAIN_END_ROTOR);
    }
}

/// Writes the number of the page's settings, and that fewer settings aren't possible. If the page has no settings,
/// writes nothing.
fn draw_fewest<W: Sink>(sink: &mut W, page: &Page<'_>)
    ensures { Draws W.taken W.has_failed sink.old sink.new
        (fewest_text page.now.language (length page.now.settings)) }
{
    let count = page.settings().len() as u8;
    if count > 0 {
        fill_in(sink, page.language(), FEWEST, &[Value::Count(count)]);
    }
}
