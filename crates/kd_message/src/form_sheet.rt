//! The sheet for the radio, with the form. This sheet has neither the message keys nor the text.
ghost use Rattle.std.specs.Prelude.{◌≡◌, ◌≤◌, flat_map, length};
ghost use Rattle.kd_form.specs.PartMaking.{part_of};
ghost use Rattle.kd_pictures.specs.Drawing.{Draws};
ghost use Rattle.kd_part_sheet.specs.Rows.{pieces};
ghost use Rattle.kd_message.specs.FormSheet.{form_group, form_head, form_number, form_part, form_title};
ghost use Rattle.kd_message.specs.FormSheet.{indicator_text, keys_text};
ghost use Rattle.kd_message.specs.FormSheet.{letters_with, part_head, part_note};

use crate::texts::{
    FORM, FORM_GROUND, FORM_GROUP, FORM_GROUP_END, FORM_GROUPS, FORM_ID, FORM_KEY, FORM_KEY_END,
    FORM_NUMBER, FORM_PART, FORM_PIN_NOTE, FORM_ROTOR_NOTE, OPEN_LETTER,
};
use kd_form::heading::Indicator;
use kd_language::Language;
use kd_part_sheet::cutting::first_piece;
use kd_part_sheet::part_sheet::PartName;
use kd_pictures::template::{Value, draw_letters, fill, fill_in};
use kd_pictures::{Results, draw, draw_in};
use kd_state::SheetDay;
use kd_tables::{Letter, Sink};

/// Writes the head of the sheet with the form: a title that gives the model and the day, and fields to fill in.
///
/// `place` is the order's number in a file of several orders, and `None` in a file of one order.
pub(crate) fn draw_form_head<W: Sink>(
    sink: &mut W,
    language: Language,
    place: Option<u8>,
    day: &SheetDay,
)
    ensures { Draws W.taken W.has_failed sink.old sink.new (form_head language place day.now) }
{
    draw(sink, FORM_ID);
    draw_form_number(sink, language, place);
    draw_form_title(sink, language, day);
}

/// Writes the text after `form` in the HTML id of a form's sheet.
pub(crate) fn draw_form_number<W: Sink>(sink: &mut W, language: Language, place: Option<u8>)
    ensures { Draws W.taken W.has_failed sink.old sink.new (form_number place) }
{
    match place {
        Some(number) => fill(
            sink,
            language,
            FORM_NUMBER,
            &[Value::Number(u16::from(number))],
        ),
        None => draw(sink, ""),
    }
}

fn draw_form_title<W: Sink>(sink: &mut W, language: Language, day: &SheetDay)
    ensures { Draws W.taken W.has_failed sink.old sink.new (form_title language day.now) }
{
    fill_in(
        sink,
        language,
        FORM,
        &[
            Value::Model(day.model()),
            Value::Number(u16::from(day.day())),
        ],
    );
}

/// Writes a part of the form: its heading, its letters in groups of five, and a note below them.
pub(crate) fn draw_form_part<W: Sink>(
    sink: &mut W,
    language: Language,
    name: PartName,
    indicator: &Option<Indicator>,
    letters: &[Letter],
)
    requires { length letters.now ≤ 520 }
    ensures { Draws W.taken W.has_failed sink.old sink.new
        (form_part name.results language name.model name.day
        (part_of name.part name.parts indicator.now letters.now)) }
{
    draw_part_head(sink, language, name, letters.len());
    draw_indicator(sink, language, name.results, indicator);
    draw(sink, FORM_GROUPS);
    draw_form_groups(sink, name.results, letters);
    draw(sink, part_note(language, indicator));
}

fn draw_part_head<W: Sink>(sink: &mut W, language: Language, name: PartName, letters: usize)
    requires { letters ≤ 520 }
    ensures { Draws W.taken W.has_failed sink.old sink.new
        (part_head language name.model name.day name.part name.parts letters) }
{
    fill_in(
        sink,
        language,
        FORM_PART,
        &[
            Value::Number(u16::from(name.part)),
            Value::Number(u16::from(name.parts)),
            Value::Model(name.model),
            Value::Number(u16::from(name.day)),
            Value::Number(u16::from(name.part)),
            Value::Number(u16::from(name.parts)),
            Value::Number(letters as u16),
        ],
    );
}

/// Writes a rotor machine's ground setting and enciphered message key; on a Converter, writes nothing.
fn draw_indicator<W: Sink>(
    sink: &mut W,
    language: Language,
    results: Results,
    indicator: &Option<Indicator>,
)
    ensures { Draws W.taken W.has_failed sink.old sink.new
        (indicator_text results language indicator.now) }
{
    match indicator {
        Some(indicator) => draw_keys(sink, language, results, indicator),
        None => draw(sink, ""),
    }
}

fn draw_keys<W: Sink>(sink: &mut W, language: Language, results: Results, indicator: &Indicator)
    ensures { Draws W.taken W.has_failed sink.old sink.new
        (keys_text results language indicator.now) }
{
    draw_in(sink, language, FORM_GROUND);
    draw_letters(sink, indicator.ground_setting.as_slice());
    draw_in(sink, language, FORM_KEY);
    draw_letters_with(sink, results, indicator.enciphered_key.as_slice());
    draw(sink, FORM_KEY_END);
}

/// Writes `letters`. If `results` are left open, writes an underscore in place of each letter.
fn draw_letters_with<W: Sink>(sink: &mut W, results: Results, letters: &[Letter])
    ensures { Draws W.taken W.has_failed sink.old sink.new (letters_with results letters.now) }
{
    match results {
        Results::Shown => draw_letters(sink, letters),
        Results::LeftOpen => draw_open_letters(sink, letters),
    }
}

/// Writes an underscore in place of each letter, as a line to write on.
fn draw_open_letters<W: Sink>(sink: &mut W, letters: &[Letter])
    ensures { Draws W.taken W.has_failed sink.old sink.new
        (letters_with Results.LeftOpen letters.now) }
{
    if let [_, rest @ ..] = letters {
        draw(sink, OPEN_LETTER);
        draw_open_letters(sink, rest);
    }
}

/// Writes letters in groups of five.
fn draw_form_groups<W: Sink>(sink: &mut W, results: Results, letters: &[Letter])
    ensures { Draws W.taken W.has_failed sink.old sink.new
        (flat_map (form_group results) (pieces 5 letters.now)) }
{
    if !letters.is_empty() {
        let (group, rest) = first_piece(letters, 5);
        draw_form_group(sink, results, group);
        draw_form_groups(sink, results, rest);
    }
}

fn draw_form_group<W: Sink>(sink: &mut W, results: Results, letters: &[Letter])
    ensures { Draws W.taken W.has_failed sink.old sink.new (form_group results letters.now) }
{
    draw(sink, FORM_GROUP);
    draw_letters_with(sink, results, letters);
    draw(sink, FORM_GROUP_END);
}

/// The note below a part. It says which groups of the part are fillers or indicators.
fn part_note(language: Language, indicator: &Option<Indicator>) -> &'static str
    ensures { result.now ≡ part_note language indicator.now }
{
    match indicator {
        Some(_) => language.text(FORM_ROTOR_NOTE),
        None => language.text(FORM_PIN_NOTE),
    }
}
