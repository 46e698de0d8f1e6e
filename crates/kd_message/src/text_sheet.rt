//! The sheet that gives the text of a received form, and says what to ask the other station for.
ghost use Rattle.std.specs.Prelude.{◌≡◌, ◌∷◌, ◌≤◌, [], None, decimal, false, length, map};
ghost use Rattle.kd_pictures.specs.Drawing.{Draws};
ghost use Rattle.kd_form.specs.Sending.{space_letter};
ghost use Rattle.kd_lost.specs.DamagedForm.{shown_byte};
ghost use Rattle.kd_part_sheet.specs.Rows.{pieces};
ghost use Rattle.kd_lost.specs.ShownParts.{numbers_of};
ghost use Rattle.kd_message.specs.TextSheet.{ask_for_lost, ask_text, begins_late, came_text, came_words};
ghost use Rattle.kd_message.specs.TextSheet.{ask_for_day, day_groups, first_text_group, group_requests, is_any_smoothed};
ghost use Rattle.kd_message.specs.TextSheet.{is_copy_lost, is_not_tested, lost_groups, numbers_after, unread_warnings};
ghost use Rattle.kd_message.specs.TextSheet.{order_text, order_text_of, order_words, passed_text, read_text};
ghost use Rattle.kd_message.specs.TextSheet.{open_byte, text_begin, text_letters, text_part_head, text_sheet_head, warnings_of};

use crate::clash_words::draw_clash_paragraph;
use crate::groups::{draw_lost_groups, has_lost};
use crate::texts::{
    ASK, ASK_END, CAME, CAME_END, DAY_GROUP, LIST_GROUPS, OPEN_LETTER, ORDER, ORDER_END,
    PASSED_OVER, TEXT_END, TEXT_LETTERS, TEXT_PART, TEXT_SHEET, TEXT_WORDS,
};
use crate::unread::draw_ask;
use itoa::Buffer;
use kd_form::text_bytes::space_letter;
use kd_language::Language;
use kd_lost::{
    DamagedPart, DamagedText, GroupTest, LostCopies, are_in_order, clash_of, is_wrong_day,
};
use kd_part_sheet::markup::{COMMA, LOST_LETTER, SPACE};
use kd_part_sheet::part_sheet::{PartName, PartPage, Warnings, draw_warnings};
use kd_pictures::template::{Value, draw_letter, fill_in};
use kd_pictures::words::is_converter;
use kd_pictures::{Results, draw, draw_in};
use kd_state::SheetDay;
use kd_tables::{Letter, Model, Sink};

/// Writes the head of the sheet with the text: a title that gives the model and the day, and fields to fill in.
pub(crate) fn draw_text_sheet_head<W: Sink>(sink: &mut W, language: Language, day: &SheetDay)
    ensures { Draws W.taken W.has_failed sink.old sink.new (text_sheet_head language day.now) }
{
    fill_in(
        sink,
        language,
        TEXT_SHEET,
        &[
            Value::Model(day.model()),
            Value::Number(u16::from(day.day())),
        ],
    );
}

/// Writes that not all of the form was read as it stands.
///
/// Some lines or blanks were passed over, or tabs or small letters were read as spaces or capitals. Writes nothing if
/// all of the form was read as it stands.
pub(crate) fn draw_passed<W: Sink>(sink: &mut W, language: Language, parts: &[DamagedPart])
    ensures { Draws W.taken W.has_failed sink.old sink.new (passed_text language parts.now) }
{
    if begins_late(parts) || is_any_smoothed(parts) {
        draw_in(sink, language, PASSED_OVER);
    } else {
        draw(sink, "");
    }
}

/// Whether lines of the form stand before its first part.
fn begins_late(parts: &[DamagedPart]) -> bool
    ensures { result ≡ begins_late parts.now }
{
    match parts {
        [part, ..] => part.line > 1,
        [] => false,
    }
}

/// Whether needless blanks in a part's heading were dropped, or a part has tabs or small letters.
fn is_any_smoothed(parts: &[DamagedPart]) -> bool
    ensures { result ≡ is_any_smoothed parts.now }
{
    match parts {
        [part, rest @ ..] => part.respaced || !part.as_spelled || is_any_smoothed(rest),
        [] => false,
    }
}

/// Writes that the parts aren't of one message, or in which order they came.
///
/// Writes nothing if the parts are of one message, and came in the order of their numbers.
pub(crate) fn draw_order<W: Sink>(sink: &mut W, language: Language, parts: &[DamagedPart])
    ensures { Draws W.taken W.has_failed sink.old sink.new (order_text language parts.now) }
{
    match clash_of(parts) {
        Some(clash) => draw_clash_paragraph(sink, language, parts, clash),
        None => draw_arrival(sink, language, parts),
    }
}

/// If the parts didn't come in the order of their numbers, writes in which order they came.
fn draw_arrival<W: Sink>(sink: &mut W, language: Language, parts: &[DamagedPart])
    ensures { Draws W.taken W.has_failed sink.old sink.new
        (order_text_of language parts.now None) }
{
    if are_in_order(0, parts) {
        draw(sink, "");
    } else {
        draw_order_words(sink, language, parts);
    }
}

/// If a part came more than once, writes how often it came.
pub(crate) fn draw_came<W: Sink>(sink: &mut W, language: Language, times: usize)
    ensures { Draws W.taken W.has_failed sink.old sink.new (came_text language times) }
{
    if times > 1 {
        draw_came_words(sink, language, times);
    } else {
        draw(sink, "");
    }
}

fn draw_came_words<W: Sink>(sink: &mut W, language: Language, times: usize)
    ensures { Draws W.taken W.has_failed sink.old sink.new (came_words language times) }
{
    draw_in(sink, language, CAME);
    draw_count(sink, times);
    draw_in(sink, language, CAME_END);
}

/// Writes the sentence that gives the parts' numbers in the order in which the parts came.
fn draw_order_words<W: Sink>(sink: &mut W, language: Language, parts: &[DamagedPart])
    ensures { Draws W.taken W.has_failed sink.old sink.new
        (order_words language (numbers_of parts.now)) }
{
    draw_in(sink, language, ORDER);
    draw_numbers(sink, "", parts);
    draw_in(sink, language, ORDER_END);
}

/// Writes the numbers of all numbered parts in `parts`. `first` stands before the first number, and a comma before each
/// later number.
fn draw_numbers<W: Sink>(sink: &mut W, first: &str, parts: &[DamagedPart])
    ensures { Draws W.taken W.has_failed sink.old sink.new
        (numbers_after first.now (numbers_of parts.now)) }
{
    if let [part, rest @ ..] = parts {
        if let Some(numbers) = &part.numbers {
            draw(sink, first);
            draw_count(sink, usize::from(numbers.part));
            draw_numbers(sink, COMMA, rest);
        } else {
            draw_numbers(sink, first, rest);
        }
    }
}

/// Writes the head of a part, on the sheet with the text.
pub(crate) fn draw_text_part_head<W: Sink>(sink: &mut W, language: Language, name: PartName)
    ensures { Draws W.taken W.has_failed sink.old sink.new (text_part_head language name) }
{
    fill_in(
        sink,
        language,
        TEXT_PART,
        &[
            Value::Number(u16::from(name.part)),
            Value::Number(u16::from(name.parts)),
            Value::Model(name.model),
            Value::Number(u16::from(name.day)),
        ],
    );
}

/// Writes the text of a part, its warnings, and the groups to ask for.
pub(crate) fn draw_read_text<W: Sink>(
    sink: &mut W,
    page: PartPage,
    day: &SheetDay,
    shown: &DamagedText,
)
    ensures { Draws W.taken W.has_failed sink.old sink.new
        (read_text page.language page.sheet day.now page.name shown.now) }
{
    draw(sink, text_begin(page.name.model));
    draw_text_letters(sink, page.name.results, day, shown.letters.as_slice());
    draw(sink, TEXT_END);
    draw_warnings(sink, page.language, page.sheet, warnings_of(shown));
    draw_group_requests(sink, page.language, page.name, shown);
}

/// The start of a text. It says where lines may break: between any letters or, on a Converter, between words.
fn text_begin(model: Model) -> &'static str
    ensures { result.now ≡ text_begin model }
{
    if is_converter(model) {
        TEXT_WORDS
    } else {
        TEXT_LETTERS
    }
}

/// Writes the letters of a text or, if `results` are left open, a line to write on for each letter. Each lost letter is
/// written as `?`.
fn draw_text_letters<W: Sink>(
    sink: &mut W,
    results: Results,
    day: &SheetDay,
    letters: &[Option<Letter>],
)
    ensures { Draws W.taken W.has_failed sink.old sink.new
        (text_letters results day.now letters.now) }
{
    match results {
        Results::Shown => draw_letters_shown(sink, &space_letter(day), letters),
        Results::LeftOpen => draw_open_text(sink, letters),
    }
}

/// Writes a sign for each letter: `?` for a lost letter, and a line to write on for any other letter.
fn draw_open_text<W: Sink>(sink: &mut W, letters: &[Option<Letter>])
    ensures { Draws W.taken W.has_failed sink.old sink.new (map open_byte letters.now) }
{
    if let [letter, rest @ ..] = letters {
        draw(sink, open_sign(letter));
        draw_open_text(sink, rest);
    }
}

/// `?` for a lost letter, otherwise `_`, a line to write on.
fn open_sign(letter: &Option<Letter>) -> &'static str
    ensures { result.now ≡ open_byte letter.now ∷ [] }
{
    match letter {
        Some(_) => OPEN_LETTER,
        None => LOST_LETTER,
    }
}

/// Writes letters of a text, with `?` for each lost letter, and a space for each letter `for_space`.
fn draw_letters_shown<W: Sink>(sink: &mut W, for_space: &Option<Letter>, letters: &[Option<Letter>])
    ensures { Draws W.taken W.has_failed sink.old sink.new
        (map (shown_byte for_space.now) letters.now) }
{
    if let [letter, rest @ ..] = letters {
        draw_letter_shown(sink, for_space, letter);
        draw_letters_shown(sink, for_space, rest);
    }
}

fn draw_letter_shown<W: Sink>(sink: &mut W, for_space: &Option<Letter>, letter: &Option<Letter>)
    ensures { Draws W.taken W.has_failed sink.old sink.new
        (shown_byte for_space.now letter.now ∷ []) }
{
    match (for_space, letter) {
        (_, None) => draw(sink, LOST_LETTER),
        (Some(for_space), Some(letter)) if *for_space == *letter => draw(sink, SPACE),
        (_, Some(letter)) => draw_letter(sink, *letter),
    }
}

/// The warnings of a part that is read.
pub(crate) fn warnings_of(shown: &DamagedText) -> Warnings
    ensures { result ≡ warnings_of shown.now }
{
    Warnings {
        letters_lost: has_lost(shown.received.as_slice()),
        copies_lost: is_copy_lost(&shown.copies) && !is_not_tested(shown.group),
        wrong_day: is_wrong_day(shown.group),
        not_tested: is_not_tested(shown.group),
    }
}

/// Whether a letter is lost in some copy of the indicators.
fn is_copy_lost(copies: &Option<LostCopies>) -> bool
    ensures { result ≡ is_copy_lost copies.now }
{
    match copies {
        Some(copies) => copies.at_start || copies.at_end,
        None => false,
    }
}

/// The only possible warning about a part that isn't read: that the part may be of another day.
pub(crate) fn unread_warnings(group: GroupTest) -> Warnings
    ensures { result ≡ unread_warnings group }
{
    Warnings {
        letters_lost: false,
        copies_lost: false,
        wrong_day: is_wrong_day(group),
        not_tested: false,
    }
}

/// Whether the part's day couldn't be tested: a letter of the indicator group is lost, or a list letter is lost in both
/// copies.
fn is_not_tested(group: GroupTest) -> bool
    ensures { result ≡ is_not_tested group }
{
    match group {
        GroupTest::NotTested => true,
        GroupTest::Right | GroupTest::Wrong => false,
    }
}

/// Writes all checkboxes to ask for groups of a part that is read.
fn draw_group_requests<W: Sink>(
    sink: &mut W,
    language: Language,
    name: PartName,
    shown: &DamagedText,
)
    ensures { Draws W.taken W.has_failed sink.old sink.new (group_requests language name shown.now) }
{
    draw_ask_for_day(sink, language, name, shown.group);
    draw_ask_for_lost(sink, language, name, shown.letters.as_slice());
}

/// If the letters that show the day aren't the day's, writes the checkbox to ask for their groups.
pub(crate) fn draw_ask_for_day<W: Sink>(
    sink: &mut W,
    language: Language,
    name: PartName,
    group: GroupTest,
)
    ensures { Draws W.taken W.has_failed sink.old sink.new (ask_for_day language name group) }
{
    if is_wrong_day(group) {
        draw_ask(sink, language, name, day_groups(language, name.model));
    } else {
        draw(sink, "");
    }
}

/// The words for the groups that show the day: the group with the indicator group or, on a Converter, the two groups
/// with list letters.
pub(crate) fn day_groups(language: Language, model: Model) -> &'static str
    ensures { result.now ≡ day_groups language model }
{
    if is_converter(model) {
        language.text(LIST_GROUPS)
    } else {
        language.text(DAY_GROUP)
    }
}

/// If letters are lost, writes the checkbox to ask for the groups with lost letters.
fn draw_ask_for_lost<W: Sink>(
    sink: &mut W,
    language: Language,
    name: PartName,
    letters: &[Option<Letter>],
)
    requires { length letters.now ≤ 500 }
    ensures { Draws W.taken W.has_failed sink.old sink.new
        (ask_for_lost language name letters.now) }
{
    if has_lost(letters) {
        draw_ask_groups(sink, language, name, letters);
    } else {
        draw(sink, "");
    }
}

fn draw_ask_groups<W: Sink>(
    sink: &mut W,
    language: Language,
    name: PartName,
    letters: &[Option<Letter>],
)
    requires { length letters.now ≤ 500 }
    ensures { Draws W.taken W.has_failed sink.old sink.new
        (ask_text language name.part
        (lost_groups language [] false (first_text_group name.model) (pieces 5 letters.now))) }
{
    fill_in(sink, language, ASK, &[Value::Number(u16::from(name.part))]);
    draw_lost_groups(
        sink,
        language,
        "",
        false,
        first_text_group(name.model),
        letters,
    );
    draw(sink, ASK_END);
}

/// The number of the group with which the text begins.
pub(crate) fn first_text_group(model: Model) -> usize
    ensures { result ≡ first_text_group model }
{
    if is_converter(model) { 3 } else { 2 }
}

/// Writes `number` in decimal digits.
pub(crate) fn draw_count<W: Sink>(sink: &mut W, number: usize)
    ensures { Draws W.taken W.has_failed sink.old sink.new (decimal number) }
{
    draw(sink, Buffer::new().format(number));
}
