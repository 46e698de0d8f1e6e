//! Writes why parts aren't read, and what to ask the other station for.
ghost use Rattle.std.specs.Prelude.{◌≡◌, ◌≤◌, ◌+◌, ◌-◌, Some, length};
ghost use Rattle.kd_pictures.specs.Drawing.{Draws};
ghost use Rattle.kd_message.specs.TextSheet.{ask_text, asked_words, bad_byte_text, counts_text, damage_text};
ghost use Rattle.kd_lost.specs.ByCount.{heading_count};
ghost use Rattle.kd_message.specs.TextSheet.{count_asked, heading_fault, indicator_groups, indicator_place};
ghost use Rattle.kd_message.specs.TextSheet.{key_letter_group, key_letter_groups, keys_and_groups, line_words};
ghost use Rattle.kd_message.specs.TextSheet.{missing_text, reason_text};
ghost use Rattle.kd_message.specs.TextSheet.{sign_group, sign_groups};
ghost use Rattle.kd_message.specs.TextSheet.{count_text, short_groups, short_text, short_words};
ghost use Rattle.kd_message.specs.TextSheet.{sign_text, sign_words};

use crate::groups::{draw_group_words, draw_groups_words, draw_lost_groups, has_lost};
use crate::text_sheet::{draw_ask_for_day, draw_count, unread_warnings};
use crate::texts::{
    ALL_OF_IT, ASK, ASK_END, BAD_BYTE, COLON, COPIES_DIFFER, COUNT_CAME, COUNT_END, COUNT_WRONG,
    FULL_LINE, GAP, HEADING_DAMAGED, HEADING_KEY_LOST, ITS_COUNT, ITS_COUNT_OR_LINES, ITS_HEADING,
    ITS_KEYS, KEY_LETTER_LOST, KEY_NOT_ON_WHEEL, LETTER_OF_LINE, LINE, LINE_HAS, NO_INTERNAL_KEY,
    NO_LETTER, REASON_END, THIS_SIGN, UNREAD,
};
use itoa::Buffer;
use kd_language::Language;
use kd_lost::{DamagedPart, PartDamage, ShortLine, WrongSign, heading_count, part_line};
use kd_part_sheet::markup::COMMA;
use kd_part_sheet::part_sheet::{PartName, PartPage, draw_warnings};
use kd_pictures::template::{Value, fill_in};
use kd_pictures::{draw, draw_in};
use kd_tables::{Letter, Sink};

/// Writes the paragraph about a part that didn't come. `reason` is the sentence that says so.
pub(crate) fn draw_missing<W: Sink>(sink: &mut W, language: Language, name: PartName, reason: &str)
    ensures { Draws W.taken W.has_failed sink.old sink.new (missing_text language name reason.now) }
{
    draw_in(sink, language, UNREAD);
    draw(sink, reason);
    draw(sink, REASON_END);
    draw_ask(sink, language, name, language.text(ALL_OF_IT));
}

/// Writes the checkbox to ask for a repetition of a part. `words` say what to repeat.
pub(crate) fn draw_ask<W: Sink>(sink: &mut W, language: Language, name: PartName, words: &str)
    ensures { Draws W.taken W.has_failed sink.old sink.new
        (ask_text language name.part words.now) }
{
    fill_in(sink, language, ASK, &[Value::Number(u16::from(name.part))]);
    draw(sink, words);
    draw(sink, ASK_END);
}

/// Writes why a part isn't read, and what to ask for. Warns if the part may be of another day.
pub(crate) fn draw_damage<W: Sink>(
    sink: &mut W,
    page: PartPage,
    part: &DamagedPart,
    damage: PartDamage,
)
    ensures { Draws W.taken W.has_failed sink.old sink.new
        (damage_text page.language page.sheet page.name part.now damage) }
{
    let PartPage {
        language,
        sheet,
        name,
    } = page;
    draw_in(sink, language, UNREAD);
    draw_reason(sink, language, part, damage);
    draw(sink, REASON_END);
    fill_in(sink, language, ASK, &[Value::Number(u16::from(name.part))]);
    draw_asked(sink, language, part, damage);
    draw(sink, ASK_END);
    draw_warnings(sink, language, sheet, unread_warnings(part.group));
    draw_ask_for_day(sink, language, name, part.group);
}

/// Writes why a part isn't read.
pub(crate) fn draw_reason<W: Sink>(
    sink: &mut W,
    language: Language,
    part: &DamagedPart,
    damage: PartDamage,
)
    ensures { Draws W.taken W.has_failed sink.old sink.new
        (reason_text language part.now damage) }
{
    match damage {
        PartDamage::HeadingDamaged => {
            draw_heading_fault(sink, language, part.line, language.text(HEADING_DAMAGED))
        }
        PartDamage::HeadingKeyLost => {
            draw_heading_fault(sink, language, part.line, language.text(HEADING_KEY_LOST))
        }
        PartDamage::BadByte => draw_bad_byte(sink, language, part.line, &part.wrong_sign),
        PartDamage::CountWrong => draw_count_wrong(sink, language, part),
        PartDamage::CopiesDiffer(number) => fill_in(
            sink,
            language,
            COPIES_DIFFER,
            &[Value::Number(indicator_place(number))],
        ),
        PartDamage::KeyLetterLost(number) => fill_in(
            sink,
            language,
            KEY_LETTER_LOST,
            &[Value::Number(indicator_place(number))],
        ),
        PartDamage::KeyNotOnWheel => draw_in(sink, language, KEY_NOT_ON_WHEEL),
        PartDamage::NoInternalKey => draw_in(sink, language, NO_INTERNAL_KEY),
    }
}

/// Writes what is wrong with a heading: the words for the heading's line, `line`, and then the text `fault`.
pub(crate) fn draw_heading_fault<W: Sink>(
    sink: &mut W,
    language: Language,
    line: usize,
    fault: &str,
)
    ensures { Draws W.taken W.has_failed sink.old sink.new
        (heading_fault language line fault.now) }
{
    draw_line_words(sink, language, line, 1);
    draw(sink, fault);
}

/// Writes the words for line `number` of a part, such as *Line 12*.
///
/// They give the line's number in the form: the part begins on line `line` of the form.
pub(crate) fn draw_line_words<W: Sink>(sink: &mut W, language: Language, line: usize, number: usize)
    ensures { Draws W.taken W.has_failed sink.old sink.new (line_words language line number) }
{
    draw_in(sink, language, LINE);
    draw(sink, Buffer::new().format(line_of_form(line, number)));
}

/// The line of the form on which line `number` of a part stands. The part begins on line `line` of the form.
fn line_of_form(line: usize, number: usize) -> u128
    ensures { result ≡ line + number - 1 }
{
    (line as u128 + number as u128).saturating_sub(1)
}

/// Writes that a sign of the body is wrong, with its place. The part begins on line `line` of the form.
fn draw_bad_byte<W: Sink>(sink: &mut W, language: Language, line: usize, sign: &Option<WrongSign>)
    ensures { Draws W.taken W.has_failed sink.old sink.new
        (bad_byte_text language line sign.now) }
{
    match sign {
        Some(sign) => draw_sign(sink, language, line, *sign),
        None => draw_in(sink, language, BAD_BYTE),
    }
}

fn draw_sign<W: Sink>(sink: &mut W, language: Language, line: usize, sign: WrongSign)
    ensures { Draws W.taken W.has_failed sink.old sink.new (sign_text language line sign) }
{
    draw_line_words(sink, language, line, sign.line);
    draw_in(sink, language, LETTER_OF_LINE);
    draw_count(sink, sign.letter);
    draw(sink, COLON);
    draw_sign_words(sink, language, sign.byte);
    draw_in(sink, language, NO_LETTER);
}

/// Writes the words for a wrong sign: the digit if the sign is a digit, and "this sign" for any other sign.
fn draw_sign_words<W: Sink>(sink: &mut W, language: Language, byte: u8)
    ensures { Draws W.taken W.has_failed sink.old sink.new (sign_words language byte) }
{
    if byte >= b'0' && byte <= b'9' {
        draw_count(sink, usize::from(byte - b'0'));
    } else {
        draw_in(sink, language, THIS_SIGN);
    }
}

/// Writes the words for the groups with a lost letter or a wrong sign, among the first 525 letters of the body.
///
/// If there is no such group, writes the words for the group of the first wrong sign.
fn draw_sign_groups<W: Sink>(sink: &mut W, language: Language, part: &DamagedPart)
    ensures { Draws W.taken W.has_failed sink.old sink.new (sign_groups language part.now) }
{
    let letters = part.body.as_slice();
    if has_lost(letters) {
        draw_lost_groups(sink, language, "", false, 1, letters);
    } else {
        draw_sign_group(sink, language, &part.wrong_sign);
    }
}

/// Writes the words for the group in which a wrong sign stands.
fn draw_sign_group<W: Sink>(sink: &mut W, language: Language, sign: &Option<WrongSign>)
    ensures { Draws W.taken W.has_failed sink.old sink.new (sign_group language sign.now) }
{
    match sign {
        Some(sign) => draw_group_words(sink, language, sign.place.saturating_sub(1) / 5 + 1),
        None => draw_in(sink, language, ALL_OF_IT),
    }
}

/// Writes the line number of the heading, the heading's count, and the number of letters that came.
pub(crate) fn draw_counts<W: Sink>(sink: &mut W, language: Language, part: &DamagedPart)
    ensures { Draws W.taken W.has_failed sink.old sink.new
        (counts_text language part.now.line (heading_count part.now.numbers) part.now.came) }
{
    draw_line_words(sink, language, part.line, 1);
    draw_in(sink, language, COUNT_WRONG);
    draw_count(sink, heading_count(&part.numbers));
    draw_in(sink, language, COUNT_CAME);
    draw_count(sink, part.came);
    draw_in(sink, language, COUNT_END);
}

/// Writes the heading's count, and the number of letters that came. If a short line explains the difference, writes
/// how many letters it has.
fn draw_count_wrong<W: Sink>(sink: &mut W, language: Language, part: &DamagedPart)
    ensures { Draws W.taken W.has_failed sink.old sink.new (count_text language part.now) }
{
    draw_counts(sink, language, part);
    draw_short(sink, language, part.line, part_line(part));
}

fn draw_short<W: Sink>(sink: &mut W, language: Language, line: usize, short: Option<ShortLine>)
    ensures { Draws W.taken W.has_failed sink.old sink.new (short_text language line short) }
{
    match short {
        Some(short) => draw_short_words(sink, language, line, short),
        None => draw(sink, ""),
    }
}

/// Writes how many letters a short line has, and that a full line has 50. The part begins on line `line` of the form.
fn draw_short_words<W: Sink>(sink: &mut W, language: Language, line: usize, short: ShortLine)
    ensures { Draws W.taken W.has_failed sink.old sink.new (short_words language line short) }
{
    draw(sink, GAP);
    draw_line_words(sink, language, line, short.line);
    draw_in(sink, language, LINE_HAS);
    draw_count(sink, short.letters);
    draw_in(sink, language, FULL_LINE);
}

/// If a part isn't read because its count is wrong, writes what to ask for.
///
/// If the short line `short` explains the wrong count, asks for the ten groups of this line.
fn draw_short_groups<W: Sink>(
    sink: &mut W,
    language: Language,
    group: Option<usize>,
    short: Option<ShortLine>,
)
    ensures { Draws W.taken W.has_failed sink.old sink.new (short_groups language group short) }
{
    match short {
        Some(short) => {
            let before = short.before / 5;
            draw_groups_words(sink, language, before + 1, before + 10)
        }
        None => draw_count_asked(sink, language, PartDamage::CountWrong, group),
    }
}

/// If the count is wrong or damaged, writes what to ask for. `group` is the number of the first short group. A short
/// group doesn't have five letters, and more letters follow.
pub(crate) fn draw_count_asked<W: Sink>(
    sink: &mut W,
    language: Language,
    damage: PartDamage,
    group: Option<usize>,
)
    ensures { Draws W.taken W.has_failed sink.old sink.new (count_asked language damage group) }
{
    match (damage, group) {
        (_, Some(group)) => draw_count_and_group(sink, language, group),
        (PartDamage::HeadingDamaged, None) => draw_in(sink, language, ITS_COUNT),
        (_, None) => draw_in(sink, language, ITS_COUNT_OR_LINES),
    }
}

fn draw_count_and_group<W: Sink>(sink: &mut W, language: Language, group: usize)
    ensures { Draws W.taken W.has_failed sink.old sink.new
        (count_asked language PartDamage.CountWrong (Some group)) }
{
    draw_in(sink, language, ITS_COUNT);
    draw(sink, COMMA);
    draw_group_words(sink, language, group);
}

/// The place of key letter `number` in the first copy of the indicators, counted from 1.
///
/// The chosen letter, number 0, has the places 1 and 2: the answer is 1.
fn indicator_place(number: u8) -> u16
    ensures { result ≡ indicator_place number }
{
    if number == 0 {
        1
    } else {
        u16::from(number) + 2
    }
}

/// Which of the first two groups has key letter `number`: group 1 or group 2.
fn key_letter_group(number: u8) -> usize
    ensures { result ≡ key_letter_group number }
{
    if indicator_place(number) <= 5 { 1 } else { 2 }
}

/// For a part that isn't read, writes what to ask for.
pub(crate) fn draw_asked<W: Sink>(
    sink: &mut W,
    language: Language,
    part: &DamagedPart,
    damage: PartDamage,
)
    ensures { Draws W.taken W.has_failed sink.old sink.new
        (asked_words language part.now damage) }
{
    match damage {
        PartDamage::HeadingDamaged if part.came > 0 => draw_in(sink, language, ITS_HEADING),
        PartDamage::HeadingKeyLost => draw_keys_and_groups(sink, language, part.body.as_slice()),
        PartDamage::BadByte => draw_sign_groups(sink, language, part),
        PartDamage::HeadingDamaged => draw_in(sink, language, ALL_OF_IT),
        PartDamage::CountWrong => {
            draw_short_groups(sink, language, part.short_group, part_line(part))
        }
        PartDamage::CopiesDiffer(number) => {
            draw_key_letter_groups(sink, language, part.came, number)
        }
        PartDamage::KeyLetterLost(number) => {
            draw_group_words(sink, language, key_letter_group(number))
        }
        PartDamage::KeyNotOnWheel | PartDamage::NoInternalKey => {
            draw_indicator_groups(sink, language, part.came)
        }
    }
}

/// If a letter of the ground setting or of the enciphered key is lost, writes what to ask for.
///
/// Asks for both keys, and for each group of the text with a lost letter or a wrong sign. `body` has the letters of
/// the body.
fn draw_keys_and_groups<W: Sink>(sink: &mut W, language: Language, body: &[Option<Letter>])
    requires { length body.now ≤ 525 }
    ensures { Draws W.taken W.has_failed sink.old sink.new
        (keys_and_groups language body.now) }
{
    let (_, text) = body.split_at(body.len().min(5));
    draw_in(sink, language, ITS_KEYS);
    draw_lost_groups(sink, language, COMMA, false, 2, text);
}

/// Writes the words for the two groups that have key letter `number`. The body has `came` letters.
fn draw_key_letter_groups<W: Sink>(sink: &mut W, language: Language, came: usize, number: u8)
    ensures { Draws W.taken W.has_failed sink.old sink.new
        (key_letter_groups language came number) }
{
    let group = key_letter_group(number);
    draw_group_words(sink, language, group);
    draw(sink, COMMA);
    draw_group_words(sink, language, (came / 5).saturating_sub(2) + group);
}

/// Writes the words for the groups with the indicators: the first two and the last two groups of a body of `came`
/// letters.
fn draw_indicator_groups<W: Sink>(sink: &mut W, language: Language, came: usize)
    ensures { Draws W.taken W.has_failed sink.old sink.new
        (indicator_groups language came) }
{
    let last = came / 5;
    draw_groups_words(sink, language, 1, 2);
    draw(sink, COMMA);
    draw_groups_words(sink, language, last.saturating_sub(1), last);
}
