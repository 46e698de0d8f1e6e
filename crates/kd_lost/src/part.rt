//! Reads one part of a form. Letters of the part may be lost.
ghost use Rattle.std.specs.Prelude.{◌≡◌, ◌↔◌, All, IsTrue, MatchResult, IfOk, None, false, length};
ghost use Rattle.kd_tables.specs.LineWords.{IsWithout};
ghost use Rattle.kd_form.specs.FormParts.{IsHeading};
ghost use Rattle.kd_lost.specs.DamagedPart.{AreNumbersRead, IsDamagedBodyAnswer, IsDamagedLinesAnswer};
ghost use Rattle.kd_lost.specs.DamagedPart.{IsHeadedPartAnswer};
ghost use Rattle.kd_lost.specs.DamagedPart.{IsDamagedTextAnswer, IsPartShown, IsPartTest, body_letters, body_of, first_line};
ghost use Rattle.kd_lost.specs.DamagedPart.{numbers_of};
ghost use Rattle.kd_lost.specs.HeadingLine.{heading_signs, is_order};
ghost use Rattle.kd_lost.specs.Lost.{meant_byte, received_letters};
ghost use Rattle.kd_lost.specs.ShortGroup.{IsFirstShortGroup};
ghost use Rattle.kd_lost.specs.ShortLine.{short_line};
ghost use Rattle.kd_lost.specs.WrongSign.{IsFirstWrongSign};

use crate::body::{decipher_pin, decipher_rotor};
use crate::damage::PartDamage;
use crate::damaged_text::{DamagedText, GroupTest};
use crate::heading_line::{heading_signs, is_order};
use crate::received::{
    are_body_bytes, body_letters, filled_line, has_lost_byte, is_spelled, letter_count,
    received_letters,
};
use crate::short_group::first_short_group;
use crate::short_line::{ShortLine, first_short_line};
use crate::warnings::test_body;
use crate::wrong_sign::{WrongSign, first_wrong_sign};
use arrayvec::{ArrayString, ArrayVec};
use kd_form::day_machine::slots_of;
use kd_form::heading::Heading;
use kd_form::receiving::heading_reader::heading_of_ended_line;
use kd_state::SheetDay;
use kd_tables::{Letter, split_once};

/// The result of reading one part of a form. Letters of the part may be lost.
#[derive(Drop)]
pub struct DamagedPart {
    /// The numbers in the heading. If only the letter count is damaged, and the part is read by count, `letters` is the
    /// number of received letters. With any other damage of the heading, `None`.
    pub numbers: Option<PartNumbers>,
    /// The first signs of the received heading line, at most 64. `?` stands for each sign that isn't allowed in a
    /// heading.
    pub heading: ArrayString<64>,
    /// How many letters the received body has, lost ones included.
    pub came: usize,
    /// The first letters of the body, at most 525. A sign that isn't allowed in a body counts as a lost letter.
    pub body: ArrayVec<Option<Letter>, 525>,
    /// Whether the group or the list letters in the body are the day's letters. They are tested even if the part isn't
    /// read, but not if its heading is damaged.
    pub group: GroupTest,
    /// The text, or why it can't be read.
    pub text: Result<DamagedText, PartDamage>,
    /// The first wrong sign of the body, if it has one.
    pub wrong_sign: Option<WrongSign>,
    /// The text by count, if the heading's count may be wrong. It is read with the number of received letters in place
    /// of the heading's count.
    pub by_count: Option<DamagedText>,
    /// The first short line of the body: it has letters, but not exactly 50, and letters follow the line. `None` if no
    /// line is short.
    pub short_line: Option<ShortLine>,
    /// The number of the first short group: it doesn't have five letters, and more letters follow. `None` if each
    /// group but the last has five letters.
    pub short_group: Option<usize>,
    /// Whether needless blanks in the part's first line were dropped. They are dropped if the line, with its blanks,
    /// isn't a heading.
    pub respaced: bool,
    /// Whether the part has no small letter and no tab. These are read as capital letters and spaces.
    pub as_spelled: bool,
    /// Whether the part looks like an order to send instead of a received form.
    pub is_order: bool,
    /// The line of the form on which the part begins, counted from 1. For a part that is read without a form, it is 1.
    pub line: usize,
}

/// The numbers in the heading of a part.
#[derive(Clone, Copy, Debug, PartialEq, Eq)]
pub struct PartNumbers {
    /// The part's number, counted from 1.
    pub part: u8,
    /// The number of parts that the heading gives.
    pub parts: u8,
    /// The letter count in the heading.
    pub letters: usize,
}

/// Reads one part of a form. In the text, `None` stands for each lost letter.
///
/// `day` says which headings are valid. If `receive` reads the part, both give the same text. If a letter of a key is
/// lost, but you know it, put it into the form, and read the form again.
pub fn read_damaged_part(day: &SheetDay, part: &[u8]) -> DamagedPart
    ensures numbers { AreNumbersRead day.now (first_line part.now) result.numbers }
    ensures heading { result.heading.bytes ≡ heading_signs (first_line part.now) }
    ensures came { result.came ≡ length (received_letters (body_of part.now)) }
    ensures body { result.body.items ≡ body_letters (body_of part.now) }
    ensures group { IsPartTest day.now result.numbers result.body.items result.group }
    ensures text { IsDamagedTextAnswer day.now part.now result.text }
    ensures shown { IfOk result.text (IsPartShown day.now part.now) }
    ensures wrong_sign { IsFirstWrongSign (body_of part.now) result.wrong_sign }
    ensures by_count { result.by_count ≡ None }
    ensures short_line { result.short_line ≡ short_line (body_of part.now) }
    ensures short_group { IsFirstShortGroup (body_of part.now) result.short_group }
    ensures as_it_stands { result.respaced ≡ false }
    ensures as_spelled { IsTrue result.as_spelled ↔ All (λ byte. meant_byte byte ≡ byte) part.now }
    ensures is_order { result.is_order ≡ is_order part.now }
    ensures line { result.line ≡ 1 }
{
    let (line, body) = line_and_body(part);
    let mut read = read_lines(day, line, body);
    read.as_spelled = is_spelled(part);
    read.is_order = is_order(part);
    read
}

/// The first line of `part`, without its LF, and the bytes after this LF.
fn line_and_body(part: &[u8]) -> (&[u8], &[u8])
    ensures unbroken { IsWithout 10 result.0.now }
    ensures line { result.0.now ≡ first_line part.now }
    ensures body { result.1.now ≡ body_of part.now }
{
    match split_once(part, b'\n') {
        Some(lines) => lines,
        None => (part, &[]),
    }
}

/// Reads the part that consists of `line` and `body`, but doesn't yet set the fields `as_spelled` and `is_order`.
fn read_lines(day: &SheetDay, line: &[u8], body: &[u8]) -> DamagedPart
    requires { IsWithout 10 line.now }
    ensures numbers { AreNumbersRead day.now line.now result.numbers }
    ensures heading { result.heading.bytes ≡ heading_signs line.now }
    ensures came { result.came ≡ length (received_letters body.now) }
    ensures body { result.body.items ≡ body_letters body.now }
    ensures group { IsPartTest day.now result.numbers result.body.items result.group }
    ensures text { IsDamagedLinesAnswer day.now line.now body.now result.text }
    ensures wrong_sign { IsFirstWrongSign body.now result.wrong_sign }
    ensures by_count { result.by_count ≡ None }
    ensures short_line { result.short_line ≡ short_line body.now }
    ensures short_group { IsFirstShortGroup body.now result.short_group }
    ensures as_it_stands { result.respaced ≡ false }
    ensures line { result.line ≡ 1 }
{
    let mut read = DamagedPart {
        numbers: None,
        heading: heading_signs(line),
        came: letter_count(body),
        group: GroupTest::NotTested,
        body: body_letters(body),
        text: Err(PartDamage::HeadingDamaged),
        wrong_sign: first_wrong_sign(body),
        by_count: None,
        short_line: first_short_line(body),
        short_group: first_short_group(body),
        respaced: false,
        as_spelled: true,
        is_order: false,
        line: 1,
    };
    if let Some(heading) = heading_of_ended_line(day, filled_line(line).as_slice()) {
        read.numbers = Some(numbers_of(&heading));
        read.group = test_body(day, heading.letters, read.body.as_slice());
        read.text = read_body_after(day, &heading, line, body);
    }
    read
}

/// The numbers in `heading`.
fn numbers_of(heading: &Heading) -> PartNumbers
    ensures { result ≡ numbers_of heading.now }
{
    PartNumbers {
        part: heading.part,
        parts: heading.parts,
        letters: heading.letters,
    }
}

/// Reads the body of a part whose heading is `heading`, received as `line`.
fn read_body_after(
    day: &SheetDay,
    heading: &Heading,
    line: &[u8],
    body: &[u8],
) -> Result<DamagedText, PartDamage>
    requires { IsHeading day.now heading.now }
    ensures { IsHeadedPartAnswer day.now heading.now line.now body.now result }
{
    if has_lost_byte(line) {
        return Err(PartDamage::HeadingKeyLost);
    }
    read_damaged_body(day, heading, body)
}

/// Reads the body of a part with the heading `heading`.
fn read_damaged_body(
    day: &SheetDay,
    heading: &Heading,
    body: &[u8],
) -> Result<DamagedText, PartDamage>
    requires { IsHeading day.now heading.now }
    ensures { IsDamagedBodyAnswer day.now heading.now body.now result }
{
    if !are_body_bytes(body) {
        return Err(PartDamage::BadByte);
    }
    let letters = received_letters(body);
    if letters.len() != heading.letters {
        return Err(PartDamage::CountWrong);
    }
    prove!(slots_of(day) != Some(0));
    match &heading.indicator {
        Some(indicator) => Ok(decipher_rotor(day, indicator, letters.as_slice())),
        None => decipher_pin(day, letters.as_slice()),
    }
}
