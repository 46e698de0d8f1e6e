//! Reads a form byte by byte: divides it into parts, and each part into heading line and body.
ghost use Rattle.std.specs.Prelude.{codes, ◌≡◌, ◌↔◌, ◌+◌, ℕ, List, [], ◌∷◌, ◌++◌, length, IsTrue, Err};
ghost use Rattle.kd_form.specs.PartReading.{IsExpectedCount, IsPartAnswer, PartStart};
ghost use Rattle.kd_form.specs.FormText.{form_message};
ghost use Rattle.kd_form.specs.FormSteps.{FitsHeadingAt, IsHeadingAnswer, HoldsLine, HoldsForm};

use super::body_reader::{HEADING_LETTERS, PartBody};
use super::heading_reader::{heading_of_ended_line, heading_of_open_line};
use crate::bounded_list::push_if_room;
use crate::fault::FormFault;
use crate::heading::Heading;
use crate::stream::reader::{MessageReader, Output};
use crate::text_bytes::is_text_byte;
use arrayvec::ArrayVec;
use kd_state::SheetDay;

/// The greatest number of bytes of a heading line that the reader keeps.
///
/// A valid heading line, with its line end, has fewer bytes.
const KEPT_LINE: usize = 64;

/// A reader of a form, which holds only the current part.
#[derive(Drop)]
pub(crate) struct FormReader {
    /// How many bytes of the form were read.
    pub(crate) read: usize,
    /// The number of the current part, counted from 1.
    pub(crate) number: u8,
    /// The number of parts of the whole form, as the headings say. `None` until the first part has been read.
    pub(crate) expected: Option<u8>,
    /// What the reader keeps of the current part. The variant says whether the next byte belongs to the heading line or
    /// to the body.
    pub(crate) stage: FormStage,
}

/// What a reader keeps of the current part: at first bytes of its heading line, then its heading, and letters of its
/// body.
#[derive(Drop)]
pub(crate) enum FormStage {
    /// The heading line; its first `KEPT_LINE` bytes are kept.
    Heading(ArrayVec<u8, KEPT_LINE>),
    /// The body.
    Body(PartBody),
}

impl MessageReader for FormReader {
    ghost message = { form_message };

    ghost holds = { HoldsForm };

    fn start(_day: &SheetDay) -> FormReader {
        FormReader {
            read: 0,
            number: 1,
            expected: None,
            stage: FormStage::Heading(ArrayVec::new()),
        }
    }

    fn feed(&mut self, day: &SheetDay, byte: u8, output: &mut Output) -> Result<(), FormFault> {
        self.read += 1;
        match &mut self.stage {
            FormStage::Heading(line) => {
                if !can_follow(line.as_slice(), byte) {
                    return Err(FormFault::BadHeading(self.number));
                }
                if byte != b'\n' {
                    push_if_room(line, byte);
                    return Ok(());
                }
                let heading = heading_of_ended_line(day, line.as_slice());
                let heading = check_heading(self.number, self.expected, heading)?;
                self.stage = FormStage::Body(PartBody::new(heading));
                Ok(())
            }
            FormStage::Body(body) => {
                if !body.is_next_heading_digit(byte) {
                    if !is_text_byte(byte) {
                        return Err(FormFault::BadByte(self.read));
                    }
                    body.push(byte);
                    return Ok(());
                }
                body.decipher_into(day, HEADING_LETTERS, output)?;
                self.expected = Some(body.heading.parts);
                self.number += 1;
                self.stage = FormStage::Heading(heading_line_start(byte));
                Ok(())
            }
        }
    }

    fn end(&mut self, day: &SheetDay, output: &mut Output) -> Result<(), FormFault> {
        match &self.stage {
            FormStage::Heading(line) => Err(fault_in_heading(
                day,
                self.number,
                self.expected,
                line,
            )),
            FormStage::Body(body) => {
                body.decipher_into(day, 0, output)?;
                if body.heading.parts != self.number {
                    return Err(FormFault::PartOrder);
                }
                output.push(b'\n');
                Ok(())
            }
        }
    }
}

/// The fault of a form that ends within the heading line of part `number`.
///
/// `line` is this heading line, or its first 64 bytes if it is longer. If the heading is valid and its numbers are
/// right, the fault is `CountWrong`, because the part has no body.
fn fault_in_heading(
    day: &SheetDay,
    number: u8,
    expected: Option<u8>,
    line: &ArrayVec<u8, KEPT_LINE>,
) -> FormFault
    ensures { (part : List ℕ) → HoldsLine line.now.items part → (p : PartStart)
        → p.number ≡ number → p.expected ≡ expected → IsPartAnswer day.now p part (Err result) }
{
    let heading = heading_of_open_line(day, line.as_slice());
    match check_heading(number, expected, heading) {
        Ok(_) => FormFault::CountWrong(number),
        Err(fault) => fault,
    }
}

/// Whether `byte` may follow `line` in a heading line.
///
/// Only the first six bytes, `PART ` and a digit, are tested here. The rest is tested when the line has ended.
fn can_follow(line: &[u8], byte: u8) -> bool
    ensures { IsTrue result ↔ FitsHeadingAt (length line.now) byte }
{
    match b"PART ".get(line.len()) {
        Some(due) => byte == *due,
        None => line.len() > 5 || byte.is_ascii_digit(),
    }
}

/// The first bytes of a heading line: `PART ` and `digit`.
fn heading_line_start(digit: u8) -> ArrayVec<u8, KEPT_LINE>
    ensures { result.items ≡ codes "PART " ++ digit ∷ [] }
{
    let mut line = ArrayVec::new();
    line.try_extend_from_slice(b"PART ").unwrap();
    line.push(digit);
    line
}

/// Returns `heading` if its part number is `number`, and its number of parts is the expected one.
///
/// The fault is `BadHeading` if there is no heading, and `PartOrder` if one of the two numbers is wrong.
fn check_heading(
    number: u8,
    expected: Option<u8>,
    heading: Option<Heading>,
) -> Result<Heading, FormFault>
    ensures { IsHeadingAnswer number expected heading result }
{
    let Some(heading) = heading else {
        return Err(FormFault::BadHeading(number));
    };
    if heading.part != number || !is_expected(expected, heading.parts) {
        return Err(FormFault::PartOrder);
    }
    Ok(heading)
}

/// Whether `parts` equals `expected`, the number of parts in the form's first heading.
///
/// True if `expected` is `None`.
fn is_expected(expected: Option<u8>, parts: u8) -> bool
    ensures { IsTrue result ↔ IsExpectedCount expected parts }
{
    match expected {
        Some(first) => first == parts,
        None => true,
    }
}
