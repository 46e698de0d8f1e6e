//! Reads a form without a machine: its headings, its signs, and its numbers of letters and parts.
ghost use Rattle.std.specs.Prelude.{◌≡◌, ◌≤◌, ◌<◌, ◌+◌, ◌-◌, count_by, find, length, option_map, IfOk, IfSome};
ghost use Rattle.std.specs.List.{range_with_len};
ghost use Rattle.kd_tables.specs.Text.{is_capital};
ghost use Rattle.kd_look.specs.Form.{body_end, body_signs, due_heading, first_or, form_answer, form_from};
ghost use Rattle.kd_look.specs.Form.{has_due_numbers, heading_fault, heading_follows, heading_reason, part_at};

use super::fault::{MessageFault, Reason};
use super::form_heading::{FormHeading, heading_at};
use super::order_head::KeyLine;
use super::signs::{WrongByte, fits_at, marks_end, wrong_sign};
use kd_form::FormFault;

/// The greatest number of parts that are read: one more than a form can have.
const MOST_PARTS: u8 = 100;

/// A part of a form, and the index after it.
#[derive(Clone, Copy)]
pub struct FormPart {
    pub heading: FormHeading,
    pub end: usize,
}

/// The first heading of the form `text`, or the first fault of the form that can be found without a machine.
pub fn form_answer(text: &[u8]) -> Result<FormHeading, MessageFault>
    ensures { result ≡ form_answer text.now }
{
    form_from(text, MOST_PARTS, None, 1, 0)
}

/// Reads the form from part `number` on: the result is the form's first heading, or the first fault.
///
/// The part begins at `index`. `first` is the form's first heading. For the first part, `first` is `None`. At most
/// `left` parts are read.
#[tactic(auto, using(crate::proofs::Form::part_next, crate::proofs::Form::no_part_left))]
fn form_from(
    text: &[u8],
    left: u8,
    first: Option<FormHeading>,
    number: u8,
    index: usize,
) -> Result<FormHeading, MessageFault>
    requires index { index ≤ length text.now }
    requires number { left + number ≤ 101 }
    ensures { result ≡ form_from text.now left first number index }
{
    if left == 0 {
        return Err(MessageFault {
            index,
            fault: FormFault::PartOrder,
            reason: Reason::PartsMixed,
        });
    }
    let part = part_at(text, first, number, index)?;
    let heading = first_or(part.heading, first);
    if part.end != text.len() {
        return form_from(text, left - 1, Some(heading), number + 1, part.end);
    }
    if part.heading.parts != usize::from(number) {
        return Err(MessageFault {
            index: text.len(),
            fault: FormFault::PartOrder,
            reason: Reason::PartsMissing,
        });
    }
    Ok(heading)
}

/// The form's first heading: `first`, or `own` if `first` is `None`.
fn first_or(own: FormHeading, first: Option<FormHeading>) -> FormHeading
    ensures { result ≡ first_or own first }
{
    first.unwrap_or(own)
}

/// Part `number` of the form, which begins at `index`, or the part's first fault.
///
/// `first` is the form's first heading. For the first part, `first` is `None`.
#[tactic(auto, unfolding(crate::specs::Form::part_at))]
fn part_at(
    text: &[u8],
    first: Option<FormHeading>,
    number: u8,
    index: usize,
) -> Result<FormPart, MessageFault>
    requires { index ≤ length text.now }
    ensures value { result ≡ part_at text.now first number index }
    ensures end { IfOk result (λ part. part.end ≤ length text.now) }
{
    let heading = due_heading(text, first, number, index)?;
    let end = body_end(text, heading.body);
    body_signs(text, heading.body, end)?;
    if letter_count(&text[heading.body..end]) != heading.letters {
        return Err(MessageFault {
            index,
            fault: FormFault::CountWrong(number),
            reason: Reason::BodyCount,
        });
    }
    Ok(FormPart { heading, end })
}

/// The heading of part `number`, which begins at `index`, or the heading's first fault.
///
/// `first` is the form's first heading. For the first part, `first` is `None`.
#[tactic(auto, unfolding(crate::specs::Form::due_heading))]
fn due_heading(
    text: &[u8],
    first: Option<FormHeading>,
    number: u8,
    index: usize,
) -> Result<FormHeading, MessageFault>
    requires { index ≤ length text.now }
    ensures value { result ≡ due_heading text.now first number index }
    ensures body { IfOk result (λ heading. heading.body ≤ length text.now) }
{
    let heading = match heading_at(text, keys_of(first), index) {
        Ok(heading) => heading,
        Err(wrong) => return Err(heading_fault(number, wrong)),
    };
    if has_due_numbers(first, number, heading) {
        Ok(heading)
    } else {
        Err(MessageFault {
            index,
            fault: FormFault::PartOrder,
            reason: Reason::PartsMixed,
        })
    }
}

/// The machine that the first heading is for. `None` if there is no first heading.
fn keys_of(first: Option<FormHeading>) -> Option<KeyLine>
    ensures { result ≡ option_map (λ heading. heading.keys) first }
{
    match first {
        Some(heading) => Some(heading.keys),
        None => None,
    }
}

/// Whether `heading` gives the part number `number`. If it isn't the form's first heading, it must also give the same
/// number of parts as the first.
fn has_due_numbers(first: Option<FormHeading>, number: u8, heading: FormHeading) -> bool
    ensures { result ≡ has_due_numbers first number heading }
{
    heading.part == usize::from(number)
        && match first {
            Some(first) => heading.parts == first.parts,
            None => true,
        }
}

/// The fault for a wrong byte in the heading of part `number`.
fn heading_fault(number: u8, wrong: WrongByte) -> MessageFault
    ensures { result ≡ heading_fault number wrong }
{
    MessageFault {
        index: wrong.index,
        fault: FormFault::BadHeading(number),
        reason: heading_reason(wrong.mark),
    }
}

/// What is wrong in a heading. `mark` says what belongs there: for example, the mark `/` means that a slash is missing.
fn heading_reason(mark: u8) -> Reason
    ensures { result ≡ heading_reason mark }
{
    match mark {
        b'#' => Reason::HeadingNumber,
        b'$' => Reason::HeadingCount,
        b'%' => Reason::HeadingParts,
        b'/' => Reason::HeadingSlash,
        b'_' => Reason::HeadingLetter,
        b' ' => Reason::HeadingSpace,
        _ => Reason::LineGoesOn,
    }
}

/// The end of the body that begins at `body`: the next heading line's index, or the form's length.
fn body_end(text: &[u8], body: usize) -> usize
    requires { body ≤ length text.now }
    ensures value { result ≡ body_end text.now body }
    ensures within { result ≤ length text.now }
    ensures after { body ≤ result }
{
    match next_heading(text, body.saturating_sub(1)) {
        Some(index) => index + 1,
        None => text.len(),
    }
}

/// The index of the first LF, from index `first` on, with a heading line after it.
fn next_heading(text: &[u8], first: usize) -> Option<usize>
    ensures found { result ≡ find (heading_follows text.now)
        (range_with_len first (length text.now - first)) }
    ensures within { IfSome result (λ index. (first ≤ index) × (index < length text.now)) }
{
    (first..text.len()).find(|index| heading_follows(text, *index))
}

/// Whether there is an LF at `index`, and a heading line follows: `PART `, and then a digit.
#[tactic(auto, unfolding(crate::specs::Form::heading_follows))]
pub fn heading_follows(text: &[u8], index: usize) -> bool
    ensures { result ≡ heading_follows text.now index }
{
    fits_at(text, b'\n', index)
        && marks_end(text, b"PART ", index + 1).is_ok()
        && matches!(text.get(index + 6), Some(b'0'..=b'9'))
}

/// Checks that all bytes from `body` to `end` may stand in a body.
fn body_signs(text: &[u8], body: usize, end: usize) -> Result<(), MessageFault>
    requires within { end ≤ length text.now }
    requires order { body ≤ end }
    ensures { result ≡ body_signs text.now body end }
{
    match wrong_sign(&text[body..end]) {
        Some(place) => Err(MessageFault {
            index: body + place,
            fault: FormFault::BadByte(body + place + 1),
            reason: Reason::BodySign,
        }),
        None => Ok(()),
    }
}

/// How many capital letters `bytes` have.
fn letter_count(bytes: &[u8]) -> usize
    ensures { result ≡ count_by is_capital bytes.now }
{
    bytes
        .iter()
        .filter(|byte| 65 <= **byte && **byte <= 90)
        .count()
}
