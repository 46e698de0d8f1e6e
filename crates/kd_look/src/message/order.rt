//! Reads an order as far as possible without a machine: its lines of keys, and its text.
ghost use Rattle.std.specs.Prelude.{◌≡◌, ◌≤◌, find, length, IfOk};
ghost use Rattle.std.specs.List.{range_with_len};
ghost use Rattle.kd_look.specs.Order.{gives_letter, head_fault, is_off_wheel, is_off_wheel_at, keys_given};
ghost use Rattle.kd_look.specs.Order.{letter_count, order_answer, order_start, part_letters, parts_answer};
ghost use Rattle.kd_look.specs.Order.{reason_for, signs_answer, text_start, wheels_answer};

use super::fault::{MessageFault, Reason};
use super::order_head::{KeyLine, MOST_KEY_LINES, head_end, key_line_of};
use super::signs::{WrongByte, wrong_sign};
use kd_findings::place_after;
use kd_form::FormFault;
use kd_tables::{Letter, place_on_wheel};

/// The index at which the order's text begins, or the first fault that can be found without a machine.
pub fn order_start(text: &[u8]) -> Result<usize, MessageFault>
    ensures value { result ≡ order_start text.now }
    ensures within { IfOk result (λ start. start ≤ length text.now) }
{
    order_answer(text, key_line_of(text))
}

/// The index at which an order's text begins, or the first fault of the order that can be found without a machine.
/// `form` says how the order's keys are written.
#[tactic(auto, unfolding(crate::specs::Order::order_answer))]
fn order_answer(text: &[u8], form: KeyLine) -> Result<usize, MessageFault>
    ensures value { result ≡ order_answer text.now form }
    ensures within { IfOk result (λ start. start ≤ length text.now) }
{
    let start = text_start(text, form)?;
    check_wheels(text, form, start)?;
    check_signs(text, start)?;
    check_parts(text, form, start)?;
    Ok(start)
}

/// The index at which the order's text begins, or the fault of the order's head.
fn text_start(text: &[u8], form: KeyLine) -> Result<usize, MessageFault>
    ensures value { result ≡ text_start text.now form }
    ensures within { IfOk result (λ start. start ≤ length text.now) }
{
    match head_end(text, form, MOST_KEY_LINES, 0) {
        Ok(start) => Ok(start),
        Err(wrong) => Err(head_fault(text, form, wrong)),
    }
}

/// The fault for a wrong byte in the order's head.
fn head_fault(text: &[u8], form: KeyLine, wrong: WrongByte) -> MessageFault
    requires { wrong.index ≤ length text.now }
    ensures { result ≡ head_fault text.now form wrong }
{
    MessageFault {
        index: wrong.index,
        fault: FormFault::BadByte(wrong.index + 1),
        reason: reason_for(text, form, wrong),
    }
}

/// What is wrong at a byte of the head: the order ends too soon, or another byte belongs there.
fn reason_for(text: &[u8], form: KeyLine, wrong: WrongByte) -> Reason
    ensures { result ≡ reason_for text.now form wrong }
{
    if wrong.index == text.len() {
        return Reason::OrderEnds;
    }
    match wrong.mark {
        b'_' => Reason::KeyLetter(form),
        b' ' => Reason::KeySpace(form),
        b'\n' => Reason::LineGoesOn,
        _ => Reason::LineStart,
    }
}

/// Checks the external letters in a Converter's lines of keys, which end before `start`.
fn check_wheels(text: &[u8], form: KeyLine, start: usize) -> Result<(), MessageFault>
    ensures { result ≡ wheels_answer text.now form start }
{
    match form {
        KeyLine::Converter => check_external_letters(text, start),
        KeyLine::ThreeSlots | KeyLine::FourSlots => Ok(()),
    }
}

/// Checks that each external letter before `start` is on its pin wheel.
fn check_external_letters(text: &[u8], start: usize) -> Result<(), MessageFault>
    ensures { result ≡ wheels_answer text.now KeyLine.Converter start }
{
    match off_wheel_index(text, start) {
        Some(index) => Err(MessageFault {
            index,
            fault: FormFault::KeyNotOnWheel,
            reason: Reason::OffWheel,
        }),
        None => Ok(()),
    }
}

/// The index of the first external letter before `start` that isn't on its pin wheel.
fn off_wheel_index(text: &[u8], start: usize) -> Option<usize>
    ensures { result ≡ find (is_off_wheel_at text.now) (range_with_len 0 start) }
{
    (0..start).find(|index| is_off_wheel_at(text, *index))
}

/// Whether the byte at `index` is an external letter that isn't on its pin wheel.
fn is_off_wheel_at(text: &[u8], index: usize) -> bool
    ensures { result ≡ is_off_wheel_at text.now index }
{
    match text.get(index) {
        Some(byte) => is_off_wheel(place_after(&text[..index]).column, *byte),
        None => false,
    }
}

/// Whether `byte`, in column `column` of a line of keys, is an external letter that isn't on its pin wheel.
fn is_off_wheel(column: usize, byte: u8) -> bool
    ensures { result ≡ is_off_wheel column byte }
{
    if column < 8 || 13 < column {
        return false;
    }
    match Letter::from_byte(byte) {
        Some(letter) => place_on_wheel(column as u8 - 7, letter).is_none(),
        None => false,
    }
}

/// Checks that the text, which begins at `start`, has only signs that are allowed.
fn check_signs(text: &[u8], start: usize) -> Result<(), MessageFault>
    requires { start ≤ length text.now }
    ensures { result ≡ signs_answer text.now start }
{
    match wrong_sign(&text[start..]) {
        Some(place) => Err(MessageFault {
            index: start + place,
            fault: FormFault::BadByte(start + place + 1),
            reason: Reason::TextSign,
        }),
        None => Ok(()),
    }
}

/// Checks that the text, which begins at `start`, has a letter, and needs as many parts as there are lines of keys.
#[tactic(auto, unfolding(crate::specs::Order::parts_answer))]
fn check_parts(text: &[u8], form: KeyLine, start: usize) -> Result<(), MessageFault>
    requires { start ≤ length text.now }
    ensures { result ≡ parts_answer text.now form start }
{
    let letters = letter_count(text, form, start);
    if letters == 0 {
        return Err(MessageFault {
            index: start,
            fault: FormFault::EmptyText,
            reason: Reason::NoLetter,
        });
    }
    let needed = letters.div_ceil(part_letters(form));
    let given = keys_given(text, start);
    if needed == given {
        return Ok(());
    }
    Err(MessageFault {
        index: start,
        fault: FormFault::PartKeys { needed, given },
        reason: if given < needed {
            Reason::FewKeys
        } else {
            Reason::ManyKeys
        },
    })
}

/// The number of letters in the text, which begins at `start`.
pub fn letter_count(text: &[u8], form: KeyLine, start: usize) -> usize
    requires { start ≤ length text.now }
    ensures { result ≡ letter_count text.now form start }
{
    text[start..]
        .iter()
        .filter(|byte| gives_letter(form, **byte))
        .count()
}

/// Whether a byte of the text counts as a letter. A capital letter does. On the Converter, a space does too.
fn gives_letter(form: KeyLine, byte: u8) -> bool
    ensures { result ≡ gives_letter form byte }
{
    let is_capital = 65 <= byte && byte <= 90;
    match form {
        KeyLine::Converter => is_capital || byte == b' ',
        KeyLine::ThreeSlots | KeyLine::FourSlots => is_capital,
    }
}

/// How many letters of the order's text a part can have at most.
fn part_letters(form: KeyLine) -> usize
    ensures { result ≡ part_letters form }
{
    match form {
        KeyLine::Converter => 500,
        KeyLine::ThreeSlots | KeyLine::FourSlots => 245,
    }
}

/// How many lines of keys stand before `start`: all lines there, except the line `TEXT`.
pub fn keys_given(text: &[u8], start: usize) -> usize
    requires { start ≤ length text.now }
    ensures { result ≡ keys_given text.now start }
{
    let ends = text[..start].iter().filter(|byte| **byte == b'\n').count();
    ends.saturating_sub(1)
}
