//! Reads the groups of orders and forms. From a part's group, the receiver knows the day that the part is for.
ghost use Rattle.std.specs.Prelude.{◌≡◌, ◌++◌, ◌+◌, ◌<◌, ◌≤◌, ◌^◌, ◌==◌, length, slice_get, IfOk, IfSome, OnOk};
ghost use Rattle.std.specs.List.{position};
ghost use Rattle.std.specs.Option.{option_to_list};
ghost use Rattle.std.specs.String.{string_bytes};
ghost use Rattle.kd_look.specs.Groups.{after_line, filler_column, form_groups, form_message, group_line, group_lines};
ghost use Rattle.kd_look.specs.Groups.{group_of, letters_of, next_group, numbered_lines, order_group, order_groups};
ghost use Rattle.kd_look.specs.Groups.{order_message, part_group, rotor_form_groups};

use super::fault::MessageFault;
use super::form::heading_follows;
use super::form_heading::FormHeading;
use super::order_head::{KeyLine, key_line_of};
use crate::texts::GROUP;
use crate::values::group_text;
use itoa::Buffer;
use kd_findings::place_after;
use kd_language::Wording;
use kd_language::template::push_filled;
use kd_tables::Letter;
use std::alloc::{AllocError, Global};
use std::marker::Model;

/// An order or a form without a fault: how its keys are written, and the groups of its parts.
#[derive(Drop)]
pub struct Message {
    keys: KeyLine,
    groups: Vec<[Letter; 3]>,
}

impl Model for Message {
    ghost use Rattle.kd_look.specs.Groups.{KnownMessage};

    ghost Value = { KnownMessage };

    ghost view = { λ message. record { keys = message.keys; groups = message.groups.items } };
}

impl Message {
    /// How the keys are written. This depends on the machine.
    pub fn keys(&self) -> KeyLine
        ensures { result ≡ self.now.keys }
    {
        self.keys
    }

    /// The group of each part, in the order of the parts. Empty for a Converter.
    pub fn groups(&self) -> &[[Letter; 3]]
        ensures { result.now ≡ self.now.groups }
    {
        self.groups.as_slice()
    }
}

/// The message in the form `text`. `None` if the form has a fault. `answer` is the result of reading the form.
pub fn form_message(
    alloc: Global,
    text: &[u8],
    answer: &Result<FormHeading, MessageFault>,
) -> Result<Option<Message>, AllocError>
    ensures { IfOk result (λ message. message ≡ form_message text.now answer.now) }
{
    match answer {
        Ok(first) => {
            let groups = form_groups(alloc, text, first.keys)?;
            Ok(Some(Message {
                keys: first.keys,
                groups,
            }))
        }
        Err(_) => Ok(None),
    }
}

/// The message in the order `text`. `None` if the order has a fault. `answer` is the result of reading the order.
pub fn order_message(
    alloc: Global,
    text: &[u8],
    answer: &Result<usize, MessageFault>,
) -> Result<Option<Message>, AllocError>
    requires { IfOk answer.now (λ start. start ≤ length text.now) }
    ensures { IfOk result (λ message. message ≡ order_message text.now answer.now) }
{
    match answer {
        Ok(start) => {
            let keys = key_line_of(text);
            let groups = order_groups(alloc, text, keys, *start)?;
            Ok(Some(Message { keys, groups }))
        }
        Err(_) => Ok(None),
    }
}

/// The groups of the order `text`. Each group is in a line of keys; these lines end before `start`.
fn order_groups(
    alloc: Global,
    text: &[u8],
    keys: KeyLine,
    start: usize,
) -> Result<Vec<[Letter; 3]>, AllocError>
    requires { start ≤ length text.now }
    ensures { IfOk result (λ groups. groups.items ≡ order_groups text.now keys start) }
{
    let mut groups = Vec::new(alloc);
    for index in 0..start {
        push_order_group(&mut groups, text, keys, index)?;
    }
    Ok(groups)
}

/// If the two fillers of a line of keys begin at `index`, appends the group after them. Otherwise appends nothing.
fn push_order_group(
    groups: &mut Vec<[Letter; 3]>,
    text: &[u8],
    keys: KeyLine,
    index: usize,
) -> Result<(), AllocError>
    requires { index ≤ length text.now }
    ensures { OnOk result (groups.new.items ≡ groups.old.items ++ order_group text.now keys index) }
{
    let column = place_after(&text[..index]).column;
    match filler_column(keys) {
        Some(filler) if filler == column => push_group(groups, group_of(&text[index..])),
        _ => Ok(()),
    }
}

/// The column of the first filler in a line of keys. A Converter's line of keys has no fillers.
fn filler_column(keys: KeyLine) -> Option<usize>
    ensures { result ≡ filler_column keys }
{
    match keys {
        KeyLine::ThreeSlots => Some(14),
        KeyLine::FourSlots => Some(16),
        KeyLine::Converter => None,
    }
}

/// The groups of the form `text`. A Converter's form has no groups.
fn form_groups(alloc: Global, text: &[u8], keys: KeyLine) -> Result<Vec<[Letter; 3]>, AllocError>
    ensures { IfOk result (λ groups. groups.items ≡ form_groups text.now keys) }
{
    match keys {
        KeyLine::Converter => Ok(Vec::new(alloc)),
        KeyLine::ThreeSlots | KeyLine::FourSlots => rotor_form_groups(alloc, text),
    }
}

/// The groups of the form `text`, which is for a rotor machine.
fn rotor_form_groups(alloc: Global, text: &[u8]) -> Result<Vec<[Letter; 3]>, AllocError>
    ensures { IfOk result (λ groups. groups.items ≡ rotor_form_groups text.now) }
{
    let mut groups = Vec::new(alloc);
    push_part_group(&mut groups, text, 0)?;
    for index in 0..text.len() {
        push_next_group(&mut groups, text, index)?;
    }
    Ok(groups)
}

/// Appends the group of the part whose heading follows the line end at `index`.
///
/// Appends nothing if no heading follows.
fn push_next_group(
    groups: &mut Vec<[Letter; 3]>,
    text: &[u8],
    index: usize,
) -> Result<(), AllocError>
    requires { index < length text.now }
    ensures { OnOk result (groups.new.items ≡ groups.old.items ++ next_group text.now index) }
{
    if heading_follows(text, index) {
        push_part_group(groups, text, index + 1)
    } else {
        Ok(())
    }
}

/// Appends the group of the part whose heading begins at `index`.
fn push_part_group(
    groups: &mut Vec<[Letter; 3]>,
    text: &[u8],
    index: usize,
) -> Result<(), AllocError>
    requires { index ≤ length text.now }
    ensures { OnOk result (groups.new.items ≡ groups.old.items ++ part_group text.now index) }
{
    push_group(groups, group_of(after_line(&text[index..])))
}

/// The text after its first line. Empty if the text has no line end.
fn after_line(text: &[u8]) -> &[u8]
    ensures { result.now ≡ after_line text.now }
{
    match first_line_end(text) {
        Some(place) => &text[place + 1..],
        None => &[],
    }
}

/// The place of the first line end of `text`, counted from 0.
fn first_line_end(text: &[u8]) -> Option<usize>
    ensures place { result ≡ position (λ byte. byte == 10) text.now }
    ensures within { IfSome result (λ place. place < length text.now) }
{
    text.iter().position(|byte| *byte == b'\n')
}

/// If there is a group, appends it.
fn push_group(groups: &mut Vec<[Letter; 3]>, group: Option<[Letter; 3]>) -> Result<(), AllocError>
    ensures { OnOk result (groups.new.items ≡ groups.old.items ++ option_to_list group) }
{
    if let Some(group) = group {
        groups.push(group)?;
    }
    Ok(())
}

/// The group of `text`: its letters 3 to 5, after two fillers.
///
/// `None` if `text` has fewer than five letters.
fn group_of(text: &[u8]) -> Option<[Letter; 3]>
    ensures { result ≡ group_of text.now }
{
    let first = nth_letter(text, 2)?;
    let second = nth_letter(text, 3)?;
    let third = nth_letter(text, 4)?;
    Some([first, second, third])
}

/// Letter `number` of `text`, counted from 0. Signs between the letters don't count.
fn nth_letter(text: &[u8], number: usize) -> Option<Letter>
    ensures { result ≡ slice_get (letters_of text.now) number }
{
    let mut passed = 0;
    for byte in text {
        if let Some(letter) = Letter::from_byte(*byte) {
            if passed == number {
                return Some(letter);
            }
            passed += 1;
        }
    }
    None
}

/// Appends a line about each group of `message`.
pub fn push_groups(
    words: &mut String,
    wording: Wording,
    message: &Option<Message>,
) -> Result<(), AllocError>
    ensures { OnOk result (string_bytes words.new
        ≡ string_bytes words.old ++ group_lines wording.language message.now) }
{
    match message {
        Some(message) => push_numbered(words, wording, 1, message.groups()),
        None => Ok(()),
    }
}

/// Appends a line about each of `groups`. The first group belongs to part `part`, the second to part `part + 1`.
#[tactic(auto, using(std::proofs::Common::append_assoc))]
fn push_numbered(
    words: &mut String,
    wording: Wording,
    part: usize,
    groups: &[[Letter; 3]],
) -> Result<(), AllocError>
    requires { part + length groups.now < 2 ^ 64 }
    ensures { OnOk result (string_bytes words.new
        ≡ string_bytes words.old ++ numbered_lines wording.language part groups.now) }
{
    match groups {
        [group, rest @ ..] => {
            push_group_line(words, wording, part, *group)?;
            push_numbered(words, wording, part + 1, rest)
        }
        [] => Ok(()),
    }
}

/// Appends the line about the group of part `part`.
#[tactic(auto, unfolding(crate::specs::Groups::group_line))]
fn push_group_line(
    words: &mut String,
    wording: Wording,
    part: usize,
    group: [Letter; 3],
) -> Result<(), AllocError>
    ensures { OnOk result (string_bytes words.new
        ≡ string_bytes words.old ++ group_line wording.language part group) }
{
    let group = group_text(wording.alloc, group)?;
    let mut part_text = Buffer::new();
    push_filled(
        words,
        wording.language.text(GROUP),
        &[part_text.format(part), group.as_str()],
    )
}
