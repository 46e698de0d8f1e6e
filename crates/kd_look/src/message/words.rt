//! The lines about an order or a form, without the lines about its groups.
ghost use Rattle.std.specs.Prelude.{◌≡◌, ◌++◌, ◌∷◌, ◌≤◌, [], length, IfOk, OnOk};
ghost use Rattle.std.specs.String.{string_bytes};
ghost use Rattle.kd_language.specs.Template.{filled};
ghost use Rattle.kd_look.specs.MessageWords.{fault_line, form_lines, form_words_for, is_form, is_message};
ghost use Rattle.kd_look.specs.MessageWords.{machine_name, number_line, order_lines, order_words_for};

use super::fault::MessageFault;
use super::form_heading::FormHeading;
use super::order::{keys_given, letter_count};
use super::order_head::{KeyLine, key_line_of};
use crate::texts::{CONVERTER, ENIGMA_I_OR_M3, FORM, LETTERS, ORDER, PARTS};
use kd_findings::{push_place, push_titled};
use kd_language::template::push_filled;
use kd_language::{Language, Wording};
use kd_slips::texts::AN_M4;
use std::alloc::AllocError;

/// Whether a file with the bytes `text` is a message (an order or a form): it begins with `PART `.
pub fn is_message(text: &[u8]) -> bool
    ensures { result ≡ is_message text.now }
{
    matches!(text, [b'P', b'A', b'R', b'T', b' ', ..])
}

/// Whether a message is a form: a digit follows `PART `. Every other message is an order.
pub fn is_form(text: &[u8]) -> bool
    ensures { result ≡ is_form text.now }
{
    match text {
        [_, _, _, _, _, digit, ..] => 48 <= *digit && *digit <= 57,
        _ => false,
    }
}

/// The lines about the form `text` in the file `name`. `answer` is the result of reading the form.
pub fn form_words(
    wording: Wording,
    name: &str,
    text: &[u8],
    answer: &Result<FormHeading, MessageFault>,
) -> Result<String, AllocError>
    ensures { IfOk result (λ words. string_bytes words
        ≡ form_words_for wording.language name.now text.now answer.now) }
{
    let mut words = String::new(wording.alloc);
    match answer {
        Ok(first) => push_form(&mut words, wording.language, name, first)?,
        Err(found) => push_fault(&mut words, wording.language, name, text, found)?,
    }
    Ok(words)
}

/// The lines about the order `text` in the file `name`. `answer` is the result of reading the order.
pub fn order_words(
    wording: Wording,
    name: &str,
    text: &[u8],
    answer: &Result<usize, MessageFault>,
) -> Result<String, AllocError>
    requires { IfOk answer.now (λ start. start ≤ length text.now) }
    ensures { IfOk result (λ words. string_bytes words
        ≡ order_words_for wording.language name.now text.now answer.now) }
{
    let mut words = String::new(wording.alloc);
    match answer {
        Ok(start) => push_order(&mut words, wording.language, name, text, *start)?,
        Err(found) => push_fault(&mut words, wording.language, name, text, found)?,
    }
    Ok(words)
}

/// Appends the lines about an order without a fault. The order's text begins at `start`.
#[tactic(auto, using(std::proofs::Common::append_assoc), unfolding(crate::specs::MessageWords::order_lines))]
fn push_order(
    words: &mut String,
    language: Language,
    name: &str,
    text: &[u8],
    start: usize,
) -> Result<(), AllocError>
    requires { start ≤ length text.now }
    ensures { OnOk result (string_bytes words.new
        ≡ string_bytes words.old ++ order_lines language name.now text.now start) }
{
    let form = key_line_of(text);
    let machine = machine_name(language, form);
    push_kind(words, language.text(ORDER), name, machine)?;
    push_number_line(words, language.text(PARTS), keys_given(text, start))?;
    push_number_line(
        words,
        language.text(LETTERS),
        letter_count(text, form, start),
    )
}

/// Appends the lines about a form without a fault. `first` is the form's first heading.
#[tactic(auto, using(std::proofs::Common::append_assoc), unfolding(crate::specs::MessageWords::form_lines))]
fn push_form(
    words: &mut String,
    language: Language,
    name: &str,
    first: &FormHeading,
) -> Result<(), AllocError>
    ensures { OnOk result (string_bytes words.new
        ≡ string_bytes words.old ++ form_lines language name.now first.now) }
{
    let machine = machine_name(language, first.keys);
    push_kind(words, language.text(FORM), name, machine)?;
    push_number_line(words, language.text(PARTS), first.parts)
}

/// Appends `template` with the file's name, and with the machine that the message is for.
///
/// A function of its own, because the borrow checker refuses an array of an argument and a `'static` text.
fn push_kind(
    words: &mut String,
    template: &str,
    name: &str,
    machine: &str,
) -> Result<(), AllocError>
    ensures { OnOk result (string_bytes words.new
        ≡ string_bytes words.old ++ filled template.now (name.now ∷ machine.now ∷ [])) }
{
    push_filled(words, template, &[name, machine])
}

/// Appends a line with a title and a number, such as `parts: 2`.
#[tactic(auto, using(std::proofs::Common::append_assoc), unfolding(crate::specs::MessageWords::number_line))]
fn push_number_line(words: &mut String, title: &str, number: usize) -> Result<(), AllocError>
    ensures { OnOk result (string_bytes words.new
        ≡ string_bytes words.old ++ number_line title.now number) }
{
    push_titled(words, title, number)?;
    words.push_str("\n")
}

/// The words for the machine of a message, such as `a Converter M-209`. The messages of an Enigma I and of an M3 look
/// alike: then the words name both.
#[tactic(auto, unfolding(crate::specs::MessageWords::machine_name))]
fn machine_name(language: Language, form: KeyLine) -> &'static str
    ensures { result.now ≡ machine_name language form }
{
    match form {
        KeyLine::ThreeSlots => language.text(ENIGMA_I_OR_M3),
        KeyLine::FourSlots => language.text(AN_M4),
        KeyLine::Converter => language.text(CONVERTER),
    }
}

/// Appends the line about a fault of an order or a form.
#[tactic(auto, using(std::proofs::Common::append_assoc), unfolding(crate::specs::MessageWords::fault_line))]
fn push_fault(
    words: &mut String,
    language: Language,
    name: &str,
    text: &[u8],
    found: &MessageFault,
) -> Result<(), AllocError>
    ensures { OnOk result (string_bytes words.new
        ≡ string_bytes words.old ++ fault_line language name.now text.now found.now) }
{
    words.push_str(name)?;
    push_place(
        words,
        language,
        text,
        found.index,
        found.reason.words(language),
    )?;
    words.push_str(" (")?;
    words.push_str(found.fault.text().as_str())?;
    words.push_str(")\n")
}
