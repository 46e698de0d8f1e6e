//! Whether the parts of a received form are of one message.
ghost use Rattle.std.specs.Prelude.{◌≡◌};
ghost use Rattle.kd_lost.specs.OneMessage.{are_of_one_message, headings_agree, letter_agrees};
ghost use Rattle.kd_lost.specs.OneMessage.{letters_agree, numbers_agree, parts_agree, same_keys, same_letters};
ghost use Rattle.kd_lost.specs.OneMessage.{bodies_agree, ends_within, key_signs, keys_agree, may_repeat};
ghost use Rattle.kd_lost.specs.OneMessage.{count_signs, counts_agree, frames_agree, heading_repeats, is_stranger, same_count};
ghost use Rattle.kd_lost.specs.OneMessage.{sign_agrees, signs_agree, texts_agree};

use crate::by_count::{first_word, later_words};
use crate::clash::clash_among;
use crate::damage::PartDamage;
use crate::damaged_text::{DamagedText, TextKeys};
use crate::part::{DamagedPart, PartNumbers};
use crate::received::is_lost;
use crate::texts::{is_of_other_day, shown_text};
use kd_tables::Letter;

/// Whether every two of the parts can be of one message.
pub fn are_of_one_message(parts: &[DamagedPart]) -> bool
    ensures { result ≡ are_of_one_message parts.now }
{
    clash_among(parts).is_none()
}

/// Whether two parts can be of one message.
pub(crate) fn parts_agree(one: &DamagedPart, other: &DamagedPart) -> bool
    ensures { result ≡ parts_agree one.now other.now }
{
    match (&one.numbers, &other.numbers) {
        (Some(numbers), Some(others)) => { numbers_agree(numbers, others, may_repeat(one, other)) }
        _ => true,
    }
}

/// Whether two parts may be one part, sent twice.
fn may_repeat(one: &DamagedPart, other: &DamagedPart) -> bool
    ensures { result ≡ may_repeat one.now other.now }
{
    bodies_agree(one.body.as_slice(), other.body.as_slice())
        && texts_agree(&one.text, &other.text)
        && ends_within(one, other)
        && ends_within(other, one)
        && frames_agree(one, other)
}

/// Whether the headings of two parts may be one heading, sent twice, and the parts may be of one day.
fn frames_agree(one: &DamagedPart, other: &DamagedPart) -> bool
    ensures { result ≡ frames_agree one.now other.now }
{
    heading_repeats(one, other) && !is_stranger(one, other) && !is_stranger(other, one)
}

/// Whether part `one` may be from another day than part `other`.
///
/// Three conditions must hold:
/// - Part `one` isn't read, not even by count.
/// - The group or the list letters of part `one` are of another day.
/// - The group or the list letters of part `other` aren't of another day.
pub(crate) fn is_stranger(one: &DamagedPart, other: &DamagedPart) -> bool
    ensures { result ≡ is_stranger one.now other.now }
{
    shown_text(one).is_none() && is_of_other_day(one) && !is_of_other_day(other)
}

/// Whether the headings of two parts may be one heading, sent twice.
fn heading_repeats(one: &DamagedPart, other: &DamagedPart) -> bool
    ensures { result ≡ heading_repeats one.now other.now }
{
    counts_agree(one, other) && keys_agree(one, other)
}

/// Whether two parts may have equally many letters: equally many were received, or the counts in their headings may be
/// equal.
fn counts_agree(one: &DamagedPart, other: &DamagedPart) -> bool
    ensures { result ≡ counts_agree one.now other.now }
{
    one.came == other.came || has_count_of(one, other)
}

fn has_count_of(one: &DamagedPart, other: &DamagedPart) -> bool
    ensures { result ≡ same_count (count_signs one.now.heading.bytes) (count_signs other.now.heading.bytes) }
{
    let one = count_signs(one.heading.as_str().as_bytes());
    let other = count_signs(other.heading.as_str().as_bytes());
    one.len() == other.len() && signs_agree(one, other)
}

/// The third word of `heading`, its letter count.
fn count_signs(heading: &[u8]) -> &[u8]
    ensures { result.now ≡ count_signs heading.now }
{
    first_word(later_words(later_words(heading)))
}

/// Whether two headings may have the same keys: at each place that both keys have, the signs are equal or one is lost.
pub(crate) fn keys_agree(one: &DamagedPart, other: &DamagedPart) -> bool
    ensures { result ≡ keys_agree one.now other.now }
{
    let one = key_signs(one.heading.as_str().as_bytes());
    signs_agree(one, key_signs(other.heading.as_str().as_bytes()))
}

/// The signs of `heading` after its letter count: on a rotor machine, the ground setting and the enciphered key.
fn key_signs(heading: &[u8]) -> &[u8]
    ensures { result.now ≡ key_signs heading.now }
{
    later_words(later_words(later_words(heading)))
}

/// Whether `one` and `other` may be equal up to the end of the shorter slice.
///
/// At each place, the signs must be equal, or one of them lost.
fn signs_agree(one: &[u8], other: &[u8]) -> bool
    ensures { result ≡ signs_agree one.now other.now }
{
    if let [sign, one @ ..] = one
        && let [again, other @ ..] = other
    {
        return sign_agrees(*sign, *again) && signs_agree(one, other);
    }
    true
}

/// Whether both signs may come from one sent sign: they are equal, or at least one is lost.
fn sign_agrees(sign: u8, again: u8) -> bool
    ensures { result ≡ sign_agrees sign again }
{
    sign == again || is_lost(sign) || is_lost(again)
}

/// Whether `one` has at most as many letters as `other`, or `other` couldn't be read.
fn ends_within(one: &DamagedPart, other: &DamagedPart) -> bool
    ensures { result ≡ ends_within one.now other.now }
{
    other.text.is_err() || one.came <= other.came
}

/// Whether two bodies may be equal up to the end of the shorter body: at each place, the letters are equal or one is
/// lost.
fn bodies_agree(one: &[Option<Letter>], other: &[Option<Letter>]) -> bool
    ensures { result ≡ bodies_agree one.now other.now }
{
    if let [letter, one @ ..] = one
        && let [again, other @ ..] = other
    {
        return letter_agrees(letter, again) && bodies_agree(one, other);
    }
    true
}

/// Whether the headings of two parts can be of one message.
///
/// Both must give the same number of parts. Their part numbers must differ, unless `agree` says that the parts may be
/// one part, sent twice.
fn numbers_agree(one: &PartNumbers, other: &PartNumbers, agree: bool) -> bool
    ensures { result ≡ numbers_agree one.now other.now agree }
{
    one.parts == other.parts && (one.part != other.part || agree)
}

/// Whether the texts of two parts may be one text, sent twice. True if one of the parts couldn't be read.
fn texts_agree(
    one: &Result<DamagedText, PartDamage>,
    other: &Result<DamagedText, PartDamage>,
) -> bool
    ensures { result ≡ texts_agree one.now other.now }
{
    match (one, other) {
        (Ok(one), Ok(other)) => {
            letters_agree(one.received.as_slice(), other.received.as_slice())
                && same_keys(&one.keys, &other.keys)
        }
        _ => true,
    }
}

/// Whether two bodies may come from one sent body.
///
/// They are equally long, and at each place, the letters are equal or one is lost.
fn letters_agree(one: &[Option<Letter>], other: &[Option<Letter>]) -> bool
    ensures { result ≡ letters_agree one.now other.now }
{
    if let [letter, one @ ..] = one
        && let [again, other @ ..] = other
    {
        return letter_agrees(letter, again) && letters_agree(one, other);
    }
    one.is_empty() && other.is_empty()
}

/// Whether both letters may come from one sent letter: they are equal, or at least one is lost.
pub(crate) fn letter_agrees(one: &Option<Letter>, other: &Option<Letter>) -> bool
    ensures { result ≡ letter_agrees one.now other.now }
{
    match (one, other) {
        (Some(one), Some(other)) => *one == *other,
        _ => true,
    }
}

/// Whether two texts have the same keys.
pub(crate) fn same_keys(one: &TextKeys, other: &TextKeys) -> bool
    ensures { result ≡ same_keys one.now other.now }
{
    match (one, other) {
        (TextKeys::Rotor(one), TextKeys::Rotor(other)) => {
            same_letters(
                one.ground_setting.as_slice(),
                other.ground_setting.as_slice(),
            ) && same_letters(
                one.enciphered_key.as_slice(),
                other.enciphered_key.as_slice(),
            )
        }
        (TextKeys::Pin(one), TextKeys::Pin(other)) => {
            one.indicator.chosen == other.indicator.chosen
                && same_letters(&one.indicator.external, &other.indicator.external)
        }
        _ => false,
    }
}

/// Whether `one` and `other` have the same letters in the same order.
fn same_letters(one: &[Letter], other: &[Letter]) -> bool
    ensures { result ≡ same_letters one.now other.now }
{
    match one {
        [letter, one @ ..] => match other {
            [again, other @ ..] => *letter == *again && same_letters(one, other),
            [] => false,
        },
        [] => match other {
            [_, ..] => false,
            [] => true,
        },
    }
}
