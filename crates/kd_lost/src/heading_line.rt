//! Which lines of a damaged form are taken for headings.
ghost use Rattle.std.specs.Prelude.{◌≡◌, ◌<◌, ◌≤◌, length, nat_le, slice_get};
ghost use Rattle.kd_lost.specs.HeadingLine.{begins_apart, begins_with_five, begins_with_groups, has_five, leading_signs, may_be_part};
ghost use Rattle.kd_lost.specs.HeadingLine.{after_blanks, after_word, begins_exchanged, begins_with_blank};
ghost use Rattle.kd_lost.specs.HeadingLine.{begins_with_part, begins_with_three, begins_with_word};
ghost use Rattle.kd_lost.specs.HeadingLine.{fitting_signs, has_digit_line, has_lost_number, has_short_word};
ghost use Rattle.kd_lost.specs.HeadingLine.{is_blank, is_blank_at, is_lost_sign};
ghost use Rattle.kd_lost.specs.HeadingLine.{heading_sign, heading_signs, is_heading_byte, is_heading_line, is_letter};
ghost use Rattle.kd_lost.specs.HeadingLine.{right_signs};
ghost use Rattle.kd_lost.specs.HeadingLine.{ends_line, has_text_line, is_order, is_part_line, is_text_line};

use crate::received::{is_lost, is_received, meant_byte};
use arrayvec::ArrayString;

/// Whether the first line of `bytes` is taken for a heading.
///
/// The line must begin like `PART`. It must also have a digit or a slash, or a lost sign in place of the part's number.
/// A body has neither digits nor slashes.
#[tactic(auto, unfolding(crate::specs::HeadingLine::is_heading_line))]
pub(crate) fn is_heading_line(bytes: &[u8]) -> bool
    ensures { result ≡ is_heading_line bytes.now }
{
    is_part_line(bytes) && (has_digit_line(bytes) || has_lost_number(bytes))
}

/// Whether the first word may be `PART`, and the second word begins with a lost sign, in place of the part's number.
fn has_lost_number(bytes: &[u8]) -> bool
    ensures { result ≡ has_lost_number bytes.now }
{
    let line = after_blanks(bytes);
    has_short_word(line) && begins_lost(after_blanks(after_word(line)))
}

/// Whether the fourth or the fifth byte of `bytes` is a blank.
///
/// So the first word has at most four signs: it may be `PART`, but isn't a group of five letters.
fn has_short_word(bytes: &[u8]) -> bool
    ensures { result ≡ has_short_word bytes.now }
{
    is_blank_at(bytes.get(3).copied()) || is_blank_at(bytes.get(4).copied())
}

/// Whether `byte` is a blank. False for `None`.
fn is_blank_at(byte: Option<u8>) -> bool
    ensures { result ≡ is_blank_at byte }
{
    match byte {
        Some(byte) => is_blank(byte),
        None => false,
    }
}

fn begins_lost(bytes: &[u8]) -> bool
    ensures { result ≡ is_lost_sign (slice_get bytes.now 0) }
{
    match bytes {
        [byte, ..] => is_lost(*byte),
        [] => false,
    }
}

/// `bytes` after their first word: from the first blank or LF on.
fn after_word(bytes: &[u8]) -> &[u8]
    ensures { result.now ≡ after_word bytes.now }
{
    let mut left = bytes;
    while let [byte, rest @ ..] = left
        && !(is_blank(*byte) || *byte == b'\n')
    {
        left = rest;
    }
    left
}

/// Whether the first line of `bytes` begins like `PART`, after any blanks.
///
/// The word is complete, or has one of these faults:
/// - One or two letters are lost or wrong, but at most one is wrong.
/// - One letter is missing.
/// - An extra letter stands before the P, the A, the R or the T.
/// - Two neighbouring letters are exchanged.
/// - A blank stands between two letters.
pub(crate) fn is_part_line(bytes: &[u8]) -> bool
    ensures { result ≡ is_part_line bytes.now }
{
    let line = after_blanks(bytes);
    begins_with_part(line)
        || begins_with_three(line)
        || begins_with_five(line)
        || begins_exchanged(line)
        || begins_with_blank(line)
}

/// Whether the first line of `bytes` may belong to a part.
///
/// Such a line begins like `PART`, or with two groups of five letters.
#[tactic(auto, unfolding(crate::specs::HeadingLine::may_be_part))]
pub(crate) fn may_be_part(bytes: &[u8]) -> bool
    ensures { result ≡ may_be_part bytes.now }
{
    is_part_line(bytes) || begins_with_groups(bytes)
}

/// Whether the first line of `bytes` begins with two groups of five letters. Some of these letters may be lost.
fn begins_with_groups(bytes: &[u8]) -> bool
    ensures { result ≡ begins_with_groups bytes.now }
{
    let line = after_blanks(bytes);
    if leading_signs(line) != 5 {
        return false;
    }
    let (_, rest) = line.split_at(5);
    leading_signs(after_blanks(rest)) == 5
}

/// How many letters or lost signs stand at the beginning of `bytes`.
fn leading_signs(bytes: &[u8]) -> usize
    ensures signs { result ≡ leading_signs bytes.now }
    ensures few { result ≤ length bytes.now }
{
    if let [byte, rest @ ..] = bytes
        && is_received(byte)
    {
        return 1 + leading_signs(rest);
    }
    0
}

/// Whether `byte` is a space or a tab.
pub(crate) fn is_blank(byte: u8) -> bool
    ensures { result ≡ is_blank byte }
{
    byte == b' ' || byte == b'\t'
}

/// `bytes` without the blanks at their beginning.
pub(crate) fn after_blanks(bytes: &[u8]) -> &[u8]
    ensures { result.now ≡ after_blanks bytes.now }
{
    let mut left = bytes;
    while let [byte, rest @ ..] = left
        && is_blank(*byte)
    {
        left = rest;
    }
    left
}

/// Whether `bytes` begin with the word `PART`, perhaps damaged.
///
/// At least two of its letters are right, at most one is wrong, and the others are lost. No fifth letter follows.
fn begins_with_part(bytes: &[u8]) -> bool
    ensures { result ≡ begins_with_part bytes.now }
{
    are_right(2, b"PART", bytes) && are_fitting(3, b"PART", bytes) && !is_letter_at(bytes, 4)
}

/// Whether `bytes` begin with `PART` without one of its letters, and no letter follows.
fn begins_with_three(bytes: &[u8]) -> bool
    ensures { result ≡ begins_with_three bytes.now }
{
    begins_with_word(b"ART", bytes)
        || begins_with_word(b"PRT", bytes)
        || begins_with_word(b"PAT", bytes)
        || begins_with_word(b"PAR", bytes)
}

/// Whether `bytes` begin with `PART` with two neighbouring letters exchanged, such as `PRAT`; no letter follows.
fn begins_exchanged(bytes: &[u8]) -> bool
    ensures { result ≡ begins_exchanged bytes.now }
{
    begins_with_word(b"APRT", bytes)
        || begins_with_word(b"PRAT", bytes)
        || begins_with_word(b"PATR", bytes)
}

/// Whether `bytes` begin with `PART` with a blank between two letters, such as `PA RT`; no letter follows.
fn begins_with_blank(bytes: &[u8]) -> bool
    ensures { result ≡ begins_with_blank bytes.now }
{
    begins_with_word(b"P ART", bytes)
        || begins_with_word(b"PA RT", bytes)
        || begins_with_word(b"PAR T", bytes)
}

/// Whether `bytes` begin with `word`, and no letter follows.
fn begins_with_word(word: &[u8], bytes: &[u8]) -> bool
    ensures { result ≡ begins_with_word word.now bytes.now }
{
    right_signs(word, bytes) == word.len() && !is_letter_at(bytes, word.len())
}

/// Whether `bytes` begin with `PART` with an extra letter before one of its letters, such as `PAXRT`.
///
/// No sixth letter follows.
fn begins_with_five(bytes: &[u8]) -> bool
    ensures { result ≡ begins_with_five bytes.now }
{
    has_five(bytes) && !is_letter_at(bytes, 5)
}

/// Whether `bytes` begin with `PART` with an extra letter before one of its letters, such as `PAXRT`.
fn has_five(bytes: &[u8]) -> bool
    ensures { result ≡ has_five bytes.now }
{
    begins_apart(b"", b"PART", bytes)
        || begins_apart(b"P", b"ART", bytes)
        || begins_apart(b"PA", b"RT", bytes)
        || begins_apart(b"PAR", b"T", bytes)
}

/// Whether `bytes` begin with `front`, then any letter, then `back`.
fn begins_apart(front: &[u8], back: &[u8], bytes: &[u8]) -> bool
    ensures { result ≡ begins_apart front.now back.now bytes.now }
{
    if !is_letter_at(bytes, front.len()) {
        return false;
    }
    let (_, rest) = bytes.split_at(front.len() + 1);
    right_signs(front, bytes) == front.len() && right_signs(back, rest) == back.len()
}

/// Whether at least `least` signs of `bytes` equal the sign of `word` at the same place.
fn are_right(least: usize, word: &[u8], bytes: &[u8]) -> bool
    ensures { result ≡ nat_le least (right_signs word.now bytes.now) }
{
    right_signs(word, bytes) >= least
}

/// Whether the first line of `bytes` has the sign of `word`, or a lost sign, in at least `least` places.
fn are_fitting(least: usize, word: &[u8], bytes: &[u8]) -> bool
    ensures { result ≡ nat_le least (fitting_signs word.now bytes.now) }
{
    fitting_signs(word, bytes) >= least
}

/// In how many places the first line of `bytes` has the sign of `word`.
fn right_signs(word: &[u8], bytes: &[u8]) -> usize
    ensures signs { result ≡ right_signs word.now bytes.now }
    ensures few { result ≤ length word.now }
{
    if let [letter, word @ ..] = word
        && let [byte, bytes @ ..] = bytes
        && *byte != b'\n'
    {
        let right = usize::from(meant_byte(*byte) == *letter);
        return right + right_signs(word, bytes);
    }
    0
}

/// In how many places the first line of `bytes` has the sign of `word`, or a lost sign.
fn fitting_signs(word: &[u8], bytes: &[u8]) -> usize
    ensures signs { result ≡ fitting_signs word.now bytes.now }
    ensures few { result ≤ length word.now }
{
    if let [letter, word @ ..] = word
        && let [byte, bytes @ ..] = bytes
        && *byte != b'\n'
    {
        let fitting = usize::from(meant_byte(*byte) == *letter || is_lost(*byte));
        return fitting + fitting_signs(word, bytes);
    }
    0
}

/// Whether a letter, capital or small, stands at `place` of `bytes`.
fn is_letter_at(bytes: &[u8], place: usize) -> bool
    ensures { result ≡ is_letter (slice_get bytes.now place) }
{
    is_letter(bytes.get(place).copied())
}

/// Whether `byte` is a letter, capital or small. False for `None`.
#[tactic(auto, unfolding(crate::specs::HeadingLine::is_letter))]
fn is_letter(byte: Option<u8>) -> bool
    ensures { result ≡ is_letter byte }
{
    match byte {
        Some(byte) => meant_byte(byte).is_ascii_uppercase(),
        None => false,
    }
}

/// Whether the first line of `bytes` has a digit or a slash.
fn has_digit_line(bytes: &[u8]) -> bool
    ensures { result ≡ has_digit_line bytes.now }
{
    for byte in bytes {
        if *byte == b'\n' {
            return false;
        }
        if *byte >= b'/' && *byte <= b'9' {
            return true;
        }
    }
    false
}

/// The greatest number of signs of a heading line that `heading_signs` returns.
const MOST_SIGNS: usize = 64;

/// The first signs of a received heading line, at most 64. `?` stands for each sign that isn't allowed in a heading.
pub(crate) fn heading_signs(line: &[u8]) -> ArrayString<64>
    ensures { result.bytes ≡ heading_signs line.now }
{
    let (front, _) = line.split_at(MOST_SIGNS.min(line.len()));
    let mut signs = ArrayString::new();
    for byte in front {
        signs.push(char::from(heading_sign(*byte)));
    }
    signs
}

/// The sign that `byte` means; `?` if this sign isn't allowed in a heading.
fn heading_sign(byte: u8) -> u8
    ensures sign { result ≡ heading_sign byte }
    ensures ascii { result < 128 }
{
    let byte = meant_byte(byte);
    if is_heading_byte(byte) { byte } else { b'?' }
}

fn is_heading_byte(byte: u8) -> bool
    ensures { result ≡ is_heading_byte byte }
{
    byte.is_ascii_uppercase() || (byte >= b'/' && byte <= b'9') || is_lost(byte) || byte == b' '
}

/// Whether `bytes` look like an order to send. Their first line begins like `PART`, and has no digit or slash. A later
/// line is `TEXT`.
pub(crate) fn is_order(bytes: &[u8]) -> bool
    ensures { result ≡ is_order bytes.now }
{
    begins_with_part(after_blanks(bytes)) && !has_digit_line(bytes) && has_text_line(bytes)
}

/// Whether a line of `bytes` after the first is `TEXT`.
fn has_text_line(bytes: &[u8]) -> bool
    ensures { result ≡ has_text_line bytes.now }
{
    for (index, byte) in bytes.iter().enumerate() {
        let (_, rest) = bytes.split_at(index + 1);
        if *byte == b'\n' && is_text_line(rest) {
            return true;
        }
    }
    false
}

/// Whether `bytes` begin with the line `TEXT`.
fn is_text_line(bytes: &[u8]) -> bool
    ensures { result ≡ is_text_line bytes.now }
{
    are_right(4, b"TEXT", bytes) && ends_line(bytes.get(4).copied())
}

/// Whether a line ends at `byte`: the byte is an LF or a CR, or there is no byte.
fn ends_line(byte: Option<u8>) -> bool
    ensures { result ≡ ends_line byte }
{
    match byte {
        Some(byte) => byte == b'\n' || byte == b'\r',
        None => true,
    }
}
