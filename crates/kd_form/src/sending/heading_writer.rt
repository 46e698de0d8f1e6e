//! Writes the heading line of a part.
ghost use Rattle.std.specs.Prelude.{◌≡◌, ◌+◌, ◌≤◌, [], ◌++◌};
ghost use Rattle.arrayvec.specs.ArrayString.{array_string_len};
ghost use Rattle.kd_tables.specs.LineWords.{line_then};
ghost use Rattle.kd_form.specs.Part.{heading_words, indicator_words, words_after_spaces};

use super::body_writer::push_letters;
use crate::heading::{Heading, Indicator};
use arrayvec::ArrayString;
use itoa::Buffer;
use kd_tables::push_number;

/// Appends the heading line of `heading`.
#[tactic(auto, using(crate::proofs::MadeParts::heading_line))]
pub(crate) fn push_heading<const N: usize>(text: &mut ArrayString<N>, heading: &Heading)
    requires { array_string_len text.old + 50 ≤ N }
    ensures bytes { text.new.bytes ≡ text.old.bytes ++ line_then (heading_words heading.now) [] }
    ensures len { array_string_len text.new ≤ array_string_len text.old + 50 }
{
    let mut buffer = Buffer::new();
    text.push_str("PART ");
    push_number(text, heading.part);
    text.push_str("/");
    push_number(text, heading.parts);
    text.push_str(" ");
    text.push_str(buffer.format(heading.letters));
    push_indicator(text, &heading.indicator);
    text.push_str("\n");
}

/// Appends the ground setting and the enciphered message key, with a space before each. Appends nothing if `indicator`
/// is `None`.
fn push_indicator<const N: usize>(text: &mut ArrayString<N>, indicator: &Option<Indicator>)
    requires { array_string_len text.old + 10 ≤ N }
    ensures bytes { text.new.bytes
        ≡ text.old.bytes ++ words_after_spaces (indicator_words indicator.now) }
    ensures len { array_string_len text.new ≤ array_string_len text.old + 10 }
{
    if let Some(indicator) = indicator {
        text.push_str(" ");
        push_letters(text, indicator.ground_setting.as_slice());
        text.push_str(" ");
        push_letters(text, indicator.enciphered_key.as_slice());
    }
}
