//! Writes the letters of a part's body in groups of five.
ghost use Rattle.std.specs.Prelude.{◌≡◌, ◌+◌, ◌*◌, ◌≤◌, [], ◌∷◌, ◌++◌, length};
ghost use Rattle.arrayvec.specs.ArrayString.{array_string_len};
ghost use Rattle.kd_tables.specs.Text.{letters_text};
ghost use Rattle.kd_tables.specs.LineWords.{line_then};
ghost use Rattle.kd_form.specs.Part.{words_after_spaces, body_text, letter_groups, pieces};

use arrayvec::ArrayString;
use kd_tables::{Letter, push_letter};

/// Appends `letters` in groups of five, ten groups a line.
pub(crate) fn push_body<const N: usize>(text: &mut ArrayString<N>, letters: &[Letter])
    requires { array_string_len text.old + 2 * length letters.now ≤ N }
    ensures bytes { text.new.bytes ≡ text.old.bytes ++ body_text letters.now }
    ensures len { array_string_len text.new ≤ array_string_len text.old + 2 * length letters.now }
{
    if letters.is_empty() {
        return;
    }
    let (line, rest) = first_piece(letters, 50);
    push_group_line(text, line);
    push_body(text, rest);
}

/// Appends `letters` as one line: groups of five, with a space between them.
#[tactic(auto, using(crate::proofs::MadeParts::in_groups))]
fn push_group_line<const N: usize>(text: &mut ArrayString<N>, letters: &[Letter])
    requires some { 1 ≤ length letters.now }
    requires room { array_string_len text.old + 2 * length letters.now ≤ N }
    ensures bytes { text.new.bytes ≡ text.old.bytes ++ line_then (letter_groups letters.now) [] }
    ensures len { array_string_len text.new ≤ array_string_len text.old + 2 * length letters.now }
{
    let (group, rest) = first_piece(letters, 5);
    push_letters(text, group);
    push_groups(text, rest);
    text.push_str("\n");
}

/// Appends `letters` in groups of five, with a space before each group.
fn push_groups<const N: usize>(text: &mut ArrayString<N>, letters: &[Letter])
    requires { array_string_len text.old + 2 * length letters.now ≤ N }
    ensures bytes { text.new.bytes ≡ text.old.bytes ++ words_after_spaces (letter_groups letters.now) }
    ensures len { array_string_len text.new ≤ array_string_len text.old + 2 * length letters.now }
{
    if letters.is_empty() {
        return;
    }
    let (group, rest) = first_piece(letters, 5);
    text.push_str(" ");
    push_letters(text, group);
    push_groups(text, rest);
}

/// Splits `letters` after the first `size` letters, or after the last letter if there are fewer.
#[tactic(auto, using(crate::proofs::MadeParts::first_pieces))]
fn first_piece(letters: &[Letter], size: usize) -> (&[Letter], &[Letter])
    requires size { 1 ≤ size }
    requires some { 1 ≤ length letters.now }
    ensures pieces { pieces size letters.now ≡ result.0.now ∷ pieces size result.1.now }
    ensures some { 1 ≤ length result.0.now }
    ensures few { length result.0.now ≤ size }
    ensures len { length result.0.now + length result.1.now ≡ length letters.now }
{
    letters.split_at(letters.len().min(size))
}

/// Appends `letters`, without spaces.
pub(crate) fn push_letters<const N: usize>(text: &mut ArrayString<N>, letters: &[Letter])
    requires { array_string_len text.old + length letters.now ≤ N }
    ensures bytes { text.new.bytes ≡ text.old.bytes ++ letters_text letters.now }
    ensures len { array_string_len text.new ≡ array_string_len text.old + length letters.now }
{
    for letter in letters {
        push_letter(text, *letter);
    }
}
