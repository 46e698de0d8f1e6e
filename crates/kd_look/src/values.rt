//! Appends numbers and letters to a text in memory.
ghost use Rattle.std.specs.Prelude.{◌≡◌, ◌++◌, ◌∷◌, [], IfOk, OnOk, decimal};
ghost use Rattle.std.specs.String.{string_bytes};
ghost use Rattle.kd_tables.specs.Text.{letters_text};
ghost use Rattle.kd_look.specs.Values.{two_digits};

use itoa::Buffer;
use kd_tables::Letter;
use std::alloc::{AllocError, Global};

/// Appends `number` in decimal.
pub fn push_number(text: &mut String, number: u8) -> Result<(), AllocError>
    ensures { OnOk result (string_bytes text.new ≡ string_bytes text.old ++ decimal number) }
{
    let mut buffer = Buffer::new();
    text.push_str(buffer.format(number))
}

/// Appends `number` with at least two digits.
#[tactic(auto, using(std::proofs::Common::append_assoc), unfolding(crate::specs::Values::two_digits))]
pub fn push_two_digits(text: &mut String, number: u8) -> Result<(), AllocError>
    ensures { OnOk result (string_bytes text.new ≡ string_bytes text.old ++ two_digits number) }
{
    text.push_str(if number < 10 { "0" } else { "" })?;
    push_number(text, number)
}

/// Appends `letter` as a capital letter.
pub fn push_letter(text: &mut String, letter: Letter) -> Result<(), AllocError>
    ensures { OnOk result (string_bytes text.new
        ≡ string_bytes text.old ++ letters_text (letter ∷ [])) }
{
    text.push(char::from(letter.byte()))
}

/// The group `letters` in capital letters.
pub fn group_text(alloc: Global, letters: [Letter; 3]) -> Result<String, AllocError>
    ensures { IfOk result (λ text. string_bytes text ≡ letters_text letters) }
{
    let mut text = String::new(alloc);
    push_letters(&mut text, &letters)?;
    Ok(text)
}

/// Appends `letters` as capital letters.
#[tactic(auto, using(std::proofs::Common::append_assoc))]
pub fn push_letters(text: &mut String, letters: &[Letter]) -> Result<(), AllocError>
    ensures { OnOk result (string_bytes text.new
        ≡ string_bytes text.old ++ letters_text letters.now) }
{
    match letters {
        [letter, rest @ ..] => {
            push_letter(text, *letter)?;
            push_letters(text, rest)
        }
        [] => Ok(()),
    }
}
