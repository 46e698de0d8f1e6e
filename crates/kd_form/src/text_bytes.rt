//! The bytes of a text (capital letters, spaces and line ends), and the letter that each byte gives.
ghost use Rattle.std.specs.Prelude.{◌≡◌};
ghost use Rattle.kd_tables.specs.Text.{is_text_byte};
ghost use Rattle.kd_form.specs.Sending.{space_letter, letter_of_byte};

use kd_state::SheetDay;
use kd_tables::Letter;

/// The letter that is enciphered for a space: Z on the Converter M-209, and `None` on a rotor machine.
pub fn space_letter(day: &SheetDay) -> Option<Letter>
    ensures { result ≡ space_letter day.now }
{
    match day.list() {
        Some(_) => Letter::new(25),
        None => None,
    }
}

/// The letter that `byte` gives: a capital letter gives itself, a space gives `for_space`, and other bytes give `None`.
pub fn letter_of_byte(for_space: &Option<Letter>, byte: u8) -> Option<Letter>
    ensures { result ≡ letter_of_byte for_space.now byte }
{
    if byte == b' ' {
        return *for_space;
    }
    Letter::from_byte(byte)
}

/// Whether `byte` is allowed in a text: a capital letter, a space, CR or LF.
pub fn is_text_byte(byte: u8) -> bool
    ensures { result ≡ is_text_byte byte }
{
    matches!(byte, b'A'..=b'Z' | b' ' | b'\r' | b'\n')
}
