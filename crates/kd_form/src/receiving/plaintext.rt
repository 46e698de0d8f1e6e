//! Writes the letters of a received text as bytes.
ghost use Rattle.std.specs.Prelude.{◌≡◌, ◌≤◌, length};
ghost use Rattle.kd_form.specs.FormText.{plaintext_byte, plaintext_bytes};

use crate::text_bytes::space_letter;
use arrayvec::ArrayVec;
use kd_state::SheetDay;
use kd_tables::Letter;

/// `letters` as bytes: capital letters; on the Converter M-209, a space for each Z.
pub(crate) fn plaintext_bytes<const N: usize>(day: &SheetDay, letters: &[Letter]) -> ArrayVec<u8, N>
    requires { length letters.now ≤ N }
    ensures { result.items ≡ plaintext_bytes day.now letters.now }
{
    let for_space = space_letter(day);
    let mut given = ArrayVec::new();
    for letter in letters {
        given.push(plaintext_byte(&for_space, *letter));
    }
    given
}

/// The byte for `letter`: a space if the letter is `for_space`, otherwise the capital letter.
fn plaintext_byte(for_space: &Option<Letter>, letter: Letter) -> u8
    ensures { result ≡ plaintext_byte for_space.now letter }
{
    match for_space {
        Some(for_space) if *for_space == letter => b' ',
        _ => letter.byte(),
    }
}
