//! Makes letters from text.
use kd_tables::Letter;
use std::process::Abort;

/// The letter whose ASCII code is `byte`, which must be a capital letter.
pub fn letter(rt: &impl Abort, byte: u8) -> Letter {
    Letter::from_byte(byte).expect(rt, "a capital letter")
}

/// The letters of `text`, which must be in capital letters.
pub fn letters<const N: usize>(rt: &impl Abort, text: &[u8; N]) -> [Letter; N] {
    let mut letters = [Letter::A; N];
    for (place, byte) in text.iter().enumerate() {
        letters[place] = letter(rt, *byte);
    }
    letters
}
