//! Types one chunk of a text: finds the chunk's letters, and the lamps that light up for them.
ghost use Rattle.std.specs.Bool.{OnTrue};
ghost use Rattle.std.specs.Prelude.{◌≡◌, All, ◌<◌, ◌≤◌, ◌+◌, ◌++◌, take, length, option_to_list};
ghost use Rattle.arrayvec.specs.ArrayVec.{array_vec_len};
ghost use Rattle.kd_tables.specs.Text.{letters_text};
ghost use Rattle.kd_form.specs.Typing.{IsAllowedUpTo, IsTypedChunk, typed_letters};

use crate::stream::reader::CHUNK;
use crate::text_bytes::{is_text_byte, letter_of_byte};
use arrayvec::ArrayVec;
use kd_state::Engine;
use kd_tables::Letter;

/// Appends `letter`, if there is one.
fn push_some_letter(letters: &mut ArrayVec<Letter, CHUNK>, letter: Option<Letter>)
    requires { array_vec_len letters.old < CHUNK }
    ensures items { letters.new.items ≡ letters.old.items ++ option_to_list letter }
    ensures room { array_vec_len letters.new ≤ array_vec_len letters.old + 1 }
{
    if let Some(letter) = letter {
        letters.push(letter);
    }
}

/// Reads `bytes` into `letters` as capital letters, many at a time; returns false if a byte isn't a capital letter.
///
/// If the result is false, the contents of `letters` mean nothing.
fn read_capitals(bytes: &[u8], letters: &mut [Letter]) -> bool
    requires { length letters.old ≡ length bytes.now }
    ensures read { OnTrue result (letters_text letters.new ≡ bytes.now) }
    ensures within { OnTrue result (All (λ letter. letter < 26) letters.new) }
{
    let mut all = true;
    for (place, byte) in bytes.iter().enumerate() {
        let letter = Letter::from_byte(*byte).unwrap_or(Letter::A);
        all &= letter.byte() == *byte;
        letters[place] = letter;
    }
    all
}

/// Writes `letters` into `bytes` as capital letters, many at a time.
fn write_letters(letters: &[Letter], bytes: &mut [u8])
    requires { length bytes.old ≡ length letters.now }
    ensures { bytes.new ≡ letters_text letters.now }
{
    for (place, letter) in letters.iter().enumerate() {
        bytes[place] = letter.byte();
    }
}

/// Collects the letters before the first byte that isn't allowed in a text, and returns the index of this byte.
///
/// If all bytes are allowed, returns the number of bytes. On entry, `letters` must be as long as `bytes`.
fn collect_letters(bytes: &[u8], letters: &mut ArrayVec<Letter, CHUNK>) -> usize
    requires few { length bytes.now ≤ CHUNK }
    requires places { array_vec_len letters.old ≡ length bytes.now }
    ensures allowed { IsAllowedUpTo bytes.now result }
    ensures letters { letters.new.items ≡ typed_letters (take result bytes.now) }
{
    // Most chunks have only letters, so the bytes needn't be tested one by one.
    if read_capitals(bytes, letters) {
        return bytes.len();
    }
    letters.clear();
    for (place, byte) in bytes.iter().enumerate() {
        if !is_text_byte(*byte) {
            return place;
        }
        push_some_letter(letters, letter_of_byte(&None, *byte));
    }
    bytes.len()
}

/// Sets the length of `items` to `count`.
///
/// Usually does nothing, because most chunks of a text are equally long.
fn set_length<T: Copy + Default>(items: &mut ArrayVec<T, CHUNK>, count: usize)
    requires { count ≤ CHUNK }
    ensures { array_vec_len items.new ≡ count }
{
    items.truncate(count);
    while items.len() < count {
        items.push(T::default());
    }
}

/// Types the letters before the first byte that isn't allowed in a text, and returns the index of this byte.
///
/// If all bytes are allowed, returns the number of bytes. `lamps` gets the lamps that light up, as capital letters.
/// `letters` is only a buffer.
pub(super) fn type_chunk(
    engine: &mut Engine,
    bytes: &[u8],
    letters: &mut ArrayVec<Letter, CHUNK>,
    lamps: &mut ArrayVec<u8, CHUNK>,
) -> usize
    requires { length bytes.now ≤ CHUNK }
    ensures allowed { IsAllowedUpTo bytes.now result }
    ensures lights { IsTypedChunk engine.old engine.new (take result bytes.now) lamps.new.items }
{
    set_length(letters, bytes.len());
    let allowed = collect_letters(bytes, letters);
    engine.run(letters);
    set_length(lamps, letters.len());
    write_letters(letters, lamps);
    allowed
}
