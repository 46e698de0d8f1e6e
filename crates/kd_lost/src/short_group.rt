//! The first *short group* of a body: it doesn't have five letters, and more letters follow.
ghost use Rattle.std.specs.Prelude.{◌≡◌, ◌≤◌, ◌^◌, ◌+◌, ◌<◌, if◌then◌else◌, is_some};
ghost use Rattle.kd_lost.specs.Lost.{received_letter};
ghost use Rattle.kd_lost.specs.ShortGroup.{IsFirstShortGroup};

use crate::received::is_received;
use crate::short_line::letters_on;

/// The number of the first short group of `body`, counted from 1.
///
/// A short group doesn't have five letters, and more letters follow.
pub(crate) fn first_short_group(body: &[u8]) -> Option<usize>
    ensures { IsFirstShortGroup body.now result }
{
    let all = letters_on(body);
    let mut letters = 0;
    for byte in body {
        if !is_received(byte) && letters < all && letters % 5 != 0 {
            return Some(letters / 5 + 1);
        }
        letters = letters_after(letters, *byte);
    }
    None
}

/// The number of letters up to and including `byte`, if `letters` letters stand before `byte`.
pub(crate) fn letters_after(letters: usize, byte: u8) -> usize
    requires { letters < 2 ^ 63 + 2 }
    ensures { result ≡ (if is_some (received_letter byte) then letters + 1 else letters) }
{
    if is_received(&byte) {
        letters + 1
    } else {
        letters
    }
}
