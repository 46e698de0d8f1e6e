//! The places of the plugboard's sockets in its picture.
ghost use Rattle.std.specs.Prelude.{◌≡◌, ◌≤◌};
ghost use Rattle.kd_pictures.specs.Sockets.{label_y, line_x, socket_row, socket_x, socket_y};

use kd_tables::Letter;

/// The letters in the order of the sockets: row by row from the top, and from the left in each row.
pub static KEYBOARD: [u8; 26] = [
    16, 22, 4, 17, 19, 25, 20, 8, 14, 0, 18, 3, 5, 6, 7, 9, 10, 15, 24, 23, 2, 21, 1, 13, 12, 11,
];

/// The row of each letter's socket, counted from 0 at the top.
static ROWS: [u8; 26] = [
    1, 2, 2, 1, 0, 1, 1, 1, 0, 1, 1, 2, 2, 2, 0, 2, 0, 0, 1, 0, 0, 2, 0, 2, 2, 0,
];

/// The place of each letter's socket in the socket's row, counted from 0 at the left.
static PLACES: [u8; 26] = [
    0, 5, 3, 2, 2, 3, 4, 5, 7, 6, 7, 8, 7, 6, 8, 0, 0, 3, 1, 4, 6, 4, 1, 2, 1, 5,
];

/// How far the letter's socket is from the left edge of the picture.
#[tactic(auto, using(crate::proofs::SocketTables::place_is))]
pub fn socket_x(letter: Letter) -> u16
    ensures value { result ≡ socket_x letter }
    ensures least { 40 ≤ result }
    ensures most { result ≤ 16000 }
{
    let first = if row(letter) == 1 { 70 } else { 40 };
    first + 60 * u16::from(PLACES[letter.index()])
}

/// How far the letter's socket is from the top of the picture.
pub fn socket_y(letter: Letter) -> u16
    ensures value { result ≡ socket_y letter }
    ensures least { 40 ≤ result }
    ensures most { result ≤ 300 }
{
    match row(letter) {
        0 => 46,
        1 => 116,
        _ => 286,
    }
}

/// How far the name of the letter's socket is from the top.
pub fn label_y(letter: Letter) -> u16
    ensures { result ≡ label_y letter }
{
    match row(letter) {
        0 => 24,
        1 => 94,
        _ => 323,
    }
}

/// The distance from the left at which a cable's line reaches the letter's socket.
pub fn line_x(letter: Letter) -> u16
    ensures value { result ≡ line_x letter }
    ensures least { 40 ≤ result }
    ensures most { result ≤ 16010 }
{
    if row(letter) == 2 {
        socket_x(letter) + 10
    } else {
        socket_x(letter)
    }
}

#[tactic(auto, using(crate::proofs::SocketTables::row_is))]
fn row(letter: Letter) -> u8
    ensures { result ≡ socket_row letter }
{
    ROWS[letter.index()]
}
