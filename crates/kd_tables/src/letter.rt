//! Letters of the alphabet.
ghost use Rattle.std.specs.Prelude.{◌≡◌, ℕ, ◌+◌, ◌-◌, ◌%◌, ◌<◌, ◌≤◌, ◌↔◌, IsSome, IfSome};

use std::marker::Model;

/// For each letter, in the order of the alphabet: the place of the next letter, with A after Z.
///
/// A rotor machine calls `next` at each key press, and a table is faster than a comparison.
static NEXT: [u8; 26] = [
    1, 2, 3, 4, 5, 6, 7, 8, 9, 10, 11, 12, 13, 14, 15, 16, 17, 18, 19, 20, 21, 22, 23, 24, 25, 0,
];

/// A letter of the alphabet, as its place: A is 0 and Z is 25.
#[derive(Clone, Copy, Default, PartialEq, Eq, PartialOrd, Ord)]
pub struct Letter {
    index: u8,
}

impl Model for Letter {
    ghost Value = { ℕ };

    ghost view = { λ l. l.index };

    ghost invariant = { λ l. l.index < 26 };

    ghost inverse = { λ n. record { index = n } };
}

// A constant has no contract: this proves that `A` is the first letter.
const _: () = prove!(Letter::A.index == 0);

impl Letter {
    /// The first letter.
    pub const A: Letter = Letter { index: 0 };

    /// The letter at place `index` of the alphabet, counted from 0; `None` if `index` is above 25.
    pub const fn new(index: u8) -> Option<Self>
        ensures exists { IsSome result ↔ (index < 26) }
        ensures value { IfSome result (λ letter. letter ≡ index) }
    {
        if index < 26 {
            Some(Letter { index })
        } else {
            None
        }
    }

    /// The letter at place `index` of the alphabet, counted from 0. `index` must be below 26.
    pub const fn at(index: u8) -> Self
        requires { index < 26 }
        ensures { result ≡ index }
    {
        Letter { index }
    }

    /// The letter whose ASCII code is `byte`; `None` if `byte` isn't a capital letter.
    pub const fn from_byte(byte: u8) -> Option<Self>
        ensures exists { IsSome result ↔ ((65 ≤ byte) × (byte ≤ 90)) }
        ensures value { IfSome result (λ letter. byte ≡ letter + 65) }
    {
        if byte >= b'A' && byte <= b'Z' {
            Some(Letter { index: byte - b'A' })
        } else {
            None
        }
    }

    /// The letter's place in the alphabet, counted from 0.
    pub const fn index(self) -> usize
        ensures value { result ≡ self }
        ensures within { result < 26 }
    {
        self.index as usize
    }

    /// The ASCII code of the letter, as a capital letter.
    pub const fn byte(self) -> u8
        ensures value { result ≡ self + 65 }
        ensures capital { result ≤ 90 }
    {
        self.index + b'A'
    }

    /// The next letter, with A after Z.
    pub const fn next(self) -> Letter
        ensures value { result ≡ (self + 1) % 26 }
        ensures within { result < 26 }
    {
        Letter {
            index: NEXT[self.index as usize],
        }
    }

    /// Moves this letter forward in the alphabet by `by.index()` places, with A after Z.
    pub const fn forward(self, by: Letter) -> Letter
        ensures value { result ≡ (self + by) % 26 }
        ensures within { result < 26 }
    {
        Letter {
            index: (self.index + by.index) % 26,
        }
    }

    /// Moves this letter back in the alphabet by `by.index()` places, with Z before A.
    pub const fn back(self, by: Letter) -> Letter
        ensures value { result ≡ (self + (26 - by)) % 26 }
        ensures within { result < 26 }
    {
        Letter {
            index: (self.index + (26 - by.index)) % 26,
        }
    }
}
