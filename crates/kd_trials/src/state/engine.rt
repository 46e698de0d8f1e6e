//! Tests of engines that are turned to other letters.
use crate::letters::letter;
use crate::machines::machine;
use crate::named::TextName::{self, AllMet, M4AsEnigma, TenCables, WithoutPins};
use kd_tables::Letter;
use std::alloc::Global;
use std::process::Abort;

/// A machine; letters to turn its engine to, and whether the engine turns; a text; and its ciphertext after that.
type Case = (TextName, &'static [u8], bool, &'static [u8], &'static [u8]);

/// An engine turns if there is a letter for each slot or pin wheel, and the letter is on it. If not, its ciphertext
/// stays the machine's.
static CASES: [Case; 14] = [
    (TenCables, b"WXC", true, b"KCH", b"BLA"),
    (TenCables, b"WXC", true, b"BLA", b"KCH"),
    (TenCables, b"BLA", true, b"EDPUD", b"AUFKL"),
    (TenCables, b"", false, b"EDPUD", b"AUFKL"),
    (TenCables, b"WX", false, b"EDPUD", b"AUFKL"),
    (TenCables, b"WXCA", false, b"EDPUD", b"AUFKL"),
    (M4AsEnigma, b"AAAA", true, b"AAAAA", b"BDZGO"),
    (M4AsEnigma, b"BBB", false, b"AAAAA", b"BDZGO"),
    (AllMet, b"VAAAAA", true, b"JJJJJJJJJJJJ", b"QQQQQRQQQQQQ"),
    (AllMet, b"VAAAAR", false, b"AAAAA", b"AZZZZ"),
    (AllMet, b"VWAAAA", false, b"AAAAA", b"AZZZZ"),
    (AllMet, b"VAAAA", false, b"AAAAA", b"AZZZZ"),
    (AllMet, b"VAAAAAA", false, b"AAAAA", b"AZZZZ"),
    (
        WithoutPins,
        b"ABCDEF",
        true,
        b"TTTTTTTTTTTT",
        b"GGGGGGGGGGGG",
    ),
];

/// The letters of `text`, which has at most twelve, with as many letters A behind them as are missing.
fn twelve_letters(rt: &impl Abort, text: &[u8]) -> [Letter; 12] {
    let mut letters = [Letter::A; 12];
    for (place, byte) in text.iter().enumerate() {
        assert!(rt; place < 12);
        letters[place] = letter(rt, *byte);
    }
    letters
}

/// Checks whether the engine turns, and its ciphertext.
fn enciphers(rt: &impl Abort, alloc: Global, (name, to, due, text, cipher): &Case) {
    let machine = machine(alloc, &(*name, "", "")).expect(rt, "a machine");
    let mut engine = machine.engine().ok().expect(rt, "ready");
    let letters = twelve_letters(rt, to);
    assert_eq!(rt; engine.turn_to(&letters[..to.len().min(12)]), *due);
    let length = text.len().min(12);
    let mut letters = twelve_letters(rt, text);
    engine.run(&mut letters[..length]);
    assert!(rt; letters[..length] == twelve_letters(rt, cipher)[..length]);
}

#[test]
fn engines_turn_to_letters_or_stay(rt: HostRuntime) {
    for case in &CASES {
        enciphers(&rt, rt.alloc(), case);
    }
}
