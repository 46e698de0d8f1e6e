//! Tests of the rotor machine. Its ciphertexts are tested on the program, by `tests/refusals` and `tests/cases`.
use crate::letters::letters;
use kd_enigma::{Enigma, EnigmaKey, Plugs};
use kd_tables::{Letter, Reflector, Wheel};

#[test]
fn the_rings_do_not_turn_the_notches(rt: HostRuntime) {
    let mut enigma = Enigma::new(EnigmaKey {
        wheels: [Wheel::I, Wheel::II, Wheel::III],
        rings: letters(&rt, b"BBB"),
        window: letters(&rt, b"ADU"),
        reflector: Reflector::B,
        plugs: Plugs::from_pairs(&[]).ok().expect(&rt, "no pairs"),
    });
    for window in [*b"ADV", *b"AEW", *b"BFX", *b"BFY"] {
        enigma.press(Letter::A);
        assert!(rt; enigma.window() == letters(&rt, &window));
    }
}

#[test]
fn no_letter_is_plugged_twice(rt: HostRuntime) {
    let [a, b, c] = letters(&rt, b"ABC");
    assert!(rt; Plugs::from_pairs(&[(a, b), (b, c)]).is_err());
    assert!(rt; Plugs::from_pairs(&[(a, a)]).is_err());
}
