//! Tests of the tables and their texts, against the published ones.
use crate::letters::{letter, letters};
use kd_tables::{
    Failed, Model, Place, Reading, Reflector, Standing, Wheel, notched, place_on_wheel, reflecting,
    unwiring, wiring,
};
use std::process::Abort;

/// A wheel with its name, its published wiring, and the letters of its notches.
type PublishedWheel = (Wheel, &'static str, &'static [u8; 26], &'static [u8]);

static WHEELS: [PublishedWheel; 10] = [
    (Wheel::I, "I", b"EKMFLGDQVZNTOWYHXUSPAIBRCJ", b"Q"),
    (Wheel::II, "II", b"AJDKSIRUXBLHWTMCQGZNPYFVOE", b"E"),
    (Wheel::III, "III", b"BDFHJLCPRTXVZNYEIWGAKMUSQO", b"V"),
    (Wheel::IV, "IV", b"ESOVPZJAYQUIRHXLNFTGKDCMWB", b"J"),
    (Wheel::V, "V", b"VZBRGITYUPSDNHLXAWMJQOFECK", b"Z"),
    (Wheel::VI, "VI", b"JPGVOUMFYQBENHZRDKASXLICTW", b"MZ"),
    (Wheel::VII, "VII", b"NZJHGRCXMYSWBOUFAIVLPEKQDT", b"MZ"),
    (Wheel::VIII, "VIII", b"FKQHTLXOCBJSPDZRAMEWNIUYGV", b"MZ"),
    (Wheel::Beta, "Beta", b"LEYJVCNIXWPBQMDRTAKZGFUHOS", b""),
    (Wheel::Gamma, "Gamma", b"FSOKANUERHMBTIYCWLQPZXVGJD", b""),
];

/// Checks the name, the wiring and the notches of a wheel.
fn is_published(rt: &impl Abort, (wheel, name, wired, notches): &PublishedWheel) {
    assert_eq!(rt; wheel.text().as_str(), *name);
    assert!(rt; Wheel::from_text(name.as_bytes()) == Some(*wheel));
    assert!(rt; wiring(*wheel) == letters(rt, wired));
    for letter in unwiring(*wheel) {
        assert_eq!(rt; notched(*wheel, letter), notches.contains(&letter.byte()));
    }
}

#[test]
fn wheels_are_as_published(rt: HostRuntime) {
    for wheel in &WHEELS {
        is_published(&rt, wheel);
    }
}

/// A reflector with its name and its published wiring.
static REFLECTORS: [(Reflector, &str, &[u8; 26]); 5] = [
    (Reflector::A, "A", b"EJMZALYXVBWFCRQUONTSPIKHGD"),
    (Reflector::B, "B", b"YRUHQSLDPXNGOKMIEBFZCWVJAT"),
    (Reflector::C, "C", b"FVPJIAOYEDRZXWGCTKUQSBNMHL"),
    (Reflector::ThinB, "b", b"ENKQAUYWJICOPBLMDXZVFTHRGS"),
    (Reflector::ThinC, "c", b"RDOBJNTKVEHMLFCWZAXGYIPSUQ"),
];

#[test]
fn reflectors_are_as_published(rt: HostRuntime) {
    for (reflector, name, wired) in &REFLECTORS {
        assert_eq!(rt; reflector.text().as_str(), *name);
        assert!(rt; Reflector::from_text(name.as_bytes()) == Some(*reflector));
        assert!(rt; reflecting(*reflector) == letters(&rt, wired));
    }
}

/// A model with its name, and how many slots, wheels and reflectors it has.
static MODELS: [(Model, &str, u8, usize, usize); 4] = [
    (Model::EnigmaI, "Enigma I", 3, 5, 3),
    (Model::M3, "M3", 3, 8, 2),
    (Model::M4, "M4", 4, 10, 2),
    (Model::M209, "M-209", 0, 0, 0),
];

#[test]
fn models_have_names_and_parts(rt: HostRuntime) {
    for (model, name, slots, wheels, reflectors) in &MODELS {
        assert_eq!(rt; model.text().as_str(), *name);
        assert!(rt; Model::from_text(name.as_bytes()) == Some(*model));
        assert_eq!(rt;
            (
                model.slots(),
                model.wheels().len(),
                model.reflectors().len()
            ),
            (*slots, *wheels, *reflectors)
        );
    }
}

/// The number of a Converter's wheel, a letter, and the letter's place on the wheel, if it is on it.
static PLACES_ON_WHEELS: [(u8, u8, Option<usize>); 13] = [
    (1, b'Z', Some(25)),
    (2, b'Z', Some(24)),
    (3, b'X', Some(22)),
    (4, b'U', Some(20)),
    (5, b'S', Some(18)),
    (6, b'Q', Some(16)),
    (1, b'W', Some(22)),
    (2, b'W', None),
    (3, b'W', None),
    (3, b'Y', None),
    (4, b'V', None),
    (5, b'T', None),
    (6, b'R', None),
];

#[test]
fn pin_wheels_have_their_own_letters(rt: HostRuntime) {
    for (wheel, byte, place) in &PLACES_ON_WHEELS {
        assert_eq!(rt; place_on_wheel(*wheel, letter(&rt, *byte)), *place);
    }
}

/// The texts of the 28 standings, and how each reads, are tested on the program, by `tests/cases`.
#[test]
fn bars_have_28_standings(rt: HostRuntime) {
    let mut standings = 0_u8;
    for left in Place::all() {
        for right in Place::all() {
            standings = standings.saturating_add(u8::from(Standing::new(left, right).is_some()));
        }
    }
    assert_eq!(rt; standings, 28);
}

/// All readings in order, each with its two numbers.
static READINGS: [(&str, u8, u8); 22] = [
    ("0-0", 0, 0),
    ("0-1", 0, 1),
    ("0-2", 0, 2),
    ("0-3", 0, 3),
    ("0-4", 0, 4),
    ("0-5", 0, 5),
    ("0-6", 0, 6),
    ("1-2", 1, 2),
    ("1-3", 1, 3),
    ("1-4", 1, 4),
    ("1-5", 1, 5),
    ("1-6", 1, 6),
    ("2-3", 2, 3),
    ("2-4", 2, 4),
    ("2-5", 2, 5),
    ("2-6", 2, 6),
    ("3-4", 3, 4),
    ("3-5", 3, 5),
    ("3-6", 3, 6),
    ("4-5", 4, 5),
    ("4-6", 4, 6),
    ("5-6", 5, 6),
];

#[test]
fn bars_have_22_readings(rt: HostRuntime) {
    let mut before = None;
    for (text, smaller, larger) in &READINGS {
        let reading = Reading::from_text(text.as_bytes());
        assert!(rt; reading.is_some() && reading == Reading::new(*larger, *smaller));
        assert!(rt; before < reading);
        before = reading;
    }
}

#[test]
fn a_refusal_is_printed(rt: HostRuntime) {
    let said = format!(in rt.alloc(); "{}", Failed).ok();
    assert_eq!(rt; said.expect(&rt, "memory").as_str(), "the device refused");
}
