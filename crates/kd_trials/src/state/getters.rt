//! Tests of the calls that return one part of a machine, of a day or of a sheet.
use crate::letters::{letter, letters};
use crate::machines::{day, machine};
use crate::named::TextName::{DayOf1941, DayOfAllMet, M209, TenCables};
use crate::texts;
use kd_sheet::read_sheet;
use kd_tables::{Model, Place, Reading, Reflector, Standing, Wheel};

#[test]
fn machines_tell_their_parts(rt: HostRuntime) {
    let enigma = machine(rt.alloc(), &(TenCables, "", "")).expect(&rt, "a machine");
    assert!(rt; enigma.model() == Model::EnigmaI && enigma.reflector() == Some(Reflector::B));
    assert!(rt; enigma.slot(2) == Some(Some(Wheel::IV)) && enigma.slot(4).is_none());
    assert!(rt; enigma.ring(Wheel::V) == Some(letter(&rt, b'L')));
    assert!(rt; enigma.letter(Wheel::II) == Some(letter(&rt, b'B')));
    let [b, s] = letters(&rt, b"BS");
    assert!(rt; enigma.cable(2) == Some((Some(b), Some(s))));
    assert!(rt; enigma.cable(13) == Some((None, None)));
    // The lugs of bar 1 are at 1 and 2, and on wheel 2 only the pin at O is effective.
    let converter = machine(rt.alloc(), &(M209, "", "")).expect(&rt, "a machine");
    let a = letter(&rt, b'A');
    assert!(rt; converter.model() == Model::M209 && converter.cable(1).is_none());
    assert!(rt; converter.shown(6) == Some(a) && converter.shown(7).is_none());
    assert!(rt; converter.standing(1) == Standing::new(Place::One, Place::Two));
    assert!(rt; converter.pin_at(2, a) == Some(false));
}

#[test]
fn days_tell_their_parts(rt: HostRuntime) {
    let enigma = day(rt.alloc(), &(DayOf1941, "", "")).expect(&rt, "a day");
    assert!(rt; enigma.day() == 1 && enigma.model() == Model::EnigmaI);
    assert!(rt; enigma.reflector() == Some(Reflector::B));
    assert!(rt; enigma.slot(2) == Some(Wheel::IV) && enigma.slot(4).is_none());
    assert!(rt; enigma.ring(2) == Some(letter(&rt, b'U')));
    assert!(rt; enigma.window(1) == Some(letter(&rt, b'B')));
    let converter = day(rt.alloc(), &(DayOfAllMet, "", "")).expect(&rt, "a day");
    let rows = Reading::new(0, 1).expect(&rt, "a reading");
    assert!(rt; converter.rows() == Some([rows; 27]));
    assert!(rt; converter.list() == Some(letters(&rt, b"QV")));
}

/// Sheets, and the numbers of their days. Only these numbers have a day.
static SHEETS: [(&str, &[u8]); 2] = [(texts::DAY_OF_1941, &[1]), ("day = []\n", &[])];

#[test]
fn sheets_have_their_days_alone(rt: HostRuntime) {
    for (text, days) in &SHEETS {
        let sheet = read_sheet(rt.alloc(), text.as_bytes()).ok();
        let sheet = sheet.expect(&rt, "a sheet");
        for number in 0..=255 {
            assert!(rt;
                sheet.day(number).is_some() == days.contains(&number),
                "{number}"
            );
        }
    }
}
