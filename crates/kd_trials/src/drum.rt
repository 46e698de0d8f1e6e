//! Tests of the drum.
use crate::machines::day;
use crate::named::File;
use crate::named::TextName::{DayOfAllMet, DayWithoutPins};
use kd_drum::Converter;
use kd_tables::Letter;
use std::alloc::Global;

/// A Converter's day, how many bars move for the first letter, and the ciphertext of as many letters A.
type Case = (File, u8, &'static [u8]);

/// In the first case, one bar has lugs at two wheels whose acting pins are effective; it counts once. In the
/// second case, one pin moves all bars, for the first letter only.
static CASES: [Case; 2] = [
    (
        (
            DayWithoutPins,
            "pins = [\"\", \"\", \"\", \"\", \"\", \"\"]\nrows = [\"0-0\"",
            "pins = [\"P\", \"O\", \"\", \"\", \"\", \"\"]\nrows = [\"1-2\"",
        ),
        1,
        b"A",
    ),
    ((DayOfAllMet, "", ""), 27, b"AZZZZ"),
];

/// The Converter on the day of a sheet, with all letters A.
fn converter(alloc: Global, sheet: &File) -> Option<Converter> {
    let day = day(alloc, sheet)?;
    Converter::new(day.pins()?, [Letter::A; 6], day.rows()?).ok()
}

#[test]
fn bars_are_met(rt: HostRuntime) {
    for (sheet, met, lamps) in &CASES {
        let mut converter = converter(rt.alloc(), sheet).expect(&rt, "a Converter");
        assert_eq!(rt; converter.met(), *met);
        for lamp in *lamps {
            assert_eq!(rt; converter.press(Letter::A).byte(), *lamp);
        }
    }
}
