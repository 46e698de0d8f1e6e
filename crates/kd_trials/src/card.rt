//! Tests of cards that are read and written, and of cards that break off.
use crate::named::TextName::{
    self, AlikeBars, BarKinds, EmptyKinds, HalfCables, Highest, NoSettings, OneLug, TwoCableKinds,
    TwoCables,
};
use kd_card::CardFault::{BadHead, BadLine, PriceMissing};
use kd_card::{read_card, write_card};
use kd_tables::MemorySink;
use std::process::Abort;

/// A card's text and its day; then which lines are its SETTINGS line and its SUM line, counted from 1.
type Sample = (TextName, u8, (usize, usize));

/// Cards of both versions, with settings of cables and of bars.
static CARDS: [Sample; 9] = [
    (TwoCables, 8, (6, 9)),
    (OneLug, 9, (3, 6)),
    (NoSettings, 11, (2, 5)),
    (Highest, 9, (3, 6)),
    (TwoCableKinds, 8, (6, 13)),
    (BarKinds, 9, (3, 10)),
    (EmptyKinds, 11, (2, 5)),
    (AlikeBars, 13, (2, 5)),
    (HalfCables, 31, (2, 12)),
];

/// Reads a card, and writes it to sinks with less room than the card needs, and to one with enough.
///
/// Each sink must take as much of the card's text as it has room for.
fn is_read_and_written(rt: &impl Abort, text: &[u8], due: u8) {
    let (day, card) = read_card(text).ok().expect(rt, "a card");
    assert_eq!(rt; day, due);
    for room in 0..=text.len() {
        let mut sink = MemorySink::<512>::new(room.min(512));
        let answer = write_card(&mut sink, day, &card);
        assert!(rt; answer.is_ok() == (room == text.len()), "{room}");
        assert!(rt; sink.taken() == text.get(..room).unwrap_or(&[]), "{room}");
    }
}

/// Checks the fault of each proper prefix of a card with the SETTINGS line `count` and the SUM line `sum`.
fn fronts_are_refused(rt: &impl Abort, text: &[u8], (count, sum): (usize, usize)) {
    let (mut line, mut is_begun) = (1_usize, false);
    for (length, byte) in text.iter().enumerate() {
        let due = match line {
            1 => BadHead,
            line if line > count && line < sum && !is_begun => PriceMissing,
            line => BadLine(line),
        };
        assert!(rt; read_card(&text[..length]).err() == Some(due), "{length}");
        is_begun = *byte != b'\n';
        line = line.saturating_add(usize::from(!is_begun));
    }
}

#[test]
fn cards_are_read_and_written_back(rt: HostRuntime) {
    for (name, day, lines) in &CARDS {
        let text = name.text().as_bytes();
        is_read_and_written(&rt, text, *day);
        fronts_are_refused(&rt, text, *lines);
    }
}
