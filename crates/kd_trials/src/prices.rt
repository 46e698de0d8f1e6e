//! Tests of prices by kind.
use crate::machines::{PLAIN, Told, keyed};
use crate::named::TextName::{
    self, AllMet, BarKinds, DayOfAllMet, DayOfUnlikeBars, DayWithoutPins, EmptyKinds, M1, NoLugs,
    NoSettings, OneBarKind, OneLug, PlainDay, TwoCableKinds, TwoCables, UnlikeBarKinds, UnlikeBars,
    UnlikeCableKinds, WithoutPins,
};
use crate::named::{File, changed};
use kd_card::{read_card, write_card};
use kd_prices::by_kind;
use kd_tables::MemorySink;
use std::alloc::Global;
use std::process::Abort;

/// A machine and a day, a card, and the text that `by_kind` gives the card, with one price for each kind.
///
/// There is no such text if the prices are by kind already, or if two bars of one kind have different prices.
type Case = (Told, File, Option<TextName>);

static CASES: [Case; 8] = [
    (TWO_BARS, (OneLug, "", ""), Some(BarKinds)),
    (CABLES, (TwoCables, "", ""), Some(TwoCableKinds)),
    (TWO_BARS, (BarKinds, "", ""), None),
    (TWO_BARS, (OneLug, "BARS 1 1 0 0", "BARS 1 1 1 -1"), None),
    // All 13 cables or all 27 bars are of one kind; or they are of 13 or 27 different kinds.
    (PLAIN, (NoSettings, "", ""), Some(EmptyKinds)),
    (FULL_CABLES, (NoSettings, "", ""), Some(UnlikeCableKinds)),
    (ALIKE_BARS, (NoLugs, "", ""), Some(OneBarKind)),
    (UNLIKE_BARS, (NoLugs, "", ""), Some(UnlikeBarKinds)),
];

/// An Enigma I with the cables AB and CD, on a day with the pairs BC and DE.
const CABLES: Told = (
    (M1, "version = 1", "version = 1\ncables = [\"AB\", \"CD\"]"),
    (PlainDay, "plugs = []", "plugs = [\"BC\", \"DE\"]"),
);

/// A Converter on which two bars read as the day's two rows once one lug is moved.
const TWO_BARS: Told = (
    (
        WithoutPins,
        "bars = [\"0L-0R\", \"0L-0R\"",
        "bars = [\"3-0R\", \"0L-3\"",
    ),
    (
        DayWithoutPins,
        "rows = [\"0-0\", \"0-0\"",
        "rows = [\"0-3\", \"3-6\"",
    ),
);

/// An Enigma I with thirteen cables, on its day.
const FULL_CABLES: Told = (
    (
        M1,
        "version",
        "cables = [\"AB\", \"CD\", \"EF\", \"GH\", \"IJ\", \"KL\", \"MN\", \"OP\", \"QR\", \"ST\", \"UV\", \"WX\", \"YZ\"]\nversion",
    ),
    (
        PlainDay,
        "[]",
        "[\"ZY\", \"AB\", \"CD\", \"EF\", \"GH\", \"IJ\", \"KL\", \"MN\", \"OP\", \"QR\", \"ST\", \"UV\", \"WX\"]",
    ),
);

/// A Converter whose bars all have the same standing, on its day.
///
/// The bars of `UNLIKE_BARS` have different standings.
const ALIKE_BARS: Told = ((AllMet, "", ""), (DayOfAllMet, "", ""));

const UNLIKE_BARS: Told = ((UnlikeBars, "", ""), (DayOfUnlikeBars, "", ""));

/// Checks the text that `by_kind` gives a card.
fn becomes(rt: &impl Abort, alloc: Global, (told, text, due): &Case) {
    let (machine, day) = keyed(alloc, told).expect(rt, "a machine and its day");
    let text = changed(alloc, text).ok().expect(rt, "memory");
    let (number, card) = read_card(text.as_bytes()).ok().expect(rt, "a card");
    let mut sink = MemorySink::<1024>::new(1024);
    if let Some(other) = by_kind(&machine, &day, &card) {
        assert!(rt; write_card(&mut sink, number, &other).is_ok());
    }
    let due = due.unwrap_or(TextName::Empty).text();
    assert!(rt; sink.taken() == due.as_bytes());
}

#[test]
fn cards_become_cards_by_kind(rt: HostRuntime) {
    for case in &CASES {
        becomes(&rt, rt.alloc(), case);
    }
}
