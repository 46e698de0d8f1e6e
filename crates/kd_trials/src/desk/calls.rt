//! Tests of the desk's calls: each writes as far as its sink takes, and a source that never ends is cut.
use crate::named::TextName::{
    self, Empty, EmptyKinds, M1, M1Written, M209, NoSettings, TwoCables, WithoutPins,
};
use crate::named::{File, changed};
use crate::source::Endless;
use crate::texts;
use kd_desk::DeskFault::{self, Device, Message, ReadTooLong};
use kd_desk::run_apply::run_apply;
use kd_desk::run_card::run_card;
use kd_desk::run_check::run_check;
use kd_desk::run_receive::run_receive;
use kd_desk::run_send::run_send;
use kd_desk::run_type::run_type;
use kd_form::FormFault::BadByte;
use kd_tables::{MemorySink, MemorySource, Source};
use std::alloc::Global;
use std::process::Abort;

/// A call of the desk, with the day's number if it has a day.
#[derive(Clone, Copy)]
enum Call {
    Type,
    Apply,
    Card(u8),
    Check(u8),
    Send(u8),
    Receive(u8),
}

/// Runs `call` on a machine file and the sheet.
///
/// The list or the card is `list`; what is typed, sent or received comes from `source`.
fn run<R: Source>(
    alloc: Global,
    call: Call,
    machine: &[u8],
    list: &[u8],
    source: &mut R,
    sink: &mut MemorySink<512>,
) -> Result<(), DeskFault> {
    let sheet = TextName::Sheet.text().as_bytes();
    match call {
        Call::Type => run_type(alloc, machine, source, sink),
        Call::Apply => run_apply(alloc, machine, list, sink),
        Call::Card(day) => run_card(alloc, machine, sheet, day, sink),
        Call::Check(day) => run_check(alloc, machine, sheet, day, list, sink),
        Call::Send(day) => run_send(alloc, machine, sheet, day, source, sink),
        Call::Receive(day) => run_receive(alloc, machine, sheet, day, source, sink),
    }
}

/// A call, a machine file, what the call reads besides, and what it writes.
type Written = (Call, File, File, File);

static WRITTEN: [Written; 11] = [
    (
        Call::Type,
        ENIGMA,
        (Empty, "", "AAAAA"),
        (Empty, "", "BDZGO\n"),
    ),
    (Call::Apply, ENIGMA, (Empty, "", ""), (M1Written, "", "")),
    (
        Call::Apply,
        (M209, "\"1-2\", \"0L-0R\"", "\"3-0R\", \"0L-3\""),
        (Empty, "", "LUG 1 R 6\n"),
        (M209, "\"1-2\", \"0L-0R\"", "\"3-6\", \"0L-3\""),
    ),
    (
        Call::Card(11),
        ENIGMA,
        (Empty, "", ""),
        (EmptyKinds, "", ""),
    ),
    (
        Call::Card(12),
        (M1, "\"AAAAA\"", "\"BAAAA\""),
        (Empty, "", ""),
        (
            EmptyKinds,
            "11\nSETTINGS 0",
            "12\nRING I A\nTURN 1 A\nSETTINGS 2",
        ),
    ),
    (
        Call::Check(11),
        ENIGMA,
        (NoSettings, "", ""),
        (Empty, "", "SHORTEST 0\n"),
    ),
    (
        Call::Check(8),
        (M1, "version", "cables = [\"AB\", \"CD\"]\nversion"),
        (TwoCables, "", ""),
        (Empty, "", "SHORTEST 4\n"),
    ),
    (
        Call::Send(17),
        ENIGMA,
        (Empty, "", "PART AAA AAA QX UGZ\nTEXT\nAAAAA"),
        (Empty, "", "PART 1/1 10 AAA BDZ\nQXUGZ BDZGO\n"),
    ),
    (
        Call::Send(15),
        (WithoutPins, "", ""),
        (Empty, "", "PART T ABCDEF\nTEXT\nHELLO WORLD"),
        (Empty, "", CONVERTER_FORM),
    ),
    (
        Call::Receive(17),
        ENIGMA,
        (Empty, "", "PART 1/1 10 AAA BDZ\nQXUGZ BDZGO\n"),
        (Empty, "", "AAAAA\n"),
    ),
    (
        Call::Receive(15),
        (WithoutPins, "", ""),
        (Empty, "", CONVERTER_FORM),
        (Empty, "", "HELLO WORLDXXXX\n"),
    ),
];

/// An Enigma I with reflector B, the wheels I, II and III in the slots, and all rings and letters A.
const ENIGMA: File = (M1, "", "");

const CONVERTER_FORM: &str = "PART 1/1 35\nTTABC DEFQV SVOOL ADLIO WCCCC TTABC DEFQV\n";

/// Runs a call with a sink for each number of bytes up to the length of what the call writes.
///
/// Checks that each sink takes as many bytes as it has room for, and that the answer is `Device` if there are more.
fn is_written(rt: &impl Abort, alloc: Global, (call, machine, told, written): &Written) {
    let machine = changed(alloc, machine).ok().expect(rt, "memory");
    let told = changed(alloc, told).ok().expect(rt, "memory");
    let written = changed(alloc, written).ok().expect(rt, "memory");
    let (told, written) = (told.as_bytes(), written.as_bytes());
    for room in 0..=written.len() {
        let mut source = MemorySource::new(told, 7, None);
        let mut sink = MemorySink::new(room.min(512));
        let answer = run(
            alloc,
            *call,
            machine.as_bytes(),
            told,
            &mut source,
            &mut sink,
        );
        let due = if room == written.len() {
            Ok(())
        } else {
            Err(Device)
        };
        assert_eq!(rt; answer, due);
        assert!(rt;
            sink.taken() == written.get(..room).unwrap_or(b"?"),
            "{room}"
        );
    }
}

#[test]
fn calls_write_as_far_as_the_sink_takes(rt: HostRuntime) {
    for case in &WRITTEN {
        is_written(&rt, rt.alloc(), case);
    }
}

/// A call on `M1`, how what it reads begins, the byte that follows without an end, and the fault.
static ENDLESS: [(Call, &[u8], u8, DeskFault); 6] = [
    (Call::Type, b"", b' ', ReadTooLong),
    (Call::Send(17), b"", b' ', Message(BadByte(1))),
    (
        Call::Send(17),
        b"PART AAA AAA QX UGZ\nTEXT\n",
        b' ',
        ReadTooLong,
    ),
    (
        Call::Receive(17),
        b"PART 1/1 10 AAA BDZ\n",
        b' ',
        ReadTooLong,
    ),
    (Call::Receive(17), b"PART 1/1 10 AAA BDZ", b'A', ReadTooLong),
    (
        Call::Receive(17),
        b"PART 1/1 10 AAA BDZ\nQXUGZ BDZGO\n",
        b'\n',
        ReadTooLong,
    ),
];

#[test]
fn a_source_without_an_end_is_cut(rt: HostRuntime) {
    let machine = texts::M1.as_bytes();
    for (call, front, byte, fault) in &ENDLESS {
        let mut source = Endless::new(*front, *byte);
        let mut sink = MemorySink::new(512);
        let answer = run(rt.alloc(), *call, machine, b"", &mut source, &mut sink);
        assert_eq!(rt; answer, Err(*fault));
        assert!(rt; sink.taken().is_empty());
        assert!(rt; source.given() <= 1_048_577);
        assert!(rt; *fault != ReadTooLong || source.given() == 1_048_577);
    }
}
