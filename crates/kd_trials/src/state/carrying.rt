//! Tests of single settings, carried out and refused.
use crate::machines::machine;
use crate::named::TextName::{M1, M1Written, M4, M209};
use crate::named::{File, changed};
use kd_sheet::write_machine;
use kd_state::Why::{
    NoLooseEnd, NoSuchBar, NoSuchCable, NotOnWheel, NotThere, OtherModel, PlaceTaken, SlotEmpty,
    SocketTaken, WheelNotAllowed, WouldPass,
};
use kd_state::{Setting, Why};
use kd_tables::MemorySink;
use std::alloc::Global;
use std::process::Abort;

/// A machine; settings that are carried out one after another, each with the reason if it is refused; and the machine
/// after them.
type Case = (File, &'static [(&'static str, Option<Why>)], File);

/// A setting that is refused changes nothing. If there are two reasons to refuse it, the error has the one that is
/// tested first.
static CASES: [Case; 4] = [
    (
        (M1, "version = 1", "version = 1\ncables = [\"AB\"]"),
        &[
            ("PUT 3 B", Some(SocketTaken)),
            ("PUT 1 C", Some(NoLooseEnd)),
            ("PUT 14 C", Some(NoSuchCable)),
            ("PULL 1 C", Some(NotThere)),
            ("PULL 0 A", Some(NoSuchCable)),
            ("PULL 1 A", None),
            ("PUT 1 A", None),
            ("PUT 1 A", Some(NoLooseEnd)),
            ("PUT 14 A", Some(NoSuchCable)),
            ("PULL 14 A", Some(NoSuchCable)),
            ("PIN 7 A ON", Some(OtherModel)),
            ("LUG 28 L 1", Some(OtherModel)),
        ],
        (M1Written, "[\"\", ", "[\"AB\", "),
    ),
    (
        (M1, "", ""),
        &[
            ("SEAT 1 VI", Some(WheelNotAllowed)),
            ("SEAT 4 I", Some(WheelNotAllowed)),
            ("SEAT 1 I", None),
            ("TURN 1 A", None),
            ("SEAT 1 II", None),
            ("TURN 2 A", Some(SlotEmpty)),
            ("TURN 0 A", Some(SlotEmpty)),
            ("TURN 4 B", Some(SlotEmpty)),
            ("SEAT 2 I", None),
            ("REFLECTOR b", Some(WheelNotAllowed)),
            ("REFLECTOR C", None),
            ("RING VI A", Some(WheelNotAllowed)),
            ("RING V C", None),
        ],
        (
            M1Written,
            "\"B\"\nslots = [\"I\", \"II\", \"III\"]\nrings = \"AAAAA\"",
            "\"C\"\nslots = [\"II\", \"I\", \"III\"]\nrings = \"AAAAC\"",
        ),
    ),
    (
        (M4, "", ""),
        &[
            ("SEAT 2 Beta", Some(WheelNotAllowed)),
            ("SEAT 1 I", Some(WheelNotAllowed)),
            ("SEAT 1 Gamma", None),
        ],
        (M4, "\"Beta\"", "\"Gamma\""),
    ),
    (
        (M209, "\"1-2\"", "\"1-3\""),
        &[
            ("PUT 1 A", Some(OtherModel)),
            ("PULL 14 A", Some(OtherModel)),
            ("SEAT 7 I", Some(OtherModel)),
            ("REFLECTOR B", Some(OtherModel)),
            ("RING I A", Some(OtherModel)),
            ("TURN 7 A", Some(SlotEmpty)),
            ("TURN 6 R", Some(NotOnWheel)),
            ("TURN 6 Q", None),
            ("PIN 2 W ON", Some(NotOnWheel)),
            ("PIN 7 A ON", Some(NotOnWheel)),
            ("PIN 2 Z ON", None),
            ("LUG 28 L 1", Some(NoSuchBar)),
            ("LUG 1 L 3", Some(PlaceTaken)),
            ("LUG 1 L 4", Some(WouldPass)),
            ("LUG 1 R 6", None),
            ("LUG 1 L 3", None),
        ],
        (
            M209,
            "AAAAAA\"\npins = [\"P\", \"O\", \"\", \"\", \"\", \"\"]\nbars = [\"1-2\"",
            "AAAAAQ\"\npins = [\"P\", \"OZ\", \"\", \"\", \"\", \"\"]\nbars = [\"3-6\"",
        ),
    ),
];

/// Carries out the settings, and checks why each is refused, if it is, and the machine after them, as it is written.
fn are_carried_out(rt: &impl Abort, alloc: Global, (file, settings, after): &Case) {
    let mut machine = machine(alloc, file).expect(rt, "a machine");
    for (line, due) in *settings {
        let setting = Setting::from_line(line.as_bytes()).expect(rt, "a setting");
        match machine.carry(setting) {
            Ok(()) => assert!(rt; due.is_none(), "{line}"),
            Err(illegal) => assert!(rt; Some(illegal.why) == *due, "{line}"),
        }
    }
    let mut sink = MemorySink::<512>::new(512);
    assert!(rt; write_machine(&mut sink, &machine).is_ok());
    let after = changed(alloc, after).ok().expect(rt, "memory");
    assert_eq!(rt; sink.taken(), after.as_bytes());
}

#[test]
fn settings_are_carried_out_or_change_nothing(rt: HostRuntime) {
    for case in &CASES {
        are_carried_out(&rt, rt.alloc(), case);
    }
}
