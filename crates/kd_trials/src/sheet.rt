//! Tests of machine files that are written.
use crate::machines::machine;
use crate::named::TextName::{M1Written, M4, M209, TenCablesWritten};
use crate::named::{File, changed};
use kd_sheet::write_machine;
use kd_tables::{Device, MemorySink};
use std::alloc::Global;
use std::process::Abort;

/// Machine files that are written just as they are read.
static WRITTEN: [File; 9] = [
    (M1Written, "", ""),
    (M1Written, "rings = \"AAAAA\"", "rings = \"BBBAA\""),
    (M1Written, "\"AAAAA\"", "\"BAAAA\""),
    (M1Written, "[\"\", \"\",", "[\"AB\", \"CD\","),
    (M1Written, "[\"I\", \"II\"", "[\"\", \"I\""),
    (TenCablesWritten, "", ""),
    (M4, "", ""),
    (M209, "", ""),
    (M209, "\"1-2\", \"0L-0R\"", "\"3-0R\", \"0L-3\""),
];

/// Writes a machine to sinks with less room than the file needs, and to one with enough.
///
/// Each sink must take as much of the file as it has room for.
fn is_written(rt: &impl Abort, alloc: Global, file: &File) {
    let machine = machine(alloc, file).expect(rt, "a machine");
    let text = changed(alloc, file).ok().expect(rt, "memory");
    let text = text.as_bytes();
    for room in 0..=text.len() {
        let mut sink = MemorySink::<512>::new(room.min(512));
        let due = if room == text.len() {
            Ok(())
        } else {
            Err(Device)
        };
        assert!(rt; write_machine(&mut sink, &machine) == due, "{room}");
        assert!(rt; sink.taken() == text.get(..room).unwrap_or(&[]), "{room}");
    }
}

#[test]
fn machines_are_written_as_far_as_the_sink_takes(rt: HostRuntime) {
    for file in &WRITTEN {
        is_written(&rt, rt.alloc(), file);
    }
}
