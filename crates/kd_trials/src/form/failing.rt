//! Tests of streams whose source fails.
use super::samples::{
    CONVERTER_FORM, CONVERTER_ORDER, FORM, KEYS, Message, OF_1941, ORDER, PIN_KEYS, TWO_PARTS, Way,
    is_streamed, make, text_of,
};
use crate::machines::{IDLE, PLAIN, Told, keyed};
use crate::named::TextName::{self, Empty};
use kd_form::FormFault;
use std::alloc::Global;
use std::process::Abort;

/// A machine with its day, a message, the most bytes that a source gives at once, and when bytes are written.
///
/// `steps` has how many bytes are written once a number of bytes is read, for each number at which a part is complete.
struct Case {
    told: Told,
    way: Way,
    message: Message,
    pieces: &'static [usize],
    steps: &'static [(usize, usize)],
}

/// Of an order, a part is complete at the first letter of the next part. The lines of keys and `TEXT` have 45, 65 and
/// 33 bytes.
///
/// Of the form of two parts, the first is complete at the digit of the second heading. The messages without steps have
/// one part.
static CASES: [Case; 9] = [
    Case {
        told: PLAIN,
        way: Way::Sent,
        message: (KEYS, 2, (Empty, "", "TEXT\n"), 246),
        pieces: &[7],
        steps: &[(291, 321)],
    },
    Case {
        told: PLAIN,
        way: Way::Sent,
        message: (KEYS, 3, (Empty, "", "TEXT\n"), 500),
        pieces: &[7],
        steps: &[(311, 321), (556, 642)],
    },
    Case {
        told: IDLE,
        way: Way::Sent,
        message: (PIN_KEYS, 2, (Empty, "", "TEXT\n"), 501),
        pieces: &[7],
        steps: &[(534, 637)],
    },
    Case {
        told: OF_1941,
        way: Way::Received,
        message: ("", 0, (TextName::Message, "", ""), 0),
        pieces: &[7],
        steps: &[],
    },
    Case {
        told: PLAIN,
        way: Way::Received,
        message: ("", 0, (Empty, "", TWO_PARTS), 0),
        pieces: &[1, 2, 7],
        steps: &[(38, 5)],
    },
    Case {
        told: IDLE,
        way: Way::Sent,
        message: ("", 0, (Empty, "", CONVERTER_ORDER), 0),
        pieces: &[1, 2, 7],
        steps: &[],
    },
    Case {
        told: IDLE,
        way: Way::Received,
        message: ("", 0, (Empty, "", CONVERTER_FORM), 0),
        pieces: &[1, 2, 7],
        steps: &[],
    },
    Case {
        told: PLAIN,
        way: Way::Sent,
        message: ("", 0, (Empty, "", ORDER), 0),
        pieces: &[1, 2, 7],
        steps: &[],
    },
    Case {
        told: PLAIN,
        way: Way::Received,
        message: ("", 0, (Empty, "", FORM), 0),
        pieces: &[1, 2, 7],
        steps: &[],
    },
];

/// How many bytes are written once `read` bytes are read.
fn written_after(read: usize, steps: &[(usize, usize)]) -> usize {
    let mut written = 0;
    for (bytes, due) in steps {
        if *bytes <= read {
            written = *due;
        }
    }
    written
}

/// Lets each `get` of a message's source fail in turn, also the last one, which would tell the end.
///
/// Checks that the answer is `Device`, and that exactly those bytes of the form or the text are written which the steps
/// say.
fn each_get_fails(rt: &impl Abort, alloc: Global, case: &Case) {
    let keyed = keyed(alloc, &case.told).expect(rt, "a machine and its day");
    let message = text_of(alloc, &case.message).ok().expect(rt, "memory");
    let message = message.as_bytes();
    let whole = make(alloc, &keyed, &case.way, message).ok();
    let whole = whole.expect(rt, "a form or a text");
    for piece in case.pieces {
        let piece = (*piece).max(1);
        for gets in 0..=message.len().div_ceil(piece) {
            let read = gets.saturating_mul(piece).min(message.len());
            let written = whole.get(..written_after(read, case.steps));
            is_streamed(
                rt,
                &keyed,
                &case.way,
                message,
                (&[piece], Some(gets)),
                Some(FormFault::Device),
                written.unwrap_or(b"?"),
            );
        }
    }
}

#[test]
fn streams_stop_where_a_get_fails(rt: HostRuntime) {
    for case in &CASES {
        each_get_fails(&rt, rt.alloc(), case);
    }
}
