//! Tests of texts that fill whole parts, up to all 99 parts.
use super::samples::{KEYS, PIN_KEYS, Way, is_streamed, make, text_of};
use crate::machines::{IDLE, PLAIN, Told, keyed};
use crate::named::TextName::Empty;
use kd_form::FormFault::{self, NoMemory};
use std::alloc::Global;
use std::process::Abort;

/// A text of letters A that is sent and received back.
///
/// `told` are the machine and its day, `keys` is the line of keys for each part, and `pieces` are the numbers
/// of bytes that a source gives at once. `first` is how the form begins, and `length` its length; `last` and
/// `last_length` are the same for the last part. `behind` is what follows the letters A in the received text.
pub struct Case {
    told: Told,
    keys: &'static str,
    parts: usize,
    letters: usize,
    pieces: &'static [usize],
    first: &'static [u8],
    last: &'static [u8],
    last_length: usize,
    length: usize,
    behind: &'static str,
}

/// The body of 250 letters has five lines of 60 bytes. The body of 520 letters has ten such lines, and one of 24 bytes.
static CASES: [Case; 5] = [
    Case {
        told: PLAIN,
        keys: KEYS,
        parts: 1,
        letters: 245,
        pieces: &[7],
        first: b"PART 1/1 250 AAA BDZ\nQXUGZ BDZGO ",
        last: b"PART 1/1 250 AAA BDZ\nQXUGZ BDZGO ",
        last_length: 321,
        length: 321,
        behind: "\n",
    },
    Case {
        told: PLAIN,
        keys: KEYS,
        parts: 99,
        letters: 24_255,
        pieces: &[4_096],
        first: b"PART 1/99 250 AAA BDZ\nQXUGZ BDZGO ",
        last: b"PART 99/99 250 AAA BDZ\nQXUGZ BDZGO ",
        last_length: 323,
        length: 31_968,
        behind: "\n",
    },
    Case {
        told: IDLE,
        keys: PIN_KEYS,
        parts: 1,
        letters: 500,
        pieces: &[7],
        first: b"PART 1/1 520\nTTABC DEFQV ZZZZZ ",
        last: b"PART 1/1 520\nTTABC DEFQV ZZZZZ ",
        last_length: 637,
        length: 637,
        behind: "\n",
    },
    Case {
        told: IDLE,
        keys: PIN_KEYS,
        parts: 2,
        letters: 501,
        pieces: &[1, 2, 7],
        first: b"PART 1/2 520\nTTABC DEFQV ZZZZZ ",
        last: b"PART 2/2 25\nTTABC DEFQV ZCCCC TTABC DEFQV\n",
        last_length: 42,
        length: 679,
        behind: "XXXX\n",
    },
    Case {
        told: IDLE,
        keys: PIN_KEYS,
        parts: 99,
        letters: 49_500,
        pieces: &[4_096],
        first: b"PART 1/99 520\nTTABC DEFQV ZZZZZ ",
        last: b"PART 99/99 520\nTTABC DEFQV ZZZZZ ",
        last_length: 639,
        length: 63_252,
        behind: "\n",
    },
];

/// A text that needs two parts: 246 letters.
pub static TWO_PARTS: Case = Case {
    told: PLAIN,
    keys: KEYS,
    parts: 2,
    letters: 246,
    pieces: &[1, 2, 7],
    first: b"PART 1/2 250 AAA BDZ\nQXUGZ BDZGO ",
    last: b"PART 2/2 6 AAA BDZ\nQXUGZ B\n",
    last_length: 27,
    length: 348,
    behind: "\n",
};

/// Sends the text and receives it back, whole and as a stream, and checks the form and the received text.
///
/// If memory runs out, the fault is `NoMemory`.
pub fn is_sent_and_received(rt: &impl Abort, alloc: Global, case: &Case) -> Result<(), FormFault> {
    let keyed = keyed(alloc, &case.told).ok_or(NoMemory)?;
    let order = (case.keys, case.parts, (Empty, "", "TEXT\n"), case.letters);
    let order = text_of(alloc, &order).ok().ok_or(NoMemory)?;
    let due = ("A", case.letters, (Empty, "", case.behind), 0);
    let due = text_of(alloc, &due).ok().ok_or(NoMemory)?;
    let form = make(alloc, &keyed, &Way::Sent, order.as_bytes())?;
    let text = make(alloc, &keyed, &Way::Received, form.as_slice())?;
    let last = form.len().saturating_sub(case.last_length);
    assert_eq!(rt; form.len(), case.length);
    assert!(rt; form.starts_with(case.first));
    assert!(rt; form.get(last..).unwrap_or(&[]).starts_with(case.last));
    assert!(rt; text.as_slice() == due.as_bytes());
    let (order, form, text) = (order.as_bytes(), form.as_slice(), text.as_slice());
    let pieces = (case.pieces, None);
    is_streamed(rt, &keyed, &Way::Sent, order, pieces, None, form);
    is_streamed(rt, &keyed, &Way::Received, form, pieces, None, text);
    Ok(())
}

#[test]
fn long_texts_are_sent_and_received(rt: HostRuntime) {
    assert!(rt; is_sent_and_received(&rt, rt.alloc(), &TWO_PARTS).is_ok());
    for case in &CASES {
        assert!(rt; is_sent_and_received(&rt, rt.alloc(), case).is_ok());
    }
}
