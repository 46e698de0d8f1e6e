//! Sample machines with their days, messages, and the calls for both directions of a message.
use crate::machines::{Keyed, Told};
use crate::named::TextName::{DayOf1941, TenCables};
use crate::named::{File, changed};
use kd_form::{FormFault, receive, receive_stream, send, send_stream};
use kd_tables::{MemorySink, MemorySource};
use std::alloc::{AllocError, Global};
use std::process::Abort;

/// The direction of a message.
pub enum Way {
    Sent,
    Received,
}

/// The machine with ten cables, on the day of a message of 1941.
pub const OF_1941: Told = ((TenCables, "", ""), (DayOf1941, "", ""));

/// A form of two parts, each with the text AAAAA.
pub const TWO_PARTS: &str = "PART 1/2 10 AAA BDZ\nQXUGZ BDZGO\nPART 2/2 10 AAA BDZ\nQXUGZ BDZGO\n";

/// An order for `M1`, and its form.
pub const ORDER: &str = "PART AAA AAA QX UGZ\nTEXT\nAAAAA";

pub const FORM: &str = "PART 1/1 10 AAA BDZ\nQXUGZ BDZGO\n";

/// An order for a Converter without effective pins, and its form.
pub const CONVERTER_ORDER: &str = "PART T ABCDEF\nTEXT\nHELLO WORLD";

pub const CONVERTER_FORM: &str = "PART 1/1 35\nTTABC DEFQV SVOOL ADLIO WCCCC TTABC DEFQV\n";

/// A line of keys for `M1`, and one for a Converter without effective pins.
pub const KEYS: &str = "PART AAA AAA QX UGZ\n";

pub const PIN_KEYS: &str = "PART T ABCDEF\n";

/// A message: a line of keys, and how often it comes; then a text, and a number of letters A.
pub type Message = (&'static str, usize, File, usize);

/// The text of a message.
pub fn text_of(
    alloc: Global,
    (keys, lines, text, letters): &Message,
) -> Result<String, AllocError> {
    let mut message = keys.repeat(alloc, *lines)?;
    message.push_str(changed(alloc, text)?.as_str())?;
    message.push_str("A".repeat(alloc, *letters)?.as_str())?;
    Ok(message)
}

/// Sends an order at once, or receives a form.
pub fn make(
    alloc: Global,
    (machine, day): &Keyed,
    way: &Way,
    message: &[u8],
) -> Result<Vec<u8>, FormFault> {
    match way {
        Way::Sent => send(alloc, machine, day, message),
        Way::Received => receive(alloc, machine, day, message),
    }
}

/// Sends or receives `message` as a stream, and checks the fault, if there is one, and the bytes that are written.
///
/// The source gives at most as many bytes at once as `pieces` says, one number after another. If it has a number of
/// `gets`, the next one fails.
pub fn is_streamed(
    rt: &impl Abort,
    (machine, day): &Keyed,
    way: &Way,
    message: &[u8],
    (pieces, gets): (&[usize], Option<usize>),
    fault: Option<FormFault>,
    written: &[u8],
) {
    for piece in pieces {
        let mut source = MemorySource::new(message, (*piece).max(1), gets);
        let mut sink = MemorySink::<65_536>::new(65_536);
        let answer = match way {
            Way::Sent => send_stream(machine, day, &mut source, &mut sink),
            Way::Received => receive_stream(machine, day, &mut source, &mut sink),
        };
        assert_eq!(rt; answer.err(), fault);
        assert!(rt; sink.taken() == written);
    }
}
