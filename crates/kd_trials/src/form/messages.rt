//! Tests of short messages that are sent or received, at once and as streams; and of the same calls where memory runs
//! out.
use super::long_texts::{TWO_PARTS as LONG_TEXT, is_sent_and_received};
use super::samples::{
    CONVERTER_FORM, CONVERTER_ORDER, FORM, OF_1941, ORDER, TWO_PARTS, Way, is_streamed, make,
};
use crate::machines::{IDLE, Keyed, PLAIN, Told, keyed};
use crate::named::TextName::{
    AllMet, DayOf1941, DayOfAllMet, DayOfM4, Empty, M1, M4AsEnigma, Message, PlainDay, TenCables,
};
use crate::named::{File, changed};
use kd_form::FormFault::{
    self, BadByte, BadHeading, CountWrong, EmptyText, IndicatorSpent, IndicatorsDiffer,
    KeyNotOnWheel, NoMemory, NotOnKey, PartKeys, PartOrder, WrongGroup,
};
use std::alloc::Global;
use std::process::Abort;

/// The direction of a message, the message, how its form or text begins and how long this is, or its fault, and what
/// the stream writes before the fault.
type Case = (
    Way,
    File,
    Result<(&'static str, usize), FormFault>,
    &'static str,
);

/// Machines with their days, each with messages. The first three are also tried where memory runs out.
static MACHINES: [(Told, &[Case]); 8] = [
    (
        PLAIN,
        &[
            (Way::Sent, (Empty, "", ORDER), Ok((FORM, 32)), ""),
            (
                Way::Sent,
                (Empty, "", "PART AAA AAA QX UGZ\nTEXT\nAAAAAa"),
                Err(BadByte(31)),
                "",
            ),
            (
                Way::Sent,
                (
                    Empty,
                    "",
                    "PART AAA AAA QX UGZ\nPART AAA AAA QX UGZ\nTEXT\nA",
                ),
                Err(PartKeys {
                    needed: 1,
                    given: 2,
                }),
                "",
            ),
            (Way::Sent, (Empty, "", ""), Err(BadByte(1)), ""),
            (
                Way::Sent,
                (Empty, "", "PART AAA AAA QX UGZ\nTEXT\n"),
                Err(EmptyText),
                "",
            ),
            (
                Way::Sent,
                (Empty, "", "TEXT\nA"),
                Err(PartKeys {
                    needed: 1,
                    given: 0,
                }),
                "",
            ),
            (Way::Received, (Empty, "", FORM), Ok(("AAAAA\n", 6)), ""),
            (
                Way::Received,
                (Empty, "", TWO_PARTS),
                Ok(("AAAAAAAAAA\n", 11)),
                "",
            ),
            (Way::Received, (Empty, "", ""), Err(BadHeading(1)), ""),
            (
                Way::Received,
                (Empty, "", "PART 1/2 10 AAA BDZ\nQXUGZ BDZGO\n"),
                Err(PartOrder),
                "AAAAA",
            ),
            (
                Way::Received,
                (
                    Empty,
                    "",
                    "PART 2/2 10 AAA BDZ\nQXUGZ BDZGO\nPART 1/2 10 AAA BDZ\nQXUGZ BDZGO\n",
                ),
                Err(PartOrder),
                "",
            ),
            (
                Way::Received,
                (
                    Empty,
                    "",
                    "PART 1/2 10 AAA BDZ\nQXUGZ BDZGO\nPART 2/2 10 AAA BDZ\nQXUGZ BDZG",
                ),
                Err(CountWrong(2)),
                "AAAAA",
            ),
        ],
    ),
    (
        IDLE,
        &[
            (
                Way::Sent,
                (Empty, "", CONVERTER_ORDER),
                Ok((CONVERTER_FORM, 54)),
                "",
            ),
            (
                Way::Received,
                (Empty, "", CONVERTER_FORM),
                Ok(("HELLO WORLDXXXX\n", 16)),
                "",
            ),
            (
                Way::Sent,
                (Empty, "", "PART A ABCDEF\nTEXT\nHELLO WORLD"),
                Err(IndicatorSpent(1)),
                "",
            ),
            (
                Way::Sent,
                (Empty, "", "PART T ABCDEZ\nTEXT\nHELLO WORLD"),
                Err(KeyNotOnWheel),
                "",
            ),
        ],
    ),
    (
        OF_1941,
        &[
            (
                Way::Received,
                (Message, "", ""),
                Ok(("AUFKLXABTEILUNG", 175)),
                "",
            ),
            // Without its last LF.
            (
                Way::Received,
                (Message, "K\n", "K"),
                Ok(("AUFKLXABTEILUNG", 175)),
                "",
            ),
            (
                Way::Received,
                (Message, "179", "178"),
                Err(CountWrong(1)),
                "",
            ),
            (
                Way::Received,
                (Message, "179", "180"),
                Err(CountWrong(1)),
                "",
            ),
            // Cut in the heading, and in the body.
            (
                Way::Received,
                (Empty, "", "PART 1/1 179 WXC KC"),
                Err(BadHeading(1)),
                "",
            ),
            (
                Way::Received,
                (Empty, "", "PART 1/1 179 WXC KCH"),
                Err(CountWrong(1)),
                "",
            ),
            (
                Way::Received,
                (Message, "VHJK\n", "VHJ"),
                Err(CountWrong(1)),
                "",
            ),
        ],
    ),
    // A day with another group.
    (
        ((TenCables, "", ""), (DayOf1941, "UGZ", "ABC")),
        &[(Way::Received, (Message, "", ""), Err(WrongGroup(1)), "")],
    ),
    // An Enigma with other letters in its windows; and with another ring, which is off the key.
    (
        (
            (M1, "letters = \"AAAAA\"", "letters = \"QRSAA\""),
            (PlainDay, "", ""),
        ),
        &[(Way::Sent, (Empty, "", ORDER), Ok((FORM, 32)), "")],
    ),
    (
        (
            (M1, "rings = \"AAAAA\"", "rings = \"BAAAA\""),
            (PlainDay, "", ""),
        ),
        &[
            (Way::Sent, (Empty, "", ORDER), Err(NotOnKey), ""),
            (Way::Received, (Empty, "", FORM), Err(NotOnKey), ""),
        ],
    ),
    // A Converter on which one pin moves all bars.
    (
        ((AllMet, "", ""), (DayOfAllMet, "", "")),
        &[
            (
                Way::Sent,
                (Empty, "", "PART J VAAAAA\nTEXT\nAAAAA"),
                Ok((PIN_FORM, 42)),
                "",
            ),
            (Way::Received, (Empty, "", PIN_FORM), Ok(("AAAAA\n", 6)), ""),
            (
                Way::Received,
                (Empty, "", "PART 1/1 25\nJJVAA AAAQV ZZZZZ JJVAA AAAQW\n"),
                Err(IndicatorsDiffer(1)),
                "",
            ),
            (
                Way::Received,
                (Empty, "", "PART 1/1 25\nJJVAA AAAQW ZZZZZ JJVAA AAAQW\n"),
                Err(WrongGroup(1)),
                "",
            ),
        ],
    ),
    // An M4 that acts as `M1`.
    (
        ((M4AsEnigma, "", ""), (DayOfM4, "", "")),
        &[
            (
                Way::Sent,
                (Empty, "", "PART AAAA AAAA QX UGZ\nTEXT\nAAAAA"),
                Ok(("PART 1/1 10 AAAA BDZG\nQXUGZ BDZGO\n", 34)),
                "",
            ),
            (
                Way::Received,
                (Empty, "", "PART 1/1 10 AAAA BDZG\nQXUGZ BDZGO\n"),
                Ok(("AAAAA\n", 6)),
                "",
            ),
        ],
    ),
];

/// The most bytes that a source gives at once: messages are streamed with each of these numbers.
static PIECES: [usize; 3] = [1, 2, 7];

/// The form for the Converter on which one pin moves all bars.
const PIN_FORM: &str = "PART 1/1 25\nJJVAA AAAQV ZZZZZ JJVAA AAAQV\n";

/// Checks what a message gives at once, and that streams give the same.
///
/// If memory runs out, the fault is `NoMemory`.
fn is_made(
    rt: &impl Abort,
    alloc: Global,
    keyed: &Keyed,
    (way, message, due, before): &Case,
) -> Result<(), FormFault> {
    let message = changed(alloc, message).ok().ok_or(NoMemory)?;
    let made = make(alloc, keyed, way, message.as_bytes());
    let (fault, written) = match &made {
        Ok(made) => (None, made.as_slice()),
        Err(NoMemory) => return Err(NoMemory),
        Err(fault) => (Some(*fault), before.as_bytes()),
    };
    assert_eq!(rt; fault, due.err());
    if let Ok((start, length)) = due {
        assert!(rt; written.starts_with(start.as_bytes()), "{start}");
        assert!(rt;
            written.len() == *length && written.last() == Some(&b'\n'),
            "{start}"
        );
    }
    let pieces = (PIECES.as_slice(), None);
    is_streamed(rt, keyed, way, message.as_bytes(), pieces, fault, written);
    Ok(())
}

/// Checks the messages of a machine.
fn are_made(
    rt: &impl Abort,
    alloc: Global,
    (told, messages): &(Told, &[Case]),
) -> Result<(), FormFault> {
    let keyed = keyed(alloc, told).ok_or(NoMemory)?;
    for message in *messages {
        is_made(rt, alloc, &keyed, message)?;
    }
    Ok(())
}

#[test]
fn messages_are_made_at_once_and_as_streams(rt: HostRuntime) {
    for case in &MACHINES {
        assert!(rt; are_made(&rt, rt.alloc(), case).is_ok());
    }
}

/// Checks messages where memory may run out. Only this test accepts the fault `NoMemory`.
///
/// `tests/refusals` runs the tests whose names end in `want_memory`, with each request for memory refused in turn.
#[test]
fn orders_and_forms_want_memory(rt: HostRuntime) {
    for case in &MACHINES[..3] {
        let answer = are_made(&rt, rt.alloc(), case);
        assert!(rt; answer.is_ok() || answer == Err(NoMemory));
    }
    let answer = is_sent_and_received(&rt, rt.alloc(), &LONG_TEXT);
    assert!(rt; answer.is_ok() || answer == Err(NoMemory));
}
