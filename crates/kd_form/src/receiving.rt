//! Receives a form: `receive` returns the form's text, and `receive_stream` writes this text to a sink.
//!
//! A form is an enciphered message. Each of its parts has a heading line, and a body of letters in groups of five.
ghost use Rattle.std.specs.Prelude.{◌≡◌, ℕ, List, IsTrue};
ghost use Rattle.kd_tables.specs.Ports.{FailureAgrees, port};
ghost use Rattle.kd_form.specs.FormText.{form_message, IsTextOf, IsReceiveFault};
ghost use Rattle.kd_form.specs.OnTheKey.{IsAnswerOnKey};
ghost use Rattle.kd_form.specs.Streams.{StreamsOnKey, is_device, is_off_key};

mod body_cipher;
mod body_reader;
pub(crate) mod form_reader;
pub mod heading_reader;
mod plaintext;

use super::fault::FormFault;
use super::machine_check::check_machine;
use super::stream::reader::MessageReader;
use super::stream::stream_message;
use super::stream::whole_message::message_result;
use form_reader::FormReader;
use kd_state::{Machine, SheetDay};
use kd_tables::{Sink, Source};
use std::alloc::Global;

/// Deciphers `form` on `machine`, which must be on the day's key. The text ends in LF.
///
/// On the Converter M-209, the text has a space in place of each Z. `NotReady` and `NotOnKey` are tested first, then
/// the parts of the form, one after another. For each part, `BadHeading`, `PartOrder`, `BadByte` and `CountWrong` are
/// tested in this order. Then come the indicators, the external letters, the group (or the list letters) and the
/// internal key. If parts are missing at the end of the form, the fault is `PartOrder`. `NoMemory` comes only if the
/// form has no fault.
pub fn receive(
    alloc: Global,
    machine: &Machine,
    day: &SheetDay,
    form: &[u8],
) -> Result<Vec<u8>, FormFault>
    ensures { IsAnswerOnKey machine.now day.now
        (λ text. IsTextOf day.now form.now text.items)
        (IsReceiveFault day.now form.now) ((text : List ℕ) × IsTextOf day.now form.now text) result }
{
    check_machine(machine, day)?;
    message_result::<FormReader>(alloc, day, form)
}

/// Reads a form from `source`, and writes the form's text to `sink`, part by part.
///
/// At most one part is held in memory, and nothing is allocated. `NotReady` and `NotOnKey` are returned before anything
/// is read. A fault that further bytes can't change is returned at once, before the rest of the source is read. Other
/// faults are found at the form's end. If the form has a fault, `sink` gets the texts of the parts before this fault.
/// `ReadTooLong` means that the source has more than `READ_LIMIT` bytes. `Device` means that a read from `source` or a
/// write to `sink` failed.
pub fn receive_stream<R: Source, W: Sink>(
    machine: &Machine,
    day: &SheetDay,
    source: &mut R,
    sink: &mut W,
) -> Result<(), FormFault>
    ensures streamed { StreamsOnKey machine.now day.now (form_message day.now)
        (port R.remaining R.has_failed source.old source.new)
        (port W.taken W.has_failed sink.old sink.new) result }
    ensures untouched { IsTrue (is_off_key result)
        → (source.new ≡ source.old) × (sink.new ≡ sink.old) }
    ensures failed { FailureAgrees (port R.remaining R.has_failed source.old source.new)
        (port W.taken W.has_failed sink.old sink.new) (is_device result) }
{
    check_machine(machine, day)?;
    stream_message(day, &mut FormReader::start(day), source, sink)
}
