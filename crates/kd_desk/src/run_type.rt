//! The command `type`: types a text on a machine.
ghost use Rattle.std.specs.Prelude.{◌≡◌, ◌⊎◌, IfOk, IfErr, IsTrue};
ghost use Rattle.kd_desk.specs.declared.fault.DeskFault.TheVariants as faults;
ghost use Rattle.kd_sheet.specs.MachineFile.{machine_of};
ghost use Rattle.kd_tables.specs.Ports.{FailureAgrees, port};
ghost use Rattle.kd_desk.specs.Messages.{TypesText};
ghost use Rattle.kd_desk.specs.CallAnswers.{LacksMemory, AnswersFault, is_device, is_refused_before_message};

use crate::fault::DeskFault;
use kd_form::type_stream;
use kd_sheet::read_machine;
use kd_tables::{Sink, Source};
use std::alloc::Global;

/// Types the text from `source` on the machine in the file `machine`, and writes the ciphertext, then LF.
///
/// The text has capital letters; spaces, CR and LF between them are skipped. The ciphertext is written in capital
/// letters. The faults of the machine file are tested first, then `NotReady`. At these faults, no text is read, and
/// nothing is written. Then the text is read. The text is refused at the first byte that isn't allowed, or if it has
/// more than 1,048,576 bytes. If the text is refused, or a read fails, the letters before this point are still written
/// as ciphertext, without LF. If a write fails, only a prefix of the ciphertext is written.
pub fn run_type<R: Source, W: Sink>(
    alloc: Global,
    machine: &[u8],
    source: &mut R,
    sink: &mut W,
) -> Result<(), DeskFault>
    ensures refused { IfErr (machine_of machine.now)
        (λ fault. AnswersFault result (faults.File fault)) }
    ensures typed { IfOk (machine_of machine.now) (λ m. TypesText m
        (port R.remaining R.has_failed source.old source.new)
        (port W.taken W.has_failed sink.old sink.new) result ⊎ LacksMemory result) }
    ensures untouched { IsTrue (is_refused_before_message result)
        → (source.new ≡ source.old) × (sink.new ≡ sink.old) }
    ensures failed { FailureAgrees (port R.remaining R.has_failed source.old source.new)
        (port W.taken W.has_failed sink.old sink.new) (is_device result) }
{
    let machine = read_machine(alloc, machine)?;
    type_stream(&machine, source, sink).map_err(DeskFault::from)
}
