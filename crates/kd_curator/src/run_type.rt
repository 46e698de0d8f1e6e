//! The command `type`: writes an HTML page for typing on a machine.
ghost use Rattle.std.specs.Prelude.{◌≡◌, ◌||◌, false, IsErr};
ghost use Rattle.kd_tables.specs.Ports.{port};
ghost use Rattle.kd_curator.specs.MachineAndSheet.{IsAnswerOn, machine_in};
ghost use Rattle.kd_curator.specs.Refusals.{is_device};
ghost use Rattle.kd_curator.specs.RunType.{WritesTypingPage, answer_after};

use crate::fault::{PageFault, Refused};
use crate::machine_and_sheet::read_one;
use kd_form::FormFault;
use kd_language::Language;
use kd_state::{Machine, NotReady};
use kd_tables::Sink;
use kd_typing_page::draw_typing_page;
use std::alloc::Global;

/// Writes the page for typing on the machine in the file `machine`, in `language`. Typing on the page's table gives the
/// machine's ciphertext.
///
/// Faults are tested in this order: faults of the machine file, `NotReady`. For these faults, nothing is written. For
/// `Device`, only a prefix of the page is written.
pub fn run_type<W: Sink>(
    alloc: Global,
    language: Language,
    machine: &[u8],
    sink: &mut W,
) -> Result<(), Refused>
    ensures page { IsAnswerOn (machine_in machine.now)
        (λ m. WritesTypingPage language m (port W.taken W.has_failed sink.old sink.new) result) result }
    ensures untouched { IsErr result → is_device result ≡ false → sink.new ≡ sink.old }
    ensures failed { W.has_failed sink.new ≡ (W.has_failed sink.old || is_device result) }
{
    let machine = read_one(alloc, machine)?;
    write_typing_page(language, &machine, sink)
}

/// Like `run_type`, but with a machine in place of a file. Allocates no memory.
pub fn write_typing_page<W: Sink>(
    language: Language,
    machine: &Machine,
    sink: &mut W,
) -> Result<(), Refused>
    ensures page { WritesTypingPage language machine.now
        (port W.taken W.has_failed sink.old sink.new) result }
    ensures untouched { IsErr result → is_device result ≡ false → sink.new ≡ sink.old }
    ensures failed { W.has_failed sink.new ≡ (W.has_failed sink.old || is_device result) }
{
    match draw_typing_page(sink, language, machine) {
        Ok(()) => answer_after(sink.failed()),
        Err(NotReady) => Err(Refused::of_message(FormFault::NotReady)),
    }
}

/// The answer after the program wrote a page: the refusal `Device` if the sink `failed`, and otherwise `Ok`.
fn answer_after(failed: bool) -> Result<(), Refused>
    ensures { result ≡ answer_after failed }
{
    if failed {
        Err(Refused::from(PageFault::Device))
    } else {
        Ok(())
    }
}
