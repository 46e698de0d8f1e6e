//! The command `apply`: carries out settings on a machine, and writes the new machine file.
ghost use Rattle.std.specs.Prelude.{◌≡◌, ◌≢◌, ◌⊎◌, ◌||◌, Err, IfOk, IfErr, IsErr};
ghost use Rattle.kd_sheet.specs.MachineFile.{machine_of};
ghost use Rattle.kd_desk.specs.declared.fault.DeskFault.TheVariants.{File, Device};
ghost use Rattle.kd_tables.specs.Ports.{port};
ghost use Rattle.kd_desk.specs.RunApply.{Applies};
ghost use Rattle.kd_desk.specs.CallAnswers.{LacksMemory, AnswersFault, is_device};

use crate::fault::DeskFault;
use crate::list_or_card::read_settings;
use kd_sheet::{read_machine, write_machine};
use kd_state::{Machine, carry_all};
use kd_tables::Sink;
use std::alloc::Global;

/// Carries out the settings of `list` on the machine in the file `machine`, and writes the new machine file.
///
/// `list` is a list of settings or a card; a card may be for any day, and have any prices. Faults are tested in this
/// order: faults of the machine file, faults of `list`, and then refused lines. For all of these faults, nothing is
/// written. For `Device`, only a prefix of the new file is written.
pub fn run_apply<W: Sink>(
    alloc: Global,
    machine: &[u8],
    list: &[u8],
    sink: &mut W,
) -> Result<(), DeskFault>
    ensures refused { IfErr (machine_of machine.now) (λ fault. AnswersFault result (File fault)) }
    ensures applied { IfOk (machine_of machine.now) (λ m.
        Applies m list.now (port W.taken W.has_failed sink.old sink.new) result ⊎ LacksMemory result) }
    ensures untouched { IsErr result → result ≢ Err Device → sink.new ≡ sink.old }
    ensures failed { W.has_failed sink.new ≡ (W.has_failed sink.old || is_device result) }
{
    let machine = read_machine(alloc, machine)?;
    apply(&machine, list, sink)
}

/// Does what `run_apply` does, for a machine that is already read. Allocates nothing.
pub fn apply<W: Sink>(machine: &Machine, list: &[u8], sink: &mut W) -> Result<(), DeskFault>
    ensures applied { Applies machine.now list.now
        (port W.taken W.has_failed sink.old sink.new) result }
    ensures untouched { IsErr result → result ≢ Err Device → sink.new ≡ sink.old }
    ensures failed { W.has_failed sink.new ≡ (W.has_failed sink.old || is_device result) }
{
    let settings = read_settings(list)?;
    let machine = carry_all(machine, settings.as_slice())?;
    write_machine(sink, &machine)?;
    Ok(())
}
