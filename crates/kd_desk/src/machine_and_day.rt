//! Reads a machine from a machine file, and a day from a key sheet.
ghost use Rattle.std.specs.Prelude.{◌≡◌, ◌≢◌, ◌⊎◌, IfErr, IfOk};
ghost use Rattle.kd_state.specs.Machine.{IsMachine};
ghost use Rattle.kd_state.specs.SheetDay.{IsLegalDay, day_number};
ghost use Rattle.kd_desk.specs.{OnDay.{machine_and_day}, CallAnswers.{LacksMemory}};
ghost use Rattle.kd_desk.specs.declared.fault.DeskFault.TheVariants.{Device};

use crate::fault::DeskFault;
use kd_sheet::{read_machine, read_sheet};
use kd_state::{Entry, Machine, Parts, SheetDay};
use std::alloc::Global;

/// Reads the machine in the machine file `machine`, and day `number` in the key sheet `sheet`.
///
/// Faults are tested in this order: faults of the machine file, faults of the sheet, and `NoSuchDay`.
#[tactic(auto, using(crate::proofs::Days::finding), unfolding(crate::specs::OnDay::machine_and_day))]
pub fn find_day(
    alloc: Global,
    machine: &[u8],
    sheet: &[u8],
    number: u8,
) -> Result<(Machine, SheetDay), DeskFault>
    ensures day { (result ≡ machine_and_day machine.now sheet.now number) ⊎ LacksMemory result }
    ensures fault { IfErr result (λ fault. fault ≢ Device) }
    ensures number { IfOk result (λ found. day_number found.1 ≡ number) }
    ensures legal { IfOk result (λ found. IsMachine found.0 × IsLegalDay found.1) }
{
    let machine = read_machine(alloc, machine)?;
    let sheet = read_sheet(alloc, sheet)?;
    let day = sheet.into_day(number).ok_or(DeskFault::NoSuchDay)?;
    // The calls of `parts` and `entry` show the prover that the machine and the day are legal.
    prove!(matches!(machine.parts(), Parts::Rotor(_) | Parts::Pin(_)));
    prove!(matches!(day.entry(), Entry::Rotor(_) | Entry::Pin(_)));
    Ok((machine, day))
}
