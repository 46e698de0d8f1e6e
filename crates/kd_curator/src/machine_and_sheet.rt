//! Reads machine files and key sheets. If a command gets one of them in place of the other, the refusal says so.
ghost use Rattle.std.specs.Prelude.{◌≡◌, ◌⊎◌, false, IfErr, Ok};
ghost use Rattle.kd_tables.specs.Answers.{AgreesOrNoMemory};
ghost use Rattle.kd_sheet.specs.declared.fault.SheetFault.{SheetFault};
ghost use Rattle.kd_curator.specs.MachineAndSheet.{LacksMemory, file_remark, is_other_file, machine_and_month};
ghost use Rattle.kd_curator.specs.MachineAndSheet.{machine_in, month_in, refused_file};
ghost use Rattle.kd_curator.specs.Refusals.{is_device_fault, refused_memory};
ghost use Rattle.toml.specs.View.{table_view};
ghost use Rattle.kd_curator.specs.MachineAndSheet.{is_other_document};

use crate::blame::Remark;
use crate::fault::{PageFault, Refused};
use kd_findings::{entries_of, is_machine_file};
use kd_sheet::by_key::parse_table;
use kd_sheet::{Sheet, SheetFault, read_machine, read_sheet};
use kd_state::Machine;
use std::alloc::Global;
use toml::Table;

/// The files that a command for one day reads, and the day's number.
#[derive(Clone, Copy)]
pub struct DayFiles<'f> {
    /// The bytes of the machine file.
    pub machine: &'f [u8],
    /// The bytes of the key sheet.
    pub sheet: &'f [u8],
    /// The number of a day of the key sheet.
    pub number: u8,
}

/// The sort of file that a command needs: a machine file, or a key sheet.
#[derive(Clone, Copy)]
pub(crate) enum Needed {
    Machine,
    Sheet,
}

/// Reads the machine in the machine file `machine`, which is the command's first file.
pub(crate) fn read_one(alloc: Global, machine: &[u8]) -> Result<Machine, Refused>
    ensures found { (result ≡ machine_in machine.now) ⊎ LacksMemory result }
    ensures fault { IfErr result (λ refused. is_device_fault refused.fault ≡ false) }
{
    match read_machine(alloc, machine) {
        Ok(machine) => Ok(machine),
        Err(fault) => Err(refused_file(alloc, Needed::Machine, 0, machine, fault)),
    }
}

/// Reads the key sheet `sheet`, which is at place `place` among the command's files.
pub(crate) fn read_month(alloc: Global, place: usize, sheet: &[u8]) -> Result<Sheet, Refused>
    ensures found { (result ≡ month_in place sheet.now) ⊎ LacksMemory result }
    ensures fault { IfErr result (λ refused. is_device_fault refused.fault ≡ false) }
{
    match read_sheet(alloc, sheet) {
        Ok(sheet) => Ok(sheet),
        Err(fault) => Err(refused_file(alloc, Needed::Sheet, place, sheet, fault)),
    }
}

/// Reads the machine in the machine file `machine`, and the key sheet `sheet`. These are the command's first two files.
#[tactic(auto, using(kd_host::proofs::Failing::err_is), unfolding(crate::specs::MachineAndSheet::machine_and_month))]
pub(crate) fn read_both(
    alloc: Global,
    machine: &[u8],
    sheet: &[u8],
) -> Result<(Machine, Sheet), Refused>
    ensures found { (result ≡ machine_and_month machine.now sheet.now) ⊎ LacksMemory result }
    ensures fault { IfErr result (λ refused. is_device_fault refused.fault ≡ false) }
{
    let machine = read_one(alloc, machine)?;
    let sheet = read_month(alloc, 1, sheet)?;
    Ok((machine, sheet))
}

/// The refusal for `fault`, the first fault of a file; `place` is the file's place among the command's files.
fn refused_file(
    alloc: Global,
    needed: Needed,
    place: usize,
    bytes: &[u8],
    fault: SheetFault,
) -> Refused
    ensures found { (result ≡ refused_file needed place bytes.now fault) ⊎ (result ≡ refused_memory) }
    ensures memory { fault ≡ SheetFault.NoMemory → result ≡ refused_memory }
{
    if let SheetFault::NoMemory = fault {
        return Refused::from(fault);
    }
    match is_other_file(alloc, needed, bytes) {
        Ok(is_other) => Refused::of_file(
            PageFault::File(fault),
            place,
            file_remark(needed, is_other),
        ),
        Err(fault) => Refused::from(fault),
    }
}

/// The remark on a file with a fault. `needed` says which sort of file is needed: a machine file or a key sheet.
/// `is_other` says whether the file is of the other sort.
fn file_remark(needed: Needed, is_other: bool) -> Remark
    ensures { result ≡ file_remark needed is_other }
{
    match (needed, is_other) {
        (Needed::Machine, false) => Remark::MachineFile,
        (Needed::Machine, true) => Remark::SheetForMachine,
        (Needed::Sheet, false) => Remark::KeySheet,
        (Needed::Sheet, true) => Remark::MachineForSheet,
    }
}

/// Whether a key sheet was given in place of the needed machine file, or a machine file in place of the needed key
/// sheet.
///
/// `NoMemory` is the only fault.
#[tactic(auto, unfolding(crate::specs::MachineAndSheet::is_other_file))]
fn is_other_file(alloc: Global, needed: Needed, bytes: &[u8]) -> Result<bool, SheetFault>
    ensures { AgreesOrNoMemory SheetFault.NoMemory (Ok (is_other_file needed bytes.now)) result }
{
    match parse_table(alloc, bytes) {
        Ok(document) => Ok(is_other_document(needed, &document)),
        Err(SheetFault::NoMemory) => Err(SheetFault::NoMemory),
        Err(_) => Ok(false),
    }
}

/// Whether `document` is a key sheet in place of the needed machine file, or the other way round.
fn is_other_document(needed: Needed, document: &Table) -> bool
    ensures { result ≡ is_other_document needed (table_view document.now) }
{
    match needed {
        Needed::Machine => entries_of(document).is_some(),
        Needed::Sheet => is_machine_file(document),
    }
}
