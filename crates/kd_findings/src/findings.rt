//! `Finding`: a fault of a file, with the fault's place, and words that explain it.
ghost use Rattle.std.specs.Prelude.{◌≡◌, ◌++◌, IfOk, OnOk, Some};
ghost use Rattle.kd_findings.specs.Faults.{at_place, faults_of, told_item};

use crate::key_place::KeyPlace;
use crate::texts::REFUSED;
use kd_language::Wording;
use kd_sheet::SheetFault;
use kd_slips::slip::Slip;
use std::alloc::AllocError;

/// A fault, its place, and the words that explain it.
#[derive(Drop)]
pub struct Finding {
    pub fault: SheetFault,
    pub place: KeyPlace,
    /// What is wrong, in words.
    pub explanation: Explanation,
}

/// What is wrong with a value.
#[derive(Drop)]
pub struct Explanation {
    /// The number of the list item that is wrong, counted from 1. `None` if the words are about the whole value.
    pub item: Option<usize>,
    pub words: String,
}

/// If the value at `place` has a fault, appends this fault. `checked`, the result of a check of this value, has the
/// words that explain the fault.
pub fn note(
    list: &mut Vec<Finding>,
    wording: Wording,
    place: KeyPlace,
    fault: Option<SheetFault>,
    checked: Result<(), Slip>,
) -> Result<(), AllocError>
    ensures { OnOk result (faults_of list.new.items
        ≡ faults_of list.old.items ++ at_place place fault) }
{
    match fault {
        Some(fault) => push_fault(list, wording, place, fault, checked),
        None => Ok(()),
    }
}

/// Appends `fault` to `list`, with the words in `checked` that explain `fault`.
fn push_fault(
    list: &mut Vec<Finding>,
    wording: Wording,
    place: KeyPlace,
    fault: SheetFault,
    checked: Result<(), Slip>,
) -> Result<(), AllocError>
    ensures { OnOk result (faults_of list.new.items
        ≡ faults_of list.old.items ++ at_place place (Some fault)) }
{
    let explanation = explain(wording, fault, checked)?;
    list.push(Finding {
        fault,
        place,
        explanation,
    })?;
    Ok(())
}

/// The words in `checked` that explain `fault`. If `checked` has a different fault or no fault, the words only say that
/// the desk refuses the value.
fn explain(
    wording: Wording,
    fault: SheetFault,
    checked: Result<(), Slip>,
) -> Result<Explanation, AllocError>
    ensures { IfOk result (λ explanation. explanation.item ≡ told_item fault checked) }
{
    match checked {
        Err(Slip::Fault(found, item, words)) if found == fault => Ok(Explanation { item, words }),
        Err(Slip::NoMemory) => Err(AllocError),
        _ => Ok(Explanation {
            item: None,
            words: wording.fill(REFUSED, &[])?,
        }),
    }
}
