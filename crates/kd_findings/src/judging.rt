//! Tells machine files from key sheets, and finds the faults of a file.
ghost use Rattle.std.specs.Prelude.{◌≡◌, ◌∷◌, [], IfOk, false, map, None, option_map};
ghost use Rattle.std.specs.Option.{option_and_then};
ghost use Rattle.toml.specs.Data.{get_member};
ghost use Rattle.toml.specs.View.{view, table_view};
ghost use Rattle.kd_findings.specs.Faults.{faults_of, first_fault, in_file};
ghost use Rattle.kd_findings.specs.Kind.{entries_of, is_machine_file};
ghost use Rattle.kd_sheet.specs.Document.{as_items};
ghost use Rattle.kd_sheet.specs.Key.{key_name};
ghost use Rattle.kd_sheet.specs.declared.key.Key.TheVariants as keys;
ghost use Rattle.kd_findings.specs.SheetFaults.{AreFaults, AreFaultsOf, day_fault, file_fault};

use crate::findings::{Finding, note};
use crate::key_place::KeyPlace;
use crate::machine::machine_faults;
use crate::sheet::sheet_faults;
use crate::texts::{DAYS_NEEDED, UNKNOWN_FILE};
use kd_language::Wording;
use kd_sheet::by_key::find_at;
use kd_sheet::{Key, SheetFault};
use kd_slips::slip::{Slip, refuse};
use kd_slips::values::kind_of;
use std::alloc::AllocError;
use toml::{Table, Value};

/// The items of the array at `key`. `None` if the table has no array at `key`.
#[tactic(auto, using(kd_sheet::proofs::ReadBack::Described::KeyValues::Steps::items_found))]
pub fn items_at(table: &Table, key: Key) -> Option<&[Value]>
    ensures { option_map (λ items. map view items.now) result
        ≡ option_and_then as_items (get_member (key_name key) (table_view table.now)) }
{
    let value = find_at(table, key)?;
    let items = value.as_array()?;
    Some(items.as_slice())
}

/// The entries of a key sheet: the items of the array `day`. `None` if the document has no array `day`.
pub fn entries_of(document: &Table) -> Option<&[Value]>
    ensures { option_map (λ items. map view items.now) result
        ≡ entries_of (table_view document.now) }
{
    items_at(document, Key::Day)
}

/// Whether a document is a machine file.
#[tactic(auto, unfolding(crate::specs::Kind::is_machine_file))]
pub fn is_machine_file(document: &Table) -> bool
    ensures { result ≡ is_machine_file (table_view document.now) }
{
    entries_of(document).is_none()
        && (find_at(document, Key::Version).is_some()
            || (find_at(document, Key::Model).is_some() && find_at(document, Key::Day).is_none()))
}

/// Finds the faults of a document.
pub fn find_faults(wording: Wording, document: &Table) -> Result<Vec<Finding>, AllocError>
    ensures faults { IfOk result (λ list.
        AreFaults (table_view document.now) (faults_of list.items)) }
    ensures first { IfOk result (λ list.
        first_fault (faults_of list.items) ≡ file_fault (table_view document.now)) }
{
    if is_machine_file(document) {
        machine_faults(wording, document)
    } else {
        find_sheet_faults(wording, document)
    }
}

/// Finds the faults of a document that isn't a machine file.
fn find_sheet_faults(wording: Wording, document: &Table) -> Result<Vec<Finding>, AllocError>
    ensures { IfOk result (λ list. AreFaultsOf false (entries_of (table_view document.now))
        (table_view document.now) (faults_of list.items)) }
{
    match entries_of(document) {
        Some(items) => sheet_faults(wording, items),
        None => find_day_fault(wording, document),
    }
}

/// Finds the fault of a document that isn't a machine file, and has no array `day`.
fn find_day_fault(wording: Wording, document: &Table) -> Result<Vec<Finding>, AllocError>
    ensures { IfOk result (λ list. faults_of list.items
        ≡ (in_file keys.Day, day_fault (table_view document.now)) ∷ []) }
{
    let mut list = Vec::new(wording.alloc);
    let place = KeyPlace::in_file(Key::Day);
    let fault = Some(day_fault(document));
    note(
        &mut list,
        wording,
        place,
        fault,
        check_day(wording, document),
    )?;
    Ok(list)
}

/// The fault of a document that isn't a machine file, and has no array `day`.
fn day_fault(document: &Table) -> SheetFault
    ensures { result ≡ day_fault (table_view document.now) }
{
    match find_at(document, Key::Day) {
        Some(_) => SheetFault::BadValue(Key::Day),
        None => SheetFault::Missing(Key::Day),
    }
}

/// Says why a document that isn't a machine file, and has no array `day`, is refused.
fn check_day(wording: Wording, document: &Table) -> Result<(), Slip> {
    match find_at(document, Key::Day) {
        Some(value) => refuse(
            SheetFault::BadValue(Key::Day),
            wording.fill(DAYS_NEEDED, &[kind_of(wording.language, value)]),
        ),
        None => refuse(
            SheetFault::Missing(Key::Day),
            wording.fill(UNKNOWN_FILE, &[]),
        ),
    }
}
