//! Laws of machine files, key sheets and their days.
ghost use Rattle.kd_sheet.specs.Laws.{LegalPartsAreReadBack, WrittenFilesAreReadBack, WrittenSheetsAreReadBack};
ghost use Rattle.kd_sheet.specs.Laws.{LegalDaysAreDescribed, DaysAreTheEntries};

/// If a machine is written to a file, this file is read as the same machine.
///
/// If legal parts are written to a file, it is read as these parts, but with each cable's letters in alphabetical
/// order.
#[tactic(auto, using(crate::proofs::ReadBack::parts_are_read_back))]
pub fn written_files_are_read_back()
    ensures machines { WrittenFilesAreReadBack }
    ensures parts { LegalPartsAreReadBack }
{}

/// If one or more legal days with different numbers are written as a sheet, the sheet is read as exactly these days.
#[tactic(auto, using(crate::proofs::Days::sheet_again))]
pub fn written_sheets_are_read_back()
    ensures { WrittenSheetsAreReadBack }
{}

/// A day is legal exactly if a key sheet with only one entry can describe this day.
///
/// If a key sheet is read without a fault, its days are exactly those that its entries describe, each under its own
/// number.
pub fn days_are_the_entries()
    ensures legal { LegalDaysAreDescribed }
    ensures sheet { DaysAreTheEntries }
{}
