//! Laws about tables.
ghost use Rattle.kd_spreadsheet.specs.Laws.{MeansOneList, MeansOrIsRefused};

/// A table that means a list of days isn't refused, and means only this list.
pub fn tables_mean_days_or_are_refused()
    ensures refused { MeansOrIsRefused }
    ensures one { MeansOneList }
{}
