//! The days of all earlier rows, for the notes on later rows.
ghost use Rattle.std.specs.Prelude.{◌≡◌, ◌++◌, ◌∷◌, [], ℕ, List, IfSome, length, slice_get};
ghost use Rattle.csv.specs.Records.{fields_of};
ghost use Rattle.kd_spreadsheet.specs.Notes.{IsEarlierRow, KnowsDays};
ghost use Rattle.kd_spreadsheet.specs.declared.columns.Columns.{Columns};

use super::head::Head;
use crate::cell::day_in;
use crate::columns::cell_at;
use csv::ByteRecord;

/// The days of all earlier rows, for the notes on later rows.
#[derive(Drop)]
pub struct Found {
    /// For each day, the number of the first row with this day; `None` if no row has this day.
    rows: [Option<u64>; 32],
}

impl Found {
    /// The state before the first row: no days.
    pub fn new() -> Self
        ensures { (columns : Columns) (numbers : List ℕ) → KnowsDays columns numbers [] result.rows }
    {
        Found { rows: [None; 32] }
    }

    /// The number of the first row with the day of `row`. `None` if `row` has no day, or if no earlier row has this
    /// day. Keeps `number`, the number of `row`, if the day is new.
    pub fn earlier_row(&mut self, head: &Head<'_>, row: &ByteRecord, number: u64) -> Option<u64>
        ensures { (numbers : List ℕ) (rows : List (List (List ℕ)))
            → IfSome (slice_get numbers (length rows)) (λ due. number ≡ due)
            → KnowsDays head.now.columns numbers rows self.old.rows
            → IsEarlierRow head.now.columns numbers rows (fields_of row.now) result
            × KnowsDays head.now.columns numbers (rows ++ fields_of row.now ∷ []) self.new.rows }
    {
        let day = usize::from(day_in(cell_at(row, head.columns().day))?);
        if let Some(earlier) = self.rows[day] {
            return Some(earlier);
        }
        self.rows[day] = Some(number);
        None
    }
}
