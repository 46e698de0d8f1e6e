//! Numbers the rows of a table as a spreadsheet does. Empty rows are counted, and a line end in a quoted cell doesn't
//! end a row.
ghost use Rattle.std.specs.Prelude.{◌≡◌, MatchOption, false};
ghost use Rattle.kd_spreadsheet.specs.RowNumbers.{AreLineEnds, AtStart, IsCounted, IsNext, IsRowBefore, StartsRow};
ghost use Rattle.kd_spreadsheet.specs.RowNumbers.{ends_line, numbers_from, numbers_left};

use crate::quotes::Quoting;

/// The rows of a table that are still to be read, and the number of the first of these rows.
#[derive(Drop)]
pub struct RowNumbers<'a> {
    separator: u8,
    rest: &'a [u8],
    number: u64,
}

impl<'a> RowNumbers<'a> {
    /// Starts at the first row of `table`, which has the number 1.
    pub fn new(separator: u8, table: &'a [u8]) -> Self
        ensures left { numbers_left result ≡ numbers_from separator (AtStart false) 1 table.now }
        ensures counted { IsCounted result }
    {
        RowNumbers {
            separator,
            rest: table,
            number: 1,
        }
    }

    /// Moves past the next row that isn't empty, and returns the row's number.
    pub fn next_row(&mut self) -> u64
        requires { IsCounted self.old }
        ensures next { IsNext (numbers_left self.old) result (numbers_left self.new) }
        ensures counted { IsCounted self.new }
    {
        let (skipped, left) = skip_empty(self.rest);
        let found = self.number.saturating_add(skipped);
        self.rest = skip_row(self.separator, left);
        self.number = found.saturating_add(1);
        found
    }
}

/// The number of empty rows at the start of `rest`, and the bytes after these rows.
fn skip_empty(rest: &[u8]) -> (u64, &[u8])
    ensures skipped { AreLineEnds rest.now result.0 result.1.now }
    ensures starts { StartsRow result.1.now }
{
    let mut left = rest;
    let mut skipped: u64 = 0;
    while let Some(after) = after_line_end(left) {
        left = after;
        skipped += 1;
    }
    (skipped, left)
}

/// The bytes after the line end at the start of `rest`: CR, LF or both. `None` if `rest` doesn't begin with a line end.
fn after_line_end(rest: &[u8]) -> Option<&[u8]>
    ensures { MatchOption result
        (StartsRow rest.now)
        (λ left. AreLineEnds rest.now 1 left.now) }
{
    match rest {
        [b'\r', b'\n', left @ ..] => Some(left),
        [b'\r' | b'\n', left @ ..] => Some(left),
        _ => None,
    }
}

/// `rest` without its first row, and without the line end of this row.
fn skip_row(separator: u8, rest: &[u8]) -> &[u8]
    requires { StartsRow rest.now }
    ensures { IsRowBefore separator rest.now result.now }
{
    let mut quoting = Quoting::CellStart;
    for (place, byte) in rest.iter().enumerate() {
        if ends_line(*byte) && quoting.may_end() {
            let (_, left) = rest.split_at(place);
            return after_line_end(left).unwrap_or(&[]);
        }
        quoting = quoting.after_byte(separator, *byte);
    }
    &[]
}

fn ends_line(byte: u8) -> bool
    ensures { result ≡ ends_line byte }
{
    byte == b'\r' || byte == b'\n'
}
