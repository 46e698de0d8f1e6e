//! `Head` and `PlacedRow`: the values from which notes on a table's rows are made.
use crate::columns::Columns;
use csv::ByteRecord;
use kd_language::{Language, Wording};
use kd_options::TableOptions;

/// What is the same for the notes on all rows. `names` is the table's first row, which has the columns' names.
/// `wording` has the notes' language, and the memory for the notes.
#[derive(Drop)]
pub struct Head<'a> {
    wording: Wording,
    options: &'a TableOptions<&'a [u8]>,
    columns: &'a Columns,
    names: &'a ByteRecord,
}

impl<'a> std::marker::Model for Head<'a> {
    ghost use Rattle.csv.specs.Records.{fields_of};
    ghost use Rattle.kd_spreadsheet.specs.Head.{Head};
    ghost use Rattle.kd_options.specs.TableOptions.{texts_of};

    ghost Value = { Head };

    ghost view = { λ head. record {
      language = head.wording.language;
      options = texts_of head.options.now;
      columns = head.columns.now;
      names = fields_of head.names.now;
    } };
}

impl<'a> Head<'a> {
    ghost use Rattle.std.specs.Prelude.{◌≡◌};
    ghost use Rattle.csv.specs.Records.{fields_of};
    ghost use Rattle.kd_spreadsheet.specs.Head.{head_of};
    ghost use Rattle.kd_options.specs.TableOptions.{texts_of};

    /// Makes the `Head` of a table whose first row is `names`.
    pub fn new(
        wording: Wording,
        options: &'a TableOptions<&'a [u8]>,
        columns: &'a Columns,
        names: &'a ByteRecord,
    ) -> Self
        ensures { result ≡ head_of wording.language (texts_of options.now)
            columns.now (fields_of names.now) }
    {
        Head {
            wording,
            options,
            columns,
            names,
        }
    }

    /// The language of the notes, and the memory for the notes.
    pub fn wording(&self) -> Wording
        ensures { result.language ≡ self.now.language }
    {
        self.wording
    }

    /// The language of the notes.
    pub fn language(&self) -> Language
        ensures { result ≡ self.now.language }
    {
        self.wording.language
    }

    pub fn options(&self) -> &'a TableOptions<&'a [u8]>
        ensures { texts_of result.now ≡ self.now.options }
    {
        self.options
    }

    pub fn columns(&self) -> &'a Columns
        ensures { result.now ≡ self.now.columns }
    {
        self.columns
    }

    pub fn names(&self) -> &'a ByteRecord
        ensures { fields_of result.now ≡ self.now.names }
    {
        self.names
    }
}

/// A row, and the words for its place, such as `row 5 (day 3), `. Each line about the row begins with these words.
/// `earlier` is the number of an earlier row with this row's day; `None` if there is no such row.
#[derive(Drop)]
pub struct PlacedRow<'a> {
    place: &'a [u8],
    cells: &'a ByteRecord,
    earlier: Option<u64>,
}

impl<'a> std::marker::Model for PlacedRow<'a> {
    ghost use Rattle.csv.specs.Records.{fields_of};
    ghost use Rattle.kd_spreadsheet.specs.Head.{PlacedRow};

    ghost Value = { PlacedRow };

    ghost view = { λ row. record {
      place = row.place.now;
      cells = fields_of row.cells.now;
      earlier = row.earlier;
    } };
}

impl<'a> PlacedRow<'a> {
    ghost use Rattle.std.specs.Prelude.{◌≡◌};
    ghost use Rattle.csv.specs.Records.{fields_of};
    ghost use Rattle.kd_spreadsheet.specs.Head.{placed_row};

    pub fn new(place: &'a [u8], cells: &'a ByteRecord, earlier: Option<u64>) -> Self
        ensures { result ≡ placed_row place.now (fields_of cells.now) earlier }
    {
        PlacedRow {
            place,
            cells,
            earlier,
        }
    }

    pub fn place(&self) -> &'a [u8]
        ensures { result.now ≡ self.now.place }
    {
        self.place
    }

    pub fn cells(&self) -> &'a ByteRecord
        ensures { fields_of result.now ≡ self.now.cells }
    {
        self.cells
    }

    /// The number of an earlier row with this row's day; `None` if there is no such row.
    pub fn earlier(&self) -> Option<u64>
        ensures { result ≡ self.now.earlier }
    {
        self.earlier
    }
}
