//! Checks the quotes of a table. The library `csv` refuses no table: it would read everything after an open quote as
//! one cell.
ghost use Rattle.std.specs.Prelude.{◌≡◌, if◌then◌else◌};
ghost use Rattle.csv.specs.Reading.{strip_bom};
ghost use Rattle.kd_spreadsheet.specs.Rows.{is_separator, separator_of, ends_cell, quoting_after_byte, quoting_after, may_end, is_well_quoted};

/// The state of quotes at a place in a table.
#[derive(Clone, Copy)]
pub enum Quoting {
    /// At the start of a cell.
    CellStart,
    /// Within a cell without quotes.
    Unquoted,
    /// Within a quoted cell, before its closing quote.
    Quoted,
    /// After a quote in a quoted cell. The cell ends there, unless another quote follows.
    Closed,
    /// After a byte that follows a closing quote, but doesn't end the cell.
    Wrong,
}

impl Quoting {
    /// The state of quotes after `byte`, if `self` is the state before `byte`.
    pub fn after_byte(self, separator: u8, byte: u8) -> Self
        ensures { result ≡ quoting_after_byte separator self byte }
    {
        match self {
            Quoting::CellStart if byte == b'"' => Quoting::Quoted,
            Quoting::CellStart => after_unquoted(separator, byte, Quoting::Unquoted),
            Quoting::Unquoted => after_unquoted(separator, byte, Quoting::Unquoted),
            Quoting::Quoted if byte == b'"' => Quoting::Closed,
            Quoting::Quoted => Quoting::Quoted,
            Quoting::Closed if byte == b'"' => Quoting::Quoted,
            Quoting::Closed => after_unquoted(separator, byte, Quoting::Wrong),
            Quoting::Wrong => Quoting::Wrong,
        }
    }

    /// Whether a table may end in the state `self`.
    pub fn may_end(self) -> bool
        ensures { result ≡ may_end self }
    {
        match self {
            Quoting::CellStart | Quoting::Unquoted | Quoting::Closed => true,
            Quoting::Quoted | Quoting::Wrong => false,
        }
    }
}

/// Whether each quoted cell of `table` is closed, and ends with its closing quote.
pub fn is_well_quoted(table: &[u8]) -> bool
    ensures { result ≡ is_well_quoted table.now }
{
    quoting_after(separator_of(table), strip_bom(table)).may_end()
}

/// The separator of the cells of `table`: its first comma, semicolon or tab. If `table` has none of these, a comma.
pub fn separator_of(table: &[u8]) -> u8
    ensures { result ≡ separator_of table.now }
{
    for byte in table {
        if is_separator(*byte) {
            return *byte;
        }
    }
    b','
}

/// `table` without a byte order mark at its start.
#[tactic(auto, using(crate::proofs::Marks::mark_stripped, crate::proofs::Marks::mark_absent))]
pub fn strip_bom(table: &[u8]) -> &[u8]
    ensures { result.now ≡ strip_bom table.now }
{
    if table.len() < 3 {
        return table;
    }
    let (front, rest) = table.split_at(3);
    if front == b"\xEF\xBB\xBF".as_slice() {
        rest
    } else {
        table
    }
}

/// The state of quotes after `byte`, which isn't in a quoted cell. `CellStart` if `byte` ends the cell; if not, the
/// state `otherwise`.
fn after_unquoted(separator: u8, byte: u8, otherwise: Quoting) -> Quoting
    ensures { result ≡ (if ends_cell separator byte then Quoting.CellStart else otherwise) }
{
    if ends_cell(separator, byte) {
        Quoting::CellStart
    } else {
        otherwise
    }
}

fn ends_cell(separator: u8, byte: u8) -> bool
    ensures { result ≡ ends_cell separator byte }
{
    byte == separator || byte == b'\r' || byte == b'\n'
}

/// The state of quotes at the end of `text`.
fn quoting_after(separator: u8, text: &[u8]) -> Quoting
    ensures { result ≡ quoting_after separator Quoting.CellStart text.now }
{
    let mut quoting = Quoting::CellStart;
    for byte in text {
        quoting = quoting.after_byte(separator, *byte);
    }
    quoting
}

/// Whether `byte` may separate cells.
fn is_separator(byte: u8) -> bool
    ensures { result ≡ is_separator byte }
{
    byte == b',' || byte == b';' || byte == b'\t'
}
