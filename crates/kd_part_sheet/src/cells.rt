//! The cells of a row, one for each letter. A cell has a sign above the line to write on, and a sign below the line.
ghost use Rattle.std.specs.Prelude.{◌≡◌, ◌+◌, ◌≤◌, ◌++◌, length, map};
ghost use Rattle.kd_pictures.specs.Drawing.{Draws};
ghost use Rattle.kd_part_sheet.specs.Cells.{choice_cells, copied, mark_of, mark_text, place_text, pressed_cells};
ghost use Rattle.kd_part_sheet.specs.Cells.{received_cells, sign_of, sign_text, skipped, taken_after, text_sign};
ghost use Rattle.kd_part_sheet.specs.Cells.{cell_with, cells_with};

use crate::markup::{LOST_LETTER, NO_LETTER, STRUCK_OUT};
use arrayvec::ArrayVec;
use itoa::Buffer;
use kd_pictures::template::draw_letter;
use kd_pictures::{Results, draw};
use kd_tables::{Letter, Sink, place_on_wheel};

/// What stands above the line to write on, or below this line, in a letter's cell.
#[derive(Clone, Copy)]
pub enum Sign {
    Nothing,
    /// A letter that a worksheet leaves for the operator to find.
    Open,
    Lost,
    Letter(Letter),
}

/// The cell of a letter in a row.
#[derive(Clone, Copy)]
pub struct Cell {
    /// The sign above the line to write on.
    pub above: Sign,
    /// The sign below the line to write on.
    pub below: Sign,
    /// Whether the operator presses the letter.
    pub is_pressed: bool,
    pub mark: Mark,
}

/// The mark of a letter that a Converter prints while the operator finds the internal key.
#[derive(Clone, Copy)]
pub enum Mark {
    /// No mark: the cell isn't for the internal key, or is on a worksheet.
    NoMark,
    /// No wheel needs the letter, because the internal key is already complete.
    NotNeeded,
    StruckOut,
    /// The wheel with this number takes the letter.
    Taken(u8),
}

/// A default cell, since an `ArrayVec` of cells needs a value for its unused places.
impl Default for Cell {
    fn default() -> Self {
        Cell {
            above: Sign::Nothing,
            below: Sign::Nothing,
            is_pressed: false,
            mark: Mark::NoMark,
        }
    }
}

/// Appends the cells of letters that the operator copies onto the line, without a key press.
pub(crate) fn push_copied<const N: usize>(cells: &mut ArrayVec<Cell, N>, letters: &[Letter])
    requires { length cells.old.items + length letters.now ≤ N }
    ensures { cells.new.items ≡ cells.old.items ++ map copied letters.now }
{
    for letter in letters {
        cells.push(Cell {
            above: Sign::Nothing,
            below: Sign::Letter(*letter),
            is_pressed: false,
            mark: Mark::NoMark,
        });
    }
}

/// Appends the cells of letters that are pressed, with the letters of the lamps that have to light up.
pub fn push_pressed<const N: usize>(
    cells: &mut ArrayVec<Cell, N>,
    keys: &[Letter],
    lamps: &[Letter],
)
    requires { length cells.old.items + length keys.now ≤ N }
    ensures { cells.new.items ≡ cells.old.items ++ pressed_cells keys.now lamps.now }
{
    if let [key, keys @ ..] = keys
        && let [lamp, lamps @ ..] = lamps
    {
        cells.push(Cell {
            above: Sign::Letter(*key),
            below: Sign::Letter(*lamp),
            is_pressed: true,
            mark: Mark::NoMark,
        });
        push_pressed(cells, keys, lamps);
    }
}

/// Appends the cells of received letters that the operator doesn't press.
pub fn push_skipped<const N: usize>(cells: &mut ArrayVec<Cell, N>, letters: &[Option<Letter>])
    requires { length cells.old.items + length letters.now ≤ N }
    ensures { cells.new.items ≡ cells.old.items ++ map skipped letters.now }
{
    for letter in letters {
        cells.push(Cell {
            above: sign_of(*letter),
            below: Sign::Nothing,
            is_pressed: false,
            mark: Mark::NoMark,
        });
    }
}

/// The sign of a letter, which may be lost.
fn sign_of(letter: Option<Letter>) -> Sign
    ensures { result ≡ sign_of letter }
{
    match letter {
        Some(letter) => Sign::Letter(letter),
        None => Sign::Lost,
    }
}

/// Appends the cells of `keys`, received letters that the operator presses.
///
/// Below each of them stands the letter at the same place of `text`, or nothing if this letter is `for_space`.
pub fn push_received<const N: usize>(
    cells: &mut ArrayVec<Cell, N>,
    for_space: &Option<Letter>,
    keys: &[Option<Letter>],
    text: &[Option<Letter>],
)
    requires { length cells.old.items + length keys.now ≤ N }
    ensures { cells.new.items
        ≡ cells.old.items ++ received_cells for_space.now keys.now text.now }
{
    if let [key, keys @ ..] = keys
        && let [letter, text @ ..] = text
    {
        cells.push(Cell {
            above: sign_of(*key),
            below: text_sign(for_space, *letter),
            is_pressed: true,
            mark: Mark::NoMark,
        });
        push_received(cells, for_space, keys, text);
    }
}

/// The sign of a letter of the text; no sign for the letter `for_space`, which was sent for a space.
fn text_sign(for_space: &Option<Letter>, letter: Option<Letter>) -> Sign
    ensures { result ≡ text_sign for_space.now letter }
{
    match letter {
        Some(_) if *for_space == letter => Sign::Nothing,
        _ => sign_of(letter),
    }
}

/// Appends the cells with which the internal key is found. Each cell has the letter `chosen` above the line to write
/// on. Below this line, it has the letter that was printed for `chosen`, with a mark.
///
/// `taken` is the last wheel that took a letter before these cells; 0 if no wheel took one.
pub fn push_choice<const N: usize>(
    cells: &mut ArrayVec<Cell, N>,
    taken: u8,
    chosen: Letter,
    printed: &[Letter],
)
    requires few { taken ≤ 6 }
    requires room { length cells.old.items + length printed.now ≤ N }
    ensures { cells.new.items ≡ cells.old.items ++ choice_cells taken chosen printed.now }
{
    if let [letter, printed @ ..] = printed {
        let mark = mark_of(taken, *letter);
        cells.push(Cell {
            above: Sign::Letter(chosen),
            below: Sign::Letter(*letter),
            is_pressed: true,
            mark,
        });
        push_choice(cells, taken_after(taken, mark), chosen, printed);
    }
}

/// The mark of `letter`, the next printed letter, while the internal key is found. `taken` is the last wheel that took
/// a letter; 0 if no wheel took one.
/// - If `taken` is 6, the key is complete, and `letter` isn't needed.
/// - Otherwise, if the next wheel has `letter`, this wheel takes `letter`.
/// - Otherwise, `letter` is struck out.
fn mark_of(taken: u8, letter: Letter) -> Mark
    requires { taken ≤ 6 }
    ensures { result ≡ mark_of taken letter }
{
    if taken == 6 {
        Mark::NotNeeded
    } else if place_on_wheel(taken + 1, letter).is_some() {
        Mark::Taken(taken + 1)
    } else {
        Mark::StruckOut
    }
}

/// The last wheel that took a letter, after one more letter was printed and got the mark `mark`.
///
/// `taken` is the last wheel that took a letter before; 0 if no wheel took one.
fn taken_after(taken: u8, mark: Mark) -> u8
    ensures { result ≡ taken_after taken mark }
{
    match mark {
        Mark::Taken(wheel) => wheel,
        _ => taken,
    }
}

/// The cells as the sheet shows them: with their results or, if `results` are left open, as on a worksheet.
pub(crate) fn cells_with<const N: usize>(
    results: Results,
    cells: &ArrayVec<Cell, N>,
) -> ArrayVec<Cell, N>
    ensures { result.items ≡ cells_with results cells.now.items }
{
    let mut shown = ArrayVec::new();
    for cell in cells.as_slice() {
        shown.push(cell_with(results, *cell));
    }
    shown
}

/// `cell` as the sheet shows it: with its result or, if `results` are left open, as on a worksheet.
///
/// On a worksheet, the cell of a pressed letter has no mark, and the sign below the line to write on is left open.
fn cell_with(results: Results, cell: Cell) -> Cell
    ensures { result ≡ cell_with results cell }
{
    if results.are_open() && cell.is_pressed {
        Cell {
            below: Sign::Open,
            mark: Mark::NoMark,
            ..cell
        }
    } else {
        cell
    }
}

/// One of the three lines of a group: the signs above the line to write on, the signs below it, or the marks.
#[derive(Clone, Copy)]
pub(crate) enum Line {
    Above,
    Below,
    Marks,
}

/// Writes what a cell shows in one of the three lines of its group: a sign, or a mark.
pub(crate) fn draw_place<W: Sink>(sink: &mut W, line: Line, cell: &Cell)
    ensures { Draws W.taken W.has_failed sink.old sink.new (place_text line cell.now) }
{
    match line {
        Line::Above => draw_sign(sink, cell.above),
        Line::Below => draw_sign(sink, cell.below),
        Line::Marks => draw_mark(sink, cell.mark),
    }
}

fn draw_sign<W: Sink>(sink: &mut W, sign: Sign)
    ensures { Draws W.taken W.has_failed sink.old sink.new (sign_text sign) }
{
    match sign {
        Sign::Nothing | Sign::Open => draw(sink, NO_LETTER),
        Sign::Lost => draw(sink, LOST_LETTER),
        Sign::Letter(letter) => draw_letter(sink, letter),
    }
}

fn draw_mark<W: Sink>(sink: &mut W, mark: Mark)
    ensures { Draws W.taken W.has_failed sink.old sink.new (mark_text mark) }
{
    match mark {
        Mark::NoMark => draw(sink, ""),
        Mark::NotNeeded => draw(sink, NO_LETTER),
        Mark::StruckOut => draw(sink, STRUCK_OUT),
        Mark::Taken(wheel) => draw(sink, Buffer::new().format(wheel)),
    }
}
