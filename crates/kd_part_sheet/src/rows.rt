//! The rows of letters in a step of a part's sheet. A row has up to ten groups of five letters, and the number of
//! letters so far. If letters of the row are pressed, the row also has the letters that the machine shows after this
//! row.
ghost use Rattle.std.specs.Prelude.{◌≡◌, ◌+◌, ◌≤◌, ◌∷◌, flat_map, length};
ghost use Rattle.kd_state.specs.EngineKey.{IsWindow};
ghost use Rattle.kd_state.specs.OwnKeys.{sheet_key};
ghost use Rattle.kd_pictures.specs.Drawing.{Draws};
ghost use Rattle.kd_part_sheet.specs.Cells.{place_text};
ghost use Rattle.kd_part_sheet.specs.Rows.{above_text, group_text, has_below, has_marks, is_skipped, line_if, pieces, pressed_count};
ghost use Rattle.kd_pictures.specs.Results.{are_open};
ghost use Rattle.kd_part_sheet.specs.Rows.{progress_after, row_number, row_text, rows_after, shown_after, windows_after};

use crate::cells::{Cell, Line, Mark, Sign, draw_place};
use crate::cutting::first_piece;
use crate::letters_after::letters_after;
use crate::markup::{
    ABOVE_END, GROUP, GROUP_END, MARKS, MARKS_END, ROW, ROW_BOX, ROW_END, ROW_LETTERS, ROW_NUMBERS,
    SMALL, SMALL_END, SPACE, TWO_SPACES,
};
use crate::part_sheet::PartPage;
use crate::words::draw_shown;
use kd_pictures::draw;
use kd_pictures::template::{Value, fill};
use kd_pictures::words::is_converter;
use kd_state::SheetDay;
use kd_tables::{Letter, Sink};

/// The progress of a step: how many letters its rows have so far, and how many of these letters were pressed.
#[derive(Clone, Copy)]
pub(crate) struct Progress {
    pub(crate) letters: usize,
    pub(crate) presses: usize,
}

/// Writes `cells` as the next rows of a step. `progress` counts the letters of the earlier rows. At the start of the
/// step, the machine shows `start`.
pub(crate) fn draw_rows<W: Sink>(
    sink: &mut W,
    page: PartPage,
    day: &SheetDay,
    start: &[Letter],
    progress: Progress,
    cells: &[Cell],
)
    requires window { IsWindow (sheet_key day.now) start.now }
    requires presses { progress.presses ≤ progress.letters }
    requires few { progress.letters + length cells.now ≤ 520 }
    ensures { Draws W.taken W.has_failed sink.old sink.new
        (rows_after page.name.results day.now start.now progress (pieces 50 cells.now)) }
{
    if !cells.is_empty() {
        let (row, rest) = first_piece(cells, 50);
        let progress = progress_after(progress, row);
        draw_row(sink, page, day, start, progress, row);
        draw_rows(sink, page, day, start, progress, rest);
    }
}

/// The progress of a step after `row`. Before `row`, the progress is `progress`.
pub(crate) fn progress_after(progress: Progress, row: &[Cell]) -> Progress
    requires presses { progress.presses ≤ progress.letters }
    requires few { progress.letters + length row.now ≤ 520 }
    ensures value { result ≡ progress_after progress row.now }
    ensures presses { result.presses ≤ result.letters }
{
    Progress {
        letters: progress.letters + row.len(),
        presses: progress.presses + pressed_count(row),
    }
}

fn pressed_count(row: &[Cell]) -> usize
    ensures value { result ≡ pressed_count row.now }
    ensures few { result ≤ length row.now }
{
    row.iter().filter(|cell| cell.is_pressed).count()
}

/// Writes a row. `progress` counts the letters of all rows so far, this row included.
fn draw_row<W: Sink>(
    sink: &mut W,
    page: PartPage,
    day: &SheetDay,
    start: &[Letter],
    progress: Progress,
    row: &[Cell],
)
    requires window { IsWindow (sheet_key day.now) start.now }
    requires presses { progress.presses ≤ progress.letters }
    requires few { progress.letters ≤ 520 }
    ensures { Draws W.taken W.has_failed sink.old sink.new
        (row_text page.name.results day.now start.now progress row.now) }
{
    draw(sink, ROW);
    draw_groups(sink, row);
    let number = row_number(is_converter(day.model()), progress);
    fill(sink, page.language, ROW_BOX, &[Value::Number(number)]);
    let is_hidden = page.name.results.are_open() || pressed_count(row) == 0;
    draw_windows_after(sink, day, start, progress.presses, is_hidden);
    draw(sink, ROW_END);
}

/// The number at the end of a row. On a Converter, this number is what the machine's counter shows: how many letters
/// were pressed in the step so far. On a rotor machine, this number is how many letters the rows have so far.
fn row_number(is_converter: bool, progress: Progress) -> u16
    requires presses { progress.presses ≤ progress.letters }
    requires few { progress.letters ≤ 520 }
    ensures { result ≡ row_number is_converter progress }
{
    if is_converter {
        progress.presses as u16
    } else {
        progress.letters as u16
    }
}

/// Writes the windows after `presses` key presses; writes nothing if `is_hidden` is true.
fn draw_windows_after<W: Sink>(
    sink: &mut W,
    day: &SheetDay,
    start: &[Letter],
    presses: usize,
    is_hidden: bool,
)
    requires window { IsWindow (sheet_key day.now) start.now }
    requires few { presses ≤ 520 }
    ensures { Draws W.taken W.has_failed sink.old sink.new
        (windows_after day.now start.now presses is_hidden) }
{
    if is_hidden {
        draw(sink, "");
    } else {
        let letters = letters_after(day, start, presses);
        draw_shown_after(sink, is_converter(day.model()), letters.as_slice());
    }
}

/// Writes the letters that the machine shows; on a rotor machine also the numbers of these letters.
fn draw_shown_after<W: Sink>(sink: &mut W, is_converter: bool, letters: &[Letter])
    ensures { Draws W.taken W.has_failed sink.old sink.new (shown_after is_converter letters.now) }
{
    if is_converter {
        draw_shown(sink, false, ROW_LETTERS, SPACE, letters);
    } else {
        draw_shown(sink, false, ROW_LETTERS, TWO_SPACES, letters);
        draw_shown(sink, true, ROW_NUMBERS, SPACE, letters);
    }
}

/// Writes cells in groups of five.
fn draw_groups<W: Sink>(sink: &mut W, cells: &[Cell])
    ensures { Draws W.taken W.has_failed sink.old sink.new
        (flat_map group_text (pieces 5 cells.now)) }
{
    if !cells.is_empty() {
        let (group, rest) = first_piece(cells, 5);
        draw_group(sink, group);
        draw_groups(sink, rest);
    }
}

/// Writes a group: the signs above the line to write on, the signs below it, and the marks.
fn draw_group<W: Sink>(sink: &mut W, group: &[Cell])
    ensures { Draws W.taken W.has_failed sink.old sink.new (group_text group.now) }
{
    draw(sink, GROUP);
    draw_above(sink, is_skipped(group), group);
    draw(sink, ABOVE_END);
    draw_line_if(sink, has_below(group), SMALL, SMALL_END, Line::Below, group);
    draw_line_if(sink, has_marks(group), MARKS, MARKS_END, Line::Marks, group);
    draw(sink, GROUP_END);
}

/// Whether the group's first cell has a received letter that the operator doesn't press.
fn is_skipped(group: &[Cell]) -> bool
    ensures { result ≡ is_skipped group.now }
{
    match group {
        [cell, ..] => !cell.is_pressed && !matches!(cell.above, Sign::Nothing),
        [] => false,
    }
}

/// Writes the signs above the line to write on, in small print if their letters aren't pressed.
fn draw_above<W: Sink>(sink: &mut W, is_small: bool, group: &[Cell])
    ensures { Draws W.taken W.has_failed sink.old sink.new (above_text is_small group.now) }
{
    if is_small {
        draw(sink, SMALL);
        draw_line(sink, Line::Above, group);
        draw(sink, SMALL_END);
    } else {
        draw_line(sink, Line::Above, group);
    }
}

/// Whether the group has a sign below the line to write on.
fn has_below(group: &[Cell]) -> bool
    ensures { result ≡ has_below group.now }
{
    match group {
        [cell, rest @ ..] => !matches!(cell.below, Sign::Nothing) || has_below(rest),
        [] => false,
    }
}

/// Whether the group has marks. Its first cell decides: either all cells of a group have a mark, or none.
fn has_marks(group: &[Cell]) -> bool
    ensures { result ≡ has_marks group.now }
{
    match group {
        [cell, ..] => !matches!(cell.mark, Mark::NoMark),
        [] => false,
    }
}

/// Writes one of the three lines of a group, between the texts `before` and `after`. Writes nothing if `is_there` is
/// false.
fn draw_line_if<W: Sink>(
    sink: &mut W,
    is_there: bool,
    before: &str,
    after: &str,
    line: Line,
    group: &[Cell],
)
    ensures { Draws W.taken W.has_failed sink.old sink.new
        (line_if is_there before.now after.now line group.now) }
{
    if is_there {
        draw(sink, before);
        draw_line(sink, line, group);
        draw(sink, after);
    } else {
        draw(sink, "");
    }
}

/// Writes one of the three lines of a group: signs above, signs below, or marks.
pub(crate) fn draw_line<W: Sink>(sink: &mut W, line: Line, group: &[Cell])
    ensures { Draws W.taken W.has_failed sink.old sink.new
        (flat_map (place_text line) group.now) }
{
    if let [cell, rest @ ..] = group {
        draw_place(sink, line, cell);
        draw_line(sink, line, rest);
    }
}
