//! The table of a Converter's bars, with marks for the lugs that stay, leave a place, or come to a place.
ghost use Rattle.std.specs.Prelude.{◌≡◌, ◌++◌, flat_map};
ghost use Rattle.kd_tables.specs.Places.{places};
ghost use Rattle.kd_state.specs.{Machine.{machine_standing}, Setting.{is_same_place}};
ghost use Rattle.kd_pictures.specs.Drawing.{Draws};
ghost use Rattle.kd_page.specs.Drum.{bar_end, bar_head, bar_row, cell_mark, drum_head, has_lug};
ghost use Rattle.kd_page.specs.Drum.{is_same_standing, lug_cell, lugs_step, marked_cell};

use crate::boxes::draw_boxes;
use crate::page::Page;
use crate::spots::Step;
use crate::steps::draw_step;
use kd_language::Language;
use kd_pictures::draw;
use kd_pictures::numbers::BARS;
use kd_pictures::template::{Value, fill, fill_in};
use kd_pictures::texts::{
    BAR, BOXES, DRUM, DRUM_END, MARKED_LUG, NO_BOXES, NO_LUG, ONE_BOX, SET_BAR,
};
use kd_pictures::words::{Mark, Word};
use kd_tables::{Place, Sink, Standing};

pub(crate) fn draw_lugs_step<W: Sink>(sink: &mut W, page: &Page<'_>)
    ensures { Draws W.taken W.has_failed sink.old sink.new
        (lugs_step page.now) }
{
    let count = page.count_at(&Step::Lugs.spot());
    draw_step(sink, page, Word::Lugs, count);
    draw_drum_head(sink, page.language());
    draw_bars(sink, page, &BARS);
    draw(sink, DRUM_END);
}

/// Writes the caption with the meaning of the marks, and the head of the table.
#[tactic(auto, unfolding(crate::specs::Drum::drum_head))]
fn draw_drum_head<W: Sink>(sink: &mut W, language: Language)
    ensures { Draws W.taken W.has_failed sink.old sink.new (drum_head language) }
{
    fill_in(
        sink,
        language,
        DRUM,
        &[
            Value::Mark(Mark::LugStays),
            Value::Mark(Mark::LugLeaves),
            Value::Mark(Mark::LugComes),
        ],
    );
}

fn draw_bars<W: Sink>(sink: &mut W, page: &Page<'_>, bars: &[u8])
    ensures { Draws W.taken W.has_failed sink.old sink.new
        (flat_map (λ bar. bar_row page.now bar
        (machine_standing page.now.before bar) (machine_standing page.now.after bar))
        bars.now) }
{
    if let [bar, rest @ ..] = bars {
        let was = page.before().standing(*bar);
        draw_bar(sink, page, *bar, was, page.after().standing(*bar));
        draw_bars(sink, page, rest);
    }
}

/// Writes the row of a bar. Its lugs are at the places `was` before the settings, and at the places `is` after them.
fn draw_bar<W: Sink>(
    sink: &mut W,
    page: &Page<'_>,
    bar: u8,
    was: Option<Standing>,
    is: Option<Standing>,
)
    ensures { Draws W.taken W.has_failed sink.old sink.new (bar_row page.now bar was is) }
{
    if let (Some(was), Some(is)) = (was, is) {
        let spot = Step::Lugs.row(bar);
        draw_bar_head(sink, page.language(), bar, was, is);
        draw_cells(sink, page.language(), was, is, &Place::all());
        draw_boxes(sink, page, &spot);
        draw(sink, bar_end(page.count_at(&spot)));
    }
}

fn draw_bar_head<W: Sink>(sink: &mut W, language: Language, bar: u8, was: Standing, is: Standing)
    ensures { Draws W.taken W.has_failed sink.old sink.new (bar_head bar was is) }
{
    fill(
        sink,
        language,
        if is_same_standing(was, is) {
            BAR
        } else {
            SET_BAR
        },
        &[Value::Number(u16::from(bar))],
    );
}

fn is_same_standing(was: Standing, is: Standing) -> bool
    ensures { result ≡ is_same_standing was is }
{
    is_same_place(was.left(), is.left()) && is_same_place(was.right(), is.right())
}

fn is_same_place(one: Place, other: Place) -> bool
    ensures { result ≡ is_same_place one other }
{
    one == other
}

/// The end of a bar's row after `count` checkboxes: empty cells, so that each row has two cells for checkboxes.
fn bar_end(count: u8) -> &'static str
    ensures { result.now ≡ bar_end count }
{
    match count {
        0 => NO_BOXES,
        1 => ONE_BOX,
        _ => BOXES,
    }
}

/// Writes a cell for each of the places `places` of a bar.
fn draw_cells<W: Sink>(
    sink: &mut W,
    language: Language,
    was: Standing,
    is: Standing,
    places: &[Place],
)
    ensures { Draws W.taken W.has_failed sink.old sink.new
        (flat_map (lug_cell was is) places.now) }
{
    if let [place, rest @ ..] = places {
        draw_cell(sink, language, was, is, *place);
        draw_cells(sink, language, was, is, rest);
    }
}

#[tactic(auto, unfolding(crate::specs::Drum::lug_cell))]
fn draw_cell<W: Sink>(sink: &mut W, language: Language, was: Standing, is: Standing, place: Place)
    ensures { Draws W.taken W.has_failed sink.old sink.new (lug_cell was is place) }
{
    draw_marked_cell(
        sink,
        language,
        cell_mark(has_lug(was, place), has_lug(is, place)),
    );
}

fn cell_mark(was_here: bool, is_here: bool) -> Option<Mark>
    ensures { result ≡ cell_mark was_here is_here }
{
    match (was_here, is_here) {
        (true, true) => Some(Mark::LugStays),
        (true, false) => Some(Mark::LugLeaves),
        (false, true) => Some(Mark::LugComes),
        (false, false) => None,
    }
}

fn draw_marked_cell<W: Sink>(sink: &mut W, language: Language, mark: Option<Mark>)
    ensures { Draws W.taken W.has_failed sink.old sink.new (marked_cell mark) }
{
    match mark {
        None => draw(sink, NO_LUG),
        Some(mark) => fill(sink, language, MARKED_LUG, &[Value::Mark(mark)]),
    }
}

fn has_lug(standing: Standing, place: Place) -> bool
    ensures { result ≡ has_lug standing place }
{
    is_same_place(standing.left(), place) || is_same_place(standing.right(), place)
}
