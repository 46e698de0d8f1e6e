//! The two steps at the plugboard: the plugs to take out, and the plugs to put in.
ghost use Rattle.std.specs.Prelude.{◌≡◌, ◌++◌, flat_map};
ghost use Rattle.kd_pictures.specs.Drawing.{Draws};
ghost use Rattle.kd_language.specs.Language.{in_language};
ghost use Rattle.kd_page.specs.PlugSteps.{in_step, in_table, out_step, plug_row, plug_table, plugs_in, plugs_out};

use crate::boxes::draw_boxes;
use crate::page::Page;
use crate::spots::Step;
use crate::steps::{draw_idle, draw_step};
use kd_language::Text;
use kd_pictures::board::{Plugs, draw_board, has_cables};
use kd_pictures::numbers::CABLES;
use kd_pictures::template::{Value, fill};
use kd_pictures::texts::{
    BOARD_STEP_END, CAPTION_SAME, PLUG_ROW, PLUGS_END, PLUGS_IN, PLUGS_OUT, ROW_END,
};
use kd_pictures::words::Word;
use kd_pictures::{draw, draw_in};
use kd_tables::Sink;

/// Writes the step in which plugs are taken out.
pub(crate) fn draw_out_step<W: Sink>(sink: &mut W, page: &Page<'_>)
    ensures { Draws W.taken W.has_failed sink.old sink.new (out_step page.now) }
{
    let count = page.count_at(&Step::PlugsOut.spot());
    if count == 0 {
        draw_idle(sink, page.language(), Word::PlugsOut);
    } else {
        draw_plugs_out(sink, page, count);
    }
}

/// Writes the picture of the plugboard before the settings, and the table of the `count` plugs to take out.
fn draw_plugs_out<W: Sink>(sink: &mut W, page: &Page<'_>, count: u8)
    ensures { Draws W.taken W.has_failed sink.old sink.new (plugs_out page.now count) }
{
    let language = page.language();
    draw_step(sink, page, Word::PlugsOut, count);
    draw_board(sink, language, Plugs::Out, page.before(), page.after());
    draw_plug_table(sink, page, PLUGS_OUT, Step::PlugsOut);
    draw(sink, BOARD_STEP_END);
}

/// Writes the step in which plugs are put in.
pub(crate) fn draw_in_step<W: Sink>(sink: &mut W, page: &Page<'_>)
    ensures { Draws W.taken W.has_failed sink.old sink.new (in_step page.now) }
{
    if has_cables(page.after(), &CABLES) {
        draw_plugs_in(sink, page, page.count_at(&Step::PlugsIn.spot()));
    } else {
        draw_idle(sink, page.language(), Word::PlugsIn);
    }
}

/// Writes the picture of the plugboard after the settings, and the table of the `count` plugs to put in.
fn draw_plugs_in<W: Sink>(sink: &mut W, page: &Page<'_>, count: u8)
    ensures { Draws W.taken W.has_failed sink.old sink.new (plugs_in page.now count) }
{
    let language = page.language();
    draw_step(sink, page, Word::PlugsIn, count);
    draw_board(sink, language, Plugs::In, page.after(), page.before());
    draw_in_table(sink, page, count);
    draw(sink, BOARD_STEP_END);
}

/// Writes the caption with the meaning of the marks. Then writes the table of the `count` plugs to put in, if there are
/// any.
fn draw_in_table<W: Sink>(sink: &mut W, page: &Page<'_>, count: u8)
    ensures { Draws W.taken W.has_failed sink.old sink.new (in_table page.now count) }
{
    if count == 0 {
        draw_in(sink, page.language(), CAPTION_SAME);
    } else {
        draw_plug_table(sink, page, PLUGS_IN, Step::PlugsIn);
    }
}

/// Writes the table of the plugs to move in `step`. The table begins with `head`.
fn draw_plug_table<W: Sink>(sink: &mut W, page: &Page<'_>, head: Text, step: Step)
    ensures { Draws W.taken W.has_failed sink.old sink.new (plug_table page.now
        (in_language page.now.language head.entry.0.now head.entry.1.now) step) }
{
    draw_in(sink, page.language(), head);
    draw_plug_rows(sink, page, step, &CABLES);
    draw(sink, PLUGS_END);
}

fn draw_plug_rows<W: Sink>(sink: &mut W, page: &Page<'_>, step: Step, numbers: &[u8])
    ensures { Draws W.taken W.has_failed sink.old sink.new
        (flat_map (plug_row page.now step) numbers.now) }
{
    if let [number, rest @ ..] = numbers {
        draw_plug_row(sink, page, step, *number);
        draw_plug_rows(sink, page, step, rest);
    }
}

/// If a plug of the cable moves in `step`, writes the row of the cable.
fn draw_plug_row<W: Sink>(sink: &mut W, page: &Page<'_>, step: Step, number: u8)
    ensures { Draws W.taken W.has_failed sink.old sink.new (plug_row page.now step number) }
{
    let spot = step.row(number);
    if page.count_at(&spot) != 0 {
        let name = Value::Number(u16::from(number));
        fill(sink, page.language(), PLUG_ROW, &[name]);
        draw_boxes(sink, page, &spot);
        draw(sink, ROW_END);
    }
}
