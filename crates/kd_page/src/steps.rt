//! The title of a page, the heads of its steps, and lists of checkboxes.
ghost use Rattle.std.specs.Prelude.{◌≡◌, ◌++◌};
ghost use Rattle.kd_pictures.specs.Drawing.{Draws};
ghost use Rattle.kd_page.specs.Steps.{full_step_text, idle_text, list_text, page_title, plain_step_text};
ghost use Rattle.kd_page.specs.Steps.{step_text, titled_text};

use crate::boxes::draw_boxes;
use crate::head::draw_day_title;
use crate::page::Page;
use crate::spots::Step;
use kd_language::Language;
use kd_pictures::draw;
use kd_pictures::template::{Value, fill};
use kd_pictures::texts::{IDLE_STEP, LIST, LIST_END, PLAIN_STEP, STEP, STEP_TITLED};
use kd_pictures::words::Word;
use kd_tables::Sink;

pub(crate) fn draw_page_title<W: Sink>(sink: &mut W, page: &Page<'_>)
    ensures { Draws W.taken W.has_failed sink.old sink.new (page_title page.now) }
{
    draw_day_title(
        sink,
        page.language(),
        page.model(),
        page.sheet(),
        page.day(),
    );
}

/// Writes the title of the page in the head of a step. The title is repeated there, since printed sheets of paper may
/// come apart.
fn draw_titled<W: Sink>(sink: &mut W, page: &Page<'_>)
    ensures { Draws W.taken W.has_failed sink.old sink.new (titled_text page.now) }
{
    draw_page_title(sink, page);
    draw(sink, STEP_TITLED);
}

/// Writes the head of a step with `count` settings.
pub(crate) fn draw_step<W: Sink>(sink: &mut W, page: &Page<'_>, title: Word, count: u8)
    ensures { Draws W.taken W.has_failed sink.old sink.new (step_text page.now title count) }
{
    let language = page.language();
    fill(
        sink,
        language,
        STEP,
        &[Value::Word(title), Value::Count(count)],
    );
    draw_titled(sink, page);
}

/// Writes a step without settings, which has only a head.
pub(crate) fn draw_idle<W: Sink>(sink: &mut W, language: Language, title: Word)
    ensures { Draws W.taken W.has_failed sink.old sink.new (idle_text language title) }
{
    fill(
        sink,
        language,
        IDLE_STEP,
        &[Value::Word(title), Value::Count(0)],
    );
}

/// Writes a step's head without the number of settings.
pub(crate) fn draw_plain_step<W: Sink>(sink: &mut W, page: &Page<'_>, title: Word)
    ensures { Draws W.taken W.has_failed sink.old sink.new (plain_step_text page.now title) }
{
    fill(sink, page.language(), PLAIN_STEP, &[Value::Word(title)]);
    draw_titled(sink, page);
}

/// Writes the head of a step that sets windows or letters. The step may have more checkboxes than settings. `count` is
/// the number of settings, and the head gives it if it isn't 0.
pub(crate) fn draw_full_step<W: Sink>(sink: &mut W, page: &Page<'_>, title: Word, count: u8)
    ensures { Draws W.taken W.has_failed sink.old sink.new (full_step_text page.now title count) }
{
    if count == 0 {
        draw_plain_step(sink, page, title);
    } else {
        draw_step(sink, page, title, count);
    }
}

/// Writes the list of the checkboxes of `step`, and the step's end.
pub(crate) fn draw_list<W: Sink>(sink: &mut W, page: &Page<'_>, step: Step)
    ensures { Draws W.taken W.has_failed sink.old sink.new (list_text page.now step) }
{
    draw(sink, LIST);
    draw_boxes(sink, page, &step.spot());
    draw(sink, LIST_END);
}
