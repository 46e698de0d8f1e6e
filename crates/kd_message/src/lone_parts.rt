//! How the page shows a part without a number. Either the part's heading is damaged, or the part is an order in place
//! of a form. Such a part isn't read.
ghost use Rattle.std.specs.Prelude.{◌≡◌};
ghost use Rattle.kd_pictures.specs.Drawing.{Draws};
ghost use Rattle.kd_message.specs.LoneParts.{damaged_heading, heading_example, listed_lone, lone_ask, lone_asked};
ghost use Rattle.kd_message.specs.LoneParts.{lone_box, lone_reason, lone_text, lone_words};

use crate::texts::{
    ALL_OF_IT, ASK_END, FOUR_LETTER_HEADING, HEADING_CAME, HEADING_DAMAGED, HEADING_LIKE,
    HEADING_LIKE_END, HEADING_WITHOUT_KEYS, IS_ORDER, ITS_HEADING, LISTED_LONE, LISTED_LONE_END,
    LONE_AFTER, LONE_ASK, LONE_FIRST, LONE_HEAD, LONE_HEAD_END, REASON_END, THREE_LETTER_HEADING,
    UNREAD,
};
use crate::unread::draw_heading_fault;
use kd_language::Language;
use kd_lost::DamagedPart;
use kd_part_sheet::markup::SECTION_END;
use kd_pictures::template::{Value, fill_in};
use kd_pictures::{draw, draw_in};
use kd_state::SheetDay;
use kd_tables::{Model, Sink};

/// Writes where a part without a number stands: after the part with the number `after`. If `after` is 0, the part
/// stands before all numbered parts.
pub(crate) fn draw_lone_words<W: Sink>(sink: &mut W, language: Language, after: u8)
    ensures { Draws W.taken W.has_failed sink.old sink.new (lone_words language after) }
{
    if after == 0 {
        draw_in(sink, language, LONE_FIRST);
    } else {
        fill_in(
            sink,
            language,
            LONE_AFTER,
            &[Value::Number(u16::from(after))],
        );
    }
}

/// Writes the line for a part without a number in the list of the sheets.
pub(crate) fn draw_listed_lone<W: Sink>(sink: &mut W, language: Language, after: u8)
    ensures { Draws W.taken W.has_failed sink.old sink.new (listed_lone language after) }
{
    draw(sink, LISTED_LONE);
    draw_lone_words(sink, language, after);
    draw_in(sink, language, LISTED_LONE_END);
}

/// Writes the section on a part without a number: why it isn't read, and what to ask for.
pub(crate) fn draw_lone_text<W: Sink>(
    sink: &mut W,
    language: Language,
    day: &SheetDay,
    after: u8,
    part: &DamagedPart,
)
    ensures { Draws W.taken W.has_failed sink.old sink.new
        (lone_text language day.now after part.now) }
{
    draw(sink, LONE_HEAD);
    draw_lone_words(sink, language, after);
    fill_in(
        sink,
        language,
        LONE_HEAD_END,
        &[
            Value::Model(day.model()),
            Value::Number(u16::from(day.day())),
        ],
    );
    draw_in(sink, language, UNREAD);
    draw_lone_reason(sink, language, day.model(), part);
    draw(sink, REASON_END);
    draw_lone_ask(sink, language, part);
    draw(sink, SECTION_END);
}

/// Writes why a part without a number isn't read: the part is an order, or its heading is damaged.
pub(crate) fn draw_lone_reason<W: Sink>(
    sink: &mut W,
    language: Language,
    model: Model,
    part: &DamagedPart,
)
    ensures { Draws W.taken W.has_failed sink.old sink.new
        (lone_reason language model part.now) }
{
    if part.is_order {
        draw_in(sink, language, IS_ORDER);
    } else {
        draw_damaged_heading(sink, language, model, part);
    }
}

/// Writes that a heading is damaged, then the received line, and an example of a valid heading.
fn draw_damaged_heading<W: Sink>(sink: &mut W, language: Language, model: Model, part: &DamagedPart)
    ensures { Draws W.taken W.has_failed sink.old sink.new
        (damaged_heading language model part.now) }
{
    draw_heading_fault(sink, language, part.line, language.text(HEADING_DAMAGED));
    draw_in(sink, language, HEADING_CAME);
    draw(sink, part.heading.as_str());
    draw_in(sink, language, HEADING_LIKE);
    draw(sink, heading_example(model));
    draw_in(sink, language, HEADING_LIKE_END);
}

/// An example of a valid heading for `model`.
fn heading_example(model: Model) -> &'static str
    ensures { result.now ≡ heading_example model }
{
    match model {
        Model::EnigmaI | Model::M3 => THREE_LETTER_HEADING,
        Model::M4 => FOUR_LETTER_HEADING,
        Model::M209 => HEADING_WITHOUT_KEYS,
    }
}

/// Writes the checkbox to ask for the heading, or for the whole part. If the part is an order, writes nothing.
fn draw_lone_ask<W: Sink>(sink: &mut W, language: Language, part: &DamagedPart)
    ensures { Draws W.taken W.has_failed sink.old sink.new (lone_ask language part.now) }
{
    if part.is_order {
        draw(sink, "");
    } else {
        draw_lone_box(sink, language, part.came);
    }
}

/// Writes the checkbox to ask for the heading. If no letter of the body came (`came` is 0), the checkbox asks for the
/// whole part.
fn draw_lone_box<W: Sink>(sink: &mut W, language: Language, came: usize)
    ensures { Draws W.taken W.has_failed sink.old sink.new (lone_box language came) }
{
    draw_in(sink, language, LONE_ASK);
    draw(sink, lone_asked(language, came));
    draw(sink, ASK_END);
}

/// What to ask for, in words. If no letter of the body came (`came` is 0), it is the whole part. Otherwise, it is the
/// heading.
pub(crate) fn lone_asked(language: Language, came: usize) -> &'static str
    ensures { result.now ≡ lone_asked language came }
{
    if came == 0 {
        language.text(ALL_OF_IT)
    } else {
        language.text(ITS_HEADING)
    }
}
