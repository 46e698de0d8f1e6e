//! The notes on standard error about a form: what is wrong with its parts, and what to ask for.
ghost use Rattle.std.specs.Prelude.{◌≤◌, length, None, Some};
ghost use Rattle.kd_pictures.specs.Drawing.{Draws};
ghost use Rattle.kd_message.specs.Notes.{damage_note, day_note, lone_ask_note, lone_asked_note, lone_note, lost_line};
ghost use Rattle.kd_message.specs.Notes.{lost_note, missing_note, note_name, other_day_note, part_note, read_note};

use crate::counted::{draw_counted_reason, draw_groups_told};
use crate::groups::{draw_lost_groups, has_lost};
use crate::lone_parts::{draw_lone_reason, draw_lone_words, lone_asked};
use crate::text_sheet::{day_groups, first_text_group};
use crate::texts::{
    ALL_OF_IT, ASKED_END, COLON, LINE_END, NOTE_ASK, NOTE_END, NOTE_LOST, NOTE_OTHER_DAY, NOTE_PART,
};
use crate::unread::{draw_asked, draw_count_asked, draw_reason};
use kd_language::Language;
use kd_lost::{DamagedPart, DamagedText, GroupTest, PartDamage, is_wrong_day};
use kd_part_sheet::part_sheet::PartName;
use kd_pictures::template::{Value, fill_in};
use kd_pictures::{draw, draw_in};
use kd_tables::{Letter, Model, Sink};

/// Writes notes on what is wrong with a part. If nothing is wrong, writes nothing.
pub(crate) fn draw_part_note<W: Sink>(
    sink: &mut W,
    language: Language,
    name: PartName,
    part: &DamagedPart,
)
    ensures { Draws W.taken W.has_failed sink.old sink.new (part_note language name part.now) }
{
    match (&part.text, &part.by_count) {
        (Ok(shown), _) => draw_read_note(sink, language, name, shown),
        (Err(damage), Some(shown)) => {
            draw_counted_note(sink, language, name, part, *damage, shown)
        }
        (Err(damage), None) => draw_unread_note(sink, language, name, part, *damage),
    }
}

/// Writes notes on what is wrong with a part that is read. If nothing is wrong, writes nothing.
fn draw_read_note<W: Sink>(sink: &mut W, language: Language, name: PartName, shown: &DamagedText)
    ensures { Draws W.taken W.has_failed sink.old sink.new (read_note language name shown.now) }
{
    draw_day_note(sink, language, name, shown.group);
    draw_lost_note(sink, language, name, shown.letters.as_slice());
}

fn draw_day_note<W: Sink>(sink: &mut W, language: Language, name: PartName, group: GroupTest)
    ensures { Draws W.taken W.has_failed sink.old sink.new (day_note language name group) }
{
    if is_wrong_day(group) {
        draw_other_day(sink, language, name);
    } else {
        draw(sink, "");
    }
}

/// Writes that the form may be of another day, and what to ask for.
fn draw_other_day<W: Sink>(sink: &mut W, language: Language, name: PartName)
    ensures { Draws W.taken W.has_failed sink.old sink.new (other_day_note language name) }
{
    draw_note_name(sink, language, name);
    draw_in(sink, language, NOTE_OTHER_DAY);
    draw_in(sink, language, NOTE_ASK);
    draw(sink, day_groups(language, name.model));
    draw(sink, NOTE_END);
}

/// Writes the words for a part's number, at the start of a note about the part.
fn draw_note_name<W: Sink>(sink: &mut W, language: Language, name: PartName)
    ensures { Draws W.taken W.has_failed sink.old sink.new
        (note_name language name) }
{
    fill_in(
        sink,
        language,
        NOTE_PART,
        &[
            Value::Number(u16::from(name.part)),
            Value::Number(u16::from(name.parts)),
        ],
    );
}

fn draw_lost_note<W: Sink>(
    sink: &mut W,
    language: Language,
    name: PartName,
    letters: &[Option<Letter>],
)
    requires { length letters.now ≤ 500 }
    ensures { Draws W.taken W.has_failed sink.old sink.new (lost_note language name letters.now) }
{
    if has_lost(letters) {
        draw_lost_line(sink, language, name, letters);
    } else {
        draw(sink, "");
    }
}

fn draw_lost_line<W: Sink>(
    sink: &mut W,
    language: Language,
    name: PartName,
    letters: &[Option<Letter>],
)
    requires { length letters.now ≤ 500 }
    ensures { Draws W.taken W.has_failed sink.old sink.new (lost_line language name letters.now) }
{
    draw_note_name(sink, language, name);
    draw_in(sink, language, NOTE_LOST);
    draw_in(sink, language, NOTE_ASK);
    let first = first_text_group(name.model);
    draw_lost_groups(sink, language, "", false, first, letters);
    draw(sink, NOTE_END);
}

/// Writes the notes on a part that is read by its number of received letters. The first note says that the part's
/// letter count is wrong or damaged. Then come the notes on the part's text.
fn draw_counted_note<W: Sink>(
    sink: &mut W,
    language: Language,
    name: PartName,
    part: &DamagedPart,
    damage: PartDamage,
    shown: &DamagedText,
)
    ensures { Draws W.taken W.has_failed sink.old sink.new
        (damage_note language name part.now damage (Some shown.now)) }
{
    draw_note_name(sink, language, name);
    draw_counted_reason(sink, language, part, damage);
    draw_groups_told(sink, language, part.came, part.short_group);
    draw_in(sink, language, NOTE_ASK);
    draw_count_asked(sink, language, damage, part.short_group);
    draw(sink, NOTE_END);
    draw_read_note(sink, language, name, shown);
}

/// Writes the notes on a part that isn't read: whether it is of another day, and why it isn't read.
fn draw_unread_note<W: Sink>(
    sink: &mut W,
    language: Language,
    name: PartName,
    part: &DamagedPart,
    damage: PartDamage,
)
    ensures { Draws W.taken W.has_failed sink.old sink.new
        (damage_note language name part.now damage None) }
{
    draw_day_note(sink, language, name, part.group);
    draw_note_name(sink, language, name);
    draw_reason(sink, language, part, damage);
    draw_in(sink, language, NOTE_ASK);
    draw_asked(sink, language, part, damage);
    draw(sink, NOTE_END);
}

/// Writes the note on a part that didn't come. `reason` is the sentence that says so.
pub(crate) fn draw_missing_note<W: Sink>(
    sink: &mut W,
    language: Language,
    name: PartName,
    reason: &str,
)
    ensures { Draws W.taken W.has_failed sink.old sink.new (missing_note language name reason.now) }
{
    draw_note_name(sink, language, name);
    draw(sink, reason);
    draw_in(sink, language, NOTE_ASK);
    draw_in(sink, language, ALL_OF_IT);
    draw(sink, NOTE_END);
}

/// Writes the note on a part without a number: why it isn't read. `after` is the number of the last numbered part
/// before it.
pub(crate) fn draw_lone_note<W: Sink>(
    sink: &mut W,
    language: Language,
    model: Model,
    after: u8,
    part: &DamagedPart,
)
    ensures { Draws W.taken W.has_failed sink.old sink.new (lone_note language model after part.now) }
{
    draw_lone_words(sink, language, after);
    draw(sink, COLON);
    draw_lone_reason(sink, language, model, part);
    draw_lone_ask_note(sink, language, part);
    draw(sink, LINE_END);
}

fn draw_lone_ask_note<W: Sink>(sink: &mut W, language: Language, part: &DamagedPart)
    ensures { Draws W.taken W.has_failed sink.old sink.new (lone_ask_note language part.now) }
{
    if part.is_order {
        draw(sink, "");
    } else {
        draw_lone_asked(sink, language, part.came);
    }
}

fn draw_lone_asked<W: Sink>(sink: &mut W, language: Language, came: usize)
    ensures { Draws W.taken W.has_failed sink.old sink.new
        (lone_asked_note language came) }
{
    draw_in(sink, language, NOTE_ASK);
    draw(sink, lone_asked(language, came));
    draw(sink, ASKED_END);
}
