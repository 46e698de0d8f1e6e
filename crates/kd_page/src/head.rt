//! The head and the foot of a file with the pages of one or more days.
ghost use Rattle.std.specs.Prelude.{◌≡◌, ◌∷◌, ◌++◌, flat_map};
ghost use Rattle.kd_pictures.specs.Drawing.{Draws};
ghost use Rattle.kd_page.specs.Head.{day_title, days_title, head_text, last_of, list_of_days, listed_text};
ghost use Rattle.kd_page.specs.Head.{nav_text, title_text};
ghost use Rattle.kd_pictures.specs.declared.texts.TheConstants.{FOOT as FOOT_TEXT};

use kd_language::Language;
use kd_pictures::file_head::draw_file_head;
use kd_pictures::sheet_name::draw_sheet_name;
use kd_pictures::template::{Value, fill_in};
use kd_pictures::texts::{
    BODY, FOOT, NAV, NAV_DAY, NAV_END, NAV_LIST, STYLE, TITLE_DAY, TITLE_DAYS,
};
use kd_pictures::{draw, draw_in};
use kd_tables::{Model, Sink};

/// A day in the list of days, with its number of settings.
#[derive(Clone, Copy, Default)]
pub struct ListedDay {
    pub day: u8,
    pub settings: u8,
}

/// The days whose pages are in a file, with the words of the file's title.
#[derive(Clone, Copy)]
pub struct FileDays<'a> {
    pub language: Language,
    pub model: Model,
    /// The name of the key sheet's file.
    pub sheet: &'a str,
    pub first: ListedDay,
    /// The days after `first`.
    pub others: &'a [ListedDay],
}

/// Writes the head of a file with the pages of the days `days`.
pub fn draw_head<W: Sink>(sink: &mut W, days: &FileDays<'_>)
    ensures { Draws W.taken W.has_failed sink.old sink.new
        (head_text days.now.language days.now.model days.now.sheet.now days.now.first
        days.now.others.now) }
{
    draw_file_head(sink, days.language);
    draw_title(sink, days);
    draw(sink, STYLE);
    draw(sink, BODY);
    draw_nav(sink, days);
}

/// Writes the end of the file.
pub fn draw_foot<W: Sink>(sink: &mut W)
    ensures { Draws W.taken W.has_failed sink.old sink.new FOOT_TEXT.now }
{
    draw(sink, FOOT);
}

/// Writes the title of a day: the model, the day, and the name of the key sheet.
pub(crate) fn draw_day_title<W: Sink>(
    sink: &mut W,
    language: Language,
    model: Model,
    sheet: &str,
    day: u8,
)
    ensures { Draws W.taken W.has_failed sink.old sink.new (day_title language model sheet.now day) }
{
    let number = Value::Number(u16::from(day));
    fill_in(sink, language, TITLE_DAY, &[Value::Model(model), number]);
    draw_sheet_name(sink, sheet);
}

fn draw_title<W: Sink>(sink: &mut W, days: &FileDays<'_>)
    ensures { Draws W.taken W.has_failed sink.old sink.new
        (title_text days.now.language days.now.model days.now.sheet.now days.now.first
        days.now.others.now) }
{
    if let [next, rest @ ..] = days.others {
        draw_days_title(sink, days, last_of(*next, rest).day);
    } else {
        draw_day_title(sink, days.language, days.model, days.sheet, days.first.day);
    }
}

/// Writes the title of several days: the model, the first day, the day `last`, and the name of the key sheet.
fn draw_days_title<W: Sink>(sink: &mut W, days: &FileDays<'_>, last: u8)
    ensures { Draws W.taken W.has_failed sink.old sink.new
        (days_title days.now.language days.now.model days.now.sheet.now days.now.first.day last) }
{
    let first = Value::Number(u16::from(days.first.day));
    let last = Value::Number(u16::from(last));
    fill_in(
        sink,
        days.language,
        TITLE_DAYS,
        &[Value::Model(days.model), first, last],
    );
    draw_sheet_name(sink, days.sheet);
}

/// The last of the days `others`; `day` if there are no others.
fn last_of(day: ListedDay, others: &[ListedDay]) -> ListedDay
    ensures { result ≡ last_of day others.now }
{
    match others {
        [next, rest @ ..] => last_of(*next, rest),
        [] => day,
    }
}

/// Writes the list of the days. Writes nothing if there is only one day.
fn draw_nav<W: Sink>(sink: &mut W, days: &FileDays<'_>)
    ensures { Draws W.taken W.has_failed sink.old sink.new
        (nav_text days.now.language days.now.model days.now.sheet.now days.now.first
        days.now.others.now) }
{
    if let [_, ..] = days.others {
        draw_list_of_days(sink, days);
    }
}

fn draw_list_of_days<W: Sink>(sink: &mut W, days: &FileDays<'_>)
    ensures { Draws W.taken W.has_failed sink.old sink.new
        (list_of_days days.now.language days.now.model days.now.sheet.now days.now.first
        days.now.others.now) }
{
    draw_in(sink, days.language, NAV);
    draw_title(sink, days);
    draw(sink, NAV_LIST);
    draw_listed(sink, days.language, days.first);
    draw_all_listed(sink, days.language, days.others);
    draw(sink, NAV_END);
}

#[tactic(auto, unfolding(crate::specs::Head::listed_text))]
fn draw_listed<W: Sink>(sink: &mut W, language: Language, day: ListedDay)
    ensures { Draws W.taken W.has_failed sink.old sink.new (listed_text language day) }
{
    let number = Value::Number(u16::from(day.day));
    fill_in(
        sink,
        language,
        NAV_DAY,
        &[
            number,
            Value::Number(u16::from(day.day)),
            Value::Count(day.settings),
        ],
    );
}

fn draw_all_listed<W: Sink>(sink: &mut W, language: Language, days: &[ListedDay])
    ensures { Draws W.taken W.has_failed sink.old sink.new (flat_map (listed_text language) days.now) }
{
    if let [day, rest @ ..] = days {
        draw_listed(sink, language, *day);
        draw_all_listed(sink, language, rest);
    }
}
