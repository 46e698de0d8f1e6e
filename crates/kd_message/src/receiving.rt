//! The page for receiving a form, in which letters may be lost.
ghost use Rattle.std.specs.Prelude.{◌≡◌, ◌==◌, ◌≤◌, ◌+◌, ◌&&◌, ◌||◌, [], false, flat_map, if◌then◌else◌, is_none};
ghost use Rattle.std.specs.Prelude.{IsErr, length};
ghost use Rattle.std.specs.List.{range_with_len};
ghost use Rattle.kd_tables.specs.{Ports.{port}, WriteFault.{is_device}};
ghost use Rattle.kd_pictures.specs.Drawing.{Draws};
ghost use Rattle.kd_message.specs.ReceivedWork.{AreShowable};
ghost use Rattle.kd_message.specs.ReceivePage.{AreWorkable, HasShowableKeys, IsReceivePageAnswer, as_they_came, by_number};
ghost use Rattle.kd_message.specs.ReceivePage.{has_lone, listed_text, listed_unread, lone_after, lone_in};
ghost use Rattle.kd_message.specs.ReceivePage.{missing_in, missing_part_text, missing_reason, name_at};
ghost use Rattle.kd_message.specs.ReceivePage.{number_in, number_or};
ghost use Rattle.kd_message.specs.ReceivePage.{part_at, part_in, part_text, results_of};
ghost use Rattle.kd_message.specs.ReceivePage.{IsFormNoted, receive_notes, receive_text, section_text, sheet_count};
ghost use Rattle.kd_message.specs.ReceivePage.{sheet_of_text, sheet_to_receive, shown_in, text_or_damage, worked_text};
ghost use Rattle.kd_message.specs.SendPage.{part_name};
ghost use Rattle.kd_lost.specs.ShownParts.{shown_under, times_of, total_of};
ghost use Rattle.kd_lost.specs.Texts.{shown_text};

use crate::clash_words::draw_several_note;
use crate::counted::draw_counted_text;
use crate::lone_parts::{draw_listed_lone, draw_lone_text};
use crate::notes::{draw_lone_note, draw_missing_note, draw_part_note};
use crate::page_options::PageOptions;
use crate::received_work::received_work;
use crate::sending::{draw_listed_part, draw_title, list_head, part_name};
use crate::text_sheet::{
    draw_came, draw_order, draw_passed, draw_read_text, draw_text_part_head, draw_text_sheet_head,
    warnings_of,
};
use crate::texts::{
    ARTICLE_END, CAME_WITHOUT_NUMBER, DID_NOT_COME, LIST_END_WITH_TEXT, LISTED_UNREAD,
    TITLE_TO_RECEIVE,
};
use crate::unread::{draw_damage, draw_missing};
use kd_language::Language;
use kd_lost::{
    DamagedFormFault, DamagedPart, DamagedText, PartNumbers, is_any_read, is_one_message, is_whole,
    read_damaged_form, shown_text, shown_under, times_of, total_of,
};
use kd_part_sheet::markup::SECTION_END;
use kd_part_sheet::part_sheet::{PartName, PartPage, draw_if, draw_part_sheet, note};
use kd_part_sheet::sheet::Sheet;
use kd_pictures::template::{Value, fill_in};
use kd_pictures::texts::FOOT;
use kd_pictures::words::is_converter;
use kd_pictures::{Results, draw, draw_in};
use kd_state::SheetDay;
use kd_tables::{Model, Sink, WriteFault};
use std::alloc::Global;

/// Writes the page that has the text of `form`, and shows how to decipher `form` by hand. The
/// machine is on the day's key. If `options` leave the results open, the page has worksheets, and
/// not the text.
///
/// Writes to `notes` what is wrong with the form, and what to ask for. Returns whether the form is one whole message of
/// the day, with no letter of its text lost.
pub fn write_receive_page<W: Sink, E: Sink>(
    alloc: Global,
    options: PageOptions,
    day: &SheetDay,
    form: &[u8],
    sink: &mut W,
    notes: &mut E,
) -> Result<bool, WriteFault<DamagedFormFault>>
    ensures page { IsReceivePageAnswer options.results options.language day.now form.now
        (port W.taken W.has_failed sink.old sink.new) result }
    ensures untouched { IsErr result → is_device result ≡ false → sink.new ≡ sink.old }
    ensures failed { W.has_failed sink.new ≡ (W.has_failed sink.old || is_device result) }
    ensures noted { IsFormNoted options.language day.now form.now
        (λ text. Draws E.taken E.has_failed notes.old notes.new text) result }
    ensures quiet { IsErr result → is_device result ≡ false → notes.new ≡ notes.old }
{
    let parts = match read_damaged_form(alloc, day, form) {
        Ok(parts) => parts,
        Err(fault) => return Err(WriteFault::Unwritten(fault)),
    };
    draw_page(sink, options, day, parts.as_slice());
    draw_notes(notes, options.language, day, parts.as_slice());
    if sink.failed() {
        Err(WriteFault::Device)
    } else {
        Ok(is_whole(parts.as_slice()))
    }
}

/// A section of the page, or the notes on standard error.
#[derive(Clone, Copy)]
pub(crate) enum Section {
    /// The list of the sheets.
    Listed,
    /// The sheets of the parts that are read.
    Worked(Results),
    /// The texts of the parts.
    Texts(Results),
    /// The notes for standard error.
    Noted,
}

impl Section {
    /// Whether the section shows the results, or leaves them open. `Listed` and `Noted` have no results: there, the
    /// answer is `Shown`.
    fn results(self) -> Results
        ensures { result ≡ results_of self }
    {
        match self {
            Section::Worked(results) | Section::Texts(results) => results,
            Section::Listed | Section::Noted => Results::Shown,
        }
    }
}

/// Writes the page of a form with the parts `parts`.
fn draw_page<W: Sink>(sink: &mut W, options: PageOptions, day: &SheetDay, parts: &[DamagedPart])
    requires few { length parts.now ≤ 255 }
    requires workable { AreWorkable day.now parts.now }
    ensures { Draws W.taken W.has_failed sink.old sink.new
        (receive_text options.results options.language day.now parts.now) }
{
    let PageOptions { language, results } = options;
    draw_title(sink, language, TITLE_TO_RECEIVE, day);
    draw(sink, list_head(language, sheet_count(parts)));
    draw_section(sink, Section::Listed, language, day, parts);
    draw_in(sink, language, LIST_END_WITH_TEXT);
    draw_section(sink, Section::Worked(results), language, day, parts);
    draw_text_sheet_head(sink, language, day);
    draw_passed(sink, language, parts);
    draw_order(sink, language, parts);
    draw_section(sink, Section::Texts(results), language, day, parts);
    draw_if(
        sink,
        is_any_read(parts),
        note(language, sheet_to_receive(day.model()), day.model()),
    );
    draw(sink, ARTICLE_END);
    draw(sink, FOOT);
}

/// The greatest number of sheets that the page can have.
fn sheet_count(parts: &[DamagedPart]) -> u16
    requires { length parts.now ≤ 255 }
    ensures { result ≡ sheet_count parts.now }
{
    u16::from(total_of(parts)).max(parts.len() as u16)
}

/// Writes notes on what is wrong with the form that has the parts `parts`.
fn draw_notes<E: Sink>(notes: &mut E, language: Language, day: &SheetDay, parts: &[DamagedPart])
    requires few { length parts.now ≤ 255 }
    requires workable { AreWorkable day.now parts.now }
    ensures { Draws E.taken E.has_failed notes.old notes.new
        (receive_notes language day.now parts.now) }
{
    draw_several_note(notes, language, parts);
    draw_section(notes, Section::Noted, language, day, parts);
}

/// Writes a section, with the parts in the order of their numbers. If the parts aren't of one message, they come in the
/// order of arrival.
fn draw_section<W: Sink>(
    sink: &mut W,
    section: Section,
    language: Language,
    day: &SheetDay,
    parts: &[DamagedPart],
)
    requires few { length parts.now ≤ 255 }
    requires workable { AreWorkable day.now parts.now }
    ensures { Draws W.taken W.has_failed sink.old sink.new
        (section_text section language day.now parts.now) }
{
    let page = PageSection { section, language };
    if is_one_message(parts) {
        draw_by_number(sink, page, day, parts);
    } else {
        draw_as_they_came(sink, page, day, 1, 0, parts);
    }
}

/// A section of a page, and the language in which it is written.
#[derive(Clone, Copy)]
struct PageSection {
    section: Section,
    language: Language,
}

/// Writes the section's text about the parts of one message, in the order of their numbers.
///
/// First come the unnumbered parts at the beginning of the form. After each numbered part stand the unnumbered parts
/// that came between it and the next numbered part.
fn draw_by_number<W: Sink>(sink: &mut W, page: PageSection, day: &SheetDay, parts: &[DamagedPart])
    requires { AreWorkable day.now parts.now }
    ensures { Draws W.taken W.has_failed sink.old sink.new
        (by_number page.section page.language day.now parts.now) }
{
    draw_lone_after(sink, page, day, 0, 0, parts);
    draw_numbers(sink, page, day, parts, 1, u16::from(total_of(parts)));
}

/// Writes the section's text about the parts with `count` successive numbers, from `number` on.
fn draw_numbers<W: Sink>(
    sink: &mut W,
    page: PageSection,
    day: &SheetDay,
    parts: &[DamagedPart],
    number: u16,
    count: u16,
)
    requires workable { AreWorkable day.now parts.now }
    requires numbers { number + count ≤ 256 }
    ensures { Draws W.taken W.has_failed sink.old sink.new
        (flat_map (number_in page.section page.language day.now parts.now)
        (range_with_len number count)) }
{
    if count > 0 {
        draw_number(sink, page, day, parts, number);
        draw_numbers(sink, page, day, parts, number + 1, count - 1);
    }
}

/// Writes the section's text about the part with `number`, then about the unnumbered parts after this part.
fn draw_number<W: Sink>(
    sink: &mut W,
    page: PageSection,
    day: &SheetDay,
    parts: &[DamagedPart],
    number: u16,
)
    requires workable { AreWorkable day.now parts.now }
    requires number { number ≤ 255 }
    ensures { Draws W.taken W.has_failed sink.old sink.new
        (number_in page.section page.language day.now parts.now number) }
{
    draw_shown(sink, page, day, parts, number);
    draw_lone_after(sink, page, day, number as u8, 0, parts);
}

/// Writes the section's text about the part that is shown under `number`. If no part is shown, writes the section's
/// text about a part that didn't come.
fn draw_shown<W: Sink>(
    sink: &mut W,
    page: PageSection,
    day: &SheetDay,
    parts: &[DamagedPart],
    number: u16,
)
    requires workable { AreWorkable day.now parts.now }
    requires number { number ≤ 255 }
    ensures { Draws W.taken W.has_failed sink.old sink.new
        (shown_in page.section page.language day.now
        (part_name (results_of page.section) day.now number (total_of parts.now))
        (missing_reason page.language parts.now)
        (times_of parts.now number) (shown_under parts.now number)) }
{
    let name = part_name(page.section.results(), day, number as u8, total_of(parts));
    match shown_under(parts, number) {
        Some(part) => {
            let times = times_of(parts, number);
            draw_part(sink, page, day, name, times, part)
        }
        None => draw_missing_in(sink, page, name, missing_reason(page.language, parts)),
    }
}

/// The sentence about a part that didn't come. If some part of the form has no number, this may be the part.
fn missing_reason(language: Language, parts: &[DamagedPart]) -> &'static str
    ensures { result.now ≡ missing_reason language parts.now }
{
    if has_lone(parts) {
        language.text(CAME_WITHOUT_NUMBER)
    } else {
        language.text(DID_NOT_COME)
    }
}

/// Whether one of the parts has no number.
fn has_lone(parts: &[DamagedPart]) -> bool
    ensures { result ≡ has_lone parts.now }
{
    match parts {
        [part, rest @ ..] => part.numbers.is_none() || has_lone(rest),
        [] => false,
    }
}

/// Writes the section's text about the unnumbered parts in `parts` after a part with the number `after`, up to the
/// next numbered part.
///
/// If `after` is 0, about the parts before the first numbered part. `before` is the number of the last numbered part
/// before the list; 0 if there is none.
fn draw_lone_after<W: Sink>(
    sink: &mut W,
    page: PageSection,
    day: &SheetDay,
    after: u8,
    before: u8,
    parts: &[DamagedPart],
)
    ensures { Draws W.taken W.has_failed sink.old sink.new
        (lone_after page.section page.language day.now after before parts.now) }
{
    if let [part, rest @ ..] = parts {
        let is_there = is_lone_after(after, before, &part.numbers);
        draw_lone_if(sink, is_there, page, day, after, part);
        let last = number_or(before, &part.numbers);
        draw_lone_after(sink, page, day, after, last, rest);
    }
}

/// Whether a part has no number, and comes after the part with the number `after`.
///
/// `before` is the number of the last numbered part before it.
fn is_lone_after(after: u8, before: u8, numbers: &Option<PartNumbers>) -> bool
    ensures { result ≡ (is_none numbers.now && before == after) }
{
    match numbers {
        Some(_) => false,
        None => before == after,
    }
}

/// The part number that a heading gives; `before` if the heading is damaged.
fn number_or(before: u8, numbers: &Option<PartNumbers>) -> u8
    ensures { result ≡ number_or before numbers.now }
{
    match numbers {
        Some(numbers) => numbers.part,
        None => before,
    }
}

/// If `is_there` is true, writes the section's text about a part without a number.
///
/// Otherwise writes nothing. `after` is the number of the last numbered part before this part.
fn draw_lone_if<W: Sink>(
    sink: &mut W,
    is_there: bool,
    page: PageSection,
    day: &SheetDay,
    after: u8,
    part: &DamagedPart,
)
    ensures { Draws W.taken W.has_failed sink.old sink.new
        (if is_there then lone_in page.section page.language day.now after part.now else []) }
{
    if is_there {
        draw_lone(sink, page, day, after, part);
    } else {
        draw(sink, "");
    }
}

/// Writes the section's text about a part without a number. `after` is the number of the last numbered part before
/// this part.
fn draw_lone<W: Sink>(
    sink: &mut W,
    page: PageSection,
    day: &SheetDay,
    after: u8,
    part: &DamagedPart,
)
    ensures { Draws W.taken W.has_failed sink.old sink.new
        (lone_in page.section page.language day.now after part.now) }
{
    let PageSection { section, language } = page;
    match section {
        Section::Listed => draw_listed_lone(sink, language, after),
        Section::Worked(_) => draw(sink, ""),
        Section::Texts(_) => draw_lone_text(sink, language, day, after, part),
        Section::Noted => draw_lone_note(sink, language, day.model(), after, part),
    }
}

/// Writes the section's text about `parts`, in the order of arrival. The first of these parts has the place `place` in
/// this order. `before` is the number of the last numbered part before it.
fn draw_as_they_came<W: Sink>(
    sink: &mut W,
    page: PageSection,
    day: &SheetDay,
    place: u16,
    before: u8,
    parts: &[DamagedPart],
)
    requires places { place + length parts.now ≤ 256 }
    requires workable { AreWorkable day.now parts.now }
    ensures { Draws W.taken W.has_failed sink.old sink.new
        (as_they_came page.section page.language day.now place before parts.now) }
{
    if let [part, rest @ ..] = parts {
        draw_part_at(sink, page, day, place, before, part);
        let last = number_or(before, &part.numbers);
        draw_as_they_came(sink, page, day, place + 1, last, rest);
    }
}

/// Writes the section's text about the part that has the place `place` in the order of arrival.
///
/// `before` is the number of the last numbered part before this part.
fn draw_part_at<W: Sink>(
    sink: &mut W,
    page: PageSection,
    day: &SheetDay,
    place: u16,
    before: u8,
    part: &DamagedPart,
)
    requires place { place ≤ 255 }
    requires workable { HasShowableKeys day.now part.now }
    ensures { Draws W.taken W.has_failed sink.old sink.new
        (part_at page.section page.language day.now place before part.now.numbers part.now) }
{
    match &part.numbers {
        Some(numbers) => {
            let name = name_at(page.section.results(), day, place as u8, numbers);
            draw_part(sink, page, day, name, 1, part)
        }
        None => draw_lone(sink, page, day, before, part),
    }
}

fn name_at(results: Results, day: &SheetDay, place: u8, numbers: &PartNumbers) -> PartName
    ensures { result ≡ name_at results day.now place numbers.now }
{
    PartName {
        model: day.model(),
        day: day.day(),
        sheet: u16::from(place),
        part: numbers.part,
        parts: numbers.parts,
        results,
    }
}

/// Writes the section's text about a part that came `times` times.
fn draw_part<W: Sink>(
    sink: &mut W,
    page: PageSection,
    day: &SheetDay,
    name: PartName,
    times: usize,
    part: &DamagedPart,
)
    requires { HasShowableKeys day.now part.now }
    ensures { Draws W.taken W.has_failed sink.old sink.new
        (part_in page.section page.language day.now name times part.now) }
{
    let PageSection { section, language } = page;
    match section {
        Section::Listed => draw_listed(sink, language, name, part),
        Section::Worked(_) => draw_worked(sink, language, day, name, part),
        Section::Texts(_) => draw_part_text(sink, language, day, name, times, part),
        Section::Noted => draw_part_note(sink, language, name, part),
    }
}

/// Writes a part's line in the list of the sheets.
fn draw_listed<W: Sink>(sink: &mut W, language: Language, name: PartName, part: &DamagedPart)
    ensures { Draws W.taken W.has_failed sink.old sink.new
        (listed_text language name (shown_text part.now)) }
{
    match shown_text(part) {
        Some(_) => draw_listed_part(sink, language, name.sheet, name.part, name.parts),
        None => draw_listed_unread(sink, language, name),
    }
}

/// Writes the line for a part that isn't read, in the list of the sheets.
fn draw_listed_unread<W: Sink>(sink: &mut W, language: Language, name: PartName)
    ensures { Draws W.taken W.has_failed sink.old sink.new (listed_unread language name) }
{
    fill_in(
        sink,
        language,
        LISTED_UNREAD,
        &[
            Value::Number(u16::from(name.part)),
            Value::Number(u16::from(name.parts)),
        ],
    );
}

/// If a part has a text, or else a text by count, writes the sheet for this part.
fn draw_worked<W: Sink>(
    sink: &mut W,
    language: Language,
    day: &SheetDay,
    name: PartName,
    part: &DamagedPart,
)
    requires { HasShowableKeys day.now part.now }
    ensures { Draws W.taken W.has_failed sink.old sink.new
        (worked_text language day.now name (shown_text part.now)) }
{
    match shown_text(part) {
        Some(shown) => draw_sheet_of_text(sink, language, day, name, shown),
        None => draw(sink, ""),
    }
}

/// Writes the sheet for a part with the text `shown`.
fn draw_sheet_of_text<W: Sink>(
    sink: &mut W,
    language: Language,
    day: &SheetDay,
    name: PartName,
    shown: &DamagedText,
)
    requires { AreShowable day.now shown.now.keys }
    ensures { Draws W.taken W.has_failed sink.old sink.new
        (sheet_of_text language day.now name shown.now) }
{
    draw_part_sheet(
        sink,
        PartPage {
            language,
            sheet: sheet_to_receive(day.model()),
            name,
        },
        day,
        warnings_of(shown),
        &received_work(day, shown),
    );
}

fn sheet_to_receive(model: Model) -> Sheet
    ensures { result ≡ sheet_to_receive model }
{
    if is_converter(model) {
        Sheet::PinReceive
    } else {
        Sheet::RotorReceive
    }
}

/// Writes the section on a part's text: its head, how often the part came, and the text or the reason why the part
/// isn't read.
fn draw_part_text<W: Sink>(
    sink: &mut W,
    language: Language,
    day: &SheetDay,
    name: PartName,
    times: usize,
    part: &DamagedPart,
)
    ensures { Draws W.taken W.has_failed sink.old sink.new
        (part_text language day.now name times part.now) }
{
    draw_text_part_head(sink, language, name);
    draw_came(sink, language, times);
    draw_text_or_damage(sink, language, day, name, part);
    draw(sink, SECTION_END);
}

fn draw_text_or_damage<W: Sink>(
    sink: &mut W,
    language: Language,
    day: &SheetDay,
    name: PartName,
    part: &DamagedPart,
)
    ensures { Draws W.taken W.has_failed sink.old sink.new
        (text_or_damage language day.now name part.now part.now.text) }
{
    let page = PartPage {
        language,
        sheet: sheet_to_receive(day.model()),
        name,
    };
    match (&part.text, &part.by_count) {
        (Ok(shown), _) => draw_read_text(sink, page, day, shown),
        (Err(damage), Some(shown)) => draw_counted_text(sink, page, day, part, *damage, shown),
        (Err(damage), None) => draw_damage(sink, page, part, *damage),
    }
}

/// Writes the section's text about a part that didn't come. `reason` is the sentence that says so.
fn draw_missing_in<W: Sink>(sink: &mut W, page: PageSection, name: PartName, reason: &str)
    ensures { Draws W.taken W.has_failed sink.old sink.new
        (missing_in page.section page.language name reason.now) }
{
    let PageSection { section, language } = page;
    match section {
        Section::Listed => draw_listed_unread(sink, language, name),
        Section::Worked(_) => draw(sink, ""),
        Section::Texts(_) => draw_missing_text(sink, language, name, reason),
        Section::Noted => draw_missing_note(sink, language, name, reason),
    }
}

fn draw_missing_text<W: Sink>(sink: &mut W, language: Language, name: PartName, reason: &str)
    ensures { Draws W.taken W.has_failed sink.old sink.new
        (missing_part_text language name reason.now) }
{
    draw_text_part_head(sink, language, name);
    draw_missing(sink, language, name, reason);
    draw(sink, SECTION_END);
}
