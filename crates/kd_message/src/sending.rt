//! The page for sending an order.
ghost use Rattle.std.specs.Prelude.{◌≡◌, ◌+◌, ◌≤◌, ◌++◌, ◌||◌, ℕ, List, [], false, flat_map, length};
ghost use Rattle.std.specs.Prelude.{IsErr, MatchOption, Ok};
ghost use Rattle.std.specs.List.{range_with_len};
ghost use Rattle.kd_tables.specs.{Ports.{port}, WriteFault.{is_device}};
ghost use Rattle.kd_form.specs.Keys.{AreKeys};
ghost use Rattle.kd_form.specs.Part.{Part};
ghost use Rattle.kd_form.specs.Sending.{IsFormOf};
ghost use Rattle.kd_form.specs.PartMaking.{IsKeysAnswer, IsPartMade, part_size};
ghost use Rattle.kd_pictures.specs.Drawing.{Draws};
ghost use Rattle.kd_language.specs.Language.{in_language};
ghost use Rattle.kd_part_sheet.specs.PartWork.{Work};
ghost use Rattle.kd_message.specs.FormSheet.{form_part};
ghost use Rattle.kd_message.specs.SendPage.{AreKeysOfText, AreMade, AreOrderSheets, AreWorks, HasForm};
ghost use Rattle.kd_message.specs.SendPage.{IsNextPart, IsSendPage};
ghost use Rattle.kd_message.specs.SendPage.{IsSendPageAnswer, form_parts, list_head, list_text, listed_sheet};
ghost use Rattle.kd_message.specs.SendPage.{listed_text, name_in_place, part_name, part_sheets, sheet_number};
ghost use Rattle.kd_message.specs.SendPage.{sheet_to_send, sheets_text, text_pieces, title_text};

use crate::form_sheet::{draw_form_head, draw_form_number, draw_form_part};
use crate::order::{read_head, take_piece};
use crate::page_options::PageOptions;
use crate::texts::{
    ARTICLE_END, LIST_END_WITH_FORM, LIST_OF_ONE, LIST_OF_SEVERAL, LISTED_FORM, LISTED_PART,
    TITLE_TO_SEND,
};
use arrayvec::ArrayVec;
use kd_form::day_machine::DayMachine;
use kd_form::keys::Keys;
use kd_form::sending::order_head::HeadReader;
use kd_form::sending::part::{indicator_of, pin_letters, rotor_letters};
use kd_form::{FormFault, send};
use kd_language::{Language, Text};
use kd_part_sheet::part_sheet::{PartName, PartPage, Warnings, draw_part_sheet};
use kd_part_sheet::part_work::work_of;
use kd_part_sheet::sheet::Sheet;
use kd_pictures::file_head::draw_file_head;
use kd_pictures::template::{Value, fill_in};
use kd_pictures::texts::{BODY, FOOT, MORE_STYLE, STYLE};
use kd_pictures::words::is_converter;
use kd_pictures::{Results, draw, draw_in};
use kd_state::{Machine, SheetDay};
use kd_tables::{Letter, Model, Sink, WriteFault};
use std::alloc::Global;

/// Writes the page that shows how to encipher `order` by hand on `machine`. The machine must be on
/// the day's key. If `options` leave the results open, the page has worksheets.
///
/// The fault is `Device`, or one that `send` can return for this order.
pub fn write_send_page<W: Sink>(
    alloc: Global,
    options: PageOptions,
    machine: &Machine,
    day: &SheetDay,
    order: &[u8],
    sink: &mut W,
) -> Result<(), WriteFault<FormFault>>
    ensures page { IsSendPageAnswer options.results options.language machine.now day.now order.now
        (port W.taken W.has_failed sink.old sink.new) result }
    ensures untouched { IsErr result → is_device result ≡ false → sink.new ≡ sink.old }
    ensures failed { W.has_failed sink.new ≡ (W.has_failed sink.old || is_device result) }
{
    if let Err(fault) = send(alloc, machine, day, order) {
        return Err(WriteFault::Unwritten(fault));
    }
    draw_page(sink, options, day, order);
    if sink.failed() {
        Err(WriteFault::Device)
    } else {
        Ok(())
    }
}

/// Writes the page of an order that `send` accepts.
fn draw_page<W: Sink>(sink: &mut W, options: PageOptions, day: &SheetDay, order: &[u8])
    requires { HasForm day.now order.now }
    ensures { (form : List ℕ) → IsFormOf day.now order.now form
        → (page : List ℕ)
        × IsSendPage options.results options.language day.now order.now form page
        × Draws W.taken W.has_failed sink.old sink.new page }
{
    draw_title(sink, options.language, TITLE_TO_SEND, day);
    draw_sheets_of(sink, options, day, None, order);
    draw(sink, FOOT);
}

/// Writes the sheets of an order that `send` accepts.
///
/// `place` is the order's number in a file of several orders, and `None` in a file of one order.
pub(crate) fn draw_sheets_of<W: Sink>(
    sink: &mut W,
    options: PageOptions,
    day: &SheetDay,
    place: Option<u8>,
    order: &[u8],
)
    requires { HasForm day.now order.now }
    ensures { (form : List ℕ) → IsFormOf day.now order.now form
        → (sheets : List ℕ)
        × AreOrderSheets options.results options.language day.now place order.now form sheets
        × Draws W.taken W.has_failed sink.old sink.new sheets }
{
    let mut reader = HeadReader::new();
    let text = read_head(&mut reader, day, order);
    draw_sheets(sink, options, day, place, reader.keys(), text);
}

/// Writes the sheets of an order that has the keys `keys` and the text `text`.
fn draw_sheets<W: Sink>(
    sink: &mut W,
    options: PageOptions,
    day: &SheetDay,
    place: Option<u8>,
    keys: &[Keys],
    text: &[u8],
)
    requires { AreKeysOfText day.now 1 (length keys.now) keys.now text.now }
    ensures { (works : List Work) × (made : List Part)
        × AreWorks day.now keys.now (text_pieces day.now text.now) works
        × AreMade day.now 1 (length keys.now) keys.now (text_pieces day.now text.now) made
        × Draws W.taken W.has_failed sink.old sink.new
        (sheets_text options.results options.language day.now place (length keys.now) works made) }
{
    let parts = keys.len() as u8;
    let left = PartsLeft {
        part: 1,
        parts,
        keys,
        text,
    };
    draw_list(sink, options.language, place, parts);
    draw_part_sheets(sink, options, day, place, left);
    draw_form_head(sink, options.language, place, day);
    draw_form_parts(sink, options, day, left);
    draw(sink, ARTICLE_END);
}

/// The parts of an order that aren't written yet.
#[derive(Clone, Copy)]
struct PartsLeft<'a> {
    /// The number of the first part that isn't written yet.
    part: u8,
    /// How many parts the message has.
    parts: u8,
    /// The keys of the parts that aren't written yet.
    keys: &'a [Keys],
    /// The text of the parts that aren't written yet.
    text: &'a [u8],
}

/// Writes the head of the file; `title` is the template of its title.
pub(crate) fn draw_title<W: Sink>(sink: &mut W, language: Language, title: Text, day: &SheetDay)
    ensures { Draws W.taken W.has_failed sink.old sink.new
        (title_text language (in_language language title.entry.0.now title.entry.1.now) day.now) }
{
    draw_file_head(sink, language);
    fill_in(
        sink,
        language,
        title,
        &[
            Value::Model(day.model()),
            Value::Number(u16::from(day.day())),
        ],
    );
    draw(sink, STYLE);
    draw(sink, MORE_STYLE);
    draw(sink, BODY);
}

/// Writes the list of the sheets.
fn draw_list<W: Sink>(sink: &mut W, language: Language, place: Option<u8>, parts: u8)
    requires { parts ≤ 99 }
    ensures { Draws W.taken W.has_failed sink.old sink.new (list_text language place parts) }
{
    draw(sink, list_head(language, u16::from(parts)));
    draw_listed(sink, language, place, 1, parts, parts);
    draw(sink, LISTED_FORM);
    draw_form_number(sink, language, place);
    draw_in(sink, language, LIST_END_WITH_FORM);
}

/// The head of the list of the sheets, for a message with `parts` parts.
pub(crate) fn list_head(language: Language, parts: u16) -> &'static str
    ensures { result.now ≡ list_head language parts }
{
    if parts == 1 {
        language.text(LIST_OF_ONE)
    } else {
        language.text(LIST_OF_SEVERAL)
    }
}

/// Writes `count` lines of the list of the sheets: for the parts from number `part` on.
fn draw_listed<W: Sink>(
    sink: &mut W,
    language: Language,
    place: Option<u8>,
    part: u8,
    parts: u8,
    count: u8,
)
    requires { part + count ≤ 100 }
    ensures { Draws W.taken W.has_failed sink.old sink.new
        (flat_map (listed_text language place parts) (range_with_len part count)) }
{
    if count > 0 {
        draw_listed_part(sink, language, sheet_number(place, part), part, parts);
        draw_listed(sink, language, place, part + 1, parts, count - 1);
    }
}

/// The number by which links find a part's sheet.
///
/// An order has at most 99 parts, so no two sheets in a file have the same number.
fn sheet_number(place: Option<u8>, part: u8) -> u16
    ensures { result ≡ sheet_number place part }
{
    match place {
        Some(number) => u16::from(number) * 100 + u16::from(part),
        None => u16::from(part),
    }
}

/// Writes a part in the list of the sheets, with a link to its sheet.
pub(crate) fn draw_listed_part<W: Sink>(
    sink: &mut W,
    language: Language,
    sheet: u16,
    part: u8,
    parts: u8,
)
    ensures { Draws W.taken W.has_failed sink.old sink.new
        (listed_sheet language sheet part parts) }
{
    fill_in(
        sink,
        language,
        LISTED_PART,
        &[
            Value::Number(sheet),
            Value::Number(u16::from(part)),
            Value::Number(u16::from(parts)),
        ],
    );
}

/// Writes the sheets of the parts that aren't written yet.
fn draw_part_sheets<W: Sink>(
    sink: &mut W,
    options: PageOptions,
    day: &SheetDay,
    place: Option<u8>,
    left: PartsLeft<'_>,
)
    requires { AreKeysOfText day.now left.part left.parts left.keys.now left.text.now }
    ensures { (works : List Work)
        × AreWorks day.now left.entry.keys.now (text_pieces day.now left.entry.text.now) works
        × Draws W.taken W.has_failed sink.old sink.new
        (part_sheets options.results options.language day.now place
        left.entry.part left.entry.parts works) }
{
    if let Some((keys, piece, later)) = take_part(day, left) {
        let work = work_of(day, left.part, keys, piece.as_slice());
        draw_part_sheet(
            sink,
            PartPage {
                language: options.language,
                sheet: sheet_to_send(day.model()),
                name: name_in_place(options.results, day, place, left.part, left.parts),
            },
            day,
            NO_WARNINGS,
            &work,
        );
        draw_part_sheets(sink, options, day, place, later);
    }
}

/// The next part: its keys, its letters, and the parts after it. `None` if no part is left.
fn take_part<'a>(
    day: &SheetDay,
    left: PartsLeft<'a>,
) -> Option<(&'a Keys, ArrayVec<Letter, 500>, PartsLeft<'a>)>
    requires { AreKeysOfText day.now left.part left.parts left.keys.now left.text.now }
    ensures { MatchOption result
        ((left.entry.keys.now ≡ []) × (text_pieces day.now left.entry.text.now ≡ []))
        (λ next. IsNextPart day.now left.entry.part left.entry.parts left.entry.keys.now
        left.entry.text.now next.0.now next.1.items next.2.keys.now next.2.text.now
        × (next.2.part ≡ left.entry.part + 1) × (next.2.parts ≡ left.entry.parts)) }
{
    let [keys, rest @ ..] = left.keys else {
        return None;
    };
    let (piece, text) = take_piece(day, left.text);
    let later = PartsLeft {
        part: left.part + 1,
        parts: left.parts,
        keys: rest,
        text,
    };
    Some((keys, piece, later))
}

/// No warnings: a part to send has none.
const NO_WARNINGS: Warnings = Warnings {
    letters_lost: false,
    copies_lost: false,
    wrong_day: false,
    not_tested: false,
};

fn sheet_to_send(model: Model) -> Sheet
    ensures { result ≡ sheet_to_send model }
{
    if is_converter(model) {
        Sheet::PinSend
    } else {
        Sheet::RotorSend
    }
}

pub(crate) fn part_name(results: Results, day: &SheetDay, part: u8, parts: u8) -> PartName
    ensures { result ≡ part_name results day.now part parts }
{
    PartName {
        model: day.model(),
        day: day.day(),
        sheet: u16::from(part),
        part,
        parts,
        results,
    }
}

/// The values in the head of a part's sheet. `place` is the order's number in a file of several orders.
fn name_in_place(
    results: Results,
    day: &SheetDay,
    place: Option<u8>,
    part: u8,
    parts: u8,
) -> PartName
    ensures { result ≡ name_in_place results day.now place part parts }
{
    PartName {
        sheet: sheet_number(place, part),
        ..part_name(results, day, part, parts)
    }
}

/// Writes the parts of the form that aren't written yet.
fn draw_form_parts<W: Sink>(sink: &mut W, options: PageOptions, day: &SheetDay, left: PartsLeft<'_>)
    requires { AreKeysOfText day.now left.part left.parts left.keys.now left.text.now }
    ensures { (made : List Part)
        × AreMade day.now left.entry.part left.entry.parts left.entry.keys.now
        (text_pieces day.now left.entry.text.now) made
        × Draws W.taken W.has_failed sink.old sink.new
        (form_parts options.results options.language day.now made) }
{
    if let Some((keys, piece, later)) = take_part(day, left) {
        draw_made_part(
            sink,
            options.language,
            day,
            part_name(options.results, day, left.part, left.parts),
            keys,
            piece.as_slice(),
        );
        draw_form_parts(sink, options, day, later);
    }
}

/// Writes a part of the form: `text`, enciphered with `keys`.
fn draw_made_part<W: Sink>(
    sink: &mut W,
    language: Language,
    day: &SheetDay,
    name: PartName,
    keys: &Keys,
    text: &[Letter],
)
    requires keys { AreKeys day.now keys.now }
    requires suits { IsKeysAnswer day.now name.part keys.now (Ok tt) }
    requires few { length text.now ≤ part_size day.now }
    ensures { (one : Part) × IsPartMade day.now name.part name.parts keys.now text.now one
        × Draws W.taken W.has_failed sink.old sink.new
        (form_part name.results language name.model name.day one) }
{
    let mut machine = DayMachine::new(day);
    match keys {
        Keys::Rotor(keys) => {
            let indicator = indicator_of(&mut machine, keys);
            let letters = rotor_letters(&mut machine, keys, text);
            draw_form_part(sink, language, name, &Some(indicator), letters.as_slice());
        }
        Keys::Pin(keys) => {
            let letters = pin_letters(&mut machine, keys, text);
            draw_form_part(sink, language, name, &None, letters.as_slice());
        }
    }
}
