//! The sheet with which an operator enciphers or deciphers one part of a message.
ghost use Rattle.std.specs.Prelude.{◌≡◌, ◌+◌, ◌≤◌, length};
ghost use Rattle.kd_state.specs.EngineKey.{IsWindow};
ghost use Rattle.kd_state.specs.OwnKeys.{sheet_key};
ghost use Rattle.kd_pictures.specs.Drawing.{Draws};
ghost use Rattle.kd_language.specs.Template.{filled};
ghost use Rattle.kd_state.specs.Entry.{rotor_values, values_of};
ghost use Rattle.kd_part_sheet.specs.PartSheet.{day_key_text, first_sheet, head_text, key_step, legend, name_values, next_sheet};
ghost use Rattle.kd_part_sheet.specs.PartSheet.{note, part_sheet, rotor_key_text, start_text, text_head, text_if, text_rows};
ghost use Rattle.kd_part_sheet.specs.PartSheet.{text_step, warnings_text};
ghost use Rattle.kd_part_sheet.specs.PartWork.{IsWorkable};
ghost use Rattle.kd_part_sheet.specs.Sheet.{has_given_start};

use crate::cells::{Cell, cells_with};
use crate::markup::{KEY_END, SHEET_END};
use crate::part_work::PartWork;
use crate::rows::{Progress, draw_rows, progress_after};
use crate::sheet::Sheet;
use crate::texts::{
    CABLES, COPIES_LOST, HEAD, KEY_STEP, KEY_STEP_END, KEY_WORDS, LEGEND, LIST, LOST_LETTER,
    NAVAL_NOTE, NEXT_STEP, NOT_TESTED, NOTE, OPEN_LEGEND, REFLECTOR, RINGS, TEXT_STEP, WRONG_DAY,
};
use crate::windows::draw_windows;
use crate::words::{draw_cables, draw_rings, draw_wheels};
use kd_language::Language;
use kd_pictures::template::{Value, fill, fill_in};
use kd_pictures::words::is_converter;
use kd_pictures::{Results, draw, draw_in};
use kd_state::{Entry, RotorEntry, SheetDay};
use kd_tables::{Letter, Model, Sink};

/// The values in the head of each step, and whether the sheet shows results. The values are repeated, since sheets of
/// paper come apart.
#[derive(Clone, Copy)]
pub struct PartName {
    /// The machine's model.
    pub model: Model,
    /// The day's number.
    pub day: u8,
    /// The number by which links find the part's sheet. No two sheets in a file have the same
    /// number.
    pub sheet: u16,
    /// The part's number, counted from 1.
    pub part: u8,
    /// How many parts the message has.
    pub parts: u8,
    /// Whether the sheet shows the results.
    pub results: Results,
}

/// What all steps of a part's sheet have in common, besides the day.
#[derive(Clone, Copy)]
pub struct PartPage {
    /// The language of the sheet.
    pub language: Language,
    /// Which of the four sheets this is.
    pub sheet: Sheet,
    /// The part, and whether the sheet shows the results.
    pub name: PartName,
}

/// Writes the sheet of a part.
pub fn draw_part_sheet<W: Sink>(
    sink: &mut W,
    page: PartPage,
    day: &SheetDay,
    warnings: Warnings,
    work: &PartWork,
)
    requires { IsWorkable day.now work.now }
    ensures { Draws W.taken W.has_failed sink.old sink.new
        (part_sheet page.language page.sheet day.now page.name warnings work.now) }
{
    let PartPage {
        language,
        sheet,
        name,
    } = page;
    draw_head(sink, page);
    draw_day_key(sink, language, day.entry());
    draw(sink, legend(language, sheet, name.results));
    draw_if(
        sink,
        warnings.letters_lost,
        sheet.text(language, LOST_LETTER),
    );
    draw_key_step(sink, page, day, work);
    draw_text_step(sink, page, day, warnings, work);
    draw(sink, note(language, sheet, name.model));
    draw(sink, SHEET_END);
}

/// The legend, which says what to do with the letters of a row.
fn legend(language: Language, sheet: Sheet, results: Results) -> &'static str
    ensures { result.now ≡ legend language sheet results }
{
    match results {
        Results::Shown => sheet.text(language, LEGEND),
        Results::LeftOpen => sheet.text(language, OPEN_LEGEND),
    }
}

/// Writes `text` if `is_there` is true; otherwise writes nothing.
pub fn draw_if<W: Sink>(sink: &mut W, is_there: bool, text: &str)
    ensures { Draws W.taken W.has_failed sink.old sink.new (text_if is_there text.now) }
{
    if is_there {
        draw(sink, text);
    } else {
        draw(sink, "");
    }
}

/// The warnings of a received part.
#[derive(Clone, Copy)]
pub struct Warnings {
    /// A letter of the body is lost.
    pub letters_lost: bool,
    /// A letter is lost in a copy of the indicators, and no list letter is lost in both copies.
    pub copies_lost: bool,
    /// The form's indicator group or list letters don't belong to the day.
    pub wrong_day: bool,
    /// It can't be tested whether the form is of the day: a letter of the indicator group is lost, or a list letter is
    /// lost in both copies.
    pub not_tested: bool,
}

/// Writes the warnings that apply, of these three: a copy of the indicators has lost letters, the form is of another
/// day, and its day can't be tested.
///
/// Doesn't write the warning `letters_lost`.
pub fn draw_warnings<W: Sink>(sink: &mut W, language: Language, sheet: Sheet, warnings: Warnings)
    ensures { Draws W.taken W.has_failed sink.old sink.new
        (warnings_text language sheet warnings) }
{
    draw_if(sink, warnings.copies_lost, language.text(COPIES_LOST));
    draw_if(sink, warnings.wrong_day, sheet.text(language, WRONG_DAY));
    draw_if(sink, warnings.not_tested, sheet.text(language, NOT_TESTED));
}

fn draw_head<W: Sink>(sink: &mut W, page: PartPage)
    ensures { Draws W.taken W.has_failed sink.old sink.new
        (head_text page.language page.sheet page.name) }
{
    let name = page.name;
    fill(
        sink,
        page.language,
        page.sheet.text(page.language, HEAD),
        &[
            Value::Number(name.sheet),
            Value::Model(name.model),
            Value::Number(u16::from(name.day)),
            Value::Number(u16::from(name.part)),
            Value::Number(u16::from(name.parts)),
        ],
    );
}

/// Writes the paragraph with the key of the day, to which the machine has to be set.
fn draw_day_key<W: Sink>(sink: &mut W, language: Language, entry: &Entry)
    ensures { Draws W.taken W.has_failed sink.old sink.new
        (day_key_text language (values_of entry.now)) }
{
    match entry {
        Entry::Rotor(entry) => draw_rotor_key(sink, language, entry),
        Entry::Pin(entry) => {
            let [one, other] = entry.list;
            fill_in(
                sink,
                language,
                LIST,
                &[Value::Letter(one), Value::Letter(other)],
            );
        }
    }
}

/// Writes the key of a rotor machine's day: reflector, wheels, rings and cables.
fn draw_rotor_key<W: Sink>(sink: &mut W, language: Language, entry: &RotorEntry)
    ensures { Draws W.taken W.has_failed sink.old sink.new
        (rotor_key_text language (rotor_values entry.now)) }
{
    let wheels = entry.wheels.as_slice();
    fill_in(
        sink,
        language,
        REFLECTOR,
        &[Value::Reflector(entry.reflector)],
    );
    draw_wheels(sink, "", wheels);
    draw_in(sink, language, RINGS);
    draw_rings(sink, language, "", wheels);
    draw_in(sink, language, CABLES);
    draw_cables(sink, language, entry.pairs.as_slice());
    draw(sink, KEY_END);
}

/// Writes the first step, in which the message key or the internal key is found.
fn draw_key_step<W: Sink>(sink: &mut W, page: PartPage, day: &SheetDay, work: &PartWork)
    requires { IsWorkable day.now work.now }
    ensures { Draws W.taken W.has_failed sink.old sink.new
        (key_step page.language page.sheet day.now page.name work.now) }
{
    let PartPage {
        language,
        sheet,
        name,
    } = page;
    let ground = work.ground.as_slice();
    let key = cells_with(name.results, &work.key);
    fill_name(sink, language, sheet.text(language, KEY_STEP), name);
    draw_windows(sink, language, is_converter(name.model), ground);
    draw(sink, sheet.text(language, KEY_WORDS));
    draw_rows(sink, page, day, ground, BEGINNING, key.as_slice());
    draw(sink, sheet.text(language, KEY_STEP_END));
}

/// The progress of a step before its first row: no letters, and no key presses.
const BEGINNING: Progress = Progress {
    letters: 0,
    presses: 0,
};

/// Fills a template with the model, the day, the part and the number of parts.
fn fill_name<W: Sink>(sink: &mut W, language: Language, template: &str, name: PartName)
    ensures { Draws W.taken W.has_failed sink.old sink.new
        (filled template.now (name_values name)) }
{
    fill(
        sink,
        language,
        template,
        &[
            Value::Model(name.model),
            Value::Number(u16::from(name.day)),
            Value::Number(u16::from(name.part)),
            Value::Number(u16::from(name.parts)),
        ],
    );
}

/// Writes the second step, in which the text is enciphered or deciphered.
fn draw_text_step<W: Sink>(
    sink: &mut W,
    page: PartPage,
    day: &SheetDay,
    warnings: Warnings,
    work: &PartWork,
)
    requires { IsWorkable day.now work.now }
    ensures { Draws W.taken W.has_failed sink.old sink.new
        (text_step page.language page.sheet day.now page.name warnings work.now) }
{
    let start = work.start.as_slice();
    let body = cells_with(page.name.results, &work.body);
    draw_text_head(sink, page, body.len());
    draw_start(sink, page, start);
    draw_warnings(sink, page.language, page.sheet, warnings);
    draw_text_rows(sink, page, day, start, body.as_slice());
}

/// Writes the picture of the windows to set before the text.
///
/// Writes nothing on a worksheet whose first step finds these windows.
fn draw_start<W: Sink>(sink: &mut W, page: PartPage, start: &[Letter])
    requires { length start.now ≤ 6 }
    ensures { Draws W.taken W.has_failed sink.old sink.new
        (start_text page.language page.sheet page.name start.now) }
{
    if page.name.results.are_open() && !has_given_start(page.sheet) {
        draw(sink, "");
    } else {
        draw_windows(sink, page.language, is_converter(page.name.model), start);
    }
}

/// Whether the order gives the letters to set in the windows before the text. Otherwise, the first step finds these
/// letters.
fn has_given_start(sheet: Sheet) -> bool
    ensures { result ≡ has_given_start sheet }
{
    match sheet {
        Sheet::RotorSend => true,
        Sheet::PinSend | Sheet::RotorReceive | Sheet::PinReceive => false,
    }
}

fn draw_text_head<W: Sink>(sink: &mut W, page: PartPage, letters: usize)
    requires { letters ≤ 520 }
    ensures { Draws W.taken W.has_failed sink.old sink.new
        (text_head page.language page.sheet page.name letters) }
{
    let name = page.name;
    fill(
        sink,
        page.language,
        page.sheet.text(page.language, TEXT_STEP),
        &[
            Value::Number(letters as u16),
            Value::Model(name.model),
            Value::Number(u16::from(name.day)),
            Value::Number(u16::from(name.part)),
            Value::Number(u16::from(name.parts)),
        ],
    );
}

/// Writes the rows of the text. Rows that don't fit on the first sheet of paper go onto a second sheet.
fn draw_text_rows<W: Sink>(
    sink: &mut W,
    page: PartPage,
    day: &SheetDay,
    start: &[Letter],
    body: &[Cell],
)
    requires window { IsWindow (sheet_key day.now) start.now }
    requires few { length body.now ≤ 520 }
    ensures { Draws W.taken W.has_failed sink.old sink.new
        (text_rows page.language page.sheet day.now page.name start.now body.now) }
{
    let (first, rest) = body.split_at(body.len().min(first_sheet(page.name.model)));
    draw_rows(sink, page, day, start, BEGINNING, first);
    let progress = progress_after(BEGINNING, first);
    draw_next_sheet(sink, page, day, start, progress, rest);
}

/// How many letters of a body fit on the first sheet of paper.
fn first_sheet(model: Model) -> usize
    ensures { result ≡ first_sheet model }
{
    if is_converter(model) { 200 } else { 250 }
}

/// Writes the rows of `cells` onto a second sheet of paper. Writes nothing if there are no cells.
fn draw_next_sheet<W: Sink>(
    sink: &mut W,
    page: PartPage,
    day: &SheetDay,
    start: &[Letter],
    progress: Progress,
    cells: &[Cell],
)
    requires window { IsWindow (sheet_key day.now) start.now }
    requires presses { progress.presses ≤ progress.letters }
    requires few { progress.letters + length cells.now ≤ 520 }
    ensures { Draws W.taken W.has_failed sink.old sink.new
        (next_sheet page.language page.sheet day.now page.name start.now progress cells.now) }
{
    if cells.is_empty() {
        draw(sink, "");
    } else {
        let template = page.sheet.text(page.language, NEXT_STEP);
        fill_name(sink, page.language, template, page.name);
        draw_rows(sink, page, day, start, progress, cells);
    }
}

/// The note that says which letters stand for spaces and punctuation.
pub fn note(language: Language, sheet: Sheet, model: Model) -> &'static str
    ensures { result.now ≡ note language sheet model }
{
    if model == Model::M4 {
        language.text(NAVAL_NOTE)
    } else {
        sheet.text(language, NOTE)
    }
}
