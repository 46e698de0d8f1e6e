//! The file with a sheet's tables.
ghost use Rattle.std.specs.Prelude.{◌≡◌, ◌||◌, flat_map, is_err};
ghost use Rattle.kd_tables.specs.Writing.{Writes};
ghost use Rattle.kd_pictures.specs.Drawing.{Draws};
ghost use Rattle.kd_printed_sheet.specs.Days.{has_days};
ghost use Rattle.kd_printed_sheet.specs.TableFile.{file_text, no_days, page_text, tables_for};

use crate::csv_table::draw_csv;
use crate::days::{DAYS, has_any_day};
use crate::key_list::draw_key_lists;
use crate::month_table::draw_month;
use crate::texts::{NO_DAYS, TITLE, WIDE_BODY};
use kd_language::Language;
use kd_options::TableForm;
use kd_pictures::file_head::draw_file_head;
use kd_pictures::texts::{FOOT, MORE_STYLE, STYLE};
use kd_pictures::{draw, draw_in};
use kd_sheet::Sheet;
use kd_tables::{Device, Family, Model, Sink};

/// Writes the tables of the key sheet `sheet` in `form`. Allocates no memory.
///
/// - A page is in `language`. It has a table for each model of rotor machine that has days; the last day comes first.
///   It also has a key list for each day of a Converter.
/// - A CSV table is the same in all languages. It has a row for each day; the first day comes first.
pub fn write_tables<W: Sink>(
    sink: &mut W,
    language: Language,
    form: TableForm,
    sheet: &Sheet,
) -> Result<(), Device>
    ensures text { Writes (W.taken sink.old) (W.taken sink.new)
        (file_text language form sheet.now) result }
    ensures failed { W.has_failed sink.new ≡ (W.has_failed sink.old || is_err result) }
{
    draw_file(sink, language, form, sheet);
    if sink.failed() { Err(Device) } else { Ok(()) }
}

fn draw_file<W: Sink>(sink: &mut W, language: Language, form: TableForm, sheet: &Sheet)
    ensures { Draws W.taken W.has_failed sink.old sink.new (file_text language form sheet.now) }
{
    match form {
        TableForm::Page => draw_page(sink, language, sheet),
        TableForm::Csv => draw_csv(sink, sheet),
    }
}

fn draw_page<W: Sink>(sink: &mut W, language: Language, sheet: &Sheet)
    ensures { Draws W.taken W.has_failed sink.old sink.new (page_text language sheet.now) }
{
    draw_file_head(sink, language);
    draw_in(sink, language, TITLE);
    draw(sink, STYLE);
    draw(sink, MORE_STYLE);
    draw(sink, WIDE_BODY);
    draw_no_days(sink, language, sheet);
    draw_tables(sink, language, sheet, &Model::ALL);
    draw(sink, FOOT);
}

/// Writes that the sheet has no days. If the sheet has a day, writes nothing.
fn draw_no_days<W: Sink>(sink: &mut W, language: Language, sheet: &Sheet)
    ensures { Draws W.taken W.has_failed sink.old sink.new (no_days language (has_days sheet.now)) }
{
    if !has_any_day(sheet, &DAYS) {
        draw_in(sink, language, NO_DAYS);
    }
}

/// Writes the tables of each of `models`.
fn draw_tables<W: Sink>(sink: &mut W, language: Language, sheet: &Sheet, models: &[Model])
    ensures { Draws W.taken W.has_failed sink.old sink.new
        (flat_map (tables_for language sheet.now) models.now) }
{
    if let [model, rest @ ..] = models {
        draw_tables_for(sink, language, sheet, *model);
        draw_tables(sink, language, sheet, rest);
    }
}

/// Writes the tables for a model: one table of the days for a rotor machine, or a key list for each day of a Converter.
#[tactic(auto, unfolding(crate::specs::TableFile::tables_for))]
fn draw_tables_for<W: Sink>(sink: &mut W, language: Language, sheet: &Sheet, model: Model)
    ensures { Draws W.taken W.has_failed sink.old sink.new (tables_for language sheet.now model) }
{
    match model.family() {
        Family::Rotor => draw_month(sink, language, model, sheet),
        Family::Pin => draw_key_lists(sink, language, sheet, &DAYS),
    }
}
