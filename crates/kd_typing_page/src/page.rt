//! The page for typing on a machine.
ghost use Rattle.std.specs.Prelude.{◌≡◌, ◌↔◌, IsOk, OnErr, OnOk};
ghost use Rattle.kd_pictures.specs.Drawing.{Draws};
ghost use Rattle.kd_state.specs.Machine.{model_of};
ghost use Rattle.kd_state.specs.OwnKeys.{physical_key};
ghost use Rattle.kd_state.specs.TwoCiphers.{IsReady, window_of};
ghost use Rattle.kd_tables.specs.Text.{letters_text};
ghost use Rattle.kd_typing.specs.MachineRows.{rows_key};
ghost use Rattle.kd_typing.specs.MachineTable.{TypesAsMachine, machine_table_text, shown_letters};
ghost use Rattle.kd_typing_page.specs.TypingPage.{data_text, desk_text, page_head, script_text, script_words};
ghost use Rattle.kd_typing_page.specs.TypingPage.{typing_page};

use crate::pin_wheels::draw_pin_desk;
use crate::script::SCRIPT;
use crate::setting::draw_setting;
use crate::style::STYLE;
use crate::texts::{BODY, FOOT, PIN_WORDS, POLICY, ROTOR_WORDS, SCRIPT_HEAD, START, TITLE};
use crate::windows::draw_rotor_desk;
use kd_language::Language;
use kd_pictures::file_head::draw_file_head;
use kd_pictures::template::{Value, fill_in};
use kd_pictures::words::is_converter;
use kd_pictures::{draw, draw_in};
use kd_state::{Machine, NotReady};
use kd_tables::{Model, Sink};
use kd_typing::MachineRows;

/// Writes the page for typing on `machine`, in `language`. A text that is typed with the page's table becomes the
/// machine's ciphertext.
///
/// If a slot is empty, or a cable has exactly one letter, writes nothing, and returns `NotReady`.
pub fn draw_typing_page<W: Sink>(
    sink: &mut W,
    language: Language,
    machine: &Machine,
) -> Result<(), NotReady>
    ensures ready { IsOk result ↔ IsReady machine.now }
    ensures page { OnOk result (Draws W.taken W.has_failed sink.old sink.new
        (typing_page language machine.now)) }
    ensures typing { OnOk result (TypesAsMachine machine.now) }
    ensures untouched { OnErr result (sink.new ≡ sink.old) }
{
    let rows = MachineRows::of(machine)?;
    draw_page(sink, language, machine, &rows);
    Ok(())
}

/// Writes the page. Its table has the rows `rows`.
fn draw_page<W: Sink>(sink: &mut W, language: Language, machine: &Machine, rows: &MachineRows)
    requires { rows_key rows.now ≡ physical_key machine.now }
    ensures { Draws W.taken W.has_failed sink.old sink.new (typing_page language machine.now) }
{
    let model = machine.model();
    draw_page_head(sink, language, model);
    draw_desk(sink, language, machine);
    draw_setting(sink, language, machine, rows);
    draw_data(sink, language, model, rows);
    rows.draw(sink);
    draw_script(sink);
}

/// Writes the file up to its body: the title, the content security policy, and the style sheet. The policy names the
/// only script and the only style sheet that the page may use.
fn draw_page_head<W: Sink>(sink: &mut W, language: Language, model: Model)
    ensures { Draws W.taken W.has_failed sink.old sink.new (page_head language model) }
{
    draw_file_head(sink, language);
    fill_in(sink, language, TITLE, &[Value::Model(model)]);
    draw(sink, POLICY);
    draw(sink, STYLE);
    draw(sink, BODY);
}

/// Writes a rotor machine's windows and lamps, or a Converter's pin wheels and knob. Then writes the keys and the tape.
fn draw_desk<W: Sink>(sink: &mut W, language: Language, machine: &Machine)
    ensures { Draws W.taken W.has_failed sink.old sink.new (desk_text language machine.now) }
{
    if is_converter(machine.model()) {
        draw_pin_desk(sink, language, machine.model());
    } else {
        draw_rotor_desk(sink, language, machine);
    }
}

/// Writes the script's data: the letters that the machine shows, and the script's words. The machine's table follows.
fn draw_data<W: Sink>(sink: &mut W, language: Language, model: Model, rows: &MachineRows)
    ensures { Draws W.taken W.has_failed sink.old sink.new
        (data_text language model (shown_letters (rows_key rows.now))) }
{
    draw(sink, START);
    rows.draw_shown(sink);
    draw_script_words(sink, language, model);
}

fn draw_script_words<W: Sink>(sink: &mut W, language: Language, model: Model)
    ensures { Draws W.taken W.has_failed sink.old sink.new (script_words language model) }
{
    if is_converter(model) {
        draw_in(sink, language, PIN_WORDS);
    } else {
        draw_in(sink, language, ROTOR_WORDS);
    }
}

/// Writes the script, and the end of the file.
fn draw_script<W: Sink>(sink: &mut W)
    ensures { Draws W.taken W.has_failed sink.old sink.new script_text }
{
    draw(sink, SCRIPT_HEAD);
    draw(sink, SCRIPT);
    draw(sink, FOOT);
}
