//! The setting of the machine in words.
ghost use Rattle.std.specs.Prelude.{◌≡◌, ◌++◌, flat_map};
ghost use Rattle.kd_state.specs.Machine.{machine_pin, machine_standing};
ghost use Rattle.kd_state.specs.OwnKeys.{physical_key};
ghost use Rattle.kd_pictures.specs.Drawing.{Draws};
ghost use Rattle.kd_typing.specs.MachineRows.{rows_key};
ghost use Rattle.kd_typing_page.specs.Setting.{bar_text, pin_letter, pin_setting, pins_text, rotor_setting};
ghost use Rattle.kd_typing_page.specs.Setting.{setting_text, wheel_pins};

use crate::texts::{
    BAR, BARS as BARS_HEAD, CABLES, PIN_SETTING, PINS, ROTOR_SETTING, SETTING_END, WHEEL_PINS,
};
use kd_language::Language;
use kd_pictures::board::draw_all_cables;
use kd_pictures::numbers::BARS;
use kd_pictures::template::{Value, draw_letter, fill, fill_in};
use kd_pictures::wheels::draw_words;
use kd_pictures::words::is_converter;
use kd_pictures::{draw, draw_in};
use kd_state::Machine;
use kd_tables::{Letter, Sink, Standing, ring1, ring2, ring3, ring4, ring5, ring6};
use kd_typing::MachineRows;

/// Writes the setting of `machine`. `rows` are the rows of the machine's table.
pub(crate) fn draw_setting<W: Sink>(
    sink: &mut W,
    language: Language,
    machine: &Machine,
    rows: &MachineRows,
)
    requires { rows_key rows.now ≡ physical_key machine.now }
    ensures { Draws W.taken W.has_failed sink.old sink.new (setting_text language machine.now) }
{
    if is_converter(machine.model()) {
        draw_pin_setting(sink, language, machine, rows);
    } else {
        draw_rotor_setting(sink, language, machine);
    }
}

/// Writes the setting of a rotor machine: its reflector, wheels and cables.
fn draw_rotor_setting<W: Sink>(sink: &mut W, language: Language, machine: &Machine)
    ensures { Draws W.taken W.has_failed sink.old sink.new (rotor_setting language machine.now) }
{
    draw_in(sink, language, ROTOR_SETTING);
    draw_words(sink, language, machine);
    draw_in(sink, language, CABLES);
    draw_all_cables(sink, language, machine);
    draw(sink, SETTING_END);
}

/// Writes the setting of a Converter: its letters, effective pins and bars.
fn draw_pin_setting<W: Sink>(
    sink: &mut W,
    language: Language,
    machine: &Machine,
    rows: &MachineRows,
)
    requires { rows_key rows.now ≡ physical_key machine.now }
    ensures { Draws W.taken W.has_failed sink.old sink.new (pin_setting language machine.now) }
{
    draw_in(sink, language, PIN_SETTING);
    rows.draw_shown(sink);
    draw_in(sink, language, PINS);
    draw_pins(sink, language, machine);
    draw_in(sink, language, BARS_HEAD);
    draw_bars(sink, language, machine, &BARS);
    draw(sink, SETTING_END);
}

fn draw_pins<W: Sink>(sink: &mut W, language: Language, machine: &Machine)
    ensures { Draws W.taken W.has_failed sink.old sink.new (pins_text language machine.now) }
{
    draw_wheel_pins(sink, language, machine, 1, &ring1().letters());
    draw_wheel_pins(sink, language, machine, 2, &ring2().letters());
    draw_wheel_pins(sink, language, machine, 3, &ring3().letters());
    draw_wheel_pins(sink, language, machine, 4, &ring4().letters());
    draw_wheel_pins(sink, language, machine, 5, &ring5().letters());
    draw_wheel_pins(sink, language, machine, 6, &ring6().letters());
}

/// Writes the letters of the effective pins of wheel `wheel`.
fn draw_wheel_pins<W: Sink>(
    sink: &mut W,
    language: Language,
    machine: &Machine,
    wheel: u8,
    letters: &[Letter],
)
    ensures { Draws W.taken W.has_failed sink.old sink.new
        (wheel_pins language machine.now wheel letters.now) }
{
    fill_in(
        sink,
        language,
        WHEEL_PINS,
        &[Value::Number(u16::from(wheel))],
    );
    draw_effective(sink, machine, wheel, letters);
}

/// Writes each letter of `letters` whose pin on wheel `wheel` is effective.
fn draw_effective<W: Sink>(sink: &mut W, machine: &Machine, wheel: u8, letters: &[Letter])
    ensures { Draws W.taken W.has_failed sink.old sink.new
        (flat_map (λ letter. pin_letter letter (machine_pin machine.now wheel letter)) letters.now) }
{
    if let [letter, rest @ ..] = letters {
        draw_pin(sink, *letter, machine.pin_at(wheel, *letter));
        draw_effective(sink, machine, wheel, rest);
    }
}

/// Writes `letter` if its pin is effective; otherwise nothing.
fn draw_pin<W: Sink>(sink: &mut W, letter: Letter, effective: Option<bool>)
    ensures { Draws W.taken W.has_failed sink.old sink.new (pin_letter letter effective) }
{
    match effective {
        Some(true) => draw_letter(sink, letter),
        Some(false) | None => draw(sink, ""),
    }
}

/// Writes the places of both lugs for each bar whose number is in `bars`.
fn draw_bars<W: Sink>(sink: &mut W, language: Language, machine: &Machine, bars: &[u8])
    ensures { Draws W.taken W.has_failed sink.old sink.new
        (flat_map (λ bar. bar_text (machine_standing machine.now bar)) bars.now) }
{
    if let [bar, rest @ ..] = bars {
        draw_bar(sink, language, machine.standing(*bar));
        draw_bars(sink, language, machine, rest);
    }
}

/// Writes a space, then the places of a bar's two lugs; nothing if there is no bar.
fn draw_bar<W: Sink>(sink: &mut W, language: Language, standing: Option<Standing>)
    ensures { Draws W.taken W.has_failed sink.old sink.new (bar_text standing) }
{
    match standing {
        None => draw(sink, ""),
        Some(standing) => fill(
            sink,
            language,
            BAR,
            &[
                Value::Place(standing.left()),
                Value::Place(standing.right()),
            ],
        ),
    }
}
