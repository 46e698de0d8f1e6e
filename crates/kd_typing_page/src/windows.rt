//! The windows, lamps and keys on a rotor machine's page.
ghost use Rattle.std.specs.Prelude.{◌≡◌, ◌++◌, flat_map};
ghost use Rattle.kd_state.specs.Machine.{machine_slot, model_of};
ghost use Rattle.kd_pictures.specs.Drawing.{Draws};
ghost use Rattle.kd_typing_page.specs.Windows.{rotor_desk, slot_window, window_text};

use crate::texts::{KEYS, LAMPS, LETTERS, ROTOR_HEAD, ROTOR_KEYS, ROTOR_TAPE, WINDOW, WINDOW_END};
use kd_language::Language;
use kd_pictures::numbers::SLOTS;
use kd_pictures::template::{Value, fill_in};
use kd_pictures::{draw, draw_in};
use kd_state::Machine;
use kd_tables::{Sink, Wheel};

/// Writes a rotor machine's windows, lamps, keys and tape.
pub(crate) fn draw_rotor_desk<W: Sink>(sink: &mut W, language: Language, machine: &Machine)
    ensures { Draws W.taken W.has_failed sink.old sink.new (rotor_desk language machine.now) }
{
    fill_in(sink, language, ROTOR_HEAD, &[Value::Model(machine.model())]);
    draw_windows(sink, language, machine, &SLOTS);
    draw(sink, LAMPS);
    draw_in(sink, language, KEYS);
    draw(sink, ROTOR_KEYS);
    draw_in(sink, language, ROTOR_TAPE);
}

/// Writes the windows of the slots `slots`; nothing for a slot that the machine doesn't have.
fn draw_windows<W: Sink>(sink: &mut W, language: Language, machine: &Machine, slots: &[u8])
    ensures { Draws W.taken W.has_failed sink.old sink.new
        (flat_map (λ slot. slot_window language slot (machine_slot machine.now slot)) slots.now) }
{
    if let [slot, rest @ ..] = slots {
        draw_slot_window(sink, language, *slot, machine.slot(*slot));
        draw_windows(sink, language, machine, rest);
    }
}

/// Writes the window of a slot; nothing if the machine has no such slot.
fn draw_slot_window<W: Sink>(
    sink: &mut W,
    language: Language,
    slot: u8,
    held: Option<Option<Wheel>>,
)
    ensures { Draws W.taken W.has_failed sink.old sink.new (slot_window language slot held) }
{
    match held {
        None => draw(sink, ""),
        Some(_) => draw_window(sink, language, slot),
    }
}

fn draw_window<W: Sink>(sink: &mut W, language: Language, slot: u8)
    ensures { Draws W.taken W.has_failed sink.old sink.new (window_text language slot) }
{
    let number = u16::from(slot);
    fill_in(
        sink,
        language,
        WINDOW,
        &[
            Value::Number(number),
            Value::Number(number),
            Value::Number(number),
        ],
    );
    draw(sink, LETTERS);
    fill_in(sink, language, WINDOW_END, &[Value::Number(number)]);
}
