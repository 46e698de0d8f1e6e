//! The picture of a rotor machine's wheels, before and after the settings.
ghost use Rattle.std.specs.Prelude.{◌≡◌, ◌+◌, ◌*◌, ◌<◌, ◌++◌, flat_map};
ghost use Rattle.kd_state.specs.Machine.{machine_slot};
ghost use Rattle.kd_pictures.specs.Drawing.{Draws};
ghost use Rattle.kd_language.specs.Language.{in_language};
ghost use Rattle.kd_pictures.specs.Wheels.{is_seated};
ghost use Rattle.kd_pictures.specs.Wheels.{band_head, band_text, both_bands, is_same_letter, letter_words};
ghost use Rattle.kd_pictures.specs.Wheels.{machine_words};
ghost use Rattle.kd_pictures.specs.Wheels.{one_band, reflector_shown, reflector_words, ring_shown, seated_shown};
ghost use Rattle.kd_pictures.specs.Wheels.{slot_shown};
ghost use Rattle.kd_pictures.specs.Wheels.{empty_shown, slot_words, slot_x, wheel_shown, wheel_words, window_shown};

use crate::drawing::{draw, draw_in};
use crate::numbers::SLOTS;
use crate::template::{Value, fill, fill_in};
use crate::texts::{
    BAND, EMPTY, EMPTY_WORDS, NEW_REFLECTOR, NEW_RING, NEW_WHEEL, NEW_WINDOW, REFLECTOR_SHOWN,
    REFLECTOR_WORDS, RING_SHOWN, RING_WORDS, TITLE_END, WHEEL, WHEEL_WORDS, WHEELS, WHEELS_END,
    WHEELS_ONCE, WHEELS_THEN, WINDOW, WINDOW_WORDS,
};
use crate::words::Word;
use kd_language::{Language, Text};
use kd_state::Machine;
use kd_tables::{Letter, Reflector, Sink, Wheel};

/// Writes the picture of the machine `before`, and below it the picture of the machine `after`.
///
/// The lower picture marks the differences from `before`.
pub fn draw_both<W: Sink>(sink: &mut W, language: Language, before: &Machine, after: &Machine)
    ensures { Draws W.taken W.has_failed sink.old sink.new (both_bands language before.now after.now) }
{
    draw_in(sink, language, WHEELS);
    draw_words(sink, language, before);
    draw_in(sink, language, WHEELS_THEN);
    draw_words(sink, language, after);
    draw(sink, TITLE_END);
    draw_band(sink, language, 0, Word::Before, before, before);
    draw_band(sink, language, 164, Word::After, after, before);
    draw(sink, WHEELS_END);
}

/// Writes only the picture of the machine `after`, for a page without settings.
pub fn draw_one<W: Sink>(sink: &mut W, language: Language, after: &Machine)
    ensures { Draws W.taken W.has_failed sink.old sink.new (one_band language after.now) }
{
    draw_in(sink, language, WHEELS_ONCE);
    draw_words(sink, language, after);
    draw(sink, TITLE_END);
    draw_band(sink, language, 0, Word::After, after, after);
    draw(sink, WHEELS_END);
}

/// Writes the reflector, the wheels, the rings and the window letters of a rotor machine in words.
pub fn draw_words<W: Sink>(sink: &mut W, language: Language, machine: &Machine)
    ensures { Draws W.taken W.has_failed sink.old sink.new (machine_words language machine.now) }
{
    draw_reflector_words(sink, language, machine.reflector());
    draw_all_slot_words(sink, language, machine, &SLOTS);
}

fn draw_reflector_words<W: Sink>(sink: &mut W, language: Language, reflector: Option<Reflector>)
    ensures { Draws W.taken W.has_failed sink.old sink.new (reflector_words language reflector) }
{
    match reflector {
        None => draw(sink, ""),
        Some(reflector) => fill_in(
            sink,
            language,
            REFLECTOR_WORDS,
            &[Value::Reflector(reflector)],
        ),
    }
}

fn draw_all_slot_words<W: Sink>(sink: &mut W, language: Language, machine: &Machine, slots: &[u8])
    ensures { Draws W.taken W.has_failed sink.old sink.new
        (flat_map (λ slot. slot_words language machine.now slot (machine_slot machine.now slot))
        slots.now) }
{
    if let [slot, rest @ ..] = slots {
        draw_slot_words(sink, language, machine, *slot, machine.slot(*slot));
        draw_all_slot_words(sink, language, machine, rest);
    }
}

fn draw_slot_words<W: Sink>(
    sink: &mut W,
    language: Language,
    machine: &Machine,
    slot: u8,
    held: Option<Option<Wheel>>,
)
    ensures { Draws W.taken W.has_failed sink.old sink.new (slot_words language machine.now slot held) }
{
    match held {
        None => draw(sink, ""),
        Some(None) => fill_in(
            sink,
            language,
            EMPTY_WORDS,
            &[Value::Number(u16::from(slot))],
        ),
        Some(Some(wheel)) => draw_wheel_words(sink, language, machine, slot, wheel),
    }
}

/// Writes a wheel in a slot in words, with the wheel's ring and window letter.
fn draw_wheel_words<W: Sink>(
    sink: &mut W,
    language: Language,
    machine: &Machine,
    slot: u8,
    wheel: Wheel,
)
    ensures { Draws W.taken W.has_failed sink.old sink.new (wheel_words language machine.now slot wheel) }
{
    fill_in(
        sink,
        language,
        WHEEL_WORDS,
        &[Value::Number(u16::from(slot)), Value::Wheel(wheel)],
    );
    draw_letter_words(sink, language, RING_WORDS, machine.ring(wheel));
    draw_letter_words(sink, language, WINDOW_WORDS, machine.letter(wheel));
}

fn draw_letter_words<W: Sink>(
    sink: &mut W,
    language: Language,
    template: Text,
    letter: Option<Letter>,
)
    ensures { Draws W.taken W.has_failed sink.old sink.new
        (letter_words (in_language language template.entry.0.now template.entry.1.now) letter) }
{
    match letter {
        None => draw(sink, ""),
        Some(letter) => fill_in(sink, language, template, &[Value::Letter(letter)]),
    }
}

/// Writes the band of `machine` at height `y`. The band marks the differences of `machine` from `other`.
fn draw_band<W: Sink>(
    sink: &mut W,
    language: Language,
    y: u16,
    name: Word,
    machine: &Machine,
    other: &Machine,
)
    requires { y < 1000 }
    ensures { Draws W.taken W.has_failed sink.old sink.new
        (band_text language y name machine.now other.now) }
{
    draw_band_head(sink, language, y, name);
    draw_reflector(sink, language, y, machine.reflector(), other.reflector());
    draw_slots(sink, language, y, machine, other, &SLOTS);
}

#[tactic(auto, unfolding(crate::specs::Wheels::band_head))]
fn draw_band_head<W: Sink>(sink: &mut W, language: Language, y: u16, name: Word)
    requires { y < 1000 }
    ensures { Draws W.taken W.has_failed sink.old sink.new (band_head language y name) }
{
    fill_in(
        sink,
        language,
        BAND,
        &[
            Value::Number(y + 16),
            Value::Word(name),
            Value::Number(y + 54),
            Value::Number(y + 84),
            Value::Number(y + 125),
            Value::Number(y + 16),
        ],
    );
}

fn draw_reflector<W: Sink>(
    sink: &mut W,
    language: Language,
    y: u16,
    reflector: Option<Reflector>,
    other: Option<Reflector>,
)
    requires { y < 1000 }
    ensures { Draws W.taken W.has_failed sink.old sink.new (reflector_shown y reflector other) }
{
    match reflector {
        None => draw(sink, ""),
        Some(shown) => fill(
            sink,
            language,
            if other == Some(shown) {
                REFLECTOR_SHOWN
            } else {
                NEW_REFLECTOR
            },
            &[
                Value::Number(y + 24),
                Value::Number(y + 54),
                Value::Reflector(shown),
            ],
        ),
    }
}

fn draw_slots<W: Sink>(
    sink: &mut W,
    language: Language,
    y: u16,
    machine: &Machine,
    other: &Machine,
    slots: &[u8],
)
    requires { y < 1000 }
    ensures { Draws W.taken W.has_failed sink.old sink.new
        (flat_map (λ slot.
        slot_shown language (slot_x slot) y machine.now other.now slot (machine_slot machine.now slot))
        slots.now) }
{
    if let [slot, rest @ ..] = slots {
        draw_slot(sink, language, y, machine, other, *slot);
        draw_slots(sink, language, y, machine, other, rest);
    }
}

/// Writes a slot, and the wheel in it.
fn draw_slot<W: Sink>(
    sink: &mut W,
    language: Language,
    y: u16,
    machine: &Machine,
    other: &Machine,
    slot: u8,
)
    requires { y < 1000 }
    ensures { Draws W.taken W.has_failed sink.old sink.new
        (slot_shown language (slot_x slot) y machine.now other.now slot (machine_slot machine.now slot)) }
{
    let x = 80 + 104 * u16::from(slot);
    let at = Point { x, y };
    match machine.slot(slot) {
        None => draw(sink, ""),
        Some(None) => draw_empty(sink, language, at, slot),
        Some(Some(wheel)) => {
            let seated = SeatedWheel { slot, wheel };
            draw_seated(sink, language, at, machine, other, seated)
        }
    }
}

/// A point of the picture.
#[derive(Clone, Copy)]
struct Point {
    /// How far the point is from the picture's left edge.
    x: u16,
    /// How far the point is from the picture's upper edge.
    y: u16,
}

/// A wheel, and the slot that it is in.
#[derive(Clone, Copy)]
struct SeatedWheel {
    slot: u8,
    wheel: Wheel,
}

fn draw_empty<W: Sink>(sink: &mut W, language: Language, at: Point, slot: u8)
    requires x { at.x < 30000 }
    requires y { at.y < 1000 }
    ensures { Draws W.taken W.has_failed sink.old sink.new (empty_shown language at.x at.y slot) }
{
    let Point { x, y } = at;
    fill_in(
        sink,
        language,
        EMPTY,
        &[
            Value::Number(x + 48),
            Value::Number(y + 16),
            Value::Number(u16::from(slot)),
            Value::Number(x),
            Value::Number(y + 24),
            Value::Number(x + 48),
            Value::Number(y + 54),
        ],
    );
}

/// Writes a wheel in a slot, with its ring and its window.
fn draw_seated<W: Sink>(
    sink: &mut W,
    language: Language,
    at: Point,
    machine: &Machine,
    other: &Machine,
    seated: SeatedWheel,
)
    requires x { at.x < 30000 }
    requires y { at.y < 1000 }
    ensures { Draws W.taken W.has_failed sink.old sink.new
        (seated_shown language at.x at.y machine.now other.now seated.slot seated.wheel) }
{
    let SeatedWheel { slot, wheel } = seated;
    draw_wheel(sink, language, at, seated, is_seated(other, slot, wheel));
    draw_ring(sink, language, at, machine.ring(wheel), other.ring(wheel));
    draw_window(
        sink,
        language,
        at,
        machine.letter(wheel),
        other.letter(wheel),
    );
}

fn draw_wheel<W: Sink>(
    sink: &mut W,
    language: Language,
    at: Point,
    seated: SeatedWheel,
    is_old: bool,
)
    requires x { at.x < 30000 }
    requires y { at.y < 1000 }
    ensures { Draws W.taken W.has_failed sink.old sink.new
        (wheel_shown language at.x at.y seated.slot is_old seated.wheel) }
{
    let Point { x, y } = at;
    let SeatedWheel { slot, wheel } = seated;
    fill_in(
        sink,
        language,
        if is_old { WHEEL } else { NEW_WHEEL },
        &[
            Value::Number(x + 48),
            Value::Number(y + 16),
            Value::Number(u16::from(slot)),
            Value::Number(x),
            Value::Number(y + 24),
            Value::Number(x + 48),
            Value::Number(y + 54),
            Value::Wheel(wheel),
        ],
    );
}

fn draw_ring<W: Sink>(
    sink: &mut W,
    language: Language,
    at: Point,
    ring: Option<Letter>,
    other: Option<Letter>,
)
    requires x { at.x < 30000 }
    requires y { at.y < 1000 }
    ensures { Draws W.taken W.has_failed sink.old sink.new (ring_shown at.x at.y ring other) }
{
    let Point { x, y } = at;
    match ring {
        None => draw(sink, ""),
        Some(letter) => {
            let values: &[Value] = &[
                Value::Number(x + 10),
                Value::Number(y + 64),
                Value::Number(x + 48),
                Value::Number(y + 85),
                Value::Letter(letter),
                Value::Ordinal(letter),
            ];
            if other == Some(letter) {
                fill(sink, language, RING_SHOWN, &values[2..]);
            } else {
                fill(sink, language, NEW_RING, values);
            }
        }
    }
}

fn draw_window<W: Sink>(
    sink: &mut W,
    language: Language,
    at: Point,
    shown: Option<Letter>,
    other: Option<Letter>,
)
    requires x { at.x < 30000 }
    requires y { at.y < 1000 }
    ensures { Draws W.taken W.has_failed sink.old sink.new (window_shown at.x at.y shown other) }
{
    let Point { x, y } = at;
    match shown {
        None => draw(sink, ""),
        Some(letter) => fill(
            sink,
            language,
            if other == Some(letter) {
                WINDOW
            } else {
                NEW_WINDOW
            },
            &[
                Value::Number(x + 10),
                Value::Number(y + 99),
                Value::Number(x + 30),
                Value::Number(y + 128),
                Value::Letter(letter),
                Value::Number(x + 70),
                Value::Number(y + 126),
                Value::Ordinal(letter),
            ],
        ),
    }
}

/// Whether `wheel` is in slot `slot` of `machine`.
pub fn is_seated(machine: &Machine, slot: u8, wheel: Wheel) -> bool
    ensures { result ≡ is_seated machine.now slot wheel }
{
    match machine.slot(slot) {
        Some(seated) => seated == Some(wheel),
        None => false,
    }
}
