//! The step of the rings, and the step of the wheels and the reflector.
ghost use Rattle.std.specs.Prelude.{◌≡◌, ◌++◌, flat_map};
ghost use Rattle.kd_pictures.specs.Drawing.{Draws};
ghost use Rattle.kd_language.specs.Language.{in_language};
ghost use Rattle.kd_page.specs.WheelSteps.{all_boxed_text, boxed_reflector, boxed_text};
ghost use Rattle.kd_page.specs.WheelSteps.{from_box_shown, has_lone_wheel, lone_wheel, reflector_boxed_text};
ghost use Rattle.kd_page.specs.WheelSteps.{rings_in_box, rings_step, seats_step, some_rings_text, some_seats_text};
ghost use Rattle.kd_page.specs.WheelSteps.{wheel_boxed_text, wheel_from_box};

use crate::boxes::slot_holding;
use crate::page::Page;
use crate::spots::Step;
use crate::steps::{draw_idle, draw_list, draw_step};
use kd_language::{Language, Text};
use kd_pictures::numbers::SLOTS;
use kd_pictures::template::{Value, fill, fill_in};
use kd_pictures::texts::{BOX_AFTER, BOX_WHEEL, BOXED, BOXED_END, BOXED_REFLECTOR, BOXED_WHEEL};
use kd_pictures::words::Word;
use kd_pictures::{draw, draw_in};
use kd_state::Machine;
use kd_tables::{Letter, Reflector, Sink, Wheel};

pub(crate) fn draw_rings_step<W: Sink>(sink: &mut W, page: &Page<'_>)
    ensures { Draws W.taken W.has_failed sink.old sink.new (rings_step page.now) }
{
    let count = page.count_at(&Step::Rings.spot());
    if count == 0 {
        draw_idle(sink, page.language(), Word::Rings);
    } else {
        draw_rings(sink, page, count);
    }
}

fn draw_rings<W: Sink>(sink: &mut W, page: &Page<'_>, count: u8)
    ensures { Draws W.taken W.has_failed sink.old sink.new (some_rings_text page.now count) }
{
    draw_step(sink, page, Word::RingsOut, count);
    draw_rings_in_box(sink, page, BOX_AFTER, page.after());
    draw_list(sink, page, Step::Rings);
}

/// Writes the words `told`, then a list of the wheels that come from the box, with the rings of `machine`. Writes
/// nothing if no wheel comes from the box.
pub(crate) fn draw_rings_in_box<W: Sink>(
    sink: &mut W,
    page: &Page<'_>,
    told: Text,
    machine: &Machine,
)
    ensures { Draws W.taken W.has_failed sink.old sink.new
        (rings_in_box page.now (in_language page.now.language told.entry.0.now told.entry.1.now)
        machine.now) }
{
    if has_lone_wheel(page.after(), page.before(), &SLOTS) {
        draw_in(sink, page.language(), told);
        draw_wheels_from_box(sink, page, machine, &SLOTS);
        draw(sink, BOXED_END);
    }
}

fn draw_wheels_from_box<W: Sink>(sink: &mut W, page: &Page<'_>, machine: &Machine, slots: &[u8])
    ensures { Draws W.taken W.has_failed sink.old sink.new
        (flat_map (λ slot. from_box_shown (wheel_from_box page.now machine.now slot)) slots.now) }
{
    if let [slot, rest @ ..] = slots {
        draw_from_box(sink, page.language(), wheel_from_box(page, machine, *slot));
        draw_wheels_from_box(sink, page, machine, rest);
    }
}

fn draw_from_box<W: Sink>(sink: &mut W, language: Language, from_box: Option<(Wheel, Letter)>)
    ensures { Draws W.taken W.has_failed sink.old sink.new (from_box_shown from_box) }
{
    match from_box {
        None => {}
        Some((wheel, ring)) => fill(
            sink,
            language,
            BOX_WHEEL,
            &[
                Value::Wheel(wheel),
                Value::Letter(ring),
                Value::Ordinal(ring),
            ],
        ),
    }
}

/// For a slot whose wheel comes from the box: this wheel, and the letter of its ring on `machine`. Otherwise `None`.
fn wheel_from_box(page: &Page<'_>, machine: &Machine, slot: u8) -> Option<(Wheel, Letter)>
    ensures { result ≡ wheel_from_box page.now machine.now slot }
{
    let wheel = lone_wheel(page.after(), page.before(), slot)?;
    let ring = machine.ring(wheel)?;
    Some((wheel, ring))
}

/// Writes the step in which the wheels and the reflector are put in.
pub(crate) fn draw_seats_step<W: Sink>(sink: &mut W, page: &Page<'_>)
    ensures { Draws W.taken W.has_failed sink.old sink.new (seats_step page.now) }
{
    let count = page.count_at(&Step::Seats.spot());
    if count == 0 {
        draw_idle(sink, page.language(), Word::Seats);
    } else {
        draw_seats(sink, page, count);
    }
}

/// Writes the parts that go into the box, and the `count` checkboxes of the parts to put into the machine.
fn draw_seats<W: Sink>(sink: &mut W, page: &Page<'_>, count: u8)
    ensures { Draws W.taken W.has_failed sink.old sink.new (some_seats_text page.now count) }
{
    draw_step(sink, page, Word::Seats, count);
    draw_boxed(sink, page);
    draw_list(sink, page, Step::Seats);
}

/// Writes which wheels and which reflector go into the box. If none do, writes nothing.
fn draw_boxed<W: Sink>(sink: &mut W, page: &Page<'_>)
    ensures { Draws W.taken W.has_failed sink.old sink.new (boxed_text page.now) }
{
    if has_lone_wheel(page.before(), page.after(), &SLOTS) || boxed_reflector(page).is_some() {
        draw_all_boxed(sink, page);
    }
}

fn draw_all_boxed<W: Sink>(sink: &mut W, page: &Page<'_>)
    ensures { Draws W.taken W.has_failed sink.old sink.new (all_boxed_text page.now) }
{
    draw_in(sink, page.language(), BOXED);
    draw_boxed_wheels(sink, page, &SLOTS);
    draw_boxed_reflector(sink, page.language(), boxed_reflector(page));
    draw(sink, BOXED_END);
}

fn draw_boxed_wheels<W: Sink>(sink: &mut W, page: &Page<'_>, slots: &[u8])
    ensures { Draws W.taken W.has_failed sink.old sink.new
        (flat_map (λ slot. wheel_boxed_text (lone_wheel page.now.before page.now.after slot))
        slots.now) }
{
    if let [slot, rest @ ..] = slots {
        let wheel = lone_wheel(page.before(), page.after(), *slot);
        draw_boxed_wheel(sink, page.language(), wheel);
        draw_boxed_wheels(sink, page, rest);
    }
}

fn draw_boxed_wheel<W: Sink>(sink: &mut W, language: Language, wheel: Option<Wheel>)
    ensures { Draws W.taken W.has_failed sink.old sink.new (wheel_boxed_text wheel) }
{
    match wheel {
        None => {}
        Some(wheel) => fill(sink, language, BOXED_WHEEL, &[Value::Wheel(wheel)]),
    }
}

fn draw_boxed_reflector<W: Sink>(sink: &mut W, language: Language, reflector: Option<Reflector>)
    ensures { Draws W.taken W.has_failed sink.old sink.new (reflector_boxed_text language reflector) }
{
    match reflector {
        None => {}
        Some(reflector) => fill_in(
            sink,
            language,
            BOXED_REFLECTOR,
            &[Value::Reflector(reflector)],
        ),
    }
}

/// Whether one of the slots of `machine` has a wheel that no slot of `other` has.
fn has_lone_wheel(machine: &Machine, other: &Machine, slots: &[u8]) -> bool
    ensures { result ≡ has_lone_wheel machine.now other.now slots.now }
{
    match slots {
        [slot, rest @ ..] => {
            lone_wheel(machine, other, *slot).is_some() || has_lone_wheel(machine, other, rest)
        }
        [] => false,
    }
}

/// The wheel in slot `slot` of `machine`. `None` if the slot has no wheel, or if a slot of `other` has this wheel.
fn lone_wheel(machine: &Machine, other: &Machine, slot: u8) -> Option<Wheel>
    ensures { result ≡ lone_wheel machine.now other.now slot }
{
    let wheel = machine.slot(slot)??;
    match slot_holding(other, wheel, &SLOTS) {
        None => Some(wheel),
        Some(_) => None,
    }
}

/// The reflector before the settings. `None` if there is none, or if the machine still has it after the settings.
fn boxed_reflector(page: &Page<'_>) -> Option<Reflector>
    ensures { result ≡ boxed_reflector page.now }
{
    let reflector = page.before().reflector()?;
    if page.after().reflector() == Some(reflector) {
        None
    } else {
        Some(reflector)
    }
}
