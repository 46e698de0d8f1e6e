//! The checkboxes of a day's page. Except for pins, the checkbox of a setting has the setting's line.
ghost use Rattle.std.specs.Prelude.{◌≡◌, flat_map};
ghost use Rattle.kd_state.specs.declared.setting.Setting.TheVariants.{LugTo, Seat};
ghost use Rattle.kd_state.specs.Machine.{machine_standing};
ghost use Rattle.kd_pictures.specs.Drawing.{Draws};
ghost use Rattle.kd_page.specs.Boxes.{box_at, box_ring_text, box_text, boxes_at, from_box_text, lug_from_text, lug_text, lug_word};
ghost use Rattle.kd_page.specs.Boxes.{pin_mark, pin_word, seat_text, slot_holding, slot_name};
ghost use Rattle.kd_pictures.specs.declared.numbers.TheConstants.{SLOTS as ALL_SLOTS};

use crate::page::Page;
use crate::spots::{Spot, is_at};
use kd_language::Language;
use kd_pictures::numbers::SLOTS;
use kd_pictures::template::{Value, fill, fill_in};
use kd_pictures::texts::{
    BOX_RING, LUG, LUG_END, LUG_FROM, PIN, PLUG, REFLECTOR, RING, SEAT, SEAT_END, SEAT_FROM, TURN,
};
use kd_pictures::wheels::is_seated;
use kd_pictures::words::{Mark, Word};
use kd_state::{Machine, Setting};
use kd_tables::{Letter, Lug, Model, Place, Sink, Standing, Wheel};

/// Writes the checkboxes of the page's settings at `spot`.
pub(crate) fn draw_boxes<W: Sink>(sink: &mut W, page: &Page<'_>, spot: &Spot)
    ensures { Draws W.taken W.has_failed sink.old sink.new (boxes_at page.now spot.now) }
{
    draw_boxes_of(sink, page, spot, page.settings());
}

/// Which of `slots` holds `wheel`. `None` if no slot holds the wheel, which is then a spare wheel in the box.
pub(crate) fn slot_holding(machine: &Machine, wheel: Wheel, slots: &[u8]) -> Option<u8>
    ensures { result ≡ slot_holding machine.now wheel slots.now }
{
    match slots {
        [slot, ..] if is_seated(machine, *slot, wheel) => Some(*slot),
        [_, rest @ ..] => slot_holding(machine, wheel, rest),
        [] => None,
    }
}

pub(crate) fn pin_mark(effective: bool) -> Mark
    ensures { result ≡ pin_mark effective }
{
    if effective {
        Mark::Effective
    } else {
        Mark::Ineffective
    }
}

/// Writes the checkboxes that `settings` have at `spot`.
fn draw_boxes_of<W: Sink>(sink: &mut W, page: &Page<'_>, spot: &Spot, settings: &[Setting])
    ensures { Draws W.taken W.has_failed sink.old sink.new
        (flat_map (box_at page.now spot.now) settings.now) }
{
    if let [setting, rest @ ..] = settings {
        draw_box_at(sink, page, spot, setting);
        draw_boxes_of(sink, page, spot, rest);
    }
}

fn draw_box_at<W: Sink>(sink: &mut W, page: &Page<'_>, spot: &Spot, setting: &Setting)
    ensures { Draws W.taken W.has_failed sink.old sink.new
        (box_at page.now spot.now setting.now) }
{
    if is_at(spot, setting) {
        draw_box(sink, page, setting);
    }
}

fn draw_box<W: Sink>(sink: &mut W, page: &Page<'_>, setting: &Setting)
    ensures { Draws W.taken W.has_failed sink.old sink.new (box_text page.now setting.now) }
{
    let language = page.language();
    let line = Value::Line(*setting);
    match *setting {
        Setting::Pull { letter, .. } | Setting::Put { letter, .. } => {
            fill(sink, language, PLUG, &[Value::Letter(letter), line])
        }
        Setting::Seat { slot, wheel } => draw_seat(sink, page, slot, wheel),
        Setting::SeatReflector { reflector } => {
            fill_in(
                sink,
                language,
                REFLECTOR,
                &[Value::Reflector(reflector), line],
            )
        }
        Setting::RingTo { wheel, letter } => fill_in(
            sink,
            language,
            RING,
            &[
                Value::Wheel(wheel),
                Value::Letter(letter),
                Value::Ordinal(letter),
                line,
            ],
        ),
        Setting::Turn { .. } => fill(sink, language, TURN, &[line]),
        Setting::PinTo {
            letter,
            effective,
            ..
        } => fill(
            sink,
            language,
            PIN,
            &[
                Value::Letter(letter),
                Value::Mark(pin_mark(effective)),
                Value::Word(pin_word(effective)),
            ],
        ),
        Setting::LugTo { bar, lug, place } => draw_lug(sink, page, bar, lug, place),
    }
}

/// Writes the checkbox to put a wheel into a slot. If the wheel was in another slot, the checkbox says in which one.
fn draw_seat<W: Sink>(sink: &mut W, page: &Page<'_>, slot: u8, wheel: Wheel)
    ensures { Draws W.taken W.has_failed sink.old sink.new
        (seat_text page.now (Seat slot wheel) slot wheel
        (slot_holding page.now.before wheel ALL_SLOTS)) }
{
    match slot_holding(page.before(), wheel, &SLOTS) {
        None => draw_from_box(sink, page, slot, wheel),
        Some(old) => fill_in(
            sink,
            page.language(),
            SEAT_FROM,
            &[
                Value::Number(u16::from(slot)),
                Value::Word(slot_name(page.model(), slot)),
                Value::Wheel(wheel),
                Value::Number(u16::from(old)),
                Value::Line(Setting::Seat { slot, wheel }),
            ],
        ),
    }
}

/// Writes the checkbox to put a spare wheel into a slot. The checkbox says on which letter the wheel's ring has to
/// stand, because the ring can't be seen later.
fn draw_from_box<W: Sink>(sink: &mut W, page: &Page<'_>, slot: u8, wheel: Wheel)
    ensures { Draws W.taken W.has_failed sink.old sink.new
        (from_box_text page.now (Seat slot wheel) slot wheel) }
{
    fill_in(
        sink,
        page.language(),
        SEAT,
        &[
            Value::Number(u16::from(slot)),
            Value::Word(slot_name(page.model(), slot)),
            Value::Wheel(wheel),
        ],
    );
    draw_box_ring(sink, page.language(), page.after().ring(wheel));
    let line = Value::Line(Setting::Seat { slot, wheel });
    fill(sink, page.language(), SEAT_END, &[line]);
}

/// The name of a slot: right, middle, left or, on the M4, Greek.
fn slot_name(model: Model, slot: u8) -> Word
    ensures { result ≡ slot_name model slot }
{
    match model.slots().saturating_sub(slot) {
        0 => Word::Right,
        1 => Word::Middle,
        2 => Word::Left,
        _ => Word::Greek,
    }
}

/// Writes the letter on which the ring of a spare wheel has to stand.
fn draw_box_ring<W: Sink>(sink: &mut W, language: Language, ring: Option<Letter>)
    ensures { Draws W.taken W.has_failed sink.old sink.new (box_ring_text language ring) }
{
    match ring {
        None => {}
        Some(ring) => fill_in(
            sink,
            language,
            BOX_RING,
            &[Value::Letter(ring), Value::Ordinal(ring)],
        ),
    }
}

fn pin_word(effective: bool) -> Word
    ensures { result ≡ pin_word effective }
{
    if effective { Word::On } else { Word::Off }
}

/// Writes the checkbox to move a lug to a place of its bar. The checkbox also has the lug's place before the settings.
fn draw_lug<W: Sink>(sink: &mut W, page: &Page<'_>, bar: u8, lug: Lug, place: Place)
    ensures { Draws W.taken W.has_failed sink.old sink.new
        (lug_text page.now.language (LugTo bar lug place) lug
        (machine_standing page.now.before bar) place) }
{
    let language = page.language();
    fill(sink, language, LUG, &[Value::Word(lug_word(lug))]);
    draw_lug_from(sink, language, lug, page.before().standing(bar));
    let line = Value::Line(Setting::LugTo { bar, lug, place });
    fill_in(sink, language, LUG_END, &[Value::Place(place), line]);
}

fn lug_word(lug: Lug) -> Word
    ensures { result ≡ lug_word lug }
{
    match lug {
        Lug::Left => Word::LeftLug,
        Lug::Right => Word::RightLug,
    }
}

/// Writes the place of `lug` before the settings. Writes nothing if `bar` is `None`, because the machine doesn't have
/// the lug's bar.
fn draw_lug_from<W: Sink>(sink: &mut W, language: Language, lug: Lug, bar: Option<Standing>)
    ensures { Draws W.taken W.has_failed sink.old sink.new (lug_from_text language lug bar) }
{
    match (bar, lug) {
        (None, _) => {}
        (Some(bar), Lug::Left) => fill_in(sink, language, LUG_FROM, &[Value::Place(bar.left())]),
        (Some(bar), Lug::Right) => fill_in(sink, language, LUG_FROM, &[Value::Place(bar.right())]),
    }
}
