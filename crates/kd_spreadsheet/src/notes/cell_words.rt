//! The words that say what is wrong with the text of a cell.
use super::letter_words::{off_wheel_words, pair_words, pins_words};
use super::words::{Value, Words};
use crate::cell::{Cell, day_in, slots, windows};
use crate::items::{CELL_LIMIT, FromWord, is_blank, push_item_text, values_in};
use crate::names::{model_named, reflector_named};
use crate::texts::{
    BAR_COUNT, CountText, IS_NO_BAR, IS_NO_DAY, IS_NO_GROUP, IS_NO_WHEEL, LETTER_COUNT, NEVER_LEFT,
    NO_LETTER_OR_NUMBER, NO_MODEL, NO_REFLECTOR, NOTHING, ONLY_LEFT, TOO_LONG, TOO_MANY_GROUPS,
    WHEEL_COUNT, WHEEL_TWICE,
};
use arrayvec::ArrayVec;
use kd_language::{Language, Text};
use kd_slips::texts::NOT_IN_BOX;
use kd_slips::{box_words, model_name};
use kd_tables::{Letter, Model, Reading, Wheel, allowed, in_box, split_words};

/// Says in `language` what is wrong with the text of `cell`, in a row of `model`.
pub fn cell_words(language: Language, cell: Cell, model: Option<Model>, text: &[u8]) -> Words {
    let mut words = Words::new(language);
    let lines = &mut words;
    match cell {
        Cell::Day => day_words(lines, text),
        Cell::Model => model_words(lines, text),
        Cell::Reflector => reflector_words(lines, model, text),
        Cell::Wheels => wheel_words(lines, model, text),
        Cell::Rings => letter_words(lines, text, slots(model)),
        Cell::Window => window_words(lines, model, text),
        Cell::Plugs => pair_words(lines, text),
        Cell::Groups => group_words(lines, text),
        Cell::List => letter_words(lines, text, 2),
        Cell::Pins1 => pins_words(lines, text, 1),
        Cell::Pins2 => pins_words(lines, text, 2),
        Cell::Pins3 => pins_words(lines, text, 3),
        Cell::Pins4 => pins_words(lines, text, 4),
        Cell::Pins5 => pins_words(lines, text, 5),
        Cell::Pins6 => pins_words(lines, text, 6),
        Cell::Bars => bar_words(lines, text),
    }
    words
}

/// Writes the line `what` for each word of `text` that can't be read as a value. If `text` is blank or too long, writes
/// a line that says so. `what` is a template with one value: the word.
pub fn item_words<T: FromWord + Copy>(lines: &mut Words, text: &[u8], what: Text) {
    if is_blank(text) {
        lines.tell(NOTHING, &[]);
    } else if !has_told_words::<T>(lines, text, what) {
        lines.tell(TOO_LONG, &[]);
    }
}

/// Writes the line `what` for each word of `text` that can't be read as a value. Returns false if `text` is too long.
fn has_told_words<T: FromWord + Copy>(lines: &mut Words, text: &[u8], what: Text) -> bool {
    if text.len() > CELL_LIMIT {
        return false;
    }
    let mut items = ArrayVec::new();
    push_item_text(&mut items, T::rule(), text);
    match split_words::<192>(items.as_slice()) {
        Some(words) => {
            tell_words::<T>(lines, words.as_slice(), what);
            true
        }
        None => false,
    }
}

/// Writes the line `what` for each word in `words` that can't be read as a value.
fn tell_words<T: FromWord + Copy>(lines: &mut Words, words: &[&[u8]], what: Text) {
    for word in words {
        if !word.is_empty() && T::read_word(word).is_none() {
            lines.tell(what, &[Value::Cell(word)]);
        }
    }
}

/// Says that `found` letters, wheels or bars are in a cell that should have `count`.
fn count_words(lines: &mut Words, found: usize, count: usize, text: CountText) {
    let text = if found == 1 { text.0 } else { text.1 };
    lines.tell(
        text,
        &[Value::Number(found as u64), Value::Number(count as u64)],
    );
}

/// Says that `text` is blank, or isn't a day from 1 to 31. Says nothing if `text` is a day.
pub fn day_words(lines: &mut Words, text: &[u8]) {
    if is_blank(text) {
        lines.tell(NOTHING, &[]);
    } else if day_in(text).is_none() {
        lines.tell(IS_NO_DAY, &[Value::Cell(text)]);
    }
}

fn model_words(lines: &mut Words, text: &[u8]) {
    if is_blank(text) {
        lines.tell(NOTHING, &[]);
    } else if model_named(text).is_none() {
        lines.tell(NO_MODEL, &[Value::Cell(text)]);
    }
}

fn reflector_words(lines: &mut Words, model: Option<Model>, text: &[u8]) {
    let Some(model) = model else {
        return;
    };
    if is_blank(text) {
        lines.tell(NOTHING, &[]);
    } else if reflector_named(model, text).is_none() {
        let name = model.text();
        lines.tell(
            NO_REFLECTOR,
            &[Value::Text(name.as_str()), Value::Cell(text)],
        );
    }
}

/// Says which words don't mean a letter, or that the number of letters isn't `count`.
fn letter_words(lines: &mut Words, text: &[u8], count: usize) {
    match values_in::<Letter>(text) {
        Some(letters) if letters.len() == count => {}
        Some(letters) if !letters.is_empty() => {
            count_words(lines, letters.len(), count, LETTER_COUNT);
        }
        _ => item_words::<Letter>(lines, text, NO_LETTER_OR_NUMBER),
    }
}

/// Says what is wrong with the window letters. On a Converter, also says which of them aren't on their wheels.
fn window_words(lines: &mut Words, model: Option<Model>, text: &[u8]) {
    letter_words(lines, text, windows(model));
    if model == Some(Model::M209)
        && let Some(letters) = values_in::<Letter>(text)
        && letters.len() == 6
    {
        off_wheels_words(lines, 1, letters.as_slice());
    }
}

/// Says which of the letters aren't on their wheels. The first letter is for wheel `wheel`.
fn off_wheels_words(lines: &mut Words, wheel: u8, letters: &[Letter]) {
    if let [letter, rest @ ..] = letters {
        off_wheel_words(lines, wheel, *letter);
        off_wheels_words(lines, wheel.saturating_add(1), rest);
    }
}

fn wheel_words(lines: &mut Words, model: Option<Model>, text: &[u8]) {
    let count = slots(model);
    match values_in::<Option<Wheel>>(text) {
        Some(wheels) if !wheels.is_empty() => {
            let is_whole = wheels.len() == count;
            if !is_whole {
                count_words(lines, wheels.len(), count, WHEEL_COUNT);
            }
            if let Some(model) = model {
                seat_words(lines, wheels.as_slice(), model, is_whole);
            }
        }
        _ => item_words::<Option<Wheel>>(lines, text, IS_NO_WHEEL),
    }
}

/// Says which wheels aren't in the model's box, and which wheels come twice. If there is a wheel for each slot
/// (`is_whole`), also says which wheels can't be in their slots.
fn seat_words(lines: &mut Words, wheels: &[Option<Wheel>], model: Model, is_whole: bool) {
    for (index, wheel) in wheels.iter().enumerate() {
        if let Some(wheel) = *wheel {
            let slot = if is_whole && index < 4 {
                index as u8 + 1
            } else {
                0
            };
            one_seat_words(lines, wheel, model, slot);
            if wheels[..index].contains(&Some(wheel)) {
                one_wheel_words(lines, WHEEL_TWICE, wheel);
            }
        }
    }
}

/// Says that `wheel` isn't in the model's box, or can't be in slot `slot`. If the slot isn't known, `slot` is 0.
fn one_seat_words(lines: &mut Words, wheel: Wheel, model: Model, slot: u8) {
    if !in_box(model, wheel) {
        no_box_words(lines, wheel, model);
    } else if slot != 0 && !allowed(model, slot, wheel) {
        one_wheel_words(lines, seat_rule(wheel), wheel);
    }
}

/// Writes the line `what`, a template with one value: the wheel.
fn one_wheel_words(lines: &mut Words, what: Text, wheel: Wheel) {
    let name = wheel.text();
    lines.tell(what, &[Value::Text(name.as_str())]);
}

/// Says that `wheel` isn't in the model's box.
fn no_box_words(lines: &mut Words, wheel: Wheel, model: Model) {
    let name = wheel.text();
    let language = lines.language();
    lines.tell(
        NOT_IN_BOX,
        &[
            Value::Text(name.as_str()),
            Value::Text(model_name(language, model)),
            Value::Text(box_words(language, model)),
        ],
    );
}

/// The words for a wheel that can't be in its slot of an M4.
fn seat_rule(wheel: Wheel) -> Text {
    match wheel {
        Wheel::Beta | Wheel::Gamma => ONLY_LEFT,
        _ => NEVER_LEFT,
    }
}

fn group_words(lines: &mut Words, text: &[u8]) {
    match values_in::<[Letter; 3]>(text) {
        Some(groups) if groups.len() > 4 => lines.tell(TOO_MANY_GROUPS, &[]),
        Some(_) => {}
        None => item_words::<[Letter; 3]>(lines, text, IS_NO_GROUP),
    }
}

fn bar_words(lines: &mut Words, text: &[u8]) {
    match values_in::<Reading>(text) {
        Some(rows) if rows.len() == 27 => {}
        Some(rows) if !rows.is_empty() => count_words(lines, rows.len(), 27, BAR_COUNT),
        _ => item_words::<Reading>(lines, text, IS_NO_BAR),
    }
}
