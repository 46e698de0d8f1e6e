//! The line of a setting, as it stands in a card or in a list.
ghost use Rattle.std.specs.Prelude.{◌≡◌, ◌≢◌, ◌<◌, ◌≤◌, [], ◌∷◌, ◌++◌, codes, length, map, decimal};
ghost use Rattle.std.specs.Prelude.{IfSome, MatchOption};
ghost use Rattle.arrayvec.specs.ArrayString.{array_string_len};
ghost use Rattle.kd_state.specs.declared.setting.Setting.TheVariants.{Seat, SeatReflector, RingTo, PinTo, LugTo};
ghost use Rattle.kd_tables.specs.Text.{letters_text};
ghost use Rattle.kd_state.specs.Line.{setting_line, on_off_text, IsSettingInRange, IsSettingOfWords};

use crate::prover_facts::learn_setting_range;
use crate::setting::Setting;
use arrayvec::ArrayString;
use kd_tables::{
    Letter, Lug, Place, Reflector, Wheel, is_word, letter_of_text, number_of_text, push_letter,
    push_number, split_words,
};

impl Setting {
    /// The setting's line without LF, such as `PULL 3 K`.
    pub fn line(&self) -> ArrayString<24>
        ensures value { result.bytes ≡ setting_line self.now }
        ensures short { array_string_len result < 24 }
        ensures in_range { IsSettingInRange self.now }
    {
        learn_setting_range(self);
        match *self {
            Setting::Pull { cable, letter } => letter_line("PULL", cable, letter),
            Setting::Put { cable, letter } => letter_line("PUT", cable, letter),
            Setting::Seat { slot, wheel } => seat_line(slot, wheel),
            Setting::SeatReflector { reflector } => reflector_line(reflector),
            Setting::RingTo { wheel, letter } => ring_setting_line(wheel, letter),
            Setting::Turn { slot, letter } => letter_line("TURN", slot, letter),
            Setting::PinTo {
                wheel,
                letter,
                effective,
            } => pin_line(wheel, letter, effective),
            Setting::LugTo { bar, lug, place } => lug_line(bar, lug, place),
        }
    }

    /// The setting with the line `text`, which has no LF; `None` if `text` isn't the line of a setting.
    #[tactic(auto, using(crate::proofs::Lines::too_many_words, crate::proofs::Lines::read_by_words))]
    pub fn from_line(text: &[u8]) -> Option<Self>
        ensures value { MatchOption result
            ((x : _) → IsSettingInRange x → setting_line x ≢ text.now)
            (λ x. setting_line x ≡ text.now) }
        ensures in_range { IfSome result IsSettingInRange }
    {
        let words = split_words::<4>(text)?;
        setting_of_words(words.as_slice())
    }
}

/// The beginning of a setting's line: `word` and `number`, each with a space after it.
fn line_prefix(word: &str, number: u8) -> ArrayString<24>
    requires { length word.now ≤ 4 }
    ensures bytes { result.bytes ≡ word.now ++ 32 ∷ decimal number ++ 32 ∷ [] }
    ensures short { array_string_len result ≤ 9 }
{
    let mut line = ArrayString::new();
    line.push_str(word);
    line.push_str(" ");
    push_number(&mut line, number);
    line.push_str(" ");
    line
}

/// A line of three words: `word`, `number` and `letter`.
fn letter_line(word: &str, number: u8, letter: Letter) -> ArrayString<24>
    requires { length word.now ≤ 4 }
    ensures bytes { result.bytes ≡ word.now ++ 32 ∷ decimal number ++ 32 ∷ letters_text (letter ∷ []) }
    ensures short { array_string_len result ≤ 10 }
{
    let mut line = line_prefix(word, number);
    push_letter(&mut line, letter);
    line
}

/// The line of the setting that puts `wheel` into slot `slot`.
fn seat_line(slot: u8, wheel: Wheel) -> ArrayString<24>
    ensures value { result.bytes ≡ setting_line (Seat slot wheel) }
    ensures short { array_string_len result < 24 }
{
    let mut line = line_prefix("SEAT", slot);
    line.push_str(wheel.text().as_str());
    line
}

/// The line of the setting that puts `reflector` into the machine.
fn reflector_line(reflector: Reflector) -> ArrayString<24>
    ensures value { result.bytes ≡ setting_line (SeatReflector reflector) }
    ensures short { array_string_len result < 24 }
{
    let mut line = ArrayString::new();
    line.push_str("REFLECTOR ");
    line.push_str(reflector.text().as_str());
    line
}

/// The line of the setting that sets the ring of `wheel` to `letter`.
fn ring_setting_line(wheel: Wheel, letter: Letter) -> ArrayString<24>
    ensures value { result.bytes ≡ setting_line (RingTo wheel letter) }
    ensures short { array_string_len result < 24 }
{
    let mut line = ArrayString::new();
    line.push_str("RING ");
    line.push_str(wheel.text().as_str());
    line.push_str(" ");
    push_letter(&mut line, letter);
    line
}

/// The line of the setting that makes the pin at `letter` of pin wheel `wheel` effective, or not effective.
fn pin_line(wheel: u8, letter: Letter, effective: bool) -> ArrayString<24>
    ensures value { result.bytes ≡ setting_line (PinTo wheel letter effective) }
    ensures short { array_string_len result < 24 }
{
    let mut line = letter_line("PIN", wheel, letter);
    line.push_str(if effective { " ON" } else { " OFF" });
    line
}

/// The line of the setting that moves the lug `lug` of bar `bar` to `place`.
fn lug_line(bar: u8, lug: Lug, place: Place) -> ArrayString<24>
    ensures value { result.bytes ≡ setting_line (LugTo bar lug place) }
    ensures short { array_string_len result < 24 }
{
    let mut line = line_prefix("LUG", bar);
    line.push_str(lug.text().as_str());
    line.push_str(" ");
    line.push_str(place.text().as_str());
    line
}

/// The setting whose line has exactly the words `words`; `None` if there is no such setting.
fn setting_of_words(words: &[&[u8]]) -> Option<Setting>
    ensures { IsSettingOfWords (map (λ word. word.now) words.now) result }
{
    match words {
        [keyword, value] => setting_of_two_words(keyword, value),
        [keyword, first, second] => setting_of_three_words(keyword, first, second),
        [keyword, first, second, third] => setting_of_four_words(keyword, first, second, third),
        _ => None,
    }
}

/// The setting whose line has the words `keyword` and `value`; `None` if there is no such setting.
fn setting_of_two_words(keyword: &[u8], value: &[u8]) -> Option<Setting>
    ensures { IsSettingOfWords (keyword.now ∷ value.now ∷ []) result }
{
    if !is_word(keyword, "REFLECTOR") {
        return None;
    }
    Some(Setting::SeatReflector {
        reflector: Reflector::from_text(value)?,
    })
}

/// The setting whose line has the words `keyword`, `first` and `second`; `None` if there is no such setting.
fn setting_of_three_words(keyword: &[u8], first: &[u8], second: &[u8]) -> Option<Setting>
    ensures { IsSettingOfWords (keyword.now ∷ first.now ∷ second.now ∷ []) result }
{
    if is_word(keyword, "RING") {
        return ring_setting(first, second);
    }
    let number = number_of_text(first)?;
    if is_word(keyword, "SEAT") {
        seat_setting(number, second)
    } else {
        letter_setting(keyword, number, second)
    }
}

/// The setting whose line has the words `RING`, `wheel` and `letter`; `None` if there is no such setting.
fn ring_setting(wheel: &[u8], letter: &[u8]) -> Option<Setting>
    ensures { IsSettingOfWords (codes "RING" ∷ wheel.now ∷ letter.now ∷ []) result }
{
    Some(Setting::RingTo {
        wheel: Wheel::from_text(wheel)?,
        letter: letter_of_text(letter)?,
    })
}

/// The setting whose line has the words `SEAT`, `slot` and `wheel`; `None` if there is no such setting.
fn seat_setting(slot: u8, wheel: &[u8]) -> Option<Setting>
    ensures { IsSettingOfWords (codes "SEAT" ∷ decimal slot ∷ wheel.now ∷ []) result }
{
    Some(Setting::Seat {
        slot,
        wheel: Wheel::from_text(wheel)?,
    })
}

/// The setting whose line has the words `keyword`, `number` and `letter`; `None` if there is no such setting.
fn letter_setting(keyword: &[u8], number: u8, letter: &[u8]) -> Option<Setting>
    requires no_ring { keyword.now ≢ codes "RING" }
    requires no_seat { keyword.now ≢ codes "SEAT" }
    ensures { IsSettingOfWords (keyword.now ∷ decimal number ∷ letter.now ∷ []) result }
{
    let letter = letter_of_text(letter)?;
    if is_word(keyword, "PULL") {
        Some(Setting::Pull {
            cable: number,
            letter,
        })
    } else if is_word(keyword, "PUT") {
        Some(Setting::Put {
            cable: number,
            letter,
        })
    } else if is_word(keyword, "TURN") {
        Some(Setting::Turn {
            slot: number,
            letter,
        })
    } else {
        None
    }
}

/// The setting whose line has the words `keyword`, `first`, `second` and `third`; `None` if there is no such setting.
fn setting_of_four_words(
    keyword: &[u8],
    first: &[u8],
    second: &[u8],
    third: &[u8],
) -> Option<Setting>
    ensures { IsSettingOfWords (keyword.now ∷ first.now ∷ second.now ∷ third.now ∷ []) result }
{
    let number = number_of_text(first)?;
    if is_word(keyword, "PIN") {
        pin_setting(number, second, third)
    } else if is_word(keyword, "LUG") {
        lug_setting(number, second, third)
    } else {
        None
    }
}

/// The setting whose line has the words `PIN`, `wheel`, `letter` and `effective`; `None` if there is no such setting.
fn pin_setting(wheel: u8, letter: &[u8], effective: &[u8]) -> Option<Setting>
    ensures { IsSettingOfWords (codes "PIN" ∷ decimal wheel ∷ letter.now ∷ effective.now ∷ []) result }
{
    Some(Setting::PinTo {
        wheel,
        letter: letter_of_text(letter)?,
        effective: effective_of_text(effective)?,
    })
}

/// The setting whose line has the words `LUG`, `bar`, `lug` and `place`; `None` if there is no such setting.
fn lug_setting(bar: u8, lug: &[u8], place: &[u8]) -> Option<Setting>
    ensures { IsSettingOfWords (codes "LUG" ∷ decimal bar ∷ lug.now ∷ place.now ∷ []) result }
{
    Some(Setting::LugTo {
        bar,
        lug: Lug::from_text(lug)?,
        place: Place::from_text(place)?,
    })
}

/// Reads whether a pin is effective: true for `ON`, false for `OFF`, and `None` for other texts.
fn effective_of_text(text: &[u8]) -> Option<bool>
    ensures { MatchOption result
        ((effective : _) → on_off_text effective ≢ text.now)
        (λ effective. on_off_text effective ≡ text.now) }
{
    if is_word(text, "ON") {
        Some(true)
    } else if is_word(text, "OFF") {
        Some(false)
    } else {
        None
    }
}
