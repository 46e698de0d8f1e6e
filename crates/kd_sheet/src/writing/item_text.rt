//! Writes one item of an array: a wheel, cable, pair, group or text, or a bar's standing or reading.
ghost use Rattle.std.specs.Prelude.{◌≡◌, ℕ, List, [], ◌∷◌};
ghost use Rattle.kd_tables.specs.{Places.{standing_text, reading_text}, Tables.{wheel_text}, Text.{letters_text}};
ghost use Rattle.kd_sheet.specs.MachineText.{cable_text, slot_text};

use super::letters::letters_text;
use arrayvec::ArrayString;
use kd_state::{Cable, SheetWheel};
use kd_tables::{Letter, Reading, Standing, Wheel, push_letter};

/// The text of an array's item, at most 32 bytes.
pub type ItemString = ArrayString<32>;

/// A value that is written as a text in an array.
pub trait ItemText {
    /// The text of a value of this type, as bytes.
    ghost item_text: { Self → List ℕ };

    /// The text of `self`, as it is written in an array.
    fn item_text(&self) -> ItemString
        ensures { result.bytes ≡ item_text self.now };
}

impl ItemText for Option<Wheel> {
    ghost item_text = { slot_text };

    fn item_text(&self) -> ItemString {
        match self {
            Some(wheel) => ItemString::from(wheel.text().as_str()).unwrap(),
            None => ItemString::new(),
        }
    }
}

impl ItemText for Cable {
    ghost item_text = { cable_text };

    fn item_text(&self) -> ItemString {
        let mut text = ItemString::new();
        if let Some(letter) = self.0 {
            push_letter(&mut text, letter);
        }
        if let Some(letter) = self.1 {
            push_letter(&mut text, letter);
        }
        text
    }
}

impl ItemText for Standing {
    ghost item_text = { standing_text };

    fn item_text(&self) -> ItemString {
        ItemString::from(self.text().as_str()).unwrap()
    }
}

/// A wheel of a day is written as the wheel's name, without ring and letter.
impl ItemText for SheetWheel {
    ghost item_text = { λ w. wheel_text w.wheel };

    fn item_text(&self) -> ItemString {
        ItemString::from(self.wheel.text().as_str()).unwrap()
    }
}

impl ItemText for (Letter, Letter) {
    ghost item_text = { λ pair. letters_text (pair.0 ∷ pair.1 ∷ []) };

    fn item_text(&self) -> ItemString {
        let mut text = ItemString::new();
        push_letter(&mut text, self.0);
        push_letter(&mut text, self.1);
        text
    }
}

/// A group is written as a text of three letters.
impl ItemText for [Letter; 3] {
    ghost item_text = { letters_text };

    fn item_text(&self) -> ItemString {
        letters_text(self)
    }
}

impl ItemText for Reading {
    ghost item_text = { reading_text };

    fn item_text(&self) -> ItemString {
        ItemString::from(self.text().as_str()).unwrap()
    }
}

impl ItemText for ItemString {
    ghost item_text = { λ text. text.bytes };

    fn item_text(&self) -> ItemString {
        *self
    }
}
