//! `DamagedText`: a part's text, as far as it can be read, and the warnings about it.

use arrayvec::ArrayVec;
use kd_form::heading::Indicator;
use kd_form::keys::PinKeys;
use kd_tables::Letter;

/// A part's text, as far as it can be read. Letters of the part may be lost.
#[derive(Drop)]
pub struct DamagedText {
    /// The letters of the text; `None` where a letter was lost.
    pub letters: ArrayVec<Option<Letter>, 500>,
    /// The letters of the body, as they were received; `None` where a letter was lost.
    pub received: ArrayVec<Option<Letter>, 520>,
    /// The keys with which the text was deciphered.
    pub keys: TextKeys,
    /// Whether the part's group or, on the Converter M-209, the part's list letters belong to the day.
    pub group: GroupTest,
    /// Which copies of a Converter's indicators have lost letters; `None` on a rotor machine.
    pub copies: Option<LostCopies>,
}

/// The keys with which a text was deciphered.
#[derive(Drop)]
pub enum TextKeys {
    /// On a rotor machine, the keys in the heading.
    Rotor(Indicator),
    /// On the Converter M-209, the keys in the indicators.
    Pin(PinTextKeys),
}

/// The keys with which a text on the Converter M-209 was deciphered.
#[derive(Drop)]
pub struct PinTextKeys {
    /// The chosen letter and the external letters, put together from both copies.
    pub indicator: PinKeys,
    /// The internal key: the letters on the wheels before the text is deciphered.
    pub internal: ArrayVec<Letter, 6>,
}

/// Whether the group or, on the Converter M-209, the list letters of a part are the day's.
#[derive(Clone, Copy, Debug, PartialEq, Eq)]
pub enum GroupTest {
    /// The group or the list letters of the part belong to the day.
    Right,
    /// The group or the list letters of the part aren't the day's. The part is of another day or network, or its
    /// letters were changed on the air.
    Wrong,
    /// The group or the list letters aren't tested, for one of these reasons:
    /// - A letter of the group is lost.
    /// - On the Converter M-209, a list letter is lost in both copies.
    /// - The body is too short, or the heading is damaged.
    NotTested,
}

/// Which copies of a Converter's indicators have lost letters. One copy is the first ten letters of the body, the other
/// the last ten.
#[derive(Clone, Copy, Debug, PartialEq, Eq)]
pub struct LostCopies {
    /// Whether the copy of the indicators before the text has a lost letter.
    pub at_start: bool,
    /// Whether a letter is lost in the copy after the text.
    pub at_end: bool,
}
