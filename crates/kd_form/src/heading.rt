//! `Heading`: the values in the heading line of a part of a form.
use kd_state::PerSlot;
use kd_tables::Letter;

/// The values in the heading line of a part.
#[derive(Clone, Copy)]
pub struct Heading {
    /// The part's number, counted from 1.
    pub part: u8,
    /// The number of parts of the form.
    pub parts: u8,
    /// The number of letters in the body.
    pub letters: usize,
    /// The indicator of a rotor machine's message part; `None` on the Converter M-209.
    pub indicator: Option<Indicator>,
}

/// The indicator in a rotor machine's heading: the ground setting and the enciphered message key.
#[derive(Clone, Copy)]
pub struct Indicator {
    /// The ground setting: the letters in the windows before the message key is deciphered.
    pub ground_setting: PerSlot<Letter>,
    /// The enciphered message key.
    pub enciphered_key: PerSlot<Letter>,
}
