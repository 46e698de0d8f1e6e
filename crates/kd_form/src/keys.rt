//! `Keys`: the keys that the sender chose for one part of a form.
use kd_state::PerSlot;
use kd_tables::Letter;

/// The keys that the sender chose for one part of a form.
#[derive(Clone, Copy)]
pub enum Keys {
    Rotor(RotorKeys),
    Pin(PinKeys),
}

/// The keys of a part on a rotor machine.
#[derive(Clone, Copy)]
pub struct RotorKeys {
    /// The ground setting: the letters in the windows before the message key is enciphered.
    pub ground_setting: PerSlot<Letter>,
    /// The message key: the letters in the windows before the text is enciphered.
    pub message_key: PerSlot<Letter>,
    /// Two letters of the sender's choice, written before the group.
    pub fillers: [Letter; 2],
    /// Three letters: one of the day's groups, with its letters in any order.
    pub group: [Letter; 3],
}

/// The keys of a part on the Converter M-209.
#[derive(Clone, Copy)]
pub struct PinKeys {
    /// The letter that is enciphered twelve times for the internal key.
    pub chosen: Letter,
    /// The letters that the windows show before `chosen` is enciphered.
    pub external: [Letter; 6],
}

/// A placeholder: an `ArrayVec` of keys needs a value for its unused places.
impl Default for Keys {
    fn default() -> Self {
        Keys::Pin(PinKeys {
            chosen: Letter::A,
            external: [Letter::A; 6],
        })
    }
}
