//! Why a machine refuses a setting, and which setting of a list it refuses first.
ghost use Rattle.std.specs.Prelude.{◌≡◌, ◌≤◌, length};
ghost use Rattle.kd_state.specs.FaultText.{illegal_text, illegal_at_text, why_name};

use kd_tables::{Refusal, RefusalText};
use thiserror::Error;

/// Why a machine refuses a setting.
#[derive(Clone, Copy, Debug, PartialEq, Eq)]
pub enum Why {
    /// The setting is for Enigmas but the machine is a Converter, or the other way round.
    OtherModel,
    /// No cable has the number in the setting.
    NoSuchCable,
    /// The letter isn't in the cable.
    NotThere,
    /// Both ends of the cable are plugged.
    NoLooseEnd,
    /// The letter is in a cable already.
    SocketTaken,
    /// The model doesn't have the setting's wheel or reflector, or doesn't take the wheel in the setting's slot.
    WheelNotAllowed,
    /// The setting TURN names a slot that is empty or missing, or a pin wheel that doesn't exist.
    SlotEmpty,
    /// The letter isn't on the pin wheel, or a setting for a pin names a pin wheel that doesn't exist.
    NotOnWheel,
    /// No bar has the number in the setting.
    NoSuchBar,
    /// The bar's other lug is already at the place in the setting.
    PlaceTaken,
    /// The place lies beyond the bar's other lug.
    WouldPass,
}

impl Why {
    /// The reason's name, as it is written in a refusal.
    pub fn name(self) -> &'static str
        ensures value { result.now ≡ why_name self }
        ensures short { length result.now ≤ 15 }
    {
        match self {
            Why::OtherModel => "OtherModel",
            Why::NoSuchCable => "NoSuchCable",
            Why::NotThere => "NotThere",
            Why::NoLooseEnd => "NoLooseEnd",
            Why::SocketTaken => "SocketTaken",
            Why::WheelNotAllowed => "WheelNotAllowed",
            Why::SlotEmpty => "SlotEmpty",
            Why::NotOnWheel => "NotOnWheel",
            Why::NoSuchBar => "NoSuchBar",
            Why::PlaceTaken => "PlaceTaken",
            Why::WouldPass => "WouldPass",
        }
    }
}

/// The machine refuses a setting, for the reason `why`.
#[derive(Clone, Copy, Debug, Error)]
#[error("{}", self.text())]
pub struct Illegal {
    pub why: Why,
}

impl Illegal {
    /// The refusal's number and name, and the reason.
    pub fn text(&self) -> RefusalText
        ensures { result.bytes ≡ illegal_text self.now }
    {
        Refusal::Illegal.text_with_word(self.why.name())
    }
}

/// The first refusal in a list of settings: the refused setting's number, counted from 1, and the reason.
#[derive(Clone, Copy, Debug, PartialEq, Eq, Error)]
#[error("{}", self.text())]
pub struct IllegalAt {
    pub line: usize,
    pub why: Why,
}

impl IllegalAt {
    /// The refusal's number and name, the number of the line, and the reason.
    pub fn text(&self) -> RefusalText
        ensures { result.bytes ≡ illegal_at_text self.now }
    {
        Refusal::IllegalAt.text_at_with_word(self.line, self.why.name())
    }
}
