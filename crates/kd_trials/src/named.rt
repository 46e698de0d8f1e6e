//! Names for the texts in module `texts`, and texts with a change.
//!
//! A table of cases is proved far faster with names than with the texts themselves.
use crate::texts;
use std::alloc::{AllocError, Global};

/// The name of a machine file, a sheet, a card or a form in module `texts`, or of the empty text.
#[derive(Clone, Copy)]
pub enum TextName {
    M1,
    M1Written,
    TenCables,
    TenCablesWritten,
    M209,
    M4AsEnigma,
    M4,
    AllMet,
    WithoutPins,
    UnlikeBars,
    PlainDay,
    DayOf1941,
    DayOfM4,
    DayWithoutPins,
    DayOfAllMet,
    DayOfUnlikeBars,
    Sheet,
    TwoCables,
    OneLug,
    NoSettings,
    NoLugs,
    Highest,
    TwoCableKinds,
    BarKinds,
    EmptyKinds,
    AlikeBars,
    HalfCables,
    UnlikeBarKinds,
    OneBarKind,
    UnlikeCableKinds,
    Message,
    Empty,
}

impl TextName {
    /// The text with this name.
    pub fn text(self) -> &'static str {
        match self {
            TextName::M1 => texts::M1,
            TextName::M1Written => texts::M1_WRITTEN,
            TextName::TenCables => texts::TEN_CABLES,
            TextName::TenCablesWritten => texts::TEN_CABLES_WRITTEN,
            TextName::M209 => texts::M209,
            TextName::M4AsEnigma => texts::M4_AS_ENIGMA,
            TextName::M4 => texts::M4,
            TextName::AllMet => texts::ALL_MET,
            TextName::WithoutPins => texts::WITHOUT_PINS,
            TextName::UnlikeBars => texts::UNLIKE_BARS,
            TextName::PlainDay => texts::PLAIN_DAY,
            TextName::DayOf1941 => texts::DAY_OF_1941,
            TextName::DayOfM4 => texts::DAY_OF_M4,
            TextName::DayWithoutPins => texts::DAY_WITHOUT_PINS,
            TextName::DayOfAllMet => texts::DAY_OF_ALL_MET,
            TextName::DayOfUnlikeBars => texts::DAY_OF_UNLIKE_BARS,
            TextName::Sheet => texts::SHEET,
            TextName::TwoCables => texts::TWO_CABLES,
            TextName::OneLug => texts::ONE_LUG,
            TextName::NoSettings => texts::NO_SETTINGS,
            TextName::NoLugs => texts::NO_LUGS,
            TextName::Highest => texts::HIGHEST,
            TextName::TwoCableKinds => texts::TWO_CABLE_KINDS,
            TextName::BarKinds => texts::BAR_KINDS,
            TextName::EmptyKinds => texts::EMPTY_KINDS,
            TextName::AlikeBars => texts::ALIKE_BARS,
            TextName::HalfCables => texts::HALF_CABLES,
            TextName::UnlikeBarKinds => texts::UNLIKE_BAR_KINDS,
            TextName::OneBarKind => texts::ONE_BAR_KIND,
            TextName::UnlikeCableKinds => texts::UNLIKE_CABLE_KINDS,
            TextName::Message => texts::MESSAGE,
            TextName::Empty => "",
        }
    }
}

/// A text with a change: its name, a part of it, and what replaces the part wherever it is in the text.
///
/// If both parts are empty, the text isn't changed. An empty part of the empty text is replaced by a whole text.
pub type File = (TextName, &'static str, &'static str);

/// The text of `file`, after its change.
pub fn changed(alloc: Global, (name, old, new): &File) -> Result<String, AllocError> {
    name.text().replace(alloc, old, new)
}
