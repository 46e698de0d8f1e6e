//! The four sheets for a part. Each text has a version for each sheet.
ghost use Rattle.std.specs.Prelude.{◌≡◌};
ghost use Rattle.kd_language.specs.Language.{in_language};
ghost use Rattle.kd_part_sheet.specs.Sheet.{for_sheet};

use crate::texts::SheetText;
use kd_language::Language;

/// A sheet for sending or receiving a part, on a rotor machine or on a Converter.
#[derive(Clone, Copy)]
pub enum Sheet {
    RotorSend,
    PinSend,
    RotorReceive,
    PinReceive,
}

impl Sheet {
    /// The version of `text` for this sheet, in `language`.
    pub fn text(self, language: Language, text: SheetText) -> &'static str
        ensures { result.now ≡ for_sheet self
            (in_language language text.entry.0.0.0.now text.entry.0.0.1.now)
            (in_language language text.entry.0.1.0.now text.entry.0.1.1.now)
            (in_language language text.entry.1.0.0.now text.entry.1.0.1.now)
            (in_language language text.entry.1.1.0.now text.entry.1.1.1.now) }
    {
        let (sent, received) = text;
        match self {
            Sheet::RotorSend => language.text(sent.0),
            Sheet::PinSend => language.text(sent.1),
            Sheet::RotorReceive => language.text(received.0),
            Sheet::PinReceive => language.text(received.1),
        }
    }
}
