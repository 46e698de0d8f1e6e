//! Why bytes are not the text of a card.
ghost use Rattle.std.specs.Prelude.{◌≡◌, Some};
ghost use Rattle.kd_card.specs.FaultText.{card_fault_text};

use kd_tables::{Refusal, RefusalText};
use std::fmt;
use thiserror::Error;

/// Why bytes are not the text of a card. Lines are counted from 1.
#[derive(Clone, Copy, Debug, PartialEq, Eq, Error)]
pub enum CardFault {
    /// The first line has no LF, or isn't like `CARD 2 DAY 31`. A version is 1 or 2, and a day is from 1 to 31.
    BadHead,
    /// The line with this number is missing, has no LF, has a wrong form, or is out of order.
    BadLine(usize),
    /// There are more than 192 settings.
    TooMany,
    /// A price line is missing or has a wrong first word, or the number of prices is wrong.
    PriceMissing,
    /// The number after `SETTINGS` isn't the number of settings, or the number after `SUM` isn't the sum of the prices.
    CountWrong,
    /// Bytes follow the last line of the card.
    Trailing,
}

impl CardFault {
    /// The refusal's text, such as `8 BadLine 3`: number and name, and the line's number if there is one.
    pub fn text(&self) -> RefusalText
        ensures { result.bytes ≡ card_fault_text self.now }
    {
        match *self {
            CardFault::BadHead => Refusal::BadHead.text(),
            CardFault::BadLine(line) => Refusal::BadLine.text_at(line),
            CardFault::TooMany => Refusal::TooMany.text(),
            CardFault::PriceMissing => Refusal::PriceMissing.text(),
            CardFault::CountWrong => Refusal::CardCountWrong.text(),
            CardFault::Trailing => Refusal::Trailing.text(),
        }
    }
}

impl fmt::Display for CardFault {
    ghost output = { λ fault. Some (card_fault_text fault) };

    fn fmt<W: fmt::Write>(&self, f: &mut fmt::Formatter<W>) -> fmt::Result {
        f.write_str(self.text().as_str())
    }
}
