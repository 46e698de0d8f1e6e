//! The reasons why a card doesn't prove itself.
ghost use Rattle.std.specs.Prelude.{◌≡◌, Some};
ghost use Rattle.kd_prices.specs.FaultText.{doubt_text};

use kd_state::{IllegalAt, Why};
use kd_tables::{Refusal, RefusalText};
use std::fmt;
use thiserror::Error;

/// Why a card doesn't prove itself. In a doubt, line 1 is the card's first setting.
#[derive(Clone, Copy, Debug, PartialEq, Eq, Error)]
pub enum Doubt {
    /// The machine and the day are of different models, or the prices aren't for this machine.
    ///
    /// Cards for rotor machines have prices of cables, and cards for the Converter have prices of bars.
    OtherModel,
    /// The card has prices by kind, but not for exactly the kinds that the machine and the day have, or with another
    /// count of a kind.
    PriceMissing,
    /// After the earlier lines are carried out, the machine refuses this line for this reason.
    IllegalAt(usize, Why),
    /// After the card's settings, the machine isn't set as the day says, or shows other letters than the day's.
    NotTheSheet,
    /// In the table of costs, the prices of this row and this column together exceed the cost in their cell.
    ///
    /// Of all cells whose prices are too high, this cell is the first, row by row. Rows and columns are counted from 1.
    /// A row of the table is for a cable or a bar. A column is for a pair, for no pair, or for a row of the sheet.
    PriceTooHigh(u8, u8),
    /// The sum of the prices isn't the number of lines that change a cable or a bar.
    SumDiffers,
    /// The first line that isn't needed. A line is needed if it changes a cable or a bar, or if it lowers the number
    /// of loose things by one. A ring, for example, is loose if it isn't as the day says; cables and bars are never
    /// loose.
    NeedlessLine(usize),
}

impl Doubt {
    /// The refusal's text, such as `17 NeedlessLine 2`: number and name, and then any details of the doubt.
    pub fn text(&self) -> RefusalText
        ensures { result.bytes ≡ doubt_text self.now }
    {
        match *self {
            Doubt::OtherModel => Refusal::OtherModel.text(),
            Doubt::PriceMissing => Refusal::PriceMissing.text(),
            Doubt::IllegalAt(line, why) => IllegalAt { line, why }.text(),
            Doubt::NotTheSheet => Refusal::NotTheSheet.text(),
            Doubt::PriceTooHigh(i, j) => Refusal::PriceTooHigh.text_at_both(
                usize::from(i),
                usize::from(j),
            ),
            Doubt::SumDiffers => Refusal::SumDiffers.text(),
            Doubt::NeedlessLine(line) => Refusal::NeedlessLine.text_at(line),
        }
    }
}

impl fmt::Display for Doubt {
    ghost output = { λ fault. Some (doubt_text fault) };

    fn fmt<W: fmt::Write>(&self, f: &mut fmt::Formatter<W>) -> fmt::Result {
        f.write_str(self.text().as_str())
    }
}
