//! Reads the pairs of a day, from the key `plugs`. A cable of the day exchanges the two letters of a pair.
ghost use Rattle.std.specs.Prelude.{◌≡◌};
ghost use Rattle.toml.specs.View.{table_view};
ghost use Rattle.kd_sheet.specs.{Cables.{pair_for, pairs_in}, Document.{result_map}};

use super::items::{FromItem, read_up_to};
use super::letters::letters_of_text;
use crate::document::value_at;
use crate::{Key, SheetFault};
use arrayvec::ArrayVec;
use kd_tables::{Letter, is_apart};
use toml::{Table, Value};

/// Two letters that a plugged cable exchanges.
pub type Pair = (Letter, Letter);

/// Reads an item as a pair. The pair's letters must differ from each other, and from the letters of earlier pairs.
impl FromItem<()> for Pair {
    ghost parse = { λ _. pair_for };

    #[tactic(auto, unfolding(crate::specs::Cables::pair_for))]
    fn read_item(_given: &(), earlier: &[Self], item: &Value) -> Result<Self, SheetFault> {
        let [one, other] = letters_of_text::<2>(item).ok_or(SheetFault::BadValue(Key::Plugs))?;
        if !is_apart((one, other), earlier) {
            return Err(SheetFault::LetterTwice);
        }
        Ok((one, other))
    }
}

/// Reads the day's pairs, at most 13, in the sheet's order.
#[tactic(auto, unfolding(crate::specs::Cables::pairs_in))]
pub fn pairs_in(table: &Table) -> Result<ArrayVec<Pair, 13>, SheetFault>
    ensures { result_map (λ pairs. pairs.items) result ≡ pairs_in (table_view table.now) }
{
    read_up_to(value_at(table, Key::Plugs)?, Key::Plugs)
}
