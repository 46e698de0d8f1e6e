//! Reads the standings (lug places) of the Converter's 27 bars, from the key `bars`.
ghost use Rattle.std.specs.Prelude.{◌≡◌};
ghost use Rattle.toml.specs.View.{view, table_view};
ghost use Rattle.kd_tables.specs.Places.{standings, standing_text};
ghost use Rattle.kd_sheet.specs.{Bars.{or_bad_row, bars_in}, Document.{from_text}, Names.{find_by_text}};

use super::items::{FromItem, read_exactly};
use crate::{Key, SheetFault};
use kd_tables::Standing;
use toml::{Table, Value};

/// The number of bars of the drum.
pub const BARS: usize = 27;

/// Reads an item as a bar's standing: the places of the bar's lugs. The fault `BadRow` has the bar's number, from 1.
impl FromItem<()> for Standing {
    ghost parse = { λ _. or_bad_row (find_by_text standing_text standings) };

    fn read_item(_given: &(), earlier: &[Self], item: &Value) -> Result<Self, SheetFault> {
        standing_of_item(item).ok_or(SheetFault::BadRow(earlier.len() as u8 + 1))
    }
}

/// Reads the standings of the 27 bars.
#[tactic(auto, unfolding(crate::specs::Bars::bars_in))]
pub fn bars_in(table: &Table) -> Result<[Standing; BARS], SheetFault>
    ensures { result ≡ bars_in (table_view table.now) }
{
    let bars = read_exactly(table, Key::Bars, BARS, &())?;
    Ok(bars.into_inner().ok().unwrap())
}

/// Reads the standing that `item` names.
fn standing_of_item(item: &Value) -> Option<Standing>
    ensures { result ≡ from_text (find_by_text standing_text standings) (view item.now) }
{
    Standing::from_text(item.as_str()?.as_bytes())
}
