//! Reads the cables of a machine, from the key `cables`.
ghost use Rattle.std.specs.Prelude.{◌≡◌, ◌≤◌, ◌-◌, ◌++◌, Some, None, length, nat_le, option_map, replicate};
ghost use Rattle.std.specs.Prelude.{slice_get, IfSome};
ghost use Rattle.toml.specs.View.{view, table_view};
ghost use Rattle.kd_state.specs.Machine.{cable_letters};
ghost use Rattle.kd_sheet.specs.{Cables.{cable_for, cables_in}, Document.{from_text}, Letters.{capital_letters}};

use super::items::{FromItem, read_up_to};
use super::letters::capital_letters;
use crate::document::find_at;
use crate::{Key, SheetFault};
use arrayvec::ArrayVec;
use kd_state::{Cable, are_new_and_distinct};
use toml::{Table, Value};

/// The number of cables of a plugboard.
const CABLES: usize = 13;

/// Reads an item as a cable. The cable's letters must differ from each other, and from the letters of earlier cables.
impl FromItem<()> for Cable {
    ghost parse = { λ _. cable_for };

    #[tactic(auto, unfolding(crate::specs::Cables::cable_for))]
    fn read_item(_given: &(), earlier: &[Self], item: &Value) -> Result<Self, SheetFault> {
        let cable = cable_of_item(item).ok_or(SheetFault::BadValue(Key::Cables))?;
        if !are_new_and_distinct(&cable, earlier) {
            return Err(SheetFault::LetterTwice);
        }
        Ok(cable)
    }
}

/// Reads the machine's cables. Without the key `cables`, all 13 cables are empty.
#[tactic(auto, unfolding(crate::specs::Cables::cables_in))]
pub fn cables_in(table: &Table) -> Result<[Cable; CABLES], SheetFault>
    ensures { result ≡ cables_in (table_view table.now) }
{
    let cables: ArrayVec<Cable, CABLES> = match find_at(table, Key::Cables) {
        Some(value) => read_up_to(value, Key::Cables)?,
        None => ArrayVec::new(),
    };
    Ok(fill_up_cables(cables.as_slice()))
}

/// Reads a cable from a text of at most two letters.
fn cable_of_item(item: &Value) -> Option<Cable>
    ensures value { result ≡ option_map (λ letters. (slice_get letters 0, slice_get letters 1))
        (from_text (capital_letters (λ n. nat_le n 2)) (view item.now)) }
    ensures letters { IfSome result (λ cable.
        from_text (capital_letters (λ n. nat_le n 2)) (view item.now) ≡ Some (cable_letters cable)) }
{
    let len = item.as_str()?.len();
    if len > 2 {
        return None;
    }
    let letters = capital_letters::<2>(item, len)?;
    let letters = letters.as_slice();
    Some((letters.first().copied(), letters.get(1).copied()))
}

/// `cables`, with empty cables appended until there are 13.
fn fill_up_cables(cables: &[Cable]) -> [Cable; CABLES]
    requires { length cables.now ≤ 13 }
    ensures { result ≡ cables.now ++ replicate (13 - length cables.now) (None, None) }
{
    let mut all = [(None, None); CABLES];
    all[..cables.len()].copy_from_slice(cables);
    all
}
