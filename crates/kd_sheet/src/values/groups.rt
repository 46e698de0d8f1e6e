//! Reads the groups of a day, from the key `groups`.
ghost use Rattle.std.specs.Prelude.{◌≡◌};
ghost use Rattle.toml.specs.View.{table_view};
ghost use Rattle.kd_sheet.specs.{Document.{result_map}, SheetFile.{group_for, groups_in}};

use super::items::{FromItem, read_up_to};
use super::letters::letters_of_text;
use crate::document::find_at;
use crate::{Key, SheetFault};
use arrayvec::ArrayVec;
use kd_tables::Letter;
use toml::{Table, Value};

/// Reads an item as a group: three capital letters.
impl FromItem<()> for [Letter; 3] {
    ghost parse = { λ _. group_for };

    #[tactic(auto, unfolding(crate::specs::SheetFile::group_for))]
    fn read_item(_given: &(), _earlier: &[Self], item: &Value) -> Result<Self, SheetFault> {
        letters_of_text(item).ok_or(SheetFault::BadValue(Key::Groups))
    }
}

/// Reads the day's groups, at most four. Without the key `groups`, the day has no groups.
#[tactic(auto, unfolding(crate::specs::SheetFile::groups_in))]
pub fn groups_in(table: &Table) -> Result<ArrayVec<[Letter; 3], 4>, SheetFault>
    ensures { result_map (λ groups. groups.items) result ≡ groups_in (table_view table.now) }
{
    match find_at(table, Key::Groups) {
        Some(value) => read_up_to(value, Key::Groups),
        None => Ok(ArrayVec::new()),
    }
}
