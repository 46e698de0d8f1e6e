//! Reads the items of an array one after another. The rule for an item may depend on the items before it: for example,
//! no letter may come twice.
ghost use Rattle.std.specs.Prelude.{◌≡◌, nat_eq, nat_le, ◌<◌, ◌≤◌, List, Result, IfOk, map, length};
ghost use Rattle.toml.specs.{Data.{Data}, View.{view, table_view}};
ghost use Rattle.kd_sheet.specs.Document.{◌>>=◌ as ◌followed_by◌, value_at, read_items, read_array, result_map};
ghost use Rattle.kd_sheet.specs.declared.fault.SheetFault.{SheetFault};

use crate::document::{array_items, items_at};
use crate::{Key, SheetFault};
use arrayvec::ArrayVec;
use toml::{Table, Value};

/// A type whose values can be read from the items of an array.
///
/// `Given` is the type of a value that reading needs besides the items. For wheels in slots, it is the key and the
/// model.
pub trait FromItem<Given> {
    /// How an item is read. The arguments are the value of type `Given`, the values of the earlier items, and the item.
    /// The result is the item's value or a fault.
    ghost parse: { Given → List Self → Data → Result Self SheetFault };

    /// Reads `item`. The slice `earlier` has the values of the earlier items.
    fn read_item(given: &Given, earlier: &[Self], item: &Value) -> Result<Self, SheetFault>
        requires { length earlier.now < 27 }
        ensures { result ≡ parse given.now earlier.now (view item.now) };
}

/// Reads the items of the array at `key`. The fault is `BadValue(key)` if there aren't exactly `count` items.
pub fn read_exactly<T: FromItem<G> + Copy + Default, G, const N: usize>(
    table: &Table,
    key: Key,
    count: usize,
    given: &G,
) -> Result<ArrayVec<T, N>, SheetFault>
    requires { (count ≤ N) × (N ≤ 27) }
    ensures value { result_map (λ values. values.items) result
        ≡ (value_at key (table_view table.now)
        followed_by read_array key (nat_eq count) (T.parse given.now)) }
    ensures count { IfOk result (λ values. length values.items ≡ count) }
{
    let items = items_at(table, key)?;
    if items.len() != count {
        return Err(SheetFault::BadValue(key));
    }
    read_items(given, items)
}

/// Reads the items of the array `value`. The fault is `BadValue(key)` if there are more than `N` items.
pub fn read_up_to<T: FromItem<()> + Copy + Default, const N: usize>(
    value: &Value,
    key: Key,
) -> Result<ArrayVec<T, N>, SheetFault>
    requires { N ≤ 27 }
    ensures { result_map (λ values. values.items) result
        ≡ read_array key (λ n. nat_le n N) (T.parse tt) (view value.now) }
{
    let items = array_items(value, key)?;
    if items.len() > N {
        return Err(SheetFault::BadValue(key));
    }
    read_items(&(), items)
}

/// Reads all of `items`, or returns the first fault. There are at most `N` items.
fn read_items<T: FromItem<G> + Copy + Default, G, const N: usize>(
    given: &G,
    items: &[Value],
) -> Result<ArrayVec<T, N>, SheetFault>
    requires { (length items.now ≤ N) × (N ≤ 27) }
    ensures value { result_map (λ values. values.items) result
        ≡ read_items (T.parse given.now) (map view items.now) }
    ensures count { IfOk result (λ values. length values.items ≡ length items.now) }
{
    let mut values = ArrayVec::new();
    for item in items {
        let value = T::read_item(given, values.as_slice(), item)?;
        values.push(value);
    }
    Ok(values)
}
