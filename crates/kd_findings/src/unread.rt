//! Finds the keys of a file that the desk doesn't know, and so doesn't read.
ghost use Rattle.std.specs.Prelude.{◌≡◌, ◌++◌, IfOk, OnOk, map};
ghost use Rattle.toml.specs.View.{table_view, view};
ghost use Rattle.kd_findings.specs.Unread.{day_keys, file_keys, unread_in, unread_in_entries, unread_in_entry};
ghost use Rattle.kd_findings.specs.Unread.{top_keys, unread_keys, unread_of};

use crate::judging::{entries_of, is_machine_file};
use crate::key_names::{is_known, meant_key};
use kd_sheet::by_key::{model_in, number_at};
use kd_sheet::{DAYS, Key};
use kd_slips::near_names::is_near;
use kd_tables::{Family, Model};
use std::alloc::{AllocError, Global};
use toml::{Table, Value};

/// All keys of machine files and of entries.
static ANY_KEY: [Key; 26] = [
    // a rotor machine's file
    Key::Version,
    Key::Model,
    Key::Reflector,
    Key::Slots,
    Key::Rings,
    Key::Letters,
    Key::Cables,
    // a Converter's file
    Key::Version,
    Key::Model,
    Key::Letters,
    Key::Pins,
    Key::Bars,
    // a rotor machine's day
    Key::Day,
    Key::Model,
    Key::Reflector,
    Key::Wheels,
    Key::Rings,
    Key::Window,
    Key::Plugs,
    Key::Groups,
    // a Converter's day
    Key::Day,
    Key::Model,
    Key::Rows,
    Key::Pins,
    Key::Window,
    Key::List,
];

static SHEET: [Key; 1] = [Key::Day];

/// A file's key that the desk doesn't know, and so doesn't read.
#[derive(Clone, Copy)]
pub struct Unread<'t> {
    /// The number of the key sheet's entry that has the key, counted from 1. `None` for a key at the top of the file.
    pub entry: Option<usize>,
    /// The entry's day, if it can be read.
    pub day: Option<u8>,
    pub name: &'t str,
    pub meant: Meant,
}

/// What a person may have meant by an unread key.
#[derive(Clone, Copy)]
pub enum Meant {
    /// A key that the desk knows.
    Key(Key),
    /// The array `day`, which has the entries of a key sheet.
    Entries,
    /// This crate can't guess what was meant.
    Unknown,
}

/// Finds the unread keys of a document.
#[tactic(auto, using(std::proofs::Common::append_assoc), unfolding(crate::specs::Unread::unread_keys))]
pub fn unread_keys(alloc: Global, document: &Table) -> Result<Vec<Unread<'_>>, AllocError>
    ensures { IfOk result (λ list. unread_of list.items ≡ unread_keys (table_view document.now)) }
{
    let mut list = Vec::new(alloc);
    match entries_of(document) {
        Some(items) => {
            push_unread(&mut list, None, None, &SHEET, document)?;
            push_entries(&mut list, items)?;
        }
        None => {
            push_unread(&mut list, None, None, top_keys(document), document)?;
        }
    }
    Ok(list)
}

/// The known keys of a document without the array `day`.
fn top_keys(document: &Table) -> &'static [Key]
    ensures { result.now ≡ top_keys (table_view document.now) }
{
    if is_machine_file(document) {
        file_keys(model_in(document).ok())
    } else {
        &ANY_KEY
    }
}

/// The keys of machine files for `model`. If the model isn't known, the keys of all machine files.
fn file_keys(model: Option<Model>) -> &'static [Key]
    ensures { result.now ≡ file_keys model }
{
    match model {
        Some(model) => match model.family() {
            Family::Rotor => &ANY_KEY[..7],
            Family::Pin => &ANY_KEY[7..12],
        },
        None => &ANY_KEY[..12],
    }
}

/// Appends the unread keys of the entries `items`.
fn push_entries<'t>(list: &mut Vec<Unread<'t>>, items: &'t [Value]) -> Result<(), AllocError>
    ensures { OnOk result (unread_of list.new.items
        ≡ unread_of list.old.items ++ unread_in_entries (map view items.now)) }
{
    for (index, item) in items.iter().enumerate() {
        push_entry_keys(list, index + 1, item)?;
    }
    Ok(())
}

/// If entry number `entry` is a table, appends its unread keys.
#[tactic(auto, unfolding(crate::specs::Unread::unread_in_entry))]
fn push_entry_keys<'t>(
    list: &mut Vec<Unread<'t>>,
    entry: usize,
    item: &'t Value,
) -> Result<(), AllocError>
    ensures { OnOk result (unread_of list.new.items
        ≡ unread_of list.old.items ++ unread_in_entry entry (view item.now)) }
{
    match item.as_table() {
        Some(table) => {
            let day = number_at(table, Key::Day, DAYS).ok();
            let keys = day_keys(model_in(table).ok());
            push_unread(list, Some(entry), day, keys, table)
        }
        None => Ok(()),
    }
}

/// The keys of entries for `model`. If the model isn't known, the keys of all entries.
fn day_keys(model: Option<Model>) -> &'static [Key]
    ensures { result.now ≡ day_keys model }
{
    match model {
        Some(model) => match model.family() {
            Family::Rotor => &ANY_KEY[12..20],
            Family::Pin => &ANY_KEY[20..],
        },
        None => &ANY_KEY[12..],
    }
}

/// Appends the keys of `table` that aren't among `keys`.
#[tactic(auto, unfolding(crate::specs::Unread::unread_in))]
fn push_unread<'t>(
    list: &mut Vec<Unread<'t>>,
    entry: Option<usize>,
    day: Option<u8>,
    keys: &[Key],
    table: &'t Table,
) -> Result<(), AllocError>
    ensures { OnOk result (unread_of list.new.items
        ≡ unread_of list.old.items ++ unread_in entry day keys.now (table_view table.now)) }
{
    'members: for (key, value) in table.iter() {
        let name = key.as_str();
        if !is_known(keys, name) {
            let meant = meant_by(keys, name, value);
            list.push(Unread {
                entry,
                day,
                name,
                meant,
            })?;
        }
    }
    Ok(())
}

/// What a person may have meant by the key `name` with the value `value`. `keys` are the keys that the desk knows in
/// the same table.
fn meant_by(keys: &[Key], name: &str, value: &Value) -> Meant {
    if (value.is_table() || value.is_array()) && is_near(1, name.as_bytes(), b"day") {
        return Meant::Entries;
    }
    match meant_key(keys, name) {
        Some(key) => Meant::Key(key),
        None => Meant::Unknown,
    }
}
