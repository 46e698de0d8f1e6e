//! `KeyPlace`: the place of a value in a file.
ghost use Rattle.std.specs.Prelude.{◌≡◌};
ghost use Rattle.kd_findings.specs.Faults.{at_key, in_file};
ghost use Rattle.kd_findings.specs.SheetFaults.{in_entry};

use kd_sheet::Key;

/// The place of a value in a file.
#[derive(Clone, Copy)]
pub struct KeyPlace {
    /// The number of the entry in a key sheet, counted from 1. `None` in a machine file.
    pub entry: Option<usize>,
    /// The entry's day, if it can be read.
    pub day: Option<u8>,
    pub key: Key,
}

impl KeyPlace {
    /// The place of `key` in a machine file.
    pub fn in_file(key: Key) -> Self
        ensures { result ≡ in_file key }
    {
        KeyPlace {
            entry: None,
            day: None,
            key,
        }
    }

    /// The place of `key` in entry `entry` of a key sheet.
    pub fn in_entry(entry: usize, day: Option<u8>, key: Key) -> Self
        ensures { result ≡ in_entry entry day key }
    {
        KeyPlace {
            entry: Some(entry),
            day,
            key,
        }
    }

    /// The place of the key `key` in the same entry as `self`. If `self` has no entry, `key` is at the top of the file.
    pub fn at(self, key: Key) -> Self
        ensures { result ≡ at_key self key }
    {
        KeyPlace { key, ..self }
    }
}
