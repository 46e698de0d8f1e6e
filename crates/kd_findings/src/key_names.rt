//! The names of unread keys, and the known keys that these names may mean.
ghost use Rattle.std.specs.Prelude.{◌≡◌};
ghost use Rattle.kd_findings.specs.Unread.{is_name_of};

use kd_sheet::Key;
use kd_slips::near_names::is_near;

/// Names that a person may wrongly write for a key, each with the right key. Some of these names are keys of other
/// files. Others are common words, such as `stecker`.
const OTHER_NAMES: [(&str, Key); 12] = [
    ("plugs", Key::Cables),
    ("plugboard", Key::Cables),
    ("stecker", Key::Cables),
    ("wheels", Key::Slots),
    ("window", Key::Letters),
    ("rows", Key::Bars),
    ("cables", Key::Plugs),
    ("plugboard", Key::Plugs),
    ("stecker", Key::Plugs),
    ("slots", Key::Wheels),
    ("letters", Key::Window),
    ("bars", Key::Rows),
];

/// Whether one of `keys` has the name `name`.
pub fn is_known(keys: &[Key], name: &str) -> bool
    ensures { result ≡ is_name_of keys.now name.now }
{
    keys.iter().any(|key| key.name() == name)
}

/// The key in `keys` that `name` may mean. If no key has nearly this name, the table `OTHER_NAMES` decides.
pub fn meant_key(keys: &[Key], name: &str) -> Option<Key> {
    match keys
        .iter()
        .copied()
        .find(|key| is_near(1, key.name().as_bytes(), name.as_bytes()))
    {
        Some(key) => Some(key),
        None => named_elsewhere(keys, name),
    }
}

/// The key of `keys` that stands beside the name `name` in the table `OTHER_NAMES`.
fn named_elsewhere(keys: &[Key], name: &str) -> Option<Key> {
    for (other, key) in &OTHER_NAMES {
        if *other == name && keys.contains(key) {
            return Some(*key);
        }
    }
    None
}
