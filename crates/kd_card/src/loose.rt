//! Loose things: slots, rings, letters and the like that aren't as the day says. Their number, and the settings that
//! they need.

pub(crate) mod count;
pub(crate) mod pin;
pub(crate) mod rotor;

ghost use Rattle.std.specs.Prelude.{◌≡◌, ◌+◌, ◌≤◌, ◌++◌};
ghost use Rattle.arrayvec.specs.ArrayVec.{array_vec_len};
ghost use Rattle.kd_card.specs.Loose.{setting_unless};

use kd_state::{Setting, Settings};

/// Appends `setting` if `already` is false. If `already` is true, the machine is as `setting` would set it.
pub fn push_unless(settings: &mut Settings, already: bool, setting: Setting)
    requires { array_vec_len settings.old + 1 ≤ 192 }
    ensures items { settings.new.items ≡ settings.old.items ++ setting_unless already setting }
    ensures few { array_vec_len settings.new ≤ array_vec_len settings.old + 1 }
{
    if !already {
        settings.push(setting);
    }
}
