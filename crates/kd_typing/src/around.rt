//! The path of the current through wheels.
ghost use Rattle.std.specs.Prelude.{◌≡◌, ◌<◌, slice_index};
ghost use Rattle.kd_enigma.specs.Cipher.{IsPlugboard};
ghost use Rattle.kd_enigma.specs.Rotor.{rotor, wiring_turned_by};
ghost use Rattle.kd_tables.specs.Permutation.{followed_by};
ghost use Rattle.kd_typing.specs.Around.{around_all, around_one};

use kd_enigma::Plugs;
use kd_state::SheetWheel;
use kd_tables::{Letter, unwiring, wiring};

/// For each key, the place that the key's current reaches through the plugboard and a wheel.
///
/// The wheel's window shows `letter`.
pub(crate) fn inward(plugs: Plugs, seated: SheetWheel, letter: Letter) -> [Letter; 26]
    requires { IsPlugboard plugs }
    ensures { result ≡ followed_by plugs (rotor seated.wheel seated.ring letter) }
{
    let (there, by) = (wiring(seated.wheel), letter.back(seated.ring));
    let mut row = [Letter::A; 26];
    for key in 0..26 {
        row[usize::from(key)] = through(&there, by, plugs.swap(Letter::at(key)));
    }
    row
}

/// The path of the current: in through `wheels`, through `core`, and back through `wheels`.
///
/// Current that enters at place `i` comes back out at place `result[i]`. The first of the wheels is next to `core`.
pub(crate) fn around_all(
    core: [Letter; 26],
    wheels: &[SheetWheel],
    window: &[Letter],
) -> [Letter; 26]
    ensures { result ≡ around_all core wheels.now window.now }
{
    if let [seated, wheels @ ..] = wheels
        && let [letter, window @ ..] = window
    {
        around_all(around_one(&core, *seated, *letter), wheels, window)
    } else {
        core
    }
}

/// The path of the current: in through a wheel, through `core`, and back through the wheel.
///
/// Current that enters at place `i` comes back out at place `result[i]`. The wheel's window shows `letter`.
fn around_one(core: &[Letter; 26], seated: SheetWheel, letter: Letter) -> [Letter; 26]
    ensures { result ≡ around_one core.now seated letter }
{
    let (there, back) = (wiring(seated.wheel), unwiring(seated.wheel));
    let by = letter.back(seated.ring);
    let mut row = [Letter::A; 26];
    for place in 0..26 {
        let inside = core[through(&there, by, Letter::at(place)).index()];
        row[usize::from(place)] = through(&back, by, inside);
    }
    row
}

/// The place that the current from `letter` reaches through `wiring`, if `wiring` is turned by `by` places.
#[tactic(auto, using(crate::proofs::WaysAround::turned_at))]
fn through(wiring: &[Letter; 26], by: Letter, letter: Letter) -> Letter
    ensures value { result ≡ slice_index (wiring_turned_by by wiring.now) letter }
    ensures within { result < 26 }
{
    let inside = wiring[letter.forward(by).index()];
    prove!(letter.index() < 26 && inside.index() < 26);
    inside.back(by)
}
