//! Picks the internal key of the Converter M-209 from twelve enciphered letters.
ghost use Rattle.std.specs.Prelude.{◌≡◌, ◌<◌, ◌+◌, MatchOption};
ghost use Rattle.kd_state.specs.EngineKey.{IsWindow};
ghost use Rattle.kd_state.specs.OwnKeys.{sheet_key};
ghost use Rattle.kd_form.specs.InternalKey.{IsInternalKey, HaveNoInternalKey, IsTakenInTurn};
ghost use Rattle.kd_form.specs.PartMaking.{enciphered_choice};

use super::day_machine::DayMachine;
use super::keys::PinKeys;
use arrayvec::ArrayVec;
use kd_tables::{Letter, place_on_wheel};

/// Enciphers the chosen letter of `keys` twelve times, and picks the internal key; `None` if there is no internal key.
pub fn internal_key_of(machine: &mut DayMachine, keys: &PinKeys) -> Option<ArrayVec<Letter, 6>>
    requires { IsWindow (sheet_key machine.old) keys.now.external }
    ensures day { machine.new ≡ machine.old }
    ensures key { MatchOption result
        (HaveNoInternalKey (enciphered_choice machine.old keys.now))
        (λ internal. IsInternalKey (enciphered_choice machine.old keys.now) internal.items) }
{
    let mut letters = [keys.chosen; 12];
    machine.encipher(&keys.external, &mut letters);
    pick_internal_key(&letters)
}

/// Picks a letter for each of the six wheels, in order; `None` if `letters` run out first.
///
/// A letter that isn't on the next wheel is skipped.
#[tactic(auto, using(crate::proofs::MadeParts::picking_none, crate::proofs::MadeParts::picking_more))]
fn pick_internal_key(letters: &[Letter]) -> Option<ArrayVec<Letter, 6>>
    ensures { MatchOption result
        (HaveNoInternalKey letters.now)
        (λ key. IsInternalKey letters.now key.items) }
{
    let mut key = ArrayVec::new();
    for letter in letters {
        push_if_on_next_wheel(&mut key, *letter);
    }
    if key.is_full() { Some(key) } else { None }
}

/// Appends `letter` to `key` if the next wheel has `letter`. The next wheel is the first without a letter in `key`.
fn push_if_on_next_wheel(key: &mut ArrayVec<Letter, 6>, letter: Letter)
    ensures { IsTakenInTurn key.old.items letter key.new.items }
{
    if place_on_wheel(key.len() as u8 + 1, letter).is_some() {
        key.push(letter);
    }
}
