//! Checks that the keys of an order suit the day: groups, external letters and internal keys.
ghost use Rattle.std.specs.Prelude.{◌≤◌, length, All};
ghost use Rattle.kd_form.specs.InTurn.{InTurn};
ghost use Rattle.kd_form.specs.Keys.{AreKeys};
ghost use Rattle.kd_form.specs.PartMaking.{IsKeysAnswer};

use crate::day_machine::DayMachine;
use crate::fault::FormFault;
use crate::internal_key::internal_key_of;
use crate::keys::{Keys, PinKeys};
use kd_state::SheetDay;

/// Checks that the keys of all parts suit the day. The first part with unsuitable keys gives the fault.
///
/// Not inlined: otherwise every byte read would pay for this function's stack frame.
#[inline(never)]
#[tactic(auto, using(crate::proofs::Prelude::err_is, crate::proofs::Rules::turn_passes, crate::proofs::Rules::turn_fails))]
pub(crate) fn check_keys(day: &SheetDay, keys: &[Keys]) -> Result<(), FormFault>
    requires keys { All (AreKeys day.now) keys.now }
    requires few { length keys.now ≤ 99 }
    ensures { InTurn (IsKeysAnswer day.now) 1 keys.now result }
{
    for (index, keys) in keys.iter().enumerate() {
        check_part_keys(day, index as u8 + 1, keys)?;
    }
    Ok(())
}

/// Checks the keys of one part: a rotor machine's group, or a Converter's external letters and internal key.
fn check_part_keys(day: &SheetDay, part: u8, keys: &Keys) -> Result<(), FormFault>
    requires { AreKeys day.now keys.now }
    ensures { IsKeysAnswer day.now part keys.now result }
{
    match keys {
        Keys::Rotor(keys) => {
            if day.has_group(keys.group) {
                Ok(())
            } else {
                Err(FormFault::WrongGroup(part))
            }
        }
        Keys::Pin(keys) => check_pin_keys(&mut DayMachine::new(day), part, keys),
    }
}

/// Checks that a Converter's external letters are on their wheels, and that the keys give an internal key.
fn check_pin_keys(machine: &mut DayMachine, part: u8, keys: &PinKeys) -> Result<(), FormFault>
    requires { AreKeys machine.old (Keys.Pin keys.now) }
    ensures { IsKeysAnswer machine.old part (Keys.Pin keys.now) result }
{
    if !machine.can_show(&keys.external) {
        return Err(FormFault::KeyNotOnWheel);
    }
    match internal_key_of(machine, keys) {
        Some(_) => Ok(()),
        None => Err(FormFault::IndicatorSpent(part)),
    }
}
