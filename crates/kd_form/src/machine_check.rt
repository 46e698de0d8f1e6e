//! The function `check_machine`, which refuses a machine that isn't on the day's key.
ghost use Rattle.std.specs.Prelude.{MatchResult};
ghost use Rattle.kd_form.specs.OnTheKey.{IsReadyOnKey, IsKeyFault};

use super::fault::FormFault;
use kd_state::{Machine, SheetDay};

/// Refuses a machine that isn't ready, or isn't on the day's key.
pub fn check_machine(machine: &Machine, day: &SheetDay) -> Result<(), FormFault>
    ensures { MatchResult result
        (λ _. IsReadyOnKey machine.now day.now)
        (IsKeyFault machine.now day.now) }
{
    if !machine.is_ready() {
        return Err(FormFault::NotReady);
    }
    if !machine.on_key(day) {
        return Err(FormFault::NotOnKey);
    }
    Ok(())
}
