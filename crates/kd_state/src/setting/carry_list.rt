//! Carries settings out one after another, up to the first setting that the machine refuses.
ghost use Rattle.std.specs.Prelude.{IfErr, IfOk};
ghost use Rattle.kd_state.specs.Setting.{IsFirstIllegal, Leads};

use crate::machine::Machine;
use crate::setting::Setting;
use crate::setting::why::IllegalAt;

/// Carries `settings` out one after another; returns the new machine, or the first refusal.
#[tactic(auto, using(crate::proofs::Carrying::leads_next, crate::proofs::Carrying::stops_at))]
pub fn carry_all(machine: &Machine, settings: &[Setting]) -> Result<Machine, IllegalAt>
    ensures carried { IfOk result (λ n. Leads machine.now settings.now n) }
    ensures refused { IfErr result
        (λ fault. IsFirstIllegal machine.now settings.now fault.line fault.why) }
{
    let mut carried = *machine;
    for (place, setting) in settings.iter().enumerate() {
        if let Err(illegal) = carried.carry(*setting) {
            return Err(IllegalAt {
                line: place + 1,
                why: illegal.why,
            });
        }
    }
    Ok(carried)
}
