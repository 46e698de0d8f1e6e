//! Carries out the settings of a card, and finds the first setting that isn't needed.
ghost use Rattle.std.specs.Prelude.{◌≡◌, ◌+◌, ◌≤◌, IsFalse, MatchResult, IfOk, IfErr, Err};
ghost use Rattle.kd_state.specs.{Machine.model_of, Setting.Leads, SheetDay.day_model};
ghost use Rattle.kd_prices.specs.Doubt.{IsCarriedAnswer, IsNeededAnswer};
ghost use Rattle.kd_card.specs.Proving as proving;

use super::doubt::Doubt;
use kd_card::loose_count;
use kd_state::{Machine, Setting, SheetDay};

/// The machine after all settings of a card, and the doubt about the first needless setting, if there is one.
#[derive(Drop)]
pub(crate) struct Carried {
    pub reached: Machine,
    pub need_result: Result<(), Doubt>,
}

/// Carries out `settings` in turn. Returns the machine after the settings, and the doubt about the first needless
/// setting, if there is one.
///
/// A setting is needed if it changes a cable or a bar, or lowers the number of loose things by one. If the machine
/// refuses a setting, the error is the doubt about this setting.
#[tactic(auto, using(kd_state::proofs::Carrying::stops_at))]
pub(crate) fn carry_settings(
    machine: &Machine,
    day: &SheetDay,
    settings: &[Setting],
) -> Result<Carried, Doubt>
    requires { model_of machine.now ≡ day_model day.now }
    ensures leads { IfOk result (λ carried. Leads machine.now settings.now carried.reached) }
    ensures needed { IfOk result
        (λ carried. IsNeededAnswer machine.now day.now settings.now carried.need_result) }
    ensures refused { IfErr result (λ doubt. IsCarriedAnswer machine.now settings.now (Err doubt)) }
{
    let mut reached = *machine;
    let mut loose = loose_count(machine, day);
    let mut need_result = Ok(());
    for (place, setting) in settings.iter().enumerate() {
        if let Err(illegal) = reached.carry(*setting) {
            return Err(Doubt::IllegalAt(place + 1, illegal.why));
        }
        let left = loose_count(&reached, day);
        need_result = need_result.and(check_need(setting, place + 1, loose, left));
        loose = left;
    }
    Ok(Carried {
        reached,
        need_result,
    })
}

/// Checks that the setting on line `line` is needed.
///
/// A setting is needed if it changes a cable or a bar, or lowers the number of loose things by one. `before` and
/// `after` are the numbers of loose things before and after the setting.
fn check_need(setting: &Setting, line: usize, before: usize, after: usize) -> Result<(), Doubt>
    requires { after ≤ 137 }
    ensures { let is_needed = IsFalse (proving.is_priced_setting setting.now) → before ≡ after + 1 in
        MatchResult result (λ _. is_needed)
        (λ doubt. (doubt ≡ Doubt.NeedlessLine line) × ¬ is_needed) }
{
    if is_priced_setting(setting) || before == after + 1 {
        Ok(())
    } else {
        Err(Doubt::NeedlessLine(line))
    }
}

/// Whether `setting` changes a cable or a bar.
pub(crate) fn is_priced_setting(setting: &Setting) -> bool
    ensures { result ≡ proving.is_priced_setting setting.now }
{
    matches!(
        *setting,
        Setting::Pull { .. } | Setting::Put { .. } | Setting::LugTo { .. }
    )
}
