//! An order of a card's settings that suits an operator: rings come first, and window letters last.
ghost use Rattle.std.specs.Prelude.{◌≡◌, ◌+◌, ◌≤◌, ◌++◌, filter, length, ◌==◌};
ghost use Rattle.arrayvec.specs.ArrayVec.{array_vec_len};
ghost use Rattle.kd_booklet.specs.HandOrder.{in_hand_order, is_at_stage, stage_of};

use arrayvec::ArrayVec;
use kd_state::{Setting, Settings};

/// A stage of an operator's work. Rings are set first, while the wheels are out. Windows are turned last, after all
/// other settings.
#[derive(Clone, Copy, PartialEq, Eq)]
pub(crate) enum Stage {
    Rings,
    Parts,
    Windows,
}

/// `settings` in an order that suits an operator: rings come first, window letters last, and all other settings between
/// them. Within a stage, settings keep their order.
#[tactic(auto, using(crate::proofs::HandOrders::few_at_stages))]
pub(crate) fn hand_order(settings: &Settings) -> Settings
    ensures { result.items ≡ in_hand_order settings.now.items }
{
    let mut ordered = ArrayVec::new();
    push_stage(&mut ordered, Stage::Rings, settings.as_slice());
    push_stage(&mut ordered, Stage::Parts, settings.as_slice());
    push_stage(&mut ordered, Stage::Windows, settings.as_slice());
    ordered
}

/// Appends the settings of one stage, in the order in which they stand in `settings`.
fn push_stage(ordered: &mut Settings, stage: Stage, settings: &[Setting])
    requires { array_vec_len ordered.old + length (filter (is_at_stage stage) settings.now) ≤ 192 }
    ensures items { ordered.new.items ≡ ordered.old.items ++ filter (is_at_stage stage) settings.now }
    ensures len { array_vec_len ordered.new
        ≡ array_vec_len ordered.old + length (filter (is_at_stage stage) settings.now) }
{
    if let [setting, rest @ ..] = settings {
        if is_at_stage(stage, setting) {
            ordered.push(*setting);
        }
        push_stage(ordered, stage, rest);
    }
}

fn is_at_stage(stage: Stage, setting: &Setting) -> bool
    ensures { result ≡ is_at_stage stage setting.now }
{
    stage_of(setting) == stage
}

fn stage_of(setting: &Setting) -> Stage
    ensures { result ≡ stage_of setting.now }
{
    match setting {
        Setting::RingTo { .. } => Stage::Rings,
        Setting::Turn { .. } => Stage::Windows,
        _ => Stage::Parts,
    }
}
