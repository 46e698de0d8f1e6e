//! Laws of steps: they follow from the definition of a step, whatever the code does.
ghost use Rattle.kd_step.specs.Stepper.{ChainsEndInWindowAfter, SlowWheelsMoveTogether};

/// From each window, `n` steps lead to exactly one window: the window that `window_after` gives.
pub fn chains_end_in_window_after()
    ensures { ChainsEndInWindowAfter }
{}

/// If a step doesn't move the middle wheel, it moves only the right wheel.
#[tactic(auto, using(crate::proofs::LettersAfterStep::slow_still))]
pub fn slow_wheels_move_together()
    ensures { SlowWheelsMoveTogether }
{}
