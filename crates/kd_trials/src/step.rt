//! Tests of the stepping.
ghost use Rattle.std.specs.Prelude.{◌≤◌};

use crate::letters::letters;
use kd_step::Stepper;
use kd_tables::Wheel;
use std::process::Abort;

/// Steps the wheels from the window `from`, and checks that the window after each step is as in `shown`.
fn steps<const S: usize>(rt: &impl Abort, wheels: &[Wheel; S], from: &[u8; S], shown: &[[u8; S]])
    requires least { 3 ≤ S }
    requires most { S ≤ 4 }
{
    let mut stepper = Stepper::new(*wheels, letters(rt, from));
    for window in shown {
        stepper.step();
        assert!(rt; stepper.window() == letters(rt, window));
    }
}

/// Three wheels, the window from which they step, and the windows after each step.
static OF_THREE: [(&[Wheel; 3], &[u8; 3], &[[u8; 3]]); 4] = [
    (
        &[Wheel::I, Wheel::II, Wheel::III],
        b"ADU",
        &[*b"ADV", *b"AEW", *b"BFX", *b"BFY"],
    ),
    (&[Wheel::I, Wheel::II, Wheel::III], b"AEV", &[*b"BFW"]),
    (
        &[Wheel::I, Wheel::II, Wheel::VI],
        b"AAL",
        &[*b"AAM", *b"ABN", *b"ABO"],
    ),
    (
        &[Wheel::I, Wheel::II, Wheel::VI],
        b"AAY",
        &[*b"AAZ", *b"ABA"],
    ),
];

/// Checks the windows of three wheels, and of four.
///
/// The middle wheel steps twice in a row, but only once if the right wheel is at its notch too. A wheel can
/// have two notches. Beta never steps.
#[test]
fn wheels_step(rt: HostRuntime) {
    for (wheels, from, shown) in &OF_THREE {
        steps(&rt, wheels, from, shown);
    }
    steps(
        &rt,
        &[Wheel::Beta, Wheel::I, Wheel::II, Wheel::III],
        b"AADU",
        &[*b"AADV", *b"AAEW", *b"ABFX", *b"ABFY"],
    );
}
