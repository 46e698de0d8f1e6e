//! Tests of the pin wheels.
use crate::letters::letter;
use kd_pins::PinWheel;
use kd_tables::{Letter, ring2, ring6};
use std::process::Abort;

/// Whether the acting pin of `wheel` is effective when the wheel shows `shown`.
fn acts<const N: usize>(mut wheel: PinWheel<N>, shown: Letter) -> Option<bool> {
    wheel.set(shown).ok()?;
    Some(wheel.acting())
}

/// On the sixth wheel only the pin at J is effective, on the second only the pin at N.
#[test]
fn the_acting_pin_is_counted_in_the_wheels_own_order(rt: HostRuntime) {
    let mut pins = [false; 17];
    pins[9] = true;
    let sixth = PinWheel::new(ring6(), 10, pins);
    assert_eq!(rt; acts(sixth, letter(&rt, b'Q')), Some(true));
    assert_eq!(rt; acts(sixth, letter(&rt, b'A')), Some(false));
    assert_eq!(rt; acts(sixth, letter(&rt, b'R')), None);
    let mut pins = [false; 25];
    pins[13] = true;
    let second = PinWheel::new(ring2(), 14, pins);
    assert_eq!(rt; acts(second, letter(&rt, b'Z')), Some(true));
}
