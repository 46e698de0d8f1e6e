//! Checks which wheels are in which slots, and takes wheels out of slots.
ghost use Rattle.std.specs.Prelude.{◌≡◌, ◌↔◌, ℕ, ◌+◌, ◌≤◌, IsTrue, IfSome, Some, Contains, length};
ghost use Rattle.std.specs.Option.{SomeIff};
ghost use Rattle.kd_tables.specs.Tables.{box_of, wheels_for};
ghost use Rattle.kd_state.specs.SameParts.{place_in_box};
ghost use Rattle.kd_state.specs.{Machine.{AreLegalSeats, IsSeatedAt}, Setting.seat_without};

use crate::machine::per_slot::PerSlot;
use kd_tables::{Model, Wheel, allowed};

/// The place of `wheel` in the model's box, counted from 0. `None` if the box lacks the wheel.
pub(crate) fn place_in_box(model: Model, wheel: Wheel) -> Option<usize>
    ensures { SomeIff result (Contains (box_of model) wheel) (place_in_box model wheel) }
{
    for (place, other) in model.wheels().iter().enumerate() {
        if *other == wheel {
            return Some(place);
        }
    }
    None
}

/// Whether `slots` are legal: there are as many as the model has, each wheel is allowed in its slot, and no wheel is
/// in two slots.
pub(crate) fn are_legal_seats(model: Model, slots: &PerSlot<Option<Wheel>>) -> bool
    ensures { IsTrue result ↔ AreLegalSeats model slots.now }
{
    let slots = slots.as_slice();
    slots.len() == usize::from(model.slots()) && are_allowed(model, slots) && are_seated_once(slots)
}

/// Whether each wheel is allowed in its slot.
#[tactic(auto, using(crate::proofs::Prelude::gets, crate::proofs::Prelude::slice_get_within))]
fn are_allowed(model: Model, slots: &[Option<Wheel>]) -> bool
    requires { length slots.now ≤ 4 }
    ensures { IsTrue result
        ↔ ((place : ℕ) (wheel : _) → IsSeatedAt slots.now place wheel
        → Contains (wheels_for model (place + 1)) wheel) }
{
    for (place, seated) in slots.iter().enumerate() {
        if !may_hold(model, place as u8 + 1, *seated) {
            return false;
        }
    }
    true
}

/// Whether slot `slot` (1 is the left slot) may hold `seated`. A slot may always be empty.
fn may_hold(model: Model, slot: u8, seated: Option<Wheel>) -> bool
    ensures { IsTrue result ↔ IfSome seated (Contains (wheels_for model slot)) }
{
    match seated {
        None => true,
        Some(wheel) => allowed(model, slot, wheel),
    }
}

/// Whether no wheel is in two slots.
fn are_seated_once(slots: &[Option<Wheel>]) -> bool
    ensures { IsTrue result
        ↔ ((p q : ℕ) (wheel : _) → IsSeatedAt slots.now p wheel → IsSeatedAt slots.now q wheel
        → p ≡ q) }
{
    for (place, seated) in slots.iter().enumerate() {
        if !is_alone(slots, place, *seated) {
            return false;
        }
    }
    true
}

/// Whether no slot but the slot at `place` holds the wheel `seated`. True if `seated` is `None`.
fn is_alone(slots: &[Option<Wheel>], place: usize, seated: Option<Wheel>) -> bool
    ensures { IsTrue result ↔ IfSome seated
        (λ wheel. (other : ℕ) → IsSeatedAt slots.now other wheel → other ≡ place) }
{
    for (other, wheel) in slots.iter().enumerate() {
        if other != place && seated.is_some() && *wheel == seated {
            return false;
        }
    }
    true
}

/// The content of a slot after `wheel` is taken out.
///
/// A slot that held `wheel` is empty; any other slot keeps its content, `seated`.
pub(crate) fn seat_without(seated: Option<Wheel>, wheel: Wheel) -> Option<Wheel>
    ensures { result ≡ seat_without wheel seated }
{
    if seated == Some(wheel) { None } else { seated }
}
