//! A single setting that an operator makes at a machine.

pub(crate) mod carry_list;
mod carry_pin;
mod carry_rotor;
mod line;
pub(crate) mod list;
pub(crate) mod why;

use kd_tables::{Letter, Lug, Place, Reflector, Wheel};

/// One setting that an operator makes at a machine.
///
/// Slots, cables, pin wheels and bars are counted from 1. Slot 1 is the left slot.
#[derive(Clone, Copy)]
pub enum Setting {
    /// Takes the letter out of the cable.
    Pull {
        cable: u8,
        letter: Letter,
    },
    /// Puts the letter at an empty end of the cable.
    Put {
        cable: u8,
        letter: Letter,
    },
    /// Puts the wheel into the slot.
    Seat {
        slot: u8,
        wheel: Wheel,
    },
    /// Puts the reflector into the machine, in place of the old reflector.
    SeatReflector {
        reflector: Reflector,
    },
    /// Sets the ring of the wheel to the letter. The wheel may be in a slot or in the box.
    RingTo {
        wheel: Wheel,
        letter: Letter,
    },
    /// Turns the wheel in slot `slot`, or pin wheel `slot`, until the letter shows.
    Turn {
        slot: u8,
        letter: Letter,
    },
    /// Makes the pin at `letter` of pin wheel `wheel` effective, or not effective.
    PinTo {
        wheel: u8,
        letter: Letter,
        effective: bool,
    },
    /// Moves the left or the right lug of the bar to the place.
    LugTo {
        bar: u8,
        lug: Lug,
        place: Place,
    },
}

/// The default setting, which fills the unused places of an array of settings.
impl Default for Setting {
    ghost use Rattle.std.specs.Prelude.{◌≡◌};
    ghost use Rattle.kd_tables.specs.declared.reflector.Reflector.TheVariants as reflectors;
    ghost use Rattle.kd_state.specs.declared.setting.Setting.TheVariants.{SeatReflector};

    ghost is_default = { λ x. x ≡ SeatReflector reflectors.A };

    fn default() -> Self {
        Setting::SeatReflector {
            reflector: Reflector::A,
        }
    }
}
