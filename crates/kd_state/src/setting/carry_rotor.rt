//! Carries settings out on a rotor machine.
//!
//! A setting that is refused changes nothing. The error is the first reason to refuse the setting.
ghost use Rattle.kd_state.specs.Machine.{AreLegalRotorParts};
ghost use Rattle.kd_state.specs.Setting.{IsCarryAnswer};

use crate::machine::cable::{cable_in_order, cable_without, lies_in, lies_in_any};
use crate::machine::parts::Parts;
use crate::machine::rotor_parts::RotorParts;
use crate::machine::seats::place_in_box;
use crate::numbered_items::{numbered_item, set_numbered_item};
use crate::setting::Setting;
use crate::setting::why::Why;
use kd_tables::{Letter, Reflector, Wheel, allowed, allowed_reflector};

impl RotorParts {
    /// Carries `setting` out on a rotor machine.
    pub(crate) fn carry(&mut self, setting: Setting) -> Result<(), Why>
        requires { AreLegalRotorParts self.old }
        ensures { IsCarryAnswer (Parts.Rotor self.old) setting (Parts.Rotor self.new) result }
    {
        match setting {
            Setting::Pull { cable, letter } => self.pull(cable, letter),
            Setting::Put { cable, letter } => self.put(cable, letter),
            Setting::Seat { slot, wheel } => self.seat(slot, wheel),
            Setting::SeatReflector { reflector } => self.seat_reflector(reflector),
            Setting::RingTo { wheel, letter } => self.ring_to(wheel, letter),
            Setting::Turn { slot, letter } => self.turn(slot, letter),
            Setting::PinTo { .. } | Setting::LugTo { .. } => Err(Why::OtherModel),
        }
    }

    /// Takes `letter` out of cable `cable`.
    fn pull(&mut self, cable: u8, letter: Letter) -> Result<(), Why>
        ensures { IsCarryAnswer (Parts.Rotor self.old) (Setting.Pull cable letter)
            (Parts.Rotor self.new) result }
    {
        let ends = numbered_item(&self.cables, cable).ok_or(Why::NoSuchCable)?;
        if !lies_in(&ends, letter) {
            return Err(Why::NotThere);
        }
        let rest = cable_without(&ends, letter);
        set_numbered_item(&mut self.cables, cable, rest);
        Ok(())
    }

    /// Puts `letter` into cable `cable`.
    fn put(&mut self, cable: u8, letter: Letter) -> Result<(), Why>
        ensures { IsCarryAnswer (Parts.Rotor self.old) (Setting.Put cable letter)
            (Parts.Rotor self.new) result }
    {
        let ends = numbered_item(&self.cables, cable).ok_or(Why::NoSuchCable)?;
        if ends.0.is_some() && ends.1.is_some() {
            return Err(Why::NoLooseEnd);
        }
        if lies_in_any(&self.cables, letter) {
            return Err(Why::SocketTaken);
        }
        let both = cable_in_order(ends.0.or(ends.1), Some(letter));
        set_numbered_item(&mut self.cables, cable, both);
        Ok(())
    }

    /// Puts `wheel` into slot `slot`.
    ///
    /// `wheel` leaves its old slot, and the wheel that was in slot `slot` goes to the box.
    #[tactic(auto, using(crate::proofs::Wheels::lacks_wheel, std::proofs::lemmas::Bool::iff_false))]
    fn seat(&mut self, slot: u8, wheel: Wheel) -> Result<(), Why>
        requires { AreLegalRotorParts self.old }
        ensures { IsCarryAnswer (Parts.Rotor self.old) (Setting.Seat slot wheel)
            (Parts.Rotor self.new) result }
    {
        if !allowed(self.model, slot, wheel) {
            return Err(Why::WheelNotAllowed);
        }
        self.slots.take_out(wheel);
        self.slots.set(usize::from(slot) - 1, Some(wheel));
        Ok(())
    }

    /// Puts `reflector` into the machine, in place of the old reflector.
    fn seat_reflector(&mut self, reflector: Reflector) -> Result<(), Why>
        ensures { IsCarryAnswer (Parts.Rotor self.old) (Setting.SeatReflector reflector)
            (Parts.Rotor self.new) result }
    {
        if !allowed_reflector(self.model, reflector) {
            return Err(Why::WheelNotAllowed);
        }
        self.reflector = reflector;
        Ok(())
    }

    /// Sets the ring of `wheel` to `letter`. The wheel's window letter stays.
    #[tactic(auto, using(crate::proofs::Wheels::lacks_wheel))]
    fn ring_to(&mut self, wheel: Wheel, letter: Letter) -> Result<(), Why>
        requires { AreLegalRotorParts self.old }
        ensures { IsCarryAnswer (Parts.Rotor self.old) (Setting.RingTo wheel letter)
            (Parts.Rotor self.new) result }
    {
        let place = place_in_box(self.model, wheel).ok_or(Why::WheelNotAllowed)?;
        self.rings.set(place, letter);
        Ok(())
    }

    /// Turns the wheel in slot `slot` until `letter` shows.
    fn turn(&mut self, slot: u8, letter: Letter) -> Result<(), Why>
        requires { AreLegalRotorParts self.old }
        ensures { IsCarryAnswer (Parts.Rotor self.old) (Setting.Turn slot letter)
            (Parts.Rotor self.new) result }
    {
        let Some(Some(wheel)) = numbered_item(self.slots.as_slice(), slot) else {
            return Err(Why::SlotEmpty);
        };
        let place = place_in_box(self.model, wheel).unwrap();
        self.letters.set(place, letter);
        Ok(())
    }
}
