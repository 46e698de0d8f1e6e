//! Carries settings out on a Converter M-209.
//!
//! A setting that is refused changes nothing. The error is the first reason to refuse the setting.
ghost use Rattle.kd_state.specs.Setting.{IsCarryAnswer, is_same_place, with_lug};
ghost use Rattle.kd_tables.specs.Places.{IsBefore};
ghost use Rattle.std.specs.Prelude.{◌≡◌, ◌↔◌, IsSome, IfSome};

use crate::machine::parts::Parts;
use crate::machine::pin_parts::PinParts;
use crate::machine::pins::{is_on_wheel, set_pin};
use crate::numbered_items::{numbered_item, set_numbered_item};
use crate::setting::Setting;
use crate::setting::why::Why;
use kd_tables::{Letter, Lug, Place, Standing};

impl PinParts {
    /// Carries `setting` out on a Converter M-209.
    pub(crate) fn carry(&mut self, setting: Setting) -> Result<(), Why>
        ensures { IsCarryAnswer (Parts.Pin self.old) setting (Parts.Pin self.new) result }
    {
        match setting {
            Setting::Turn { slot, letter } => self.turn(slot, letter),
            Setting::PinTo {
                wheel,
                letter,
                effective,
            } => self.pin_to(wheel, letter, effective),
            Setting::LugTo { bar, lug, place } => self.lug_to(bar, lug, place),
            _ => Err(Why::OtherModel),
        }
    }

    /// Turns pin wheel `wheel` until `letter` shows.
    fn turn(&mut self, wheel: u8, letter: Letter) -> Result<(), Why>
        ensures { IsCarryAnswer (Parts.Pin self.old) (Setting.Turn wheel letter)
            (Parts.Pin self.new) result }
    {
        numbered_item(&self.letters, wheel).ok_or(Why::SlotEmpty)?;
        if !is_on_wheel(wheel, letter) {
            return Err(Why::NotOnWheel);
        }
        set_numbered_item(&mut self.letters, wheel, letter);
        Ok(())
    }

    /// Makes the pin at `letter` of pin wheel `wheel` effective, or not effective.
    #[tactic(auto, using(crate::proofs::Slots::on_wheels))]
    fn pin_to(&mut self, wheel: u8, letter: Letter, effective: bool) -> Result<(), Why>
        ensures { IsCarryAnswer (Parts.Pin self.old) (Setting.PinTo wheel letter effective)
            (Parts.Pin self.new) result }
    {
        if !is_on_wheel(wheel, letter) {
            return Err(Why::NotOnWheel);
        }
        set_pin(&mut self.pins, wheel, letter, effective);
        Ok(())
    }

    /// Moves the lug `lug` of bar `bar` to `place`.
    #[tactic(auto, using(crate::proofs::Slots::is_numbered))]
    fn lug_to(&mut self, bar: u8, lug: Lug, place: Place) -> Result<(), Why>
        ensures { IsCarryAnswer (Parts.Pin self.old) (Setting.LugTo bar lug place)
            (Parts.Pin self.new) result }
    {
        let Some(standing) = numbered_item(&self.bars, bar) else {
            return Err(Why::NoSuchBar);
        };
        if is_taken(standing, lug, place) {
            return Err(Why::PlaceTaken);
        }
        let Some(moved) = with_lug(standing, lug, place) else {
            return Err(Why::WouldPass);
        };
        set_numbered_item(&mut self.bars, bar, moved);
        Ok(())
    }
}

/// Whether the bar's other lug (the one that isn't `lug`) is at `place`.
fn is_taken(standing: Standing, lug: Lug, place: Place) -> bool
    ensures { let moved = with_lug lug place standing in result ≡ is_same_place moved.0 moved.1 }
{
    match lug {
        Lug::Left => place == standing.right(),
        Lug::Right => standing.left() == place,
    }
}

/// `standing` with `lug` moved to `place`; `None` if the left lug would no longer be left of the right lug.
fn with_lug(standing: Standing, lug: Lug, place: Place) -> Option<Standing>
    ensures exists { let moved = with_lug lug place standing in IsSome result ↔ IsBefore moved.0 moved.1 }
    ensures value { IfSome result (λ moved. moved ≡ with_lug lug place standing) }
{
    match lug {
        Lug::Left => Standing::new(place, standing.right()),
        Lug::Right => Standing::new(standing.left(), place),
    }
}
