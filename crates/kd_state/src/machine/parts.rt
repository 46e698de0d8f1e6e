//! The parts of a machine of any model.
ghost use Rattle.kd_state.specs.Machine.{IsLegal};
ghost use Rattle.kd_state.specs.Setting.{IsCarryAnswer};

use crate::machine::pin_parts::PinParts;
use crate::machine::rotor_parts::RotorParts;
use crate::setting::Setting;
use crate::setting::why::Why;

/// The parts of a machine as it stands on the desk.
#[derive(Clone, Copy)]
pub enum Parts {
    /// The parts of an Enigma I, an M3 or an M4.
    Rotor(RotorParts),
    /// The parts of a Converter M-209.
    Pin(PinParts),
}

impl Parts {
    /// Carries `setting` out, or returns the first reason to refuse the setting.
    pub(crate) fn carry(&mut self, setting: Setting) -> Result<(), Why>
        requires { IsLegal self.old }
        ensures { IsCarryAnswer self.old setting self.new result }
    {
        match self {
            Parts::Rotor(parts) => parts.carry(setting),
            Parts::Pin(parts) => parts.carry(setting),
        }
    }
}
