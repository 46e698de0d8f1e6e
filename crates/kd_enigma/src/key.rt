//! The key of a rotor machine.
use super::plugs::Plugs;
use kd_tables::{Letter, Reflector, Wheel};

/// The key of a rotor machine of three or four slots. Slots are in order from left to right.
#[derive(Clone, Copy)]
pub struct EnigmaKey<const S: usize> {
    /// The wheel in each slot.
    pub wheels: [Wheel; S],
    /// The ring setting of each wheel, as a letter: A is 01.
    pub rings: [Letter; S],
    /// The letter in each window.
    pub window: [Letter; S],
    /// The reflector, left of the wheels.
    pub reflector: Reflector,
    /// The plugboard, right of the wheels.
    pub plugs: Plugs,
}

impl<const S: usize> std::marker::Model for EnigmaKey<S> {
    ghost use Rattle.kd_enigma.specs.Cipher.{RotorKey};

    ghost Value = { RotorKey };

    ghost view = { λ k. record {
      wheels = k.wheels;
      rings = k.rings;
      window = k.window;
      reflector = k.reflector;
      plugs = k.plugs;
    } };

    ghost inverse = { λ k. record {
      wheels = k.wheels;
      rings = k.rings;
      window = k.window;
      reflector = k.reflector;
      plugs = k.plugs;
    } };
}
