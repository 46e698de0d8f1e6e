//! Engines, which encipher and decipher texts. One type serves all models.

mod ready;

ghost use Rattle.std.specs.Prelude.{◌≡◌, ◌↔◌, IsTrue};
ghost use Rattle.std.specs.Bool.{OnTrue, OnFalse};
ghost use Rattle.kd_enigma.specs.Cipher.{key_turned};
ghost use Rattle.kd_drum.specs.Converter.{pin_key_turned};
ghost use Rattle.kd_state.specs.Machine.{AreLetters, AreOnWheels};
ghost use Rattle.kd_state.specs.OwnKeys.{sheet_key};

use crate::prover_facts::learn_letters;
use crate::sheet_day::SheetDay;
use crate::sheet_day::entry::Entry;
use crate::sheet_day::rotor_entry::SheetWheel;
use kd_drum::Converter;
use kd_enigma::{Enigma, EnigmaKey, Plugs};
use kd_pins::PinSet;
use kd_tables::{Letter, Reading, Reflector};
pub use ready::{NotReady, ReadyWheels, ready_wheels};
use std::marker::Model;

/// A machine of any model, set to a key and ready to encipher and decipher texts.
#[derive(Drop)]
pub struct Engine {
    mechanism: Mechanism,
}

#[derive(Drop)]
enum Mechanism {
    ThreeWheels(Enigma<3>),
    FourWheels(Enigma<4>),
    Drum(Converter),
}

impl Model for Engine {
    ghost use Rattle.kd_state.specs.EngineKey.{EngineKey};

    ghost Value = { EngineKey };

    ghost use Rattle.kd_state.specs.Engine.{mechanism_key, HasKeyWheelCount};

    ghost view = { λ e. mechanism_key e.mechanism };

    ghost invariant = { λ e. HasKeyWheelCount e.mechanism };
}

impl Engine {
    ghost use Rattle.std.specs.Prelude.{◌⊎◌, length};
    ghost use Rattle.kd_pins.specs.PinWheels.{pins_of};
    ghost use Rattle.kd_state.specs.SeatedWheels.{key_of_wheels};
    ghost use Rattle.kd_state.specs.EngineKey.{Rotor, Pin, cipher, engine_key_after, key_with_window, IsWindow};

    /// Enciphers or deciphers `text` in place. The wheels step on with each letter.
    pub fn run(&mut self, text: &mut [Letter])
        ensures cipher { text.new ≡ cipher self.old text.old }
        ensures after { self.new ≡ engine_key_after self.old (length text.old) }
    {
        match &mut self.mechanism {
            Mechanism::ThreeWheels(enigma) => enigma.run(text),
            Mechanism::FourWheels(enigma) => enigma.run(text),
            Mechanism::Drum(converter) => converter.run(text),
        }
    }

    /// Turns the wheels until they show `letters`, which are listed from the left, or from pin wheel 1 on.
    ///
    /// There must be one letter for each slot; or, on a Converter, one letter of each pin wheel. Otherwise returns
    /// false, and turns no wheel.
    pub fn turn_to(&mut self, letters: &[Letter]) -> bool
        ensures window { IsTrue result ↔ IsWindow self.old letters.now }
        ensures turned { OnTrue result (self.new ≡ key_with_window self.old letters.now) }
        ensures unchanged { OnFalse result (self.new ≡ self.old) }
    {
        match &mut self.mechanism {
            Mechanism::ThreeWheels(enigma) => turn_wheels(enigma, letters),
            Mechanism::FourWheels(enigma) => turn_wheels(enigma, letters),
            Mechanism::Drum(converter) => turn_drum(converter, letters),
        }
    }

    /// Creates the engine of a rotor machine. `wheels` are its three or four wheels, from the left.
    fn from_wheels(wheels: &[SheetWheel], reflector: Reflector, plugs: Plugs) -> Engine
        requires { (length wheels.now ≡ 3) ⊎ (length wheels.now ≡ 4) }
        ensures { result ≡ Rotor (key_of_wheels wheels.now reflector plugs) }
    {
        let mechanism = match wheels {
            [left, middle, right] => Mechanism::ThreeWheels(Enigma::new(EnigmaKey {
                wheels: [left.wheel, middle.wheel, right.wheel],
                rings: [left.ring, middle.ring, right.ring],
                window: [left.letter, middle.letter, right.letter],
                reflector,
                plugs,
            })),
            [first, left, middle, right] => Mechanism::FourWheels(Enigma::new(EnigmaKey {
                wheels: [first.wheel, left.wheel, middle.wheel, right.wheel],
                rings: [first.ring, left.ring, middle.ring, right.ring],
                window: [first.letter, left.letter, middle.letter, right.letter],
                reflector,
                plugs,
            })),
            _ => unreachable!(),
        };
        Engine { mechanism }
    }

    /// Creates the engine of a Converter M-209 from its pins, the letters that its wheels show, and the bars' readings.
    #[tactic(auto, using(crate::proofs::Slots::stand_on_wheels))]
    fn from_drum(pins: PinSet, letters: [Letter; 6], bars: [Reading; 27]) -> Engine
        requires { AreOnWheels letters }
        ensures { result ≡ Pin (record { pins = pins_of pins; letters = letters; bars = bars }) }
    {
        Engine {
            mechanism: Mechanism::Drum(Converter::new(pins, letters, bars).unwrap()),
        }
    }
}

/// Creates the engine of a machine that is set as `day` says and shows the day's letters.
pub fn own_engine(day: &SheetDay) -> Engine
    ensures { result ≡ sheet_key day.now }
{
    match day.entry() {
        Entry::Rotor(entry) => {
            let plugs = Plugs::from_pairs(entry.pairs.as_slice()).unwrap();
            Engine::from_wheels(entry.wheels.as_slice(), entry.reflector, plugs)
        }
        Entry::Pin(entry) => Engine::from_drum(entry.pins, entry.window, entry.rows),
    }
}

/// Turns a rotor machine's wheels until they show `letters`. Returns false if the numbers of letters and wheels differ.
fn turn_wheels<const S: usize>(enigma: &mut Enigma<S>, letters: &[Letter]) -> bool
    ensures window { IsTrue result ↔ AreLetters S letters.now }
    ensures turned { OnTrue result (enigma.new ≡ key_turned enigma.old letters.now) }
    ensures unchanged { OnFalse result (enigma.new ≡ enigma.old) }
{
    learn_letters(letters);
    match <[Letter; S]>::try_from(letters) {
        Ok(window) => {
            enigma.turn_to(window);
            true
        }
        Err(_) => false,
    }
}

/// Turns the Converter's wheels until they show `letters`.
///
/// Returns false, and turns no wheel, if there aren't six letters, or if a letter isn't on its wheel.
fn turn_drum(converter: &mut Converter, letters: &[Letter]) -> bool
    ensures window { IsTrue result ↔ AreOnWheels letters.now }
    ensures turned { OnTrue result (converter.new ≡ pin_key_turned converter.old letters.now) }
    ensures unchanged { OnFalse result (converter.new ≡ converter.old) }
{
    match <[Letter; 6]>::try_from(letters) {
        Ok(window) => converter.turn_to(window).is_ok(),
        Err(_) => false,
    }
}
