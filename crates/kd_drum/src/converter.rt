//! The Converter M-209, set to a key.
ghost use Rattle.std.specs.Prelude.{◌≡◌, ◌↔◌, ◌<◌, ◌≤◌, ◌+◌, ◌-◌, ◌%◌, ◌||◌, [], ◌∷◌, length, Contains, IsOk};
ghost use Rattle.std.specs.Prelude.{IsTrue, IfOk, OnOk, OnErr};
ghost use Rattle.kd_pins.specs.PinWheel.{TurnedWheel, IsWheel, letter_shown};
ghost use Rattle.kd_pins.specs.PinWheels.{pins_of};
ghost use Rattle.kd_drum.specs.Converter.{IsEachOnItsWheel, is_acting_after, bars_met, converter_cipher, pin_key_after};
ghost use Rattle.kd_drum.specs.Converter.{pin_key_turned};
ghost use Rattle.kd_drum.specs.Counts.{is_in_set};

use super::counts::count_bars_met;
use kd_pins::{NotOnWheel, PinSet, PinWheel};
use kd_tables::{Letter, Reading, ring1, ring2, ring3, ring4, ring5, ring6};
use std::marker::Model;

/// A Converter M-209 that is set to a key and ready to encipher.
#[derive(Drop)]
pub struct Converter {
    w1: PinWheel<26>,
    w2: PinWheel<25>,
    w3: PinWheel<23>,
    w4: PinWheel<21>,
    w5: PinWheel<19>,
    w6: PinWheel<17>,
    bars: [Reading; 27],
    counts: [u8; 64],
}

impl Model for Converter {
    ghost use Rattle.kd_drum.specs.Converter.{PinKey};
    ghost use Rattle.kd_drum.specs.Counts.{AreCounts};
    ghost use Rattle.kd_drum.specs.SixWheels.{AreSixWheels, converter_key};

    ghost Value = { PinKey };

    ghost view = { λ c. converter_key c.w1 c.w2 c.w3 c.w4 c.w5 c.w6 c.bars };

    ghost invariant = { λ c. AreSixWheels c.w1 c.w2 c.w3 c.w4 c.w5 c.w6 × AreCounts c.bars c.counts };
}

impl Converter {
    /// Sets up a Converter with the pins `pins`, the shown letters `letters`, and the bars' readings `bars`.
    ///
    /// A bar's reading has the numbers of the wheels at the bar's two lugs. Returns `NotOnWheel` if one of `letters`
    /// isn't on its wheel.
    pub fn new(
        pins: PinSet,
        letters: [Letter; 6],
        bars: [Reading; 27],
    ) -> Result<Converter, NotOnWheel>
        ensures ok { IsOk result ↔ IsEachOnItsWheel letters }
        ensures value { IfOk result (λ converter.
            converter ≡ record { pins = pins_of pins; letters = letters; bars = bars }) }
    {
        let mut converter = Converter {
            w1: PinWheel::new(ring1(), 15, pins.w1),
            w2: PinWheel::new(ring2(), 14, pins.w2),
            w3: PinWheel::new(ring3(), 13, pins.w3),
            w4: PinWheel::new(ring4(), 12, pins.w4),
            w5: PinWheel::new(ring5(), 11, pins.w5),
            w6: PinWheel::new(ring6(), 10, pins.w6),
            counts: count_bars_met(&bars),
            bars,
        };
        converter.turn_to(letters)?;
        Ok(converter)
    }

    /// Turns the wheels so that they show `letters`, from wheel 1 to wheel 6.
    ///
    /// If one of `letters` isn't on its wheel, returns `NotOnWheel` and turns no wheel.
    pub fn turn_to(&mut self, letters: [Letter; 6]) -> Result<(), NotOnWheel>
        ensures ok { IsOk result ↔ IsEachOnItsWheel letters }
        ensures turned { OnOk result (self.new ≡ pin_key_turned self.old letters) }
        ensures unchanged { OnErr result (self.new ≡ self.old) }
    {
        if !self.can_show(&letters) {
            return Err(NotOnWheel);
        }
        self.show(letters);
        Ok(())
    }

    /// Turns the wheels so that they show `letters`, each of which must be on its wheel.
    fn show(&mut self, letters: [Letter; 6])
        requires { IsEachOnItsWheel letters }
        ensures { self.new ≡ pin_key_turned self.old letters }
    {
        let [l1, l2, l3, l4, l5, l6] = letters;
        self.w1.show(l1);
        self.w2.show(l2);
        self.w3.show(l3);
        self.w4.show(l4);
        self.w5.show(l5);
        self.w6.show(l6);
    }

    /// Whether each of `letters` is on its wheel.
    fn can_show(&self, letters: &[Letter; 6]) -> bool
        ensures { IsTrue result ↔ IsEachOnItsWheel letters.now }
    {
        let [l1, l2, l3, l4, l5, l6] = *letters;
        let have = [
            self.w1.has(l1),
            self.w2.has(l2),
            self.w3.has(l3),
            self.w4.has(l4),
            self.w5.has(l5),
            self.w6.has(l6),
        ];
        !have.contains(&false)
    }

    /// Enciphers or deciphers one letter, and then turns each wheel by one place.
    pub fn press(&mut self, letter: Letter) -> Letter
        ensures cipher { converter_cipher self.old (letter ∷ []) ≡ result ∷ [] }
        ensures after { self.new ≡ pin_key_after self.old 1 }
    {
        let met = self.met();
        self.advance();
        reversed_letter(met, letter)
    }

    /// Enciphers or deciphers `text` in place.
    pub fn run(&mut self, text: &mut [Letter])
        ensures cipher { text.new ≡ converter_cipher self.old text.old }
        ensures after { self.new ≡ pin_key_after self.old (length text.old) }
    {
        prove!(self.acting_wheels() < 64);
        for letter in text.iter_mut() {
            *letter = self.press(*letter);
        }
    }

    /// The number of bars that the wheels meet for the next letter.
    ///
    /// A wheel meets a bar if the wheel's acting pin is effective, and the bar has a lug at the wheel.
    pub fn met(&self) -> u8
        ensures value { result ≡ bars_met self.now 0 }
        ensures most { result ≤ 27 }
    {
        self.counts[self.acting_wheels()]
    }

    /// The letters that the wheels show, from wheel 1 to wheel 6.
    pub fn shown(&self) -> [Letter; 6]
        ensures { result ≡ self.now.letters }
    {
        [
            self.w1.shown(),
            self.w2.shown(),
            self.w3.shown(),
            self.w4.shown(),
            self.w5.shown(),
            self.w6.shown(),
        ]
    }

    /// The set of wheels with an effective acting pin.
    ///
    /// The set is a sum: 1 for wheel 1, 2 for wheel 2, 4 for wheel 3, and so on. For example, 5 is the set of wheels 1
    /// and 3.
    fn acting_wheels(&self) -> usize
        ensures set { result < 64 }
        ensures each { (wheel : _) → is_in_set result wheel
            ≡ is_acting_after self.now.pins self.now.letters 0 wheel }
        ensures stands { pin_key_after self.now 0 ≡ self.now }
    {
        usize::from(self.w1.acting())
            + 2 * usize::from(self.w2.acting())
            + 4 * usize::from(self.w3.acting())
            + 8 * usize::from(self.w4.acting())
            + 16 * usize::from(self.w5.acting())
            + 32 * usize::from(self.w6.acting())
    }

    /// Turns each wheel by one place.
    fn advance(&mut self)
        ensures { self.new ≡ pin_key_after self.old 1 }
    {
        self.w1.advance();
        self.w2.advance();
        self.w3.advance();
        self.w4.advance();
        self.w5.advance();
        self.w6.advance();
    }
}

/// Reverses `letter` (A becomes Z, B becomes Y), and moves the reversed letter on by `met` places, with A after Z.
fn reversed_letter(met: u8, letter: Letter) -> Letter
    requires { met ≤ 27 }
    ensures { result ≡ (25 + met - letter) % 26 }
{
    Letter::at((25 + met - letter.index() as u8) % 26)
}
