//! The rotor machine: an Enigma of three or four slots that is set to a key.
ghost use Rattle.std.specs.Prelude.{◌≡◌, ◌<◌, ◌≤◌, ◌+◌, nat_lt, ◌∷◌, [], length, slice_index, slice_index_or};
ghost use Rattle.std.specs.Prelude.{if◌then◌else◌};
ghost use Rattle.kd_enigma.specs.CurrentPath.{around_wheels};
ghost use Rattle.kd_enigma.specs.Cipher.{enigma_cipher, key_after, key_turned, path};
ghost use Rattle.kd_enigma.specs.KeptMaps.{slow_slots};

use super::key::EnigmaKey;
use super::map::Map;
use super::plugs::Plugs;
use super::rotor::Rotor;
use kd_step::Stepper;
use kd_tables::{Letter, Reflector, Wheel, reflecting};
use std::marker::Model;

/// A rotor machine that is set to a key and ready to encipher.
#[derive(Drop)]
pub struct Enigma<const S: usize> {
    wheels: [Wheel; S],
    rings: [Letter; S],
    reflector: Reflector,
    plugs: Plugs,
    stepper: Stepper<S>,
    rotors: [Rotor; S],
    reflecting: Map,
    slow_map: Map,
    path_map: Map,
}

impl<const S: usize> Model for Enigma<S> {
    ghost use Rattle.std.specs.Prelude.{◌≡◌, ◌≤◌};
    ghost use Rattle.kd_enigma.specs.Cipher.{RotorKey};
    ghost use Rattle.kd_enigma.specs.KeptMaps.{AreMapsOf, key_of_parts};

    ghost Value = { RotorKey };

    ghost view = { λ e. key_of_parts e.stepper e.rings e.reflector e.plugs };

    ghost invariant = { λ e. (e.wheels ≡ e.stepper.wheels)
        × AreMapsOf (key_of_parts e.stepper e.rings e.reflector e.plugs)
        e.rotors e.reflecting e.slow_map e.path_map
        × (3 ≤ S) × (S ≤ 4) };
}

impl<const S: usize> Enigma<S> {
    /// Sets up a machine of three or four slots to `key`.
    pub fn new(key: EnigmaKey<S>) -> Self
        requires least { 3 ≤ S }
        requires most { S ≤ 4 }
        ensures { result ≡ key.entry }
    {
        let EnigmaKey {
            wheels,
            rings,
            window,
            reflector,
            plugs,
        } = key;
        let (identity, board) = (Map::shift(0), plugs.map());
        let rotors = std::array::from_fn(
            |slot: usize|
                requires { slot < S }
                ensures wheel { result.wheel ≡ slice_index_or wheels slot result.wheel }
                ensures ring { result.ring ≡ slice_index_or rings slot result.ring }
                ensures board { result.board ≡ (if nat_lt (slot + 1) S then identity else board) }
            {
                let beside = if slot + 1 < S { identity } else { board };
                Rotor::new(wheels[slot], rings[slot], beside)
            },
        );
        let reflecting = Map::from_table(&reflecting(reflector));
        let slow_map = around_slow(&rotors, &window, reflecting);
        let path_map = rotors[S - 1].enclose(slow_map, window[S - 1]);
        Enigma {
            wheels,
            rings,
            reflector,
            plugs,
            stepper: Stepper::new(wheels, window),
            rotors,
            reflecting,
            slow_map,
            path_map,
        }
    }

    /// Enciphers or deciphers one letter: steps the wheels, and returns the letter whose lamp lights up.
    #[tactic(auto, using(crate::proofs::Ciphers::path_turned), unfolding(crate::specs::Cipher::path))]
    pub fn press(&mut self, letter: Letter) -> Letter
        ensures cipher { enigma_cipher self.old (letter ∷ []) ≡ result ∷ [] }
        ensures after { self.new ≡ key_after self.old 1 }
    {
        self.step();
        self.light(letter)
    }

    /// Enciphers `text` in place, with one key press for each letter.
    pub fn run(&mut self, text: &mut [Letter])
        ensures cipher { text.new ≡ enigma_cipher self.old text.old }
        ensures after { self.new ≡ key_after self.old (length text.old) }
    {
        for letter in text.iter_mut() {
            *letter = self.press(*letter);
        }
    }

    /// Turns the wheels so that the windows show the letters `window`, from left to right.
    pub fn turn_to(&mut self, window: [Letter; S])
        ensures { self.new ≡ key_turned self.old window.entry }
    {
        self.stepper = Stepper::new(self.wheels, window);
        self.slow_map = around_slow(&self.rotors, &window, self.reflecting);
        self.path_map = self.rotors[S - 1].enclose(self.slow_map, window[S - 1]);
    }

    /// The letters that show in the windows, from left to right.
    pub fn window(&self) -> [Letter; S]
        ensures { result ≡ self.now.window }
    {
        self.stepper.window()
    }

    /// Steps the wheels, and updates the permutations that depend on the window.
    ///
    /// `slow_map` is the path through all wheels but the right one. It changes only if the second wheel from the right
    /// moves. The wheels to the left of that wheel never move without it.
    fn step(&mut self)
        ensures { self.new ≡ key_after self.old 1 }
    {
        let stood = self.stepper.shown(S - 2).index();
        self.stepper.step();
        let stands = self.stepper.shown(S - 2).index();
        if stands != stood {
            self.slow_map = around_slow(&self.rotors, &self.stepper.window(), self.reflecting);
        }
        let right = self.stepper.shown(S - 1);
        self.path_map = self.rotors[S - 1].enclose(self.slow_map, right);
    }

    /// The letter whose lamp lights up if `letter` is pressed and no wheel moves.
    fn light(&self, letter: Letter) -> Letter
        ensures { result ≡ slice_index (path self.now self.now.window) letter }
    {
        let Enigma { path_map, .. } = self;
        path_map.at(letter)
    }
}

/// The current's path to the reflector and back, through all wheels except the right wheel.
#[tactic(auto, using(crate::proofs::Seats::around_more))]
fn around_slow<const S: usize>(rotors: &[Rotor; S], window: &[Letter; S], reflecting: Map) -> Map
    requires { 1 ≤ S }
    ensures { result ≡ around_wheels reflecting (slow_slots rotors.now) (slow_slots window.now) }
{
    let mut core = reflecting;
    for slot in 0..S - 1 {
        core = rotors[slot].enclose(core, window[slot]);
    }
    core
}
