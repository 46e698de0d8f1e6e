//! Whether a machine is ready to encipher, and the engine of a ready machine.
ghost use Rattle.std.specs.Prelude.{◌≡◌, ◌≢◌, ◌⊎◌, ◌↔◌, ◌<◌, ◌≤◌, ◌+◌, ◌++◌, length, map, filter_map, All, Contains, IsTrue};
ghost use Rattle.std.specs.Prelude.{IsSome, IfSome, MatchOption, Some, None};
ghost use Rattle.std.specs.Option.{option_to_list, option_zip};
ghost use Rattle.arrayvec.specs.ArrayVec.{array_vec_len};
ghost use Rattle.kd_enigma.specs.Cipher.{IsPlugboard};
ghost use Rattle.kd_tables.specs.Permutation.{exchange};
ghost use Rattle.kd_tables.specs.Refusals.{refusal_name};
ghost use Rattle.kd_tables.specs.Tables.{box_of};
ghost use Rattle.kd_state.specs.Machine.{cable_letters, AreCables, AreLegalRotorParts};
ghost use Rattle.kd_state.specs.SeatedWheels.{key_of_wheels, wheel_in_seat};
ghost use Rattle.kd_state.specs.EngineKey.{Rotor};
ghost use Rattle.kd_state.specs.OwnKeys.{physical_key};
ghost use Rattle.kd_state.specs.TwoCiphers.{IsReady};

use super::Engine;
use crate::machine::Machine;
use crate::machine::cable::Cable;
use crate::machine::getters::letter_of_wheel;
use crate::machine::parts::Parts;
use crate::machine::pin_parts::readings_of;
use crate::machine::rotor_parts::RotorParts;
use crate::sheet_day::rotor_entry::SheetWheel;
use arrayvec::ArrayVec;
use kd_enigma::Plugs;
use kd_tables::{Letter, Reflector, Refusal, RefusalText, Wheel};
use thiserror::Error;

/// The machine isn't ready: a slot is empty, or a cable has exactly one letter.
#[derive(Clone, Copy, Debug, Error)]
#[error("{}", self.text())]
pub struct NotReady;

impl NotReady {
    /// The refusal's number and name.
    pub fn text(&self) -> RefusalText
        ensures { result.bytes ≡ refusal_name Refusal.NotReady }
    {
        Refusal::NotReady.text()
    }
}

/// The wheels, the reflector and the plugboard of a rotor machine that is ready.
#[derive(Drop)]
pub struct ReadyWheels {
    /// A wheel for each slot, from the left.
    pub wheels: ArrayVec<SheetWheel, 4>,
    pub reflector: Reflector,
    pub plugs: Plugs,
}

impl Machine {
    ghost use Rattle.std.specs.Prelude.{IsOk, IfOk};
    ghost use Rattle.kd_state.specs.TwoCiphers.{IsReady};

    /// Whether every slot has a wheel, and no cable has exactly one letter.
    pub fn is_ready(&self) -> bool
        ensures { IsTrue result ↔ IsReady self.now }
    {
        match self.parts() {
            Parts::Rotor(parts) => {
                let mut slots = parts.slots.as_slice().iter();
                slots.all(|seated| seated.is_some()) && have_no_single_letter(&parts.cables)
            }
            Parts::Pin(_) => true,
        }
    }

    /// Creates an engine that enciphers as this machine does, starting from the letters that the machine shows.
    ///
    /// Returns `NotReady` if a slot is empty or a cable has exactly one letter.
    pub fn engine(&self) -> Result<Engine, NotReady>
        ensures ready { IsOk result ↔ IsReady self.now }
        ensures key { IfOk result (λ engine. engine ≡ physical_key self.now) }
    {
        match self.parts() {
            Parts::Rotor(parts) => rotor_engine(parts).ok_or(NotReady),
            Parts::Pin(parts) => Ok(Engine::from_drum(
                parts.pins,
                parts.letters,
                readings_of(&parts.bars),
            )),
        }
    }
}

/// Creates the engine of a rotor machine, if the machine is ready.
fn rotor_engine(parts: &RotorParts) -> Option<Engine>
    requires { AreLegalRotorParts parts.now }
    ensures ready { IsSome result ↔ IsReady (Parts.Rotor parts.now) }
    ensures key { IfSome result (λ engine. engine ≡ physical_key (Parts.Rotor parts.now)) }
{
    let ready = ready_wheels(parts)?;
    Some(Engine::from_wheels(ready.wheels.as_slice(), ready.reflector, ready.plugs))
}

/// The wheels, the reflector and the plugboard of a rotor machine, if the machine is ready.
#[tactic(auto, using(crate::proofs::WheelsInSlots::not_ready))]
pub fn ready_wheels(parts: &RotorParts) -> Option<ReadyWheels>
    requires { AreLegalRotorParts parts.now }
    ensures ready { IsSome result ↔ IsReady (Parts.Rotor parts.now) }
    ensures key { IfSome result (λ ready. physical_key (Parts.Rotor parts.now)
        ≡ Rotor (key_of_wheels ready.wheels.items ready.reflector ready.plugs)) }
    ensures slots { IfSome result
        (λ ready. (array_vec_len ready.wheels ≡ 3) ⊎ (array_vec_len ready.wheels ≡ 4)) }
    ensures plugs { IfSome result (λ ready. IsPlugboard ready.plugs) }
{
    let wheels = seated_wheels(parts)?;
    let plugs = plugs_of(&parts.cables)?;
    Some(ReadyWheels {
        wheels,
        reflector: parts.reflector,
        plugs,
    })
}

/// The wheels in the slots, with their rings and window letters. `None` if a slot is empty.
fn seated_wheels(parts: &RotorParts) -> Option<ArrayVec<SheetWheel, 4>>
    requires { AreLegalRotorParts parts.now }
    ensures { MatchOption result (Contains (map (wheel_in_seat parts.now) parts.now.slots) None)
        (λ wheels. map Some wheels.items ≡ map (wheel_in_seat parts.now) parts.now.slots) }
{
    let mut wheels = ArrayVec::new();
    let slots = parts.slots.as_slice();
    for seated in slots {
        wheels.push(seated_wheel(parts, *seated)?);
    }
    Some(wheels)
}

/// The wheel `seated`, with its ring and its window letter. `None` if there is no wheel.
fn seated_wheel(parts: &RotorParts, seated: Option<Wheel>) -> Option<SheetWheel>
    requires rings { length parts.now.rings ≡ length (box_of parts.now.model) }
    requires letters { length parts.now.letters ≡ length (box_of parts.now.model) }
    ensures { result ≡ wheel_in_seat parts.now seated }
{
    let wheel = seated?;
    let ring = letter_of_wheel(parts.model, &parts.rings, wheel)?;
    let letter = letter_of_wheel(parts.model, &parts.letters, wheel)?;
    Some(SheetWheel {
        wheel,
        ring,
        letter,
    })
}

/// The letters that the cables exchange, as `Plugs`. `None` if a cable has exactly one letter.
fn plugs_of(cables: &[Cable; 13]) -> Option<Plugs>
    requires { AreCables cables.now }
    ensures ready { IsSome result ↔ All (λ cable. length (cable_letters cable) ≢ 1) cables.now }
    ensures plugs { IfSome result
        (λ plugs. plugs ≡ exchange (filter_map (λ cable. option_zip cable.0 cable.1) cables.now)) }
    ensures plugboard { IfSome result IsPlugboard }
{
    if !have_no_single_letter(cables) {
        return None;
    }
    Some(Plugs::from_pairs(plugged_pairs(cables).as_slice()).unwrap())
}

/// Whether no cable has exactly one letter.
fn have_no_single_letter(cables: &[Cable; 13]) -> bool
    ensures { IsTrue result ↔ All (λ cable. length (cable_letters cable) ≢ 1) cables.now }
{
    cables
        .iter()
        .all(|cable| cable.0.is_some() == cable.1.is_some())
}

/// The plugged pairs: for each cable with two letters, these two letters.
fn plugged_pairs(cables: &[Cable; 13]) -> ArrayVec<(Letter, Letter), 13>
    ensures { result.items ≡ filter_map (λ cable. option_zip cable.0 cable.1) cables.now }
{
    let mut pairs = ArrayVec::new();
    for cable in cables {
        push_pair(&mut pairs, *cable);
    }
    pairs
}

/// Appends the two letters of `cable` as a pair, if the cable has two letters.
fn push_pair(pairs: &mut ArrayVec<(Letter, Letter), 13>, cable: Cable)
    requires { array_vec_len pairs.old < 13 }
    ensures pairs { pairs.new.items
        ≡ pairs.old.items ++ option_to_list (option_zip cable.0 cable.1) }
    ensures at_most_one { array_vec_len pairs.new ≤ array_vec_len pairs.old + 1 }
{
    if let (Some(one), Some(other)) = cable {
        pairs.push((one, other));
    }
}
