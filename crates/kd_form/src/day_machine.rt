//! `DayMachine`: a machine that is set as the day says, with any letters in its windows. The function `slots_of` tells
//! how many slots a day's machine has.
ghost use Rattle.std.specs.Prelude.{◌≡◌, ◌↔◌, ◌≤◌, ◌<◌, length, All, IsTrue, MatchOption};
ghost use Rattle.std.specs.Bool.{OnTrue};
ghost use Rattle.kd_state.specs.EngineKey.{IsWindow};
ghost use Rattle.kd_state.specs.OwnKeys.{sheet_key};
ghost use Rattle.kd_form.specs.KeyPatterns.{IsRotorDayWith, IsConverterDay};
ghost use Rattle.kd_form.specs.PartMaking.{cipher_from};

use super::bounded_list::append_letters;
use arrayvec::ArrayVec;
use kd_state::{Engine, Entry, SheetDay, own_engine};
use kd_tables::Letter;
use std::marker::Model;

/// A machine that is set as the day says. Its windows are set anew for each text.
#[derive(Drop)]
pub struct DayMachine<'day> {
    pub(crate) day: &'day SheetDay,
    /// The engine: set as the day says, with any letters in its windows.
    engine: Engine,
}

impl<'day> Model for DayMachine<'day> {
    ghost use Rattle.kd_state.specs.SheetDay.{Day};
    ghost use Rattle.kd_form.specs.PartMaking.{IsKeyOfDaysMachine};

    ghost Value = { Day };

    ghost view = { λ machine. machine.day.now };

    ghost invariant = { λ machine. IsKeyOfDaysMachine machine.day.now machine.engine };
}

impl<'day> DayMachine<'day> {
    /// Creates a machine that is set as `day` says.
    #[tactic(auto, using(crate::proofs::MadeParts::new_has_days_key))]
    pub fn new(day: &'day SheetDay) -> Self
        ensures { result ≡ day.now }
    {
        DayMachine {
            day,
            engine: own_engine(day),
        }
    }

    /// Enciphers or deciphers `text` in place. At the start, the machine's windows show the letters of `window`.
    ///
    /// Returns whether the machine can show `window`: one letter for each slot, or one letter of each pin wheel.
    pub(crate) fn encipher(&mut self, window: &[Letter], text: &mut [Letter]) -> bool
        ensures day { self.new ≡ self.old }
        ensures window { IsTrue result ↔ IsWindow (sheet_key self.old) window.now }
        ensures text { OnTrue result (text.new ≡ cipher_from self.old window.now text.old) }
    {
        let turned = self.engine.turn_to(window);
        if turned {
            self.engine.run(text);
        }
        turned
    }

    /// Whether the machine can show `window`: one letter for each slot, or one letter of each pin wheel.
    pub fn can_show(&mut self, window: &[Letter]) -> bool
        ensures day { self.new ≡ self.old }
        ensures window { IsTrue result ↔ IsWindow (sheet_key self.old) window.now }
    {
        self.encipher(window, &mut [])
    }

    /// Enciphers or deciphers `text`. At the start, the machine's windows show the letters of `window`.
    pub fn encipher_text<const N: usize>(
        &mut self,
        window: &[Letter],
        text: &[Letter],
    ) -> ArrayVec<Letter, N>
        requires window { IsWindow (sheet_key self.old) window.now }
        requires room { length text.now ≤ N }
        ensures day { self.new ≡ self.old }
        ensures text { result.items ≡ cipher_from self.old window.now text.now }
        ensures letters { All (λ letter. letter < 26) result.items }
    {
        let mut letters = ArrayVec::new();
        append_letters(&mut letters, text);
        self.encipher(window, letters.as_mut_slice());
        letters
    }
}

/// The number of slots of the day's machine; `None` for the Converter M-209.
pub fn slots_of(day: &SheetDay) -> Option<usize>
    ensures { MatchOption result
        (IsConverterDay day.now)
        (IsRotorDayWith day.now) }
{
    match day.entry() {
        Entry::Rotor(entry) => Some(entry.wheels.as_slice().len()),
        Entry::Pin(_) => None,
    }
}
