//! The values of a day, for a rotor machine or for the Converter M-209.
ghost use Rattle.std.specs.Prelude.{◌≡◌, ◌≢◌, ◌↔◌, ℕ, decimal, IsTrue, MatchOption};
ghost use Rattle.kd_state.specs.SheetDay.{IsDayNumber};

use crate::sheet_day::pin_entry::PinEntry;
use crate::sheet_day::rotor_entry::RotorEntry;
use kd_tables::number_of_text;

/// The values of a day of a key sheet.
#[derive(Drop)]
pub enum Entry {
    /// A day for an Enigma I, an M3 or an M4.
    Rotor(RotorEntry),
    /// A day for a Converter M-209.
    Pin(PinEntry),
}

/// Reads a day of a month: a decimal number from 1 to 31. `None` for other texts.
#[tactic(auto, using(std::proofs::lemmas::Fmt::decimal_injective))]
pub fn day_of_text(text: &[u8]) -> Option<u8>
    ensures { MatchOption result
        ((day : ℕ) → IsDayNumber day → decimal day ≢ text.now)
        (λ day. (decimal day ≡ text.now) × IsDayNumber day) }
{
    let day = number_of_text(text)?;
    is_day_number(day).then_some(day)
}

/// Whether `day` is from 1 to 31.
pub(crate) fn is_day_number(day: u8) -> bool
    ensures { IsTrue result ↔ IsDayNumber day }
{
    1 <= day && day <= 31
}
