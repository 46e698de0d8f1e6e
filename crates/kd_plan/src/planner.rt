//! Plans a card. Its settings for cables or bars carry out a minimum-cost assignment.
ghost use Rattle.std.specs.Prelude.{◌≡◌, ◌≢◌, ◌≤◌, ◌*◌, ◌==◌, if◌then◌else◌, IfOk, IsErr, ◌↔◌};
ghost use Rattle.std.specs.Prelude.{All, length, pos, replicate, unsigned_abs};
ghost use Rattle.kd_card.specs.Prices.{ArePrices};
ghost use Rattle.kd_plan.specs.{Planned.{IsPlannedCard, IsProvedPlannedCard}, Spares.SparesStayFree};
ghost use Rattle.kd_state.specs.SheetDay.{Rotor, Pin, IsLegalDay, day_model};
ghost use Rattle.kd_state.specs.{Entry.{rotor_values, pin_values}, Machine.{IsMachine, model_of}};

use super::bar_lines::push_lugs;
use super::cable_lines::{CableMove, push_moves};
use super::other_model::OtherModel;
use super::spares::keep_spares_free;
use kd_assign::{Solution, assign};
use kd_card::{Card, PriceParts, Prices, pin_settings, rotor_settings};
use kd_state::{
    Machine, OneModel, Parts, PinEntry, PinParts, RotorEntry, RotorParts, SheetDay, bar_costs,
    cable_costs,
};

/// Plans a card that sets the machine to the day by the fewest settings, and leaves spare cables free.
///
/// If there are several shortest cards, the contract leaves open which one is planned, and with which prices. If no
/// cable and no bar has to change, all prices are 0.
pub fn plan(machine: &Machine, day: &SheetDay) -> Result<Card, OtherModel>
    ensures refused { IsErr result ↔ (model_of machine.now ≢ day_model day.now) }
    ensures card { IfOk result (λ card.
        IsProvedPlannedCard machine.now day.now card.settings.items card.prices) }
    ensures machine { IsMachine machine.now }
    ensures day { IsLegalDay day.now }
{
    match machine.of_one_model(day) {
        None => Err(OtherModel),
        Some(OneModel::Rotor(parts, entry)) => Ok(rotor_card(machine, parts, entry)),
        Some(OneModel::Pin(parts, entry)) => Ok(pin_card(parts, entry)),
    }
}

/// Plans a card for a rotor machine: first settings for all but cables, then all PULL, then all PUT settings.
///
/// `parts` are the parts of `machine`.
#[tactic(auto, using(crate::proofs::Planning::is_planned_card, crate::proofs::Planning::four_at_most, crate::proofs::Planning::all_within))]
fn rotor_card(machine: &Machine, parts: &RotorParts, entry: &RotorEntry) -> Card
    requires parts { machine.now ≡ Parts.Rotor parts.now }
    requires model { parts.now.model ≡ entry.now.model }
    requires machine { IsMachine (Parts.Rotor parts.now) }
    requires legal { IsLegalDay (Rotor (rotor_values entry.now)) }
    ensures planned { let day = Rotor (rotor_values entry.now) in
        IsPlannedCard (Parts.Rotor parts.now) day result.settings.items result.prices }
    ensures spares { let day = Rotor (rotor_values entry.now) in
        SparesStayFree (Parts.Rotor parts.now) day result.settings.items }
    ensures prices { ArePrices result.prices }
{
    let pairs = entry.pairs.as_slice();
    let costs = cable_costs(&parts.cables, pairs);
    let Solution {
        mut to,
        row,
        col,
        total,
        ..
    } = assign(&costs);
    keep_spares_free(&parts.cables, pairs, &mut to);
    let prices = cable_prices(total, row, col);
    let mut settings = rotor_settings(machine, parts, entry);
    push_moves(&mut settings, CableMove::Out, 1, &parts.cables, pairs, &to);
    push_moves(&mut settings, CableMove::In, 1, &parts.cables, pairs, &to);
    Card { settings, prices }
}

/// Plans a card for a Converter M-209: first settings for pins and letters, then all LUG settings.
#[tactic(auto, using(crate::proofs::Planning::is_planned_card, crate::proofs::Planning::two_at_most, crate::proofs::Planning::all_within))]
fn pin_card(parts: &PinParts, entry: &PinEntry) -> Card
    ensures planned { let day = Pin (pin_values entry.now) in
        IsPlannedCard (Parts.Pin parts.now) day result.settings.items result.prices }
    ensures prices { ArePrices result.prices }
{
    let costs = bar_costs(&parts.bars, &entry.rows);
    let Solution {
        to,
        row,
        col,
        total,
        ..
    } = assign(&costs);
    let prices = bar_prices(total, row, col);
    let mut settings = pin_settings(parts, entry);
    push_lugs(&mut settings, 1, &parts.bars, &entry.rows, &to);
    Card { settings, prices }
}

/// The prices of cables (`rows`) and of columns (`columns`), or only zeros if the assignment's cost `total` is 0.
fn cable_prices(total: u16, rows: [i16; 13], columns: [i16; 13]) -> Prices
    requires rows { All (λ price. unsigned_abs price ≤ 4 * 13) rows }
    requires columns { All (λ price. unsigned_abs price ≤ 4 * 13) columns }
    ensures { result ≡ PriceParts.Cables
        (if total == 0 then replicate (length rows) (pos 0) else rows)
        (if total == 0 then replicate (length columns) (pos 0) else columns) }
{
    Prices::cables(
        prices_or_zeros(total, rows),
        prices_or_zeros(total, columns),
    )
    .unwrap()
}

/// The prices of bars (`rows`) and of the sheet's rows (`columns`), or only zeros if the assignment's cost `total` is
/// 0.
fn bar_prices(total: u16, rows: [i16; 27], columns: [i16; 27]) -> Prices
    requires rows { All (λ price. unsigned_abs price ≤ 4 * 27) rows }
    requires columns { All (λ price. unsigned_abs price ≤ 4 * 27) columns }
    ensures { result ≡ PriceParts.Bars
        (if total == 0 then replicate (length rows) (pos 0) else rows)
        (if total == 0 then replicate (length columns) (pos 0) else columns) }
{
    Prices::bars(
        prices_or_zeros(total, rows),
        prices_or_zeros(total, columns),
    )
    .unwrap()
}

/// `prices`, or only zeros if the assignment's cost `total` is 0.
fn prices_or_zeros<const N: usize>(total: u16, prices: [i16; N]) -> [i16; N]
    requires { All (λ price. unsigned_abs price ≤ 4 * N) prices }
    ensures due { result
        ≡ (if total == 0 then replicate (length prices.entry) (pos 0) else prices.entry) }
    ensures bound { All (λ price. unsigned_abs price ≤ 4 * N) result }
{
    if total == 0 { [0; N] } else { prices }
}
