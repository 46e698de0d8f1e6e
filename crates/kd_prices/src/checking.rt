//! Checks whether a card proves itself, or finds the first doubt about the card.
ghost use Rattle.std.specs.Prelude.{◌≡◌, ◌↔◌, ◌≤◌, length, IsOk, IfOk, IfErr, MatchResult, Err};
ghost use Rattle.kd_state.specs.{Costs.{cost_table}, Entry.{rotor_values, pin_values}};
ghost use Rattle.kd_state.specs.{Machine.{IsMachine, model_of}, SheetDay.{day_model, IsLegalDay, Rotor, Pin}};
ghost use Rattle.kd_state.specs.declared.machine.parts.Parts.TheVariants.{Rotor, Pin};
ghost use Rattle.kd_card.specs.{Proving.{Proves, priced_count}, declared.prices.PriceParts.TheVariants.{Bars, Cables}};
ghost use Rattle.kd_card.specs.Prices.{ArePrices, ArePricesInRange};
ghost use Rattle.kd_prices.specs.Doubt.{IsDoubt, IsCheckedAnswer, IsByPricesAnswer, ArePricesFound};

use super::carried::{carry_settings, is_priced_setting};
use super::doubt::Doubt;
use super::fitting::first_too_high;
use super::kind_keys::columns_of;
use super::kind_prices::prices_of;
use kd_card::{Card, PriceParts, sum_of_prices};
use kd_state::{
    Machine, OneModel, PinEntry, PinParts, RotorEntry, RotorParts, Setting, SheetDay, bar_costs,
    cable_costs,
};

/// Checks that `card` proves itself, or finds the first doubt about it.
///
/// A card proves itself if its settings lead `machine` to `day`, and its prices show that no shorter list leads there.
/// The variants of `Doubt` are tested in their order; the first variant that applies is the result.
pub fn check(machine: &Machine, day: &SheetDay, card: &Card) -> Result<(), Doubt>
    ensures proves { IsOk result
        ↔ Proves machine.now day.now card.now.settings.items card.now.prices }
    ensures doubt { IfErr result
        (IsDoubt machine.now day.now card.now.settings.items card.now.prices) }
    ensures machine { IsMachine machine.now }
    ensures day { IsLegalDay day.now }
{
    first_doubt(machine, day, card)
}

/// Compares the models, finds the prices of the table's rows and columns, and checks the card by the prices.
fn first_doubt(machine: &Machine, day: &SheetDay, card: &Card) -> Result<(), Doubt>
    ensures answer { IsCheckedAnswer machine.now day.now card.now.settings.items card.now.prices result }
    ensures machine { IsMachine machine.now }
    ensures day { IsLegalDay day.now }
{
    let settings = card.settings.as_slice();
    match machine.of_one_model(day) {
        None => Err(Doubt::OtherModel),
        Some(OneModel::Rotor(parts, entry)) => {
            let costs = cable_costs(&parts.cables, entry.pairs.as_slice());
            let prices = cable_prices(parts, entry, card.prices.parts());
            check_by_prices(machine, day, settings, &costs, prices)
        }
        Some(OneModel::Pin(parts, entry)) => {
            let costs = bar_costs(&parts.bars, &entry.rows);
            let prices = bar_prices(parts, entry, card.prices.parts());
            check_by_prices(machine, day, settings, &costs, prices)
        }
    }
}

/// Finds the price of each cable and each column: its own price, or the price of its kind.
fn cable_prices(
    parts: &RotorParts,
    entry: &RotorEntry,
    prices: PriceParts,
) -> Result<([i16; 13], [i16; 13]), Doubt>
    requires prices { ArePrices prices }
    ensures found { ArePricesFound (Rotor parts.now) (Rotor (rotor_values entry.now)) prices
        Cables result }
    ensures reach { IfOk result (λ found. ArePricesInRange found.0 × ArePricesInRange found.1) }
{
    match prices {
        PriceParts::Cables(rows, columns) => Ok((rows, columns)),
        PriceParts::CableKinds(rows, columns) => {
            let rows = prices_of(&parts.cables, rows);
            let columns = prices_of(columns_of(entry.pairs.as_slice()).as_slice(), columns);
            rows.zip(columns).ok_or(Doubt::PriceMissing)
        }
        PriceParts::Bars(..) | PriceParts::BarKinds(..) => Err(Doubt::OtherModel),
    }
}

/// Finds the price of each bar and each row: its own price, or the price of its kind.
fn bar_prices(
    parts: &PinParts,
    entry: &PinEntry,
    prices: PriceParts,
) -> Result<([i16; 27], [i16; 27]), Doubt>
    requires prices { ArePrices prices }
    ensures found { ArePricesFound (Pin parts.now) (Pin (pin_values entry.now)) prices Bars result }
    ensures reach { IfOk result (λ found. ArePricesInRange found.0 × ArePricesInRange found.1) }
{
    match prices {
        PriceParts::Bars(rows, columns) => Ok((rows, columns)),
        PriceParts::BarKinds(rows, columns) => {
            let rows = prices_of(&parts.bars, rows);
            let columns = prices_of(&entry.rows, columns);
            rows.zip(columns).ok_or(Doubt::PriceMissing)
        }
        PriceParts::Cables(..) | PriceParts::CableKinds(..) => Err(Doubt::OtherModel),
    }
}

/// Finds the first doubt about a card's `settings`. `prices` are the prices of the rows and columns of the table of
/// costs.
///
/// If `prices` is an error, returns this error's doubt.
fn check_by_prices<const N: usize>(
    machine: &Machine,
    day: &SheetDay,
    settings: &[Setting],
    costs: &[[u8; N]; N],
    prices: Result<([i16; N], [i16; N]), Doubt>,
) -> Result<(), Doubt>
    requires model { model_of machine.now ≡ day_model day.now }
    requires costs { costs.now ≡ cost_table machine.now day.now }
    requires few { length settings.now ≤ 192 }
    requires size { N ≤ 27 }
    requires reach { IfOk prices (λ found. ArePricesInRange found.0 × ArePricesInRange found.1) }
    ensures { MatchResult prices.entry
        (λ found. IsByPricesAnswer machine.now day.now settings.now N found.0 found.1 result)
        (λ doubt. result ≡ Err doubt) }
{
    let (rows, columns) = prices?;
    let carried = carry_settings(machine, day, settings)?;
    if !carried.reached.reads_as(day) {
        return Err(Doubt::NotTheSheet);
    }
    if let Some((row, column)) = first_too_high(costs, &rows, &columns) {
        return Err(Doubt::PriceTooHigh(row as u8 + 1, column as u8 + 1));
    }
    if sum_of_prices(&rows, &columns) != priced_count(settings) as i32 {
        return Err(Doubt::SumDiffers);
    }
    carried.need_result
}

/// Counts the settings that change a cable or a bar.
fn priced_count(settings: &[Setting]) -> usize
    ensures value { result ≡ priced_count settings.now }
    ensures few { result ≤ length settings.now }
{
    settings.iter().filter(|x| is_priced_setting(x)).count()
}
