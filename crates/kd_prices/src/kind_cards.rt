//! Converts a card with prices by number to a card with prices by kind. Prices are *by number* if each cable, pair, bar
//! or row has its own price.
ghost use Rattle.std.specs.Prelude.{◌≡◌, ◌↔◌, IfSome, IsSome};
ghost use Rattle.kd_state.specs.{Entry.{rotor_values, pin_values}, Machine.IsMachine};
ghost use Rattle.kd_state.specs.{SheetDay.{IsLegalDay, Rotor, Pin}};
ghost use Rattle.kd_state.specs.declared.machine.parts.Parts.TheVariants.{Rotor, Pin};
ghost use Rattle.kd_card.specs.{Prices.{ArePrices, version_of}, Proving.Expands};
ghost use Rattle.kd_card.specs.declared.prices.{PriceParts.TheVariants.{Bars, Cables}, Version.TheVariants.ByKind};
ghost use Rattle.kd_prices.specs.KindCards.{CanBeByKind, IsByKind};

use super::grouping::kinds_of;
use super::kind_keys::{columns_of, with_prices};
use arrayvec::ArrayVec;
use kd_card::{Card, PriceParts, Prices};
use kd_state::{Machine, OneModel, PinEntry, PinParts, RotorEntry, RotorParts, SheetDay};

/// Converts `card` to a card where each kind has the price that its members have on `card`. The settings stay.
///
/// Returns `None` in three cases:
/// - Machine and day are of different models.
/// - The prices aren't for this machine, or are by kind already.
/// - Two equal cables, columns, bars or rows have different prices. On a card that proves itself, they have equal
///   prices.
pub fn by_kind(machine: &Machine, day: &SheetDay, card: &Card) -> Option<Card>
    ensures some { IsSome result ↔ CanBeByKind machine.now day.now card.now.prices }
    ensures card { IfSome result (λ other. IsByKind machine.now day.now card.now other) }
{
    let prices = prices_by_kind(machine, day, &card.prices)?;
    let settings = ArrayVec::try_from(card.settings.as_slice()).unwrap();
    Some(Card { settings, prices })
}

/// Converts prices by number to prices by kind. Returns `None` in the same three cases as `by_kind`.
fn prices_by_kind(machine: &Machine, day: &SheetDay, prices: &Prices) -> Option<Prices>
    ensures some { IsSome result ↔ CanBeByKind machine.now day.now prices.now }
    ensures kinds { IfSome result (λ kinds. (version_of kinds ≡ ByKind)
        × Expands machine.now day.now kinds prices.now) }
{
    match (machine.of_one_model(day)?, prices.parts()) {
        (OneModel::Rotor(parts, entry), PriceParts::Cables(rows, columns)) => {
            cable_prices_by_kind(parts, entry, &rows, &columns)
        }
        (OneModel::Pin(parts, entry), PriceParts::Bars(rows, columns)) => {
            bar_prices_by_kind(parts, entry, &rows, &columns)
        }
        _ => None,
    }
}

/// Converts prices to prices by kind: those of cables (`rows`) and of columns (`columns`). Returns `None` if two equal
/// cables or columns have different prices.
fn cable_prices_by_kind(
    parts: &RotorParts,
    entry: &RotorEntry,
    rows: &[i16; 13],
    columns: &[i16; 13],
) -> Option<Prices>
    requires machine { IsMachine (Rotor parts.now) }
    requires day { IsLegalDay (Rotor (rotor_values entry.now)) }
    requires model { parts.now.model ≡ entry.now.model }
    requires prices { ArePrices (Cables rows.now columns.now) }
    ensures some { IsSome result
        ↔ CanBeByKind (Rotor parts.now) (Rotor (rotor_values entry.now)) (Cables rows.now columns.now) }
    ensures kinds { IfSome result (λ kinds. (version_of kinds ≡ ByKind)
        × Expands (Rotor parts.now) (Rotor (rotor_values entry.now)) kinds (Cables rows.now columns.now)) }
{
    let pairs = columns_of(entry.pairs.as_slice());
    Prices::cable_kinds(
        kinds_of(with_prices(&parts.cables, rows)).as_slice(),
        kinds_of(with_prices(pairs.as_slice(), columns)).as_slice(),
    )
}

/// Converts prices to prices by kind: those of bars (`rows`) and of the sheet's rows (`columns`). Returns `None` if two
/// equal bars or rows have different prices.
fn bar_prices_by_kind(
    parts: &PinParts,
    entry: &PinEntry,
    rows: &[i16; 27],
    columns: &[i16; 27],
) -> Option<Prices>
    requires machine { IsMachine (Pin parts.now) }
    requires day { IsLegalDay (Pin (pin_values entry.now)) }
    requires prices { ArePrices (Bars rows.now columns.now) }
    ensures some { IsSome result
        ↔ CanBeByKind (Pin parts.now) (Pin (pin_values entry.now)) (Bars rows.now columns.now) }
    ensures kinds { IfSome result (λ kinds. (version_of kinds ≡ ByKind)
        × Expands (Pin parts.now) (Pin (pin_values entry.now)) kinds (Bars rows.now columns.now)) }
{
    Prices::bar_kinds(
        kinds_of(with_prices(&parts.bars, rows)).as_slice(),
        kinds_of(with_prices(&entry.rows, columns)).as_slice(),
    )
}
