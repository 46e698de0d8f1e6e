//! The prices of a card, by number or by kind. With prices by number, each cable, column, bar or row has its own price.
//! With prices by kind, all cables, columns, bars or rows of one kind share a price.
ghost use Rattle.kd_card.specs.Prices.{price_sum, version_of, ArePricesInRange, IsPriceList, ArePrices};
ghost use Rattle.kd_card.specs.{CardFault.first_text, CardText.price_lines, Reading.head_prefix};
ghost use Rattle.kd_card.specs.Kinds.{prices_of_kinds, IsGroup};
ghost use Rattle.std.specs.Prelude.{◌≡◌, ◌↔◌, ◌+◌, ◌*◌, ◌≤◌, ◌++◌, length, fold, pos, unsigned_abs, ◌+ℤ◌, IsTrue};
ghost use Rattle.std.specs.Prelude.{MatchOption};

use super::kinds::{BarKind, CableKind, Kind, PairKind, RowKind, are_kinds, prices_of_kinds};
use arrayvec::ArrayVec;
use std::marker::Model;

/// Whether a card has prices by number or by kind.
#[derive(Clone, Copy)]
pub enum Version {
    /// Each cable and each column, or each bar and each row, has its own price.
    ByNumber,
    /// Each kind of cables and of columns, or each kind of bars and of rows, has one price.
    ByKind,
}

impl Version {
    /// The text before the day's number in a card's first line, such as `CARD 1 DAY `.
    pub(crate) fn head_prefix(self) -> &'static str
        ensures value { result.now ≡ head_prefix self }
        ensures few { length result.now ≡ 11 }
    {
        match self {
            Version::ByNumber => "CARD 1 DAY ",
            Version::ByKind => "CARD 2 DAY ",
        }
    }

    /// The first word of the first price line on a card with prices for `table`.
    pub(crate) fn first_word(self, table: CostTable) -> &'static str
        ensures { result.now ≡ first_text self table }
    {
        match (self, table) {
            (Version::ByNumber, CostTable::Cables) => "CABLES",
            (Version::ByNumber, CostTable::Bars) => "BARS",
            (Version::ByKind, CostTable::Cables) => "CABLE",
            (Version::ByKind, CostTable::Bars) => "BAR",
        }
    }
}

/// The table of costs that a card's prices are for: the table of cables and columns, or the table of bars and rows.
#[derive(Clone, Copy)]
pub(crate) enum CostTable {
    Cables,
    Bars,
}

/// The prices of a card: a list for the rows of the table of costs, and a list for its columns.
#[derive(Drop)]
pub enum PriceParts {
    /// A price for each cable, and a price for each column (a pair or an empty column).
    Cables([i16; 13], [i16; 13]),
    /// A price for each bar, and for each row of the sheet.
    Bars([i16; 27], [i16; 27]),
    /// A price for each kind of cables, and a price for each kind of columns.
    CableKinds(ArrayVec<CableKind, 13>, ArrayVec<PairKind, 13>),
    /// A price for each kind of bars, and for each kind of rows of the sheet.
    BarKinds(ArrayVec<BarKind, 27>, ArrayVec<RowKind, 27>),
}

/// Valid prices of a card: each price is from -9999 to 9999. If the prices are by kind, the kinds are valid, too.
#[derive(Drop)]
pub struct Prices {
    parts: PriceParts,
}

impl Model for Prices {
    ghost use Rattle.kd_card.specs.declared.prices.PriceParts.{PriceParts};

    ghost Value = { PriceParts };

    ghost use Rattle.kd_card.specs.Prices.{ArePrices};

    ghost view = { λ p. p.parts };

    ghost invariant = { λ p. ArePrices p.parts };

    ghost inverse = { λ parts. record { parts = parts } };
}

impl Prices {
    /// Makes prices by number: one for each cable, and one for each column (a pair or an empty column).
    ///
    /// `None` if a price is below -9999 or above 9999.
    pub fn cables(cables: [i16; 13], pairs: [i16; 13]) -> Option<Self>
        ensures { MatchOption result
            (¬ (ArePrices (PriceParts.Cables cables pairs)))
            (λ prices. prices ≡ PriceParts.Cables cables pairs) }
    {
        let parts = PriceParts::Cables(if_in_range(cables)?, if_in_range(pairs)?);
        Some(Prices::of_parts(parts))
    }

    /// Makes prices by number: one for each bar, and one for each row of the sheet.
    ///
    /// `None` if a price is below -9999 or above 9999.
    pub fn bars(bars: [i16; 27], rows: [i16; 27]) -> Option<Self>
        ensures { MatchOption result
            (¬ (ArePrices (PriceParts.Bars bars rows)))
            (λ prices. prices ≡ PriceParts.Bars bars rows) }
    {
        let parts = PriceParts::Bars(if_in_range(bars)?, if_in_range(rows)?);
        Some(Prices::of_parts(parts))
    }

    /// Makes prices by kind: one for each kind of cables, and one for each kind of columns.
    ///
    /// Returns `None` in these cases:
    ///
    /// - `cables` or `pairs` aren't strictly ascending, or the counts of one list don't add up to 13.
    /// - A kind has two letters that are equal or out of order, or a letter only at the second end.
    /// - A kind has the count 0, or a price below -9999 or above 9999.
    pub fn cable_kinds(cables: &[CableKind], pairs: &[PairKind]) -> Option<Self>
        ensures { let parts =
            PriceParts.CableKinds (record { items = cables.now }) (record { items = pairs.now }) in
            MatchOption result (¬ (ArePrices parts)) (λ prices. prices ≡ parts) }
    {
        let parts = PriceParts::CableKinds(copy_if_group(cables)?, copy_if_group(pairs)?);
        Some(Prices::of_parts(parts))
    }

    /// Makes prices by kind: one for each kind of bars, and one for each kind of the sheet's rows.
    ///
    /// Returns `None` in these cases:
    ///
    /// - `bars` or `rows` aren't strictly ascending, or the counts of one list don't add up to 27.
    /// - A kind has the count 0, or a price below -9999 or above 9999.
    pub fn bar_kinds(bars: &[BarKind], rows: &[RowKind]) -> Option<Self>
        ensures { let parts =
            PriceParts.BarKinds (record { items = bars.now }) (record { items = rows.now }) in
            MatchOption result (¬ (ArePrices parts)) (λ prices. prices ≡ parts) }
    {
        let parts = PriceParts::BarKinds(copy_if_group(bars)?, copy_if_group(rows)?);
        Some(Prices::of_parts(parts))
    }

    /// Whether the prices are by number or by kind.
    pub fn version(&self) -> Version
        ensures value { result ≡ version_of self.now }
        ensures are_prices { ArePrices self.now }
    {
        match self.parts {
            PriceParts::Cables(..) | PriceParts::Bars(..) => Version::ByNumber,
            PriceParts::CableKinds(..) | PriceParts::BarKinds(..) => Version::ByKind,
        }
    }

    /// The number of lines that the prices take on a card.
    pub(crate) fn line_count(&self) -> usize
        ensures value { result ≡ length (price_lines self.now) }
        ensures few { result ≤ 54 }
    {
        match &self.parts {
            PriceParts::Cables(..) | PriceParts::Bars(..) => 2,
            PriceParts::CableKinds(cables, pairs) => cables.len() + pairs.len(),
            PriceParts::BarKinds(bars, rows) => bars.len() + rows.len(),
        }
    }

    /// Wraps `parts`, which have to be valid prices.
    pub(crate) fn of_parts(parts: PriceParts) -> Self
        requires { ArePrices parts }
        ensures { result ≡ parts }
    {
        Prices { parts }
    }

    /// The prices of the rows and the columns of the table of costs.
    pub fn parts(&self) -> PriceParts
        ensures value { result ≡ self.now }
        ensures are_prices { ArePrices result }
    {
        match &self.parts {
            PriceParts::Cables(cables, pairs) => PriceParts::Cables(*cables, *pairs),
            PriceParts::Bars(bars, rows) => PriceParts::Bars(*bars, *rows),
            PriceParts::CableKinds(cables, pairs) => {
                PriceParts::CableKinds(copy_list(cables.as_slice()), copy_list(pairs.as_slice()))
            }
            PriceParts::BarKinds(bars, rows) => {
                PriceParts::BarKinds(copy_list(bars.as_slice()), copy_list(rows.as_slice()))
            }
        }
    }

    /// The sum of the prices of all rows and columns of the table of costs.
    pub fn sum(&self) -> i32
        ensures { result ≡ price_sum self.now }
    {
        match &self.parts {
            PriceParts::Cables(cables, pairs) => sum_of_prices(cables, pairs),
            PriceParts::Bars(bars, rows) => sum_of_prices(bars, rows),
            PriceParts::CableKinds(cables, pairs) => sum_of_kinds(cables, pairs),
            PriceParts::BarKinds(bars, rows) => sum_of_kinds(bars, rows),
        }
    }
}

/// Adds up the prices of all members of the kinds `rows` and `columns`.
fn sum_of_kinds<R: Kind, C: Kind, const N: usize>(
    rows: &ArrayVec<R, N>,
    columns: &ArrayVec<C, N>,
) -> i32
    requires few { N ≤ 27 }
    requires rows { IsGroup R.format N rows.now.items }
    requires columns { IsGroup C.format N columns.now.items }
    ensures { let rows = prices_of_kinds R.format rows.now.items in
        let columns = prices_of_kinds C.format columns.now.items in
        result ≡ fold (λ sum price. sum +ℤ price) (pos 0) (rows ++ columns) }
{
    let rows = prices_of_kinds(rows.as_slice());
    let columns = prices_of_kinds(columns.as_slice());
    sum_of_prices(rows.as_slice(), columns.as_slice())
}

/// Adds up the prices `rows` and `columns`.
pub fn sum_of_prices(rows: &[i16], columns: &[i16]) -> i32
    requires rows { ArePricesInRange rows.now }
    requires columns { ArePricesInRange columns.now }
    requires few_rows { length rows.now ≤ 27 }
    requires few_columns { length columns.now ≤ 27 }
    ensures { result ≡ fold (λ sum price. sum +ℤ price) (pos 0) (rows.now ++ columns.now) }
{
    sum_onto(sum_onto(0, rows), columns)
}

/// Returns `prices`, or `None` if one of them is below -9999 or above 9999.
fn if_in_range<const N: usize>(prices: [i16; N]) -> Option<[i16; N]>
    ensures { MatchOption result
        (¬ (IsPriceList N prices.entry))
        (λ checked. (checked ≡ prices.entry) × IsPriceList N prices.entry) }
{
    let are_in_range = prices.iter().all(|price| price.unsigned_abs() <= 9999);
    are_in_range.then_some(prices)
}

/// Adds all of `prices` to `sum`.
fn sum_onto(sum: i32, prices: &[i16]) -> i32
    requires in_range { ArePricesInRange prices.now }
    requires few { length prices.now ≤ 27 }
    requires small { unsigned_abs sum ≤ 27 * 9999 }
    ensures value { result ≡ fold (λ sum price. sum +ℤ price) sum prices.now }
    ensures bound { unsigned_abs result ≤ unsigned_abs sum + 9999 * length prices.now }
{
    let mut total = sum;
    for price in prices {
        total += i32::from(*price);
    }
    total
}

/// Copies `kinds`. `None` if `kinds` aren't valid and strictly ascending, or if the counts don't add up to `N`.
fn copy_if_group<K: Kind, const N: usize>(kinds: &[K]) -> Option<ArrayVec<K, N>>
    ensures { MatchOption result
        (¬ (IsGroup K.format N kinds.now))
        (λ copied. (copied.items ≡ kinds.now) × IsGroup K.format N kinds.now) }
{
    if are_kinds(kinds, None, N) {
        Some(copy_list(kinds))
    } else {
        None
    }
}

fn copy_list<K: Copy + Default, const N: usize>(elements: &[K]) -> ArrayVec<K, N>
    requires { length elements.now ≤ N }
    ensures { result.items ≡ elements.now }
{
    ArrayVec::try_from(elements).unwrap()
}
