//! Reads the text of a card.
ghost use Rattle.kd_card.specs.CardFault.{BeginsWithHead, HasLineWords, IsValueAnswer, IsGroupsAnswer, IsListsAnswer};
ghost use Rattle.kd_card.specs.CardFault.{IsAllPricesAnswer, IsTableAnswer, IsTablePricesAnswer, IsRestAnswer};
ghost use Rattle.kd_card.specs.{CardFault.IsCardFault, CardText.IsCard, Prices.price_sum, Reading.IsNoPriceLine};
ghost use Rattle.kd_state.specs.declared.setting.Setting.{Setting};
ghost use Rattle.kd_tables.specs.LineWords.{words_of, IsWithout};
ghost use Rattle.std.specs.Prelude.{◌≡◌, ◌≢◌, ℕ, ◌<◌, ◌≤◌, ◌∷◌, ◌++◌, ◌+◌, List, MatchOption, MatchResult, Ok, Err};
ghost use Rattle.std.specs.{Prelude.{codes, decimal, false, true}, Fmt.signed_decimal};

use super::card::Card;
use super::fault::CardFault;
use super::kind_text::read_kinds;
use super::kinds::Kind;
use super::price_text::{is_numeral, prices_of_text, split_first_word};
use super::prices::{CostTable, PriceParts, Prices, Version};
use arrayvec::ArrayVec;
use itoa::Buffer;
use kd_state::{day_of_text, split_settings};
use kd_tables::{is_word, split_once};

/// Reads a card and its day of the month from `text`, or finds the first fault.
pub fn read_card(text: &[u8]) -> Result<(u8, Card), CardFault>
    ensures { MatchResult result
        (λ found. IsCard text.now found.0 found.1.settings.items found.1.prices)
        (IsCardFault text.now) }
{
    let Some((version, day, rest)) = read_head(text) else {
        return Err(CardFault::BadHead);
    };
    let Some((settings, rest)) = split_settings(rest) else {
        return Err(CardFault::TooMany);
    };
    let prices = read_rest(rest, version, settings.len())?;
    Ok((day, Card { settings, prices }))
}

/// Reads a card of `version` from the line `SETTINGS` to the end. Above this line, the card has `count` settings.
fn read_rest(text: &[u8], version: Version, count: usize) -> Result<Prices, CardFault>
    requires { count ≤ 192 }
    ensures { MatchResult result
        (λ prices. (day : ℕ) (settings : List Setting)
        → IsRestAnswer version day settings count text.now (Ok (day, settings, prices)))
        (λ fault. (day : ℕ) (settings : List Setting)
        → IsRestAnswer version day settings count text.now (Err fault)) }
{
    let rest = read_count(text, count)?;
    let (prices, rest) = read_prices(rest, version, count + 3)?;
    let rest = read_sum(rest, &prices, count + 3 + prices.line_count())?;
    if rest.is_empty() {
        Ok(prices)
    } else {
        Err(CardFault::Trailing)
    }
}

/// Checks the first line of `text`, such as `SETTINGS 12` if `count` is 12. Returns the text after this line.
fn read_count(text: &[u8], count: usize) -> Result<&[u8], CardFault>
    requires { count ≤ 192 }
    ensures { let says =
        IsValueAnswer false (codes "SETTINGS ") (decimal count) (count + 2) text.now in
        MatchResult result (λ rest. says (Ok rest.now)) (λ fault. says (Err fault)) }
{
    let mut buffer = Buffer::new();
    read_value(text, "SETTINGS ", buffer.format(count), false, count + 2)
}

/// Checks the first line of `text`, such as `SUM 12`: the sum of `prices`. Returns the text after this line.
///
/// The line is line `line` of the card.
fn read_sum<'a>(text: &'a [u8], prices: &Prices, line: usize) -> Result<&'a [u8], CardFault>
    ensures { let says =
        IsValueAnswer true (codes "SUM ") (signed_decimal (price_sum prices.now)) line text.now in
        MatchResult result (λ rest. says (Ok rest.now)) (λ fault. says (Err fault)) }
{
    let mut buffer = Buffer::new();
    read_value(text, "SUM ", buffer.format(prices.sum()), true, line)
}

/// Splits off the first line of `text`. Returns this line's text after `prefix`, and the text of the next lines.
///
/// `None` if the first line doesn't begin with `prefix`, or has no LF.
fn split_value<'a>(text: &'a [u8], prefix: &str) -> Option<(&'a [u8], &'a [u8])>
    ensures { MatchOption result
        ((value rest : List ℕ) → IsWithout 10 value → text.now ≢ prefix.now ++ value ++ 10 ∷ rest)
        (λ found. (text.now ≡ prefix.now ++ found.0.now ++ 10 ∷ found.1.now)
        × IsWithout 10 found.0.now) }
{
    let behind = text.strip_prefix(prefix.as_bytes())?;
    split_once(behind, b'\n')
}

/// Reads a card's first line: the version of its prices, and the day. Also returns the text after this line.
fn read_head(text: &[u8]) -> Option<(Version, u8, &[u8])>
    ensures { MatchOption result
        ((version : _) (day : ℕ) (rest : List ℕ) → ¬ (BeginsWithHead text.now version day rest))
        (λ found. BeginsWithHead text.now found.0 found.1 found.2.now) }
{
    if let Some((day, rest)) = read_day(text, Version::ByNumber) {
        return Some((Version::ByNumber, day, rest));
    }
    let (day, rest) = read_day(text, Version::ByKind)?;
    Some((Version::ByKind, day, rest))
}

/// Reads the day from the first line of a card of `version`. Returns the day, and the text after this line.
fn read_day(text: &[u8], version: Version) -> Option<(u8, &[u8])>
    ensures { MatchOption result
        ((day : ℕ) (rest : List ℕ) → ¬ (BeginsWithHead text.now version day rest))
        (λ found. BeginsWithHead text.now version found.0 found.1.now) }
{
    let (day, rest) = split_value(text, version.head_prefix())?;
    Some((day_of_text(day)?, rest))
}

/// Checks the first line of `text`, which is line `line` of the card. Returns the text after this line.
///
/// The line has to be `prefix` and then the number `due`: in `SUM 12`, these are `SUM ` and `12`. If `signed`, the
/// number may be negative.
fn read_value<'a>(
    text: &'a [u8],
    prefix: &str,
    due: &str,
    signed: bool,
    line: usize,
) -> Result<&'a [u8], CardFault>
    ensures { let says = IsValueAnswer signed prefix.now due.now line text.now in
        MatchResult result (λ rest. says (Ok rest.now)) (λ fault. says (Err fault)) }
{
    match split_value(text, prefix) {
        None => Err(CardFault::BadLine(line)),
        Some((number, _)) if !is_numeral(number, signed) => Err(CardFault::BadLine(line)),
        Some((number, rest)) if is_word(number, due) => Ok(rest),
        Some(_) => Err(CardFault::CountWrong),
    }
}

/// Reads the prices of a card, from its line `line` on. Returns the prices, and the text after their lines.
fn read_prices(text: &[u8], version: Version, line: usize) -> Result<(Prices, &[u8]), CardFault>
    requires { line < 200 }
    ensures { MatchResult result
        (λ found. IsAllPricesAnswer version line text.now (Ok (found.0, found.1.now)))
        (λ fault. IsAllPricesAnswer version line text.now (Err fault)) }
{
    let table = read_table(text, version, line)?;
    let (parts, rest) = read_table_prices(text, version, table, line)?;
    Ok((Prices::of_parts(parts), rest))
}

/// Reads the prices for `table`, which begin on line `line` of a card. Returns the prices, and the text after their
/// lines.
fn read_table_prices(
    text: &[u8],
    version: Version,
    table: CostTable,
    line: usize,
) -> Result<(PriceParts, &[u8]), CardFault>
    requires { line < 200 }
    ensures { MatchResult result
        (λ found. IsTablePricesAnswer version table line text.now (Ok (found.0, found.1.now)))
        (λ fault. IsTablePricesAnswer version table line text.now (Err fault)) }
{
    match version {
        Version::ByNumber => read_number_prices(text, table, line),
        Version::ByKind => read_kind_prices(text, table, line),
    }
}

/// Reads the prices by number for `table`. The lines and the result are as in `read_table_prices`.
fn read_number_prices(
    text: &[u8],
    table: CostTable,
    line: usize,
) -> Result<(PriceParts, &[u8]), CardFault>
    requires { line < 200 }
    ensures { let says = IsTablePricesAnswer Version.ByNumber table line text.now in
        MatchResult result
        (λ found. says (Ok (found.0, found.1.now)))
        (λ fault. says (Err fault)) }
{
    match table {
        CostTable::Cables => {
            let (cables, pairs, rest) = read_lists(text, "CABLES", "PAIRS", line)?;
            Ok((PriceParts::Cables(cables, pairs), rest))
        }
        CostTable::Bars => {
            let (bars, rows, rest) = read_lists(text, "BARS", "ROWS", line)?;
            Ok((PriceParts::Bars(bars, rows), rest))
        }
    }
}

/// Reads the prices by kind for `table`. The lines and the result are as in `read_table_prices`.
fn read_kind_prices(
    text: &[u8],
    table: CostTable,
    line: usize,
) -> Result<(PriceParts, &[u8]), CardFault>
    requires { line < 200 }
    ensures { let says = IsTablePricesAnswer Version.ByKind table line text.now in
        MatchResult result
        (λ found. says (Ok (found.0, found.1.now)))
        (λ fault. says (Err fault)) }
{
    match table {
        CostTable::Cables => {
            let (cables, pairs, rest) = read_groups(text, line)?;
            Ok((PriceParts::CableKinds(cables, pairs), rest))
        }
        CostTable::Bars => {
            let (bars, rows, rest) = read_groups(text, line)?;
            Ok((PriceParts::BarKinds(bars, rows), rest))
        }
    }
}

/// Reads from the first word of line `line` whether a card's prices are of cables or of bars.
fn read_table(text: &[u8], version: Version, line: usize) -> Result<CostTable, CardFault>
    ensures { let says = IsTableAnswer version line text.now in
        MatchResult result (λ table. says (Ok table)) (λ fault. says (Err fault)) }
{
    let (first, _, _) = split_first_word(text, line)?;
    if is_word(first, version.first_word(CostTable::Cables)) {
        Ok(CostTable::Cables)
    } else if is_word(first, version.first_word(CostTable::Bars)) {
        Ok(CostTable::Bars)
    } else {
        Err(CardFault::PriceMissing)
    }
}

/// Reads two price lines: `N` prices after `row_word`, and then `N` prices after `column_word`.
///
/// The first price line is line `line` of the card. Returns both lists, and the text after the lines.
fn read_lists<'a, const N: usize>(
    text: &'a [u8],
    row_word: &str,
    column_word: &str,
    line: usize,
) -> Result<([i16; N], [i16; N], &'a [u8]), CardFault>
    requires some { 0 < N }
    requires few { N ≤ 27 }
    requires near { line < 200 }
    ensures { let says = IsListsAnswer row_word.now column_word.now N line text.now in
        MatchResult result
        (λ found. says (Ok (found.0, found.1, found.2.now)))
        (λ fault. says (Err fault)) }
{
    let (prices, rest) = split_price_line(text, row_word, line)?;
    let rows = prices_of_text(prices, line)?;
    let (prices, rest) = split_price_line(rest, column_word, line + 1)?;
    let columns = prices_of_text(prices, line + 1)?;
    Ok((rows, columns, rest))
}

/// Reads two groups of kinds: for the `N` rows of a table of costs, and then for its `N` columns.
///
/// The first group begins on line `line` of the card. Returns both groups, and the text after their lines.
fn read_groups<'a, R: Kind, C: Kind, const N: usize>(
    text: &'a [u8],
    line: usize,
) -> Result<(ArrayVec<R, N>, ArrayVec<C, N>, &'a [u8]), CardFault>
    requires few { N ≤ 27 }
    requires near { line < 200 }
    ensures { let says = IsGroupsAnswer R.format C.format N line text.now in
        MatchResult result
        (λ found. says (Ok (found.0.items, found.1.items, found.2.now)))
        (λ fault. says (Err fault)) }
{
    let (rows, rest) = read_kinds::<R, N>(text, line)?;
    let (columns, rest) = read_kinds::<C, N>(rest, line + rows.len())?;
    Ok((rows, columns, rest))
}

/// Splits off line `line`, which has `word` and then prices. Returns the prices as text, and the text after the line.
fn split_price_line<'a>(
    text: &'a [u8],
    word: &str,
    line: usize,
) -> Result<(&'a [u8], &'a [u8]), CardFault>
    ensures { MatchResult result
        (λ found. HasLineWords text.now (word.now ∷ words_of found.0.now) found.1.now)
        (IsNoPriceLine word.now line text.now) }
{
    let (first, behind, rest) = split_first_word(text, line)?;
    match behind {
        Some(prices) if is_word(first, word) => Ok((prices, rest)),
        _ => Err(CardFault::PriceMissing),
    }
}
