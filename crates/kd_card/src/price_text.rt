//! Reads prices and numbers, and the first words of price lines.
ghost use Rattle.kd_card.specs.CardFault.{IsNumberText, IsNumeral, IsPricesAnswer, IsLineAnswer};
ghost use Rattle.kd_card.specs.{Reading.{IsPriceText, words_after_first}, Prices.ArePricesInRange};
ghost use Rattle.kd_tables.specs.LineWords.{words_of};
ghost use Rattle.std.specs.Prelude.{◌≡◌, ◌≢◌, ◌↔◌, ◌<◌, ◌≤◌, [], ◌∷◌, ℕ, List, ℤ, pos, map, length, All, unsigned_abs};
ghost use Rattle.std.specs.Prelude.{decimal, IsTrue, MatchOption, MatchResult, Ok, Err};
ghost use Rattle.std.specs.{Option.option_copied, Fmt.signed_decimal};

use super::fault::CardFault;
use arrayvec::ArrayVec;
use itoa::Buffer;
use kd_tables::{is_word, split_once, split_words};
use std::str;

/// Whether `text` is an unsigned number: decimal digits without leading zeros.
fn is_number_text(text: &[u8]) -> bool
    ensures { IsTrue result ↔ IsNumberText text.now }
{
    match text {
        [] => false,
        [b'0'] => true,
        [first, rest @ ..] => matches!(first, b'1'..=b'9') && rest.iter().all(u8::is_ascii_digit),
    }
}

/// Whether `text` is a decimal number without leading zeros. If `signed`, the number may be negative, but not `-0`.
pub(crate) fn is_numeral(text: &[u8], signed: bool) -> bool
    ensures { IsTrue result ↔ IsNumeral signed text.now }
{
    match text {
        b"-0" => false,
        [b'-', digits @ ..] if signed => is_number_text(digits),
        _ => is_number_text(text),
    }
}

/// Parses a price: from -9999 to 9999, without leading zeros and without a plus sign.
pub(crate) fn price_of_text(text: &[u8]) -> Option<i16>
    ensures { MatchOption result
        ((price : ℤ) → unsigned_abs price ≤ 9999 → signed_decimal price ≢ text.now)
        (λ price. (signed_decimal price ≡ text.now) × (unsigned_abs price ≤ 9999)) }
{
    let price: i16 = str::from_utf8(text).ok()?.parse().ok()?;
    let mut buffer = Buffer::new();
    // `parse` also accepts leading zeros, a plus sign and `-0`, which `format` never writes.
    let is_written_so = is_word(text, buffer.format(price));
    (price.unsigned_abs() <= 9999 && is_written_so).then_some(price)
}

/// Splits `text` into three pieces: the first word, the other words of the first line, and the next lines.
///
/// The second piece is `None` if the first line has no space. The fault is `PriceMissing` if `text` is empty, and
/// `BadLine(line)` if the first line has no LF.
pub(crate) fn split_first_word(
    text: &[u8],
    line: usize,
) -> Result<(&[u8], Option<&[u8]>, &[u8]), CardFault>
    ensures { MatchResult result
        (λ found. let behind = words_after_first (option_copied found.1) in
        IsLineAnswer line text.now (Ok (found.0.now, behind, found.2.now)))
        (λ fault. IsLineAnswer line text.now (Err fault)) }
{
    if text.is_empty() {
        return Err(CardFault::PriceMissing);
    }
    let Some((words, rest)) = split_once(text, b'\n') else {
        return Err(CardFault::BadLine(line));
    };
    match split_once(words, b' ') {
        Some((first, behind)) => Ok((first, Some(behind), rest)),
        None => Ok((words, None, rest)),
    }
}

/// Parses `text` as `N` prices, with a space between two prices. The text is from line `line` of the card.
pub(crate) fn prices_of_text<const N: usize>(
    text: &[u8],
    line: usize,
) -> Result<[i16; N], CardFault>
    requires { N ≤ 27 }
    ensures { MatchResult result
        (λ prices. IsPricesAnswer N line (words_of text.now) (Ok prices))
        (λ fault. IsPricesAnswer N line (words_of text.now) (Err fault)) }
{
    match split_words::<N>(text) {
        Some(words) => match prices_of_words::<N>(words.as_slice()) {
            Some(prices) => prices.into_inner().ok().ok_or(CardFault::PriceMissing),
            None => Err(CardFault::BadLine(line)),
        },
        None if are_prices(text) => Err(CardFault::PriceMissing),
        None => Err(CardFault::BadLine(line)),
    }
}

/// Whether `text`, split at each space, consists of prices.
fn are_prices(text: &[u8]) -> bool
    ensures { IsTrue result ↔ All IsPriceText (words_of text.now) }
{
    text.split(|byte| *byte == b' ')
        .all(|word| price_of_text(word).is_some())
}

/// Parses each of `words` as a price. `None` if one of the words isn't a price.
fn prices_of_words<const N: usize>(words: &[&[u8]]) -> Option<ArrayVec<i16, N>>
    requires { length words.now ≤ N }
    ensures { let texts = map (λ word. word.now) words.now in
        MatchOption result
        (¬ (All IsPriceText texts))
        (λ prices. (texts ≡ map signed_decimal prices.items) × ArePricesInRange prices.items) }
{
    let mut prices = ArrayVec::new();
    for word in words {
        prices.push(price_of_text(word)?);
    }
    Some(prices)
}
