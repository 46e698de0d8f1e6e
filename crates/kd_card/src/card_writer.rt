//! Writes the text of a card to a sink.
ghost use Rattle.arrayvec.specs.ArrayString.{array_string_len};
ghost use Rattle.kd_card.specs.CardText.{card_text, lines_text, price_lines, IsCard};
ghost use Rattle.kd_tables.specs.LineWords.{line_then};
ghost use Rattle.kd_card.specs.{Kinds.{kind_words, IsGroup}, Prices.{ArePricesInRange, ArePrices, IsPriceList}};
ghost use Rattle.kd_state.specs.{Line.{list_text, IsSettingInRange}, SheetDay.IsDayNumber};
ghost use Rattle.kd_tables.specs.Writing.{Writes};
ghost use Rattle.std.specs.Prelude.{◌≡◌, ◌+◌, ◌*◌, ◌≤◌, ◌||◌, [], ◌∷◌, ◌++◌, length, map, is_err, All};
ghost use Rattle.std.specs.Fmt.{signed_decimal};

use super::card::Card;
use super::kind_text::push_kinds;
use super::kinds::Kind;
use super::prices::{PriceParts, Prices};
use arrayvec::{ArrayString, ArrayVec};
use itoa::Buffer;
use kd_state::Setting;
use kd_tables::{Device, Sink, put_all};

/// A buffer size, in bytes, that is enough for any card: at most 192 settings, and 54 prices or kinds.
const LONGEST: usize = 6144;

/// Writes the text of `card` for day `day` of the month. If the sink fails, it has taken a prefix of the text.
pub fn write_card<W: Sink>(sink: &mut W, day: u8, card: &Card) -> Result<(), Device>
    requires { IsDayNumber day }
    ensures text { let text = card_text day card.now.settings.items card.now.prices in
        Writes (W.taken sink.old) (W.taken sink.new) text result }
    ensures card { let text = card_text day card.now.settings.items card.now.prices in
        IsCard text day card.now.settings.items card.now.prices }
    ensures failed { W.has_failed sink.new ≡ (W.has_failed sink.old || is_err result) }
{
    put_all(sink, card_text(day, card).as_str().as_bytes())
}

/// The text of `card` for day `day` of the month.
fn card_text(day: u8, card: &Card) -> ArrayString<LONGEST>
    ensures bytes { result.bytes ≡ card_text day card.now.settings.items card.now.prices }
    ensures in_range { All IsSettingInRange card.now.settings.items }
    ensures few { length card.now.settings.items ≤ 192 }
    ensures are_prices { ArePrices card.now.prices }
{
    let mut text = ArrayString::new();
    let mut buffer = Buffer::new();
    push_value(
        &mut text,
        card.prices.version().head_prefix(),
        buffer.format(day),
    );
    push_settings(&mut text, card.settings.as_slice());
    push_value(&mut text, "SETTINGS ", buffer.format(card.settings.len()));
    push_prices(&mut text, &card.prices);
    push_value(&mut text, "SUM ", buffer.format(card.prices.sum()));
    text
}

/// Appends a line: `prefix`, and then `value`.
fn push_value<const N: usize>(text: &mut ArrayString<N>, prefix: &str, value: &str)
    requires { array_string_len text.old + length prefix.now + length value.now + 1 ≤ N }
    ensures bytes { text.new.bytes ≡ text.old.bytes ++ (prefix.now ++ value.now ++ 10 ∷ []) }
    ensures len { array_string_len text.new
        ≡ array_string_len text.old + length prefix.now + length value.now + 1 }
{
    text.push_str(prefix);
    text.push_str(value);
    text.push_str("\n");
}

/// Appends a line for each of `settings`.
fn push_settings<const N: usize>(text: &mut ArrayString<N>, settings: &[Setting])
    requires { array_string_len text.old + 24 * length settings.now ≤ N }
    ensures bytes { text.new.bytes ≡ text.old.bytes ++ list_text settings.now }
    ensures len { array_string_len text.new ≤ array_string_len text.old + 24 * length settings.now }
    ensures in_range { All IsSettingInRange settings.now }
{
    if let [first, rest @ ..] = settings {
        text.push_str(first.line().as_str());
        text.push_str("\n");
        push_settings(text, rest);
    }
}

/// Appends the price lines of a card.
fn push_prices<const N: usize>(text: &mut ArrayString<N>, prices: &Prices)
    requires { array_string_len text.old + 1404 ≤ N }
    ensures bytes { text.new.bytes ≡ text.old.bytes ++ lines_text (price_lines prices.now) }
    ensures len { array_string_len text.new ≤ array_string_len text.old + 1404 }
{
    match prices.parts() {
        PriceParts::Cables(cables, pairs) => push_lists(text, "CABLES", &cables, "PAIRS", &pairs),
        PriceParts::Bars(bars, rows) => push_lists(text, "BARS", &bars, "ROWS", &rows),
        PriceParts::CableKinds(cables, pairs) => push_groups(text, &cables, &pairs),
        PriceParts::BarKinds(bars, rows) => push_groups(text, &bars, &rows),
    }
}

/// Appends two lines: `row_word` and then `rows`, and `column_word` and then `columns`.
fn push_lists<const M: usize, const N: usize>(
    text: &mut ArrayString<N>,
    row_word: &str,
    rows: &[i16; M],
    column_word: &str,
    columns: &[i16; M],
)
    requires room { let words = length row_word.now + length column_word.now in
        array_string_len text.old + words + 14 * M + 2 ≤ N }
    requires rows { IsPriceList M rows.now }
    requires columns { IsPriceList M columns.now }
    ensures bytes { let lines = (row_word.now ∷ map signed_decimal rows.now)
        ∷ (column_word.now ∷ map signed_decimal columns.now) ∷ [] in
        text.new.bytes ≡ text.old.bytes ++ lines_text lines }
    ensures len { array_string_len text.new
        ≤ array_string_len text.old + length row_word.now + length column_word.now + 14 * M + 2 }
{
    push_price_line(text, row_word, rows);
    push_price_line(text, column_word, columns);
}

/// Appends a line for each kind: first for `rows`, and then for `columns`.
fn push_groups<R: Kind, C: Kind, const M: usize, const N: usize>(
    text: &mut ArrayString<N>,
    rows: &ArrayVec<R, M>,
    columns: &ArrayVec<C, M>,
)
    requires room { array_string_len text.old + 52 * M ≤ N }
    requires rows { IsGroup R.format M rows.now.items }
    requires columns { IsGroup C.format M columns.now.items }
    ensures bytes { let rows = map (kind_words R.format) rows.now.items in
        text.new.bytes ≡ text.old.bytes
        ++ lines_text (rows ++ map (kind_words C.format) columns.now.items) }
    ensures len { array_string_len text.new ≤ array_string_len text.old + 52 * M }
{
    push_kinds(text, rows.as_slice());
    push_kinds(text, columns.as_slice());
}

/// Appends a line: `word`, and then `prices`, with a space before each price.
fn push_price_line<const N: usize>(text: &mut ArrayString<N>, word: &str, prices: &[i16])
    requires room { array_string_len text.old + length word.now + 7 * length prices.now + 1 ≤ N }
    requires in_range { ArePricesInRange prices.now }
    ensures bytes { text.new.bytes
        ≡ text.old.bytes ++ line_then (word.now ∷ map signed_decimal prices.now) [] }
    ensures len { array_string_len text.new
        ≤ array_string_len text.old + length word.now + 7 * length prices.now + 1 }
{
    text.push_str(word);
    for price in prices {
        push_price(text, *price);
    }
    text.push_str("\n");
}

/// Appends a space, and then `price`.
fn push_price<const N: usize>(text: &mut ArrayString<N>, price: i16)
    requires { array_string_len text.old + 7 ≤ N }
    ensures bytes { text.new.bytes ≡ text.old.bytes ++ 32 ∷ signed_decimal price }
    ensures len { array_string_len text.new ≤ array_string_len text.old + 7 }
{
    let mut buffer = Buffer::new();
    text.push_str(" ");
    text.push_str(buffer.format(price));
}
