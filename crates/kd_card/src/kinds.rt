//! A kind is a set of equal cables, equal columns, equal bars or equal rows. A kind has a count, and the price of a
//! single member.
ghost use Rattle.std.specs.Prelude.{◌≡◌, ◌≢◌, ◌↔◌, ℕ, ◌+◌, ◌<◌, ◌≤◌, [], ◌∷◌, ◌++◌, length, replicate, None};
ghost use Rattle.std.specs.Prelude.{IsTrue, MatchOption};
ghost use Rattle.arrayvec.specs.ArrayVec.{array_vec_len};
ghost use Rattle.kd_state.specs.Machine.{cable_letters};
ghost use Rattle.kd_card.specs.Kinds.{cable_format, pair_format, bar_format, row_format, letters_text};
ghost use Rattle.kd_card.specs.{Kinds.{ComesAfter, IsKind, AreKinds, total_count, prices_of_kinds}, Prices.IsPriceList};

use arrayvec::{ArrayString, ArrayVec};
use kd_state::Cable;
use kd_tables::{Letter, Reading, Standing, push_letter};
use std::cmp::Ordering;

/// A kind of cables: all cables with the same letters.
#[derive(Clone, Copy, Default)]
pub struct CableKind {
    /// The letters of each cable of this kind.
    ///
    /// In a valid kind, two letters are in alphabetical order, and a single letter is at the first end.
    pub ends: (Option<Letter>, Option<Letter>),
    /// The number of cables of this kind; in a valid kind, at least 1.
    pub count: u8,
    /// The price of each cable of this kind; in a valid kind, from -9999 to 9999.
    pub price: i16,
}

/// A kind of columns of the table of costs: all columns with the same pair, or all empty columns.
#[derive(Clone, Copy, Default)]
pub struct PairKind {
    /// The pair, or `None` for empty columns. In a valid kind, the pair's letters are in alphabetical order.
    pub pair: Option<(Letter, Letter)>,
    /// The number of columns of this kind; in a valid kind, at least 1.
    pub count: u8,
    /// The price of each column of this kind; in a valid kind, from -9999 to 9999.
    pub price: i16,
}

/// A kind of bars: all bars with the same standing (the places of the two lugs).
#[derive(Clone, Copy, Default)]
pub struct BarKind {
    pub standing: Standing,
    /// The number of bars of this kind; in a valid kind, at least 1.
    pub count: u8,
    /// The price of each bar of this kind; in a valid kind, from -9999 to 9999.
    pub price: i16,
}

/// A kind of rows of a key sheet: all rows with the same reading.
#[derive(Clone, Copy, Default)]
pub struct RowKind {
    pub reading: Reading,
    /// The number of rows of this kind; in a valid kind, at least 1.
    pub count: u8,
    /// The price of each row of this kind; in a valid kind, from -9999 to 9999.
    pub price: i16,
}

/// A kind of cables, columns, bars or rows. It has a key, a count, and a price for each member. The key is letters, a
/// bar's standing, or a row's reading.
#[derive(Clone, Copy, Default)]
pub struct KindOf<T> {
    pub key: T,
    pub count: u8,
    pub price: i16,
}

/// A kind: equal cables, columns, bars or rows, which have one price.
pub trait Kind: Copy + Default {
    ghost use Rattle.std.specs.Prelude.{◌≡◌, ◌↔◌, ◌≤◌, length, List, IsTrue, MatchOption};
    ghost use Rattle.kd_card.specs.Kinds.{KindFormat, key_cmp, HasText, IsOnlyKey};

    /// The key of a kind: what its cables, columns, bars or rows have in common, such as their letters.
    type Key: Copy + Default;

    /// How a card writes the kinds of this type, and in which order.
    ghost format: { KindFormat Self Self.Key };

    /// The first word of a kind's line on a card: `CABLE`, `PAIR`, `BAR` or `ROW`.
    fn word() -> &'static str
        ensures value { result.now ≡ format.word }
        ensures few { length result.now ≤ 5 };

    /// Makes a kind of this type from a key, a count and a price.
    fn of(kind: KindOf<Self::Key>) -> Self
        ensures { format.kind result ≡ kind };

    /// The key, the count and the price of this kind.
    fn parts(&self) -> KindOf<Self::Key>
        ensures { result ≡ format.kind self.now };

    /// Whether a card may have a kind with this key. Two letters, for example, have to be in alphabetical order.
    fn is_in_form(&self) -> bool
        ensures { IsTrue result ↔ format.InForm (format.kind self.now).key };

    /// The text of the kind's key (letters, standing or reading) in the kind's line, such as `AB`.
    fn text(&self) -> ArrayString<8>
        ensures { result.bytes ≡ format.text (format.kind self.now).key };

    /// Parses the key of a kind (letters, standing or reading) from the key's text in the kind's line.
    fn key_of_text(text: &[u8]) -> Option<Self::Key>
        ensures { MatchOption result
            ((key : Self.Key) → ¬ (HasText format text.now key))
            (IsOnlyKey format text.now) };

    /// Compares two keys. On a card, the lines of kinds are sorted by this order of the keys.
    fn compare(one: &Self::Key, other: &Self::Key) -> Ordering
        ensures { result ≡ key_cmp format one.now other.now };

    /// If `order` gives the same numbers for two keys, the keys are equal.
    ghost told_apart: { (x y : Self.Key) → format.order x ≡ format.order y → x ≡ y };
}

impl Kind for CableKind {
    ghost use Rattle.std.proofs.Common.{Some, None, arith};

    type Key = Cable;

    ghost format = { cable_format };

    fn word() -> &'static str {
        "CABLE"
    }

    fn of(kind: KindOf<Self::Key>) -> Self
        ensures { cable_format.kind result ≡ kind }
    {
        CableKind {
            ends: kind.key,
            count: kind.count,
            price: kind.price,
        }
    }

    fn parts(&self) -> KindOf<Self::Key> {
        KindOf {
            key: self.ends,
            count: self.count,
            price: self.price,
        }
    }

    fn is_in_form(&self) -> bool {
        match self.ends {
            (None, None) => true,
            (Some(letter), None) => letter.index() < 26,
            (None, Some(_)) => false,
            (Some(one), Some(other)) => is_before(one, other),
        }
    }

    fn text(&self) -> ArrayString<8> {
        text_of_letters(self.ends.0, self.ends.1)
    }

    #[tactic(auto, using(crate::proofs::OneCard::one_cable))]
    fn key_of_text(text: &[u8]) -> Option<Self::Key> {
        match text {
            [b'-'] => Some((None, None)),
            [letter] => Some((Some(Letter::from_byte(*letter)?), None)),
            _ => {
                let (one, other) = two_letters(text)?;
                Some((Some(one), Some(other)))
            }
        }
    }

    fn compare(one: &Self::Key, other: &Self::Key) -> Ordering {
        (one.0.is_none(), *one).cmp(&(other.0.is_none(), *other))
    }

    ghost told_apart = { λ x y. let (a, b) = x in let (c, d) = y in elim (a) [
      | Some e ↦ elim (b) [ Some f ↦ Prim.grind arith | None ↦ Prim.grind arith ]
      | None ↦ elim (b) [ Some f ↦ Prim.grind arith | None ↦ Prim.grind arith ]
    ] };
}

impl Kind for PairKind {
    ghost use Rattle.std.proofs.Common.{Some, None, arith};

    type Key = Option<(Letter, Letter)>;

    ghost format = { pair_format };

    fn word() -> &'static str {
        "PAIR"
    }

    fn of(kind: KindOf<Self::Key>) -> Self
        ensures { pair_format.kind result ≡ kind }
    {
        PairKind {
            pair: kind.key,
            count: kind.count,
            price: kind.price,
        }
    }

    fn parts(&self) -> KindOf<Self::Key> {
        KindOf {
            key: self.pair,
            count: self.count,
            price: self.price,
        }
    }

    fn is_in_form(&self) -> bool {
        match self.pair {
            None => true,
            Some((one, other)) => is_before(one, other),
        }
    }

    fn text(&self) -> ArrayString<8> {
        let (one, other) = self.pair.unzip();
        text_of_letters(one, other)
    }

    #[tactic(auto, using(crate::proofs::OneCard::one_pair))]
    fn key_of_text(text: &[u8]) -> Option<Self::Key> {
        match text {
            [b'-'] => Some(None),
            _ => Some(Some(two_letters(text)?)),
        }
    }

    fn compare(one: &Self::Key, other: &Self::Key) -> Ordering {
        (one.is_none(), *one).cmp(&(other.is_none(), *other))
    }

    ghost told_apart = { elim [
      | Some p ↦ elim [ Some q ↦ Prim.grind arith | None ↦ Prim.grind arith ]
      | None ↦ elim [ Some q ↦ Prim.grind arith | None ↦ Prim.grind arith ]
    ] };
}

impl Kind for BarKind {
    ghost use Rattle.std.proofs.Common.{arith};

    type Key = Standing;

    ghost format = { bar_format };

    fn word() -> &'static str {
        "BAR"
    }

    fn of(kind: KindOf<Self::Key>) -> Self
        ensures { bar_format.kind result ≡ kind }
    {
        BarKind {
            standing: kind.key,
            count: kind.count,
            price: kind.price,
        }
    }

    fn parts(&self) -> KindOf<Self::Key> {
        KindOf {
            key: self.standing,
            count: self.count,
            price: self.price,
        }
    }

    fn is_in_form(&self) -> bool {
        self.standing.left() < self.standing.right()
    }

    fn text(&self) -> ArrayString<8> {
        self.standing.text()
    }

    #[tactic(auto, using(crate::proofs::OneCard::one_standing))]
    fn key_of_text(text: &[u8]) -> Option<Self::Key> {
        Standing::from_text(text)
    }

    fn compare(one: &Self::Key, other: &Self::Key) -> Ordering {
        one.cmp(other)
    }

    ghost told_apart = { λ x y same. let (a, b) = x in let (c, d) = y in Prim.grind arith };
}

impl Kind for RowKind {
    ghost use Rattle.std.proofs.Common.{arith};

    type Key = Reading;

    ghost format = { row_format };

    fn word() -> &'static str {
        "ROW"
    }

    fn of(kind: KindOf<Self::Key>) -> Self
        ensures { row_format.kind result ≡ kind }
    {
        RowKind {
            reading: kind.key,
            count: kind.count,
            price: kind.price,
        }
    }

    fn parts(&self) -> KindOf<Self::Key> {
        KindOf {
            key: self.reading,
            count: self.count,
            price: self.price,
        }
    }

    fn is_in_form(&self) -> bool {
        self.reading.numbers().1 <= 6
    }

    fn text(&self) -> ArrayString<8> {
        self.reading.text()
    }

    #[tactic(auto, using(crate::proofs::OneCard::one_reading))]
    fn key_of_text(text: &[u8]) -> Option<Self::Key> {
        Reading::from_text(text)
    }

    fn compare(one: &Self::Key, other: &Self::Key) -> Ordering {
        one.cmp(other)
    }

    ghost told_apart = { λ x y same. Prim.grind arith };
}

/// Whether `one` comes before `other` in the alphabet.
fn is_before(one: Letter, other: Letter) -> bool
    ensures { IsTrue result ↔ ((one < other) × (other < 26)) }
{
    one.index() < other.index()
}

/// Writes two letters, one letter, or `-` for no letter.
fn text_of_letters(one: Option<Letter>, other: Option<Letter>) -> ArrayString<8>
    ensures { result.bytes ≡ letters_text (cable_letters (one, other)) }
{
    let mut text = ArrayString::new();
    match (one, other) {
        (None, None) => text.push_str("-"),
        (Some(letter), None) | (None, Some(letter)) => push_letter(&mut text, letter),
        (Some(one), Some(other)) => {
            push_letter(&mut text, one);
            push_letter(&mut text, other);
        }
    }
    text
}

/// Parses two different capital letters in alphabetical order.
fn two_letters(text: &[u8]) -> Option<(Letter, Letter)>
    ensures { MatchOption result
        ((one other : ℕ) → one < other → other < 26 → letters_text (one ∷ other ∷ []) ≢ text.now)
        (λ letters. (letters.0 < letters.1) × (letters.1 < 26)
        × (letters_text (letters.0 ∷ letters.1 ∷ []) ≡ text.now)) }
{
    match text {
        [one, other] => {
            let one = Letter::from_byte(*one)?;
            let other = Letter::from_byte(*other)?;
            is_before(one, other).then_some((one, other))
        }
        _ => None,
    }
}

/// Whether `kind` comes after the kind `last` in the order of a card's lines; `true` if `last` is `None`.
pub(crate) fn comes_after<K: Kind>(last: Option<K>, kind: &K) -> bool
    ensures { IsTrue result ↔ ComesAfter K.format last kind.now }
{
    match last {
        Some(last) => K::compare(&last.parts().key, &kind.parts().key).is_lt(),
        None => true,
    }
}

/// Whether a card may have `kind`: `is_in_form` holds, the count is above 0, and the price is from -9999 to 9999.
fn is_kind<K: Kind>(kind: &K) -> bool
    ensures { IsTrue result ↔ IsKind K.format kind.now }
{
    let parts = kind.parts();
    kind.is_in_form() && parts.count > 0 && parts.price.unsigned_abs() <= 9999
}

/// Whether `kinds` are valid and strictly ascending (after `last`, if any), and their counts add up to `number`.
pub(crate) fn are_kinds<K: Kind>(kinds: &[K], last: Option<K>, number: usize) -> bool
    ensures value { IsTrue result
        ↔ (AreKinds K.format last kinds.now × (total_count K.format kinds.now ≡ number)) }
    ensures few { IsTrue result → length kinds.now ≤ number }
{
    match kinds {
        [] => number == 0,
        [kind, rest @ ..] => {
            let count = usize::from(kind.parts().count);
            is_kind(kind)
                && comes_after(last, kind)
                && count <= number
                && are_kinds(rest, Some(*kind), number - count)
        }
    }
}

/// Lists the prices of all kinds, kind after kind. A kind with the count 3, for example, gives its price three times.
pub(crate) fn prices_of_kinds<K: Kind>(kinds: &[K]) -> ArrayVec<i16, 27>
    requires kinds { AreKinds K.format None kinds.now }
    requires few { total_count K.format kinds.now ≤ 27 }
    ensures items { result.items ≡ prices_of_kinds K.format kinds.now }
    ensures list { IsPriceList (total_count K.format kinds.now) (prices_of_kinds K.format kinds.now) }
{
    let mut prices = ArrayVec::new();
    for kind in kinds {
        let KindOf { count, price, .. } = kind.parts();
        for _ in 0..count {
            prices.push(price);
        }
    }
    prices
}
