//! Reads and writes the lines of kinds: one line for each kind of cables, columns, bars or rows.
ghost use Rattle.arrayvec.specs.ArrayString.{array_string_len};
ghost use Rattle.kd_card.specs.Reading.{words_after_first, EndsKindsAt, IsBadKindAt, IsKindOfWords};
ghost use Rattle.kd_card.specs.Kinds.{kinds_text, ComesAfter, HasKindWords, IsKind};
ghost use Rattle.kd_card.specs.CardFault.{IsNextKind, IsGroupAnswer};
ghost use Rattle.std.specs.Prelude.{◌≡◌, ◌+◌, ◌*◌, ◌<◌, ◌≤◌, [], ◌∷◌, ◌++◌, length, map, All, MatchOption, MatchResult};
ghost use Rattle.std.specs.Prelude.{Ok, Err};
ghost use Rattle.std.specs.Option.{option_copied};

use super::fault::CardFault;
use super::kinds::{Kind, KindOf, comes_after};
use super::price_text::{price_of_text, split_first_word};
use arrayvec::{ArrayString, ArrayVec};
use itoa::Buffer;
use kd_tables::{is_word, number_of_text, push_number, split_words};

/// Parses a kind from its line without the first word.
///
/// For the line `CABLE AB 1 0`, `behind` is `AB 1 0`. For a line with only one word, `behind` is `None`. The result is
/// `None` if the words don't make a valid kind.
fn kind_of_words<K: Kind>(behind: Option<&[u8]>) -> Option<K>
    ensures { let words = K.format.word ∷ words_after_first (option_copied behind.entry) in
        MatchOption result
        ((kind : K) → ¬ (HasKindWords K.format words kind))
        (IsKindOfWords K.format words) }
{
    let words = split_words::<3>(behind?)?;
    kind_of_list(words.as_slice())
}

/// Parses a kind from the words after the first in its line. `None` unless these are three words that make a valid
/// kind.
#[tactic(auto, using(crate::proofs::OneCard::words_in_place))]
fn kind_of_list<K: Kind>(words: &[&[u8]]) -> Option<K>
    ensures { let words = K.format.word ∷ map (λ word. word.now) words.now in
        MatchOption result
        ((kind : K) → ¬ (HasKindWords K.format words kind))
        (IsKindOfWords K.format words) }
{
    let [key, count, price] = words else {
        return None;
    };
    kind_of_parts(key, count, price)
}

/// Parses a kind from `key`, `count` and `price`. In the line `CABLE AB 1 0`, these are `AB`, `1` and `0`.
#[tactic(auto, using(crate::proofs::OneCard::no_count))]
fn kind_of_parts<K: Kind>(key: &[u8], count: &[u8], price: &[u8]) -> Option<K>
    ensures { let words = K.format.word ∷ key.now ∷ count.now ∷ price.now ∷ [] in
        MatchOption result
        ((kind : K) → ¬ (HasKindWords K.format words kind))
        (IsKindOfWords K.format words) }
{
    let key = K::key_of_text(key)?;
    let count = number_of_text(count)?;
    let price = price_of_text(price)?;
    (count > 0).then_some(K::of(KindOf { key, count, price }))
}

/// Reads the next kind of a group from the first line of `text`. Returns this kind, and the text after the line.
///
/// - `None`: the group ends. `text` is empty, or its first line ends with LF and has another first word than
///   `K::word()`.
/// - `BadLine(line)`: the line has no LF, or has the first word `K::word()` but isn't the line of a valid kind after
///   `last`.
fn next_kind<K: Kind>(
    text: &[u8],
    last: Option<K>,
    line: usize,
) -> Result<Option<(K, &[u8])>, CardFault>
    ensures { MatchResult result
        (λ next. MatchOption next
        (EndsKindsAt K.format last text.now)
        (λ found. IsNextKind K.format last text.now found.0 found.1.now))
        (λ fault. IsBadKindAt K.format last text.now × (fault ≡ CardFault.BadLine line)) }
{
    if text.is_empty() {
        return Ok(None);
    }
    let (first, behind, rest) = split_first_word(text, line)?;
    if !is_word(first, K::word()) {
        return Ok(None);
    }
    match kind_after::<K>(last, behind) {
        Some(kind) => Ok(Some((kind, rest))),
        None => Err(CardFault::BadLine(line)),
    }
}

/// Parses a kind as `kind_of_words` does. The result is also `None` if the kind doesn't come after `last`.
fn kind_after<K: Kind>(last: Option<K>, behind: Option<&[u8]>) -> Option<K>
    ensures { let words = K.format.word ∷ words_after_first (option_copied behind.entry) in
        MatchOption result
        ((kind : K) → HasKindWords K.format words kind → ¬ (ComesAfter K.format last kind))
        (λ kind. IsKindOfWords K.format words kind × ComesAfter K.format last kind) }
{
    let kind = kind_of_words::<K>(behind)?;
    comes_after(last, &kind).then_some(kind)
}

/// Reads a group: kinds whose counts have to add up to `N`. Returns the kinds, and the text after the group.
///
/// The group begins on line `line` of the card, counted from 1.
#[tactic(auto, using(crate::proofs::OneCard::reads_none))]
pub(crate) fn read_kinds<'a, K: Kind, const N: usize>(
    text: &'a [u8],
    line: usize,
) -> Result<(ArrayVec<K, N>, &'a [u8]), CardFault>
    requires few { N ≤ 27 }
    requires near { line < 300 }
    ensures { MatchResult result
        (λ found. IsGroupAnswer K.format N line text.now (Ok (found.0.items, found.1.now)))
        (λ fault. IsGroupAnswer K.format N line text.now (Err fault)) }
{
    let mut kinds = ArrayVec::new();
    let mut rest = text;
    let mut last = None;
    let mut number = 0;
    let mut at = line;
    'kind: loop {
        match next_kind::<K>(rest, last, at) {
            Ok(Some((kind, after))) => {
                // A sum of counts above `N` is refused, so adding ends at `N + 1`. Each count is at least 1, so more
                // than `N` kinds are refused, too, and `kinds` needn't have room for them.
                number = (number + usize::from(kind.parts().count)).min(N + 1);
                let _is_kept = kinds.try_push(kind).is_ok();
                last = Some(kind);
                rest = after;
                at += 1;
            }
            Ok(None) => break 'kind,
            Err(fault) => return Err(fault),
        }
    }
    if number == N {
        Ok((kinds, rest))
    } else {
        Err(CardFault::PriceMissing)
    }
}

/// Appends a line for each of `kinds`.
pub(crate) fn push_kinds<K: Kind, const N: usize>(text: &mut ArrayString<N>, kinds: &[K])
    requires room { array_string_len text.old + 26 * length kinds.now ≤ N }
    requires kinds { All (IsKind K.format) kinds.now }
    ensures bytes { text.new.bytes ≡ text.old.bytes ++ kinds_text K.format kinds.now }
    ensures len { array_string_len text.new ≤ array_string_len text.old + 26 * length kinds.now }
{
    for kind in kinds {
        push_kind(text, kind);
    }
}

/// Appends the line of `kind`.
#[tactic(auto, using(crate::proofs::OneCard::line_in_pieces, crate::proofs::OneCard::written_price))]
fn push_kind<K: Kind, const N: usize>(text: &mut ArrayString<N>, kind: &K)
    requires room { array_string_len text.old + 26 ≤ N }
    requires kind { IsKind K.format kind.now }
    ensures bytes { text.new.bytes ≡ text.old.bytes ++ kinds_text K.format (kind.now ∷ []) }
    ensures len { array_string_len text.new ≤ array_string_len text.old + 26 }
{
    let parts = kind.parts();
    let mut buffer = Buffer::new();
    text.push_str(K::word());
    text.push_str(" ");
    text.push_str(kind.text().as_str());
    text.push_str(" ");
    push_number(text, parts.count);
    text.push_str(" ");
    text.push_str(buffer.format(parts.price));
    text.push_str("\n");
}
