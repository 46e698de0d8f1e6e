//! Reads the cells of a table: numbers, wheels, letters, pairs and groups.
ghost use Rattle.std.specs.Prelude.{◌≡◌, ◌≤◌, ◌+◌, ◌*◌, ◌++◌, ◌==◌, not, filter, ℕ, List, Option, map, option_map, length};
ghost use Rattle.kd_spreadsheet.specs.Items.{is_blank, normal, item_text, values_of_words, values_in};
ghost use Rattle.kd_spreadsheet.specs.Items.{digit_of, number_of, pair_of, group_of, slot_of, numbered_letter, ring_of_word};
ghost use Rattle.kd_spreadsheet.specs.Items.{bytes_of, number_in, joined};
ghost use Rattle.kd_spreadsheet.specs.declared.items.WordRule.TheVariants as word_rules;
ghost use Rattle.kd_sheet.specs.Bars.{reading_of_text};

use crate::names::{capital, is_capital_letter, is_digit, is_gap, wheel_named};
use arrayvec::ArrayVec;
use kd_sheet::reading_of_text;
use kd_tables::{Letter, Reading, Wheel, split_words};

/// The greatest number of bytes, of words and of values that a cell may have.
pub const CELL_LIMIT: usize = 192;

/// The values in a cell, at most 192.
pub type Values<T> = ArrayVec<T, 192>;

/// How a cell is split into words.
#[derive(Clone, Copy)]
pub enum WordRule {
    /// Words are separated by gaps.
    Gaps,
    /// Words are separated by gaps, and each letter is a word by itself.
    Letters,
    /// Words are separated by gaps, and a hyphen isn't a gap.
    Hyphens,
}

impl WordRule {
    /// Whether `byte` stays unchanged; all other bytes get their normal form.
    fn is_kept(self, byte: u8) -> bool
        ensures { result ≡ (bytes_of self).keeps byte }
    {
        match self {
            WordRule::Gaps | WordRule::Letters => false,
            WordRule::Hyphens => byte == b'-',
        }
    }

    /// Whether `byte` is a word by itself.
    fn is_alone(self, byte: u8) -> bool
        ensures { result ≡ (bytes_of self).alone byte }
    {
        match self {
            WordRule::Gaps | WordRule::Hyphens => false,
            WordRule::Letters => is_capital_letter(byte),
        }
    }
}

/// A type whose values are read from the words of a cell, such as a letter or a wheel.
pub trait FromWord {
    ghost use Rattle.kd_spreadsheet.specs.declared.items.WordRule.{WordRule};

    /// How a cell with values of this type is split into words.
    ghost rule: { WordRule };

    /// The value of a word; `None` if the word can't be read as a value.
    ghost parse: { List ℕ → Option Self };

    fn rule() -> WordRule
        ensures { result ≡ rule };

    /// Reads `word` as a value of this type; `None` if `word` can't be read.
    fn read_word(word: &[u8]) -> Option<Self>
        ensures { result ≡ parse word.now };
}

/// Whether all bytes of `cell` are gaps.
pub fn is_blank(cell: &[u8]) -> bool
    ensures { result ≡ is_blank cell.now }
{
    for byte in cell {
        if !is_gap(*byte) {
            return false;
        }
    }
    true
}

/// The number in a cell whose only word is a number. For any other cell, `None`.
pub fn number_in(cell: &[u8]) -> Option<u8>
    ensures { result ≡ number_in cell.now }
{
    let numbers = values_in::<u8>(cell)?;
    match numbers.as_slice() {
        [number] => Some(*number),
        _ => None,
    }
}

/// The values of a cell's words. `None` if a word can't be read as a value, or the cell is too long.
pub fn values_in<T: FromWord + Copy + Default>(cell: &[u8]) -> Option<Values<T>>
    ensures { option_map (λ values. values.items) result ≡ values_in (bytes_of T.rule) T.parse cell.now }
{
    if cell.len() > CELL_LIMIT {
        return None;
    }
    let mut text = ArrayVec::new();
    push_item_text(&mut text, T::rule(), cell);
    let words = split_words::<192>(text.as_slice())?;
    let mut values = ArrayVec::new();
    push_values(&mut values, words.as_slice())?;
    Some(values)
}

/// Appends the bytes of `cell` in normal form. A space stands after each byte that is a word by itself, as `rule` says.
pub fn push_item_text(text: &mut ArrayVec<u8, 384>, rule: WordRule, cell: &[u8])
    requires { length text.old.items + 2 * length cell.now ≤ 384 }
    ensures { text.new.items ≡ text.old.items ++ item_text (bytes_of rule) cell.now }
{
    if let [byte, rest @ ..] = cell {
        let byte = *byte;
        let byte = if rule.is_kept(byte) {
            byte
        } else {
            normal(byte)
        };
        text.push(byte);
        if rule.is_alone(byte) {
            text.push(b' ');
        }
        push_item_text(text, rule, rest);
    }
}

/// The bytes of `cell` in normal form, without gaps. `None` if the cell has more than 192 bytes.
pub fn joined(cell: &[u8]) -> Option<ArrayVec<u8, 192>>
    ensures { option_map (λ text. text.items) result ≡ joined cell.now }
{
    if cell.len() > CELL_LIMIT {
        return None;
    }
    let mut text = ArrayVec::new();
    push_joined(&mut text, cell);
    Some(text)
}

/// The byte in normal form: a space for a gap, the capital letter for a small letter, otherwise the byte itself.
pub fn normal(byte: u8) -> u8
    ensures { result ≡ normal byte }
{
    if is_gap(byte) { b' ' } else { capital(byte) }
}

impl FromWord for u8 {
    ghost rule = { word_rules.Gaps };

    ghost parse = { number_of };

    fn rule() -> WordRule {
        WordRule::Gaps
    }

    fn read_word(word: &[u8]) -> Option<Self> {
        number_of(word)
    }
}

impl FromWord for Option<Wheel> {
    ghost rule = { word_rules.Gaps };

    ghost parse = { slot_of };

    fn rule() -> WordRule {
        WordRule::Gaps
    }

    fn read_word(word: &[u8]) -> Option<Self> {
        Some(Some(wheel_named(word)?))
    }
}

/// A letter. In a table, it stands as itself, or as a number from 1 (A) to 26 (Z).
impl FromWord for Letter {
    ghost rule = { word_rules.Letters };

    ghost parse = { ring_of_word };

    fn rule() -> WordRule {
        WordRule::Letters
    }

    fn read_word(word: &[u8]) -> Option<Self> {
        match word {
            [byte] if is_capital_letter(*byte) => Letter::from_byte(*byte),
            _ => numbered_letter(number_of(word)),
        }
    }
}

impl FromWord for (Letter, Letter) {
    ghost rule = { word_rules.Gaps };

    ghost parse = { pair_of };

    fn rule() -> WordRule {
        WordRule::Gaps
    }

    fn read_word(word: &[u8]) -> Option<Self> {
        match word {
            [one, other] => {
                let letter = Letter::from_byte(*one)?;
                let more = Letter::from_byte(*other)?;
                Some((letter, more))
            }
            _ => None,
        }
    }
}

impl FromWord for [Letter; 3] {
    ghost rule = { word_rules.Gaps };

    ghost parse = { group_of };

    fn rule() -> WordRule {
        WordRule::Gaps
    }

    fn read_word(word: &[u8]) -> Option<Self> {
        match word {
            [one, two, three] => {
                let one = Letter::from_byte(*one)?;
                let two = Letter::from_byte(*two)?;
                let three = Letter::from_byte(*three)?;
                Some([one, two, three])
            }
            _ => None,
        }
    }
}

/// A bar's reading: the numbers of two wheels, with a hyphen between them.
impl FromWord for Reading {
    ghost rule = { word_rules.Hyphens };

    ghost parse = { reading_of_text };

    fn rule() -> WordRule {
        WordRule::Hyphens
    }

    fn read_word(word: &[u8]) -> Option<Self> {
        reading_of_text(word)
    }
}

/// Appends the values of all words that aren't empty. `None` if one of these words can't be read as a value.
fn push_values<T: FromWord + Copy + Default>(values: &mut Values<T>, words: &[&[u8]]) -> Option<()>
    requires { length values.old.items + length words.now ≤ 192 }
    ensures { option_map (λ _. values.new.items) result
        ≡ option_map (λ more. values.old.items ++ more)
        (values_of_words T.parse (map (λ word. word.now) words.now)) }
{
    match words {
        [first, rest @ ..] => {
            if !first.is_empty() {
                values.push(T::read_word(first)?);
            }
            push_values(values, rest)
        }
        [] => Some(()),
    }
}

/// Appends the bytes of `cell` in normal form, without the gaps.
fn push_joined(text: &mut ArrayVec<u8, 192>, cell: &[u8])
    requires { length text.old.items + length cell.now ≤ 192 }
    ensures { text.new.items
        ≡ text.old.items ++ filter (λ byte. not (byte == 32)) (map normal cell.now) }
{
    if let [byte, rest @ ..] = cell {
        let byte = normal(*byte);
        if byte != b' ' {
            text.push(byte);
        }
        push_joined(text, rest);
    }
}

/// The number that a word of one or two digits means.
fn number_of(word: &[u8]) -> Option<u8>
    ensures { result ≡ number_of word.now }
{
    match word {
        [one] => digit_of(*one),
        [one, other] => {
            let tens = digit_of(*one)?;
            let ones = digit_of(*other)?;
            Some(10 * tens + ones)
        }
        _ => None,
    }
}

/// The value of the digit `byte`; `None` if `byte` isn't a digit.
fn digit_of(byte: u8) -> Option<u8>
    ensures { result ≡ digit_of byte }
{
    if is_digit(byte) {
        Some(byte - b'0')
    } else {
        None
    }
}

/// The letter with the number `number`, from 1 (A) to 26 (Z); `None` for any other number.
fn numbered_letter(number: Option<u8>) -> Option<Letter>
    ensures { result ≡ numbered_letter number }
{
    let number = number?;
    if 1 <= number && number <= 26 {
        Letter::new(number - 1)
    } else {
        None
    }
}
