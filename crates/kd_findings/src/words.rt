//! The first line of a text, and the words for a place in a file.
ghost use Rattle.std.specs.Prelude.{◌≡◌, ◌++◌, OnOk};
ghost use Rattle.std.specs.String.{string_bytes};
ghost use Rattle.kd_findings.specs.Texts.{EndsAtFeed, IsInOneLine, entry_words, item_words, titled};

use crate::texts;
use itoa::Buffer;
use kd_language::Language;
use std::alloc::AllocError;

/// The part of `words` up to the first line feed.
pub fn first_line(words: &str) -> &str
    ensures plain { IsInOneLine result.now }
    ensures first { EndsAtFeed words.now result.now }
{
    match words.split_once('\n') {
        Some((line, _)) => line,
        None => words,
    }
}

/// Appends `title` and a number.
#[tactic(auto, using(std::proofs::Common::append_assoc), unfolding(crate::specs::Texts::titled))]
pub fn push_titled(text: &mut String, title: &str, number: usize) -> Result<(), AllocError>
    ensures { OnOk result (string_bytes text.new
        ≡ string_bytes text.old ++ titled title.now number) }
{
    let mut buffer = Buffer::new();
    text.push_str(title)?;
    text.push_str(buffer.format(number))
}

/// Appends the words for an item's number. If there is no number, appends nothing.
pub fn push_item(text: &mut String, item: Option<usize>) -> Result<(), AllocError>
    ensures { OnOk result (string_bytes text.new ≡ string_bytes text.old ++ item_words item) }
{
    match item {
        Some(number) => push_titled(text, " ", number),
        None => Ok(()),
    }
}

/// Appends the words for an entry: its day or, if the day can't be read, the entry's number.
#[tactic(auto, unfolding(crate::specs::Texts::entry_words))]
pub fn push_entry(
    text: &mut String,
    language: Language,
    day: Option<u8>,
    entry: Option<usize>,
) -> Result<(), AllocError>
    ensures { OnOk result (string_bytes text.new
        ≡ string_bytes text.old ++ entry_words language day entry) }
{
    match (day, entry) {
        (Some(day), _) => push_titled(text, language.text(texts::DAY), usize::from(day)),
        (None, Some(entry)) => push_titled(text, language.text(texts::ENTRY), entry),
        (None, None) => Ok(()),
    }
}
