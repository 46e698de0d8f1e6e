//! The language of the program's words: the computer's language, or the language that the option `--in` asks for.
ghost use Rattle.std.specs.Prelude.{◌≡◌, None, Some, codes, drop, if◌then◌else◌, map, nat_eq, option_map};
ghost use Rattle.std.specs.List.{starts_with};
ghost use Rattle.kd_curator_command.specs.Locale.{language_of, language_value, language_with_code};
ghost use Rattle.kd_curator_command.specs.Locale.{language_without_command};

use kd_language::Language;
use std::convert::AsStr;

/// The language for a locale, which is the value of the environment variable `LANG`. If the locale begins with `de`,
/// the language is German, otherwise English.
#[tactic(auto, unfolding(crate::specs::Locale::language_of))]
pub fn language_of(locale: &str) -> Language
    ensures { result ≡ language_of locale.now }
{
    if locale.as_bytes().starts_with(b"de") {
        Language::German
    } else {
        Language::English
    }
}

/// The language with the code `code`: `en` for English, `de` for German. `None` if no language has this code.
#[tactic(auto, unfolding(crate::specs::Locale::language_with_code))]
pub fn language_of_code(code: &str) -> Option<Language>
    ensures { result ≡ language_with_code code.now }
{
    match code {
        "en" => Some(Language::English),
        "de" => Some(Language::German),
        _ => None,
    }
}

/// The language of what is written before a command is known: help, errors or a refusal.
///
/// If the first option `--in` in `words` has a language's code as its value, the result is this language. Otherwise,
/// the result is `language`. Words that mean no command may use `--in` too, so `clap` isn't asked.
#[tactic(auto, unfolding(crate::specs::Locale::language_without_command))]
pub fn language_without_command<S: AsStr>(language: Language, words: &[S]) -> Language
    ensures { result ≡ language_without_command language (map S.text words.now) }
{
    match language_value(words) {
        Some(code) => language_of_code(code).unwrap_or(language),
        None => language,
    }
}

/// The value of the first option `--in` in `words`. After a word `--`, no word is an option. `None` if there is no
/// value.
fn language_value<'a, S: AsStr>(words: &'a [S]) -> Option<&'a str>
    ensures { option_map (λ value. value.now) result ≡ language_value (map S.text words.now) }
{
    let mut left = words;
    while let [word, after @ ..] = left {
        let word = word.as_str();
        if word == "--" {
            return None;
        }
        if word == "--in" {
            let value = after.first()?;
            return Some(value.as_str());
        }
        if let Some(value) = joined_value(word) {
            return Some(value);
        }
        left = after;
    }
    None
}

/// The value in a word `--in=value`. `None` if the word doesn't begin with `--in=`.
fn joined_value(word: &str) -> Option<&str>
    ensures { option_map (λ value. value.now) result
        ≡ (if starts_with nat_eq word.now (codes "--in=") then Some (drop 5 word.now) else None) }
{
    word.strip_prefix("--in=")
}
