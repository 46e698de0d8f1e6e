//! Writes the warnings about a key sheet's days.
ghost use Rattle.std.specs.Prelude.{◌≡◌, ◌++◌, ℕ, List, OnOk};
ghost use Rattle.std.specs.String.{string_bytes};
ghost use Rattle.kd_findings.specs.Texts.{AppendsText, EndsAtFeed};
ghost use Rattle.kd_look.specs.Warnings.{IsDayLine, WarnsOfDays, day_line};

use crate::texts::DAY_WARNING;
use kd_findings::first_line;
use kd_language::Language;
use std::alloc::AllocError;

/// Appends a warning about days: the file's name, `DAY_WARNING`, and the first line of `words`.
pub fn push_day_line(
    lines: &mut String,
    language: Language,
    name: &str,
    words: &str,
) -> Result<(), AllocError>
    ensures line { OnOk result ((line : List ℕ) × EndsAtFeed words.now line
        × AppendsText (IsDayLine language name.now line) (string_bytes lines.old)
        (string_bytes lines.new)) }
    ensures warns { OnOk result (WarnsOfDays language name.now (string_bytes lines.old)
        → WarnsOfDays language name.now (string_bytes lines.new)) }
{
    push_line(lines, language, name, first_line(words))
}

/// Appends a warning about days: the file's name, `DAY_WARNING`, and `words`.
#[tactic(auto, using(std::proofs::Common::append_assoc), unfolding(crate::specs::Warnings::day_line))]
fn push_line(
    lines: &mut String,
    language: Language,
    name: &str,
    words: &str,
) -> Result<(), AllocError>
    ensures { OnOk result (string_bytes lines.new
        ≡ string_bytes lines.old ++ day_line language name.now words.now) }
{
    lines.push_str(name)?;
    lines.push_str(language.text(DAY_WARNING))?;
    lines.push_str(words)?;
    lines.push_str("\n")
}
