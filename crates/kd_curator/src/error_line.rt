//! Lines on standard error that end with a file's name.
ghost use Rattle.std.specs.Prelude.{◌≡◌, ◌++◌, ◌∷◌, ◌||◌, [], is_err};
ghost use Rattle.kd_tables.specs.Ports.{port};
ghost use Rattle.kd_tables.specs.Writing.{Writes};
ghost use Rattle.kd_host.specs.Ending.{EndsWithLine};

use kd_tables::{Device, Sink, put_all};

/// Writes a line to `errors`, with `words` and `name`. Returns the exit status 1.
///
/// The exit status is the same even if the line can't be written.
pub(crate) fn end_named<E: Sink>(words: &str, name: &str, errors: &mut E) -> u8
    ensures { EndsWithLine (words.now ++ (name.now ++ 10 ∷ [])) 1
        (port E.taken E.has_failed errors.old errors.new) result }
{
    let _ = put_named(words, name, errors);
    1
}

/// Writes a line to `errors`, with `text`, `words` and `name`. Returns the exit status 1, as `end_named` does.
pub(crate) fn end_refused<E: Sink>(text: &str, words: &str, name: &str, errors: &mut E) -> u8
    ensures { EndsWithLine (text.now ++ (words.now ++ (name.now ++ 10 ∷ []))) 1
        (port E.taken E.has_failed errors.old errors.new) result }
{
    let _ = put_refusal(text, words, name, errors);
    1
}

/// Writes a line with `words` and `name`.
fn put_named<E: Sink>(words: &str, name: &str, errors: &mut E) -> Result<(), Device>
    ensures text { Writes (E.taken errors.old) (E.taken errors.new)
        (words.now ++ (name.now ++ 10 ∷ [])) result }
    ensures failed { E.has_failed errors.new ≡ (E.has_failed errors.old || is_err result) }
{
    put_all(errors, words.as_bytes())?;
    put_all(errors, name.as_bytes())?;
    put_all(errors, b"\n")
}

/// Writes a line with `text`, `words` and `name`.
fn put_refusal<E: Sink>(text: &str, words: &str, name: &str, errors: &mut E) -> Result<(), Device>
    ensures text { Writes (E.taken errors.old) (E.taken errors.new)
        (text.now ++ (words.now ++ (name.now ++ 10 ∷ []))) result }
    ensures failed { E.has_failed errors.new ≡ (E.has_failed errors.old || is_err result) }
{
    put_all(errors, text.as_bytes())?;
    put_named(words, name, errors)
}
