//! Templates: texts with signs `~`, each of which stands for a value.
ghost use Rattle.std.specs.Prelude.{◌≡◌, ◌++◌, map, OnOk};
ghost use Rattle.std.specs.List.{after_first, before_first};
ghost use Rattle.std.specs.String.{string_bytes};
ghost use Rattle.kd_language.specs.Template.{filled, is_gap};

use std::alloc::AllocError;

/// Appends `template` with values in place of its signs `~`: the first value for the first sign, and so on.
#[tactic(auto, using(std::proofs::Common::append_assoc), unfolding(crate::specs::Template::filled))]
pub fn push_filled(text: &mut String, template: &str, values: &[&str]) -> Result<(), AllocError>
    ensures { OnOk result (string_bytes text.new
        ≡ string_bytes text.old ++ filled template.now (map (λ value. value.now) values.now)) }
{
    match values {
        [value, values @ ..] => {
            let (piece, rest) = cut(template);
            text.push_str(piece)?;
            text.push_str(value)?;
            push_filled(text, rest, values)
        }
        [] => text.push_str(template),
    }
}

/// The text of `template` before its first sign `~`, and the text after this sign. If there is no sign `~`, the whole
/// `template` and an empty text.
#[tactic(auto, using(std::proofs::lemmas::Str::Pattern::split_once_first))]
pub fn cut(template: &str) -> (&str, &str)
    ensures before { result.0.now ≡ before_first is_gap template.now }
    ensures after { result.1.now ≡ after_first is_gap template.now }
{
    match template.split_once('~') {
        Some(parts) => parts,
        None => (template, ""),
    }
}
