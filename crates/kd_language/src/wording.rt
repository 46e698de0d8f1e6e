//! `Wording`: the language in which texts are written, and the memory for them.
ghost use Rattle.std.specs.Prelude.{◌≡◌, map, IfOk};
ghost use Rattle.std.specs.String.{string_bytes};
ghost use Rattle.kd_language.specs.Language.{in_language};
ghost use Rattle.kd_language.specs.Template.{filled};

use crate::language::{Language, Text};
use crate::template::push_filled;
use std::alloc::{AllocError, Global};

/// The language in which texts are written, and the memory for them.
#[derive(Clone, Copy)]
pub struct Wording {
    pub alloc: Global,
    pub language: Language,
}

impl Wording {
    /// A copy of `text` in the wording's language, with values in place of its signs `~`: the first value for the first
    /// sign, and so on.
    pub fn fill(self, text: Text, values: &[&str]) -> Result<String, AllocError>
        ensures { IfOk result (λ words. string_bytes words
            ≡ filled (in_language self.language text.entry.0.now text.entry.1.now)
            (map (λ value. value.now) values.now)) }
    {
        let mut words = String::new(self.alloc);
        push_filled(&mut words, self.language.text(text), values)?;
        Ok(words)
    }
}
