//! The words that say what is wrong with a value. The number of the wrong list item stands before them.
ghost use Rattle.std.specs.Prelude.{◌≡◌, ◌++◌, codes, IfOk};
ghost use Rattle.std.specs.String.{string_bytes};
ghost use Rattle.kd_findings.specs.Texts.{item_words};

use crate::findings::Explanation;
use crate::words::push_item;
use std::alloc::{AllocError, Global};

/// The words after the key's name in a fault's line: the number of the wrong item, if it is known, and what is wrong.
#[tactic(auto, using(std::proofs::Common::append_assoc))]
pub fn wrong_words(alloc: Global, explanation: &Explanation) -> Result<String, AllocError>
    ensures { IfOk result (λ words. string_bytes words
        ≡ item_words explanation.now.item ++ codes ": " ++ string_bytes explanation.now.words) }
{
    let mut words = String::new(alloc);
    push_item(&mut words, explanation.item)?;
    words.push_str(": ")?;
    words.push_str(explanation.words.as_str())?;
    Ok(words)
}
