//! Pairs of letters that cables exchange.
ghost use Rattle.std.specs.Prelude.{◌≡◌, ◌↔◌, ◌<◌, ◌∷◌, [], IsTrue, All};
ghost use Rattle.kd_tables.specs.Pairs.{NoLetterTwice, are_new_and_distinct, has_letter, letters_in_pairs};

use super::letter::Letter;

/// Whether all letters in `pairs` are different.
pub fn have_no_letter_twice(pairs: &[(Letter, Letter)]) -> bool
    ensures once { IsTrue result ↔ NoLetterTwice pairs.now }
    ensures letters { IsTrue result → All (λ letter. letter < 26) (letters_in_pairs pairs.now) }
{
    match pairs {
        [pair, rest @ ..] => is_apart(*pair, rest) && have_no_letter_twice(rest),
        [] => true,
    }
}

/// Whether the letters of `pair` differ from each other, and from all letters in `pairs`.
pub fn is_apart(pair: (Letter, Letter), pairs: &[(Letter, Letter)]) -> bool
    ensures apart { result ≡ are_new_and_distinct (pair.0 ∷ pair.1 ∷ []) (letters_in_pairs pairs.now) }
    ensures letters { (pair.0 < 26) × (pair.1 < 26) }
{
    let (one, other) = (pair.0.index(), pair.1.index());
    !(other == one || is_in_pairs(pair.0, pairs)) && !is_in_pairs(pair.1, pairs)
}

fn is_in_pairs(letter: Letter, pairs: &[(Letter, Letter)]) -> bool
    ensures { result ≡ has_letter (letters_in_pairs pairs.now) letter }
{
    match pairs {
        [pair, rest @ ..] => pair.0 == letter || pair.1 == letter || is_in_pairs(letter, rest),
        [] => false,
    }
}
