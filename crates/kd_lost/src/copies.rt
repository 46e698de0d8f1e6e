//! The keys of a Converter's part, from the copies of its key letters.
ghost use Rattle.std.specs.Prelude.{◌≡◌, ◌≤◌, ◌+◌, ◌++◌, ℕ, List, length, All, Any, Contains, None, Some, Ok, Err};
ghost use Rattle.std.specs.Prelude.{◌↔◌, MatchOption, MatchResult, IsTrue};
ghost use Rattle.std.specs.Bool.{OnTrue, OnFalse};
ghost use Rattle.kd_lost.specs.Lost.{IsLetterFor};
ghost use Rattle.kd_lost.specs.Copies.{IsKeyLetterAnswer, AreKeyLettersAnswer, IsKeysAnswer, chosen_copies};

use crate::damage::PartDamage;
use arrayvec::ArrayVec;
use kd_form::keys::PinKeys;
use kd_tables::Letter;

/// Puts the keys together from their two copies. The copy `start` stands before the text, and the copy `end` stands
/// after the text.
pub(crate) fn keys_of_copies(
    start: &[Option<Letter>],
    end: &[Option<Letter>],
) -> Result<PinKeys, PartDamage>
    requires start { length start.now ≡ 8 }
    requires end { length end.now ≡ 8 }
    ensures { IsKeysAnswer start.now end.now result }
{
    let chosen = key_letter(0, &chosen_copies(start, end))?;
    let mut external = ArrayVec::new();
    push_key_letters(&mut external, 1, &start[2..], &end[2..])?;
    Ok(PinKeys {
        chosen,
        external: six_letters(external.as_slice()),
    })
}

/// The four copies of the chosen letter: the first two letters of `start`, and the first two letters of `end`.
fn chosen_copies(start: &[Option<Letter>], end: &[Option<Letter>]) -> [Option<Letter>; 4]
    requires start { length start.now ≡ 8 }
    requires end { length end.now ≡ 8 }
    ensures { result ≡ chosen_copies start.now end.now }
{
    [start[0], start[1], end[0], end[1]]
}

/// Six letters as an array.
fn six_letters(letters: &[Letter]) -> [Letter; 6]
    requires { length letters.now ≡ 6 }
    ensures { result ≡ letters.now }
{
    <[Letter; 6]>::try_from(letters).unwrap()
}

/// Appends the key letters with the numbers `number`, `number + 1` and so on. Each has one copy in `start`, and one
/// copy at the same place of `end`.
fn push_key_letters(
    letters: &mut ArrayVec<Letter, 6>,
    number: u8,
    start: &[Option<Letter>],
    end: &[Option<Letter>],
) -> Result<(), PartDamage>
    requires room { length letters.old.items + length start.now ≤ 6 }
    requires numbers { number + length start.now ≤ 7 }
    ensures { MatchResult result
        (λ _. (more : List ℕ) × AreKeyLettersAnswer number start.now end.now (Ok more)
        × (letters.new.items ≡ letters.old.items ++ more))
        (λ damage. AreKeyLettersAnswer number start.now end.now (Err damage)) }
{
    if let [one, start @ ..] = start
        && let [other, end @ ..] = end
    {
        let letter = key_letter(number, &[*one, *other])?;
        letters.push(letter);
        return push_key_letters(letters, number + 1, start, end);
    }
    Ok(())
}

/// Key letter `number`, from all its copies. The error says why the copies give no letter.
fn key_letter(number: u8, copies: &[Option<Letter>]) -> Result<Letter, PartDamage>
    ensures { IsKeyLetterAnswer number copies.now result }
{
    let Some(letter) = first_received(copies) else {
        return Err(PartDamage::KeyLetterLost(number));
    };
    if has_other(copies, letter) {
        return Err(PartDamage::CopiesDiffer(number));
    }
    Ok(letter)
}

/// The first letter of `copies` that wasn't lost.
fn first_received(copies: &[Option<Letter>]) -> Option<Letter>
    ensures { MatchOption result
        (All (λ got. got ≡ None) copies.now)
        (λ letter. Contains copies.now (Some letter)) }
{
    for got in copies {
        if let Some(letter) = got {
            return Some(*letter);
        }
    }
    None
}

/// Whether `copies` has a received letter other than `letter`.
fn has_other(copies: &[Option<Letter>], letter: Letter) -> bool
    ensures other { OnTrue result (Any (λ got. ¬ (IsLetterFor got letter)) copies.now) }
    ensures none { OnFalse result (All (λ got. IsLetterFor got letter) copies.now) }
{
    for got in copies {
        if !is_letter_for(got, letter) {
            return true;
        }
    }
    false
}

/// Whether the received letter `got` is lost, or equals `letter`.
pub(crate) fn is_letter_for(got: &Option<Letter>, letter: Letter) -> bool
    ensures { IsTrue result ↔ IsLetterFor got.now letter }
{
    prove!(letter.index() < 26);
    match got {
        Some(got) => *got == letter,
        None => true,
    }
}
