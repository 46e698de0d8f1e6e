//! Reads the body of a part of a form byte by byte.
ghost use Rattle.std.specs.Prelude.{codes, ◌≡◌, ◌≢◌, ◌↔◌, ◌<◌, ◌≤◌, ℕ, List, [], ◌∷◌, ◌++◌, length, take};
ghost use Rattle.std.specs.Prelude.{IsTrue, OnErr, OnOk};
ghost use Rattle.std.specs.Option.{option_to_list};
ghost use Rattle.kd_tables.specs.Text.{is_text_byte};
ghost use Rattle.kd_form.specs.FormParts.{IsHeading};
ghost use Rattle.kd_form.specs.FormSteps.{HoldsBody, IsDecipherAnswer};

use super::body_cipher::decipher_body;
use super::plaintext::plaintext_bytes;
use crate::bounded_list::push_if_room;
use crate::fault::FormFault;
use crate::heading::Heading;
use crate::stream::reader::Output;
use crate::text_bytes::letter_of_byte;
use arrayvec::ArrayVec;
use kd_state::SheetDay;
use kd_tables::{Letter, is_word};

/// The greatest number of letters of a body that the reader keeps.
///
/// A body has at most 520 letters. One letter more shows that the body is too long. Four letters more may be the `PART`
/// of the next heading.
const KEPT_LETTERS: usize = 525;

/// The number of letters in `PART`, the beginning of a heading line.
///
/// If a heading line follows a body, the reader first keeps these letters together with the body's letters.
pub(crate) const HEADING_LETTERS: usize = 4;

/// The greatest number of bytes of a line that the reader keeps: enough to recognize a heading line.
const LINE_START: usize = 6;

/// The body of a part of a form, as far as it has been read.
#[derive(Drop)]
pub(crate) struct PartBody {
    /// The part's heading.
    pub(crate) heading: Heading,
    /// The first letters of the body, at most `KEPT_LETTERS`.
    pub(crate) letters: ArrayVec<Letter, KEPT_LETTERS>,
    /// The first bytes of the current line, at most `LINE_START`.
    pub(crate) line: ArrayVec<u8, LINE_START>,
}

impl PartBody {
    /// Creates an empty body after `heading`.
    pub(crate) fn new(heading: Heading) -> PartBody
        ensures heading { result.heading ≡ heading }
        ensures letters { result.letters.items ≡ [] }
        ensures line { result.line.items ≡ [] }
    {
        PartBody {
            heading,
            letters: ArrayVec::new(),
            line: ArrayVec::new(),
        }
    }

    /// Whether `byte` is the digit after the `PART ` of the next heading line.
    pub(crate) fn is_next_heading_digit(&self, byte: u8) -> bool
        ensures { IsTrue result ↔ ((self.now.line.items ≡ codes "PART ") × (48 ≤ byte) × (byte ≤ 57)) }
    {
        byte.is_ascii_digit() && is_word(self.line.as_slice(), "PART ")
    }

    /// Takes the next byte of the body: a capital letter, a space, CR or LF.
    pub(crate) fn push(&mut self, byte: u8)
        requires { IsTrue (is_text_byte byte) }
        ensures heading { self.new.heading ≡ self.old.heading }
        ensures body { (s : _) (part body : List ℕ) → HoldsBody s self.old part body
            → HoldsBody s self.new (part ++ byte ∷ []) (body ++ byte ∷ []) }
    {
        keep_letter(&mut self.letters, letter_of_byte(&None, byte));
        keep_byte(&mut self.line, byte);
    }

    /// Deciphers the body's letters into `output`, without the last `others` letters.
    ///
    /// The last `others` letters belong to the next heading line. Not inlined: otherwise every byte read would pay for
    /// this function's stack frame.
    #[inline(never)]
    pub(crate) fn decipher_into(
        &self,
        day: &SheetDay,
        others: usize,
        output: &mut Output,
    ) -> Result<(), FormFault>
        requires heading { IsHeading day.now self.now.heading }
        requires some { others ≤ length self.now.letters.items }
        requires few { others ≤ 4 }
        ensures given { IsDecipherAnswer day.now self.now others output.new.items result }
        ensures few { OnOk result (length output.new.items ≤ 500) }
        ensures unchanged { OnErr result (output.new ≡ output.old) }
    {
        let letters = self.letters.as_slice();
        let (letters, _) = letters.split_at(letters.len() - others);
        let letters = decipher_body(day, &self.heading, letters)?;
        *output = plaintext_bytes(day, letters.as_slice());
        Ok(())
    }
}

/// Appends `letter`, if there is a letter and room for it.
fn keep_letter(letters: &mut ArrayVec<Letter, KEPT_LETTERS>, letter: Option<Letter>)
    ensures { letters.old.items ≡ take 525 letters.old.items
        → letters.new.items ≡ take 525 (letters.old.items ++ option_to_list letter) }
{
    if let Some(letter) = letter {
        push_if_room(letters, letter);
    }
}

/// Appends `byte` to `line` if there is room. An LF empties `line`, because a new line begins.
///
/// Only the first six bytes of a line are stored. For most bytes nothing is stored, so the next byte needn't wait for a
/// store.
fn keep_byte(line: &mut ArrayVec<u8, LINE_START>, byte: u8)
    ensures ended { byte ≡ 10 → line.new.items ≡ [] }
    ensures longer { byte ≢ 10 → line.new.items ≡ take 6 (line.old.items ++ byte ∷ []) }
{
    if byte == b'\n' {
        line.clear();
    } else {
        push_if_room(line, byte);
    }
}
