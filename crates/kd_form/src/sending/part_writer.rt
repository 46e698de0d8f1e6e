//! Collects the letters of an order's text, and makes the parts of the order's form from these letters.
ghost use Rattle.std.specs.Prelude.{◌≡◌, ◌<◌, ◌≤◌, ◌+◌, ◌^◌, List, ℕ, [], ◌∷◌, ◌++◌, length, Some, slice_get};
ghost use Rattle.kd_form.specs.declared.keys.Keys.{Keys};
ghost use Rattle.kd_form.specs.PartMaking.{IsPartTextMade, part_size};
ghost use Rattle.kd_form.specs.Sending.{text_letters};
ghost use Rattle.kd_form.specs.OrderSteps.{AreSuitedKeys, AreLettersTaken, IsTextEndAnswer, IsFreshWriter};

use super::part::{make_part, part_size};
use crate::fault::FormFault;
use crate::keys::Keys;
use crate::stream::reader::Output;
use crate::text_bytes::{letter_of_byte, space_letter};
use arrayvec::ArrayVec;
use kd_state::SheetDay;
use kd_tables::Letter;

/// A writer that collects the letters of an order's text, and makes the form's parts from these letters.
#[derive(Drop)]
pub(crate) struct PartWriter {
    /// The letters collected for the next part, at most `part_size`.
    letters: ArrayVec<Letter, 500>,
    /// How many letters of the text have been read.
    count: usize,
    /// How many parts have been made.
    written: u8,
}

impl PartWriter {
    /// Creates a writer that has collected no letters.
    pub(crate) fn new() -> Self
        ensures { IsFreshWriter result }
    {
        PartWriter {
            letters: ArrayVec::new(),
            count: 0,
            written: 0,
        }
    }

    /// Takes the next byte of the text. If the byte gives a letter, hands this letter to `take_letter`.
    pub(crate) fn take(&mut self, day: &SheetDay, keys: &[Keys], byte: u8, output: &mut Output)
        requires taken { (letters sent : List ℕ) × AreLettersTaken day.now keys.now self.old letters sent
            × (length letters < 2 ^ 63) }
        requires empty { output.old.items ≡ [] }
        ensures { (letters sent : List ℕ) → AreLettersTaken day.now keys.now self.old letters sent
            → AreLettersTaken day.now keys.now self.new
            (letters ++ text_letters day.now (byte ∷ [])) (sent ++ output.new.items) }
    {
        if let Some(letter) = letter_of_byte(&space_letter(day), byte) {
            self.take_letter(day, keys, letter, output);
        }
    }

    /// Takes the next letter of the text. If the letters so far fill a part, first writes this part to `output`.
    ///
    /// The last part is left to the function `end`. After this part is full, further letters are only counted.
    fn take_letter(&mut self, day: &SheetDay, keys: &[Keys], letter: Letter, output: &mut Output)
        requires taken { (letters sent : List ℕ) × AreLettersTaken day.now keys.now self.old letters sent
            × (length letters < 2 ^ 63) }
        requires empty { output.old.items ≡ [] }
        ensures { (letters sent : List ℕ) → AreLettersTaken day.now keys.now self.old letters sent
            → AreLettersTaken day.now keys.now self.new
            (letters ++ letter ∷ []) (sent ++ output.new.items) }
    {
        self.count += 1;
        if self.letters.len() < part_size(day) {
            self.letters.push(letter);
        } else if usize::from(self.written) + 1 < keys.len() {
            self.write_part(day, keys, output);
            self.letters.push(letter);
        }
    }

    /// Writes the last part to `output`, at the end of the text.
    ///
    /// Refuses a text without letters. Refuses a text that needs more or fewer parts than the order has lines of keys.
    pub(crate) fn end(
        &mut self,
        day: &SheetDay,
        keys: &[Keys],
        output: &mut Output,
    ) -> Result<(), FormFault>
        requires taken { (letters sent : List ℕ) × AreLettersTaken day.now keys.now self.old letters sent }
        requires empty { output.old.items ≡ [] }
        ensures { (letters sent : List ℕ) → AreLettersTaken day.now keys.now self.old letters sent
            → IsTextEndAnswer day.now keys.now letters sent output.new.items result }
    {
        if self.count == 0 {
            return Err(FormFault::EmptyText);
        }
        let needed = self.count.div_ceil(part_size(day));
        let given = keys.len();
        if needed != given {
            return Err(FormFault::PartKeys { needed, given });
        }
        self.write_part(day, keys, output);
        Ok(())
    }

    /// Writes the next part to `output`. The part's text is the letters collected so far.
    fn write_part(&mut self, day: &SheetDay, keys: &[Keys], output: &mut Output)
        requires keys { AreSuitedKeys day.now keys.now }
        requires another { self.old.written < length keys.now }
        requires few { length self.old.letters.items ≤ part_size day.now }
        requires empty { output.old.items ≡ [] }
        ensures made { (k : Keys) × (slice_get keys.now self.old.written ≡ Some k)
            × IsPartTextMade day.now (self.old.written + 1) (length keys.now) k
            self.old.letters.items output.new.items }
        ensures letters { self.new.letters.items ≡ [] }
        ensures count { self.new.count ≡ self.old.count }
        ensures written { self.new.written ≡ self.old.written + 1 }
    {
        let part = self.written + 1;
        let parts = keys.len() as u8;
        let keys = &keys[usize::from(self.written)];
        let text = make_part(day, part, parts, keys, self.letters.as_slice());
        output
            .try_extend_from_slice(text.as_str().as_bytes())
            .unwrap();
        self.letters.clear();
        self.written = part;
    }
}
