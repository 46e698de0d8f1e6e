//! Reads an order that `send` accepts: its keys, and the letters of its text, part by part.
ghost use Rattle.std.specs.Prelude.{◌≡◌, ◌+◌, ◌<◌, ◌≤◌, ◌++◌, ◌∷◌, [], List, ℕ, length, take, drop};
ghost use Rattle.kd_form.specs.declared.keys.Keys.{Keys};
ghost use Rattle.kd_form.specs.Order.{IsOrder};
ghost use Rattle.kd_form.specs.PartMaking.{part_size};
ghost use Rattle.kd_form.specs.Sending.{letters_from, text_letters};
ghost use Rattle.kd_message.specs.SendPage.{HasForm};

use arrayvec::ArrayVec;
use kd_form::sending::order_head::{HeadReader, HeadStep};
use kd_form::sending::part::part_size;
use kd_form::text_bytes::{letter_of_byte, space_letter};
use kd_state::SheetDay;
use kd_tables::Letter;

/// Reads the head of `order` into `reader`, which then has the keys. Returns the order's text.
pub(crate) fn read_head<'a>(reader: &mut HeadReader, day: &SheetDay, order: &'a [u8]) -> &'a [u8]
    requires keys { reader.old.keys.items ≡ [] }
    requires line { reader.old.line.items ≡ [] }
    requires order { HasForm day.now order.now }
    ensures { (head : List ℕ) × IsOrder day.now order.now reader.new.keys.items head result.now }
{
    for (index, byte) in order.iter().enumerate() {
        match reader.take(day, *byte) {
            HeadStep::Open => (),
            HeadStep::Text => {
                let (_, text) = order.split_at(index + 1);
                return text;
            }
            HeadStep::Bad => return &[],
        }
    }
    &[]
}

/// Reads the letters of the next part from `text`; returns these letters, and the rest of `text`.
pub(crate) fn take_piece<'a>(day: &SheetDay, text: &'a [u8]) -> (ArrayVec<Letter, 500>, &'a [u8])
    ensures piece { result.0.items ≡ take (part_size day.now) (text_letters day.now text.now) }
    ensures rest { text_letters day.now result.1.now
        ≡ drop (part_size day.now) (text_letters day.now text.now) }
{
    let for_space = space_letter(day);
    let mut letters = ArrayVec::new();
    for (index, byte) in text.iter().enumerate() {
        if letters.len() == part_size(day) {
            let (_, rest) = text.split_at(index);
            return (letters, rest);
        }
        push_letter(&mut letters, &for_space, *byte);
    }
    (letters, &[])
}

/// If `byte` stands for a letter, appends this letter.
fn push_letter(letters: &mut ArrayVec<Letter, 500>, for_space: &Option<Letter>, byte: u8)
    requires { length letters.old.items < 500 }
    ensures { letters.new.items ≡ letters.old.items ++ letters_from for_space.now (byte ∷ []) }
{
    if let Some(letter) = letter_of_byte(for_space, byte) {
        letters.push(letter);
    }
}
