//! The table of a rotor machine as text.
ghost use Rattle.std.specs.Prelude.{◌≡◌, ◌-◌, ◌%◌, flat_map, length, map};
ghost use Rattle.kd_pictures.specs.Drawing.{Draws};
ghost use Rattle.kd_tables.specs.Text.{letters_text};
ghost use Rattle.kd_typing.specs.RotorTable.{core_row, core_size, letters_with_number, rotor_table};
ghost use Rattle.kd_typing.specs.TableText.{digits_text, lines_text, rotor_lines, row_line};

use crate::rotor_rows::RotorRows;
use crate::row_line::row_line;
use arrayvec::ArrayString;
use kd_pictures::draw;
use kd_pictures::template::draw_letter;
use kd_state::SheetWheel;
use kd_tables::{Letter, Sink};

impl RotorRows {
    /// Writes the table as lines, with LFs between them.
    ///
    /// The first line has a digit for each pair of letters in the middle and the right window. The digit says how many
    /// wheels move at the next key press. Then come the rows of the right wheel, from A on. Last come the rows of the
    /// core, in the alphabetical order of the core's window letters.
    #[tactic(auto, using(crate::proofs::TableTexts::rotor_text_is))]
    pub fn draw<W: Sink>(&self, sink: &mut W)
        ensures { Draws W.taken W.has_failed sink.old sink.new
            (lines_text (rotor_lines (rotor_table self.now))) }
    {
        draw(sink, self.steps_line().as_str());
        self.draw_into(sink);
        self.draw_core(sink);
    }

    /// Writes the window letters.
    pub fn draw_shown<W: Sink>(&self, sink: &mut W)
        ensures { Draws W.taken W.has_failed sink.old sink.new (letters_text self.now.window) }
    {
        draw_windows(sink, self.wheels());
    }

    /// A line with a digit for each pair of letters in the middle and the right window. The digit says how many wheels
    /// move at the next key press.
    fn steps_line(&self) -> ArrayString<676>
        ensures { result.bytes ≡ digits_text (rotor_table self.now).steps }
    {
        let mut text = ArrayString::new();
        for number in 0..676_u16 {
            let steps = self.steps_at(letter(number / 26), letter(number));
            text.push(char::from(b'0' + steps));
        }
        text
    }

    /// Writes the rows of the right wheel, with an LF before each.
    #[tactic(auto, using(crate::proofs::TableTexts::one_more, kd_pictures::proofs::Drawings::nothing_drawn))]
    fn draw_into<W: Sink>(&self, sink: &mut W)
        ensures { Draws W.taken W.has_failed sink.old sink.new
            (flat_map row_line (rotor_table self.now).into) }
    {
        for letter in 0..26 {
            draw(sink, row_line(&self.into_at(Letter::at(letter))).as_str());
        }
    }

    /// Writes the rows of the core, with an LF before each.
    #[tactic(auto, using(kd_pictures::proofs::Drawings::nothing_drawn), unfolding(crate::specs::RotorTable::core_rows))]
    fn draw_core<W: Sink>(&self, sink: &mut W)
        ensures { Draws W.taken W.has_failed sink.old sink.new
            (flat_map row_line (rotor_table self.now).core) }
    {
        for number in 0..self.core_size() {
            draw(sink, row_line(&self.core_row(number)).as_str());
        }
    }

    /// Row `number` of the core, counted from 0.
    fn core_row(&self, number: u16) -> [Letter; 26]
        ensures { result ≡ core_row self.now (letters_with_number (length self.now.wheels - 1) number) }
    {
        let letters = three_letters(number);
        let letters = &letters[..];
        self.core_at(&letters[4 - self.slots()..])
    }

    /// How many rows the table has for the core.
    fn core_size(&self) -> u16
        ensures { result ≡ core_size self.now }
    {
        if self.slots() == 3 { 676 } else { 17_576 }
    }
}

/// Writes the window letter of each wheel.
fn draw_windows<W: Sink>(sink: &mut W, wheels: &[SheetWheel])
    ensures { Draws W.taken W.has_failed sink.old sink.new
        (letters_text (map (λ w. w.letter) wheels.now)) }
{
    if let [wheel, rest @ ..] = wheels {
        draw_letter(sink, wheel.letter);
        draw_windows(sink, rest);
    }
}

/// The last three digits of `number` in base 26, as letters: A for 0, and Z for 25.
fn three_letters(number: u16) -> [Letter; 3]
    ensures { result ≡ letters_with_number 3 number }
{
    [letter(number / 676), letter(number / 26), letter(number)]
}

/// The last digit of `number` in base 26, as a letter: A for 0, and Z for 25.
fn letter(number: u16) -> Letter
    ensures { result ≡ number % 26 }
{
    Letter::at((number % 26) as u8)
}
