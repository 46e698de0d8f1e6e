//! The table of a Converter M-209 as text.
ghost use Rattle.std.specs.Prelude.{◌≡◌, [], ◌∷◌, ◌++◌, ◌+◌, ◌≤◌, ◌<◌, flat_map, length, map};
ghost use Rattle.arrayvec.specs.ArrayString.{array_string_len};
ghost use Rattle.kd_pictures.specs.Drawing.{Draws};
ghost use Rattle.kd_tables.specs.Text.{letters_text};
ghost use Rattle.kd_typing.specs.PinTable.{pin_table};
ghost use Rattle.kd_typing.specs.TableText.{acting_text, lines_text, pin_lines, pins_text, row_line};

use crate::pin_rows::PinRows;
use crate::row_line::row_line;
use arrayvec::ArrayString;
use kd_pictures::draw;
use kd_pictures::template::draw_letters;
use kd_tables::Sink;

impl PinRows {
    /// Writes the table as lines, with LFs between them.
    ///
    /// Each wheel has a line with a digit for each letter. The digit is 1 if the acting pin is effective while this
    /// letter shows, and otherwise 0. Then come the rows.
    pub fn draw<W: Sink>(&self, sink: &mut W)
        ensures { Draws W.taken W.has_failed sink.old sink.new
            (lines_text (pin_lines (pin_table self.now))) }
    {
        self.draw_wheels(sink);
        self.draw_rows(sink);
    }

    /// Writes the letters that the wheels show.
    pub fn draw_shown<W: Sink>(&self, sink: &mut W)
        ensures { Draws W.taken W.has_failed sink.old sink.new (letters_text self.now.letters) }
    {
        draw_letters(sink, self.letters());
    }

    fn draw_wheels<W: Sink>(&self, sink: &mut W)
        ensures { Draws W.taken W.has_failed sink.old sink.new
            (lines_text (map pins_text (pin_table self.now).pins)) }
    {
        let pins = self.pins();
        draw(sink, acting_text(&pins.w1, 15).as_str());
        draw_wheel(sink, &pins.w2, 14);
        draw_wheel(sink, &pins.w3, 13);
        draw_wheel(sink, &pins.w4, 12);
        draw_wheel(sink, &pins.w5, 11);
        draw_wheel(sink, &pins.w6, 10);
    }

    /// Writes the rows, with an LF before each.
    #[tactic(auto, using(kd_pictures::proofs::Drawings::nothing_drawn))]
    fn draw_rows<W: Sink>(&self, sink: &mut W)
        ensures { Draws W.taken W.has_failed sink.old sink.new
            (flat_map row_line (pin_table self.now).rows) }
    {
        for number in 0..64 {
            draw(sink, row_line(&self.row_at(number)).as_str());
        }
    }
}

/// Writes an LF, then the line of digits for a wheel with the pins `pins`.
fn draw_wheel<W: Sink>(sink: &mut W, pins: &[bool], offset: usize)
    requires pins { length pins.now ≤ 26 }
    requires offset { offset ≤ 26 }
    ensures { Draws W.taken W.has_failed sink.old sink.new (10 ∷ acting_text pins.now offset) }
{
    draw(sink, "\n");
    draw(sink, acting_text(pins, offset).as_str());
}

/// The digits for a wheel with the pins `pins`: for each shown letter, 1 if the acting pin is effective, and otherwise
/// 0. The acting pin is `offset` places after the letter's pin.
fn acting_text(pins: &[bool], offset: usize) -> ArrayString<26>
    requires pins { length pins.now ≤ 26 }
    requires offset { offset ≤ 26 }
    ensures { result.bytes ≡ acting_text pins.now offset }
{
    let mut text = ArrayString::new();
    for place in 0..pins.len() {
        push_digit(&mut text, pins[(place + offset) % pins.len()]);
    }
    text
}

/// Appends 1 for an effective pin, otherwise 0.
fn push_digit(text: &mut ArrayString<26>, effective: bool)
    requires { array_string_len text.old < 26 }
    ensures bytes { text.new.bytes ≡ text.old.bytes ++ pins_text (effective ∷ []) }
    ensures len { array_string_len text.new ≡ array_string_len text.old + 1 }
{
    text.push(if effective { '1' } else { '0' });
}
