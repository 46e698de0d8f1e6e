//! Letters in groups of five.
ghost use Rattle.std.specs.Prelude.{◌+◌, ◌%◌, ◌<◌, ◌==◌, length};
ghost use Rattle.kd_pictures.specs.Drawing.{Draws};
ghost use Rattle.kd_pictures.specs.Fives.{fives_from, gap_text};

use crate::drawing::draw;
use crate::template::draw_letter;
use kd_tables::{Letter, Sink};

/// Writes letters, with a space after every fifth letter of their row.
///
/// `place` letters stand before these letters in the row.
pub fn draw_fives<W: Sink>(sink: &mut W, place: u8, letters: &[Letter])
    requires { place + length letters.now < 200 }
    ensures { Draws W.taken W.has_failed sink.old sink.new (fives_from place letters.now) }
{
    if let [letter, rest @ ..] = letters {
        draw_letter(sink, *letter);
        draw_gap(sink, place % 5 == 4);
        draw_fives(sink, place + 1, rest);
    }
}

fn draw_gap<W: Sink>(sink: &mut W, ends_group: bool)
    ensures { Draws W.taken W.has_failed sink.old sink.new (gap_text ends_group) }
{
    if ends_group {
        draw(sink, " ");
    } else {
        draw(sink, "");
    }
}
