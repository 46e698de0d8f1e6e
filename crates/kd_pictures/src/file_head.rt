//! The beginning of a file with pages, up to its title.
ghost use Rattle.kd_pictures.specs.Drawing.{Draws};
ghost use Rattle.kd_pictures.specs.FileHead.{file_head};

use crate::template::{Value, fill};
use crate::texts::HEAD;
use crate::words::Word;
use kd_language::Language;
use kd_tables::Sink;

/// Writes the beginning of a file, with the code of its language.
#[tactic(auto, unfolding(crate::specs::FileHead::file_head))]
pub fn draw_file_head<W: Sink>(sink: &mut W, language: Language)
    ensures { Draws W.taken W.has_failed sink.old sink.new (file_head language) }
{
    fill(sink, language, HEAD, &[Value::Word(Word::Language)]);
}
