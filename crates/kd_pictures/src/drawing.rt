//! Writes texts to a sink that hasn't failed.
ghost use Rattle.kd_pictures.specs.Drawing.{Draws};
ghost use Rattle.kd_language.specs.Language.{in_language};

use kd_language::{Language, Text};
use kd_tables::{Sink, put_all};

/// If `sink` hasn't failed, writes `text` to it.
pub fn draw<W: Sink>(sink: &mut W, text: &str)
    ensures { Draws W.taken W.has_failed sink.old sink.new text.now }
{
    draw_bytes(sink, text.as_bytes());
}

/// If `sink` hasn't failed, writes `bytes` to it.
#[tactic(auto, using(crate::proofs::Drawings::Draws_put, crate::proofs::Drawings::Draws_none))]
pub(crate) fn draw_bytes<W: Sink>(sink: &mut W, bytes: &[u8])
    ensures { Draws W.taken W.has_failed sink.old sink.new bytes.now }
{
    if !sink.failed() {
        let _ = put_all(sink, bytes);
    }
}

/// If `sink` hasn't failed, writes `text` to it in `language`.
pub fn draw_in<W: Sink>(sink: &mut W, language: Language, text: Text)
    ensures { Draws W.taken W.has_failed sink.old sink.new
        (in_language language text.entry.0.now text.entry.1.now) }
{
    draw(sink, language.text(text));
}
