//! The name of a file on a page.
ghost use Rattle.std.specs.Prelude.{◌≡◌, [], ◌∷◌, filter, if◌then◌else◌};
ghost use Rattle.kd_pictures.specs.Drawing.{Draws};
ghost use Rattle.kd_pictures.specs.Plain.{is_plain};
ghost use Rattle.kd_pictures.specs.SheetName.{sheet_name};

use crate::drawing::{draw, draw_bytes};
use kd_tables::Sink;
use std::path::Path;

/// Writes the name of the file `path`, without folder and ending.
///
/// Signs that HTML reads as markup are left out.
#[tactic(auto, unfolding(crate::specs::SheetName::sheet_name))]
pub fn draw_sheet_name<W: Sink>(sink: &mut W, path: &str)
    ensures { Draws W.taken W.has_failed sink.old sink.new (sheet_name path.now) }
{
    let stem = Path::new(path).file_stem().unwrap_or("");
    draw_plain(sink, stem.as_bytes());
}

/// Writes `text` without `<`, `>` and `&`.
fn draw_plain<W: Sink>(sink: &mut W, text: &[u8])
    ensures { Draws W.taken W.has_failed sink.old sink.new (filter is_plain text.now) }
{
    if let [byte, rest @ ..] = text {
        draw_if_plain(sink, *byte);
        draw_plain(sink, rest);
    }
}

fn draw_if_plain<W: Sink>(sink: &mut W, byte: u8)
    ensures { Draws W.taken W.has_failed sink.old sink.new (if is_plain byte then byte ∷ [] else []) }
{
    if is_plain(byte) {
        draw_bytes(sink, &[byte]);
    } else {
        draw(sink, "");
    }
}

fn is_plain(byte: u8) -> bool
    ensures { result ≡ is_plain byte }
{
    !matches!(byte, b'<' | b'>' | b'&')
}
