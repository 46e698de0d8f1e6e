//! The words for groups of a body. The other station is asked for these groups.
ghost use Rattle.std.specs.Prelude.{◌≡◌, ◌+◌, ◌≤◌, length};
ghost use Rattle.kd_pictures.specs.Drawing.{Draws};
ghost use Rattle.kd_part_sheet.specs.Rows.{pieces};
ghost use Rattle.kd_message.specs.TextSheet.{group_words, groups_words, has_lost, lost_groups, range_words, run_length};

use crate::text_sheet::draw_count;
use crate::texts::{GROUP, GROUPS, TO_GROUP};
use kd_language::Language;
use kd_part_sheet::cutting::first_piece;
use kd_part_sheet::markup::COMMA;
use kd_pictures::{draw, draw_in};
use kd_tables::{Letter, Sink};

/// Whether one of the letters is lost.
pub(crate) fn has_lost(letters: &[Option<Letter>]) -> bool
    ensures { result ≡ has_lost letters.now }
{
    match letters {
        [letter, rest @ ..] => letter.is_none() || has_lost(rest),
        [] => false,
    }
}

/// Writes which groups of `letters` have lost letters. `first` stands before the first named group.
///
/// If `before` is true, the group just before `letters` has lost letters, too. In this case, an earlier call has named
/// this group and the groups with lost letters at the start of `letters`, and this call leaves them out.
pub(crate) fn draw_lost_groups<W: Sink>(
    sink: &mut W,
    language: Language,
    first: &str,
    before: bool,
    number: usize,
    letters: &[Option<Letter>],
)
    requires { number + length letters.now ≤ 1000 }
    ensures { Draws W.taken W.has_failed sink.old sink.new
        (lost_groups language first.now before number (pieces 5 letters.now)) }
{
    if !letters.is_empty() {
        let (group, rest) = first_piece(letters, 5);
        let is_lost = has_lost(group);
        if is_lost && !before {
            draw(sink, first);
            draw_range(sink, language, number, run_length(rest));
            draw_lost_groups(sink, language, COMMA, true, number + 1, rest);
        } else {
            draw_lost_groups(sink, language, first, is_lost, number + 1, rest);
        }
    }
}

/// How many groups at the start of `letters` have lost letters, up to the first group with no lost letter.
fn run_length(letters: &[Option<Letter>]) -> usize
    ensures groups { result ≡ run_length (pieces 5 letters.now) }
    ensures few { result ≤ length letters.now }
{
    if letters.is_empty() {
        return 0;
    }
    let (group, rest) = first_piece(letters, 5);
    if has_lost(group) {
        run_length(rest) + 1
    } else {
        0
    }
}

/// Writes the words for the group `number` and the `more` groups after it, such as *groups 3 to 5*.
fn draw_range<W: Sink>(sink: &mut W, language: Language, number: usize, more: usize)
    requires { number + more ≤ 1000 }
    ensures { Draws W.taken W.has_failed sink.old sink.new (range_words language number more) }
{
    if more == 0 {
        draw_group_words(sink, language, number);
    } else {
        draw_groups_words(sink, language, number, number + more);
    }
}

/// Writes the words for the group `number`.
pub(crate) fn draw_group_words<W: Sink>(sink: &mut W, language: Language, number: usize)
    ensures { Draws W.taken W.has_failed sink.old sink.new (group_words language number) }
{
    draw_in(sink, language, GROUP);
    draw_count(sink, number);
}

/// Writes the words for the groups from `first` to `last`.
pub(crate) fn draw_groups_words<W: Sink>(
    sink: &mut W,
    language: Language,
    first: usize,
    last: usize,
)
    ensures { Draws W.taken W.has_failed sink.old sink.new (groups_words language first last) }
{
    draw_in(sink, language, GROUPS);
    draw_count(sink, first);
    draw_in(sink, language, TO_GROUP);
    draw_count(sink, last);
}
