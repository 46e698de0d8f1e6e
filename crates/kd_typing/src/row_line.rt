//! A row of a table as a line of text.
ghost use Rattle.std.specs.Prelude.{◌≡◌};
ghost use Rattle.kd_typing.specs.TableText.{row_line};

use arrayvec::ArrayString;
use kd_tables::{Letter, push_letter};

/// A row as a line of capital letters, with an LF before it.
pub(crate) fn row_line(row: &[Letter; 26]) -> ArrayString<27>
    ensures { result.bytes ≡ row_line row.now }
{
    let mut text = ArrayString::new();
    text.push_str("\n");
    for letter in row {
        push_letter(&mut text, *letter);
    }
    text
}
