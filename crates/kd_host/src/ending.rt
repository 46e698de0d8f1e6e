//! How a program ends: the line on standard error, and the exit status.
ghost use Rattle.std.specs.Prelude.{◌≡◌};
ghost use Rattle.kd_tables.specs.Ports.{port};
ghost use Rattle.kd_host.specs.Ending.{refused_line, EndsWithLine};

use arrayvec::ArrayString;
use kd_tables::{RefusalText, Sink, put_all};

/// A line on standard error.
pub type Line = ArrayString<80>;

/// The line on standard error for the refusal `text`.
pub fn refused_line(text: RefusalText) -> Line
    ensures { result.bytes ≡ refused_line text.bytes }
{
    let mut line = Line::new();
    line.push_str("refused ");
    line.push_str(text.as_str());
    line.push_str("\n");
    line
}

/// Writes `line` to `errors`, and returns the exit status `status`.
///
/// The exit status is the same even if the line can't be written.
pub fn end_with_line<E: Sink>(line: &str, status: u8, errors: &mut E) -> u8
    ensures { EndsWithLine line.now status (port E.taken E.has_failed errors.old errors.new) result }
{
    let _ = put_all(errors, line.as_bytes());
    status
}
