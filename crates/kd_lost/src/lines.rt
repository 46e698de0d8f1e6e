//! The lines of a form.
ghost use Rattle.std.specs.Prelude.{◌≡◌, ◌+◌, ◌≤◌, length};
ghost use Rattle.kd_lost.specs.Lines.{heading_line, line_breaks};
ghost use Rattle.kd_lost.specs.Tidy.{tidied};

use crate::tidy::tidied;

/// The line on which the first part of `form` begins, counted from 1.
pub(crate) fn heading_line(form: &[u8]) -> usize
    ensures line { result ≡ heading_line form.now }
    ensures within { result + length (tidied form.now) ≤ length form.now + 1 }
{
    let parts = tidied(form);
    prove!(parts.len() <= form.len());
    let (before, _) = form.split_at(form.len() - parts.len());
    line_breaks(before) + 1
}

/// How many line ends are in `bytes`.
pub(crate) fn line_breaks(bytes: &[u8]) -> usize
    ensures breaks { result ≡ line_breaks bytes.now }
    ensures few { result ≤ length bytes.now }
{
    bytes.iter().filter(|byte| **byte == b'\n').count()
}
