//! The function `put_all`, which writes all bytes to a sink, and the error `Device`.
ghost use Rattle.std.specs.Prelude.{◌≡◌, ◌||◌, is_err};
ghost use Rattle.kd_tables.specs.Refusals.{refusal_name};
ghost use Rattle.kd_tables.specs.Writing.{Writes};

use super::failed::Failed;
use super::sink::Sink;
use crate::refusal::{Refusal, RefusalText};
use thiserror::Error;

/// A source, a sink or a file failed.
#[derive(Clone, Copy, Debug, PartialEq, Eq, Error)]
#[error("{}", self.text())]
pub struct Device;

impl Device {
    /// The text of the refusal: `6 Device`.
    pub fn text(&self) -> RefusalText
        ensures { result.bytes ≡ refusal_name Refusal.Device }
    {
        Refusal::Device.text()
    }
}

/// Writes all `bytes` to `sink`, with as many calls of `put` as are needed.
///
/// If a `put` fails, the sink has taken a prefix of `bytes`, but not all of them.
#[tactic(auto, using(crate::proofs::SeveralPuts::takes_more, crate::proofs::SeveralPuts::still_failed))]
pub fn put_all<W: Sink>(sink: &mut W, bytes: &[u8]) -> Result<(), Device>
    ensures text { Writes (W.taken sink.old) (W.taken sink.new) bytes.now result }
    ensures failed { W.has_failed sink.new ≡ (W.has_failed sink.old || is_err result) }
{
    let mut done = 0;
    while done < bytes.len() {
        match sink.put(&bytes[done..]) {
            Ok(count) => done += count,
            Err(Failed) => return Err(Device),
        }
    }
    Ok(())
}
