//! The function `is_at_end`: it tells whether a source is at its end.
ghost use Rattle.std.specs.Prelude.{◌≡◌, ◌||◌, is_err};
ghost use Rattle.kd_tables.specs.Ports.{EndAgrees};

use super::source::Source;
use super::writing::Device;

/// Whether `source` is at its end. Tries to read one byte, and drops the byte if there is one.
pub fn is_at_end<R: Source>(source: &mut R) -> Result<bool, Device>
    ensures ends { EndAgrees (R.remaining source.old) (R.remaining source.new) result }
    ensures failed { R.has_failed source.new ≡ (R.has_failed source.old || is_err result) }
{
    let mut buffer = [0; 1];
    match source.get(&mut buffer) {
        Ok(0) => Ok(true),
        Ok(_) => Ok(false),
        Err(_) => Err(Device),
    }
}
