//! The law of files in memory: no read of a file in memory fails.
ghost use Rattle.std.specs.Prelude.{◌≡◌, false};

use crate::files::Files;
use crate::memory_files::{MemoryFile, MemoryFiles};
use kd_tables::Source;

/// No read of a file in memory fails.
///
/// So no command that reads files in memory stops because a read of a file failed.
pub fn files_in_memory_never_fail()
    ensures file { (file : _) → ⟦<MemoryFile<'static> as Source>⟧.has_failed file ≡ false }
    ensures returned { (f : _) → (⟦<MemoryFiles<'static> as Files<'static>>⟧.returned f).failed ≡ false }
{}
