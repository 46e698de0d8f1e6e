//! Writing new files. A new file is written under another name. When the file is whole, it is renamed to its own name.
ghost use Rattle.std.specs.Prelude.{◌≡◌, ◌≢◌, ◌↔◌, [], ℕ, Option, Some, Err, IfErr, IfOk, IfSome, IsSome, OnErr, OnOk, false, string_bytes};
ghost use Rattle.std.specs.Option.{option_map};
ghost use Rattle.kd_new_file.specs.NewFiles.{AddsFile, FilesByName, IsWhyNotBegun, IsWhyUnnamed, part_name};

use crate::new_file_fault::NewFileFault;
use crate::new_files::NewFiles;
use std::alloc::Global;

/// The greatest number of temporary names that are tried for an incomplete new file.
const NAMES: u8 = 100;

/// Begins a new file under another name, in the folder of `name`. Returns this other name, and the empty file.
///
/// The other name is `name`, then `.part`, then a number: the first from 1 to 100 that gives an unused name.
pub fn begin<N: NewFiles>(
    alloc: Global,
    files: &mut N,
    name: &str,
) -> Result<(String, N::Written), NewFileFault>
    ensures added { IfOk result (λ begun.
        AddsFile (N.held files.old) (N.held files.new) (string_bytes begun.0) (Some [])) }
    ensures other { IfOk result (λ begun. (number : ℕ)
        × (string_bytes begun.0 ≡ part_name name.now number)) }
    ensures empty { IfOk result
        (λ begun. N.Written.taken begun.1 ≡ option_map (λ _. []) (N.held files.old)) }
    ensures fresh { IfOk result (λ begun. N.Written.has_failed begun.1 ≡ false) }
    ensures fault { IfErr result (IsWhyNotBegun (N.held files.old) name.now) }
    ensures refused { OnErr result (N.held files.new ≡ N.held files.old) }
{
    for number in 0..NAMES {
        let Ok(other) = format!(in alloc; "{name}.part{}", number + 1) else {
            return Err(NewFileFault::NoMemory);
        };
        match files.create(other.as_str()) {
            Ok(file) => return Ok((other, file)),
            Err(NewFileFault::Taken) => {}
            Err(fault) => return Err(fault),
        }
    }
    Err(NewFileFault::Device)
}

/// Renames the new file `file` to `name`. The file was begun under the name `other`, and is whole.
///
/// Returns `Taken` if there already is a file called `name`. After a fault, the new file has no name, and is lost.
pub fn publish<N: NewFiles>(
    files: &mut N,
    file: N::Written,
    other: &str,
    name: &str,
) -> Result<(), NewFileFault>
    ensures published { OnOk result ((before : Option FilesByName)
        → AddsFile before (N.held files.old) other.now (Some [])
        → AddsFile before (N.held files.new) name.now (N.Written.taken file)) }
    ensures refused { OnErr result ((before : Option FilesByName)
        → AddsFile before (N.held files.old) other.now (Some [])
        → N.held files.new ≡ before) }
    ensures taken { IfSome (N.held files.old)
        (λ known. (result ≡ Err NewFileFault.Taken) ↔ IsSome (known name.now)) }
    ensures fault { IfErr result (λ fault. (before : Option FilesByName)
        → AddsFile before (N.held files.old) other.now (Some []) → other.now ≢ name.now
        → IsWhyUnnamed before name.now fault) }
{
    let done = files.link(file, other, name);
    files.remove(other);
    done
}
