//! The whole of an input, however long.

ghost use Rattle.std.specs.Prelude.{◌≡◌, ◌++◌, ℕ, List, IfOk, IfErr, IfSome, OnOk};
ghost use Rattle.std.specs.Io.KnownBytes.{IsAtEnd};
ghost use Rattle.sci_serve.specs.Legality.{IsAll, IsUnread};

use crate::faults::SimFault;
use std::alloc::{AllocError, Global};
use std::io::{ErrorKind, Read};

/// The bytes so far and these.
fn append(kept: Vec<u8>, bytes: &[u8]) -> Result<Vec<u8>, AllocError>
    ensures { IfOk result (λ now. (seen : List ℕ) → IsAll kept seen → IsAll now (seen ++ bytes.now)) }
{
    let mut input = kept;
    input.extend_from_slice(bytes)?;
    Ok(input)
}

/// Reads to the end. Its only limit is memory.
pub fn read_whole<R: Read>(alloc: Global, reader: &mut R) -> Result<Vec<u8>, SimFault>
    ensures read { IfOk result (λ v. IfSome (R.remaining reader.old) (λ input. v.items ≡ input)) }
    ensures end { OnOk result (IsAtEnd (R.remaining reader.new)) }
    ensures err { IfErr result IsUnread }
{
    let mut kept = Vec::new(alloc);
    let mut buffer = [0u8; 4096];
    for _ in 0..u64::MAX {
        match reader.read(&mut buffer) {
            Ok(0) => return Ok(kept),
            Ok(count) => kept = append(kept, &buffer[..count])?,
            Err(error) if error.kind() == ErrorKind::Interrupted => {}
            Err(_) => return Err(SimFault::CannotRead),
        }
    }
    Err(SimFault::CannotRead)
}
