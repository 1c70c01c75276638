//! The whole of an input, up to a limit.

ghost use Rattle.std.specs.Prelude.{◌≡◌, ◌<◌, ◌≤◌, ◌++◌, ℕ, List, length, IfOk, IfErr, IfSome, OnOk};
ghost use Rattle.std.specs.Io.KnownBytes.{IsAtEnd};
ghost use Rattle.sci_serve.specs.Input.{IsKept, IsReadFault, IsToldInTime};

use crate::faults::SimFault;
use std::alloc::{AllocError, Global};
use std::io::{ErrorKind, Read};

/// How many bytes an input may have, where no other limit is given.
pub const INPUT_LIMIT: usize = 1_048_576;

/// What is kept of the bytes so far and these: all of them, or nothing past the limit.
fn keep(limit: usize, kept: Option<Vec<u8>>, bytes: &[u8]) -> Result<Option<Vec<u8>>, AllocError>
    ensures { IfOk result (λ now. (seen : List ℕ) → IsKept limit kept seen → IsKept limit now (seen ++ bytes.now)) }
{
    let Some(mut input) = kept else {
        return Ok(None);
    };
    if input.len() + bytes.len() > limit {
        return Ok(None);
    }
    input.extend_from_slice(bytes)?;
    Ok(Some(input))
}

/// Reads to the end. Bytes past the limit are dropped, and the input is then refused with 23, at its end. An input that
/// hasn't ended after twice as many reads as it may have bytes, or as the common limit has where that is more, can't be read.
pub fn read_input<R: Read>(alloc: Global, limit: usize, reader: &mut R) -> Result<Vec<u8>, SimFault>
    ensures read { IfOk result (λ v. IfSome (R.remaining reader.old) (λ input. v.items ≡ input)) }
    ensures short { IfOk result (λ v. length v.items ≤ limit) }
    ensures end { OnOk result (IsAtEnd (R.remaining reader.new)) }
    ensures err { IfErr result (λ e. IfSome (R.remaining reader.old) (IsReadFault limit e)) }
    ensures in_time { IfErr result (λ e. IsToldInTime e (R.remaining reader.new)) }
{
    let mut kept = Some(Vec::new(alloc));
    let mut buffer = [0u8; 4096];
    for _ in 0..limit.max(INPUT_LIMIT).saturating_mul(2) {
        match reader.read(&mut buffer) {
            Ok(0) => {
                return match kept {
                    Some(input) => Ok(input),
                    None => Err(SimFault::InputTooLong),
                };
            }
            Ok(count) => kept = keep(limit, kept, &buffer[..count])?,
            Err(error) if error.kind() == ErrorKind::Interrupted => {}
            Err(_) => return Err(SimFault::CannotRead),
        }
    }
    Err(SimFault::CannotRead)
}
