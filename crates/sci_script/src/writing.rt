//! Writing a text, with what a failed write leaves.

ghost use Rattle.std.specs.Prelude.{◌≡◌, ◌<◌, ◌≤◌, ℕ, length, take, List, IfOk, OnOk, OnErr};
ghost use Rattle.std.specs.Io.KnownBytes.{Appends, Keeps};

use std::io::{ErrorKind, Write};

/// How many interrupted writes in a row are tried again.
const TRIES: u32 = 2_097_152;

/// The writer failed, or took no byte.
#[derive(Clone, Copy, Debug, PartialEq, Eq, Drop)]
pub struct WriteFailed;

/// Writes some of the bytes, and says how many; an interrupted write is tried again.
fn put_some<W: Write>(out: &mut W, bytes: &[u8]) -> Result<usize, WriteFailed>
    ensures some { IfOk result (λ n. (0 < n) × (n ≤ length bytes.now)) }
    ensures ok { IfOk result (λ n. Appends (W.contents out.old) (W.contents out.new) (take n bytes.now)) }
    ensures err { OnErr result (Keeps (W.contents out.old) (W.contents out.new)) }
{
    for _ in 0..TRIES {
        match out.write(bytes) {
            Ok(0) => return Err(WriteFailed),
            Ok(count) => return Ok(count),
            Err(error) if error.kind() == ErrorKind::Interrupted => {}
            Err(_) => return Err(WriteFailed),
        }
    }
    Err(WriteFailed)
}

/// Writes all of the bytes; on a failure it has written a front of them, and not all.
pub fn put<W: Write>(out: &mut W, bytes: &[u8]) -> Result<(), WriteFailed>
    ensures ok { OnOk result (Appends (W.contents out.old) (W.contents out.new) bytes.now) }
    ensures err { OnErr result ((n : ℕ) × (n < length bytes.now) × Appends (W.contents out.old) (W.contents out.new) (take n bytes.now)) }
{
    let mut done = 0;
    while done < bytes.len() {
        done += put_some(out, &bytes[done..])?;
    }
    Ok(())
}
