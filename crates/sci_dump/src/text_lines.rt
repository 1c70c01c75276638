//! Lines of text from a reader, of which a bounded part is kept.

ghost use Rattle.std.specs.Prelude.{◌≡◌, ◌≤◌, ℕ, List, Option, true, false, IfOk, IfErr, IfSome, vec_len};
ghost use Rattle.sci_dump.specs.Streams.{Holds, IsFront, IsOutside};

use crate::streams::StreamFault;
use std::io::{self, BufRead, ErrorKind};

/// How many bytes of a line of text are kept: a row has fewer.
pub const ROW_LIMIT: usize = 1024;

/// Keeps more bytes of a line of text, of those that the reader has at hand. True where all that is to be kept of the line is.
fn append<R: BufRead>(line: &mut Vec<u8>, reader: &mut R) -> io::Result<bool>
    requires { vec_len line.old ≤ 1024 }
    ensures few { IfOk result (λ _. vec_len line.new ≤ 1024) }
    ensures more { IfOk result (λ is_kept. is_kept ≡ false → (had : Option (List ℕ)) → IsFront had (R.remaining reader.old) line.old.items
        → IsFront had (R.remaining reader.new) line.new.items) }
    ensures all { IfOk result (λ is_kept. is_kept ≡ true → (had : Option (List ℕ)) → IsFront had (R.remaining reader.old) line.old.items
        → IfSome had (Holds line.new.items (R.remaining reader.new))) }
{
    let available = match reader.fill_buf() {
        Ok(available) => available,
        Err(error) if error.kind() == ErrorKind::Interrupted => return Ok(false),
        Err(error) => return Err(error),
    };
    let room = (ROW_LIMIT - line.len()).min(available.len());
    let mut front = &available[..room];
    let count = front.read_until(b'\n', line)?;
    let is_kept = count == 0 || available[count - 1] == b'\n';
    reader.consume(count);
    Ok(is_kept)
}

/// The next line of text, through its line feed; of a longer one than any row its front.
pub fn advance<R: BufRead>(mut line: Vec<u8>, reader: &mut R) -> Result<Vec<u8>, StreamFault>
    ensures ok { IfOk result (λ next. IfSome (R.remaining reader.old) (Holds next.items (R.remaining reader.new))) }
    ensures err { IfErr result IsOutside }
{
    line.clear();
    for _ in 0..u64::MAX {
        match append(&mut line, reader) {
            Ok(true) => return Ok(line),
            Ok(false) => {}
            Err(error) if error.kind() == ErrorKind::OutOfMemory => {
                return Err(StreamFault::OutOfMemory);
            }
            Err(_) => return Err(StreamFault::CannotRead),
        }
    }
    Err(StreamFault::CannotRead)
}
