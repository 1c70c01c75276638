//! Each growth may be refused: that line is answered by `refused 7`, and the talk goes on. With ample memory this test passes.
//! tools/allocations runs it once for each growth of its table, with that one refused, and the test ends by saying which call
//! answered it.
ghost use Rattle.std.specs.Prelude.{None};

use crate::checks::{same, same_bytes_at};
use sci_serve::serve_talk;
use std::alloc::Global;
use std::io;
use std::io::Write;
use std::process::Abort;
use std::test::Fail;

/// A writer that holds up to 256 bytes, and takes no memory.
#[derive(Drop)]
struct Fixed {
    bytes: [u8; 256],
    length: usize,
}

impl Write for Fixed {
    ghost contents = { λ _. None };

    fn write(&mut self, buf: &[u8]) -> io::Result<usize> {
        match buf {
            [first, ..] if self.length < 256 => {
                self.bytes[self.length] = *first;
                self.length += 1;
                Ok(1)
            }
            _ => Ok(0),
        }
    }

    fn flush(&mut self) -> io::Result<()> {
        Ok(())
    }
}

/// Each line stands twice, so that the second is answered where the first was refused.
const SAID: &str = "memory 1 1\nmemory 1 1\nlist 0\nlist 0\n";

fn refuses(rt: &impl Abort, alloc: Global) -> Result<(), Fail> {
    let mut out = Fixed {
        bytes: [0; 256],
        length: 0,
    };
    let end = serve_talk(alloc, &mut SAID.as_bytes(), &mut out);
    same(rt, &end.err(), &None);
    let answered = out.bytes.get(..out.length).unwrap_or(b"");
    for refused in [
        b"refused 7\nok\nline 0 HOME\nok\nline 0 HOME\nok\n".as_slice(),
        b"ok\nrefused 7\nline 0 HOME\nok\nline 0 HOME\nok\n",
        b"ok\nok\nrefused 7\nline 0 HOME\nok\n",
        b"ok\nok\nline 0 HOME\nok\nrefused 7\n",
    ] {
        if answered == refused {
            return Err(Fail::new("serve_talk answered 7"));
        }
    }
    let answers = b"ok\nok\nline 0 HOME\nok\nline 0 HOME\nok\n";
    same_bytes_at(rt, &"the answers", answered, answers);
    Ok(())
}

/// Growths: 17 of serve_talk.
#[test]
fn refused_growths(rt: HostRuntime) -> Result<(), Fail> {
    refuses(&rt, rt.alloc())
}
