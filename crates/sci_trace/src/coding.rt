//! A text as it stands in a page.

ghost use Rattle.std.specs.Prelude.{◌≡◌, ◌<◌, ℕ, length, take, OnOk, OnErr};
ghost use Rattle.std.specs.Io.KnownBytes.{Appends};
ghost use Rattle.sci_trace.specs.Coding.{entity, escaped, coded};

use sci_script::{WriteFailed, put};
use std::io::Write;
use std::slice;

/// How a text is written.
#[derive(Clone, Copy)]
pub enum Coding {
    /// As it is.
    Plain,
    /// So that a browser shows it as text.
    Escaped,
}

/// What stands for a byte in a page. A browser reads a carriage return as a line feed, and drops a NUL.
fn entity(byte: &u8) -> &[u8]
    ensures { result.now ≡ entity byte.now }
{
    match byte {
        b'&' => b"&amp;",
        b'<' => b"&lt;",
        b'>' => b"&gt;",
        b'"' => b"&quot;",
        b'\'' => b"&#39;",
        b'\r' => b"&#13;",
        b'\0' => b"&#65533;",
        _ => slice::from_ref(byte),
    }
}

/// Writes the bytes so that a browser shows them as text; on a failure it has written a front of that, and not all.
fn put_escaped<W: Write>(out: &mut W, bytes: &[u8]) -> Result<(), WriteFailed>
    ensures ok { OnOk result (Appends (W.contents out.old) (W.contents out.new) (escaped bytes.now)) }
    ensures err { OnErr result ((n : ℕ) × (n < length (escaped bytes.now)) × Appends (W.contents out.old) (W.contents out.new) (take n (escaped bytes.now))) }
{
    for byte in bytes {
        put(out, entity(byte))?;
    }
    Ok(())
}

/// Writes the bytes in this way; on a failure it has written a front of that, and not all.
pub fn put_coded<W: Write>(out: &mut W, coding: Coding, bytes: &[u8]) -> Result<(), WriteFailed>
    ensures ok { OnOk result (Appends (W.contents out.old) (W.contents out.new) (coded coding bytes.now)) }
    ensures err { OnErr result ((n : ℕ) × (n < length (coded coding bytes.now)) × Appends (W.contents out.old) (W.contents out.new) (take n (coded coding bytes.now))) }
{
    match coding {
        Coding::Plain => put(out, bytes),
        Coding::Escaped => put_escaped(out, bytes),
    }
}
