//! Why a text is refused, at the line that its reader refuses.

ghost use Rattle.std.specs.Prelude.{◌≡◌, List, IfOk, IfErr, OnOk};
ghost use Rattle.sci_core.specs.Closed.{ClosedLine};
ghost use Rattle.sci_dump.specs.Streams.{StopsBehind, first_row, from_line};
ghost use Rattle.sci_reasons.specs.Reasons.{fault_of, IsDump, IsWhyDump, IsWhyHistory};

use crate::places::{Due, HistoryPlace};
use crate::reasons::RowFault;
use sci_dump::{DumpRefusal, DumpRow, DumpStream, ROW_LIMIT, StreamFault};
use sci_histories::read_history;
use std::alloc::{AllocError, Global};
use std::io::BufRead;

/// Reads a text as a dump, to its end or the row at fault.
fn read_through(alloc: Global, text: &[u8]) -> Result<(), StreamFault>
    ensures ok { OnOk result (IsDump text.now) }
    ensures err { IfErr result (λ e. (lines : List ClosedLine) × StopsBehind e text.now lines) }
{
    let mut reader = text;
    let mut stream = DumpStream::open(alloc, &mut reader)?;
    for _ in 0..stream.count() {
        let (_, next) = stream.next(alloc, &mut reader)?;
        stream = next;
    }
    stream.end(&mut reader)
}

/// Why a line of text is refused where it stands in a dump, in words.
pub fn why_row(row: DumpRow) -> RowFault
    ensures { result ≡ fault_of row }
{
    RowFault {
        line: row.number,
        text: row.text,
        due: Due::Dump(row.place),
    }
}

/// Why a text is refused as a dump, in words. None where it isn't refused 21; else of the row at fault. Refusal 7 alone.
pub fn why_dump(alloc: Global, text: &[u8]) -> Result<Option<RowFault>, AllocError>
    ensures { IfOk result (IsWhyDump text.now) }
{
    match read_through(alloc, text) {
        Ok(()) => Ok(None),
        Err(StreamFault::DumpFault(row)) => Ok(Some(why_row(row))),
        // bytes at hand are always read
        Err(StreamFault::OutOfMemory | StreamFault::CannotRead) => Err(AllocError),
    }
}

/// Why a text is refused as a history at this line, in front of which it is none.
fn why_line(alloc: Global, text: &[u8], line: u64) -> Result<RowFault, AllocError>
    ensures line { IfOk result (λ fault. fault.line ≡ line) }
    ensures text { IfOk result (λ fault. fault.text.items ≡ first_row (from_line line text.now)) }
{
    let mut place = HistoryPlace::new();
    let mut rest = text;
    for _ in 1..line {
        place = place.behind(rest.split(|byte| *byte == b'\n').next().unwrap_or(b""));
        // bytes at hand are always read, here and below
        let Ok(_) = rest.skip_until(b'\n') else {
            return Err(AllocError);
        };
    }
    let mut front = &rest[..ROW_LIMIT.min(rest.len())];
    let mut text = Vec::new(alloc);
    let Ok(_) = front.read_until(b'\n', &mut text) else {
        return Err(AllocError);
    };
    let due = Due::History(place);
    Ok(RowFault { line, text, due })
}

/// Why a text is refused as a history, in words. None where it isn't refused 21; else of the line of that refusal. Refusal 7 alone.
pub fn why_history(alloc: Global, text: &[u8]) -> Result<Option<RowFault>, AllocError>
    ensures { IfOk result (IsWhyHistory text.now) }
{
    match read_history(alloc, text) {
        Ok(_) => Ok(None),
        Err(DumpRefusal::OutOfMemory) => Err(AllocError),
        Err(DumpRefusal::DumpFault(line)) => Ok(Some(why_line(alloc, text, line)?)),
    }
}
