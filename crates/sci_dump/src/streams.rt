//! A dump from a reader: its closed lines one after another, over one line of text.

ghost use Rattle.std.specs.Prelude.{◌≡◌, ◌≤◌, ◌<◌, ◌+◌, ◌++◌, ◌∷◌, [], ℕ, List, Ok, true, length, All, IfOk, IfErr, IfSome, OnOk};
ghost use Rattle.std.specs.Io.KnownBytes.{IsAtEnd};
ghost use Rattle.sci_words.specs.Tag.{tag_well_formed};
ghost use Rattle.sci_core.specs.declared.whole.TheConstants.{MOST_NODES};
ghost use Rattle.sci_core.specs.Closed.{ClosedLine};
ghost use Rattle.sci_dump.specs.Reading.{entries_at, closed_at, dump_of};
ghost use Rattle.sci_dump.specs.Streams.{HoldsRow, IsHeadOf, Streams, HasRead, StopsBehind, from_line};
ghost use Rattle.sci_dump.specs.declared.streams.StreamFault.TheVariants.{OutOfMemory};

use crate::dumps::DumpStream;
use crate::fields::behind;
use crate::places::{DumpHead, DumpPlace, DumpRow};
use crate::reader::entry;
use crate::rows::{head_row, memory_row};
use crate::text_lines::advance;
use sci_core::{Closed, Line};
use sci_words::Tag;
use std::alloc::{AllocError, AllocFailed, Global};
use std::io::BufRead;

/// Why a dump isn't read to its end. The reader is behind the lines of text that were read, and maybe behind a part of the next.
#[derive(Debug, Drop)]
pub enum StreamFault {
    /// Refusal 7: a growth of memory was refused.
    OutOfMemory,
    /// Refusal 21: the text is no dump, and this is the line that the definition of reading names.
    DumpFault(DumpRow),
    /// The reader failed.
    CannotRead,
}

impl From<AllocError> for StreamFault {
    ghost from_gives = { λ _ e. e ≡ OutOfMemory };

    fn from(_e: AllocError) -> StreamFault {
        StreamFault::OutOfMemory
    }
}

impl<T: Drop> From<AllocFailed<T>> for StreamFault {
    ghost from_gives = { λ _ e. e ≡ OutOfMemory };

    fn from(_e: AllocFailed<T>) -> StreamFault {
        StreamFault::OutOfMemory
    }
}

/// The tags and lines of all nodes, and the line of text behind them.
#[derive(Drop)]
struct Rows {
    tags: Vec<Tag>,
    lines: Vec<Line>,
    row: DumpRow,
}

/// The nodes of a line.
fn read_rows<R: BufRead>(
    alloc: Global,
    head: DumpHead,
    closed: u64,
    first: DumpRow,
    reader: &mut R,
) -> Result<Rows, StreamFault>
    requires few { head.nodes ≤ MOST_NODES }
    requires near { first.number < 1200000 }
    ensures exact { (text : List ℕ) → IsHeadOf head text → HoldsRow text first (R.remaining reader.old)
        → Streams text (λ x rest. (x.tags.items, x.lines.items, x.row.number, rest)) (λ x. x.row) (R.remaining reader.new) result
        (entries_at head.layout closed 0 head.nodes first.number (from_line first.number text)) }
    ensures well_formed { IfOk result (λ x. All (λ t. tag_well_formed t ≡ true) x.tags.items) }
    ensures lengths { IfOk result (λ x. (length x.tags.items ≡ head.nodes) × (length x.lines.items ≡ head.nodes)) }
    ensures further { IfOk result (λ x. x.row.number ≤ first.number + head.nodes) }
{
    let count = usize::from(head.nodes);
    let mut tags = Vec::with_capacity(alloc, count)?;
    let mut lines = Vec::with_capacity(alloc, count)?;
    let mut row = first;
    for node in 0..u64::from(head.nodes) {
        let number = row.number;
        let Some((tag, content, next, _)) = entry(head.layout, closed, node, number, &row.text)
        else {
            return Err(StreamFault::DumpFault(row));
        };
        tags.push(tag)?;
        lines.push(content)?;
        // at the end of the text nothing is read, and nothing more asked for
        if next > number {
            row = DumpRow {
                number: next,
                text: advance(row.text, reader)?,
                place: DumpPlace::Line {
                    head,
                    line: closed,
                    node: node + 1,
                },
            };
        }
    }
    Ok(Rows { tags, lines, row })
}

/// A closed line, and the line of text behind it.
#[derive(Drop)]
struct Found {
    closed: Closed,
    row: DumpRow,
}

/// A closed line.
fn read_closed<R: BufRead>(
    alloc: Global,
    head: DumpHead,
    number: u64,
    row: DumpRow,
    reader: &mut R,
) -> Result<Found, StreamFault>
    requires few { head.nodes ≤ MOST_NODES }
    requires near { row.number < 1100000 }
    ensures exact { (text : List ℕ) → IsHeadOf head text → HoldsRow text row (R.remaining reader.old)
        → Streams text (λ x rest. (x.closed, x.row.number, rest)) (λ x. x.row) (R.remaining reader.new) result
        (closed_at head.layout number head.nodes row.number (from_line row.number text)) }
    ensures further { IfOk result (λ x. x.row.number ≤ row.number + 1 + head.nodes) }
{
    let Some((mem, memory, _)) = memory_row(head.layout, number, &row.text) else {
        return Err(StreamFault::DumpFault(row));
    };
    let text = advance(row.text, reader)?;
    let first = DumpRow {
        number: row.number + 1,
        text,
        place: DumpPlace::Line {
            head,
            line: number,
            node: 0,
        },
    };
    let rows = read_rows(alloc, head, number, first, reader)?;
    let row = rows.row;
    let closed = Closed {
        mem,
        memory,
        tags: rows.tags,
        lines: rows.lines,
    };
    Ok(Found { closed, row })
}

impl DumpStream {
    /// Reads the first line of a dump. Refusals 7 and 21, or a reader that fails, here and below as [`StreamFault`] says.
    pub fn open<R: BufRead>(alloc: Global, reader: &mut R) -> Result<DumpStream, StreamFault>
        ensures ok { IfOk result (λ s. IfSome (R.remaining reader.old) (λ text. HasRead text [] s (R.remaining reader.new))) }
        ensures err { IfErr result (λ e. IfSome (R.remaining reader.old) (λ text. StopsBehind e text [])) }
        ensures first { IfOk result (λ s. s.closed ≡ 0) }
        ensures few { IfOk result (λ s. s.head.lines ≤ 1024) }
    {
        let text = advance(Vec::new(alloc), reader)?;
        let Some((layout, nodes, lines, _)) = head_row(&text) else {
            return Err(StreamFault::DumpFault(DumpRow {
                number: 1,
                text,
                place: DumpPlace::Start,
            }));
        };
        let head = DumpHead {
            layout,
            nodes,
            lines,
        };
        let text = advance(text, reader)?;
        let row = DumpRow {
            number: 2,
            text,
            place: DumpPlace::Head(head),
        };
        Ok(DumpStream {
            head,
            closed: 0,
            row,
        })
    }

    /// How many closed lines the dump has: 1 to 1,024.
    pub fn count(&self) -> u16
        ensures value { result ≡ self.now.head.lines }
        ensures few { result ≤ 1024 }
    {
        self.head.lines
    }

    /// Reads the next closed line; `next` has been called less than `count` times. Refused, there is no stream any more.
    pub fn next<R: BufRead>(
        self,
        alloc: Global,
        reader: &mut R,
    ) -> Result<(Closed, DumpStream), StreamFault>
        requires { self.closed < self.head.lines }
        ensures ok { IfOk result (λ x. (text : List ℕ) (lines : List ClosedLine) → HasRead text lines self (R.remaining reader.old)
            → HasRead text (lines ++ x.0 ∷ []) x.1 (R.remaining reader.new)) }
        ensures err { IfErr result (λ e. (text : List ℕ) (lines : List ClosedLine) → HasRead text lines self (R.remaining reader.old) → StopsBehind e text lines) }
        ensures one { IfOk result (λ x. (x.1.closed ≡ self.closed + 1) × (x.1.head.lines ≡ self.head.lines)) }
    {
        let head = self.head;
        let closed = self.closed;
        let found = read_closed(alloc, head, u64::from(closed), self.row, reader)?;
        let next = DumpStream {
            head,
            closed: closed + 1,
            row: found.row,
        };
        Ok((found.closed, next))
    }

    /// Reads `end`, and that nothing stands behind it; `next` has been called `count` times. Refused as above.
    pub fn end<R: BufRead>(self, reader: &mut R) -> Result<(), StreamFault>
        requires { self.closed ≡ self.head.lines }
        ensures ok { OnOk result ((text : List ℕ) (lines : List ClosedLine) → HasRead text lines self (R.remaining reader.old)
            → dump_of text ≡ Ok record { nodes = self.head.nodes; lines = lines }) }
        ensures err { IfErr result (λ e. (text : List ℕ) (lines : List ClosedLine) → HasRead text lines self (R.remaining reader.old) → StopsBehind e text lines) }
        ensures at_end { OnOk result (IfSome (R.remaining reader.old) (λ _. IsAtEnd (R.remaining reader.new))) }
    {
        let row = self.row;
        let Some(_) = behind(b"end\n", &row.text) else {
            return Err(StreamFault::DumpFault(row));
        };
        let number = row.number + 1;
        let text = advance(row.text, reader)?;
        if text.is_empty() {
            Ok(())
        } else {
            Err(StreamFault::DumpFault(DumpRow {
                number,
                text,
                place: DumpPlace::End,
            }))
        }
    }
}
