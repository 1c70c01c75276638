//! The command `check --large`, from the bytes of a dump of any length to the verdict, line by line.

ghost use Rattle.std.specs.Prelude.{◌≡◌, [], ◌++◌, ℕ, List, codes, string_bytes, IfOk, OnOk, IfErr, IfSome};
ghost use Rattle.std.specs.Io.KnownBytes.{Appends, IsAtEnd};
ghost use Rattle.sci_core.specs.Closed.{ClosedLine};
ghost use Rattle.sci_dump.specs.declared.checking.Verdict.TheVariants.{Lawful};
ghost use Rattle.sci_dump.specs.Streams.{HasRead};
ghost use Rattle.sci_serve.specs.Explaining.{OfDump};
ghost use Rattle.sci_serve.specs.Large.{stream_fault_of, stream_reason_of, IsTold, Tells, FailsTelling, FailsConcluding, ChecksLarge, StopsLarge, IsWhyStopped};

use crate::faults::SimFault;
use crate::verdicts::{push_list, unlawful_text};
use sci_core::Closed;
use sci_dump::{DumpStream, StreamFault, Verdict, first_broken};
use sci_reasons::{RowFault, why_row};
use sci_script::{ScriptRefusal, put};
use sci_words::LineNo;
use std::alloc::{AllocError, Global};
use std::io::{BufRead, Write};

/// The fault, and why a line of text is refused.
fn told_of(fault: StreamFault) -> (SimFault, Option<RowFault>)
    ensures fault { result.0 ≡ stream_fault_of fault }
    ensures row { result.1 ≡ stream_reason_of fault }
    ensures why { IsWhyStopped result.0 result.1 }
{
    match fault {
        StreamFault::OutOfMemory => (SimFault::Refused(ScriptRefusal::OutOfMemory), None),
        StreamFault::DumpFault(row) => (SimFault::NoDump(row.number), Some(why_row(row))),
        StreamFault::CannotRead => (SimFault::CannotRead, None),
    }
}

/// The verdict on a line behind lawful ones, with its sharing list or the rule that it breaks.
fn line_text(
    alloc: Global,
    number: LineNo,
    closed: &Closed,
) -> Result<(Verdict, String), AllocError>
    ensures { IfOk result (λ x. Tells Lawful number closed.now x.0 (string_bytes x.1)) }
{
    match first_broken(closed) {
        None => {
            let mut text = String::new(alloc);
            push_list(alloc, &mut text, number, closed)?;
            Ok((Verdict::Lawful, text))
        }
        Some(rule) => {
            let text = unlawful_text(alloc, number, rule)?;
            Ok((Verdict::Unlawful { line: number, rule }, text))
        }
    }
}

/// Writes what is told of a line behind lawful ones, and says its verdict.
fn tell_next<W: Write>(
    alloc: Global,
    writer: &mut W,
    number: LineNo,
    closed: &Closed,
) -> Result<Verdict, SimFault>
    ensures ok { IfOk result (λ verdict. (more : List ℕ) × Tells Lawful number closed.now verdict more × Appends (W.contents writer.old) (W.contents writer.new) more) }
    ensures err { IfErr result (λ e. FailsTelling e Lawful number closed.now (W.contents writer.old) (W.contents writer.new)) }
    ensures why { IfErr result (λ e. IsWhyStopped e None) }
{
    match line_text(alloc, number, closed) {
        Err(_) => Err(SimFault::Refused(ScriptRefusal::OutOfMemory)),
        Ok((verdict, text)) => match put(writer, text.as_bytes()) {
            Ok(()) => Ok(verdict),
            Err(_) => Err(SimFault::CannotWrite),
        },
    }
}

/// Tells a line behind lines with this verdict, and says that up to there: behind an unlawful line nothing is written.
fn tell<W: Write>(
    alloc: Global,
    writer: &mut W,
    before: Verdict,
    number: LineNo,
    closed: &Closed,
) -> Result<Verdict, SimFault>
    ensures ok { IfOk result (λ verdict. (more : List ℕ) × Tells before number closed.now verdict more × Appends (W.contents writer.old) (W.contents writer.new) more) }
    ensures err { IfErr result (λ e. FailsTelling e before number closed.now (W.contents writer.old) (W.contents writer.new)) }
    ensures why { IfErr result (λ e. IsWhyStopped e None) }
{
    match before {
        Verdict::Unlawful { .. } => Ok(before),
        Verdict::Lawful => tell_next(alloc, writer, number, closed),
    }
}

/// Reads and judges all closed lines.
fn check_lines<R: BufRead, W: Write>(
    alloc: Global,
    first: DumpStream,
    reader: &mut R,
    writer: &mut W,
) -> Result<(Verdict, DumpStream), (SimFault, Option<RowFault>)>
    requires { first.closed ≡ 0 }
    ensures ok { IfOk result (λ x. (input : List ℕ) → HasRead input [] first (R.remaining reader.old)
        → (cs : List ClosedLine) × (text : List ℕ) × HasRead input cs x.1 (R.remaining reader.new) × IsTold cs x.0 text × Appends (W.contents writer.old) (W.contents writer.new) text) }
    ensures all { IfOk result (λ x. x.1.closed ≡ x.1.head.lines) }
    ensures err { IfErr result (λ x. (input : List ℕ) → HasRead input [] first (R.remaining reader.old)
        → (written : List ℕ) × StopsLarge x.0 input written × Appends (W.contents writer.old) (W.contents writer.new) written) }
    ensures why { IfErr result (λ x. IsWhyStopped x.0 x.1) }
    ensures row { IfErr result (λ x. (input : List ℕ) → HasRead input [] first (R.remaining reader.old) → OfDump x.0 input x.1) }
{
    let mut stream = first;
    let mut verdict = Verdict::Lawful;
    for number in 0..stream.count() {
        match stream.next(alloc, reader) {
            Err(fault) => return Err(told_of(fault)),
            Ok((closed, next)) => {
                stream = next;
                match tell(alloc, writer, verdict, number, &closed) {
                    Err(fault) => return Err((fault, None)),
                    Ok(told) => verdict = told,
                }
            }
        }
    }
    Ok((verdict, stream))
}

/// Writes `lawful` behind lines that all are.
fn conclude<W: Write>(writer: &mut W, verdict: Verdict) -> Result<(), SimFault>
    ensures ok { OnOk result ((verdict ≡ Lawful) × Appends (W.contents writer.old) (W.contents writer.new) (codes "lawful\n")) }
    ensures err { IfErr result (λ e. FailsConcluding e verdict (W.contents writer.old) (W.contents writer.new)) }
    ensures why { IfErr result (λ e. IsWhyStopped e None) }
{
    match verdict {
        Verdict::Unlawful { .. } => Err(SimFault::Unlawful),
        Verdict::Lawful => match put(writer, b"lawful\n") {
            Ok(()) => Ok(()),
            Err(_) => Err(SimFault::CannotWrite),
        },
    }
}

/// Reads a dump to its end, of any length, and judges it line by line: what is kept is one closed line, and one line of text. Each line's
/// sharing list is written once it is judged, and at the end `lawful`; or, behind the lists of the lines before it, `line L breaks CN`,
/// the first line that is no exact sharing list and the first rule that it breaks, which is the fault Unlawful. A text that is no dump
/// is refused 21 as by `serve_check`, wherever it is at fault: with why, in words. Then what was written is what is told of the lines
/// before that.
pub fn serve_check_large_told<R: BufRead, W: Write>(
    alloc: Global,
    reader: &mut R,
    writer: &mut W,
) -> Result<(), (SimFault, Option<RowFault>)>
    ensures ok { OnOk result (IfSome (R.remaining reader.old) (λ input. (lists : List ℕ) × ChecksLarge input Lawful lists
        × Appends (W.contents writer.old) (W.contents writer.new) (lists ++ codes "lawful\n"))) }
    ensures end { OnOk result (IfSome (R.remaining reader.old) (λ _. IsAtEnd (R.remaining reader.new))) }
    ensures err { IfErr result (λ x. IfSome (R.remaining reader.old) (λ input. (written : List ℕ) × StopsLarge x.0 input written
        × Appends (W.contents writer.old) (W.contents writer.new) written)) }
    ensures why { IfErr result (λ x. IsWhyStopped x.0 x.1) }
    // as `explained` tells it
    ensures row { IfErr result (λ x. IfSome (R.remaining reader.old) (λ input. OfDump x.0 input x.1)) }
{
    let first = match DumpStream::open(alloc, reader) {
        Err(fault) => return Err(told_of(fault)),
        Ok(first) => first,
    };
    let (verdict, last) = check_lines(alloc, first, reader, writer)?;
    match last.end(reader) {
        Err(fault) => Err(told_of(fault)),
        Ok(()) => match conclude(writer, verdict) {
            Err(fault) => Err((fault, None)),
            Ok(()) => Ok(()),
        },
    }
}

/// The same without a reason.
pub fn serve_check_large<R: BufRead, W: Write>(
    alloc: Global,
    reader: &mut R,
    writer: &mut W,
) -> Result<(), SimFault>
    ensures ok { OnOk result (IfSome (R.remaining reader.old) (λ input. (lists : List ℕ) × ChecksLarge input Lawful lists
        × Appends (W.contents writer.old) (W.contents writer.new) (lists ++ codes "lawful\n"))) }
    ensures end { OnOk result (IfSome (R.remaining reader.old) (λ _. IsAtEnd (R.remaining reader.new))) }
    ensures err { IfErr result (λ e. IfSome (R.remaining reader.old) (λ input. (written : List ℕ) × StopsLarge e input written
        × Appends (W.contents writer.old) (W.contents writer.new) written)) }
{
    match serve_check_large_told(alloc, reader, writer) {
        Ok(()) => Ok(()),
        Err((fault, _)) => Err(fault),
    }
}
