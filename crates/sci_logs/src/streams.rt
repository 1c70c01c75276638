//! A log from a reader: its lines one after another, in one buffer.

ghost use Rattle.std.specs.Prelude.{◌≡◌, OnOk, IfErr, IfSome};
ghost use Rattle.sci_logs.specs.Reasons.{EndsWhy, StopsWhy};
ghost use Rattle.sci_logs.specs.Streams.{FollowsAll, StopsWith, without_end};

use crate::logs::{Log, LogFault};
use crate::parts::LineReason;
use crate::why::Due;
use sci_script::without_return;
use std::alloc::Global;
use std::io::{BufRead, ErrorKind};

/// A line without its line feed, and without a carriage return in front of that.
fn without_end(line: &[u8]) -> &[u8]
    ensures { result.now ≡ without_end line.now }
{
    match line {
        [front @ .., b'\n'] => without_return(front),
        _ => line,
    }
}

/// The end of a log, and why it is refused there.
#[tactic(auto, using(crate::proofs::Lacking::end_tells))]
fn end(log: Log, number: u64) -> Result<(), (LogFault, Option<LineReason>)>
    ensures { EndsWhy number log result }
{
    let due = Due::new(&log);
    match log.end(number) {
        Ok(()) => Ok(()),
        Err(fault) => Err((fault, due.why(fault, b""))),
    }
}

/// Follows a log to its end, line by line; nothing is kept but its lines, and one line of text. Ok: it is a run of the table from its
/// opening. Err: the first fault, as `Log::feed` and `Log::end` have it, or the reader failed; and of a line that is refused 16 or 17, why.
pub fn follow_told<R: BufRead>(
    alloc: Global,
    reader: &mut R,
) -> Result<(), (LogFault, Option<LineReason>)>
    ensures ok { OnOk result (IfSome (R.remaining reader.old) FollowsAll) }
    ensures err { IfErr result (λ x. IfSome (R.remaining reader.old) (StopsWhy x.0 x.1)) }
{
    let mut log = Log::New;
    let mut line = Vec::new(alloc);
    for number in 1..u64::MAX {
        line.clear();
        match reader.read_until(b'\n', &mut line) {
            Ok(0) => return end(log, number),
            Ok(_) => {}
            Err(error) if error.kind() == ErrorKind::OutOfMemory => {
                return Err((LogFault::OutOfMemory, None));
            }
            Err(_) => return Err((LogFault::CannotRead, None)),
        }
        let due = Due::new(&log);
        let text = without_end(&line);
        match log.feed(alloc, number, text) {
            Ok(next) => log = next,
            Err(fault) => return Err((fault, due.why(fault, text))),
        }
    }
    Err((LogFault::CannotRead, None))
}

/// The same without a reason.
#[tactic(auto, using(crate::proofs::Cutting::without_why))]
pub fn follow_text<R: BufRead>(alloc: Global, reader: &mut R) -> Result<(), LogFault>
    ensures ok { OnOk result (IfSome (R.remaining reader.old) FollowsAll) }
    ensures err { IfErr result (λ e. IfSome (R.remaining reader.old) (StopsWith e)) }
{
    match follow_told(alloc, reader) {
        Ok(()) => Ok(()),
        Err((fault, _)) => Err(fault),
    }
}
