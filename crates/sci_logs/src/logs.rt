//! A log, line by line.

ghost use Rattle.std.specs.Prelude.{◌≡◌, ◌↔◌, ◌≤◌, IsTrue, Ok};
ghost use Rattle.sci_script.specs.Size.{IsSize};
ghost use Rattle.sci_logs.specs.declared.logs.LogFault.TheVariants.{OutOfMemory};
ghost use Rattle.sci_logs.specs.LineText.{memory_at, noted_at, opening_at};
ghost use Rattle.sci_logs.specs.Logs.{Begins, Continues, Ends, Feeds, Notes, Opens};
ghost use Rattle.sci_logs.specs.Told.{is_noted_in, is_told_in};

use crate::entries::Deviation;
use crate::line_text::{read_entry, read_memory, read_opening};
use crate::lines::Follower;
use crate::told::{Noted, Told};
use sci_core::{Line, MOST_NODES};
use sci_script::{Size, is_skipped};
use sci_words::LineNo;
use std::alloc::{AllocError, Global};
use thiserror::Error;

/// Why a log isn't followed to its end. A number of a line of text is counted from 1.
#[derive(Clone, Copy, Debug, PartialEq, Eq, Drop, Error)]
pub enum LogFault {
    /// Refusal 7: a growth of memory was refused.
    #[error("refused 7")]
    OutOfMemory,
    /// Refusal 16: this is no line of a log, or it stands where it may not.
    #[error("refused 16 at line {0}")]
    BadLine(u64),
    /// Refusal 17: there is no such node, no such line, or no memory of this size, at this line of text.
    #[error("refused 17 at line {0}")]
    BadNumber(u64),
    /// The reader failed, or the text doesn't end.
    #[error("cannot read")]
    CannotRead,
    /// No lawful line answers as this line of text says, and why.
    #[error("line {0} is no run")]
    Departs(u64, Deviation),
}

impl From<AllocError> for LogFault {
    ghost from_gives = { λ _ e. e ≡ OutOfMemory };

    fn from(_e: AllocError) -> LogFault {
        LogFault::OutOfMemory
    }
}

/// A log up to some line of its text.
#[derive(Drop)]
pub enum Log {
    /// Its memory isn't known yet.
    New,
    /// Its lines open.
    Opening(Follower),
    /// Its events happen.
    Running(Follower),
}

/// Whether a memory may have so many nodes and lines.
fn is_size(size: Size) -> bool
    ensures { IsTrue result ↔ IsSize size }
{
    (1..=MOST_NODES).contains(&size.nodes) && (1..=1024).contains(&size.lines)
}

/// The first line.
fn begin(alloc: Global, number: u64, line: &[u8]) -> Result<Log, LogFault>
    ensures { Begins number (memory_at line.now) result }
{
    let Ok(size) = read_memory(line) else {
        return Err(LogFault::BadLine(number));
    };
    if !is_size(size) {
        return Err(LogFault::BadNumber(number));
    }
    let follower = Follower::open(alloc, size)?;
    Ok(Log::Opening(follower))
}

/// An opening.
fn open_line(
    alloc: Global,
    number: u64,
    mut follower: Follower,
    line: LineNo,
    content: Line,
) -> Result<Log, LogFault>
    ensures { Opens number follower (line, content) result }
{
    if line >= follower.size().lines {
        return Err(LogFault::BadNumber(number));
    }
    follower.reopen(alloc, line, content)?;
    Ok(Log::Opening(follower))
}

/// Whether the nodes of what is told are there.
fn is_told_in(nodes: u16, told: &Told) -> bool
    ensures { result ≡ is_told_in nodes told.now }
{
    match told {
        Told::On {
            whose: Some(whose),
            ..
        } => whose.get() < nodes,
        _ => true,
    }
}

/// Whether the nodes and the line are there.
fn is_in(size: Size, noted: &Noted) -> bool
    ensures { result ≡ is_noted_in size noted.now }
{
    noted.node.get() < size.nodes && noted.line < size.lines && is_told_in(size.nodes, &noted.told)
}

/// An event that was read.
fn follow_noted(number: u64, mut follower: Follower, noted: &Noted) -> Result<Log, LogFault>
    ensures { Notes number follower (Ok noted.now) result }
{
    if !is_in(follower.size(), noted) {
        return Err(LogFault::BadNumber(number));
    }
    match follower.note(noted) {
        Ok(()) => Ok(Log::Running(follower)),
        Err(why) => Err(LogFault::Departs(number, why)),
    }
}

/// An event.
fn follow_line(number: u64, follower: Follower, line: &[u8]) -> Result<Log, LogFault>
    ensures { Notes number follower (noted_at line.now) result }
{
    match read_entry(line) {
        Ok(noted) => follow_noted(number, follower, &noted),
        Err(_) => Err(LogFault::BadLine(number)),
    }
}

/// A line behind the first, and before any event.
fn go_on(alloc: Global, number: u64, follower: Follower, line: &[u8]) -> Result<Log, LogFault>
    ensures { Continues number follower (opening_at line.now) (noted_at line.now) result }
{
    match read_opening(line) {
        Ok((opened, content)) => open_line(alloc, number, follower, opened, content),
        Err(_) => follow_line(number, follower, line),
    }
}

impl Log {
    /// The log with one line of text more, which has this number and no line feed. Refusals, with its number: 16, BadLine, where it is
    /// no line of a log or stands where it may not; 17, BadNumber, where it is one, but of a node or a line that isn't there, or of
    /// no memory of 1 to 1,024 nodes and lines; 7, OutOfMemory. Where no lawful line answers as it says, Departs with its number and why.
    pub fn feed(self, alloc: Global, number: u64, line: &[u8]) -> Result<Log, LogFault>
        ensures { Feeds number line.now self result }
    {
        if is_skipped(line) {
            return Ok(self);
        }
        match self {
            Log::New => begin(alloc, number, line),
            Log::Opening(follower) => go_on(alloc, number, follower, line),
            Log::Running(follower) => follow_line(number, follower, line),
        }
    }

    /// The end of the log, where the line of text behind its last would have this number. Refusal 16 there, where it has no memory.
    pub fn end(self, number: u64) -> Result<(), LogFault>
        ensures { Ends number self result }
    {
        match self {
            Log::New => Err(LogFault::BadLine(number)),
            _ => Ok(()),
        }
    }
}
