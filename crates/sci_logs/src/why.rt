//! Why a line of a log is refused, at the place where it stands.

ghost use Rattle.std.specs.Prelude.{◌≡◌};
ghost use Rattle.std.specs.Result.{result_err};
ghost use Rattle.sci_logs.specs.LineText.{Gives, noted_at};
ghost use Rattle.sci_logs.specs.Reasons.{due_of, in_size, line_lack, misfit, part_in, reason_at, would_tell};

use crate::line_text::{read_entry, read_memory, read_opening};
use crate::logs::{Log, LogFault};
use crate::misfits::{event_misfit, memory_misfit, opening_misfit};
use crate::parts::{Lack, LineReason, Part};
use crate::seen::Seen;
use sci_dump::fields::behind;
use sci_script::Size;

/// Which lines are due in a log.
#[derive(Clone, Copy)]
pub enum Due {
    /// Its memory.
    Memory,
    /// An opening, or an event.
    Opening(Size),
    /// An event.
    Event(Size),
}

/// With the numbers that a memory of this size has.
fn in_size(size: Size, part: Part) -> Part
    ensures { result ≡ in_size size part }
{
    let low = 0;
    match part {
        Part::NodeNumber => {
            let high = size.nodes.saturating_sub(1);
            Part::Number { low, high }
        }
        Part::LineNumber => {
            let high = size.lines.saturating_sub(1);
            Part::Number { low, high }
        }
        part => part,
    }
}

/// The first part that isn't there of an event.
fn entry_lack(line: &[u8]) -> Option<Lack>
    ensures { result ≡ result_err (noted_at line.now) }
{
    match read_entry(line) {
        Ok(_) => None,
        Err(lack) => Some(lack),
    }
}

impl Due {
    /// Those behind a log up to here.
    pub(crate) fn new(log: &Log) -> Due
        ensures { result ≡ due_of log.now }
    {
        match log {
            Log::New => Due::Memory,
            Log::Opening(follower) => Due::Opening(follower.size()),
            Log::Running(follower) => Due::Event(follower.size()),
        }
    }

    /// The first part that isn't there of such a line.
    fn line_lack(self, line: &[u8]) -> Option<Lack>
        ensures { result ≡ line_lack self line.now }
    {
        match self {
            Due::Memory => read_memory(line).err(),
            Due::Opening(_) if behind(b"open", line).is_some() => read_opening(line).err(),
            Due::Opening(_) | Due::Event(_) => entry_lack(line),
        }
    }

    /// The first number that isn't in its range, of such a line that is whole.
    fn misfit(self, line: &[u8]) -> Result<Lack, Lack>
        ensures { Gives (λ l. l) result (misfit self line.now) }
    {
        match self {
            Due::Memory => memory_misfit(line),
            Due::Opening(_) if behind(b"open", line).is_some() => opening_misfit(line),
            Due::Opening(size) | Due::Event(size) => event_misfit(size, line),
        }
    }

    /// What may stand there.
    fn part_in(self, part: Part) -> Part
        ensures { result ≡ part_in self part }
    {
        match (self, part) {
            (Due::Memory, part) => part,
            (Due::Opening(_), Part::Node) => Part::OpenOrNode,
            (Due::Opening(size) | Due::Event(size), part) => in_size(size, part),
        }
    }

    /// In words.
    fn reason(self, line: &[u8], lack: Lack) -> LineReason
        ensures { result ≡ reason_at self line.now lack }
    {
        let start = line.len().saturating_sub(lack.left);
        LineReason {
            column: start + 1,
            wanted: self.part_in(lack.wanted),
            found: Seen::new(&line[start..]),
        }
    }

    /// The reason of a line that is refused so, in front of which a log stood so: of 16 whatever its numbers are.
    pub(crate) fn why(self, fault: LogFault, line: &[u8]) -> Option<LineReason>
        ensures { result ≡ would_tell fault self line.now }
    {
        let lack = match fault {
            LogFault::BadLine(_) => self.line_lack(line)?,
            LogFault::BadNumber(_) => self.misfit(line).ok()?,
            LogFault::OutOfMemory | LogFault::CannotRead | LogFault::Departs(..) => return None,
        };
        Some(self.reason(line, lack))
    }
}
