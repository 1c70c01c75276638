//! What a line of a log says, and how a line of the table may answer otherwise.

ghost use Rattle.std.specs.Prelude.{◌≡◌, Ok, Err, Result};
ghost use Rattle.sci_core.specs.declared.outcomes.Outcome.{Outcome};
ghost use Rattle.sci_core.specs.declared.outcomes.NotInTurn.{NotInTurn};
ghost use Rattle.sci_logs.specs.Steps.{Judges};

use sci_core::{Event, Line, NotInTurn, Outcome};
use sci_words::{LineNo, NodeId};

/// How an event ended, as a log says.
#[derive(Clone, Copy, Debug, PartialEq, Eq)]
pub enum Claim {
    /// It was done; of a line that it answered the log says nothing.
    Done,
    /// It was done, and answered this line.
    Answered(Line),
    /// Another word was found: the word with this code in layout 2.
    Missed(u64),
    /// The line was not to be had.
    Busy,
}

/// One line of a log: the event of a node on a line, and how it ended.
#[derive(Clone, Copy, Debug, PartialEq, Eq)]
pub struct Entry {
    pub node: NodeId,
    pub line: LineNo,
    pub event: Event,
    pub claim: Claim,
}

/// Why no lawful line answers so.
#[derive(Clone, Copy, Debug, PartialEq, Eq)]
pub enum Deviation {
    /// The node's pending step doesn't allow the event.
    NotInTurn,
    /// Another word stood there: the exchange finds a word that isn't the one that it asks for, or that the log says.
    AnotherWord,
    /// The event answers another line, or none.
    AnotherLine,
    /// An outcome that can't be: the event is done, or misses, and the log says that it missed, or that the line was busy.
    CannotBe,
}

/// What is to be said of a claim, where the line answers this.
pub(crate) fn judge(claim: &Claim, answer: &Result<Outcome, NotInTurn>) -> Result<(), Deviation>
    ensures { Judges claim.now answer.now result }
{
    match (claim, answer) {
        (_, Err(NotInTurn)) => Err(Deviation::NotInTurn),
        (Claim::Done, Ok(Outcome::Done(_))) => Ok(()),
        (Claim::Answered(line), Ok(Outcome::Done(Some(answered)))) => {
            if line == answered {
                Ok(())
            } else {
                Err(Deviation::AnotherLine)
            }
        }
        (Claim::Answered(_), Ok(Outcome::Done(None))) => Err(Deviation::AnotherLine),
        (Claim::Missed(word), Ok(Outcome::Missed(found))) => {
            if word == found {
                Ok(())
            } else {
                Err(Deviation::AnotherWord)
            }
        }
        (Claim::Done | Claim::Answered(_), Ok(Outcome::Missed(_))) => Err(Deviation::AnotherWord),
        _ => Err(Deviation::CannotBe),
    }
}
