//! What the calls of a line answer.
use crate::lines::Line;
use std::alloc::AllocError;

/// What a step came to.
#[derive(Clone, Copy, Debug, PartialEq, Eq)]
pub enum Outcome {
    /// The event's exchange was made, or the node looked at its own tag; the line that the event answers, where it answers
    /// one.
    Done(Option<Line>),
    /// Another word was found than the one that the exchange asks for: the word found. Nothing changed.
    Missed(u64),
    /// The line was not to be had. Nothing changed. A `Whole` never answers it.
    Busy,
}

/// Refusal 8: the pending step doesn't allow the event.
#[derive(Clone, Copy, Debug, PartialEq, Eq, thiserror::Error)]
#[error("8: the event is not in turn")]
pub struct NotInTurn;

impl NotInTurn {
    ghost use Rattle.std.specs.Prelude.{◌≡◌};

    /// The refusal's number.
    pub fn number(self) -> u8
        ensures { result ≡ 8 }
    {
        8
    }
}

/// Why a line was not opened.
#[derive(Clone, Copy, Debug, PartialEq, Eq, thiserror::Error)]
pub enum OpenRefusal {
    /// 6: there are to be 1 to 1,024 nodes.
    #[error("6: a line has 1 to 1,024 nodes")]
    BadNodes,
    /// 7: memory ran out.
    #[error("7: out of memory")]
    OutOfMemory,
}

impl OpenRefusal {
    ghost use Rattle.std.specs.Prelude.{◌≡◌};
    ghost use Rattle.sci_core.specs.Outcomes.{open_refusal_number};

    /// The refusal's number.
    pub fn number(self) -> u8
        ensures { result ≡ open_refusal_number self }
    {
        match self {
            OpenRefusal::BadNodes => 6,
            OpenRefusal::OutOfMemory => 7,
        }
    }
}

impl From<AllocError> for OpenRefusal {
    ghost use Rattle.std.specs.Prelude.{◌≡◌};
    ghost use Rattle.sci_core.specs.declared.outcomes.OpenRefusal.TheVariants.{OutOfMemory};

    ghost from_gives = { λ _ r. r ≡ OutOfMemory };

    fn from(_: AllocError) -> OpenRefusal {
        OpenRefusal::OutOfMemory
    }
}
