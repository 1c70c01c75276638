//! Why a line of a script isn't read.

ghost use Rattle.std.specs.Prelude.{◌≡◌};
ghost use Rattle.sci_script.specs.Causes.{refused_for};
ghost use Rattle.sci_script.specs.Format.{refusal_of};
ghost use Rattle.sci_script.specs.declared.unread.Unread.TheVariants.{OutOfMemory};

use crate::reasons::Reason;
use crate::refusals::ScriptRefusal;
use std::alloc::AllocError;

/// Why a line isn't read.
#[derive(Debug, Drop)]
pub(crate) enum Unread {
    /// A growth of memory was refused.
    OutOfMemory,
    /// The line with this number isn't taken where it stands.
    Refused { number: u64, reason: Reason },
}

impl Reason {
    /// The refusal that this is a reason of, at this line.
    fn refusal(self, line: u64) -> ScriptRefusal
        ensures { result ≡ refused_for line self }
    {
        match self {
            Reason::BadByte
            | Reason::TooLong
            | Reason::Unknown
            | Reason::Early
            | Reason::Late
            | Reason::Words { .. }
            | Reason::CallOpen(_)
            | Reason::NoCall(_) => ScriptRefusal::BadCommand(line),
            Reason::Number { .. } | Reason::Digits(_) => ScriptRefusal::BadNumber(line),
            Reason::WaitsFor(..) | Reason::Unended(_) => ScriptRefusal::NotDone(line),
        }
    }
}

impl From<AllocError> for Unread {
    ghost from_gives = { λ _ e. e ≡ OutOfMemory };

    fn from(_e: AllocError) -> Unread {
        Unread::OutOfMemory
    }
}

impl From<Unread> for ScriptRefusal {
    ghost from_gives = { λ unread e. e ≡ refusal_of unread };

    fn from(unread: Unread) -> ScriptRefusal {
        match unread {
            Unread::OutOfMemory => ScriptRefusal::OutOfMemory,
            Unread::Refused { number, reason } => reason.refusal(number),
        }
    }
}
