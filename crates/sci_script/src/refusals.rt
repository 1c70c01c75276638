//! Why a script is refused.

ghost use Rattle.std.specs.Prelude.{◌≡◌};
ghost use Rattle.sci_script.specs.declared.refusals.ScriptRefusal.TheVariants.{OutOfMemory};

use std::alloc::{AllocError, AllocFailed};
use thiserror::Error;

/// Why a script is refused. A number of a line of text is counted from 1.
#[derive(Clone, Copy, Debug, PartialEq, Eq, Drop, Error)]
pub enum ScriptRefusal {
    /// Refusal 7: a growth of memory was refused.
    #[error("refused 7")]
    OutOfMemory,
    /// Refusal 16: a byte, a word, a count of words or a place, at this line.
    #[error("refused 16 at line {0}")]
    BadCommand(u64),
    /// Refusal 17: a word that is no number, or a number out of range, at this line.
    #[error("refused 17 at line {0}")]
    BadNumber(u64),
    /// Refusal 18: a command that didn't end, at this line.
    #[error("refused 18 at line {0}")]
    NotDone(u64),
    /// Refusal 24: the writer failed, or took no byte.
    #[error("refused 24")]
    WriteFailed,
}

impl ScriptRefusal {
    ghost use Rattle.sci_script.specs.Refusals.{script_refusal_number};

    /// The refusal's number.
    pub fn number(self) -> u8
        ensures { result ≡ script_refusal_number self }
    {
        match self {
            ScriptRefusal::OutOfMemory => 7,
            ScriptRefusal::BadCommand(_) => 16,
            ScriptRefusal::BadNumber(_) => 17,
            ScriptRefusal::NotDone(_) => 18,
            ScriptRefusal::WriteFailed => 24,
        }
    }
}

impl From<AllocError> for ScriptRefusal {
    ghost from_gives = { λ _ e. e ≡ OutOfMemory };

    fn from(_e: AllocError) -> ScriptRefusal {
        ScriptRefusal::OutOfMemory
    }
}

impl<T: Drop> From<AllocFailed<T>> for ScriptRefusal {
    ghost from_gives = { λ _ e. e ≡ OutOfMemory };

    fn from(_e: AllocFailed<T>) -> ScriptRefusal {
        ScriptRefusal::OutOfMemory
    }
}
