//! Why a text is refused as a dump.

ghost use Rattle.std.specs.Prelude.{◌≡◌};
ghost use Rattle.sci_dump.specs.declared.refusals.DumpRefusal.TheVariants.{OutOfMemory};

use std::alloc::{AllocError, AllocFailed};
use thiserror::Error;

/// Why a text is refused as a dump. A number of a line of text is counted from 1.
#[derive(Clone, Copy, Debug, PartialEq, Eq, Drop, Error)]
pub enum DumpRefusal {
    /// Refusal 7: a growth of memory was refused.
    #[error("refused 7")]
    OutOfMemory,
    /// Refusal 21: the text is no dump, and this is the line that the definition of reading names.
    #[error("refused 21 at line {0}")]
    DumpFault(u64),
}

impl DumpRefusal {
    ghost use Rattle.sci_dump.specs.Refusals.{dump_refusal_number};

    /// The refusal's number.
    pub fn number(self) -> u8
        ensures { result ≡ dump_refusal_number self }
    {
        match self {
            DumpRefusal::OutOfMemory => 7,
            DumpRefusal::DumpFault(_) => 21,
        }
    }
}

impl From<AllocError> for DumpRefusal {
    ghost from_gives = { λ _ e. e ≡ OutOfMemory };

    fn from(_e: AllocError) -> DumpRefusal {
        DumpRefusal::OutOfMemory
    }
}

impl<T: Drop> From<AllocFailed<T>> for DumpRefusal {
    ghost from_gives = { λ _ e. e ≡ OutOfMemory };

    fn from(_e: AllocFailed<T>) -> DumpRefusal {
        DumpRefusal::OutOfMemory
    }
}
