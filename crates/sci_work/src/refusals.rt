//! Why a workload refuses.
use std::alloc::AllocError;

/// Why a workload, or a node's part of it, was refused.
#[derive(Clone, Copy, Debug, PartialEq, Eq, thiserror::Error)]
pub enum WorkRefusal {
    /// 7: a growth was refused.
    #[error("7: no memory left")]
    OutOfMemory,
    /// 11: a line's stamp is 2^64 - 1, so a write was left out.
    #[error("11: a line's stamp counts no more writes")]
    StampsSpent,
    /// 19: a line shows a later item or phase than the one awaited.
    #[error("19: a line is further on than the worker that awaits it")]
    Overrun,
    /// 20: the gate held a call back as often as its limit says.
    #[error("20: the gate held a call back to its limit")]
    Stalled,
    /// 22: a number is outside the limits.
    #[error("22: a number is outside the limits")]
    BadSettings,
    /// 25: the stop mark was raised, since another node has refused.
    #[error("25: another node has refused")]
    Stopped,
    /// 26: a node's thread was not to be had.
    #[error("26: a node's thread was not to be had")]
    NoThread,
}

impl WorkRefusal {
    ghost use Rattle.std.specs.Prelude.{◌≡◌};
    ghost use Rattle.sci_work.specs.Refusals.{refusal_number};

    /// The refusal's number.
    pub fn number(self) -> u8
        ensures { result ≡ refusal_number self }
    {
        match self {
            WorkRefusal::OutOfMemory => 7,
            WorkRefusal::StampsSpent => 11,
            WorkRefusal::Overrun => 19,
            WorkRefusal::Stalled => 20,
            WorkRefusal::BadSettings => 22,
            WorkRefusal::Stopped => 25,
            WorkRefusal::NoThread => 26,
        }
    }
}

impl From<AllocError> for WorkRefusal {
    ghost use Rattle.std.specs.Prelude.{◌≡◌};
    ghost use Rattle.sci_work.specs.declared.refusals.WorkRefusal.TheVariants.{OutOfMemory};

    ghost from_gives = { λ _ r. r ≡ OutOfMemory };

    fn from(_refused: AllocError) -> WorkRefusal {
        WorkRefusal::OutOfMemory
    }
}
