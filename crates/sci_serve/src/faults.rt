//! Why a command of the program fails.

ghost use Rattle.std.specs.Prelude.{◌≡◌};
ghost use Rattle.sci_serve.specs.Fault.{fault_of, dump_fault_of, settings_fault_of, work_fault_of, status_of};
ghost use Rattle.sci_serve.specs.declared.faults.SimFault.TheVariants.{CannotWrite, Refused};
ghost use Rattle.sci_script.specs.declared.refusals.ScriptRefusal.TheVariants.{OutOfMemory};

use sci_dump::DumpRefusal;
use sci_script::{ScriptRefusal, WriteFailed};
use sci_settings::SettingsRefusal;
use sci_work::WorkRefusal;
use std::alloc::AllocError;
use thiserror::Error;

/// Why a command of the program fails. Its text stands on standard error behind `scisim: `, but for a check that says no: there
/// the verdict stands on standard output.
#[derive(Clone, Copy, Debug, PartialEq, Eq, Drop, Error)]
pub enum SimFault {
    /// FILE or the input can't be opened or read, or the input doesn't end.
    #[error("cannot read")]
    CannotRead,
    /// The output can't be written.
    #[error("cannot write")]
    CannotWrite,
    /// Refusal 23: the input has more than 1,048,576 bytes.
    #[error("refused 23")]
    InputTooLong,
    /// What was read is refused.
    #[error(transparent)]
    Refused(ScriptRefusal),
    /// Refusal 21: the input is no dump, or no history, and this is the line of text at fault.
    #[error("refused 21 at line {0}")]
    NoDump(u64),
    /// A line of the dump is no exact sharing list, or of the history no one history.
    #[error("the check says no")]
    Unlawful,
    /// The settings are refused, with 22, or the run of their workload.
    #[error("refused {}", .0.number())]
    NoRun(WorkRefusal),
}

impl SimFault {
    /// The status that the program ends with.
    pub fn status(self) -> u8
        ensures { result ≡ status_of self }
    {
        match self {
            SimFault::CannotRead
            | SimFault::CannotWrite
            | SimFault::InputTooLong
            | SimFault::Refused(_)
            | SimFault::NoDump(_)
            | SimFault::NoRun(_) => 1,
            SimFault::Unlawful => 3,
        }
    }
}

impl From<ScriptRefusal> for SimFault {
    ghost from_gives = { λ r e. e ≡ fault_of r };

    fn from(refusal: ScriptRefusal) -> SimFault {
        match refusal {
            ScriptRefusal::WriteFailed => SimFault::CannotWrite,
            _ => SimFault::Refused(refusal),
        }
    }
}

impl From<DumpRefusal> for SimFault {
    ghost from_gives = { λ r e. e ≡ dump_fault_of r };

    fn from(refusal: DumpRefusal) -> SimFault {
        match refusal {
            DumpRefusal::OutOfMemory => SimFault::Refused(ScriptRefusal::OutOfMemory),
            DumpRefusal::DumpFault(line) => SimFault::NoDump(line),
        }
    }
}

impl From<SettingsRefusal> for SimFault {
    ghost from_gives = { λ r e. e ≡ settings_fault_of r };

    fn from(refusal: SettingsRefusal) -> SimFault {
        match refusal {
            SettingsRefusal::OutOfMemory => SimFault::Refused(ScriptRefusal::OutOfMemory),
            SettingsRefusal::BadSettings => SimFault::NoRun(WorkRefusal::BadSettings),
        }
    }
}

impl From<WorkRefusal> for SimFault {
    ghost from_gives = { λ r e. e ≡ work_fault_of r };

    fn from(refusal: WorkRefusal) -> SimFault {
        match refusal {
            WorkRefusal::OutOfMemory => SimFault::Refused(ScriptRefusal::OutOfMemory),
            _ => SimFault::NoRun(refusal),
        }
    }
}

impl From<AllocError> for SimFault {
    ghost from_gives = { λ _ e. e ≡ Refused OutOfMemory };

    fn from(_e: AllocError) -> SimFault {
        SimFault::Refused(ScriptRefusal::OutOfMemory)
    }
}

impl From<WriteFailed> for SimFault {
    ghost from_gives = { λ _ e. e ≡ CannotWrite };

    fn from(_e: WriteFailed) -> SimFault {
        SimFault::CannotWrite
    }
}
