//! Why a text is refused, in words.
ghost use Rattle.std.specs.Prelude.{IfOk};
ghost use Rattle.sci_serve.specs.Explaining.{IsToldOf, OfSettings, OfDump, OfHistory};

use crate::faults::SimFault;
use crate::reasons::explanation;
use sci_reasons::{RowFault, why_dump, why_history};
use sci_script::Reason;
use sci_settings::{SettingsReason, why_settings};
use sci_work::WorkRefusal;
use std::alloc::{AllocError, Global};
use thiserror::Error;

/// What a text is.
#[derive(Clone, Copy, Debug, PartialEq, Eq, Drop)]
pub enum Text {
    /// A script.
    Script,
    /// Settings.
    Settings,
    /// A dump.
    Dump,
    /// A history.
    History,
}

/// Why a text is refused.
#[derive(Debug, PartialEq, Eq, Drop, Error)]
pub enum Explanation {
    /// A command of a script is.
    #[error("{0}")]
    Command(Reason),
    /// Settings are.
    #[error("{0}")]
    Settings(SettingsReason),
    /// A line of a dump or a history is.
    #[error("{0}")]
    Row(RowFault),
}

/// Why settings are refused so.
fn of_settings(
    alloc: Global,
    fault: SimFault,
    input: &[u8],
) -> Result<Option<SettingsReason>, AllocError>
    ensures { IfOk result (OfSettings fault input.now) }
{
    match fault {
        SimFault::NoRun(WorkRefusal::BadSettings) => why_settings(alloc, input),
        _ => Ok(None),
    }
}

/// Why a dump is refused so.
fn of_dump(alloc: Global, fault: SimFault, input: &[u8]) -> Result<Option<RowFault>, AllocError>
    ensures { IfOk result (OfDump fault input.now) }
{
    match fault {
        SimFault::NoDump(_) => why_dump(alloc, input),
        _ => Ok(None),
    }
}

/// Why a history is refused so.
fn of_history(alloc: Global, fault: SimFault, input: &[u8]) -> Result<Option<RowFault>, AllocError>
    ensures { IfOk result (OfHistory fault input.now) }
{
    match fault {
        SimFault::NoDump(_) => why_history(alloc, input),
        _ => Ok(None),
    }
}

/// Why a command over this text is refused so, in words. None where the fault isn't of the text, or memory ran out. Refusal 7 alone.
pub fn explained(
    alloc: Global,
    text: Text,
    fault: SimFault,
    input: &[u8],
) -> Result<Option<Explanation>, AllocError>
    ensures { IfOk result (IsToldOf text fault input.now) }
{
    match text {
        Text::Script => {
            let why = explanation(alloc, fault, input)?;
            Ok(why.map(Explanation::Command))
        }
        Text::Settings => {
            let why = of_settings(alloc, fault, input)?;
            Ok(why.map(Explanation::Settings))
        }
        Text::Dump => {
            let why = of_dump(alloc, fault, input)?;
            Ok(why.map(Explanation::Row))
        }
        Text::History => {
            let why = of_history(alloc, fault, input)?;
            Ok(why.map(Explanation::Row))
        }
    }
}
