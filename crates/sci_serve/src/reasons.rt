//! Why lines are refused, told beside what is written.
ghost use Rattle.std.specs.Prelude.{◌≡◌, IsTrue, false, IfOk};
ghost use Rattle.sci_serve.specs.Explained.{has_reason, is_of_line, IsExplained};

use crate::faults::SimFault;
use sci_script::{Reason, ScriptRefusal, why_script};
use std::alloc::{AllocError, Global};

/// Whom the reasons of refusals are told to.
pub trait Explain {
    /// Whether they are wanted.
    fn is_wanted(&self) -> bool;

    /// A line was answered; where it was refused, and why is known, this is why.
    fn explain(&self, why: Option<Reason>);
}

/// Reasons aren't told.
#[derive(Clone, Copy, Debug, PartialEq, Eq)]
pub struct Untold;

impl Explain for Untold {
    fn is_wanted(&self) -> bool
        ensures { result ≡ false }
    {
        false
    }

    fn explain(&self, _why: Option<Reason>) {}
}

/// Each reason is a line of the console.
#[derive(Drop)]
pub struct ReasonPrinter<'c, C> {
    console: &'c C,
}

impl<'c, C> ReasonPrinter<'c, C> {
    /// Reasons are told to this console.
    pub fn new(console: &'c C) -> ReasonPrinter<'c, C> {
        ReasonPrinter { console }
    }
}

impl<C: Eprint> Explain for ReasonPrinter<'_, C> {
    fn is_wanted(&self) -> bool
        ensures { IsTrue result }
    {
        true
    }

    fn explain(&self, why: Option<Reason>) {
        if let Some(reason) = why {
            // a line that isn't written changes nothing of the talk
            let _ = eprintln!(self.console; "{reason}");
        }
    }
}

/// Whether a refusal is of a line, and so has a reason.
fn is_of_line(refusal: ScriptRefusal) -> bool
    ensures { result ≡ is_of_line refusal }
{
    match refusal {
        ScriptRefusal::BadCommand(_) | ScriptRefusal::BadNumber(_) | ScriptRefusal::NotDone(_) => {
            true
        }
        ScriptRefusal::OutOfMemory | ScriptRefusal::WriteFailed => false,
    }
}

/// Whether the answer to a line refuses it, and so has a reason.
pub(crate) fn has_reason(said: &Result<(), ScriptRefusal>) -> bool
    ensures { result ≡ has_reason said.now }
{
    match said {
        Ok(()) => false,
        Err(refusal) => is_of_line(*refusal),
    }
}

/// Why a command over a script, as `serve` or `serve_outcomes`, is refused so, in words: of a line that is faulty, or of one that is
/// refused as it is run. None where the fault is of no line. Refusal 7 alone.
pub fn explanation(
    alloc: Global,
    fault: SimFault,
    input: &[u8],
) -> Result<Option<Reason>, AllocError>
    ensures { IfOk result (IsExplained fault input.now) }
{
    match fault {
        SimFault::Refused(refusal) => {
            if is_of_line(refusal) {
                why_script(alloc, input)
            } else {
                Ok(None)
            }
        }
        SimFault::CannotRead
        | SimFault::CannotWrite
        | SimFault::InputTooLong
        | SimFault::NoDump(_)
        | SimFault::Unlawful
        | SimFault::NoRun(_) => Ok(None),
    }
}
