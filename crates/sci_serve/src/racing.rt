//! The command `outcomes`, from the bytes of a script to the outcomes of the calls that it leaves open.

ghost use Rattle.std.specs.Prelude.{◌≡◌, ◌≤◌, [], ℕ, List, length, string_bytes, IfOk, OnOk, IfErr, IfSome};
ghost use Rattle.std.specs.Io.KnownBytes.{Appends, IsAtEnd};
ghost use Rattle.sci_script.specs.declared.refusals.ScriptRefusal.TheVariants.{OutOfMemory};
ghost use Rattle.sci_serve.specs.declared.faults.SimFault.TheVariants.{Refused};
ghost use Rattle.sci_serve.specs.declared.racing.RaceFault.TheVariants.{Fault};
ghost use Rattle.sci_serve.specs.Fault.{fault_of};
ghost use Rattle.sci_serve.specs.Races.{race_fault_of, race_status_of, IsRaceToldInTime, Races, StopsRacing};

use crate::faults::SimFault;
use crate::input::read_input;
use sci_outcomes::{outcomes_text, race_after, search_outcomes};
use sci_script::{ScriptRefusal, put, read_script};
use sci_search::{SearchRefusal, Watch};
use std::alloc::{AllocError, Global};
use std::io::{Read, Write};
use thiserror::Error;

/// Why the command `outcomes` fails.
#[derive(Clone, Copy, Debug, PartialEq, Eq, Drop, Error)]
pub enum RaceFault {
    /// As other commands fail.
    #[error(transparent)]
    Fault(SimFault),
    /// Turns lead to more states than were to be visited.
    #[error("too many states")]
    TooManyStates,
}

impl RaceFault {
    /// The status that the program ends with.
    pub fn status(self) -> u8
        ensures { result ≡ race_status_of self }
    {
        match self {
            RaceFault::Fault(fault) => fault.status(),
            RaceFault::TooManyStates => 1,
        }
    }
}

impl From<SimFault> for RaceFault {
    ghost from_gives = { λ f e. e ≡ Fault f };

    fn from(fault: SimFault) -> RaceFault {
        RaceFault::Fault(fault)
    }
}

impl From<ScriptRefusal> for RaceFault {
    ghost from_gives = { λ r e. e ≡ Fault (fault_of r) };

    fn from(refusal: ScriptRefusal) -> RaceFault {
        RaceFault::Fault(SimFault::from(refusal))
    }
}

impl From<SearchRefusal> for RaceFault {
    ghost from_gives = { λ r e. e ≡ race_fault_of r };

    fn from(refusal: SearchRefusal) -> RaceFault {
        match refusal {
            SearchRefusal::OutOfMemory => RaceFault::Fault(SimFault::Refused(
                ScriptRefusal::OutOfMemory,
            )),
            SearchRefusal::TooManyStates => RaceFault::TooManyStates,
        }
    }
}

impl From<AllocError> for RaceFault {
    ghost from_gives = { λ _ e. e ≡ Fault (Refused OutOfMemory) };

    fn from(_e: AllocError) -> RaceFault {
        RaceFault::Fault(SimFault::Refused(ScriptRefusal::OutOfMemory))
    }
}

/// The text of the outcomes of the calls that a script leaves open.
fn report<C: Watch>(
    alloc: Global,
    watch: &C,
    limit: usize,
    input: &[u8],
    most: usize,
) -> Result<String, RaceFault>
    requires { length input.now ≤ limit }
    ensures ok { IfOk result (λ text. Races limit most input.now (string_bytes text)) }
    ensures err { IfErr result (λ e. StopsRacing limit most e input.now []) }
{
    let script = read_script(alloc, input)?;
    let race = race_after(alloc, &script)?;
    let report = search_outcomes(alloc, watch, race, most)?;
    let text = outcomes_text(alloc, &report)?;
    Ok(text)
}

/// Reads a script of at most `limit` bytes to its end, runs it, and writes each outcome that the calls which it leaves open can come to, in whatever order they
/// take their turns: `states N`, `outcomes N`, and behind an empty line what the calls' ends print, the list of each line, and a
/// shortest order of turns that leads to it. Nothing is written where turns lead to more than `most` states. How many are visited is
/// told meanwhile.
pub fn serve_outcomes<C: Watch, R: Read, W: Write>(
    alloc: Global,
    watch: &C,
    limit: usize,
    most: usize,
    reader: &mut R,
    writer: &mut W,
) -> Result<(), RaceFault>
    ensures ok { OnOk result (IfSome (R.remaining reader.old) (λ input. (text : List ℕ) × Races limit most input text
        × Appends (W.contents writer.old) (W.contents writer.new) text)) }
    ensures err { IfErr result (λ e. IfSome (R.remaining reader.old) (λ input. (written : List ℕ) × StopsRacing limit most e input written
        × Appends (W.contents writer.old) (W.contents writer.new) written)) }
    ensures end { OnOk result (IsAtEnd (R.remaining reader.new)) }
    ensures in_time { IfErr result (λ e. IsRaceToldInTime e (R.remaining reader.new)) }
{
    let input = read_input(alloc, limit, reader)?;
    let text = report(alloc, watch, limit, &input, most)?;
    match put(writer, text.as_bytes()) {
        Ok(()) => Ok(()),
        Err(_) => Err(RaceFault::Fault(SimFault::CannotWrite)),
    }
}
