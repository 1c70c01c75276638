//! Why the program fails, and what is said of it.

use crate::streams::{Input, Output, Said};
use sci_serve::{RaceFault, SimFault, Text, explained};
use std::alloc::{AllocError, Global};
use std::fmt::{self, Display};

/// Why the program fails, and what its second line says of that, where it is wanted and known.
#[derive(Drop)]
pub(crate) struct Failure {
    pub(crate) fault: RaceFault,
    pub(crate) reason: Option<String>,
}

impl Failure {
    /// A fault of a file or a stream, and what the system says of it, where that is wanted.
    pub(crate) fn of(
        alloc: Global,
        fault: SimFault,
        why: bool,
        name: &str,
        words: Said,
    ) -> Failure {
        Failure {
            fault: RaceFault::Fault(fault),
            reason: if why {
                said_of(alloc, name, words)
            } else {
                None
            },
        }
    }

    /// A fault and its reason, where that is wanted and known.
    pub(crate) fn told<E: Display + Drop>(
        alloc: Global,
        fault: SimFault,
        reason: Option<E>,
        why: bool,
    ) -> Failure {
        let reason = match reason {
            Some(reason) if why => format!(in alloc; "{reason}").ok(),
            _ => None,
        };
        Failure {
            fault: RaceFault::Fault(fault),
            reason,
        }
    }
}

impl From<SimFault> for Failure {
    fn from(fault: SimFault) -> Failure {
        Failure {
            fault: RaceFault::Fault(fault),
            reason: None,
        }
    }
}

impl From<AllocError> for Failure {
    fn from(_e: AllocError) -> Failure {
        Failure::from(SimFault::from(AllocError))
    }
}

/// Why a text is refused with this fault, in words, where that is known: not of memory that ran out, also here.
pub(crate) fn reason_of(
    alloc: Global,
    fault: SimFault,
    text: Text,
    input: &[u8],
) -> Option<String> {
    match explained(alloc, text, fault, input) {
        Ok(Some(reason)) => format!(in alloc; "{reason}").ok(),
        Ok(None) | Err(_) => None,
    }
}

/// A name, with escapes for characters that a terminal takes for orders.
#[derive(Drop)]
struct Shown<'a>(&'a str);

impl Display for Shown<'_> {
    fn fmt<W: fmt::Write>(&self, f: &mut fmt::Formatter<W>) -> fmt::Result {
        for letter in self.0.chars() {
            if letter.is_control() {
                let escaped = letter.escape_default();
                write!(f, "{escaped}")?;
            } else {
                f.write_char(letter)?;
            }
        }
        Ok(())
    }
}

/// What the system says of a file or a stream.
fn said_of(alloc: Global, name: &str, words: Said) -> Option<String> {
    let name = Shown(name);
    format!(in alloc; "{name}: {words}").ok()
}

/// Why a stream is at fault, in words.
pub(crate) fn stream_reason(
    alloc: Global,
    fault: RaceFault,
    input: &Input<'_>,
    output: &Output,
) -> Option<String> {
    match fault {
        RaceFault::Fault(SimFault::CannotRead) => said_of(alloc, input.name, input.fault()),
        RaceFault::Fault(SimFault::CannotWrite) => {
            said_of(alloc, "standard output", output.fault())
        }
        _ => None,
    }
}
