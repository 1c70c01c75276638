//! The command `outcomes` over a reader and a writer: what is written, worked out by hand.
mod growths;
mod plays;

use super::races::LOADED;
use crate::checks::{same_at, same_bytes_at};
use sci_script::ScriptRefusal;
use sci_search::Unwatched;
use sci_serve::{INPUT_LIMIT, RaceFault, SimFault, serve_outcomes};
use std::alloc::Global;
use std::io;
use std::io::Write;
use std::test::Fail;

/// A writer with so much room.
#[derive(Drop)]
struct Narrow {
    held: Vec<u8>,
    room: usize,
}

impl Write for Narrow {
    fn write(&mut self, buf: &[u8]) -> io::Result<usize> {
        let count = buf.len().min(self.room);
        self.held.extend_from_slice(&buf[..count])?;
        self.room -= count;
        Ok(count)
    }

    fn flush(&mut self) -> io::Result<()> {
        Ok(())
    }
}

const LOAD: &str = "memory 1 1\nload 0 0 0\n";

// A script, how many states may be visited, how much room there is, what is written, and the fault.
const CASES: [(&str, usize, usize, &str, Option<RaceFault>); 9] = [
    (LOAD, 5, 1000, LOADED, None),
    (LOAD, 4, 1000, "", Some(RaceFault::TooManyStates)),
    (LOAD, 0, 1000, "", Some(RaceFault::TooManyStates)),
    (
        LOAD,
        5,
        8,
        "states 5",
        Some(RaceFault::Fault(SimFault::CannotWrite)),
    ),
    (
        "memory 1 1\n",
        1,
        1000,
        "states 1\noutcomes 1\n\nline 0 HOME\n",
        None,
    ),
    // a node leaves a list that it isn't in
    (
        "memory 1 1\nevict 0 0\n",
        2,
        1000,
        "states 2\noutcomes 1\n\nnode 0 out\nline 0 HOME\nturn 0\n",
        None,
    ),
    // what the script prints is not among it, and a refusal of its run lists nothing
    (
        "memory 1 1\nload 0 0 0\ndone 0\n",
        1,
        1000,
        "states 1\noutcomes 1\n\nline 0 FRESH 0: 0 ONLY_FRESH\n",
        None,
    ),
    (
        "memory 1 1\nload 0 0 0\nload 0 0 0\n",
        100,
        1000,
        "",
        Some(RaceFault::Fault(SimFault::Refused(ScriptRefusal::BadCommand(3)))),
    ),
    (
        "",
        100,
        1000,
        "",
        Some(RaceFault::Fault(SimFault::Refused(ScriptRefusal::BadCommand(1)))),
    ),
];

// What is written of a script, and the fault.
fn served(
    alloc: Global,
    script: &str,
    most: usize,
    room: usize,
) -> (Vec<u8>, Result<(), RaceFault>) {
    let mut input = script.as_bytes();
    let mut output = Narrow {
        held: Vec::new(alloc),
        room,
    };
    let result = serve_outcomes(
        alloc,
        &Unwatched,
        INPUT_LIMIT,
        most,
        &mut input,
        &mut output,
    );
    (output.held, result)
}

#[test]
fn outcomes_are_written_where_there_is_room(rt: HostRuntime) -> Result<(), Fail> {
    for (script, most, room, wanted, fault) in CASES {
        let (written, result) = served(rt.alloc(), script, most, room);
        same_bytes_at(&rt, &script, &written, wanted.as_bytes());
        same_at(&rt, &script, &result.err(), &fault);
    }
    Ok(())
}
