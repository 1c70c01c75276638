//! Each growth of the command may be refused: it then answers 7, writes nothing, and a second try has the memory. With ample memory
//! this test passes; tools/allocations runs it once for each growth.
use super::LOAD;
use crate::checks::same;
use sci_script::ScriptRefusal;
use sci_search::Unwatched;
use sci_serve::{INPUT_LIMIT, RaceFault, SimFault, serve_outcomes, serve_play};
use std::alloc::Global;
use std::io::sink;
use std::process::Abort;
use std::test::Fail;

fn serves(alloc: Global) -> Result<(), RaceFault> {
    let mut input = LOAD.as_bytes();
    serve_outcomes(alloc, &Unwatched, INPUT_LIMIT, 5, &mut input, &mut sink())
}

fn refuses(rt: &impl Abort, alloc: Global) -> Result<(), Fail> {
    let Err(fault) = serves(alloc) else {
        return Ok(());
    };
    let short = RaceFault::Fault(SimFault::Refused(ScriptRefusal::OutOfMemory));
    same(rt, &fault, &short);
    same(rt, &serves(alloc), &Ok(()));
    Err(Fail::new("serve_outcomes answered 7"))
}

/// Growths: 102 of serve_outcomes.
#[test]
fn refused_growths(rt: HostRuntime) -> Result<(), Fail> {
    refuses(&rt, rt.alloc())
}

fn plays(alloc: Global) -> Result<(), RaceFault> {
    let mut input = LOAD.as_bytes();
    serve_play(alloc, &Unwatched, INPUT_LIMIT, 5, &mut input, &mut sink())
}

fn refuses_pages(rt: &impl Abort, alloc: Global) -> Result<(), Fail> {
    let Err(fault) = plays(alloc) else {
        return Ok(());
    };
    let short = RaceFault::Fault(SimFault::Refused(ScriptRefusal::OutOfMemory));
    same(rt, &fault, &short);
    same(rt, &plays(alloc), &Ok(()));
    Err(Fail::new("serve_play answered 7"))
}

/// Growths: 192 of serve_play.
#[test]
fn refused_growths_of_pages(rt: HostRuntime) -> Result<(), Fail> {
    refuses_pages(&rt, rt.alloc())
}
