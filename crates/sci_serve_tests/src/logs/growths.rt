//! The command `check` of a log, over a reader and a writer, and how that begins. Each growth may be refused: they then answer refusal 7,
//! and a second try has the memory. With ample memory this test passes; tools/allocations runs it once for each growth.

use crate::checks::same;
use crate::growths::NO_MEMORY;
use sci_serve::{Beginning, Kind, SimFault, serve_follow};
use std::alloc::Global;
use std::io::sink;
use std::process::Abort;
use std::test::Fail;

/// Its first line is the longest, so the buffer for lines grows once.
const LOG: &str =
    "# node 0 begins to read line 0, which opens with stamp 40; this line is the longest\nmemory 2 2\nopen 0 40 1 2 3 4 5 6 7 8\nnode 0 line 0 Queue(none) Done\n";

fn serves(alloc: Global) -> Result<(), SimFault> {
    let mut input = LOG.as_bytes();
    serve_follow(alloc, &mut input, &mut sink())
}

fn refuses(rt: &impl Abort, alloc: Global) -> Result<(), Fail> {
    let served = serves(alloc);
    if served.is_err() {
        same(rt, &served, &Err(NO_MEMORY));
        same(rt, &serves(alloc), &Ok(()));
        return Err(Fail::new("serve_follow answered 7"));
    }
    Ok(())
}

fn begins(alloc: Global) -> Result<Kind, SimFault> {
    let beginning = Beginning::read(alloc, &mut LOG.as_bytes())?;
    Ok(beginning.kind)
}

fn refuses_beginnings(rt: &impl Abort, alloc: Global) -> Result<(), Fail> {
    let begun = begins(alloc);
    if begun.is_err() {
        same(rt, &begun, &Err(NO_MEMORY));
        same(rt, &begins(alloc), &Ok(Kind::Log));
        return Err(Fail::new("read answered 7"));
    }
    Ok(())
}

/// Growths: 11 of serve_follow, 3 of read.
#[test]
fn refused_growths(rt: HostRuntime) -> Result<(), Fail> {
    refuses(&rt, rt.alloc())?;
    refuses_beginnings(&rt, rt.alloc())
}
