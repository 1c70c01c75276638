//! Each growth may be refused: a dump that is judged line by line then ends with 7, and a second try has the memory.

use crate::checks::same;
use crate::growths::NO_MEMORY;
use crate::rows::DUMP;
use sci_serve::{SimFault, serve_check_large};
use std::alloc::Global;
use std::io::sink;
use std::process::Abort;
use std::test::Fail;

fn serves(alloc: Global) -> Result<(), SimFault> {
    let mut input = DUMP.as_bytes();
    serve_check_large(alloc, &mut input, &mut sink())
}

fn refuses(rt: &impl Abort, alloc: Global) -> Result<(), Fail> {
    let served = serves(alloc);
    if served.is_err() {
        same(rt, &served, &Err(NO_MEMORY));
        same(rt, &serves(alloc), &Ok(()));
        return Err(Fail::new("serve_check_large answered 7"));
    }
    Ok(())
}

/// Growths: 11 of serve_check_large.
#[test]
fn refused_growths(rt: HostRuntime) -> Result<(), Fail> {
    refuses(&rt, rt.alloc())
}
