//! Each growth may be refused: its call then answers an `AllocError`, and a second try has the memory. With ample memory this test
//! passes. tools/allocations runs it once for each growth of its table, with that one refused, and the test ends by saying which call
//! answered it.

use crate::checks::same;
use sci_reasons::{RowFault, why_dump, why_history};
use std::alloc::{AllocError, Global};
use std::process::Abort;
use std::test::Fail;

const DUMP: &[u8] = b"scidump 2 2 1\nend\n";

const HISTORY: &[u8] = b"scihistory 1 1 1\nend\n";

/// Whether the second line is at fault.
fn is_told(why: Result<Option<RowFault>, AllocError>) -> bool {
    match why {
        Ok(Some(fault)) => fault.line == 2,
        _ => false,
    }
}

fn refuses(rt: &impl Abort, alloc: Global) -> Result<(), Fail> {
    if !is_told(why_dump(alloc, DUMP)) {
        same(rt, &is_told(why_dump(alloc, DUMP)), &true);
        return Err(Fail::new("why_dump answered 7"));
    }
    if !is_told(why_history(alloc, HISTORY)) {
        same(rt, &is_told(why_history(alloc, HISTORY)), &true);
        return Err(Fail::new("why_history answered 7"));
    }
    Ok(())
}

/// Growths: 1 of why_dump, 2 of why_history.
#[test]
fn refused_growths(rt: HostRuntime) -> Result<(), Fail> {
    refuses(&rt, rt.alloc())
}
