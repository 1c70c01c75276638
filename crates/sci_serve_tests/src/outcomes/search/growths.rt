//! Each growth of a search may be refused: it then answers 7, and a second search has the memory. tools/allocations runs this test
//! once for each growth of its table, with that one refused.
use super::finds;
use crate::checks::same;
use sci_search::SearchRefusal;
use std::process::Abort;
use std::test::Fail;

/// Growths: 16 of search.
#[test]
fn refused_growths(rt: HostRuntime) -> Result<(), Fail> {
    let Err(refusal) = finds(&rt, rt.alloc(), 7) else {
        return Ok(());
    };
    same(&rt, &refusal, &SearchRefusal::OutOfMemory);
    finds(&rt, rt.alloc(), 7)?;
    Err(Fail::new("search answered 7"))
}
