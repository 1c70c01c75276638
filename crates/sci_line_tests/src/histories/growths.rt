//! Each growth may be refused: its call then answers 7, or an `AllocError`, and a second try has the memory. With ample memory this
//! test passes. tools/allocations runs it once for each growth of its table, with that one refused, and the test ends by saying which
//! call answered it.

use super::STORE_AND_LOAD;
use crate::checks::same;
use sci_dump::DumpRefusal;
use sci_histories::{History, Verdict, check_history, history_text, read_history};
use std::alloc::Global;
use std::process::Abort;
use std::test::Fail;

fn checks(alloc: Global, history: &History) -> Option<Verdict> {
    check_history(alloc, history).ok()
}

/// Whether its text is the one that it was read from.
fn is_written(alloc: Global, history: &History) -> bool {
    match history_text(alloc, history) {
        Ok(text) => text.as_bytes() == STORE_AND_LOAD.as_bytes(),
        Err(_) => false,
    }
}

fn refuses(rt: &impl Abort, alloc: Global) -> Result<(), Fail> {
    let history = match read_history(alloc, STORE_AND_LOAD.as_bytes()) {
        Ok(history) => history,
        Err(refusal) => {
            same(rt, &refusal, &DumpRefusal::OutOfMemory);
            let again = read_history(alloc, STORE_AND_LOAD.as_bytes()).is_ok();
            same(rt, &again, &true);
            return Err(Fail::new("read_history answered 7"));
        }
    };
    if checks(alloc, &history).is_none() {
        same(rt, &checks(alloc, &history), &Some(Verdict::Legal));
        return Err(Fail::new("check_history answered 7"));
    }
    if !is_written(alloc, &history) {
        same(rt, &is_written(alloc, &history), &true);
        return Err(Fail::new("history_text answered 7"));
    }
    Ok(())
}

/// Growths: 4 of read_history, 1 of check_history, 5 of history_text.
#[test]
fn refused_growths(rt: HostRuntime) -> Result<(), Fail> {
    refuses(&rt, rt.alloc())
}
