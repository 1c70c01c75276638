//! Each growth may be refused: its call then answers 7 or an `AllocError`, and a second try has the memory. With ample memory
//! this test passes. tools/allocations runs it once for each growth of its table, with that one refused, and the test ends by
//! saying which call answered it.
use super::{SHARED, SHARED_2, is_written_as, text_of};
use crate::checks::same;
use sci_dump::{Dump, DumpRefusal, Verdict, check, read_dump};
use std::alloc::Global;
use std::process::Abort;
use std::test::Fail;

fn reads(rt: &impl Abort, alloc: Global) -> Result<Dump, Fail> {
    match read_dump(alloc, SHARED.as_bytes()) {
        Ok(read) => Ok(read),
        Err(refusal) => {
            same(rt, &refusal, &DumpRefusal::OutOfMemory);
            same(rt, &refusal.number(), &7);
            read_dump(alloc, SHARED.as_bytes())?;
            Err(Fail::new("read_dump answered 7"))
        }
    }
}

fn writes(rt: &impl Abort, alloc: Global, read: &Dump) -> Result<(), Fail> {
    match text_of(alloc, read) {
        Ok(text) => {
            assert!(rt; text.as_str() == SHARED_2);
            Ok(())
        }
        Err(_) => {
            assert!(rt; is_written_as(alloc, read, SHARED.as_bytes()));
            Err(Fail::new("dump answered 7"))
        }
    }
}

/// Growths: 3 of read_dump, 6 of dump.
#[test]
fn refused_growths(rt: HostRuntime) -> Result<(), Fail> {
    let read = reads(&rt, rt.alloc())?;
    same(&rt, &check(&read), &Verdict::Lawful);
    writes(&rt, rt.alloc(), &read)
}
