//! Each growth may be refused: its call then answers an `AllocError`, all is as before, and a second try has the memory. With ample
//! memory this test passes. tools/allocations runs it once for each growth of its table, with that one refused, and the test ends
//! by saying which call answered it.
ghost use Rattle.std.specs.Prelude.{◌≡◌};

use super::{entry, take, two_lines};
use crate::checks::same;
use sci_core::{Event, Line};
use sci_logs::{Claim, Follower};
use std::alloc::Global;
use std::process::Abort;
use std::test::Fail;

const LINE: Line = Line {
    words: [1, 2, 3, 4, 5, 6, 7, 8],
    stamp: 40,
};

/// Node 0 loads line 0, which has this content.
fn loads(rt: &impl Abort, follower: &mut Follower, content: Line) {
    for loaded in [
        entry(0, Event::Queue(None), Claim::Done),
        entry(0, Event::PrependValid, Claim::Done),
        entry(0, Event::ReturnMemory, Claim::Done),
        entry(0, Event::Settle, Claim::Answered(content)),
    ]
    .iter()
    {
        same(rt, &take(follower, loaded), &Some(Ok(())));
    }
}

fn reopens(alloc: Global, follower: &mut Follower) -> bool
    ensures { follower.new.size ≡ follower.old.size }
{
    follower.size().lines != 0 && follower.reopen(alloc, 0, LINE).is_ok()
}

fn refuses(rt: &impl Abort, alloc: Global) -> Result<(), Fail> {
    let Ok(mut follower) = two_lines(alloc) else {
        loads(rt, &mut two_lines(alloc)?, Line::ZERO);
        return Err(Fail::new("open answered 7"));
    };
    if !reopens(alloc, &mut follower) {
        loads(rt, &mut follower, Line::ZERO);
        same(rt, &reopens(alloc, &mut follower), &true);
        loads(rt, &mut follower, LINE);
        return Err(Fail::new("reopen answered 7"));
    }
    loads(rt, &mut follower, LINE);
    Ok(())
}

/// Growths: 7 of open, 3 of reopen.
#[test]
fn refused_growths(rt: HostRuntime) -> Result<(), Fail> {
    refuses(&rt, rt.alloc())
}
