//! Entries take no memory. tools/allocations runs this test with the allocation of its last line refused, and wants it to fail
//! there, and there alone.
use super::{entry, follow, take, two_lines};
use crate::checks::{allocates, same};
use sci_core::{Event, Line};
use sci_logs::{Claim, Follower};
use std::process::Abort;

/// Node 1 loads line 0 and looks at its own tag, and leaves.
fn passes(rt: &impl Abort, follower: &mut Follower) {
    for passed in [
        entry(1, Event::Queue(None), Claim::Done),
        entry(1, Event::PrependValid, Claim::Done),
        entry(1, Event::ReturnMemory, Claim::Done),
        entry(1, Event::Settle, Claim::Answered(Line::ZERO)),
    ]
    .iter()
    {
        same(rt, &take(follower, passed), &Some(Ok(())));
    }
    for _ in 0..100_000 {
        let look = entry(1, Event::Look, Claim::Done);
        same(rt, &take(follower, &look), &Some(Ok(())));
    }
    let looks = [entry(1, Event::Look, Claim::Done); 64];
    same(rt, &follow(follower, &looks), &Some(Ok(())));
}

#[test]
fn entries_take_no_memory(rt: HostRuntime) {
    // `open` takes seven.
    let Ok(mut follower) = two_lines(rt.alloc()) else {
        panic!(rt; "no memory")
    };
    passes(&rt, &mut follower);
    allocates(&rt, rt.alloc(), "allocation 8 is refused");
}
