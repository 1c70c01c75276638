//! Receipts take memory in `reserve` alone, and there only for room that there isn't. tools/allocations runs this test with the
//! allocation of its last line refused, and wants it to fail there, and there alone.
use super::{SEVEN_AT_1, passes_again, receives, rows, with_room};
use crate::checks::{allocates, same};
use sci_core::{Event, Line, Outcome};
use sci_port::Receipts;
use std::test::Fail;

const ROUNDS: u32 = 10_000;

// A settle that is passed, again and again, and room that is there.
fn passes(receipts: &mut Receipts) -> Option<u32> {
    let settled = Outcome::Done(Some(SEVEN_AT_1));
    receipts.aim(true);
    receives(receipts, Event::Settle, &Line::ZERO, &settled)?;
    let mut count: u32 = 0;
    for _ in 0..ROUNDS {
        receipts.reserve(1).ok()?;
        if passes_again(receipts, SEVEN_AT_1) {
            count = count.saturating_add(1);
        }
    }
    Some(count)
}

// Each kind of receipt, and events that append none: how many receipts there are then.
fn receives_each(receipts: &mut Receipts) -> Option<usize> {
    for row in rows() {
        let (passing, event, outcome, _, _) = row;
        receipts.aim(passing);
        receives(receipts, event, &SEVEN_AT_1, &outcome)?;
    }
    Some(receipts.as_slice().len())
}

#[test]
fn receipts_take_no_memory(rt: HostRuntime) -> Result<(), Fail> {
    // The room takes one, and receipts without any take none.
    let none = Receipts::new(rt.alloc());
    same(&rt, &none.room(), &0);
    same(&rt, &none.last_passed(), &false);
    let mut receipts = with_room(rt.alloc(), 5)?;
    same(&rt, &passes(&mut receipts), &Some(ROUNDS));
    same(&rt, &receives_each(&mut receipts), &Some(4));
    same(&rt, &receipts.into_vec().len(), &4);
    allocates(&rt, rt.alloc(), "allocation 2 is refused");
    Ok(())
}
