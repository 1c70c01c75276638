//! Each growth of receipts may be refused: it then answers an `AllocError`, all is as before, and a second try has the memory.
//! With ample memory this test passes. tools/allocations runs it once for each growth of its table, with that one refused, and
//! the test ends by saying which call answered it.
use super::{SEVEN_AT_1, passed, passes_again, receives};
use crate::checks::same;
use sci_core::{Event, Line, Outcome};
use sci_port::Receipts;
use std::alloc::Global;
use std::process::Abort;
use std::test::Fail;

// Room for so many more is there; or it was refused, and all is as before, and then a second try has it.
fn reserves(rt: &impl Abort, receipts: &mut Receipts, n: usize) -> Result<(), Fail> {
    let (count, room, passed) = (
        receipts.as_slice().len(),
        receipts.room(),
        receipts.last_passed(),
    );
    if receipts.reserve(n).is_ok() {
        assert!(rt; receipts.room() >= n);
        return Ok(());
    }
    same(rt, &receipts.as_slice().len(), &count);
    same(rt, &receipts.room(), &room);
    same(rt, &receipts.last_passed(), &passed);
    receipts.reserve(n)?;
    assert!(rt; receipts.room() >= n);
    Err(Fail::new("reserve answered 7"))
}

// Fills the room with settles that aren't passed, but for the last.
fn fills(receipts: &mut Receipts) -> Option<()> {
    let settled = Outcome::Done(Some(SEVEN_AT_1));
    for _ in 1..receipts.room() {
        receives(receipts, Event::Settle, &Line::ZERO, &settled)?;
    }
    receipts.aim(true);
    receives(receipts, Event::Settle, &Line::ZERO, &settled)
}

// No receipts for each of so many lines: at a second try, if memory was refused.
fn begins(rt: &impl Abort, alloc: Global, lines: usize) -> Result<(), Fail> {
    if let Ok(all) = Receipts::of_lines(alloc, lines) {
        same(rt, &all.len(), &lines);
        return Ok(());
    }
    same(rt, &Receipts::of_lines(alloc, lines)?.len(), &lines);
    Err(Fail::new("of_lines answered 7"))
}

/// Growths: 2 of reserve, 1 of of_lines.
#[test]
fn refused_growths(rt: HostRuntime) -> Result<(), Fail> {
    let mut receipts = Receipts::new(rt.alloc());
    reserves(&rt, &mut receipts, 2)?;
    fills(&mut receipts).ok_or("no room")?;
    same(&rt, &receipts.room(), &0);
    assert!(rt; passes_again(&mut receipts, Line::ZERO));
    same(&rt, &receipts.as_slice().last(), &Some(&passed(Line::ZERO)));
    reserves(&rt, &mut receipts, 2)?;
    begins(&rt, rt.alloc(), 3)
}
