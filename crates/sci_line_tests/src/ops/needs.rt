//! How much room operations ask for on their way, worked out by hand.
use crate::checks::same;
use sci_core::{AnyWords, Line, Whole};
use sci_ops::{Goal, Op};
use sci_port::{Port, Receipts, Solo};
use sci_words::NodeId;
use std::alloc::AllocError;
use std::process::Abort;
use std::test::Fail;

type Needs = [usize; 8];

// What the operation needs before each of eight turns, once it has the room that it needs before the first.
fn needs<P: Port<Keep = AnyWords>>(port: &mut P, op: &mut Op) -> Result<Needs, AllocError> {
    port.aim(!matches!(op.goal(), Goal::Load));
    port.reserve(op.need(port))?;
    let mut needs = [0; 8];
    for k in 0..8 {
        needs[k] = op.need(port);
        let _ = op.turn(port);
    }
    Ok(needs)
}

// A write, a load, a write behind the first turn of a load, and an eviction.
fn needs_in_turn<P: Port<Keep = AnyWords>>(port: &mut P) -> Result<[Needs; 4], AllocError> {
    let entering = needs(port, &mut Op::write_line([3; 8]))?;
    let load = needs(port, &mut Op::load())?;
    let _ = Op::load().turn(port);
    let held = needs(port, &mut Op::write_line([4; 8]))?;
    let leaving = needs(port, &mut Op::evict())?;
    Ok([entering, load, held, leaving])
}

#[test]
fn operations_need_less_on_their_way(rt: HostRuntime) -> Result<(), Fail> {
    let mut whole = Whole::open(rt.alloc(), 1, 0, Line::ZERO, AnyWords)?;
    let mut receipts = Receipts::new(rt.alloc());
    let node = NodeId::new(0).ok_or("no node")?;
    if node.get() >= whole.nodes() {
        return Err(Fail::new("no such node"));
    }
    let mut port = Solo::new(&mut whole, &mut receipts, node);
    let needs = needs_in_turn(&mut port)?;
    let by_hand = [
        [2, 2, 2, 2, 1, 1, 0, 0],
        [1, 1, 0, 0, 0, 0, 0, 0],
        [3, 2, 2, 0, 0, 0, 0, 0],
        [1, 1, 1, 1, 0, 0, 0, 0],
    ];
    same(&rt, &needs, &by_hand);
    Ok(())
}
