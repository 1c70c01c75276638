//! A port that keeps receipts takes no memory, with room for them and without. tools/allocations runs this test with the allocation
//! of its last line refused, and wants it to fail there, and there alone.
use super::carry_out;
use crate::checks::{allocates, same};
use sci_core::{AnyWords, Line, Whole};
use sci_ops::Op;
use sci_port::{Port, Receipted, Receipts, Solo};
use sci_words::NodeId;
use std::test::Fail;

const ROUNDS: u32 = 1_000;

// A load, a store and an eviction, so often: how many of them ended.
fn rounds<P: Port<Keep = AnyWords>>(port: &mut P) -> Option<u32> {
    let mut ended: u32 = 0;
    for _ in 0..ROUNDS {
        for op in [Op::load(), Op::store(0, 7).ok()?, Op::evict()] {
            let mut op = op;
            carry_out(port, &mut op)?;
            ended = ended.saturating_add(1);
        }
    }
    Some(ended)
}

// The same on a line that is lent, of a node of it.
fn rounds_on(whole: &mut Whole<AnyWords>, receipts: &mut Receipts) -> Option<u32> {
    let node = NodeId::new(0)?;
    if node.get() >= whole.nodes() {
        return None;
    }
    let mut none = Receipts::new(whole.allocator());
    let mut solo = Solo::new(whole, &mut none, node);
    rounds(&mut Receipted::new(&mut solo, receipts))
}

#[test]
fn receipted_ports_take_no_memory(rt: HostRuntime) -> Result<(), Fail> {
    // The line takes three, and the room one.
    let mut whole = Whole::open(rt.alloc(), 2, 0, Line::ZERO, AnyWords)?;
    let mut receipts = Receipts::new(rt.alloc());
    receipts.reserve(5)?;
    same(
        &rt,
        &rounds_on(&mut whole, &mut receipts),
        &Some(3 * ROUNDS),
    );
    same(&rt, &receipts.room(), &0);
    allocates(&rt, rt.alloc(), "allocation 5 is refused");
    Ok(())
}
