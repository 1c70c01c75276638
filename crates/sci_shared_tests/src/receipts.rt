//! Node 0 stores 7 in word 0 of a line of zeros, and then node 1 loads: the receipts that their own ports keep, on each kind of line,
//! and those that a port round one keeps.
mod memory;

use crate::checks::same;
use crate::lines::TestedLine;
use crate::lines::banks::pair_of;
use sci_coarse::CoarseLine;
use sci_core::{AnyWords, Line, Receipt, Whole};
use sci_fine::FineLine;
use sci_ops::{Op, Turn};
use sci_port::{Port, Receipted, Receipts, SeatPort, Solo};
use sci_words::NodeId;
use std::alloc::Global;
use std::process::Abort;
use std::test::Fail;

const ZEROS: [u64; 8] = [0; 8];

const SEVEN: [u64; 8] = [7, 0, 0, 0, 0, 0, 0, 0];

/// Those of the node that stores.
const STORED: [Receipt; 2] = [
    Receipt::Passed {
        words: ZEROS,
        stamp: 0,
    },
    Receipt::Wrote {
        before: ZEROS,
        words: SEVEN,
        stamp: 1,
    },
];

/// That of the node that loads.
const LOADED: [Receipt; 1] = [Receipt::Read {
    words: SEVEN,
    stamp: 1,
}];

/// Those that node 0 is to have, or the other one.
pub(crate) fn expects(rt: &impl Abort, is_first: bool, receipts: &[Receipt]) {
    if is_first {
        same(rt, &receipts, &STORED.as_slice());
    } else {
        same(rt, &receipts, &LOADED.as_slice());
    }
}

// Turns to the operation's end. None: it has not ended after 100.
fn carry_out<P: Port<Keep = AnyWords>>(port: &mut P, op: &mut Op) -> Option<()> {
    for _ in 0..100 {
        if let Turn::Done(_) = op.turn(port) {
            return Some(());
        }
    }
    None
}

// Node 0 stores, and only passes on its way; another node loads.
fn store_or_load<P: Port<Keep = AnyWords>>(port: &mut P) -> Option<()> {
    let is_first = port.node().get() == 0;
    let mut op = if is_first {
        Op::store(0, 7).ok()?
    } else {
        Op::load()
    };
    port.aim(is_first);
    carry_out(port, &mut op)
}

// The same, where there is room for so many receipts.
fn with_room<P: Port<Keep = AnyWords>>(
    rt: &impl Abort,
    port: &mut P,
    room: usize,
) -> Result<(), Fail> {
    same(rt, &(port.room(), port.last_passed()), &(0, false));
    port.reserve(room)?;
    assert!(rt; port.room() >= room);
    store_or_load(port).ok_or("it has not ended")?;
    same(rt, &port.last_passed(), &false);
    Ok(())
}

// The same by a port round this one: what it kept.
fn kept<P: Port<Keep = AnyWords>>(
    rt: &impl Abort,
    alloc: Global,
    port: &mut P,
    room: usize,
) -> Result<Receipts, Fail> {
    let mut receipts = Receipts::new(alloc);
    with_room(rt, &mut Receipted::new(port, &mut receipts), room)?;
    Ok(receipts)
}

// A port round this one keeps what it is to keep.
fn keeps<P: Port<Keep = AnyWords>>(
    rt: &impl Abort,
    alloc: Global,
    port: &mut P,
) -> Result<(), Fail> {
    let is_first = port.node().get() == 0;
    let receipts = kept(rt, alloc, port, 2)?;
    expects(rt, is_first, receipts.as_slice());
    Ok(())
}

// A node's port to a line that is lent keeps it, and so does one round the port, on another such line.
fn on_wholes(
    rt: &impl Abort,
    alloc: Global,
    whole: &mut Whole<AnyWords>,
    another: &mut Whole<AnyWords>,
    number: u16,
) -> Result<(), Fail> {
    let node = NodeId::new(number).ok_or("no such node")?;
    if node.get() >= whole.nodes() || node.get() >= another.nodes() {
        return Err("no such node on the line")?;
    }
    let mut receipts = Receipts::new(alloc);
    with_room(rt, &mut Solo::new(whole, &mut receipts, node), 2)?;
    expects(rt, number == 0, receipts.as_slice());
    let mut none = Receipts::new(alloc);
    keeps(rt, alloc, &mut Solo::new(another, &mut none, node))
}

#[test]
fn receipts_on_a_line_that_is_lent(rt: HostRuntime) -> Result<(), Fail> {
    let mut whole = Whole::open(rt.alloc(), 2, 0, Line::ZERO, AnyWords)?;
    let mut another = Whole::open(rt.alloc(), 2, 0, Line::ZERO, AnyWords)?;
    on_wholes(&rt, rt.alloc(), &mut whole, &mut another, 0)?;
    on_wholes(&rt, rt.alloc(), &mut whole, &mut another, 1)
}

// Ports round the ports of a line that threads share keep them.
fn on_shared<L: TestedLine>(rt: &impl Abort, alloc: Global) -> Result<(), Fail> {
    let (line, mut zero, mut one) = pair_of::<L>(alloc, 0)?;
    keeps(rt, alloc, &mut SeatPort::new(&line, &mut zero))?;
    keeps(rt, alloc, &mut SeatPort::new(&line, &mut one))
}

#[test]
fn receipts_on_lines_that_are_shared(rt: HostRuntime) -> Result<(), Fail> {
    on_shared::<CoarseLine<AnyWords>>(&rt, rt.alloc())?;
    on_shared::<FineLine<AnyWords>>(&rt, rt.alloc())
}

// Seats of such a line keep what their ports are to keep.
fn seats_keep<L: TestedLine>(rt: &impl Abort, alloc: Global) -> Result<(), Fail> {
    let (line, mut zero, mut one) = pair_of::<L>(alloc, 0)?;
    with_room(rt, &mut SeatPort::new(&line, &mut zero), 2)?;
    with_room(rt, &mut SeatPort::new(&line, &mut one), 2)?;
    expects(rt, true, L::receipts(&zero));
    expects(rt, false, L::receipts(&one));
    Ok(())
}

#[test]
fn seats_keep_receipts(rt: HostRuntime) -> Result<(), Fail> {
    seats_keep::<CoarseLine<AnyWords>>(&rt, rt.alloc())?;
    seats_keep::<FineLine<AnyWords>>(&rt, rt.alloc())
}

// Where there is no room nothing is kept, and the operations go on.
fn keeps_none<L: TestedLine>(rt: &impl Abort, alloc: Global) -> Result<(), Fail> {
    let (line, mut zero, mut one) = pair_of::<L>(alloc, 0)?;
    with_room(rt, &mut SeatPort::new(&line, &mut zero), 0)?;
    same(rt, &L::receipts(&zero).len(), &0);
    let receipts = kept(rt, alloc, &mut SeatPort::new(&line, &mut one), 0)?;
    same(rt, &receipts.as_slice().len(), &0);
    Ok(())
}

#[test]
fn none_are_kept_without_room(rt: HostRuntime) -> Result<(), Fail> {
    keeps_none::<FineLine<AnyWords>>(&rt, rt.alloc())
}
