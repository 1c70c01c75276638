//! Each growth may be refused: its call then answers 7, all is as before, and a second try has the memory. With ample memory
//! this test passes. tools/allocations runs it once for each growth of its table, with that one refused, and the test ends by
//! saying which call answered it.
ghost use Rattle.std.specs.Prelude.{◌≡◌, IfOk, length};

use super::receipts::{have, of_three};
use super::waiting::{CALLS, called, ends, seated};
use super::{Lent, ended, given_back, opened};
use crate::checks::{same, same_at};
use sci_cache::{Node, NodeRefusal, Request};
use sci_core::{AnyWords, Line, OpenRefusal, Receipt};
use sci_ops::Answer;
use sci_port::SoloBank;
use sci_words::NodeId;
use std::alloc::Global;
use std::process::Abort;
use std::sync::Wait;
use std::test::Fail;

// A node of three lines, which may name so many.
fn made(rt: &impl Abort, alloc: Global, capacity: u16) -> Result<Node, Fail>
    ensures { IfOk result (λ node. node.lines ≡ 3) }
{
    let zero = NodeId::new(0).ok_or("no node")?;
    match Node::new(alloc, zero, 3, capacity) {
        Ok(node) => Ok(node),
        Err(refusal) => {
            same(rt, &refusal, &NodeRefusal::OutOfMemory);
            let again = Node::new(alloc, zero, 3, capacity)?;
            super::lists(rt, alloc, &again, &[])?;
            Err(Fail::new("new answered 7"))
        }
    }
}

fn lent(rt: &impl Abort, alloc: Global) -> Result<Lent, Fail> {
    match opened(alloc, 1, 3, Line::ZERO) {
        Ok(wholes) => Ok(wholes),
        Err(refusal) => {
            same(rt, &refusal, &OpenRefusal::OutOfMemory);
            Err(Fail::new("open answered 7"))
        }
    }
}

// Begins a load over three lines, where so much stands: at a second try, if it is refused memory. The node's bank.
fn begins(
    rt: &impl Abort,
    alloc: Global,
    node: &mut Node,
    lent: Lent,
    line: u16,
    stands: (&[u16], [&[Receipt]; 3]),
) -> Result<SoloBank<AnyWords>, Fail>
    requires { node.old.lines ≡ 3 }
    ensures node { node.new.lines ≡ 3 }
    ensures bank { IfOk result (λ bank. (bank.node ≡ node.new.id) × (length bank.wholes.items ≡ 3)) }
{
    let load = Request::Load { line };
    let (named, receipts) = stands;
    let mut bank = of_three(lent, node)?;
    let Err(refusal) = node.begin(&mut bank, load) else {
        return Ok(bank);
    };
    same(rt, &refusal, &NodeRefusal::OutOfMemory);
    same(rt, &refusal.number(), &7);
    assert!(rt; !node.open());
    super::lists(rt, alloc, node, named)?;
    let lent = given_back(bank);
    have(rt, &lent, &receipts);
    let mut bank = of_three(lent, node)?;
    same(rt, &node.begin(&mut bank, load), &Ok(()));
    Err(Fail::new("begin answered 7"))
}

// The residents are these.
fn lists(rt: &impl Abort, alloc: Global, node: &Node, named: &[u16]) -> Result<(), Fail> {
    if let Ok(lines) = node.resident(alloc) {
        same(rt, &lines.as_slice(), &named);
        return Ok(());
    }
    super::lists(rt, alloc, node, named)?;
    Err(Fail::new("resident answered 7"))
}

// What is told of a call that waits and was refused memory.
fn told(request: Request) -> Fail {
    Fail::new(match request {
        Request::Load { .. } => "load answered 7",
        Request::Store { .. } => "store answered 7",
        Request::Add { .. } => "add answered 7",
        Request::WriteLine { .. } => "write_line answered 7",
        Request::Evict { .. } => "evict answered 7",
    })
}

// A call that waits, of a node that names these lines, has this answer: at a second try, if it is refused memory.
fn waits<R: Abort + Wait>(
    rt: &R,
    alloc: Global,
    node: &mut Node,
    bank: &mut SoloBank<AnyWords>,
    call: (Request, Answer),
    named: &[u16],
) -> Result<(), Fail>
    requires node { (node.old.id ≡ bank.old.node) × (node.old.lines ≡ 1) }
    requires bank { length bank.old.wholes.items ≡ 1 }
    ensures node { (node.new.id ≡ bank.new.node) × (node.new.lines ≡ 1) }
    ensures bank { length bank.new.wholes.items ≡ 1 }
{
    let (request, want) = call;
    match called(rt, node, bank, request) {
        Ok(answer) => {
            same_at(rt, &request, &answer, &want);
            return Ok(());
        }
        Err(refusal) => same_at(rt, &request, &refusal, &NodeRefusal::OutOfMemory),
    }
    assert!(rt; !node.open());
    super::lists(rt, alloc, node, named)?;
    ends(rt, node, bank, request, Ok(want));
    Err(told(request))
}

// The same of a node of three lines that names this one, over lines with these receipts: the lines after it.
fn waits_on<R: Abort + Wait>(
    rt: &R,
    alloc: Global,
    node: &mut Node,
    lent: Lent,
    call: (Request, Answer),
    stands: (u16, [&[Receipt]; 3]),
) -> Result<Lent, Fail>
    requires { node.old.lines ≡ 3 }
    ensures { node.new.lines ≡ 3 }
{
    let (request, want) = call;
    let (named, receipts) = stands;
    let mut bank = of_three(lent, node)?;
    match called(rt, node, &mut bank, request) {
        Ok(answer) => {
            same_at(rt, &request, &answer, &want);
            return Ok(given_back(bank));
        }
        Err(refusal) => same_at(rt, &request, &refusal, &NodeRefusal::OutOfMemory),
    }
    assert!(rt; !node.open());
    super::lists(rt, alloc, node, &[named])?;
    let lent = given_back(bank);
    have(rt, &lent, &receipts);
    let mut bank = of_three(lent, node)?;
    ends(rt, node, &mut bank, request, Ok(want));
    Err(told(request))
}

// The calls that wait, each on a line that was left.
fn waits_each<R: Abort + Wait>(rt: &R, alloc: Global) -> Result<(), Fail> {
    let (mut node, mut bank) = seated(alloc, Line::ZERO)?;
    let evict = (Request::Evict { line: 0 }, Answer::Out);
    for call in CALLS {
        waits(rt, alloc, &mut node, &mut bank, call, &[])?;
        waits(rt, alloc, &mut node, &mut bank, evict, &[0])?;
    }
    Ok(())
}

// What a load leaves.
const SAW: Receipt = Receipt::Read {
    words: [0; 8],
    stamp: 0,
};

// For how many receipts the first growth makes room.
const FIRST: usize = 4;

const FULL: [Receipt; FIRST] = [SAW; FIRST];

// Loads of a line that was loaded once, for as many receipts as there is room.
fn filled(rt: &impl Abort, node: &mut Node, lent: Lent, line: u16) -> Result<Lent, Fail>
    requires { node.old.lines ≡ 3 }
    ensures { node.new.lines ≡ 3 }
{
    let mut lent = lent;
    for _ in 1..FIRST {
        lent = super::finds_zeros(rt, node, lent, line, 2)?;
    }
    Ok(lent)
}

// Begins a load of a line that isn't named yet, and ends it: the lines after it.
fn loads(
    rt: &impl Abort,
    alloc: Global,
    node: &mut Node,
    lent: Lent,
    line: u16,
    stands: (&[u16], [&[Receipt]; 3]),
) -> Result<Lent, Fail>
    requires { node.old.lines ≡ 3 }
    ensures { node.new.lines ≡ 3 }
{
    let mut bank = begins(rt, alloc, node, lent, line, stands)?;
    ended(node, &mut bank).ok_or("no end")?;
    Ok(given_back(bank))
}

// Line 0 is loaded for as many receipts as there is room, and then line 1, which puts it out.
fn fills_two(rt: &impl Abort, alloc: Global, node: &mut Node, lent: Lent) -> Result<Lent, Fail>
    requires { node.old.lines ≡ 3 }
    ensures { node.new.lines ≡ 3 }
{
    let lent = loads(rt, alloc, node, lent, 0, (&[], [&[]; 3]))?;
    let lent = filled(rt, node, lent, 0)?;
    let lent = loads(rt, alloc, node, lent, 1, (&[0], [&FULL, &[], &[]]))?;
    filled(rt, node, lent, 1)
}

// Line 2 is loaded so, which puts line 1 out, and then it is evicted.
fn fills_the_last<R: Abort + Wait>(
    rt: &R,
    alloc: Global,
    node: &mut Node,
    lent: Lent,
) -> Result<(), Fail>
    requires { node.old.lines ≡ 3 }
{
    let load = (Request::Load { line: 2 }, super::ZEROS);
    let lent = waits_on(rt, alloc, node, lent, load, (1, [&FULL, &FULL, &[]]))?;
    let lent = filled(rt, node, lent, 2)?;
    let evict = (Request::Evict { line: 2 }, Answer::Out);
    waits_on(rt, alloc, node, lent, evict, (2, [&FULL; 3]))?;
    Ok(())
}

/// Growths: 11 of open, 2 of new, 8 of begin, 2 of load, 1 of evict.
#[test]
fn refused_receipts(rt: HostRuntime) -> Result<(), Fail> {
    let lent = lent(&rt, rt.alloc())?;
    let mut node = made(&rt, rt.alloc(), 1)?;
    let lent = fills_two(&rt, rt.alloc(), &mut node, lent)?;
    fills_the_last(&rt, rt.alloc(), &mut node, lent)
}

/// Growths: 2 of new, 11 of open, 8 of begin, 1 of resident, 5 of open, 2 of new, 6 of store, 1 of load, 1 of evict, 1 of add, 1 of write_line, 1 of evict.
#[test]
fn refused_growths(rt: HostRuntime) -> Result<(), Fail> {
    let alloc = rt.alloc();
    let mut node = made(&rt, alloc, 2)?;
    let lent = lent(&rt, alloc)?;
    let lent = loads(&rt, alloc, &mut node, lent, 2, (&[], [&[]; 3]))?;
    begins(&rt, alloc, &mut node, lent, 1, (&[2], [&[], &[], &[SAW]]))?;
    lists(&rt, alloc, &node, &[1, 2])?;
    waits_each(&rt, alloc)
}
