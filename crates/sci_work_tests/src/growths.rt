//! Each growth may be refused: its call then answers 7, has given all back, and a second try has the memory. So may the memory of a
//! node's thread: the answer is 26. With ample memory this test passes. tools/allocations runs it once for each growth of its table,
//! with that one refused, and the test ends by saying which call answered it.
ghost use Rattle.std.specs.Prelude.{◌≡◌, ◌<◌, length};
ghost use Rattle.sci_work.specs.Made.{IsBankOf};
ghost use Rattle.sci_work.specs.Ring.{IsRing, IsRingOf};

use crate::checks::same;
use crate::gates::Hears;
use crate::rings::opened;
use crate::runs::Job;
use sci_cache::Node;
use sci_port::Bank;
use sci_words::NodeId;
use sci_work::{
    OpenGate, Recording, RingFact, WorkRefusal, consume, count, produce, ring, stencil,
};
use std::alloc::Global;
use std::process::Abort;
use std::sync::Wait;
use std::sync::atomic::{AtomicBool, Ordering};
use std::test::Fail;
use std::thread::Threads;

// A workload of one node; or a ring without items, whose nodes keep nothing: there is no growth for receipts, not even of their list
// of lines.
fn called<R: Abort + Threads + Wait + Sync>(
    rt: &R,
    alloc: Global,
    job: &Job,
    gate: &Hears<'_>,
) -> Result<(), WorkRefusal> {
    match job {
        Job::Count(_) => {
            let (word, memory) = count(rt, alloc, 1, 2, 1, gate)?;
            same(rt, &(word, memory.lines.len()), &(2, 1));
        }
        Job::Ring(_) => {
            let (items, memory) = ring(rt, alloc, &[0; 0], 1, 2, Recording::Nothing, gate)?;
            same(rt, &(items.len(), memory.lines.len()), &(0, 2));
        }
        Job::Stencil(_) => {
            let (cells, memory) = stencil(rt, alloc, &[1; 7], 1, 1, 1, Recording::All, gate)?;
            same(rt, &cells.as_slice(), &[2, 3, 3, 3, 3, 3, 2].as_slice());
            same(rt, &memory.lines.len(), &2);
        }
    }
    Ok(())
}

// Each call that was asked for has ended, also one that was refused.
fn has_heard(rt: &impl Abort, gate: &Hears<'_>) {
    let (asked, ended, is_open) = gate.heard(0);
    same(rt, &(asked, is_open), &(ended, false));
}

// The workload: at a second try, if it is refused memory, or a thread's.
fn tries<R: Abort + Threads + Wait + Sync>(
    rt: &R,
    alloc: Global,
    job: &Job,
    no_memory: &'static str,
    no_thread: &'static str,
) -> Result<(), Fail> {
    let stop = AtomicBool::new(false);
    let (gate, again) = (opens(&stop), opens(&stop));
    let ended = called(rt, alloc, job, &gate);
    has_heard(rt, &gate);
    let Err(refusal) = ended else {
        return Ok(());
    };
    called(rt, alloc, job, &again)?;
    if refusal == WorkRefusal::NoThread {
        return Err(Fail::new(no_thread));
    }
    same(rt, &refusal, &WorkRefusal::OutOfMemory);
    Err(Fail::new(no_memory))
}

// A gate that lets each call of node 0 start.
fn opens(stop: &AtomicBool) -> Hears<'_> {
    Hears::new(0, u64::MAX, stop, u64::MAX)
}

// The worker was refused memory, and has raised the mark.
fn stopped<R: Abort>(rt: &R, refusal: WorkRefusal, stop: &AtomicBool) {
    let is_raised = stop.load(Ordering::SeqCst);
    same(rt, &(refusal, is_raised), &(WorkRefusal::OutOfMemory, true));
}

// A node produces the items on a ring of one line: at a second try, if it is refused memory.
fn produces<R: Abort + Wait, B: Bank>(
    rt: &R,
    node: &mut Node,
    bank: &mut B,
    items: &[u64],
) -> Result<(), Fail>
    requires ready { IsBankOf (B.way bank.old) node.old }
    requires room { 1 < (B.way bank.old).lines }
    requires ring { IsRing (B.Keep.fits (B.keep bank.old)) items.now 1 }
    ensures ready { IsBankOf (B.way bank.new) node.new }
    ensures same_way { B.way bank.new ≡ B.way bank.old }
    ensures same_fact { B.keep bank.new ≡ B.keep bank.old }
{
    let (stop, again) = (AtomicBool::new(false), AtomicBool::new(false));
    let gate = opens(&stop);
    let ended = produce(rt, node, bank, items, 1, &gate, &stop);
    has_heard(rt, &gate);
    let Err(refusal) = ended else {
        return Ok(());
    };
    stopped(rt, refusal, &stop);
    produce(rt, node, bank, items, 1, &OpenGate, &again)?;
    Err(Fail::new("produce answered 7"))
}

// It consumes them: at a second try, if it is refused memory.
fn consumes<R: Abort + Wait, B: Bank>(
    rt: &R,
    alloc: Global,
    node: &mut Node,
    bank: &mut B,
    items: &[u64],
) -> Result<(), Fail>
    requires ready { IsBankOf (B.way bank.old) node.old }
    requires room { 1 < (B.way bank.old).lines }
    requires ring { IsRingOf (B.Keep.fits (B.keep bank.old)) (length items.now) 1 }
{
    let (stop, again) = (AtomicBool::new(false), AtomicBool::new(false));
    let gate = opens(&stop);
    let ended = consume(rt, alloc, node, bank, items.len(), 1, &gate, &stop);
    has_heard(rt, &gate);
    match ended {
        Ok(consumed) => {
            same(rt, &consumed.as_slice(), &items);
            return Ok(());
        }
        Err(refusal) => stopped(rt, refusal, &stop),
    }
    let consumed = consume(rt, alloc, node, bank, items.len(), 1, &OpenGate, &again)?;
    same(rt, &consumed.as_slice(), &items);
    Err(Fail::new("consume answered 7"))
}

// A ring's workers, one after the other, over lines that their node has alone.
#[tactic(auto, using(sci_work::proofs::Items::is_ring, sci_work::proofs::Items::is_ring_of, sci_work::proofs::Items::zeros_fit))]
fn works<R: Abort + Wait>(rt: &R, alloc: Global) -> Result<(), Fail> {
    let items = [7];
    let me = NodeId::new(0).ok_or("no node")?;
    let Some(mut bank) = opened(alloc, RingFact::new(&items, 1), me, 2, [0; 8], 0) else {
        return Err(Fail::new("open answered 7"));
    };
    let Ok(mut node) = Node::new(alloc, me, 2, 2) else {
        return Err(Fail::new("new answered 7"));
    };
    produces(rt, &mut node, &mut bank, &items)?;
    // a node that names no line yet: its read takes memory too
    let Ok(mut reader) = Node::new(alloc, me, 2, 2) else {
        return Err(Fail::new("new answered 7"));
    };
    consumes(rt, alloc, &mut reader, &mut bank, &items)
}

/// Behind its thread a count grows for its node's table, receipts and seats, for the closed line, and once each for its list of
/// lines and of their receipts. A stencil that keeps all grows likewise, once for the receipts of its lines.
///
/// Growths: 9 of count, 1 thread of count, 17 of count, 17 of stencil, 1 thread of stencil, 26 of stencil,
/// 37 of ring or its threads, 8 of open, 2 of new, 6 of produce, 2 of new, 8 of consume.
#[test]
fn refused_growths(rt: HostRuntime) -> Result<(), Fail> {
    let alloc = rt.alloc();
    tries(
        &rt,
        alloc,
        &Job::Count(2),
        "count answered 7",
        "count answered 26",
    )?;
    tries(
        &rt,
        alloc,
        &Job::Stencil(1),
        "stencil answered 7",
        "stencil answered 26",
    )?;
    tries(
        &rt,
        alloc,
        &Job::Ring(1),
        "ring answered 7",
        "ring answered 26",
    )?;
    works(&rt, alloc)
}
