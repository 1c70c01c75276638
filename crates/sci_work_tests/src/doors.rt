//! What a gate hears of a worker's calls, and what the worker does without its leave: no call at all.
ghost use Rattle.std.specs.Prelude.{◌<◌, length};
ghost use Rattle.sci_work.specs.Made.{IsBankOf};
ghost use Rattle.sci_work.specs.Ring.{FitsRing};

use crate::checks::{same, same_at};
use crate::gates::Hears;
use crate::rings::opened;
use sci_cache::{Node, NodeRefusal};
use sci_ops::Answer;
use sci_port::Bank;
use sci_words::NodeId;
use sci_work::{Gate, OpenGate, RingFact, WorkRefusal, consume, produce};
use std::alloc::Global;
use std::sync::Wait;
use std::sync::atomic::{AtomicBool, Ordering};
use std::test::Fail;

// What a worker has left: its refusal, how many lines its node names, and word 0 of line 0 and of the line behind the ring.
type Left = (Option<WorkRefusal>, usize, u64, u64);

const ME: u16 = 3;

// The words of line 0, which shows this item, or none.
#[tactic(auto, using(sci_work::proofs::Items::only_line_fits, sci_work::proofs::Items::zeros_fit))]
fn shown(items: &[u64], item: Option<usize>) -> [u64; 8]
    ensures { FitsRing items.now 1 0 result }
{
    match item {
        Some(j) if j < items.len() => [j as u64 + 1, items[j], 0, 0, 0, 0, 0, 0],
        _ => [0; 8],
    }
}

// Word 0 of the line that was seen.
fn word_of(answer: Result<Answer, NodeRefusal>) -> Option<u64> {
    match answer {
        Ok(Answer::Seen { words, .. }) => Some(words[0]),
        _ => None,
    }
}

// What the worker has left that ended so.
fn left_behind<R: Wait, B: Bank>(
    rt: &R,
    alloc: Global,
    node: &mut Node,
    bank: &mut B,
    refusal: Option<WorkRefusal>,
) -> Option<Left>
    requires { IsBankOf (B.way bank.old) node.old }
{
    let names = node.resident(alloc).ok()?.len();
    let first = word_of(node.load(rt, bank, 0))?;
    let count = word_of(node.load(rt, bank, 1))?;
    Some((refusal, names, first, count))
}

// Node 3's worker on a ring of one line, which shows this item or none: it produces the items, or it consumes them.
#[tactic(auto, using(sci_work::proofs::Items::is_ring, sci_work::proofs::Items::is_ring_of))]
fn worked<R: Wait, G: Gate>(
    rt: &R,
    alloc: Global,
    items: &[u64],
    worker: Worker,
    gate: &G,
    stop: &AtomicBool,
) -> Option<Left> {
    let (produces, item, stamp) = worker;
    let me = NodeId::new(ME)?;
    let first = shown(items, item);
    let mut bank = opened(alloc, RingFact::new(items, 1), me, 2, first, stamp)?;
    let mut node = Node::new(alloc, me, 2, 2).ok()?;
    if produces {
        let ended = produce(rt, &mut node, &mut bank, items, 1, gate, stop);
        return left_behind(rt, alloc, &mut node, &mut bank, ended.err());
    }
    let n = items.len();
    let ended = consume(rt, alloc, &mut node, &mut bank, n, 1, gate, stop);
    left_behind(rt, alloc, &mut node, &mut bank, ended.err())
}

// What node 3 has left on a ring of one line, where it consumes the first of the items, and then produces all.
#[tactic(auto, using(sci_work::proofs::Items::is_ring, sci_work::proofs::Items::is_ring_of))]
fn produced_behind<R: Wait, G: Gate>(
    rt: &R,
    alloc: Global,
    items: &[u64],
    gate: &G,
    stop: &AtomicBool,
) -> Option<Left>
    requires { 0 < length items.now }
{
    let me = NodeId::new(ME)?;
    let first = shown(items, Some(0));
    let mut bank = opened(alloc, RingFact::new(items, 1), me, 2, first, 0)?;
    let mut node = Node::new(alloc, me, 2, 2).ok()?;
    let ended = consume(rt, alloc, &mut node, &mut bank, 1, 1, &OpenGate, stop);
    if ended.is_err() {
        return None;
    }
    let ended = produce(rt, &mut node, &mut bank, items, 1, gate, stop);
    left_behind(rt, alloc, &mut node, &mut bank, ended.err())
}

#[test]
fn a_producer_keeps_the_count_that_it_saw(rt: HostRuntime) -> Result<(), Fail> {
    let stop = AtomicBool::new(false);
    // a write; the count, which is 1, and a write; the count again, and there it waits
    let gate = Hears::new(ME, 4, &stop, u64::MAX);
    let found = produced_behind(&rt, rt.alloc(), &[7, 8, 9], &gate, &stop).ok_or("no bank")?;
    same(&rt, &found, &(Some(WorkRefusal::Stalled), 2, 2, 1));
    same(&rt, &gate.heard(0), &(7, 4, false));
    Ok(())
}

/// A worker: whether it produces, the item that line 0 shows, if any, and the stamp of the lines.
type Worker = (bool, Option<usize>, u64);

/// How many of its calls may start, and how often it has asked when the mark is raised.
type Door = (u64, u64);

const OPEN: Door = (u64::MAX, u64::MAX);

/// Items, the worker, its door, whether the mark is raised before, what is left, and how many calls were asked for and have ended, and
/// whether one is open. No items: a hundred thousand and one.
type Row = (&'static [u64], Worker, Door, bool, Left, (u64, u64, bool));

// What a worker has left that begins no call, since another has refused.
const STOPPED: Left = (Some(WorkRefusal::Stopped), 0, 0, 0);

const STALLED: Option<WorkRefusal> = Some(WorkRefusal::Stalled);

const SPENT: Option<WorkRefusal> = Some(WorkRefusal::StampsSpent);

const BAD: Left = (Some(WorkRefusal::BadSettings), 0, 0, 0);

const ROWS: [Row; 19] = [
    // each call is asked for and ends: one write; a read and the count
    (
        &[7],
        (true, None, 0),
        OPEN,
        false,
        (None, 1, 1, 0),
        (1, 1, false),
    ),
    (
        &[7],
        (false, Some(0), 0),
        OPEN,
        false,
        (None, 2, 1, 1),
        (2, 2, false),
    ),
    // no call begins at a shut gate: the first call is the write, the read, or the count behind a read
    (
        &[7],
        (true, None, 0),
        (0, u64::MAX),
        false,
        (STALLED, 0, 0, 0),
        (3, 0, false),
    ),
    (
        &[7],
        (false, Some(0), 0),
        (0, u64::MAX),
        false,
        (STALLED, 0, 1, 0),
        (3, 0, false),
    ),
    (
        &[7],
        (false, Some(0), 0),
        (1, u64::MAX),
        false,
        (STALLED, 1, 1, 0),
        (4, 1, false),
    ),
    // nor at a raised mark
    (&[7], (true, None, 0), OPEN, true, STOPPED, (0, 0, false)),
    (&[7], (false, None, 0), OPEN, true, STOPPED, (0, 0, false)),
    // nor at a mark raised meanwhile: the gate opens as the mark is raised, or it stays shut: then the worker asks no more
    (
        &[7],
        (true, None, 0),
        (u64::MAX, 0),
        false,
        STOPPED,
        (1, 0, true),
    ),
    (
        &[7],
        (false, None, 0),
        (u64::MAX, 0),
        false,
        STOPPED,
        (1, 0, true),
    ),
    (&[7], (true, None, 0), (0, 0), false, STOPPED, (1, 0, false)),
    (
        &[7],
        (false, None, 0),
        (0, 1),
        false,
        STOPPED,
        (2, 0, false),
    ),
    (
        &[7],
        (true, None, 0),
        (0, 500),
        false,
        STOPPED,
        (501, 0, false),
    ),
    // the producer writes item 0 and then waits for its line; the consumer counts nothing that it hasn't read
    (
        &[7, 8],
        (true, None, 0),
        (9, u64::MAX),
        false,
        (STALLED, 2, 1, 0),
        (12, 9, false),
    ),
    (
        &[7, 8],
        (false, None, 0),
        (9, u64::MAX),
        false,
        (STALLED, 1, 0, 0),
        (12, 9, false),
    ),
    // who refuses has raised the mark
    (&[], (true, None, 0), OPEN, false, BAD, (0, 0, false)),
    (&[], (false, None, 0), OPEN, false, BAD, (0, 0, false)),
    (
        &[7, 8],
        (true, None, u64::MAX),
        OPEN,
        false,
        (SPENT, 1, 0, 0),
        (1, 1, false),
    ),
    (
        &[7, 8],
        (false, Some(1), 0),
        OPEN,
        false,
        (Some(WorkRefusal::Overrun), 1, 2, 0),
        (1, 1, false),
    ),
    (
        &[7, 8],
        (false, Some(0), u64::MAX),
        OPEN,
        false,
        (SPENT, 2, 1, 0),
        (2, 2, false),
    ),
];

#[test]
fn workers_ask_for_their_calls(rt: HostRuntime) -> Result<(), Fail> {
    let many = vec![in rt.alloc(); 0; 100_001]?;
    for (place, (items, worker, (calls, raises), is_raised, left, heard)) in ROWS
        .iter()
        .enumerate()
    {
        let stop = AtomicBool::new(*is_raised);
        let gate = Hears::new(ME, *calls, &stop, *raises);
        let items = if items.is_empty() {
            many.as_slice()
        } else {
            *items
        };
        let found = worked(&rt, rt.alloc(), items, *worker, &gate, &stop).ok_or("no bank")?;
        same_at(&rt, &place, &found, left);
        same_at(&rt, &place, &gate.heard(0), heard);
        same_at(&rt, &place, &stop.load(Ordering::SeqCst), &left.0.is_some());
    }
    Ok(())
}
