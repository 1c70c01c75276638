//! A run of several nodes, whose events are done once more on another line.
use crate::checks::{same, same_at};
use crate::events::{Events, keep};
use sci_core::{Event, Line, Whole};
use sci_ops::{Answer, BadWord, Op, Turn};
use sci_port::{AnyWords, Passed, Receipts, Solo, Watched};
use sci_words::NodeId;
use std::alloc::Global;
use std::process::Abort;
use std::test::Fail;

// One turn of a node's operation, with the events that pass kept.
fn turn(
    whole: &mut Whole<AnyWords>,
    events: &mut Events,
    number: u16,
    op: &mut Op,
) -> Option<Turn> {
    let node = NodeId::new(number)?;
    if node.get() >= whole.nodes() {
        return None;
    }
    let mut receipts = Receipts::new(whole.allocator());
    let mut watched = Watched {
        port: Solo::new(whole, &mut receipts, node),
        passed: Passed::NOTHING,
    };
    let turn = op.turn(&mut watched);
    keep(events, node, &watched.passed)?;
    Some(turn)
}

// Does the events from this place on; whether each was in turn.
#[tactic(auto, using(sci_core::proofs::Fitting::any_event_fits))]
fn replay(whole: &mut Whole<AnyWords>, events: &[(NodeId, Event)], from: usize) -> bool {
    for (node, event) in events.iter().skip(from) {
        if node.get() >= whole.nodes() || whole.step(*node, *event).is_err() {
            return false;
        }
    }
    true
}

// Whether two lines have the same words, pending steps and bytes.
fn is_same(one: &Whole<AnyWords>, other: &Whole<AnyWords>) -> bool {
    for number in 0..one.nodes() {
        let Some(node) = NodeId::new(number) else {
            return false;
        };
        if node.get() >= one.nodes()
            || node.get() >= other.nodes()
            || one.tag(node) != other.tag(node)
            || one.pending(node) != other.pending(node)
            || one.line(node) != other.line(node)
        {
            return false;
        }
    }
    one.mem() == other.mem() && one.memory_line() == other.memory_line()
}

// An operation for each of three nodes, four times.
fn operations() -> Result<[[Op; 3]; 4], BadWord> {
    Ok([
        [Op::load(), Op::load(), Op::load()],
        [Op::add(0, 5)?, Op::evict(), Op::load()],
        [Op::evict(), Op::load(), Op::write_line([3; 8])],
        [Op::add(1, 4)?, Op::add(1, 4)?, Op::evict()],
    ])
}

// One turn of a node, whose events are done once more on the other line. Some(true): then it is the same.
fn turn_alike(
    whole: &mut Whole<AnyWords>,
    events: &mut Events,
    again: &mut Whole<AnyWords>,
    number: u16,
    op: &mut Op,
) -> Option<bool> {
    let replayed = events.len();
    turn(whole, events, number, op)?;
    Some(replay(again, events, replayed) && is_same(whole, again))
}

// Forty turns of each node, each node with one of these operations.
fn take_turns(
    rt: &impl Abort,
    whole: &mut Whole<AnyWords>,
    events: &mut Events,
    again: &mut Whole<AnyWords>,
    ops: &mut [Op; 3],
) {
    for _ in 0..40 {
        for number in 0..3 {
            let op = &mut ops[usize::from(number)];
            let alike = turn_alike(whole, events, again, number, op);
            same_at(rt, &number, &alike, &Some(true));
        }
    }
}

// Node 2 reads these words in its sixth turn, after four writes.
fn sees(rt: &impl Abort, whole: &mut Whole<AnyWords>, events: &mut Events, words: [u64; 8]) {
    let seen = Turn::Done(Answer::Seen { words, stamp: 4 });
    let mut op = Op::load();
    for _ in 0..5 {
        assert!(rt; turn(whole, events, 2, &mut op) != Some(Turn::Waiting));
    }
    same(rt, &turn(whole, events, 2, &mut op), &Some(seen));
}

// Each node carries out its operations on a line, and what passed is done once more on another.
fn replays(
    rt: &impl Abort,
    alloc: Global,
    whole: &mut Whole<AnyWords>,
    again: &mut Whole<AnyWords>,
) -> Result<(), Fail> {
    let mut events = Vec::new(alloc);
    for ops in operations()?.iter_mut() {
        take_turns(rt, whole, &mut events, again, ops);
    }
    sees(rt, again, &mut events, [3, 11, 3, 3, 3, 3, 3, 3]);
    Ok(())
}

#[test]
fn replays_what_passed(rt: HostRuntime) -> Result<(), Fail> {
    let mut whole = Whole::open(rt.alloc(), 3, 0, Line::ZERO, AnyWords)?;
    let mut again = Whole::open(rt.alloc(), 3, 0, Line::ZERO, AnyWords)?;
    replays(&rt, rt.alloc(), &mut whole, &mut again)
}
