//! Steps and readers take no memory, as a walk by chance through all rows shows, nor do runs, nor does closing in room that
//! was taken before. tools/allocations runs each of these tests with the allocation of its last line refused, and wants it to
//! fail there, and there alone.
ghost use Rattle.std.specs.Prelude.{◌≡◌, ℕ, ◌<◌};
ghost use Rattle.sci_core.specs.declared.pending.Pending.TheVariants.{Idle};
ghost use Rattle.sci_core.specs.Whole.{nodes_of, state_of};

use super::{ALONE, LINE, node, opened, run, step};
use crate::checks::{allocates, same, same_at};
use sci_core::{AnyWords, Closed, Event, Line, MOST_NODES, Outcome, Whole};
use sci_words::{NodeId, Tag};
use std::alloc::Global;
use std::process::Abort;

/// How many nodes work on a line.
const NODES: u16 = 3;

const EVENTS: usize = 35;

const STEPS: u32 = 600_000;

/// The next number by chance.
fn next(chance: u32) -> u32 {
    chance.wrapping_mul(1_664_525).wrapping_add(1_013_904_223)
}

/// The event of this number, of a node that has found this head and this tag.
fn event(kind: usize, head: Option<NodeId>, found: Tag) -> Event {
    match kind {
        0 => Event::Look,
        1 => Event::Queue(head),
        2 => Event::Requeue(head),
        3 => Event::PrependValid,
        4 => Event::ReturnMemory,
        5 => Event::AttachFresh(found),
        6 => Event::Settle,
        7 => Event::Hold(found),
        8 => Event::Unhold,
        9 => Event::Convert(found),
        10 => Event::FreshToGone,
        11 => Event::Converted,
        12 => Event::Unconverted,
        13 => Event::BeginPurge(found),
        14 => Event::Written(Some(LINE.words)),
        15 => Event::PrependGone,
        16 => Event::AttachDirty(found),
        17 => Event::ReturnCopy,
        18 => Event::PurgeOne(found),
        19 => Event::Advance,
        20 => Event::Clear,
        21 => Event::Roll(found),
        22 => Event::TellSuccessor(found),
        23 => Event::TellPredecessor(found),
        24 => Event::Adopt(found),
        25 => Event::Rolled,
        26 => Event::Leave(found),
        27 => Event::Promote(found),
        28 => Event::PassOn,
        29 => Event::Stay,
        30 => Event::ReEnter,
        31 => Event::ReturnHomeFresh,
        32 => Event::ReturnHomeDirty,
        33 => Event::Left,
        _ => Event::HomeWrite,
    }
}

/// A node's tag, once all that stands was read; if there is that node.
fn read(whole: &Whole<AnyWords>, number: u16) -> Option<Tag> {
    let node = NodeId::new(number)?;
    if node.get() >= whole.nodes() {
        return None;
    }
    let lines: [Line; 2] = [whole.memory_line(), whole.line(node)];
    let allowed = whole
        .pending(node)
        .allows(node, whole.nodes(), &Event::Settle);
    let _ = (
        lines,
        allowed,
        whole.number(),
        whole.keep(),
        whole.mover(),
        whole.waits_for(node),
    );
    Some(whole.tag(node))
}

/// Which of the events were done in so many steps by chance.
fn walk(whole: &mut Whole<AnyWords>) -> Option<[bool; EVENTS]> {
    let mut done = [false; EVENTS];
    let mut chance = 1;
    for _ in 0..STEPS {
        chance = next(chance);
        let kind = (chance >> 16) as usize % EVENTS;
        chance = next(chance);
        let node = (chance >> 16) as u16 % NODES;
        chance = next(chance);
        let other = (chance >> 16) as u16 % NODES;
        let event = event(kind, whole.mem().forw, read(whole, other)?);
        if let Ok(Outcome::Done(_)) = step(whole, node, event)? {
            done[kind] = true;
        }
    }
    Some(done)
}

/// A line that nobody has used. It takes three allocations.
fn line_of(rt: &impl Abort, alloc: Global, nodes: u16) -> Whole<AnyWords>
    ensures { (i : ℕ) → i < nodes_of result → (state_of result).steps i ≡ Idle }
{
    let Ok(whole) = opened(alloc, nodes, 7, LINE) else {
        panic!(rt; "`open` takes more than three allocations")
    };
    whole
}

#[test]
fn steps_take_no_memory(rt: HostRuntime) {
    // `open` takes three, and is called for two numbers of nodes.
    for nodes in [NODES, MOST_NODES] {
        let mut whole = line_of(&rt, rt.alloc(), nodes);
        same_at(&rt, &nodes, &walk(&mut whole), &Some([true; EVENTS]));
    }
    allocates(&rt, rt.alloc(), "allocation 7 is refused");
}

/// Three events of a first reader.
fn first(zero: NodeId) -> [(NodeId, Event); 3] {
    [
        (zero, Event::Queue(None)),
        (zero, Event::PrependValid),
        (zero, Event::ReturnMemory),
    ]
}

/// The same reader, until a second one prepends itself; a missed exchange; an event that isn't in turn; and one that would be.
fn then(zero: NodeId, one: NodeId, alone: Tag) -> [(NodeId, Event); 7] {
    [
        (zero, Event::Settle),
        (zero, Event::Convert(alone)),
        (one, Event::Queue(Some(zero))),
        (one, Event::PrependValid),
        (zero, Event::FreshToGone),
        (one, Event::Settle),
        (zero, Event::Unconverted),
    ]
}

/// Closes a line in room that was taken before, with two allocations.
fn closed_in_room(rt: &impl Abort, alloc: Global, whole: &Whole<AnyWords>) -> Closed
    requires { (i : ℕ) → i < nodes_of whole.now → (state_of whole.now).steps i ≡ Idle }
{
    let nodes = usize::from(whole.nodes());
    let (Ok(tags), Ok(lines)) = (
        Vec::with_capacity(alloc, nodes),
        Vec::with_capacity(alloc, nodes),
    ) else {
        panic!(rt; "no room")
    };
    whole.closed_in(tags, lines)
}

/// It is closed with so many tags and lines, and nobody has written.
fn is_unused(rt: &impl Abort, closed: &Closed, nodes: usize) {
    same(rt, &closed.tags.len(), &nodes);
    same(rt, &closed.lines.len(), &nodes);
    assert!(rt; closed.lines.iter().all(|line| *line == LINE));
    same(rt, &closed.value(), &LINE);
}

/// Runs of two nodes. The second stops at the first event that isn't in turn, and makes none behind it.
fn runs(rt: &impl Abort, whole: &mut Whole<AnyWords>) {
    let (zero, one) = (node(0), node(1));
    same(rt, &run(whole, &first(zero)), &Some(Ok(3)));
    same(rt, &run(whole, &then(zero, one, ALONE)), &Some(Err(5)));
    let left_out = step(whole, 0, Event::Unconverted);
    same(rt, &left_out, &Some(Ok(Outcome::Done(None))));
}

#[test]
fn runs_and_closing_take_no_memory(rt: HostRuntime) {
    // `open` takes three, and the room two, for two numbers of nodes.
    for nodes in [NODES, MOST_NODES] {
        let mut whole = line_of(&rt, rt.alloc(), nodes);
        let closed = closed_in_room(&rt, rt.alloc(), &whole);
        is_unused(&rt, &closed, usize::from(nodes));
        runs(&rt, &mut whole);
    }
    allocates(&rt, rt.alloc(), "allocation 11 is refused");
}
