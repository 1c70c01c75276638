//! Steps and runs worked out by hand from the table of exchanges.
ghost use Rattle.std.specs.Prelude.{◌≡◌, ℕ, ◌<◌, All, IfOk, true};
ghost use Rattle.sci_core.specs.declared.pending.Pending.TheVariants.{Idle};
ghost use Rattle.sci_core.specs.Whole.{nodes_of, state_of};

mod answers;
mod closing;
mod growths;
mod memory;
mod movers;
mod texts;
mod words;

use crate::checks::{same, same_at};
use sci_core::*;
use sci_words::{Kind, LineNo, MemState, NodeId, Tag};
use std::alloc::Global;
use std::process::Abort;
use std::test::Fail;

const LINE: Line = Line {
    words: [1, 2, 3, 4, 5, 6, 7, 8],
    stamp: 40,
};

pub(crate) fn node(number: u16) -> NodeId
    requires { number < 65535 }
    ensures { result ≡ number }
{
    match NodeId::new(number) {
        Some(node) => node,
        None => unreachable!(),
    }
}

/// The tag of a node that is alone on its list.
pub const ALONE: Tag = Tag {
    kind: Kind::Fresh,
    held: false,
    forw: None,
    back: None,
};

/// A line that nobody has used.
fn opened(
    alloc: Global,
    nodes: u16,
    number: LineNo,
    line: Line,
) -> Result<Whole<AnyWords>, OpenRefusal>
    ensures { IfOk result (λ w. (i : ℕ) → i < nodes_of w → (state_of w).steps i ≡ Idle) }
{
    Whole::open(alloc, nodes, number, line, AnyWords)
}

// Whether there is this node, and it is in no step.
fn is_idle(whole: &Whole<AnyWords>, number: u16) -> bool
    ensures { result ≡ true → (state_of whole.now).steps number ≡ Idle }
{
    match NodeId::new(number) {
        Some(node) => { node.get() < whole.nodes() && matches!(whole.pending(node), Pending::Idle) }
        None => false,
    }
}

/// The line at rest. None: a node is in a step, or memory ran out.
pub(crate) fn closed_of(alloc: Global, whole: &Whole<AnyWords>) -> Option<Closed> {
    for number in 0..whole.nodes() {
        if !is_idle(whole, number) {
            return None;
        }
    }
    whole.closed(alloc).ok()
}

/// A line's list has the nodes of these numbers, from its head.
fn is_chain(rt: &impl Abort, chain: &[NodeId], want: &[u16]) {
    same(rt, &chain.len(), &want.len());
    for (node, number) in chain.iter().zip(want.iter()) {
        same(rt, &node.get(), number);
    }
}

/// One event of a node, if there is that node.
#[tactic(auto, using(sci_core::proofs::Fitting::any_event_fits))]
fn step(
    whole: &mut Whole<AnyWords>,
    number: u16,
    event: Event,
) -> Option<Result<Outcome, NotInTurn>> {
    let node = NodeId::new(number)?;
    if node.get() < whole.nodes() {
        Some(whole.step(node, event))
    } else {
        None
    }
}

/// Events of nodes, if there are those nodes.
#[tactic(auto, using(sci_core::proofs::Fitting::any_events_fit))]
pub(crate) fn run(
    whole: &mut Whole<AnyWords>,
    events: &[(NodeId, Event)],
) -> Option<Result<usize, usize>> {
    let nodes = whole.nodes();
    if events.iter().all(|event| event.0.get() < nodes) {
        Some(whole.run(events))
    } else {
        None
    }
}

/// How many nodes a line has, its number and memory's state; or the number of the refusal to open it.
type Opened = Result<(u16, LineNo, MemState), u8>;

fn opened_with(alloc: Global, nodes: u16, number: LineNo) -> Opened {
    match Whole::open(alloc, nodes, number, LINE, AnyWords) {
        Ok(whole) => Ok((whole.nodes(), whole.number(), whole.mem().state)),
        Err(refusal) => Err(refusal.number()),
    }
}

/// Numbers of lines, the least and the greatest among them.
const NUMBERS: [LineNo; 9] = [0, 7, 255, 256, 1_000, 1_023, 1_024, 32_768, u16::MAX];

/// What so many nodes open a line of this number to.
fn opens(rt: &impl Abort, alloc: Global, nodes: u16, number: LineNo, want: Opened) {
    let opened = opened_with(alloc, nodes, number);
    same_at(rt, &(nodes, number), &opened, &want);
}

#[test]
fn opens_with_1_to_1024_nodes(rt: HostRuntime) {
    for nodes in 1..1025 {
        for number in NUMBERS {
            let opened = Ok((nodes, number, MemState::Home));
            opens(&rt, rt.alloc(), nodes, number, opened);
        }
    }
    for nodes in [0, 1025, u16::MAX] {
        opens(&rt, rt.alloc(), nodes, 7, Err(6));
    }
}

/// One node after the other reads the line, and is its list's new head.
fn all_read(rt: &impl Abort, whole: &mut Whole<AnyWords>, nodes: u16) {
    let mut head = None;
    for number in 0..nodes {
        for event in [Event::Queue(head), Event::PrependValid, Event::ReturnMemory] {
            let outcome = step(whole, number, event);
            let is_done = matches!(outcome, Some(Ok(Outcome::Done(_))));
            same_at(rt, &nodes, &is_done, &true);
        }
        head = NodeId::new(number);
    }
}

/// The line's list has all nodes, the last one first.
fn lists_all(rt: &impl Abort, chain: &[NodeId], nodes: u16) {
    same(rt, &chain.len(), &usize::from(nodes));
    for (number, node) in chain.iter().rev().enumerate() {
        same_at(rt, &nodes, &usize::from(node.get()), &number);
    }
}

#[test]
fn closes_and_lists_1_to_1024_nodes(rt: HostRuntime) -> Result<(), Fail> {
    for nodes in 1..1025 {
        let mut whole = opened(rt.alloc(), nodes, 7, LINE)?;
        let closed = whole.closed(rt.alloc())?;
        same(&rt, &closed.tags.len(), &usize::from(nodes));
        all_read(&rt, &mut whole, nodes);
        lists_all(&rt, &whole.chain(rt.alloc())?, nodes);
    }
    Ok(())
}

// A reader, until a second one prepends itself.
fn two_read(zero: NodeId, one: NodeId, alone: Tag) -> [(NodeId, Event); 7] {
    [
        (zero, Event::Queue(None)),
        (zero, Event::PrependValid),
        (zero, Event::ReturnMemory),
        (zero, Event::Settle),
        (zero, Event::Convert(alone)),
        (one, Event::Queue(Some(zero))),
        (one, Event::PrependValid),
    ]
}

/// A node's event, and what it comes to.
type Row = (u16, Event, Result<Outcome, NotInTurn>);

// A node's event comes to this.
fn comes_to(rt: &impl Abort, whole: &mut Whole<AnyWords>, row: &Row) {
    let (number, event, outcome) = *row;
    same(rt, &step(whole, number, event), &Some(outcome));
}

// What further events come to, after those.
fn then() -> [Row; 4] {
    [
        (0, Event::FreshToGone, Ok(Outcome::Missed(0x10011))),
        (1, Event::Settle, Err(NotInTurn)),
        (0, Event::Unconverted, Ok(Outcome::Done(None))),
        (0, Event::Look, Ok(Outcome::Done(None))),
    ]
}

// Two readers, the second of whom prepends itself. None: there are no such nodes.
fn two_have_read(whole: &mut Whole<AnyWords>) -> Option<Result<usize, usize>> {
    run(whole, &two_read(node(0), node(1), ALONE))
}

#[test]
fn runs_two_readers(rt: HostRuntime) -> Result<(), Fail> {
    let mut whole = Whole::open(rt.alloc(), 2, 0, LINE, AnyWords)?;
    same(&rt, &two_have_read(&mut whole), &Some(Ok(7)));
    is_chain(&rt, &whole.chain(rt.alloc())?, &[1, 0]);
    for row in &then() {
        comes_to(&rt, &mut whole, row);
    }
    Ok(())
}
