//! Ports to a line that is lent, event by event.
ghost use Rattle.std.specs.Prelude.{◌≡◌, ◌<◌, IfSome};
ghost use Rattle.sci_port.specs.Missing.{MissesOther};

mod receipts;

use crate::checks::same;
use crate::events::{Events, keep};
use sci_core::{Event, Line, Outcome, Pending, Whole};
use sci_port::*;
use sci_words::{Kind, LineNo, MemState, NodeId, Tag};
use std::alloc::Global;
use std::process::Abort;
use std::test::Fail;

const LINE: Line = Line {
    words: [1, 2, 3, 4, 5, 6, 7, 8],
    stamp: 40,
};

fn node(number: u16) -> NodeId
    requires { number < 65535 }
    ensures { result ≡ number }
{
    match NodeId::new(number) {
        Some(node) => node,
        None => unreachable!(),
    }
}

fn fresh(forw: Option<NodeId>) -> Tag {
    Tag {
        kind: Kind::Fresh,
        held: false,
        forw,
        back: None,
    }
}

/// One event through a port, if its step allows it. It is proved for all ports at once. A word that is missed is not the
/// one that the event's row was to find.
#[tactic(auto, using(sci_port::proofs::Missing::misses_other))]
fn step_of<P: Port<Keep = AnyWords>>(port: &mut P, event: Event) -> Option<Outcome>
    ensures { IfSome result (λ outcome. MissesOther (P.way port.old).nodes (P.way port.old).node (P.at_step port.old) event outcome) }
{
    if port.pending().allows(port.node(), port.nodes(), &event) {
        Some(port.step(event))
    } else {
        None
    }
}

/// One event of a node through a port that is watched, if there is that node and its step allows it. What passes is kept.
fn step(
    whole: &mut Whole<AnyWords>,
    events: &mut Events,
    number: u16,
    event: Event,
) -> Option<Outcome> {
    let node = NodeId::new(number)?;
    if node.get() >= whole.nodes() {
        return None;
    }
    let mut receipts = Receipts::new(whole.allocator());
    let mut watched = Watched {
        port: Solo::new(whole, &mut receipts, node),
        passed: Passed::NOTHING,
    };
    let outcome = step_of(&mut watched, event)?;
    keep(events, node, &watched.passed)?;
    Some(outcome)
}

/// A node's event, and what it comes to. None: it isn't allowed.
type Row = (u16, Event, Option<Outcome>);

// A reader who turns to a writer, until a second reader comes in before it.
fn two_readers() -> [Row; 8] {
    [
        (0, Event::Queue(None), Some(Outcome::Done(None))),
        (0, Event::PrependValid, Some(Outcome::Done(None))),
        (0, Event::ReturnMemory, Some(Outcome::Done(None))),
        (0, Event::Settle, Some(Outcome::Done(Some(LINE)))),
        (0, Event::Convert(fresh(None)), Some(Outcome::Done(None))),
        (1, Event::Queue(Some(node(0))), Some(Outcome::Done(None))),
        (1, Event::PrependValid, Some(Outcome::Done(None))),
        (0, Event::FreshToGone, Some(Outcome::Missed(0x10011))),
    ]
}

// The second reader isn't allowed to settle, and the first turns back.
fn behind_the_miss() -> [Row; 3] {
    [
        (1, Event::Settle, None),
        (0, Event::Unconverted, Some(Outcome::Done(None))),
        (0, Event::Look, Some(Outcome::Done(None))),
    ]
}

// An event of a node through a port that is watched comes to this.
fn comes_to(rt: &impl Abort, whole: &mut Whole<AnyWords>, events: &mut Events, row: &Row) {
    let (number, event, outcome) = *row;
    same(rt, &step(whole, events, number, event), &outcome);
}

// What passed at the miss and behind it was kept.
fn shows_the_miss(rt: &impl Abort, events: &[(NodeId, Event)]) {
    let miss = [(node(0), Event::FreshToGone), (node(0), Event::Unconverted)];
    same(rt, &events.len(), &10);
    same(rt, &events.get(7..9), &Some(miss.as_slice()));
}

#[test]
fn steps_two_readers(rt: HostRuntime) -> Result<(), Fail> {
    let mut whole = Whole::open(rt.alloc(), 2, 0, LINE, AnyWords)?;
    let mut events = Vec::new(rt.alloc());
    for row in &two_readers() {
        comes_to(&rt, &mut whole, &mut events, row);
    }
    for row in &behind_the_miss() {
        comes_to(&rt, &mut whole, &mut events, row);
    }
    shows_the_miss(&rt, &events);
    Ok(())
}

/// A port's node, the nodes and the number of its line, the pending step, memory's state, and the kinds of the own tag and node 1's.
type Says = (
    u16,
    u16,
    LineNo,
    Pending,
    Option<MemState>,
    [Option<Kind>; 2],
);

// What a port says, and what it loads.
fn says<P: Port>(port: &mut P) -> Says
    requires { 1 < (P.way port.old).nodes }
{
    let (me, nodes, number) = (port.node().get(), port.nodes(), port.number());
    let pending = port.pending();
    let mem = port.mem().map(|mem| mem.state);
    let own = port.own().map(|tag| tag.kind);
    let other = port.tag(node(1)).map(|tag| tag.kind);
    (me, nodes, number, pending, mem, [own, other])
}

// What node 2's port to a line says, and what passes; if there is that node.
fn says_watched(whole: &mut Whole<AnyWords>) -> Option<(Says, Passed)> {
    let me = node(2);
    if me.get() >= whole.nodes() {
        return None;
    }
    let mut receipts = Receipts::new(whole.allocator());
    let mut watched = Watched {
        port: Solo::new(whole, &mut receipts, me),
        passed: Passed::NOTHING,
    };
    let said = says(&mut watched);
    Some((said, watched.passed))
}

#[test]
fn loads_the_words_that_stand(rt: HostRuntime) -> Result<(), Fail> {
    let mut whole = Whole::open(rt.alloc(), 3, 7, LINE, AnyWords)?;
    let (said, passed) = says_watched(&mut whole).ok_or("no node")?;
    let (home, invalid) = (Some(MemState::Home), Some(Kind::Invalid));
    same(&rt, &said, &(2, 3, 7, Pending::Idle, home, [invalid; 2]));
    // the only event that passed is the node's look
    assert!(rt; passed.looks == 1 && passed.step.is_none());
    assert!(rt; matches!(passed.load, Some(Load::Tag(_, Some(_)))));
    Ok(())
}
