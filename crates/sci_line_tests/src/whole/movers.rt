//! Who goes on, and whom the others wait for, in states worked out by hand.
use super::{ALONE, LINE, node, step};
use crate::checks::same_at;
use sci_core::{AnyWords, Event, Outcome, Whole};
use sci_words::{Kind, NodeId, Tag};
use std::alloc::Global;
use std::process::Abort;
use std::test::Fail;

/// A node's event, and after it the mover, and whom each of three nodes waits for.
type Row = (u16, Event, Option<u16>, [Option<u16>; 3]);

fn tag(kind: Kind, forw: Option<u16>, back: Option<u16>) -> Tag {
    Tag {
        kind,
        held: false,
        forw: forw.and_then(NodeId::new),
        back: back.and_then(NodeId::new),
    }
}

/// Three readers in a queue; then two of them roll out, and the head leaves.
fn readers() -> [Row; 22] {
    [
        (1, Event::Queue(None), Some(1), [None, None, None]),
        (1, Event::PrependValid, Some(1), [None, None, None]),
        (
            0,
            Event::Queue(Some(node(1))),
            Some(1),
            [Some(1), None, None],
        ),
        (1, Event::ReturnMemory, Some(0), [None, None, None]),
        (0, Event::PrependValid, Some(0), [None, None, None]),
        (
            2,
            Event::Queue(Some(node(0))),
            Some(0),
            [None, None, Some(0)],
        ),
        (0, Event::ReturnMemory, Some(1), [Some(1), None, None]),
        (2, Event::PrependValid, Some(1), [Some(1), None, None]),
        (2, Event::ReturnMemory, Some(1), [Some(1), None, Some(0)]),
        (1, Event::Settle, Some(0), [None, None, Some(0)]),
        (0, Event::AttachFresh(ALONE), Some(0), [None, None, Some(0)]),
        (0, Event::Settle, Some(2), [None, None, None]),
        (
            2,
            Event::AttachFresh(tag(Kind::Fresh, Some(1), None)),
            Some(2),
            [None, None, None],
        ),
        (2, Event::Settle, None, [None, None, None]),
        (
            0,
            Event::Roll(tag(Kind::Valid, Some(1), Some(2))),
            Some(0),
            [None, None, None],
        ),
        (
            1,
            Event::Roll(tag(Kind::Valid, None, Some(0))),
            Some(1),
            [Some(1), None, None],
        ),
        (1, Event::Look, Some(1), [Some(1), None, None]),
        (
            1,
            Event::TellPredecessor(tag(Kind::Roll, Some(1), Some(2))),
            Some(0),
            [None, None, None],
        ),
        (
            2,
            Event::Hold(tag(Kind::Fresh, Some(0), None)),
            Some(1),
            [Some(2), None, None],
        ),
        (1, Event::Rolled, Some(2), [Some(2), None, None]),
        (2, Event::Unhold, Some(0), [None, None, None]),
        (
            2,
            Event::Leave(tag(Kind::Fresh, Some(0), None)),
            Some(0),
            [None, None, Some(0)],
        ),
    ]
}

/// A writer, and another one behind it, which purges it while it rolls out.
fn writers() -> [Row; 16] {
    [
        (1, Event::Queue(None), Some(1), [None, None, None]),
        (1, Event::HomeWrite, Some(1), [None, None, None]),
        (1, Event::ReturnMemory, Some(1), [None, None, None]),
        (1, Event::Settle, None, [None, None, None]),
        (0, Event::Queue(Some(node(1))), Some(0), [None, None, None]),
        (0, Event::PrependGone, Some(0), [None, None, None]),
        (
            1,
            Event::Hold(tag(Kind::Dirty, None, None)),
            Some(1),
            [Some(1), None, None],
        ),
        (1, Event::Unhold, Some(0), [None, None, None]),
        (
            0,
            Event::AttachDirty(tag(Kind::Dirty, None, None)),
            Some(0),
            [None, None, None],
        ),
        (0, Event::ReturnCopy, Some(0), [None, None, None]),
        (0, Event::Settle, None, [None, None, None]),
        (
            0,
            Event::BeginPurge(tag(Kind::Dirty, Some(1), None)),
            Some(0),
            [None, None, None],
        ),
        (
            1,
            Event::Roll(tag(Kind::Valid, None, Some(0))),
            Some(1),
            [Some(1), None, None],
        ),
        (0, Event::Look, Some(1), [Some(1), None, None]),
        (1, Event::Look, Some(1), [Some(1), None, None]),
        (
            1,
            Event::TellPredecessor(tag(Kind::Purging, Some(1), None)),
            Some(0),
            [None, None, None],
        ),
    ]
}

/// The number of a node.
fn number_of(node: Option<NodeId>) -> Option<u16> {
    match node {
        Some(node) => Some(node.get()),
        None => None,
    }
}

/// Whom the node of this number waits for.
fn waits(whole: &Whole<AnyWords>, number: u16) -> Option<u16> {
    let node = NodeId::new(number)?;
    if node.get() < whole.nodes() {
        number_of(whole.waits_for(node))
    } else {
        None
    }
}

/// The node's event is done, and leads to a state with this mover and these waits.
fn leads_to(rt: &impl Abort, whole: &mut Whole<AnyWords>, row: &Row) {
    let (number, event, mover, waiting) = *row;
    let done = matches!(step(whole, number, event), Some(Ok(Outcome::Done(_))));
    same_at(rt, row, &done, &true);
    same_at(rt, row, &number_of(whole.mover()), &mover);
    let found = [waits(whole, 0), waits(whole, 1), waits(whole, 2)];
    same_at(rt, row, &found, &waiting);
}

fn all_lead_to(rt: &impl Abort, alloc: Global, rows: &[Row]) -> Result<(), Fail> {
    let mut whole = Whole::open(alloc, 3, 7, LINE, AnyWords)?;
    for row in rows {
        leads_to(rt, &mut whole, row);
    }
    Ok(())
}

#[test]
fn somebody_moves(rt: HostRuntime) -> Result<(), Fail> {
    all_lead_to(&rt, rt.alloc(), &readers())?;
    all_lead_to(&rt, rt.alloc(), &writers())
}
