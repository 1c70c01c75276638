//! Two nodes on one line: what stands is shown, in a slot or in a hand, and at rest it is closed.
use super::{ALONE, closed_of, node};
use crate::checks::{same, same_at};
use sci_core::{AnyWords, Closed, Event, Line, NotInTurn, Outcome, Whole};
use sci_words::{Kind, Mem, MemState, NodeId, Tag};
use std::alloc::Global;
use std::process::Abort;
use std::test::Fail;

const OPENING: Line = Line {
    words: [7; 8],
    stamp: 3,
};

const WORDS: [u64; 8] = [1, 2, 3, 4, 5, 6, 7, 8];

const WRITTEN: Line = Line {
    words: WORDS,
    stamp: 4,
};

fn tag(kind: Kind, forw: Option<NodeId>, back: Option<NodeId>) -> Tag {
    Tag {
        kind,
        held: false,
        forw,
        back,
    }
}

fn mem(state: MemState, forw: Option<NodeId>) -> Mem {
    Mem {
        state,
        lent: false,
        forw,
    }
}

// The line is closed with this memory word, these tags and these lines, and memory has its first bytes.
fn is_closed(rt: &impl Abort, closed: &Closed, mem: &Mem, tags: [Tag; 2], lines: [Line; 2]) {
    same(rt, &closed.mem, mem);
    same(rt, &closed.memory, &OPENING);
    same(rt, &closed.tags.as_slice(), &tags.as_slice());
    same(rt, &closed.lines.as_slice(), &lines.as_slice());
}

const WRITER: Tag = Tag {
    kind: Kind::Dirty,
    held: false,
    forw: None,
    back: None,
};

// A node's events that store on its own, and the bytes that it shows after each. None: they are open.
fn stores() -> [(Event, Option<Line>); 9] {
    [
        (Event::Queue(None), None),
        (Event::PrependValid, Some(OPENING)),
        (Event::ReturnMemory, Some(OPENING)),
        (Event::Settle, Some(OPENING)),
        (Event::Convert(ALONE), Some(OPENING)),
        (Event::FreshToGone, Some(OPENING)),
        (Event::Converted, Some(OPENING)),
        (Event::Look, Some(OPENING)),
        (Event::Written(Some(WORDS)), Some(WRITTEN)),
    ]
}

// Another copies from that writer.
fn copies(writer: NodeId) -> [(Event, Option<Line>); 5] {
    [
        (Event::Queue(Some(writer)), None),
        (Event::PrependGone, None),
        (Event::AttachDirty(WRITER), Some(WRITTEN)),
        (Event::ReturnCopy, Some(WRITTEN)),
        (Event::Settle, Some(WRITTEN)),
    ]
}

/// What an event of a node comes to, and the bytes that it, another node and memory show after it.
#[derive(Clone, Copy)]
struct Shown {
    outcome: Result<Outcome, NotInTurn>,
    own: Line,
    other: Line,
    memory: Line,
}

// One event of a node; if there are those nodes.
#[tactic(auto, using(sci_core::proofs::Fitting::any_event_fits))]
fn step(whole: &mut Whole<AnyWords>, node: NodeId, other: NodeId, event: Event) -> Option<Shown> {
    if node.get() >= whole.nodes() || other.get() >= whole.nodes() {
        return None;
    }
    let outcome = whole.step(node, event);
    Some(Shown {
        outcome,
        own: whole.line(node),
        other: whole.line(other),
        memory: whole.memory_line(),
    })
}

// Takes a node's step. Whether it then shows these bytes, while another node shows those, and memory the first.
fn shows(
    whole: &mut Whole<AnyWords>,
    node: NodeId,
    other: NodeId,
    bytes: Line,
    (event, line): (Event, Option<Line>),
) -> bool {
    let Some(shown) = step(whole, node, other, event) else {
        return false;
    };
    matches!(shown.outcome, Ok(Outcome::Done(_)))
        && shown.own == line.unwrap_or(shown.own)
        && shown.other == bytes
        && shown.memory == OPENING
}

// A node takes these steps, while another shows those bytes.
fn all_show(
    rt: &impl Abort,
    whole: &mut Whole<AnyWords>,
    node: NodeId,
    other: NodeId,
    bytes: Line,
    steps: &[(Event, Option<Line>)],
) {
    for step in steps {
        let shows = shows(whole, node, other, bytes, *step);
        same_at(rt, &step.0, &shows, &true);
    }
}

// Node 0 stores on its own, and then node 1 copies from it.
#[test]
fn shows_lines_in_hands(rt: HostRuntime) -> Result<(), Fail> {
    let (writer, reader) = (node(0), node(1));
    let mut whole = Whole::open(rt.alloc(), 2, 0, OPENING, AnyWords)?;
    all_show(&rt, &mut whole, writer, reader, OPENING, &stores());
    all_show(&rt, &mut whole, reader, writer, WRITTEN, &copies(writer));
    let closed = closed_of(rt.alloc(), &whole).ok_or("a node is in a step")?;
    let gone = mem(MemState::Gone, Some(reader));
    let head = tag(Kind::Dirty, Some(writer), None);
    let tail = tag(Kind::Valid, None, Some(reader));
    is_closed(&rt, &closed, &gone, [tail, head], [WRITTEN; 2]);
    Ok(())
}
