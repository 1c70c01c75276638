//! Refusals, and the calls that wait for their end.
ghost use Rattle.std.specs.Prelude.{◌≡◌, IfOk, length};

use super::{banked, lists, opened};
use crate::checks::{same, same_at};
use sci_cache::{Node, NodeRefusal, Request};
use sci_core::{AnyWords, Line};
use sci_ops::Answer;
use sci_port::{Bank, SoloBank};
use sci_words::NodeId;
use std::alloc::Global;
use std::process::Abort;
use std::sync::Wait;
use std::test::Fail;

#[test]
fn a_capacity_is_1_to_1024(rt: HostRuntime) -> Result<(), Fail> {
    let zero = NodeId::new(0).ok_or("no node")?;
    for (capacity, refusal) in [
        (0, Some(NodeRefusal::BadCapacity)),
        (1, None),
        (1024, None),
        (1025, Some(NodeRefusal::BadCapacity)),
        (u16::MAX, Some(NodeRefusal::BadCapacity)),
    ] {
        let answer = Node::new(rt.alloc(), zero, 1, capacity).err();
        same_at(&rt, &capacity, &answer, &refusal);
    }
    Ok(())
}

#[test]
fn refusals_have_their_numbers(rt: HostRuntime) {
    for (refusal, number) in [
        (NodeRefusal::OutOfMemory, 7),
        (NodeRefusal::BadWord, 10),
        (NodeRefusal::StampsSpent, 11),
        (NodeRefusal::BadLine, 12),
        (NodeRefusal::BadCapacity, 13),
        (NodeRefusal::CallOpen, 14),
        (NodeRefusal::NoCall, 15),
    ] {
        same(&rt, &refusal.number(), &number);
    }
}

// A node of one line, and its bank of that line.
pub(super) fn seated(alloc: Global, line: Line) -> Result<(Node, SoloBank<AnyWords>), Fail>
    ensures node { IfOk result (λ seat. (seat.0.id ≡ seat.1.node) × (seat.0.lines ≡ 1)) }
    ensures bank { IfOk result (λ seat. length seat.1.wholes.items ≡ 1) }
{
    let zero = NodeId::new(0).ok_or("no node")?;
    let Ok(wholes) = opened(alloc, 1, 1, line) else {
        return Err(Fail::new("open answered 7"));
    };
    if wholes.lines.len() != 1 {
        return Err(Fail::new("no line"));
    }
    let bank = banked(wholes, zero).ok_or("no bank")?;
    let Ok(node) = Node::new(alloc, zero, 1, 1) else {
        return Err(Fail::new("new answered 7"));
    };
    Ok((node, bank))
}

// The request is refused with this, and whether a call is open stays as it was, and how much room there is.
fn refuses(
    rt: &impl Abort,
    node: &mut Node,
    bank: &mut SoloBank<AnyWords>,
    request: Request,
    refusal: NodeRefusal,
)
    requires node { (node.old.id ≡ bank.old.node) × (node.old.lines ≡ 1) }
    requires bank { length bank.old.wholes.items ≡ 1 }
    ensures node { (node.new.id ≡ bank.new.node) × (node.new.lines ≡ 1) }
    ensures bank { length bank.new.wholes.items ≡ 1 }
{
    let stood = (node.open(), bank.room(0));
    same_at(rt, &request, &node.begin(bank, request), &Err(refusal));
    same_at(rt, &request, &(node.open(), bank.room(0)), &stood);
}

// Requests of a node of one line, and their refusals.
const REFUSED: [(Request, NodeRefusal); 5] = [
    (Request::Load { line: 1 }, NodeRefusal::BadLine),
    (Request::Evict { line: 1 }, NodeRefusal::BadLine),
    (STORE_OF_BOTH, NodeRefusal::BadLine),
    (
        Request::Store {
            line: 0,
            word: 8,
            value: 0,
        },
        NodeRefusal::BadWord,
    ),
    (
        Request::Add {
            line: 0,
            word: 8,
            delta: 0,
        },
        NodeRefusal::BadWord,
    ),
];

// A store that is on no line and on no word.
const STORE_OF_BOTH: Request = Request::Store {
    line: 1,
    word: 8,
    value: 0,
};

// And of one whose call is open.
const REFUSED_WHILE_OPEN: [(Request, NodeRefusal); 2] = [
    (LOAD, NodeRefusal::CallOpen),
    (STORE_OF_BOTH, NodeRefusal::CallOpen),
];

const LOAD: Request = Request::Load { line: 0 };

// Each of these requests is refused, and the node names these lines.
fn refuses_each(
    rt: &impl Abort,
    alloc: Global,
    node: &mut Node,
    bank: &mut SoloBank<AnyWords>,
    refused: &[(Request, NodeRefusal)],
    named: &[u16],
) -> Result<(), Fail>
    requires node { (node.old.id ≡ bank.old.node) × (node.old.lines ≡ 1) }
    requires bank { length bank.old.wholes.items ≡ 1 }
    ensures node { (node.new.id ≡ bank.new.node) × (node.new.lines ≡ 1) }
    ensures bank { length bank.new.wholes.items ≡ 1 }
{
    for (request, refusal) in refused {
        refuses(rt, node, bank, *request, *refusal);
    }
    lists(rt, alloc, node, named)
}

#[test]
fn requests_and_turns_are_refused(rt: HostRuntime) -> Result<(), Fail> {
    let (mut node, mut bank) = seated(rt.alloc(), Line::ZERO)?;
    same(&rt, &node.turn(&mut bank), &Err(NodeRefusal::NoCall));
    refuses_each(&rt, rt.alloc(), &mut node, &mut bank, &REFUSED, &[])?;
    assert!(rt; !node.open());
    same(&rt, &node.begin(&mut bank, LOAD), &Ok(()));
    assert!(rt; node.open());
    refuses_each(
        &rt,
        rt.alloc(),
        &mut node,
        &mut bank,
        &REFUSED_WHILE_OPEN,
        &[0],
    )
}

// The request by the call that waits for its end.
#[tactic(auto, using(sci_ops::proofs::Storing::any_store_fits))]
pub(super) fn called<R: Wait>(
    rt: &R,
    node: &mut Node,
    bank: &mut SoloBank<AnyWords>,
    request: Request,
) -> Result<Answer, NodeRefusal>
    requires node { node.old.id ≡ bank.old.node }
    requires lines { length bank.old.wholes.items ≡ node.old.lines }
    ensures node { node.new.id ≡ bank.new.node }
    ensures lines { length bank.new.wholes.items ≡ node.new.lines }
    ensures same { node.new.lines ≡ node.old.lines }
{
    match request {
        Request::Load { line } => node.load(rt, bank, line),
        Request::Store { line, word, value } => node.store(rt, bank, line, word, value),
        Request::Add { line, word, delta } => node.add(rt, bank, line, word, delta),
        Request::WriteLine { line, words } => node.write_line(rt, bank, line, words),
        Request::Evict { line } => node.evict(rt, bank, line),
    }
}

// The request's call waits for this end.
pub(super) fn ends<R: Abort + Wait>(
    rt: &R,
    node: &mut Node,
    bank: &mut SoloBank<AnyWords>,
    request: Request,
    want: Result<Answer, NodeRefusal>,
)
    requires node { node.old.id ≡ bank.old.node }
    requires lines { length bank.old.wholes.items ≡ node.old.lines }
    ensures node { node.new.id ≡ bank.new.node }
    ensures lines { length bank.new.wholes.items ≡ node.new.lines }
    ensures same { node.new.lines ≡ node.old.lines }
{
    same_at(rt, &request, &called(rt, node, bank, request), &want);
}

// Calls on a line that was never written, and their ends.
pub(super) const CALLS: [(Request, Answer); 4] = [
    (
        Request::Store {
            line: 0,
            word: 0,
            value: 7,
        },
        Answer::Wrote {
            before: [0, 0, 0, 0, 0, 0, 0, 0],
            stamp: 1,
        },
    ),
    (
        Request::Load { line: 0 },
        Answer::Seen {
            words: [7, 0, 0, 0, 0, 0, 0, 0],
            stamp: 1,
        },
    ),
    (
        Request::Add {
            line: 0,
            word: 0,
            delta: 1,
        },
        Answer::Wrote {
            before: [7, 0, 0, 0, 0, 0, 0, 0],
            stamp: 2,
        },
    ),
    (
        Request::WriteLine {
            line: 0,
            words: [0; 8],
        },
        Answer::Wrote {
            before: [8, 0, 0, 0, 0, 0, 0, 0],
            stamp: 3,
        },
    ),
];

#[test]
fn five_calls_wait_for_their_end(rt: HostRuntime) -> Result<(), Fail> {
    let (mut node, mut bank) = seated(rt.alloc(), Line::ZERO)?;
    for (request, answer) in CALLS {
        ends(&rt, &mut node, &mut bank, request, Ok(answer));
    }
    lists(&rt, rt.alloc(), &node, &[0])?;
    let evict = Request::Evict { line: 0 };
    ends(&rt, &mut node, &mut bank, evict, Ok(Answer::Out));
    lists(&rt, rt.alloc(), &node, &[])?;
    assert!(rt; !node.open());
    Ok(())
}

// Calls on a line whose stamp counts one more write, and their ends.
const LAST_CALLS: [(Request, Result<Answer, NodeRefusal>); 5] = [
    (Request::Load { line: 1 }, Err(NodeRefusal::BadLine)),
    (
        Request::Store {
            line: 0,
            word: 8,
            value: 0,
        },
        Err(NodeRefusal::BadWord),
    ),
    (
        Request::Store {
            line: 0,
            word: 0,
            value: 5,
        },
        Ok(Answer::Wrote {
            before: [0, 0, 0, 0, 0, 0, 0, 0],
            stamp: u64::MAX,
        }),
    ),
    (
        Request::Store {
            line: 0,
            word: 0,
            value: 6,
        },
        Err(NodeRefusal::StampsSpent),
    ),
    (
        Request::Load { line: 0 },
        Ok(Answer::Seen {
            words: [5, 0, 0, 0, 0, 0, 0, 0],
            stamp: u64::MAX,
        }),
    ),
];

#[test]
fn calls_that_wait_are_refused(rt: HostRuntime) -> Result<(), Fail> {
    let line = Line {
        words: [0; 8],
        stamp: u64::MAX - 1,
    };
    let (mut node, mut bank) = seated(rt.alloc(), line)?;
    for (request, end) in LAST_CALLS {
        ends(&rt, &mut node, &mut bank, request, end);
    }
    let evict = Request::Evict { line: 0 };
    same(&rt, &node.begin(&mut bank, evict), &Ok(()));
    ends(&rt, &mut node, &mut bank, evict, Err(NodeRefusal::CallOpen));
    Ok(())
}
