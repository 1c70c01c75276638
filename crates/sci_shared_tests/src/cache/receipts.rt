//! The receipts that calls leave on the lines of a node with ample memory, written down by hand: those that wait, and those in
//! turns; for how many there has to be room; and a node without receipts.
ghost use Rattle.std.specs.Prelude.{◌≡◌, IfOk, length};

use super::waiting::ends;
use super::{Lent, answers, banked, ended, given_back, made, opened};
use crate::checks::{same, same_at};
use sci_cache::{Node, Request};
use sci_core::{AnyWords, Line, Receipt};
use sci_ops::Answer;
use sci_port::{Bank, SoloBank};
use std::alloc::Global;
use std::process::Abort;
use std::sync::Wait;
use std::test::Fail;

// The node's bank of three lines.
pub(super) fn of_three(lent: Lent, node: &Node) -> Result<SoloBank<AnyWords>, Fail>
    ensures { IfOk result (λ bank. (bank.node ≡ node.now.id) × (length bank.wholes.items ≡ 3)) }
{
    if lent.lines.len() != 3 {
        return Err(Fail::new("not three lines"));
    }
    match banked(lent, node.id()) {
        Some(bank) => Ok(bank),
        None => Err(Fail::new("no bank")),
    }
}

// These receipts stand on the three lines.
pub(super) fn have(rt: &impl Abort, lent: &Lent, want: &[&[Receipt]; 3]) {
    same(rt, &lent.receipts.len(), &want.len());
    for (line, (receipts, want)) in lent.receipts.iter().zip(want).enumerate() {
        same_at(rt, &line, &receipts.as_slice(), want);
    }
}

const ZEROS: [u64; 8] = [0; 8];

const SEVEN: [u64; 8] = [7, 0, 0, 0, 0, 0, 0, 0];

const EIGHT: [u64; 8] = [8, 0, 0, 0, 0, 0, 0, 0];

const SAW_ZEROS: Answer = Answer::Seen {
    words: ZEROS,
    stamp: 0,
};

// Calls of a node that may name one line, and their ends. The load of line 1 puts line 0 out.
const CALLS: [(Request, Answer); 6] = [
    (
        Request::Store {
            line: 0,
            word: 0,
            value: 7,
        },
        Answer::Wrote {
            before: ZEROS,
            stamp: 1,
        },
    ),
    (
        Request::Add {
            line: 0,
            word: 0,
            delta: 1,
        },
        Answer::Wrote {
            before: SEVEN,
            stamp: 2,
        },
    ),
    (
        Request::Load { line: 0 },
        Answer::Seen {
            words: EIGHT,
            stamp: 2,
        },
    ),
    (Request::Load { line: 1 }, SAW_ZEROS),
    (Request::Evict { line: 1 }, Answer::Out),
    (
        Request::WriteLine {
            line: 2,
            words: SEVEN,
        },
        Answer::Wrote {
            before: ZEROS,
            stamp: 1,
        },
    ),
];

// The receipts of those on each line: what it settles with on the way to a write is passed, an addition to a line that the node
// has written settles no more, and no eviction leaves one.
const RECEIPTS: [&[Receipt]; 3] = [
    &[
        Receipt::Passed {
            words: ZEROS,
            stamp: 0,
        },
        Receipt::Wrote {
            before: ZEROS,
            words: SEVEN,
            stamp: 1,
        },
        Receipt::Wrote {
            before: SEVEN,
            words: EIGHT,
            stamp: 2,
        },
        Receipt::Read {
            words: EIGHT,
            stamp: 2,
        },
    ],
    &[Receipt::Read {
        words: ZEROS,
        stamp: 0,
    }],
    &[
        Receipt::Passed {
            words: ZEROS,
            stamp: 0,
        },
        Receipt::Wrote {
            before: ZEROS,
            words: SEVEN,
            stamp: 1,
        },
    ],
];

// Makes the calls, each of which waits for its end, over lines of its own: the lines.
fn called_each<R: Abort + Wait>(rt: &R, alloc: Global, node: Node) -> Result<Lent, Fail>
    requires { node.lines ≡ 3 }
{
    let mut node = node;
    let mut bank = of_three(opened(alloc, 1, 3, Line::ZERO)?, &node)?;
    for (request, answer) in &CALLS {
        ends(rt, &mut node, &mut bank, *request, Ok(*answer));
    }
    Ok(given_back(bank))
}

// Begins these calls, and takes their turns to the end, over lines of its own: the lines.
fn begun_each(rt: &impl Abort, alloc: Global, node: Node) -> Result<Lent, Fail>
    requires { node.lines ≡ 3 }
{
    let mut node = node;
    let mut lent = opened(alloc, 1, 3, Line::ZERO)?;
    for (request, answer) in &CALLS {
        let (_, after) = answers(rt, &mut node, lent, *request, *answer)?;
        lent = after;
    }
    Ok(lent)
}

#[test]
fn each_call_leaves_its_receipts(rt: HostRuntime) -> Result<(), Fail> {
    let node = made(rt.alloc(), 0, 1)?;
    have(&rt, &called_each(&rt, rt.alloc(), node)?, &RECEIPTS);
    let node = made(rt.alloc(), 0, 1)?;
    have(&rt, &begun_each(&rt, rt.alloc(), node)?, &RECEIPTS);
    Ok(())
}

// There is no room for receipts on three lines, and none stands there.
fn have_none(rt: &impl Abort, lent: &Lent) {
    have(rt, lent, &[&[], &[], &[]]);
    for receipts in lent.receipts.iter() {
        same(rt, &receipts.room(), &0);
    }
}

#[test]
fn a_node_without_receipts_has_the_same_answers(rt: HostRuntime) -> Result<(), Fail> {
    let node = made(rt.alloc(), 0, 1)?.without_receipts();
    have_none(&rt, &called_each(&rt, rt.alloc(), node)?);
    let node = made(rt.alloc(), 0, 1)?.without_receipts();
    have_none(&rt, &begun_each(&rt, rt.alloc(), node)?);
    Ok(())
}

// Calls of a node that may name one line, and for how many receipts they need room on each. The load of line 1 puts line 0 out.
const NEEDS: [(Request, [usize; 3]); 4] = [
    (Request::Load { line: 0 }, [1, 0, 0]),
    (
        Request::Store {
            line: 0,
            word: 0,
            value: 7,
        },
        [2, 0, 0],
    ),
    (Request::Load { line: 1 }, [1, 1, 0]),
    (Request::Evict { line: 1 }, [0, 1, 0]),
];

// The open call needs room for so many receipts on each of three lines, and there is that much.
fn needs(
    rt: &impl Abort,
    node: &Node,
    bank: &mut SoloBank<AnyWords>,
    request: Request,
    want: [usize; 3],
)
    requires node { node.now.lines ≡ 3 }
    requires bank { length bank.old.wholes.items ≡ 3 }
    ensures { bank.new ≡ bank.old }
{
    let need = [node.need(bank, 0), node.need(bank, 1), node.need(bank, 2)];
    same_at(rt, &request, &need, &want);
    let [zero, one, two] = want;
    let enough = bank.room(0) >= zero && bank.room(1) >= one && bank.room(2) >= two;
    same_at(rt, &request, &enough, &true);
}

// The call begins, and needs so much until it ends.
fn needs_to_its_end(
    rt: &impl Abort,
    node: &mut Node,
    bank: &mut SoloBank<AnyWords>,
    request: Request,
    want: [usize; 3],
) -> Result<(), Fail>
    requires node { (node.old.id ≡ bank.old.node) × (node.old.lines ≡ 3) }
    requires bank { length bank.old.wholes.items ≡ 3 }
    ensures node { (node.new.id ≡ bank.new.node) × (node.new.lines ≡ 3) }
    ensures bank { length bank.new.wholes.items ≡ 3 }
{
    same_at(rt, &request, &node.begin(bank, request), &Ok(()));
    needs(rt, node, bank, request, want);
    ended(node, bank).ok_or("no end")?;
    needs(rt, node, bank, request, [0; 3]);
    Ok(())
}

#[test]
fn calls_need_room_on_their_line_and_the_victims(rt: HostRuntime) -> Result<(), Fail> {
    let mut node = made(rt.alloc(), 0, 1)?;
    let mut bank = of_three(opened(rt.alloc(), 1, 3, Line::ZERO)?, &node)?;
    for (request, want) in &NEEDS {
        needs_to_its_end(&rt, &mut node, &mut bank, *request, *want)?;
    }
    Ok(())
}
