//! Nodes over lines that are lent: their residents, victims, answers and refusals.
ghost use Rattle.std.specs.Prelude.{◌≡◌, IfOk, IfSome, IsTrue, length};
ghost use Rattle.sci_core.specs.declared.keeps.AnyWords.{AnyWords};
ghost use Rattle.sci_port.specs.Banks.{AreLinesOf};

mod growths;
mod memory;
mod receipts;
mod waiting;

use crate::checks::{same, same_at};
use sci_cache::*;
use sci_core::{AnyWords, Line, OpenRefusal, Whole};
use sci_ops::{Answer, Turn};
use sci_port::{Receipts, SoloBank};
use sci_words::{LineNo, NodeId, mem_name, name};
use std::alloc::Global;
use std::process::Abort;
use std::test::Fail;

const ZEROS: Answer = Answer::Seen {
    words: [0; 8],
    stamp: 0,
};

// A node of three lines, which may name so many.
fn made(alloc: Global, number: u16, capacity: u16) -> Result<Node, Fail>
    ensures { IfOk result (λ node. node.lines ≡ 3) }
{
    let id = NodeId::new(number).ok_or("no node")?;
    Ok(Node::new(alloc, id, 3, capacity)?)
}

// Lines that are lent to one node after another, and receipts on each, none of which is kept: there is no room.
#[derive(Drop)]
struct Lent {
    lines: Vec<Whole<AnyWords>>,
    receipts: Vec<Receipts>,
}

// So many lines of so many nodes, each opened with this content.
fn opened(alloc: Global, nodes: u16, lines: u16, line: Line) -> Result<Lent, OpenRefusal> {
    let mut wholes = Vec::new(alloc);
    for number in 0..lines {
        let whole = Whole::open(alloc, nodes, number, line, AnyWords)?;
        if wholes.push(whole).is_err() {
            return Err(OpenRefusal::OutOfMemory);
        }
    }
    match Receipts::of_lines(alloc, usize::from(lines)) {
        Ok(receipts) => Ok(Lent {
            lines: wholes,
            receipts,
        }),
        Err(_) => Err(OpenRefusal::OutOfMemory),
    }
}

// Whether these are a memory's lines, numbered from 0, and each has the node.
fn are_lines_of(wholes: &[Whole<AnyWords>], me: NodeId) -> bool
    ensures { IsTrue result → (keep : AnyWords) × AreLinesOf keep me wholes.now }
{
    if wholes.is_empty() || wholes.len() > 1024 {
        return false;
    }
    for (line, whole) in wholes.iter().enumerate() {
        if usize::from(whole.number()) != line || me.get() >= whole.nodes() {
            return false;
        }
    }
    true
}

// The node's bank of these lines.
fn banked(lent: Lent, me: NodeId) -> Option<SoloBank<AnyWords>>
    ensures { IfSome result (λ bank. (bank.node ≡ me) × (bank.wholes ≡ lent.lines)) }
{
    let Lent { lines, receipts } = lent;
    if receipts.len() != lines.len() {
        return None;
    }
    if !are_lines_of(&lines, me) {
        return None;
    }
    Some(SoloBank::new(lines, receipts, me))
}

// What a bank was lent.
fn given_back(bank: SoloBank<AnyWords>) -> Lent {
    let (lines, receipts) = bank.into_parts();
    Lent { lines, receipts }
}

// The open call of a node over its bank, in turns that all move: how many there were, and its answer.
#[tactic(auto, using(sci_cache::proofs::Storing::any_call_fits))]
fn ended(node: &mut Node, bank: &mut SoloBank<AnyWords>) -> Option<(u32, Answer)>
    requires node { node.old.id ≡ bank.old.node }
    requires lines { length bank.old.wholes.items ≡ node.old.lines }
    ensures node { node.new.id ≡ bank.new.node }
    ensures lines { length bank.new.wholes.items ≡ node.new.lines }
    ensures same { node.new.lines ≡ node.old.lines }
{
    for turns in 1..100 {
        match node.turn(bank) {
            Ok(Turn::Moved) => {}
            Ok(Turn::Done(answer)) => return Some((turns, answer)),
            Ok(Turn::Waiting) | Err(_) => return None,
        }
    }
    None
}

// A request of a node of three lines, to its end: how many turns it took, its answer, and the lines after it.
fn done(node: &mut Node, lent: Lent, request: Request) -> Option<(u32, Answer, Lent)>
    requires { node.old.lines ≡ 3 }
    ensures { node.new.lines ≡ 3 }
{
    if lent.lines.len() != 3 {
        return None;
    }
    let mut bank = banked(lent, node.id())?;
    if node.begin(&mut bank, request).is_err() {
        return None;
    }
    let (turns, answer) = ended(node, &mut bank)?;
    Some((turns, answer, given_back(bank)))
}

// These are the names of memory's word and of a node's tag on a line.
fn stands(
    rt: &impl Abort,
    lent: &Lent,
    line: usize,
    number: u16,
    want: (&'static str, &'static str),
) {
    let (Some(node), Some(whole)) = (NodeId::new(number), lent.lines.get(line)) else {
        panic!(rt; "no such line")
    };
    assert!(rt; node.get() < whole.nodes());
    same(rt, &(mem_name(whole.mem()), name(whole.tag(node))), &want);
}

// The residents of a node are these.
fn lists(rt: &impl Abort, alloc: Global, node: &Node, want: &[u16]) -> Result<(), Fail> {
    same(rt, &node.resident(alloc)?.as_slice(), &want);
    Ok(())
}

// A request of such a node has this answer: its turns, and the lines after it.
fn answers(
    rt: &impl Abort,
    node: &mut Node,
    wholes: Lent,
    request: Request,
    want: Answer,
) -> Result<(u32, Lent), Fail>
    requires { node.old.lines ≡ 3 }
    ensures { node.new.lines ≡ 3 }
{
    let (turns, answer, wholes) = done(node, wholes, request).ok_or("no end")?;
    same(rt, &answer, &want);
    Ok((turns, wholes))
}

// A load of such a node finds a line that was never written, in so many turns.
fn finds_zeros(
    rt: &impl Abort,
    node: &mut Node,
    wholes: Lent,
    line: LineNo,
    want: u32,
) -> Result<Lent, Fail>
    requires { node.old.lines ≡ 3 }
    ensures { node.new.lines ≡ 3 }
{
    let load = Request::Load { line };
    let (turns, wholes) = answers(rt, node, wholes, load, ZEROS)?;
    same(rt, &turns, &want);
    Ok(wholes)
}

#[test]
fn the_last_of_a_full_table_is_evicted(rt: HostRuntime) -> Result<(), Fail> {
    let mut node = made(rt.alloc(), 0, 1)?;
    lists(&rt, rt.alloc(), &node, &[])?;
    let wholes = opened(rt.alloc(), 1, 3, Line::ZERO)?;
    let wholes = finds_zeros(&rt, &mut node, wholes, 0, 4)?;
    stands(&rt, &wholes, 0, 0, ("FRESH", "ONLY_FRESH"));
    // Leave, ReturnHomeFresh and Left of line 0, and then the four turns of the load.
    let wholes = finds_zeros(&rt, &mut node, wholes, 1, 7)?;
    stands(&rt, &wholes, 0, 0, ("HOME", "INVALID"));
    stands(&rt, &wholes, 1, 0, ("FRESH", "ONLY_FRESH"));
    lists(&rt, rt.alloc(), &node, &[1])
}

// Uses of a node that may name two lines: the request, its turns, and the residents after it.
const USES: [(Request, u32, &[u16]); 8] = [
    (Request::Load { line: 0 }, 4, &[0]),
    (Request::Load { line: 1 }, 4, &[1, 0]),
    (Request::Load { line: 0 }, 2, &[0, 1]),
    // Line 1 is the victim, and then line 2 is entered.
    (Request::Load { line: 2 }, 7, &[2, 0]),
    // The table doesn't name line 1: nothing is to be left, and no line is put out.
    (Request::Evict { line: 1 }, 1, &[2, 0]),
    (Request::Evict { line: 0 }, 3, &[2]),
    (Request::Load { line: 1 }, 4, &[1, 2]),
    (Request::Evict { line: 1 }, 3, &[2]),
];

// A node's use of its lines takes so many turns, and leaves it these residents: the lines after it.
fn uses(
    rt: &impl Abort,
    alloc: Global,
    node: &mut Node,
    lines: Lent,
    want: &(Request, u32, &[u16]),
) -> Result<Lent, Fail>
    requires { node.old.lines ≡ 3 }
    ensures { node.new.lines ≡ 3 }
{
    let (request, turns, residents) = want;
    let (took, _, after) = done(node, lines, *request).ok_or("no end")?;
    let named = node.resident(alloc)?;
    same_at(
        rt,
        request,
        &(took, named.as_slice()),
        &(*turns, *residents),
    );
    Ok(after)
}

#[test]
fn the_table_goes_by_the_last_use(rt: HostRuntime) -> Result<(), Fail> {
    let mut node = made(rt.alloc(), 0, 2)?;
    let mut lines = opened(rt.alloc(), 1, 3, Line::ZERO)?;
    for want in &USES {
        lines = uses(&rt, rt.alloc(), &mut node, lines, want)?;
    }
    stands(&rt, &lines, 2, 0, ("FRESH", "ONLY_FRESH"));
    stands(&rt, &lines, 0, 0, ("HOME", "INVALID"));
    Ok(())
}

/// A load of line 0 and the store behind it that purges it: what is seen, the value that is stored, and its answer.
type Purge = (Answer, u64, Answer);

const PURGES: [Purge; 2] = [
    (
        ZEROS,
        5,
        Answer::Wrote {
            before: [0; 8],
            stamp: 1,
        },
    ),
    // It is read again, and purged again.
    (
        Answer::Seen {
            words: [5, 0, 0, 0, 0, 0, 0, 0],
            stamp: 1,
        },
        6,
        Answer::Wrote {
            before: [5, 0, 0, 0, 0, 0, 0, 0],
            stamp: 2,
        },
    ),
];

// The reader's line is purged, and it still names it: the lines after that.
fn purges(
    rt: &impl Abort,
    reader: &mut Node,
    writer: &mut Node,
    wholes: Lent,
    purge: &Purge,
) -> Result<Lent, Fail>
    requires { (reader.old.lines ≡ 3) × (writer.old.lines ≡ 3) }
    ensures { (reader.new.lines ≡ 3) × (writer.new.lines ≡ 3) }
{
    let (seen, value, wrote) = *purge;
    let load = Request::Load { line: 0 };
    let (_, read) = answers(rt, reader, wholes, load, seen)?;
    let store = Request::Store {
        line: 0,
        word: 0,
        value,
    };
    let (_, purged) = answers(rt, writer, read, store, wrote)?;
    stands(rt, &purged, 0, 0, ("GONE", "INVALID"));
    Ok(purged)
}

#[test]
fn a_purged_line_stays_named(rt: HostRuntime) -> Result<(), Fail> {
    let mut reader = made(rt.alloc(), 0, 1)?;
    let mut writer = made(rt.alloc(), 1, 1)?;
    let mut wholes = opened(rt.alloc(), 2, 3, Line::ZERO)?;
    for purge in &PURGES {
        wholes = purges(&rt, &mut reader, &mut writer, wholes, purge)?;
        lists(&rt, rt.alloc(), &reader, &[0])?;
    }
    // As a victim it is out at once.
    let wholes = finds_zeros(&rt, &mut reader, wholes, 1, 5)?;
    stands(&rt, &wholes, 0, 0, ("GONE", "INVALID"));
    stands(&rt, &wholes, 0, 1, ("GONE", "ONLY_DIRTY"));
    lists(&rt, rt.alloc(), &reader, &[1])
}
