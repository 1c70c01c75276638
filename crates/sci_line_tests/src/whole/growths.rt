//! Each growth may be refused: its call then answers 7 or an `AllocError`, all is as before, and a second try has the memory.
//! With ample memory this test passes. tools/allocations runs it once for each growth of its table, with that one refused, and
//! the test ends by saying which call answered it.
ghost use Rattle.std.specs.Prelude.{◌≡◌, ℕ, ◌<◌};
ghost use Rattle.sci_core.specs.declared.pending.Pending.TheVariants.{Idle};
ghost use Rattle.sci_core.specs.Whole.{nodes_of, state_of};

use super::{ALONE, LINE, is_chain, node, opened, run};
use crate::checks::same;
use sci_core::{AnyWords, Closed, Event, OpenRefusal, Whole};
use sci_words::{Kind, Mem, MemState, NodeId, Tag};
use std::alloc::Global;
use std::process::Abort;
use std::test::Fail;

// Memory's state, both tags and memory's stamp.
fn shown(whole: &Whole<AnyWords>) -> Option<(MemState, Tag, Tag, u64)> {
    if whole.nodes() < 2 {
        return None;
    }
    let (zero, one) = (node(0), node(1));
    Some((
        whole.mem().state,
        whole.tag(zero),
        whole.tag(one),
        whole.memory_line().stamp,
    ))
}

fn lists(
    rt: &impl Abort,
    whole: &Whole<AnyWords>,
    alloc: Global,
    want: &[u16],
) -> Result<(), Fail> {
    let before = shown(whole);
    if let Ok(chain) = whole.chain(alloc) {
        is_chain(rt, &chain, want);
        return Ok(());
    }
    assert!(rt; shown(whole) == before);
    is_chain(rt, &whole.chain(alloc)?, want);
    Err(Fail::new("chain answered 7"))
}

const HOME: Mem = Mem {
    state: MemState::Home,
    lent: false,
    forw: None,
};

const INVALID: Tag = Tag {
    kind: Kind::Invalid,
    held: false,
    forw: None,
    back: None,
};

fn is_unused(rt: &impl Abort, closed: &Closed) {
    same(rt, &(closed.mem, closed.memory), &(HOME, LINE));
    same(rt, &closed.tags.as_slice(), &[INVALID; 2].as_slice());
    same(rt, &closed.lines.as_slice(), &[LINE; 2].as_slice());
}

// Closes a line that nobody has used.
fn closes(rt: &impl Abort, whole: &Whole<AnyWords>, alloc: Global) -> Result<(), Fail>
    requires { (i : ℕ) → i < nodes_of whole.now → (state_of whole.now).steps i ≡ Idle }
{
    let before = shown(whole);
    if let Ok(closed) = whole.closed(alloc) {
        is_unused(rt, &closed);
        return Ok(());
    }
    assert!(rt; shown(whole) == before);
    is_unused(rt, &whole.closed(alloc)?);
    Err(Fail::new("closed answered 7"))
}

// A second try to open has the memory.
fn opens_again(rt: &impl Abort, alloc: Global, refusal: OpenRefusal) -> Result<(), Fail> {
    same(rt, &refusal, &OpenRefusal::OutOfMemory);
    same(rt, &refusal.number(), &7);
    let whole = Whole::open(alloc, 2, 7, LINE, AnyWords)?;
    is_chain(rt, &whole.chain(alloc)?, &[]);
    Err(Fail::new("open answered 7"))
}

// Node 1 reads, and then node 0.
fn reads(zero: NodeId, one: NodeId, alone: Tag) -> [(NodeId, Event); 7] {
    [
        (one, Event::Queue(None)),
        (one, Event::PrependValid),
        (one, Event::ReturnMemory),
        (one, Event::Settle),
        (zero, Event::Queue(Some(one))),
        (zero, Event::PrependValid),
        (one, Event::Hold(alone)),
    ]
}

fn refuses(rt: &impl Abort, alloc: Global) -> Result<(), Fail> {
    let mut whole = match opened(alloc, 2, 7, LINE) {
        Ok(whole) => whole,
        Err(refusal) => return opens_again(rt, alloc, refusal),
    };
    closes(rt, &whole, alloc)?;
    lists(rt, &whole, alloc, &[])?;
    same(
        rt,
        &run(&mut whole, &reads(node(0), node(1), ALONE)),
        &Some(Ok(7)),
    );
    lists(rt, &whole, alloc, &[0, 1])
}

/// Growths: 3 of open, 2 of closed, 2 of chain.
#[test]
fn refused_growths(rt: HostRuntime) -> Result<(), Fail> {
    refuses(&rt, rt.alloc())
}
