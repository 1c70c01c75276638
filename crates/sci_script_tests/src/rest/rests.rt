//! Lines that are brought to rest, worked out by hand from the table of turns.
ghost use Rattle.std.specs.Prelude.{◌≡◌, ◌<◌, length};
ghost use Rattle.sci_core.specs.Whole.{nodes_of};

use sci_core::{AnyWords, Line, Whole};
use sci_ops::{Answer, Op, Steps, Turn, end, rest};
use sci_words::{Kind, Mem, MemState, NodeId, Tag};
use std::marker::Brand;
use std::process::Abort;
use std::sync::ledger::{Blank, Ledger};
use std::test::Fail;

// One turn, if there is that node.
#[tactic(auto, using(sci_ops::proofs::Storing::any_store_fits))]
fn turn(whole: &mut Whole<AnyWords>, number: u16, op: &mut Op) -> Option<Turn> {
    let node = NodeId::new(number)?;
    if node.get() >= whole.nodes() {
        return None;
    }
    Some(op.turn_on(whole, node))
}

// The last of so many turns of the operation, none of which waits.
fn last_turn(whole: &mut Whole<AnyWords>, number: u16, op: &mut Op, turns: usize) -> Option<Turn> {
    let mut last = Turn::Waiting;
    for _ in 0..turns {
        last = turn(whole, number, op)?;
        if last == Turn::Waiting {
            return None;
        }
    }
    Some(last)
}

// The line comes to rest.
fn counted<L: Ledger>(whole: &mut Whole<AnyWords>, blank: Blank)
    requires name { blank.name ≡ L.name }
    requires parts { blank.parts ≡ L.parts }
    requires some { 0 < L.parts }
{
    let mut steps = Steps::<L>::open(blank);
    rest(whole, &mut steps);
}

// The same, with its steps counted in a ledger of its own.
fn bring_to_rest(whole: &mut Whole<AnyWords>) {
    counted::<Brand>(whole, Blank::new(1));
}

// Memory's word, and the tags of nodes 0 and 1.
fn words(whole: &Whole<AnyWords>) -> Option<(Mem, Tag, Tag)> {
    let (first, second) = (NodeId::new(0)?, NodeId::new(1)?);
    if whole.nodes() < 2 {
        return None;
    }
    Some((whole.mem(), whole.tag(first), whole.tag(second)))
}

// FRESH, with node 1 alone in the list.
fn node_1_alone() -> Option<(Mem, Tag, Tag)> {
    let mem = Mem {
        state: MemState::Fresh,
        lent: false,
        forw: Some(NodeId::new(1)?),
    };
    let out = Tag {
        kind: Kind::Invalid,
        held: false,
        forw: None,
        back: None,
    };
    let settled = Tag {
        kind: Kind::Fresh,
        held: false,
        forw: None,
        back: None,
    };
    Some((mem, out, settled))
}

// Node 0 reads and begins to leave; node 1 queues up for a write. To rest: node 0 returns the line home and leaves, node 1
// requeues, prepends itself as a reader, gives memory's slot back and settles. Then the write goes on: Convert, FreshToGone,
// Converted and Written.
#[test]
fn a_write_goes_on_from_rest(rt: HostRuntime) -> Result<(), Fail> {
    let mut whole = Whole::open(rt.alloc(), 2, 0, Line::ZERO, AnyWords)?;
    let mut write = Op::write_line([5, 0, 0, 0, 0, 0, 0, 0]);
    let _ = last_turn(&mut whole, 0, &mut Op::load(), 4);
    let _ = last_turn(&mut whole, 1, &mut write, 1);
    let _ = last_turn(&mut whole, 0, &mut Op::evict(), 1);
    bring_to_rest(&mut whole);
    assert_eq!(rt; words(&whole), node_1_alone());
    let wrote = last_turn(&mut whole, 1, &mut write, 4);
    let before = [0; 8];
    assert_eq!(rt; wrote, Some(Turn::Done(Answer::Wrote { before, stamp: 1 })));
    Ok(())
}

// The operations end.
#[tactic(auto, using(sci_ops::proofs::Storing::any_store_fits))]
fn counted_end<L: Ledger>(whole: &mut Whole<AnyWords>, ops: &mut [Op], blank: Blank)
    requires count { length ops.old ≡ nodes_of whole.old }
    requires name { blank.name ≡ L.name }
    requires parts { blank.parts ≡ L.parts }
    requires some { 0 < L.parts }
{
    let mut steps = Steps::<L>::open(blank);
    end(whole, ops, &mut steps);
}

// The same, with its steps counted in a ledger of its own.
fn take_to_end(whole: &mut Whole<AnyWords>, ops: &mut [Op])
    requires { length ops.old ≡ nodes_of whole.old }
{
    counted_end::<Brand>(whole, ops, Blank::new(1));
}

// What the operations of four nodes answer that are taken to their ends.
fn answers_of(whole: &mut Whole<AnyWords>, ops: &[Op; 4]) -> Option<[Option<Answer>; 4]> {
    if whole.nodes() != 4 {
        return None;
    }
    let mut ending = *ops;
    take_to_end(whole, &mut ending);
    let [first, second, third, last] = ending;
    Some([
        first.answer(),
        second.answer(),
        third.answer(),
        last.answer(),
    ])
}

// GONE, with node 2 in front of node 1.
fn node_2_before_node_1() -> Option<(Mem, Tag, Tag)> {
    let head = Some(NodeId::new(2)?);
    let mem = Mem {
        state: MemState::Gone,
        lent: false,
        forw: head,
    };
    let out = Tag {
        kind: Kind::Invalid,
        held: false,
        forw: None,
        back: None,
    };
    let last = Tag {
        kind: Kind::Valid,
        held: false,
        forw: None,
        back: head,
    };
    Some((mem, out, last))
}

// Node 3 has read. Nodes 0 and 1 queue up in front of it, to add to word 0, and node 1 has prepended itself; node 2's load hasn't begun. To
// rest node 1 gives memory's slot back, node 0 requeues, and both enter as readers. Then node 0 adds 5, node 1 adds 7, and node 2
// reads. Node 3's answer stays what it was.
#[test]
fn operations_end(rt: HostRuntime) -> Result<(), Fail> {
    let mut whole = Whole::open(rt.alloc(), 4, 0, Line::ZERO, AnyWords)?;
    let (Ok(mut five), Ok(mut seven)) = (Op::add(0, 5), Op::add(0, 7)) else {
        panic!(rt; "refused")
    };
    let mut read = Op::load();
    let _ = last_turn(&mut whole, 3, &mut read, 4);
    let _ = last_turn(&mut whole, 0, &mut five, 1);
    let _ = last_turn(&mut whole, 1, &mut seven, 2);
    let answers = answers_of(&mut whole, &[five, seven, Op::load(), read]);
    let first = Answer::Wrote {
        before: [0; 8],
        stamp: 1,
    };
    let second = Answer::Wrote {
        before: [5, 0, 0, 0, 0, 0, 0, 0],
        stamp: 2,
    };
    let third = Answer::Seen {
        words: [12, 0, 0, 0, 0, 0, 0, 0],
        stamp: 2,
    };
    let last = Answer::Seen {
        words: [0; 8],
        stamp: 0,
    };
    assert_eq!(rt;
        answers,
        Some([Some(first), Some(second), Some(third), Some(last)])
    );
    assert_eq!(rt; words(&whole), node_2_before_node_1());
    Ok(())
}
