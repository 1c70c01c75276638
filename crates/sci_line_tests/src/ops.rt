//! Operations worked out by hand from the table of turns.
ghost use Rattle.std.specs.Prelude.{◌≡◌, ◌<◌, None, IfOk};
ghost use Rattle.sci_core.specs.Whole.{state_of};
ghost use Rattle.sci_ops.specs.Alone.{IsAtRest};

mod memory;
mod needs;
mod replays;

use crate::checks::{same, same_at};
use sci_core::{AnyWords, Line, OpenRefusal, Whole};
use sci_ops::*;
use sci_port::{Receipts, Solo};
use sci_words::NodeId;
use std::alloc::Global;
use std::marker::Brand;
use std::process::Abort;
use std::sync::ledger::{Blank, Ledger};
use std::test::Fail;

const SEEN: Answer = Answer::Seen {
    words: [0; 8],
    stamp: 0,
};

// One turn, if there is that node.
#[tactic(auto, using(sci_ops::proofs::Storing::any_store_fits))]
fn turn(whole: &mut Whole<AnyWords>, node: NodeId, op: &mut Op) -> Option<Turn> {
    if node.get() >= whole.nodes() {
        return None;
    }
    Some(op.turn_on(whole, node))
}

// The operation's answer after so many turns, none of which waits.
fn take(
    whole: &mut Whole<AnyWords>,
    number: u16,
    op: Result<Op, BadWord>,
    turns: usize,
) -> Option<Answer> {
    let mut op = op.ok()?;
    let node = NodeId::new(number)?;
    for _ in 1..turns {
        if turn(whole, node, &mut op)? != Turn::Moved {
            return None;
        }
    }
    match turn(whole, node, &mut op)? {
        Turn::Done(answer) => Some(answer),
        Turn::Moved | Turn::Waiting => None,
    }
}

#[test]
fn writes_a_line_and_adds(rt: HostRuntime) -> Result<(), Fail> {
    let mut whole = Whole::open(rt.alloc(), 1, 0, Line::ZERO, AnyWords)?;
    let words = [1, 2, 3, 4, 5, 6, 7, 8];
    let wrote = take(&mut whole, 0, Ok(Op::write_line(words)), 6);
    let before = [0; 8];
    same(&rt, &wrote, &Some(Answer::Wrote { before, stamp: 1 }));
    let added = take(&mut whole, 0, Op::add(7, u64::MAX), 2);
    same(
        &rt,
        &added,
        &Some(Answer::Wrote {
            before: words,
            stamp: 2,
        }),
    );
    let seen = take(&mut whole, 0, Ok(Op::load()), 2);
    let words = [1, 2, 3, 4, 5, 6, 7, 7];
    same(&rt, &seen, &Some(Answer::Seen { words, stamp: 2 }));
    Ok(())
}

// Each of three nodes reads the line.
fn all_load(rt: &impl Abort, whole: &mut Whole<AnyWords>) {
    for (number, turns) in [(0, 4), (1, 5), (2, 5)] {
        let seen = take(whole, number, Ok(Op::load()), turns);
        same_at(rt, &number, &seen, &Some(SEEN));
    }
}

// A node leaves the line.
fn leaves(rt: &impl Abort, whole: &mut Whole<AnyWords>, number: u16, turns: usize) {
    let left = take(whole, number, Ok(Op::evict()), turns);
    same(rt, &left, &Some(Answer::Out));
}

#[test]
fn writes_from_the_tail_in_18_turns(rt: HostRuntime) -> Result<(), Fail> {
    let mut whole = Whole::open(rt.alloc(), 3, 0, Line::ZERO, AnyWords)?;
    all_load(&rt, &mut whole);
    let before = [0; 8];
    let wrote = take(&mut whole, 0, Op::store(0, 5), 18);
    same(&rt, &wrote, &Some(Answer::Wrote { before, stamp: 1 }));
    let words = [5, 0, 0, 0, 0, 0, 0, 0];
    let seen = take(&mut whole, 1, Ok(Op::load()), 5);
    same(&rt, &seen, &Some(Answer::Seen { words, stamp: 1 }));
    leaves(&rt, &mut whole, 0, 3);
    leaves(&rt, &mut whole, 1, 4);
    leaves(&rt, &mut whole, 1, 1);
    Ok(())
}

#[test]
fn writes_from_the_head_in_10_turns(rt: HostRuntime) -> Result<(), Fail> {
    let mut whole = Whole::open(rt.alloc(), 3, 0, Line::ZERO, AnyWords)?;
    all_load(&rt, &mut whole);
    let before = [0; 8];
    let wrote = take(&mut whole, 2, Op::store(0, 5), 10);
    same(&rt, &wrote, &Some(Answer::Wrote { before, stamp: 1 }));
    Ok(())
}

// Three nodes and a line that nobody has used.
fn opened(alloc: Global) -> Result<Whole<AnyWords>, OpenRefusal>
    ensures { IfOk result (λ w. IsAtRest (state_of w)) }
{
    Whole::open(alloc, 3, 0, Line::ZERO, AnyWords)
}

// The operation's answer, taken to its end where every node is Idle.
#[tactic(auto, using(sci_ops::proofs::Storing::any_store_fits))]
fn take_alone<L: Ledger>(
    whole: &mut Whole<AnyWords>,
    number: u16,
    mut op: Op,
    steps: &mut Steps<L>,
) -> Option<Answer>
    requires begins { op.answer ≡ None }
    requires rest { IsAtRest (state_of whole.old) }
    ensures rest { IsAtRest (state_of whole.new) }
{
    let node = NodeId::new(number)?;
    if node.get() >= whole.nodes() {
        return None;
    }
    let mut receipts = Receipts::new(whole.allocator());
    let mut solo = Solo::new(whole, &mut receipts, node);
    Some(op.alone(&mut solo, steps))
}

// Reads by three nodes, a write by the tail, a read, and exits, each alone.
fn answers_alone<L: Ledger>(
    whole: &mut Whole<AnyWords>,
    store: Op,
    blank: Blank,
) -> [Option<Answer>; 7]
    requires begins { store.answer ≡ None }
    requires rest { IsAtRest (state_of whole.old) }
    requires name { blank.name ≡ L.name }
    requires parts { blank.parts ≡ L.parts }
    requires some { 0 < L.parts }
{
    let mut steps = Steps::<L>::open(blank);
    let first = take_alone(whole, 0, Op::load(), &mut steps);
    let second = take_alone(whole, 1, Op::load(), &mut steps);
    let third = take_alone(whole, 2, Op::load(), &mut steps);
    let wrote = take_alone(whole, 0, store, &mut steps);
    let seen = take_alone(whole, 1, Op::load(), &mut steps);
    let out = take_alone(whole, 0, Op::evict(), &mut steps);
    let last = take_alone(whole, 1, Op::evict(), &mut steps);
    [first, second, third, wrote, seen, out, last]
}

// The same on a line that nobody has used, with its steps counted in a ledger of its own.
fn answers_of(alloc: Global, store: Op) -> Result<[Option<Answer>; 7], OpenRefusal>
    requires { store.answer ≡ None }
{
    let mut whole = opened(alloc)?;
    let answers = answers_alone::<Brand>(&mut whole, store, Blank::new(1));
    Ok(answers)
}

// The answers where the write stores 5, and then zeros.
const WANTED_ALONE: [Answer; 7] = [
    SEEN,
    SEEN,
    SEEN,
    Answer::Wrote {
        before: [0; 8],
        stamp: 1,
    },
    Answer::Seen {
        words: [5, 0, 0, 0, 0, 0, 0, 0],
        stamp: 1,
    },
    Answer::Out,
    Answer::Out,
];

fn are_answers(rt: &impl Abort, answers: &[Option<Answer>], wanted: &[Answer]) {
    for (answer, wanted) in answers.iter().zip(wanted.iter()) {
        same(rt, answer, &Some(*wanted));
    }
}

#[test]
fn ends_alone(rt: HostRuntime) -> Result<(), Fail> {
    let store = Op::write_line([5, 0, 0, 0, 0, 0, 0, 0]);
    let answers = answers_of(rt.alloc(), store)?;
    are_answers(&rt, &answers, &WANTED_ALONE);
    Ok(())
}

#[test]
fn spends_the_last_stamp(rt: HostRuntime) -> Result<(), Fail> {
    let last = Line {
        words: [0; 8],
        stamp: u64::MAX,
    };
    let mut whole = Whole::open(rt.alloc(), 1, 0, last, AnyWords)?;
    same(
        &rt,
        &take(&mut whole, 0, Op::store(0, 5), 6),
        &Some(Answer::Spent),
    );
    let words = [0; 8];
    let stamp = u64::MAX;
    let seen = take(&mut whole, 0, Ok(Op::load()), 2);
    same(&rt, &seen, &Some(Answer::Seen { words, stamp }));
    Ok(())
}

#[test]
fn refuses_words_above_7(rt: HostRuntime) {
    same(&rt, &Op::store(8, 0), &Err(BadWord));
    same(&rt, &Op::add(8, 0), &Err(BadWord));
    assert!(rt; Op::store(7, 0).is_ok());
    assert!(rt; Op::add(7, 0).is_ok());
    same(&rt, &BadWord.number(), &10);
}
