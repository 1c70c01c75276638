//! Turns, ports that are watched, words and operations alone take no memory. tools/allocations runs each of these tests with the allocation of
//! its last line refused, and wants it to fail there, and there alone.
use super::{answers_of, opened};
use crate::checks::allocates;
use sci_core::{AnyWords, Whole};
use sci_ops::{Answer, Op, Turn};
use sci_port::{Passed, Receipts, Solo, Watched};
use sci_words::{NodeId, mem_name, name, read_mem, read_tag, write_mem, write_tag};
use std::alloc::Global;
use std::process::Abort;

const TURNS: u32 = 100_000;

/// The next number by chance.
fn next(chance: u32) -> u32 {
    chance.wrapping_mul(1_664_525).wrapping_add(1_013_904_223)
}

/// An operation by this number.
fn op(kind: u32) -> Op {
    match kind % 4 {
        0 => Op::load(),
        1 => Op::evict(),
        2 => Op::write_line([3; 8]),
        _ => Op::add(7, 1).unwrap_or(Op::load()),
    }
}

/// Whether memory's word and the node's tag have names, and codes that are read as they are; if there is that node.
fn has_words(whole: &Whole<AnyWords>, number: u16) -> Option<bool> {
    let node = NodeId::new(number)?;
    if node.get() >= whole.nodes() {
        return None;
    }
    let (mem, tag) = (whole.mem(), whole.tag(node));
    let is_named = mem_name(mem) != name(tag);
    Some(is_named && read_mem(write_mem(mem)) == Ok(mem) && read_tag(write_tag(tag)) == Ok(tag))
}

/// One turn of a node's operation, through a port that is watched; if there is that node.
fn turn(whole: &mut Whole<AnyWords>, number: u16, op: &mut Op) -> Option<Turn> {
    let node = NodeId::new(number)?;
    if node.get() >= whole.nodes() {
        return None;
    }
    let mut receipts = Receipts::new(whole.allocator());
    let mut watched = Watched {
        port: Solo::new(whole, &mut receipts, node),
        passed: Passed::NOTHING,
    };
    Some(op.turn(&mut watched))
}

/// One turn of a node. Some(true): its operation has ended. None too: a word is read or named as another.
fn ends(whole: &mut Whole<AnyWords>, number: u16, op: &mut Op) -> Option<bool> {
    let taken = turn(whole, number, op)?;
    has_words(whole, number)?.then_some(matches!(taken, Turn::Done(_)))
}

/// Turns by chance of three nodes, each with one operation after the other: how many of them ended.
fn turns(whole: &mut Whole<AnyWords>) -> Option<u32> {
    let mut ops = [Op::load(); 3];
    let mut ended: u32 = 0;
    let mut chance = 1;
    for _ in 0..TURNS {
        chance = next(chance);
        let number = (chance >> 16) as u16 % 3;
        let at_work = &mut ops[usize::from(number)];
        if ends(whole, number, at_work)? {
            *at_work = op(chance >> 20);
            ended = ended.saturating_add(1);
        }
    }
    Some(ended)
}

/// A line that nobody has used. It takes three allocations.
fn line(rt: &impl Abort, alloc: Global) -> Whole<AnyWords> {
    let Ok(whole) = opened(alloc) else {
        panic!(rt; "no line")
    };
    whole
}

#[test]
fn turns_take_no_memory(rt: HostRuntime) {
    let mut whole = line(&rt, rt.alloc());
    assert!(rt; matches!(turns(&mut whole), Some(1_000..)));
    allocates(&rt, rt.alloc(), "allocation 4 is refused");
}

fn are_given(answers: &[Option<Answer>]) -> bool {
    answers.iter().all(Option::is_some)
}

#[test]
fn operations_alone_take_no_memory(rt: HostRuntime) {
    let Ok(answers) = answers_of(rt.alloc(), Op::write_line([5; 8])) else {
        panic!(rt; "no line")
    };
    assert!(rt; are_given(&answers));
    allocates(&rt, rt.alloc(), "allocation 4 is refused");
}
