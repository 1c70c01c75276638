//! Threads on one line: additions by two nodes, loads by three, and four threads of loads, stores, additions and evictions by eight.
ghost use Rattle.std.specs.Prelude.{All};

use super::{TestedLine, carry_out, closes};
use crate::checks::same;
use sci_coarse::CoarseLine;
use sci_core::{AnyWords, Closed, Line};
use sci_fine::FineLine;
use sci_ops::{Answer, Op};
use sci_words::{Kind, Tag};
use std::alloc::Global;
use std::process::Abort;
use std::sync::Wait;
use std::test::Fail;
use std::thread;
use std::thread::Threads;

/// Additions of each of two nodes.
const ADDS: u64 = 1_000;

/// Operations of each of eight nodes.
const STEPS: u64 = 12_500;

/// These nodes, two to a thread.
const NODES: u64 = 8;

// A node's operation, so often.
fn repeat<R: Wait, L: TestedLine>(rt: &R, line: &L, seat: &mut L::Seat, op: Op, times: u64)
    requires { L.is_seat line.now seat.old }
    ensures { L.is_seat line.now seat.new }
{
    for _ in 0..times {
        let _ = carry_out(rt, line, seat, op);
    }
}

// Of up to three nodes each does so, in a thread of its own.
fn all_repeat<R: Threads + Wait + Sync, L: TestedLine + Sync>(
    rt: &R,
    line: &L,
    seats: &mut [L::Seat],
    op: Op,
    times: u64,
)
where
    L::Seat: Send,
    requires { All (λ s. L.is_seat line.now s) seats.old }
    ensures { All (λ s. L.is_seat line.now s) seats.new }
{
    thread::for_each_mut(rt, seats, 3, &|_, seat| repeat(rt, line, seat, op, times));
}

// Two threads add on a line of two nodes, and nothing is lost: what they added is in the line, with a stamp for each.
fn adds_by_two<R: Abort + Threads + Wait + Sync, L: TestedLine + Sync>(
    rt: &R,
    alloc: Global,
) -> Result<(), Fail>
where
    L::Seat: Send,
{
    let add = Op::add(0, 1).ok().ok_or("no such word")?;
    let (line, mut seats) = L::opened(alloc, 2, 0, Line::ZERO)?;
    all_repeat(rt, &line, seats.as_mut_slice(), add, ADDS);
    let closed = closes(rt, alloc, line, seats);
    let head = closed.mem.forw.ok_or("no list")?;
    let line = closed.lines.get(usize::from(head.get())).ok_or("no line")?;
    same(rt, &line.words[0], &(2 * ADDS));
    same(rt, &line.stamp, &(2 * ADDS));
    Ok(())
}

#[test]
fn two_threads_add(rt: HostRuntime) -> Result<(), Fail> {
    adds_by_two::<_, CoarseLine<AnyWords>>(&rt, rt.alloc())?;
    adds_by_two::<_, FineLine<AnyWords>>(&rt, rt.alloc())
}

// How many of three nodes share a line once each has loaded it, in a thread of its own.
fn sharers<R: Abort + Threads + Wait + Sync, L: TestedLine + Sync>(
    rt: &R,
    alloc: Global,
) -> Result<usize, Fail>
where
    L::Seat: Send,
{
    let (line, mut seats) = L::opened(alloc, 3, 0, Line::ZERO)?;
    all_repeat(rt, &line, seats.as_mut_slice(), Op::load(), 1);
    let closed = closes(rt, alloc, line, seats);
    let shares = |tag: &&Tag| matches!(tag.kind, Kind::Fresh | Kind::Dirty | Kind::Valid);
    Ok(closed.tags.iter().filter(shares).count())
}

#[test]
fn three_threads_load(rt: HostRuntime) -> Result<(), Fail> {
    same(&rt, &sharers::<_, FineLine<AnyWords>>(&rt, rt.alloc())?, &3);
    Ok(())
}

/// What a node does at a step.
#[derive(Drop)]
enum Task {
    Load,
    Store,
    Add,
    Evict,
}

// Which, by a number that seems drawn at random.
fn task_at(node: u64, step: u64) -> Task {
    let mut seed = (node << 32 | step).wrapping_mul(0x9E37_79B9_7F4A_7C15);
    seed ^= seed >> 29;
    match seed.wrapping_mul(0xBF58_476D_1CE4_E5B9) >> 62 {
        0 => Task::Load,
        1 => Task::Store,
        2 => Task::Add,
        _ => Task::Evict,
    }
}

// What a node stores in word 0 at a step: who, and when. 0 stands in a line that nobody stored to.
fn mark(node: u64, step: u64) -> u64 {
    (node << 32 | step).wrapping_add(1)
}

// Somebody stores this, or it stood there from the start.
fn is_mark(word: u64) -> bool {
    let Some(mark) = word.checked_sub(1) else {
        return true;
    };
    let (node, step) = (mark >> 32, mark & 0xFFFF_FFFF);
    node < NODES && step < STEPS && matches!(task_at(node, step), Task::Store)
}

// How many stores come, and how many additions.
fn counts() -> (u64, u64) {
    let mut stores = 0u64;
    let mut adds = 0u64;
    for node in 0..NODES {
        for step in 0..STEPS {
            match task_at(node, step) {
                Task::Store => stores = stores.wrapping_add(1),
                Task::Add => adds = adds.wrapping_add(1),
                Task::Load | Task::Evict => {}
            }
        }
    }
    (stores, adds)
}

// The operation of a node at a step.
fn operation(node: u64, step: u64) -> Op {
    let op = match task_at(node, step) {
        Task::Load => Ok(Op::load()),
        Task::Store => Op::store(0, mark(node, step)),
        Task::Add => Op::add(1, 1),
        Task::Evict => Ok(Op::evict()),
    };
    op.unwrap_or(Op::load())
}

// Whether what was read was written.
fn is_of_a_store(answer: &Answer) -> bool {
    match answer {
        Answer::Seen { words, .. } => is_mark(words[0]),
        Answer::Wrote { before, .. } => is_mark(before[0]),
        Answer::Out => true,
        Answer::Spent => false,
    }
}

// One operation of each of these nodes.
fn serve_all<R: Abort + Wait, L: TestedLine>(rt: &R, line: &L, seats: &mut [L::Seat], step: u64)
    requires { All (λ s. L.is_seat line.now s) seats.old }
    ensures { All (λ s. L.is_seat line.now s) seats.new }
{
    for seat in seats.iter_mut() {
        let op = operation(u64::from(L::seat_node(seat).get()), step);
        let answer = carry_out(rt, line, seat, op);
        assert!(rt; is_of_a_store(&answer));
    }
}

// The operations of these nodes, in turn.
fn work<R: Abort + Wait, L: TestedLine>(rt: &R, line: &L, seats: &mut [L::Seat])
    requires { All (λ s. L.is_seat line.now s) seats.old }
    ensures { All (λ s. L.is_seat line.now s) seats.new }
{
    for step in 0..STEPS {
        serve_all(rt, line, seats, step);
    }
}

// Every two nodes work in a thread of their own.
fn all_work<R: Abort + Threads + Wait + Sync, L: TestedLine + Sync>(
    rt: &R,
    line: &L,
    seats: &mut [L::Seat],
)
where
    L::Seat: Send,
    requires { All (λ s. L.is_seat line.now s) seats.old }
    ensures { All (λ s. L.is_seat line.now s) seats.new }
{
    thread::for_each_chunk_mut(rt, seats, 2, &|_, pair| work(rt, line, pair));
}

// The line holds what the threads wrote: a mark, all that was added, and as many stamps as there were writes.
fn adds_up(rt: &impl Abort, closed: &Closed) {
    let value = closed.value();
    let (stores, adds) = counts();
    assert!(rt; is_mark(value.words[0]));
    same(rt, &value.words[1], &adds);
    same(rt, &value.stamp, &stores.wrapping_add(adds));
}

// Four threads work on one line.
fn adds_by_four<R: Abort + Threads + Wait + Sync, L: TestedLine + Sync>(
    rt: &R,
    alloc: Global,
) -> Result<(), Fail>
where
    L::Seat: Send,
{
    let (line, mut seats) = L::opened(alloc, 8, 0, Line::ZERO)?;
    all_work(rt, &line, seats.as_mut_slice());
    adds_up(rt, &closes(rt, alloc, line, seats));
    Ok(())
}

#[test]
fn four_threads_work(rt: HostRuntime) -> Result<(), Fail> {
    adds_by_four::<_, FineLine<AnyWords>>(&rt, rt.alloc())
}
