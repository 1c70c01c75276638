//! Four nodes add on one line: over a whole line, turn about, and over a line on separate words, in threads.
#![tactic(auto)]

ghost use Rattle.std.specs.Prelude.{◌≡◌, All, IsTrue};
ghost use Rattle.sci_core.specs.declared.pending.Pending.TheVariants.{Idle};
ghost use Rattle.sci_fine.specs.Seats.{IsSeatOf};

use crossbeam_utils::Backoff;
use sci_core::{AnyWords, Closed, Line, Pending, Whole};
use sci_fine::{FineLine, FinePort, Seat};
use sci_ops::{Answer, Op, Turn};
use sci_words::NodeId;
use std::alloc::Global;
use std::process::ExitCode;
use std::sync::Wait;
use std::thread;
use std::thread::Threads;

/// How many nodes share the line.
const NODES: u16 = 4;
/// How many times each adds 1 in its thread.
const ADDS: u64 = 100;

/// An addition of a node, with nobody else at work.
fn add_on(whole: &mut Whole<AnyWords>, number: u16) -> Option<()> {
    let node = NodeId::new(number)?;
    let mut op = Op::add(0, 1).ok()?;
    for _ in 0..100 {
        if number >= whole.nodes() {
            return None;
        }
        if let Turn::Done(_) = op.turn_on(whole, node) {
            return Some(());
        }
    }
    None
}

/// The word that a node sees, with nobody else at work.
fn seen_on(whole: &mut Whole<AnyWords>, number: u16) -> Option<u64> {
    let node = NodeId::new(number)?;
    let mut op = Op::load();
    for _ in 0..100 {
        if number >= whole.nodes() {
            return None;
        }
        if let Turn::Done(Answer::Seen { words, .. }) = op.turn_on(whole, node) {
            return Some(words[0]);
        }
    }
    None
}

/// Each node adds once, and then node 0 loads. Gives what it sees, and how long the sharing list is.
fn over_whole(alloc: Global) -> Option<(u64, usize)> {
    let mut whole = Whole::open(alloc, NODES, 0, Line::ZERO, AnyWords).ok()?;
    for number in 0..NODES {
        add_on(&mut whole, number)?;
    }
    let word = seen_on(&mut whole, 0)?;
    let chain = whole.chain(alloc).ok()?;
    Some((word, chain.len()))
}

/// One turn, which leaves the port to the same seat of the same line.
fn turn(port: &mut FinePort<'_, AnyWords>, op: &mut Op) -> Turn
    ensures same_line { port.new.line ≡ port.old.line }
    ensures same_reference { port.new.seat.ghost_name ≡ port.old.seat.ghost_name }
{
    op.turn(port)
}

/// Turns to the operation's end.
fn finish<R: Wait>(rt: &R, port: &mut FinePort<'_, AnyWords>, mut op: Op)
    ensures same_line { port.new.line ≡ port.old.line }
    ensures same_reference { port.new.seat.ghost_name ≡ port.old.seat.ghost_name }
{
    let backoff = Backoff::new();
    for _ in rt.forever() {
        match turn(port, &mut op) {
            Turn::Done(_) => break,
            Turn::Moved => backoff.reset(),
            Turn::Waiting => backoff.snooze(),
        }
    }
}

/// The additions of one node, in its thread.
fn add_all<R: Wait>(rt: &R, line: &FineLine<AnyWords>, seat: &mut Seat<AnyWords>)
    requires { IsSeatOf line.now seat.old }
    ensures { IsSeatOf line.now seat.new }
{
    for _ in 0..ADDS {
        if let Ok(op) = Op::add(0, 1) {
            finish(rt, &mut line.port(seat), op);
        }
    }
}

/// Each node adds in a thread of its own.
fn all_add<R: Threads + Wait + Sync>(
    rt: &R,
    line: &FineLine<AnyWords>,
    seats: &mut [Seat<AnyWords>],
)
    requires { All (λ s. IsSeatOf line.now s) seats.old }
    ensures { All (λ s. IsSeatOf line.now s) seats.new }
{
    let threads = usize::from(NODES);
    thread::for_each_mut(rt, seats, threads, &|_, seat| add_all(rt, line, seat));
}

/// Whether no node is at work.
fn are_idle(seats: &[Seat<AnyWords>]) -> bool
    ensures { IsTrue result → All (λ s. s.standing.pending ≡ Idle) seats.now }
{
    seats
        .iter()
        .all(|seat| matches!(seat.pending(), Pending::Idle))
}

/// The line at rest after the additions of all nodes.
fn over_fine<R: Threads + Wait + Sync>(rt: &R, alloc: Global) -> Option<Closed> {
    let (line, mut seats) = FineLine::new(alloc, NODES, 0, Line::ZERO, AnyWords).ok()?;
    all_add(rt, &line, seats.as_mut_slice());
    if !are_idle(&seats) {
        return None;
    }
    let finished = line.finish(alloc, seats).ok()?;
    Some(finished.closed)
}

fn main(rt: HostRuntime) -> ExitCode {
    let Some((word, entries)) = over_whole(rt.alloc()) else {
        return ExitCode::from(1);
    };
    let Some(closed) = over_fine(&rt, rt.alloc()) else {
        return ExitCode::from(1);
    };
    let counted = closed.value().words[0];
    let printed = println!(rt;
        "one after another: node 0 sees {word}, and the list has {entries} nodes\nin threads: {counted}"
    );
    match printed {
        Ok(()) => ExitCode::SUCCESS,
        Err(_) => ExitCode::from(1),
    }
}
