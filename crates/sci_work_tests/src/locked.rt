//! The workers over lines under a lock word, in two threads: what they give is what they give on separate words.
ghost use Rattle.std.specs.Prelude.{◌≡◌, ◌<◌, ◌≤◌, ℕ, length, replicate, IfSome};
ghost use Rattle.sci_coarse.specs.Banks.{IsLine};
ghost use Rattle.sci_work.specs.Hands.{AtEach};
ghost use Rattle.sci_work.specs.Locked.{AreIdleSeats, IsLockedPart};
ghost use Rattle.sci_work.specs.Programs.{Suits};

use crate::checks::same;
use sci_cache::Node;
use sci_coarse::{CoarseBank, CoarseLine, Seat};
use sci_core::{AnyWords, Keeps, Line};
use sci_ops::Answer;
use sci_port::Bank;
use sci_work::parts::{Door, Program, Work, share_of};
use sci_work::{OpenGate, Recording, RingFact, StencilFact, WorkRefusal};
use std::alloc::Global;
use std::sync::Wait;
use std::sync::atomic::AtomicBool;
use std::test::Fail;
use std::thread;
use std::thread::Threads;

/// What a node gives.
type Share = Result<Vec<u64>, WorkRefusal>;

// So many lines of zeros of two nodes under one fact, and each node's seats. None: there is no memory.
fn opened<K: Keeps>(
    alloc: Global,
    count: u16,
    keep: K,
) -> Option<(Vec<CoarseLine<K>>, Vec<Seat<K>>, Vec<Seat<K>>)>
    requires fits { (number : ℕ) → K.fits keep number (replicate 8 0) }
    ensures count { IfSome result (λ r. length r.0.items ≡ count) }
    ensures lines { IfSome result (λ r. AtEach (IsLine 2 keep) r.0.items) }
    ensures first { IfSome result (λ r. AreIdleSeats r.0.items r.1.items) }
    ensures second { IfSome result (λ r. AreIdleSeats r.0.items r.2.items) }
{
    let mut lines = Vec::new(alloc);
    let mut first = Vec::new(alloc);
    let mut second = Vec::new(alloc);
    for number in 0..count {
        let Ok((line, mut seats)) = CoarseLine::new(alloc, 2, number, Line::ZERO, keep) else {
            return None;
        };
        let one = seats.pop()?;
        let zero = seats.pop()?;
        let Ok(()) = lines.push(line) else {
            return None;
        };
        let Ok(()) = first.push(zero) else {
            return None;
        };
        let Ok(()) = second.push(one) else {
            return None;
        };
    }
    Some((lines, first, second))
}

// Word 0 of the last line as the bank's node sees it.
fn last_word<R: Wait, B: Bank>(rt: &R, alloc: Global, bank: &mut B) -> Option<u64> {
    let last = bank.lines().checked_sub(1)?;
    let mut node = Node::new(alloc, bank.node(), bank.lines(), 1).ok()?;
    let Ok(Answer::Seen { words, .. }) = node.load(rt, bank, last) else {
        return None;
    };
    Some(words[0])
}

// A node's thread, with a table of two lines: its share, and what it then sees of the last line.
fn ran<R: Wait, K: Keeps>(
    rt: &R,
    alloc: Global,
    stop: &AtomicBool,
    lines: &[CoarseLine<K>],
    seats: Vec<Seat<K>>,
    program: Program<'_>,
    number: u16,
) -> Option<(Share, u64)>
    requires { IsLockedPart K.fits lines.now program number seats.items }
{
    let Ok(mut bank) = CoarseBank::new(lines, seats) else {
        return None;
    };
    let mut door = Door::new(&OpenGate, stop, number);
    let share = share_of(
        rt,
        alloc,
        &mut door,
        &mut bank,
        program,
        number,
        Recording::Nothing,
        2,
    );
    let share = door.told(share);
    let word = last_word(rt, alloc, &mut bank)?;
    Some((share, word))
}

// Both nodes in threads of their own, over so many lines: their shares, and word 0 of the last line, which only grows.
fn worked<R: Threads + Wait + Sync, K: Keeps + Send + Sync>(
    rt: &R,
    alloc: Global,
    program: Program<'_>,
    count: u16,
    keep: K,
) -> Option<(Share, Share, u64)>
    requires count { (0 < count) × (count ≤ 1024) }
    requires fits { (number : ℕ) → K.fits keep number (replicate 8 0) }
    requires suits { (number : ℕ) → number < 2 → Suits program (K.fits keep) count number }
{
    let (lines, zero, one) = opened(alloc, count, keep)?;
    let stop = AtomicBool::new(false);
    let (lines, mark) = (lines.as_slice(), &stop);
    let (zero, one) = thread::join(
        rt,
        move || -> Option<(Share, u64)>
            requires { IsLockedPart K.fits lines.now program 0 zero.items }
        { ran(rt, alloc, mark, lines, zero, program, 0) },
        move || -> Option<(Share, u64)>
            requires { IsLockedPart K.fits lines.now program 1 one.items }
        { ran(rt, alloc, mark, lines, one, program, 1) },
    );
    let ((zero, before), (one, behind)) = (zero?, one?);
    Some((zero, one, before.max(behind)))
}

#[test]
fn nodes_count(rt: HostRuntime) -> Result<(), Fail> {
    let program = Program::Count { adds: 1000 };
    let (zero, one, word) = worked(&rt, rt.alloc(), program, 1, AnyWords).ok_or("no lines")?;
    let (zero, one) = (zero?, one?);
    same(&rt, &(zero.len(), one.len(), word), &(0, 0, 2000));
    Ok(())
}

#[test]
fn items_pass_in_order(rt: HostRuntime) -> Result<(), Fail> {
    let items = [0, 3, 6, 9, 12, 15, 18, 21];
    let program = Program::Ring {
        source: &items,
        lines: 2,
    };
    let fact = RingFact::new(&items, 2);
    let (zero, one, word) = worked(&rt, rt.alloc(), program, 3, fact).ok_or("no lines")?;
    let (zero, one) = (zero?, one?);
    same(&rt, &zero.len(), &0);
    same(&rt, &one.as_slice(), &items.as_slice());
    same(&rt, &word, &8);
    Ok(())
}

#[test]
fn cells_take_in_their_neighbours(rt: HostRuntime) -> Result<(), Fail> {
    let mut cells = [0; 21];
    cells[10] = 1;
    let work = Work {
        cells: &cells,
        phases: 5,
        tiles: 3,
        nodes: 2,
    };
    let (fact, program) = (StencilFact::new(&cells, 5), Program::Stencil(work));
    let (zero, one, word) = worked(&rt, rt.alloc(), program, 6, fact).ok_or("no lines")?;
    let (zero, one) = (zero?, one?);
    // node 0 has the first tile and the last
    same(
        &rt,
        &zero.as_slice(),
        &[0, 0, 0, 0, 0, 1, 5, 5, 1, 0, 0, 0, 0, 0].as_slice(),
    );
    same(
        &rt,
        &one.as_slice(),
        &[15, 30, 45, 51, 45, 30, 15].as_slice(),
    );
    same(&rt, &word, &6);
    Ok(())
}
