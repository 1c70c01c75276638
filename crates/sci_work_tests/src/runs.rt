//! Workloads, and what their nodes come to: with all calls, at a gate, and outside the limits.
use crate::checks::{same, same_at};
use crate::gates::{Hears, Opens};
use sci_core::Closed;
use sci_work::{ClosedMemory, Gate, OpenGate, Recording, WorkRefusal, count, ring, stencil};
use std::alloc::{AllocError, Global};
use std::sync::Wait;
use std::sync::atomic::AtomicBool;
use std::test::Fail;
use std::thread::Threads;

/// What the nodes of a workload do.
#[derive(Drop)]
pub(crate) enum Job {
    /// They add 1 so often each.
    Count(u64),
    /// Two of them pass items on so many lines.
    Ring(u16),
    /// They work on cells in so many phases.
    Stencil(u64),
}

/// Nodes at work with these items or cells, at a gate: what they give, and their lines.
pub(crate) fn ran<R: Threads + Wait + Sync, G: Gate>(
    rt: &R,
    alloc: Global,
    job: &Job,
    items: &[u64],
    sizes: (u16, u16),
    recording: Recording,
    gate: &G,
) -> Result<(Vec<u64>, ClosedMemory), WorkRefusal> {
    let (nodes, capacity) = sizes;
    match *job {
        Job::Count(adds) => {
            let (word, memory) = count(rt, alloc, nodes, adds, capacity, gate)?;
            let mut given = Vec::new(alloc);
            match given.push(word) {
                Ok(()) => Ok((given, memory)),
                Err(_) => Err(WorkRefusal::OutOfMemory),
            }
        }
        Job::Ring(lines) => ring(rt, alloc, items, lines, capacity, recording, gate),
        Job::Stencil(phases) => stencil(rt, alloc, items, phases, nodes, capacity, recording, gate),
    }
}

/// Word 0 of what each line holds.
fn first_words(alloc: Global, lines: &[Closed]) -> Result<Vec<u64>, AllocError> {
    let mut words = Vec::new(alloc);
    for line in lines {
        words.push(line.value().words[0])?;
    }
    Ok(words)
}

/// One 1 among zeros.
const ONE: [u64; 21] = [
    0, 0, 0, 0, 0, 0, 0, 0, 0, 0, 1, 0, 0, 0, 0, 0, 0, 0, 0, 0, 0,
];

/// The same five phases on.
const GROWN: [u64; 21] = [
    0, 0, 0, 0, 0, 1, 5, 15, 30, 45, 51, 45, 30, 15, 5, 1, 0, 0, 0, 0, 0,
];

/// A workload: its items, how many nodes there are, and how many lines each may name.
type Row = (Job, &'static [u64], (u16, u16));

/// Workloads, what they give, and word 0 of each line behind them.
const RESULTS: [(Row, &[u64], &[u64]); 9] = [
    ((Job::Count(1000), &[], (4, 1)), &[4000], &[4000]),
    ((Job::Count(10), &[], (64, 1)), &[640], &[640]),
    ((Job::Count(3), &[], (1, 1)), &[3], &[3]),
    ((Job::Count(0), &[], (2, 1)), &[0], &[0]),
    // item 0 was shown on line 0, and item 1 on line 1; both were read
    ((Job::Ring(2), &[7, 8], (2, 1)), &[7, 8], &[1, 2, 2]),
    ((Job::Ring(2), &[], (2, 1)), &[], &[0, 0, 0]),
    ((Job::Stencil(0), &ONE, (3, 2)), &ONE, &[1, 0, 1, 0, 1, 0]),
    ((Job::Stencil(5), &ONE, (3, 2)), &GROWN, &[5, 6, 5, 6, 5, 6]),
    (
        (Job::Stencil(5), &ONE, (64, 1)),
        &GROWN,
        &[5, 6, 5, 6, 5, 6],
    ),
];

#[test]
fn workloads_come_to_their_results(rt: HostRuntime) -> Result<(), Fail> {
    for (place, ((job, items, sizes), given, words)) in RESULTS.iter().enumerate() {
        let (found, memory) = ran(
            &rt,
            rt.alloc(),
            job,
            items,
            *sizes,
            Recording::Nothing,
            &OpenGate,
        )?;
        same_at(&rt, &place, &found.as_slice(), given);
        let held = first_words(rt.alloc(), &memory.lines)?;
        same_at(&rt, &place, &held.as_slice(), words);
        for line in memory.lines.iter() {
            same_at(&rt, &place, &line.tags.len(), &usize::from(sizes.0));
        }
    }
    Ok(())
}

#[test]
fn a_hundred_items_pass_and_the_most_cells_are_taken_in(rt: HostRuntime) -> Result<(), Fail> {
    let mut source = Vec::with_capacity(rt.alloc(), 100)?;
    for i in 0..100 {
        source.push(3 * i)?;
    }
    let recording = Recording::Nothing;
    let (items, memory) = ran(
        &rt,
        rt.alloc(),
        &Job::Ring(2),
        &source,
        (2, 1),
        recording,
        &OpenGate,
    )?;
    same(&rt, &items, &source);
    assert!(rt; memory.lines.len() == 3);
    let want = [[99, 294], [100, 297], [100, 0]];
    for line in 0..3 {
        let words = memory.lines[line].value().words;
        same(&rt, &[words[0], words[1]], &want[line]);
    }
    let cells = vec![in rt.alloc(); 1; 3584]?;
    let (found, memory) = ran(
        &rt,
        rt.alloc(),
        &Job::Stencil(0),
        &cells,
        (64, 1024),
        recording,
        &OpenGate,
    )?;
    same(&rt, &found, &cells);
    same(&rt, &memory.lines.len(), &1024);
    Ok(())
}

/// How many lines a node may name that works on three tiles alone, and on which of their first lines it then stands: it writes them in
/// order, and reads them again.
const NAMED: [(u16, [bool; 3]); 4] = [
    (1, [false, false, true]),
    (2, [false, true, true]),
    (3, [true, true, true]),
    (1024, [true, true, true]),
];

#[test]
fn a_node_names_as_many_lines_as_it_may(rt: HostRuntime) -> Result<(), Fail> {
    for (capacity, wanted) in &NAMED {
        let (job, sizes) = (Job::Stencil(0), (1, *capacity));
        let (_, memory) = ran(
            &rt,
            rt.alloc(),
            &job,
            &ONE,
            sizes,
            Recording::Nothing,
            &OpenGate,
        )?;
        let mut named = [false; 3];
        for (place, is_named) in named.iter_mut().enumerate() {
            let line = memory.lines.get(place.wrapping_mul(2)).ok_or("no line")?;
            *is_named = line.mem.forw.is_some();
        }
        same_at(&rt, capacity, &named, wanted);
    }
    Ok(())
}

/// A workload over so many zeros, the nodes whose calls may start, from the first to the one behind the last, and its refusal.
type Refused = (Job, usize, (u16, u16), (u16, u16), WorkRefusal);

const REFUSED: [Refused; 26] = [
    // 22: a number is outside the limits
    (Job::Count(1), 0, (0, 1), (0, 65), WorkRefusal::BadSettings),
    (Job::Count(1), 0, (65, 1), (0, 65), WorkRefusal::BadSettings),
    (
        Job::Count(1_000_001),
        0,
        (1, 1),
        (0, 65),
        WorkRefusal::BadSettings,
    ),
    (Job::Count(1), 0, (1, 0), (0, 65), WorkRefusal::BadSettings),
    (
        Job::Count(1),
        0,
        (1, 1025),
        (0, 65),
        WorkRefusal::BadSettings,
    ),
    (
        Job::Ring(1),
        100_001,
        (2, 1),
        (0, 65),
        WorkRefusal::BadSettings,
    ),
    (Job::Ring(0), 1, (2, 1), (0, 65), WorkRefusal::BadSettings),
    (
        Job::Ring(1024),
        1,
        (2, 1),
        (0, 65),
        WorkRefusal::BadSettings,
    ),
    (Job::Ring(1), 1, (2, 0), (0, 65), WorkRefusal::BadSettings),
    (
        Job::Ring(1),
        1,
        (2, 1025),
        (0, 65),
        WorkRefusal::BadSettings,
    ),
    (
        Job::Stencil(1),
        0,
        (1, 1),
        (0, 65),
        WorkRefusal::BadSettings,
    ),
    (
        Job::Stencil(1),
        20,
        (1, 1),
        (0, 65),
        WorkRefusal::BadSettings,
    ),
    (
        Job::Stencil(1),
        3591,
        (1, 1),
        (0, 65),
        WorkRefusal::BadSettings,
    ),
    (
        Job::Stencil(1_000_001),
        7,
        (1, 1),
        (0, 65),
        WorkRefusal::BadSettings,
    ),
    (
        Job::Stencil(1),
        7,
        (0, 1),
        (0, 65),
        WorkRefusal::BadSettings,
    ),
    (
        Job::Stencil(1),
        7,
        (65, 1),
        (0, 65),
        WorkRefusal::BadSettings,
    ),
    (
        Job::Stencil(1),
        7,
        (1, 0),
        (0, 65),
        WorkRefusal::BadSettings,
    ),
    (
        Job::Stencil(1),
        7,
        (1, 1025),
        (0, 65),
        WorkRefusal::BadSettings,
    ),
    // 20: the gate stays shut; that a node has stopped since another refused is no refusal
    (Job::Count(1), 0, (1, 1), (0, 0), WorkRefusal::Stalled),
    (
        Job::Count(1_000_000),
        0,
        (3, 1),
        (0, 1),
        WorkRefusal::Stalled,
    ),
    (Job::Ring(1), 3, (2, 2), (0, 1), WorkRefusal::Stalled),
    (Job::Ring(1), 3, (2, 2), (1, 2), WorkRefusal::Stalled),
    (Job::Ring(1), 3, (2, 2), (2, 3), WorkRefusal::Stalled),
    (Job::Stencil(1), 21, (3, 1), (0, 0), WorkRefusal::Stalled),
    (Job::Stencil(1), 21, (3, 1), (0, 1), WorkRefusal::Stalled),
    (Job::Stencil(1), 21, (3, 1), (0, 2), WorkRefusal::Stalled),
];

#[test]
fn workloads_are_refused(rt: HostRuntime) -> Result<(), Fail> {
    for (place, (job, count, sizes, (from, to), refusal)) in REFUSED.iter().enumerate() {
        let items = vec![in rt.alloc(); 0; *count]?;
        let gate = Opens {
            from: *from,
            to: *to,
            calls: u64::MAX,
        };
        let refused = ran(
            &rt,
            rt.alloc(),
            job,
            &items,
            *sizes,
            Recording::Nothing,
            &gate,
        );
        same_at(&rt, &place, &refused.err(), &Some(*refusal));
    }
    Ok(())
}

/// Workloads of two nodes, or one, and how many calls of the first there are, and of the second, where that is sure.
const CALLS: [(Row, u64, Option<u64>); 4] = [
    ((Job::Count(10), &[], (2, 1)), 10, Some(10)),
    // calls keep their numbers past 2^16
    ((Job::Count(70_000), &[], (1, 1)), 70_000, Some(0)),
    ((Job::Ring(3), &[7, 8, 9], (2, 1)), 3, None),
    // a tile each, and no phase
    ((Job::Stencil(0), &[1; 14], (2, 1)), 2, Some(2)),
];

#[test]
fn each_node_asks_for_its_calls(rt: HostRuntime) -> Result<(), Fail> {
    for (place, ((job, items, sizes), first, second)) in CALLS.iter().enumerate() {
        let stop = AtomicBool::new(false);
        let gate = Hears::new(0, u64::MAX, &stop, u64::MAX);
        ran(
            &rt,
            rt.alloc(),
            job,
            items,
            *sizes,
            Recording::Nothing,
            &gate,
        )?;
        same_at(&rt, &place, &gate.heard(0), &(*first, *first, false));
        if let Some(calls) = second {
            same_at(&rt, &place, &gate.heard(1), &(*calls, *calls, false));
        }
    }
    Ok(())
}
