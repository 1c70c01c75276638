//! What the nodes of a workload kept of their calls.
ghost use Rattle.std.specs.Prelude.{◌≡◌, ◌*◌, ◌<◌, ◌≤◌, length};

use crate::checks::{same, same_at};
use crate::runs::{Job, ran};
use sci_core::Receipt;
use sci_work::parts::{Program, Work, opened, run_all};
use sci_work::{ClosedMemory, OpenGate, Recording, StencilFact, WorkRefusal};
use std::alloc::Global;
use std::process::Abort;
use std::sync::Wait;
use std::test::Fail;
use std::thread::Threads;

// How many of these are writes.
fn writes(receipts: &[Receipt]) -> usize {
    let mut count: usize = 0;
    for receipt in receipts {
        if matches!(receipt, Receipt::Wrote { .. }) {
            count = count.wrapping_add(1);
        }
    }
    count
}

// There is a list of each of two nodes and each line, with so many writes. Those of a line that was opened with the stamp 0 count its
// stamp.
fn keeps(rt: &impl Abort, memory: &ClosedMemory, wanted: &[(usize, usize)]) {
    same(rt, &memory.receipts.len(), &memory.lines.len());
    same(rt, &memory.lines.len(), &wanted.len());
    for (line, (receipts, want)) in memory.receipts.iter().zip(wanted.iter()).enumerate() {
        let [first, second] = receipts.as_slice() else {
            panic!(rt; "not two nodes")
        };
        let (one, other) = (writes(first), writes(second));
        same_at(rt, &line, &(one, other), want);
        let stamp = memory.lines.get(line).map(|closed| closed.value().stamp);
        same_at(rt, &line, &stamp, &Some(one.wrapping_add(other) as u64));
    }
}

/// Workloads of two nodes with these items, and how often each of the two wrote each line.
const KEPT: [(Job, &[u64], &[(usize, usize)]); 3] = [
    (Job::Count(10), &[], &[(10, 10)]),
    // node 0 writes the items by turns on both lines, and node 1 says behind them how many it has read
    (Job::Ring(2), &[7, 8, 9], &[(2, 0), (1, 0), (0, 3)]),
    // each node writes its own tile: phases 0 and 2 on the first line, 1 and 3 on the second
    (Job::Stencil(3), &[1; 14], &[(2, 0), (2, 0), (0, 2), (0, 2)]),
];

#[test]
fn two_nodes_keep_what_they_do(rt: HostRuntime) -> Result<(), Fail> {
    for (job, items, wanted) in &KEPT {
        let (_, memory) = ran(
            &rt,
            rt.alloc(),
            job,
            items,
            (2, 2),
            Recording::All,
            &OpenGate,
        )?;
        keeps(&rt, &memory, wanted);
        if !matches!(job, Job::Count(_)) {
            let recording = Recording::Nothing;
            let (_, memory) = ran(&rt, rt.alloc(), job, items, (2, 2), recording, &OpenGate)?;
            let lists = (memory.lines.len(), memory.receipts.len());
            same(&rt, &lists, &(wanted.len(), 0));
        }
    }
    Ok(())
}

// How many receipts the seats of a stencil's nodes have in the end.
fn left<R: Threads + Wait + Sync>(
    rt: &R,
    alloc: Global,
    work: Work<'_>,
    recording: Recording,
) -> Result<Vec<usize>, WorkRefusal>
    requires whole { length work.cells.now ≡ 7 * work.tiles }
    requires tiles { (0 < work.tiles) × (work.tiles ≤ 512) }
    requires phases { work.phases ≤ 1000000 }
    requires nodes { (0 < work.nodes) × (work.nodes ≤ 64) }
{
    let fact = StencilFact::new(work.cells, work.phases);
    let (lines, hands) = opened(alloc, work.nodes, 2 * work.tiles, fact)?;
    let program = Program::Stencil(work);
    let (hands, _) = run_all(rt, alloc, &OpenGate, &lines, hands, program, recording, 2)?;
    let mut counts = Vec::new(alloc);
    for hand in hands.iter() {
        for seat in hand.iter() {
            let Ok(()) = counts.push(seat.receipts().len()) else {
                return Err(WorkRefusal::OutOfMemory);
            };
        }
    }
    Ok(counts)
}

#[test]
fn no_seat_has_receipts_of_nodes_that_keep_nothing(rt: HostRuntime) -> Result<(), Fail> {
    let work = Work {
        cells: &[0; 7],
        phases: 0,
        tiles: 1,
        nodes: 1,
    };
    // the node writes its tile and reads it again
    for (recording, wanted) in [(Recording::Nothing, [0, 0]), (Recording::All, [3, 0])] {
        let found = left(&rt, rt.alloc(), work, recording)?;
        same(&rt, &found.as_slice(), &wanted.as_slice());
    }
    Ok(())
}
