//! A stencil with each node in a thread of its own.
ghost use Rattle.std.specs.Prelude.{◌≡◌, ◌*◌, ◌/◌, ◌<◌, ◌≤◌, ◌↔◌, Err, length, map, IfOk, IfErr, IsTrue, vec_len};
ghost use Rattle.sci_work.specs.Ended.{AreClosed, AreClosedOf, AreKept, AreKeptOn, AreOfHands, HaveNodes, lists_in};
ghost use Rattle.sci_work.specs.Hands.{AtEach, IsHandOf};
ghost use Rattle.sci_work.specs.Plain.{plain};
ghost use Rattle.sci_work.specs.Shares.{IsShare};
ghost use Rattle.sci_work.specs.Starts.{ComesInRun, ComesInStart};
ghost use Rattle.sci_work.specs.Stencil.{FitsStencil, IsStencilSize, stencil_writes};
ghost use Rattle.sci_work.specs.Written.{AreWrittenAs, WritesAlone};

use crate::facts::StencilFact;
use crate::gates::Gate;
use crate::lines::{closed, opened};
use crate::programs::Program;
use crate::recording::{ClosedMemory, Recording};
use crate::refusals::WorkRefusal;
use crate::seating::Hand;
use crate::starting::run_all;
use crate::stencils::gathering::gathered;
use crate::stencils::worker::Work;
use sci_core::Keeps;
use sci_fine::FineLine;
use std::alloc::Global;
use std::sync::Wait;
use std::thread::Threads;

// Cells in 1 to 512 whole tiles of seven, at most 1,000,000 phases, 1 to 64 nodes, and a capacity of 1 to 1,024.
fn is_stencil_size(cells: usize, phases: u64, nodes: u16, capacity: u16) -> bool
    ensures { IsTrue result ↔ IsStencilSize cells phases nodes capacity }
{
    cells % 7 == 0
        && cells >= 7
        && cells <= 3584
        && phases <= 1_000_000
        && nodes >= 1
        && nodes <= 64
        && capacity >= 1
        && capacity <= 1024
}

// The cells from the nodes' shares, and the lines as they are closed.
fn ended<K: Keeps>(
    alloc: Global,
    work: Work<'_>,
    lines: Vec<FineLine<K>>,
    recording: Recording,
    hands: Vec<Hand<K>>,
    shares: Vec<Vec<u64>>,
) -> Result<(Vec<u64>, ClosedMemory), WorkRefusal>
    requires whole { length work.cells.now ≡ 7 * work.tiles }
    requires nodes { (0 < work.nodes) × (vec_len shares ≡ work.nodes) }
    requires shares { AtEach (λ k share. IsShare (plain work.cells.now work.phases) work.nodes k work.tiles share.items) shares.items }
    requires hands { AtEach (λ k hand. IsHandOf recording lines.items k hand.items) hands.items }
    ensures cells { IfOk result (λ r. r.0.items ≡ plain work.entry.cells.now work.entry.phases) }
    ensures closed { IfOk result (λ r. AreClosedOf K.fits lines.items r.1.lines.items) }
    ensures kept { IfOk result (λ r. AreKeptOn recording K.fits lines.items r.1) }
    ensures own { IfOk result (λ r. AreOfHands hands.items r.1) }
    ensures err { IfErr result (λ e. e ≡ WorkRefusal.OutOfMemory) }
{
    let cells = gathered(alloc, &shares, work)?;
    let memory = closed(alloc, lines, recording, hands)?;
    Ok((cells, memory))
}

// The cells after the last phase, and the lines as they are closed.
fn run<R: Threads + Wait + Sync, G: Gate>(
    rt: &R,
    alloc: Global,
    work: Work<'_>,
    recording: Recording,
    capacity: u16,
    gate: &G,
) -> Result<(Vec<u64>, ClosedMemory), WorkRefusal>
    requires whole { length work.cells.now ≡ 7 * work.tiles }
    requires tiles { (0 < work.tiles) × (work.tiles ≤ 512) }
    requires phases { work.phases ≤ 1000000 }
    requires nodes { (0 < work.nodes) × (work.nodes ≤ 64) }
    ensures cells { IfOk result (λ r. r.0.items ≡ plain work.entry.cells.now work.entry.phases) }
    ensures closed { IfOk result (λ r. AreClosed (FitsStencil work.entry.cells.now work.entry.phases) (2 * work.entry.tiles) r.1.lines.items) }
    ensures nodes { IfOk result (λ r. HaveNodes work.entry.nodes r.1.lines.items) }
    ensures kept { IfOk result (λ r. AreKept recording (FitsStencil work.entry.cells.now work.entry.phases) work.entry.nodes r.1) }
    ensures wrote { IfOk result (λ r. AreWrittenAs (WritesAlone (stencil_writes work.entry.cells.now work.entry.phases work.entry.nodes work.entry.tiles)) (map lists_in r.1.receipts.items)) }
    ensures err { IfErr result (ComesInStart (Program.Stencil work.entry)) }
{
    let fact = StencilFact::new(work.cells, work.phases);
    let (lines, hands) = opened(alloc, work.nodes, 2 * work.tiles, fact)?;
    let program = Program::Stencil(work);
    let (hands, shares) = run_all(rt, alloc, gate, &lines, hands, program, recording, capacity)?;
    ended(alloc, work, lines, recording, hands, shares)
}

/// Takes cells, in 1 to 512 whole tiles of seven, 0 to 1,000,000 phases on: in each phase a cell becomes the sum of itself and
/// its two neighbours, modulo 2^64, with 0 outside. Of 1 to 64 nodes, each in a thread of its own, node k works on the tiles
/// whose number modulo the nodes is k, with a table of at most `capacity` lines, 1 to 1,024. Gives the cells after the last
/// phase, and the closed lines, exact sharing lists, two for each tile: line 2t + q is all zeros, or for some phase p, which is q
/// modulo 2, its word 0 is p + 1 and its words 1 to 7 are tile t after that phase. Where all is kept, the receipts of each node come
/// with the lines, and are one history of each: one of each read and up to two of each write, of 144 bytes each. It may wait for
/// ever. The refusals: 22 for a number outside these limits; then that of the lowest node whose refusal isn't 25: 7, 11, 19, 20 where
/// the gate held a call back to its limit, and 26 where the node's thread couldn't be started. A refused growth outside the nodes
/// is 7.
pub fn stencil<R: Threads + Wait + Sync, G: Gate>(
    rt: &R,
    alloc: Global,
    cells: &[u64],
    phases: u64,
    nodes: u16,
    capacity: u16,
    recording: Recording,
    gate: &G,
) -> Result<(Vec<u64>, ClosedMemory), WorkRefusal>
    ensures limits { (result ≡ Err WorkRefusal.BadSettings) ↔ (IsStencilSize (length cells.now) phases nodes capacity → ⊥) }
    ensures cells { IfOk result (λ r. r.0.items ≡ plain cells.now phases) }
    ensures closed { IfOk result (λ r. AreClosed (FitsStencil cells.now phases) (2 * (length cells.now / 7)) r.1.lines.items) }
    ensures nodes { IfOk result (λ r. HaveNodes nodes r.1.lines.items) }
    ensures kept { IfOk result (λ r. AreKept recording (FitsStencil cells.now phases) nodes r.1) }
    ensures wrote { IfOk result (λ r. AreWrittenAs (WritesAlone (stencil_writes cells.now phases nodes (length cells.now / 7))) (map lists_in r.1.receipts.items)) }
    ensures err { IfErr result ComesInRun }
{
    if !is_stencil_size(cells.len(), phases, nodes, capacity) {
        return Err(WorkRefusal::BadSettings);
    }
    let tiles = (cells.len() / 7) as u16;
    let work = Work {
        cells,
        phases,
        tiles,
        nodes,
    };
    run(rt, alloc, work, recording, capacity, gate)
}
