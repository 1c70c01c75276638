//! Nodes that count on one line.
ghost use Rattle.std.specs.Prelude.{◌≡◌, ◌≢◌, ◌<◌, ◌≤◌, ◌↔◌, ◌*◌, ◌%◌, ◌^◌, [], ◌∷◌, Err, length, map, slice_index, IfOk, IfErr, IsTrue};
ghost use Rattle.sci_core.specs.Closed.{IsExactClosed, value_of};
ghost use Rattle.sci_core.specs.State.{blank};
ghost use Rattle.sci_work.specs.declared.recording.Recording as keeps;
ghost use Rattle.sci_work.specs.Ended.{AreKept, HaveNodes, IsCounted, IsCountSize, IsLineHistory, any_words, lists_in};
ghost use Rattle.sci_work.specs.Starts.{ComesInCount, ComesInStart};
ghost use Rattle.sci_work.specs.Written.{AddsAlone, AreWrittenAs};

use crate::gates::Gate;
use crate::lines::{finished, zeroed};
use crate::programs::Program;
use crate::recording::{ClosedMemory, Recording};
use crate::refusals::WorkRefusal;
use crate::seating::{dealt, gathered};
use crate::starting::run_all;
use sci_core::AnyWords;
use sci_port::Finished;
use std::alloc::Global;
use std::slice;
use std::sync::Wait;
use std::thread::Threads;

// 1 to 64 nodes, at most 1,000,000 adds each, and a capacity of 1 to 1,024.
fn is_count_size(nodes: u16, adds: u64, capacity: u16) -> bool
    ensures { IsTrue result ↔ IsCountSize nodes adds capacity }
{
    nodes >= 1 && nodes <= 64 && adds <= 1_000_000 && capacity >= 1 && capacity <= 1024
}

// The line as it is closed, once each node has ended its adds, and what each kept.
fn counted<R: Threads + Wait + Sync, G: Gate>(
    rt: &R,
    alloc: Global,
    nodes: u16,
    adds: u64,
    capacity: u16,
    gate: &G,
) -> Result<Finished, WorkRefusal>
    requires { (0 < nodes) × (nodes ≤ 64) }
    ensures ok { IfOk result (λ one. IsExactClosed one.closed) }
    ensures total { IfOk result (λ one. slice_index (value_of one.closed).words 0 ≡ (nodes * adds) % 2 ^ 64) }
    ensures nodes { IfOk result (λ one. length one.closed.tags ≡ nodes) }
    ensures history { IfOk result (λ one. IsLineHistory any_words nodes blank one.closed (lists_in one.receipts)) }
    ensures wrote { IfOk result (λ one. AreWrittenAs (AddsAlone adds) (lists_in one.receipts ∷ [])) }
    ensures err { IfErr result (ComesInStart (Program.Count adds)) }
{
    let (line, seats) = zeroed(alloc, nodes, 0, AnyWords)?;
    let hands = dealt(alloc, &line, seats)?;
    let program = Program::Count { adds };
    let (hands, _) = run_all(
        rt,
        alloc,
        gate,
        slice::from_ref(&line),
        hands,
        program,
        Recording::All,
        capacity,
    )?;
    let seats = gathered(alloc, &line, hands)?;
    finished(alloc, line, Recording::All, seats)
}

/// Each of 1 to 64 nodes, in a thread of its own, adds 1 to word 0 of line 0, at most 1,000,000 times. Gives the word once the
/// line is closed, which is all adds modulo 2^64, and the closed line, an exact sharing list, with the receipts of each node: they are
/// one history of the line. A node keeps up to two of each add, of 144 bytes each. A node's table names up to 1,024 lines. It may
/// wait for ever. The refusals: 22 for a number outside these limits; then that of the lowest node whose refusal isn't 25: 7, 11, 20
/// where the gate held a call back to its limit, and 26 where the node's thread couldn't be started. A refused growth outside the
/// nodes is 7.
pub fn count<R: Threads + Wait + Sync, G: Gate>(
    rt: &R,
    alloc: Global,
    nodes: u16,
    adds: u64,
    capacity: u16,
    gate: &G,
) -> Result<(u64, ClosedMemory), WorkRefusal>
    ensures limits { (result ≡ Err WorkRefusal.BadSettings) ↔ (IsCountSize nodes adds capacity → ⊥) }
    ensures total { IfOk result (λ r. r.0 ≡ (nodes * adds) % 2 ^ 64) }
    ensures ok { IfOk result (λ r. IsCounted r.0 r.1.lines.items) }
    ensures nodes { IfOk result (λ r. HaveNodes nodes r.1.lines.items) }
    ensures kept { IfOk result (λ r. AreKept keeps.Recording.All (λ _. any_words) nodes r.1) }
    ensures wrote { IfOk result (λ r. AreWrittenAs (AddsAlone adds) (map lists_in r.1.receipts.items)) }
    ensures err { IfErr result ComesInCount }
{
    if !is_count_size(nodes, adds, capacity) {
        return Err(WorkRefusal::BadSettings);
    }
    let one = counted(rt, alloc, nodes, adds, capacity, gate)?;
    let word = one.closed.value().words[0];
    let mut lines = Vec::with_capacity(alloc, 1)?;
    let mut receipts = Vec::with_capacity(alloc, 1)?;
    lines.push_reserved(one.closed);
    receipts.push_reserved(one.receipts);
    Ok((word, ClosedMemory { lines, receipts }))
}
