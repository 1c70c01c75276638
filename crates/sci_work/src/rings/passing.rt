//! A ring with its two nodes in threads of their own.
ghost use Rattle.std.specs.Prelude.{◌≡◌, ◌+◌, ◌↔◌, Err, length, map, IfOk, IfErr, vec_len};
ghost use Rattle.sci_work.specs.Ended.{AreClosed, AreKept, HaveNodes, lists_in};
ghost use Rattle.sci_work.specs.Hands.{AtEach};
ghost use Rattle.sci_work.specs.Ring.{FitsRing, IsRingRun, IsRingSize, ring_writes};
ghost use Rattle.sci_work.specs.Starts.{ComesInRun, ComesInStart};
ghost use Rattle.sci_work.specs.Written.{AreWrittenAs, WritesAlone};

use crate::facts::RingFact;
use crate::gates::Gate;
use crate::lines::{closed, opened};
use crate::programs::Program;
use crate::recording::{ClosedMemory, Recording};
use crate::refusals::WorkRefusal;
use crate::rings::limits::is_ring_size;
use crate::starting::run_all;
use std::alloc::Global;
use std::sync::Wait;
use std::thread::Threads;

// The share of the sink, which is the second of two.
fn last_share(source: &[u64], shares: Vec<Vec<u64>>) -> Vec<u64>
    requires two { vec_len shares ≡ 2 }
    requires each { AtEach (λ k share. k ≡ 1 → share.items ≡ source.now) shares.items }
    ensures { result.items ≡ source.now }
{
    let _ = source;
    let mut shares = shares;
    let Some(share) = shares.pop() else {
        unreachable!()
    };
    share
}

// The items at the sink, and the ring's lines as they are closed.
fn passed<R: Threads + Wait + Sync, G: Gate>(
    rt: &R,
    alloc: Global,
    source: &[u64],
    lines: u16,
    capacity: u16,
    recording: Recording,
    gate: &G,
) -> Result<(Vec<u64>, ClosedMemory), WorkRefusal>
    requires { IsRingSize (length source.now) lines }
    ensures items { IfOk result (λ r. r.0.items ≡ source.now) }
    ensures closed { IfOk result (λ r. AreClosed (FitsRing source.now lines) (lines + 1) r.1.lines.items) }
    ensures nodes { IfOk result (λ r. HaveNodes 2 r.1.lines.items) }
    ensures kept { IfOk result (λ r. AreKept recording (FitsRing source.now lines) 2 r.1) }
    ensures wrote { IfOk result (λ r. AreWrittenAs (WritesAlone (ring_writes source.now lines)) (map lists_in r.1.receipts.items)) }
    ensures err { IfErr result (ComesInStart (Program.Ring source.entry lines)) }
{
    let (shared, hands) = opened(alloc, 2, lines + 1, RingFact::new(source, lines))?;
    let program = Program::Ring { source, lines };
    let (hands, shares) = run_all(
        rt, alloc, gate, &shared, hands, program, recording, capacity,
    )?;
    let all = closed(alloc, shared, recording, hands)?;
    let items = last_share(source, shares);
    Ok((items, all))
}

/// Passes the items of a list, 0 to 100,000, in order from one node to another over 1 to 1,023 lines, each node in a thread of
/// its own. Gives the items as they came out, and the closed lines, with that behind the ring's. Where all is kept, the receipts of
/// each node come with the lines, and are one history of each: one of each read and up to two of each write, of 144 bytes each. A
/// node's table names up to 1,024 lines. It may wait for ever. The refusals: 22 for a number outside these limits; then that of the
/// lower node whose refusal isn't 25: 7, 11, 19, 20 where the gate held a call back to its limit, and 26 where the node's thread
/// couldn't be started. A refused growth outside the nodes is 7.
pub fn ring<R: Threads + Wait + Sync, G: Gate>(
    rt: &R,
    alloc: Global,
    source: &[u64],
    lines: u16,
    capacity: u16,
    recording: Recording,
    gate: &G,
) -> Result<(Vec<u64>, ClosedMemory), WorkRefusal>
    ensures limits { (result ≡ Err WorkRefusal.BadSettings) ↔ (IsRingRun (length source.now) lines capacity → ⊥) }
    ensures items { IfOk result (λ r. r.0.items ≡ source.now) }
    ensures closed { IfOk result (λ r. AreClosed (FitsRing source.now lines) (lines + 1) r.1.lines.items) }
    ensures nodes { IfOk result (λ r. HaveNodes 2 r.1.lines.items) }
    ensures kept { IfOk result (λ r. AreKept recording (FitsRing source.now lines) 2 r.1) }
    ensures wrote { IfOk result (λ r. AreWrittenAs (WritesAlone (ring_writes source.now lines)) (map lists_in r.1.receipts.items)) }
    ensures err { IfErr result ComesInRun }
{
    if !is_ring_size(source.len(), lines) || capacity == 0 || capacity > 1024 {
        return Err(WorkRefusal::BadSettings);
    }
    passed(rt, alloc, source, lines, capacity, recording, gate)
}
