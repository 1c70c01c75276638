//! Workloads, by their settings.

ghost use Rattle.std.specs.Prelude.{◌≡◌, map, IfOk, IfErr};
ghost use Rattle.sci_work.specs.Ended.{AreKept, lists_in};
ghost use Rattle.sci_work.specs.Written.{AreWrittenAs};
ghost use Rattle.sci_work.specs.declared.recording.Recording as recordings;
ghost use Rattle.sci_settings.specs.Settings.{nodes_of};
ghost use Rattle.sci_serve.specs.Runs.{AreLeftBy, AreWithin, ComesInRun, fits_of, result_line, writes_of};
ghost use Rattle.sci_serve.specs.Worked.{worked_line};

use crate::faults::SimFault;
use sci_settings::Settings;
use sci_work::{ClosedMemory, Gate, Recording, count, ring, stencil};
use std::alloc::Global;
use std::sync::Wait;
use std::thread::Threads;

/// What a workload ended with.
#[derive(Drop)]
pub(crate) enum Worked {
    /// The cells of a stencil after its last phase.
    Cells(Vec<u64>),
    /// The items that came out of a ring.
    Items(Vec<u64>),
    /// The word that was counted on.
    Word(u64),
}

/// Runs the workload of settings: what it ended with, and its lines with what its nodes kept. A count keeps all.
pub(crate) fn run_workload<T: Threads + Wait + Sync, G: Gate>(
    rt: &T,
    alloc: Global,
    gate: &G,
    settings: &Settings,
    recording: Recording,
) -> Result<(Worked, ClosedMemory), SimFault>
    requires { AreWithin settings.now }
    ensures line { IfOk result (λ r. worked_line r.0 ≡ result_line settings.now) }
    ensures left { IfOk result (λ r. AreLeftBy settings.now r.1.lines.items) }
    ensures kept { recording ≡ recordings.Recording.All → IfOk result (λ r. AreKept recordings.Recording.All (fits_of settings.now) (nodes_of settings.now) r.1) }
    ensures wrote { IfOk result (λ r. AreWrittenAs (writes_of settings.now) (map lists_in r.1.receipts.items)) }
    ensures err { IfErr result ComesInRun }
{
    match settings {
        Settings::Stencil {
            nodes,
            capacity,
            phases,
            cells,
            ..
        } => {
            let cells = cells.as_slice();
            let (cells, memory) = stencil(
                rt, alloc, cells, *phases, *nodes, *capacity, recording, gate,
            )?;
            Ok((Worked::Cells(cells), memory))
        }
        Settings::Ring {
            lines,
            capacity,
            items,
            ..
        } => {
            let items = items.as_slice();
            let (items, memory) = ring(rt, alloc, items, *lines, *capacity, recording, gate)?;
            Ok((Worked::Items(items), memory))
        }
        Settings::Count {
            nodes,
            adds,
            capacity,
            ..
        } => {
            let (word, memory) = count(rt, alloc, *nodes, *adds, *capacity, gate)?;
            Ok((Worked::Word(word), memory))
        }
    }
}
