//! The histories of a workload's lines.

ghost use Rattle.std.specs.Prelude.{◌≡◌, length, map, string_bytes, IfOk, IfErr};
ghost use Rattle.sci_work.specs.Ended.{lists_in};
ghost use Rattle.sci_serve.specs.Histories.{IsHistoryTextOf, histories_from, history_from};
ghost use Rattle.sci_serve.specs.Runs.{AreWithin, ComesInRun};

use crate::faults::SimFault;
use crate::workloads::run_workload;
use sci_core::{Closed, Line, Receipt};
use sci_histories::{History, LineHistory, NodeReceipts, history_text};
use sci_settings::Settings;
use sci_work::{ClosedMemory, Gate, Recording};
use std::alloc::{AllocError, Global};
use std::sync::Wait;
use std::thread::Threads;

/// The history of a line that was opened with zeros: with what it was closed, and each node's receipts.
fn line_history(
    alloc: Global,
    closed: &Closed,
    lists: Vec<Vec<Receipt>>,
) -> Result<LineHistory, AllocError>
    ensures { IfOk result (λ h. h ≡ history_from closed.now (lists_in lists)) }
{
    let mut nodes = Vec::with_capacity(alloc, lists.len())?;
    for list in lists {
        nodes.push_reserved(NodeReceipts::new(list));
    }
    Ok(LineHistory {
        opening: Line::ZERO,
        closing: closed.value(),
        lists: nodes,
    })
}

/// The histories of the lines, in order.
fn line_histories(alloc: Global, memory: ClosedMemory) -> Result<Vec<LineHistory>, AllocError>
    requires { length memory.receipts.items ≡ length memory.lines.items }
    ensures { IfOk result (λ hs. hs.items ≡ histories_from memory.lines.items (map lists_in memory.receipts.items)) }
{
    let ClosedMemory { lines, receipts } = memory;
    let mut histories = Vec::with_capacity(alloc, lines.len())?;
    for lists in receipts {
        let line = histories.len();
        let history = line_history(alloc, &lines[line], lists)?;
        histories.push_reserved(history);
    }
    Ok(histories)
}

/// Runs the workload of settings: the text of its lines' histories.
pub(crate) fn history_of<T: Threads + Wait + Sync, G: Gate>(
    rt: &T,
    alloc: Global,
    gate: &G,
    settings: &Settings,
) -> Result<String, SimFault>
    requires { AreWithin settings.now }
    ensures ok { IfOk result (λ text. IsHistoryTextOf settings.now (string_bytes text)) }
    ensures err { IfErr result ComesInRun }
{
    let (_, memory) = run_workload(rt, alloc, gate, settings, Recording::All)?;
    let lines = line_histories(alloc, memory)?;
    let nodes = settings.nodes();
    let history = History { nodes, lines };
    let text = history_text(alloc, &history)?;
    Ok(text)
}
