//! The text of a workload's result.

ghost use Rattle.std.specs.Prelude.{◌≡◌, ◌≤◌, ◌++◌, ℕ, length, string_bytes, IfOk, OnOk, IfErr};
ghost use Rattle.sci_work.specs.Ended.{HaveNodes};
ghost use Rattle.sci_serve.specs.Runs.{AreWithin, ComesInRun, IsTextOf, dump_part};
ghost use Rattle.sci_serve.specs.Worked.{worked_line};

use crate::faults::SimFault;
use crate::workloads::{Worked, run_workload};
use crate::works::{cells_text, count_text, items_text};
use sci_core::Closed;
use sci_dump::dump;
use sci_settings::Settings;
use sci_work::{Gate, Recording};
use std::alloc::{AllocError, Global};
use std::sync::Wait;
use std::thread::Threads;

/// Adds the dump of closed lines, where it is wanted.
fn push_dump(
    alloc: Global,
    text: &mut String,
    wanted: bool,
    lines: &[Closed],
) -> Result<(), AllocError>
    requires lines { (1 ≤ length lines.now) × (length lines.now ≤ 1024) }
    requires nodes { (nodes : ℕ) × (1 ≤ nodes) × (nodes ≤ 64) × HaveNodes nodes lines.now }
    ensures { OnOk result ((nodes : ℕ) → HaveNodes nodes lines.now → string_bytes text.new ≡ string_bytes text.old ++ dump_part wanted nodes lines.now) }
{
    if wanted {
        let dump = dump(alloc, lines)?;
        text.push_str(&dump)?;
    }
    Ok(())
}

/// The line of what a workload ended with.
fn worked_text(alloc: Global, worked: &Worked) -> Result<String, AllocError>
    ensures { IfOk result (λ text. string_bytes text ≡ worked_line worked.now) }
{
    match worked {
        Worked::Cells(cells) => cells_text(alloc, cells),
        Worked::Items(items) => items_text(alloc, items),
        Worked::Word(word) => count_text(alloc, *word),
    }
}

/// Runs the workload of settings: the text of its result.
pub(crate) fn result_text<T: Threads + Wait + Sync, G: Gate>(
    rt: &T,
    alloc: Global,
    gate: &G,
    settings: &Settings,
) -> Result<String, SimFault>
    requires { AreWithin settings.now }
    ensures ok { IfOk result (λ text. IsTextOf settings.now (string_bytes text)) }
    ensures err { IfErr result ComesInRun }
{
    let (worked, memory) = run_workload(rt, alloc, gate, settings, Recording::Nothing)?;
    let mut text = worked_text(alloc, &worked)?;
    push_dump(alloc, &mut text, settings.wants_dump(), &memory.lines)?;
    Ok(text)
}
