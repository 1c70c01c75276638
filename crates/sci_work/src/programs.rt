//! What each node runs.
ghost use Rattle.std.specs.Prelude.{◌≡◌, ◌<◌, true, ℕ, List, IfOk, IfErr, OnOk};
ghost use Rattle.sci_ops.specs.declared.goals.Goal as goal;
ghost use Rattle.sci_ops.specs.declared.goals.Write as write;
ghost use Rattle.sci_ops.specs.Change.{StoresFitting};
ghost use Rattle.sci_work.specs.Adding.{HasAdded};
ghost use Rattle.sci_work.specs.Made.{ComesInCall};
ghost use Rattle.sci_work.specs.Programs.{ComesInPart, HasWritten, IsShareOf, Suits};
ghost use Rattle.sci_work.specs.Workers.{HasWorked, IsReady};

use crate::calls::add_one;
use crate::doors::Door;
use crate::gates::Gate;
use crate::refusals::WorkRefusal;
use crate::rings;
use crate::stencils::{Work, worked};
use sci_cache::Node;
use sci_port::Bank;
use std::alloc::Global;
use std::sync::Wait;

/// A workload's program. Each node runs it with its own number, and gives its share of the result.
#[derive(Clone, Copy)]
pub enum Program<'a> {
    /// Adds 1 to word 0 of line 0, so often.
    Count { adds: u64 },
    /// The items of a ring on so many lines: node 0 writes them, and node 1 reads them.
    Ring { source: &'a [u64], lines: u16 },
    /// Its tiles of a stencil.
    Stencil(Work<'a>),
}

fn counted<R: Wait, G: Gate, B: Bank>(
    rt: &R,
    door: &mut Door<'_, G>,
    node: &mut Node,
    bank: &mut B,
    adds: u64,
) -> Result<(), WorkRefusal>
    requires ready { IsReady B.at_step (B.way bank.old) node.old bank.old }
    requires line { 0 < (B.way bank.old).lines }
    requires fits { StoresFitting (B.Keep.fits (B.keep bank.old) 0) (goal.Goal.Write (write.Write.Add 0 1)) }
    ensures err { IfErr result ComesInCall }
    ensures worked { (ws : List (ℕ × List ℕ)) × HasWorked node.old.keeps ws B.way B.keep B.at_step B.gives B.readies B.receipts bank.old node.new bank.new }
    ensures added { node.old.keeps ≡ true → OnOk result (HasAdded adds (B.receipts bank.old 0).list (B.receipts bank.new 0).list) }
{
    for _ in 0..adds {
        add_one(rt, door, node, bank, 0)?;
    }
    Ok(())
}

/// The node's part. It ends with no call open.
pub fn run<R: Wait, G: Gate, B: Bank>(
    rt: &R,
    alloc: Global,
    door: &mut Door<'_, G>,
    node: &mut Node,
    bank: &mut B,
    program: Program<'_>,
    number: u16,
) -> Result<Vec<u64>, WorkRefusal>
    requires ready { IsReady B.at_step (B.way bank.old) node.old bank.old }
    requires suits { Suits program (B.Keep.fits (B.keep bank.old)) (B.way bank.old).lines number }
    ensures share { IfOk result (λ share. IsShareOf program.entry number share.items) }
    ensures err { IfErr result (ComesInPart program.entry) }
    ensures worked { (ws : List (ℕ × List ℕ)) × HasWorked node.old.keeps ws B.way B.keep B.at_step B.gives B.readies B.receipts bank.old node.new bank.new }
    ensures written { node.old.keeps ≡ true → OnOk result (HasWritten program.entry number (B.receipts bank.old) (B.receipts bank.new)) }
{
    match program {
        Program::Count { adds } => {
            counted(rt, door, node, bank, adds)?;
            Ok(Vec::new(alloc))
        }
        Program::Ring { source, lines } => {
            rings::worked(rt, alloc, door, node, bank, source, lines, number)
        }
        Program::Stencil(work) => worked(rt, alloc, door, node, bank, work, number),
    }
}
