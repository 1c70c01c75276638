//! What each node does of a ring.
ghost use Rattle.std.specs.Prelude.{◌≡◌, ◌<◌, ℕ, List, length, IfOk, IfErr, OnOk};
ghost use Rattle.sci_work.specs.Made.{ComesInWork};
ghost use Rattle.sci_work.specs.Ring.{IsRing, IsRingSize, ring_writes};
ghost use Rattle.sci_work.specs.Workers.{HasWorked, IsReady};

use crate::doors::Door;
use crate::gates::Gate;
use crate::refusals::WorkRefusal;
use crate::rings::consuming::consumed;
use crate::rings::producing::produced;
use sci_cache::Node;
use sci_port::Bank;
use std::alloc::Global;
use std::sync::Wait;

/// Node 0 writes the items, and gives none. Node 1 reads them all.
pub(crate) fn worked<R: Wait, G: Gate, B: Bank>(
    rt: &R,
    alloc: Global,
    door: &mut Door<'_, G>,
    node: &mut Node,
    bank: &mut B,
    source: &[u64],
    lines: u16,
    number: u16,
) -> Result<Vec<u64>, WorkRefusal>
    requires ready { IsReady B.at_step (B.way bank.old) node.old bank.old }
    requires room { lines < (B.way bank.old).lines }
    requires size { IsRingSize (length source.now) lines }
    requires ring { IsRing (B.Keep.fits (B.keep bank.old)) source.now lines }
    ensures share { IfOk result (λ share. number ≡ 1 → share.items ≡ source.now) }
    ensures err { IfErr result ComesInWork }
    ensures worked { (ws : List (ℕ × List ℕ)) × HasWorked node.old.keeps ws B.way B.keep B.at_step B.gives B.readies B.receipts bank.old node.new bank.new × OnOk result (ws ≡ ring_writes source.now lines number) }
{
    if number == 0 {
        produced(rt, door, node, bank, source, lines)?;
        return Ok(Vec::new(alloc));
    }
    consumed(rt, alloc, door, node, bank, source.len(), lines)
}
