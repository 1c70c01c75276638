//! What each node does of a stencil.
ghost use Rattle.std.specs.Prelude.{◌≡◌, ◌∷◌, ℕ, ◌+◌, ◌-◌, ◌*◌, ◌/◌, ◌%◌, ◌^◌, ◌<◌, ◌≤◌, List, [], IfOk, OnOk, length, slice_index, vec_len, false, IfErr};
ghost use Rattle.sci_work.specs.Made.{ComesInWork};
ghost use Rattle.sci_work.specs.Plain.{plain};
ghost use Rattle.sci_work.specs.Shares.{IsShare, IsWork};
ghost use Rattle.sci_work.specs.Stencil.{HoldsTile, stencil_writes, tile_words, tile_writes};
ghost use Rattle.sci_work.specs.Workers.{HasWorked, IsReady};

use crate::calls::{load_until, write_line};
use crate::doors::Door;
use crate::gates::Gate;
use crate::refusals::WorkRefusal;
use crate::stencils::tiles::{advanced, line_at, opening};
use sci_cache::Node;
use sci_port::Bank;
use std::alloc::Global;
use std::sync::Wait;

/// What all nodes work on.
#[derive(Clone, Copy)]
pub struct Work<'a> {
    pub cells: &'a [u64],
    pub phases: u64,
    pub tiles: u16,
    pub nodes: u16,
}

/// The words of a tile once it stands at this phase. Refusal 19 where it is found at a later one.
#[inline(always)]
fn awaited<R: Wait, G: Gate, B: Bank>(
    rt: &R,
    door: &mut Door<'_, G>,
    node: &mut Node,
    bank: &mut B,
    work: Work<'_>,
    tile: u16,
    phase: u64,
) -> Result<[u64; 8], WorkRefusal>
    requires ready { IsReady B.at_step (B.way bank.old) node.old bank.old }
    requires work { IsWork (B.Keep.fits (B.keep bank.old)) work.cells.now work.phases work.tiles (B.way bank.old).lines }
    requires tile { tile < work.tiles }
    requires phase { phase ≤ work.phases }
    ensures number { IfOk result (λ words. slice_index words 0 ≡ phase + 1) }
    ensures cells { IfOk result (λ words. HoldsTile (plain work.entry.cells.now phase) tile words) }
    ensures err { IfErr result ComesInWork }
    ensures worked { HasWorked node.old.keeps [] B.way B.keep B.at_step B.gives B.readies B.receipts bank.old node.new bank.new }
{
    let line = line_at(tile, phase);
    let number = phase + 1;
    let words = load_until(rt, door, node, bank, line, number)?;
    if words[0] == number {
        return Ok(words);
    }
    Err(WorkRefusal::Overrun)
}

/// The cell before a tile after a phase: that of the tile before it, or 0.
#[inline(always)]
fn cell_before<R: Wait, G: Gate, B: Bank>(
    rt: &R,
    door: &mut Door<'_, G>,
    node: &mut Node,
    bank: &mut B,
    work: Work<'_>,
    tile: u16,
    phase: u64,
) -> Result<u64, WorkRefusal>
    requires ready { IsReady B.at_step (B.way bank.old) node.old bank.old }
    requires work { IsWork (B.Keep.fits (B.keep bank.old)) work.cells.now work.phases work.tiles (B.way bank.old).lines }
    requires tile { tile < work.tiles }
    requires phase { phase ≤ work.phases }
    ensures cell { IfOk result (λ x. x ≡ slice_index (0 ∷ plain work.entry.cells.now phase) (7 * tile)) }
    ensures err { IfErr result ComesInWork }
    ensures worked { HasWorked node.old.keeps [] B.way B.keep B.at_step B.gives B.readies B.receipts bank.old node.new bank.new }
{
    if tile == 0 {
        return Ok(0);
    }
    let words = awaited(rt, door, node, bank, work, tile - 1, phase)?;
    Ok(words[7])
}

/// The cell behind a tile after a phase: that of the tile behind it, or 0.
#[inline(always)]
fn cell_behind<R: Wait, G: Gate, B: Bank>(
    rt: &R,
    door: &mut Door<'_, G>,
    node: &mut Node,
    bank: &mut B,
    work: Work<'_>,
    tile: u16,
    phase: u64,
) -> Result<u64, WorkRefusal>
    requires ready { IsReady B.at_step (B.way bank.old) node.old bank.old }
    requires work { IsWork (B.Keep.fits (B.keep bank.old)) work.cells.now work.phases work.tiles (B.way bank.old).lines }
    requires tile { tile < work.tiles }
    requires phase { phase ≤ work.phases }
    ensures cell { IfOk result (λ x. x ≡ slice_index (plain work.entry.cells.now phase) (7 * tile + 7)) }
    ensures err { IfErr result ComesInWork }
    ensures worked { HasWorked node.old.keeps [] B.way B.keep B.at_step B.gives B.readies B.receipts bank.old node.new bank.new }
{
    if tile + 1 == work.tiles {
        return Ok(0);
    }
    let words = awaited(rt, door, node, bank, work, tile + 1, phase)?;
    Ok(words[1])
}

/// Takes a tile one phase on.
#[inline(always)]
fn advance<R: Wait, G: Gate, B: Bank>(
    rt: &R,
    door: &mut Door<'_, G>,
    node: &mut Node,
    bank: &mut B,
    work: Work<'_>,
    tile: u16,
    phase: u64,
) -> Result<(), WorkRefusal>
    requires ready { IsReady B.at_step (B.way bank.old) node.old bank.old }
    requires work { IsWork (B.Keep.fits (B.keep bank.old)) work.cells.now work.phases work.tiles (B.way bank.old).lines }
    requires tile { tile < work.tiles }
    requires phase { phase < work.phases }
    ensures err { IfErr result ComesInWork }
    ensures worked { (ws : List (ℕ × List ℕ)) × HasWorked node.old.keeps ws B.way B.keep B.at_step B.gives B.readies B.receipts bank.old node.new bank.new × OnOk result (ws ≡ (2 * tile + (phase + 1) % 2, tile_words work.entry.cells.now (phase + 1) tile) ∷ []) }
{
    let own = awaited(rt, door, node, bank, work, tile, phase)?;
    let left = cell_before(rt, door, node, bank, work, tile, phase)?;
    let right = cell_behind(rt, door, node, bank, work, tile, phase)?;
    let line = line_at(tile, phase + 1);
    write_line(rt, door, node, bank, line, advanced(left, &own, right))
}

/// Writes the node's tiles as they open.
fn open_all<R: Wait, G: Gate, B: Bank>(
    rt: &R,
    door: &mut Door<'_, G>,
    node: &mut Node,
    bank: &mut B,
    work: Work<'_>,
    number: u16,
) -> Result<(), WorkRefusal>
    requires ready { IsReady B.at_step (B.way bank.old) node.old bank.old }
    requires work { IsWork (B.Keep.fits (B.keep bank.old)) work.cells.now work.phases work.tiles (B.way bank.old).lines }
    requires nodes { (number < work.nodes) × (work.nodes ≤ 64) }
    ensures err { IfErr result ComesInWork }
    ensures worked { (ws : List (ℕ × List ℕ)) × HasWorked node.old.keeps ws B.way B.keep B.at_step B.gives B.readies B.receipts bank.old node.new bank.new × OnOk result (ws ≡ tile_writes work.entry.cells.now work.entry.nodes number 0 work.entry.tiles) }
{
    let mut tile = number;
    while tile < work.tiles {
        let words = opening(work.cells, 7 * usize::from(tile));
        write_line(rt, door, node, bank, 2 * tile, words)?;
        tile += work.nodes;
    }
    Ok(())
}

/// Takes the node's tiles one phase on.
fn advance_all<R: Wait, G: Gate, B: Bank>(
    rt: &R,
    door: &mut Door<'_, G>,
    node: &mut Node,
    bank: &mut B,
    work: Work<'_>,
    number: u16,
    phase: u64,
) -> Result<(), WorkRefusal>
    requires ready { IsReady B.at_step (B.way bank.old) node.old bank.old }
    requires work { IsWork (B.Keep.fits (B.keep bank.old)) work.cells.now work.phases work.tiles (B.way bank.old).lines }
    requires nodes { (number < work.nodes) × (work.nodes ≤ 64) }
    requires phase { phase < work.phases }
    ensures err { IfErr result ComesInWork }
    ensures worked { (ws : List (ℕ × List ℕ)) × HasWorked node.old.keeps ws B.way B.keep B.at_step B.gives B.readies B.receipts bank.old node.new bank.new × OnOk result (ws ≡ tile_writes work.entry.cells.now work.entry.nodes number (phase + 1) work.entry.tiles) }
{
    let mut tile = number;
    while tile < work.tiles {
        advance(rt, door, node, bank, work, tile, phase)?;
        tile += work.nodes;
    }
    Ok(())
}

/// The cells of the node's tiles after the last phase.
fn collect<R: Wait, G: Gate, B: Bank>(
    rt: &R,
    alloc: Global,
    door: &mut Door<'_, G>,
    node: &mut Node,
    bank: &mut B,
    work: Work<'_>,
    number: u16,
) -> Result<Vec<u64>, WorkRefusal>
    requires ready { IsReady B.at_step (B.way bank.old) node.old bank.old }
    requires work { IsWork (B.Keep.fits (B.keep bank.old)) work.cells.now work.phases work.tiles (B.way bank.old).lines }
    requires nodes { (number < work.nodes) × (work.nodes ≤ 64) }
    ensures share { IfOk result (λ v. IsShare (plain work.entry.cells.now work.entry.phases) work.entry.nodes number work.entry.tiles v.items) }
    ensures err { IfErr result ComesInWork }
    ensures worked { HasWorked node.old.keeps [] B.way B.keep B.at_step B.gives B.readies B.receipts bank.old node.new bank.new }
{
    let mut share = Vec::new(alloc);
    let mut tile = number;
    while tile < work.tiles {
        let words = awaited(rt, door, node, bank, work, tile, work.phases)?;
        share.extend_from_slice(&words[1..])?;
        tile += work.nodes;
    }
    Ok(share)
}

/// All that a node does of a stencil: its tiles' cells after the last phase.
pub(crate) fn worked<R: Wait, G: Gate, B: Bank>(
    rt: &R,
    alloc: Global,
    door: &mut Door<'_, G>,
    node: &mut Node,
    bank: &mut B,
    work: Work<'_>,
    number: u16,
) -> Result<Vec<u64>, WorkRefusal>
    requires ready { IsReady B.at_step (B.way bank.old) node.old bank.old }
    requires work { IsWork (B.Keep.fits (B.keep bank.old)) work.cells.now work.phases work.tiles (B.way bank.old).lines }
    requires nodes { (number < work.nodes) × (work.nodes ≤ 64) }
    ensures share { IfOk result (λ v. IsShare (plain work.entry.cells.now work.entry.phases) work.entry.nodes number work.entry.tiles v.items) }
    ensures err { IfErr result ComesInWork }
    ensures worked { (ws : List (ℕ × List ℕ)) × HasWorked node.old.keeps ws B.way B.keep B.at_step B.gives B.readies B.receipts bank.old node.new bank.new × OnOk result (ws ≡ stencil_writes work.entry.cells.now work.entry.phases work.entry.nodes work.entry.tiles number) }
{
    open_all(rt, door, node, bank, work, number)?;
    for phase in 0..work.phases {
        advance_all(rt, door, node, bank, work, number, phase)?;
    }
    collect(rt, alloc, door, node, bank, work, number)
}
