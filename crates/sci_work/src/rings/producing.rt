//! The worker that writes the items of a ring.
ghost use Rattle.std.specs.Prelude.{◌≡◌, ◌≢◌, ◌+◌, ◌^◌, ◌<◌, ◌≤◌, ◌⊎◌, ◌↔◌, ℕ, List, [], Err, ◌∷◌, length, replicate, IfErr, IfOk, OnOk};
ghost use Rattle.sci_work.specs.Made.{ComesInCall, IsBankOf, IsStillBankOf, Made, MadeSome};
ghost use Rattle.sci_work.specs.Ring.{IsRing, IsRingSize, item_words, item_writes};

use crate::calls::{load_until, write_line};
use crate::doors::Door;
use crate::gates::Gate;
use crate::refusals::WorkRefusal;
use crate::rings::limits::{is_ring_size, line_of};
use sci_cache::Node;
use sci_port::{Bank, Keeps};
use std::sync::Wait;
use std::sync::atomic::AtomicBool;

fn words_of(number: u64, value: u64) -> [u64; 8]
    ensures { result ≡ number ∷ value ∷ replicate 6 0 }
{
    [number, value, 0, 0, 0, 0, 0, 0]
}

// Waits until so many items were consumed that item i's line is free. Where as many were seen to be consumed before, that is
// so without a call. How many were seen to be consumed.
fn free<R: Wait, G: Gate, B: Bank>(
    rt: &R,
    door: &mut Door<'_, G>,
    node: &mut Node,
    bank: &mut B,
    lines: u16,
    i: u64,
    consumed: u64,
) -> Result<u64, WorkRefusal>
    requires ready { IsBankOf (B.way bank.old) node.old }
    requires room { lines < (B.way bank.old).lines }
    requires few { i + 1 < 2 ^ 64 }
    ensures free { IfOk result (λ seen. i + 1 ≤ seen + lines) }
    ensures err { IfErr result ComesInCall }
    ensures made { Made B.gives B.readies B.at_step [] node.old bank.old node.new bank.new }
    ensures still { IsStillBankOf node.old.keeps [] B.way B.keep B.at_step B.gives B.readies B.receipts bank.old node.new bank.new }
{
    let least = (i + 1).saturating_sub(u64::from(lines));
    if consumed >= least {
        return Ok(consumed);
    }
    match load_until(rt, door, node, bank, lines, least) {
        Ok(words) => Ok(words[0]),
        Err(refusal) => Err(refusal),
    }
}

/// Writes all items.
pub(crate) fn produced<R: Wait, G: Gate, B: Bank>(
    rt: &R,
    door: &mut Door<'_, G>,
    node: &mut Node,
    bank: &mut B,
    source: &[u64],
    lines: u16,
) -> Result<(), WorkRefusal>
    requires ready { IsBankOf (B.way bank.old) node.old }
    requires room { lines < (B.way bank.old).lines }
    requires size { IsRingSize (length source.now) lines }
    requires ring { IsRing (B.Keep.fits (B.keep bank.old)) source.now lines }
    ensures ok { OnOk result (Made B.gives B.readies B.at_step (item_writes source.now lines (length source.now)) node.old bank.old node.new bank.new) }
    ensures err { IfErr result ComesInCall }
    ensures made { MadeSome B.gives B.readies B.at_step (item_writes source.now lines) (length source.now) node.old bank.old node.new bank.new }
    ensures still { (ws : List (ℕ × List ℕ)) × IsStillBankOf node.old.keeps ws B.way B.keep B.at_step B.gives B.readies B.receipts bank.old node.new bank.new × OnOk result (ws ≡ item_writes source.now lines (length source.now)) }
{
    let mut consumed = 0;
    for (i, value) in source.iter().enumerate() {
        let number = i as u64;
        consumed = free(rt, door, node, bank, lines, number, consumed)?;
        let line = line_of(number, lines);
        write_line(rt, door, node, bank, line, words_of(number + 1, *value))?;
    }
    Ok(())
}

/// Writes the items of a ring, 0 to 100,000, in order, over its 1 to 1,023 lines, each once its line is free. It may wait for
/// ever. The bank is the node's, holds the ring's lines and the one behind them, and has no call open. The refusals: 22 for a
/// number outside these limits, and then 7, 11, 20 where the gate held a call back to its limit, and 25 where the stop mark
/// was raised. Whoever refuses has raised it, with no call open.
pub fn produce<R: Wait, G: Gate, B: Bank>(
    rt: &R,
    node: &mut Node,
    bank: &mut B,
    source: &[u64],
    lines: u16,
    gate: &G,
    stop: &AtomicBool,
) -> Result<(), WorkRefusal>
    requires ready { IsBankOf (B.way bank.old) node.old }
    requires room { lines < (B.way bank.old).lines }
    requires ring { IsRing (B.Keep.fits (B.keep bank.old)) source.now lines }
    ensures limits { (result ≡ Err WorkRefusal.BadSettings) ↔ (IsRingSize (length source.now) lines → ⊥) }
    ensures untouched { (IsRingSize (length source.now) lines → ⊥) → (node.new ≡ node.old) × (bank.new ≡ bank.old) }
    ensures ok { OnOk result (Made B.gives B.readies B.at_step (item_writes source.now lines (length source.now)) node.old bank.old node.new bank.new) }
    ensures err { IsRingSize (length source.now) lines → IfErr result ComesInCall }
    ensures made { MadeSome B.gives B.readies B.at_step (item_writes source.now lines) (length source.now) node.old bank.old node.new bank.new }
    ensures still { (ws : List (ℕ × List ℕ)) × IsStillBankOf node.old.keeps ws B.way B.keep B.at_step B.gives B.readies B.receipts bank.old node.new bank.new × OnOk result (ws ≡ item_writes source.now lines (length source.now)) }
{
    let mut door = Door::new(gate, stop, node.id().get());
    if !is_ring_size(source.len(), lines) {
        door.raise();
        return Err(WorkRefusal::BadSettings);
    }
    let ended = produced(rt, &mut door, node, bank, source, lines);
    door.told(ended)
}
