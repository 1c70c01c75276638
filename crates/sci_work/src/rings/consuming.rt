//! The worker that reads the items of a ring.
ghost use Rattle.std.specs.Prelude.{◌≡◌, ◌≢◌, ◌+◌, ◌^◌, ◌<◌, ◌≤◌, ◌⊎◌, ◌↔◌, ℕ, List, [], Err, length, slice_index, take, IfOk, IfErr, OnOk};
ghost use Rattle.sci_work.specs.Made.{ComesInWork, IsBankOf, IsStillBankOf, Made, MadeSome};
ghost use Rattle.sci_work.specs.Ring.{IsRing, IsRingSize, IsRingOf, count_words, count_writes};

use crate::calls::{load_until, write_line};
use crate::doors::Door;
use crate::gates::Gate;
use crate::refusals::WorkRefusal;
use crate::rings::limits::{is_ring_size, line_of};
use sci_cache::Node;
use sci_port::{Bank, Keeps};
use std::alloc::Global;
use std::sync::Wait;
use std::sync::atomic::AtomicBool;

fn count_of(count: u64) -> [u64; 8]
    ensures { result ≡ count_words count }
{
    [count, 0, 0, 0, 0, 0, 0, 0]
}

/// Item i, once its line shows it. Refusal 19 where the line shows a later one.
fn item<R: Wait, G: Gate, B: Bank>(
    rt: &R,
    door: &mut Door<'_, G>,
    node: &mut Node,
    bank: &mut B,
    lines: u16,
    i: u64,
) -> Result<u64, WorkRefusal>
    requires ready { IsBankOf (B.way bank.old) node.old }
    requires room { (0 < lines) × (lines < (B.way bank.old).lines) }
    requires few { i + 1 < 2 ^ 64 }
    ensures value { IfOk result (λ x. (source : List ℕ) → IsRing (B.Keep.fits (B.keep bank.old)) source lines → x ≡ slice_index source i) }
    ensures err { IfErr result ComesInWork }
    ensures made { Made B.gives B.readies B.at_step [] node.old bank.old node.new bank.new }
    ensures still { IsStillBankOf node.old.keeps [] B.way B.keep B.at_step B.gives B.readies B.receipts bank.old node.new bank.new }
{
    let line = line_of(i, lines);
    let number = i + 1;
    let words = load_until(rt, door, node, bank, line, number)?;
    if words[0] == number {
        return Ok(words[1]);
    }
    Err(WorkRefusal::Overrun)
}

/// The first n items, in order. Each is counted as consumed once it was read.
pub(crate) fn consumed<R: Wait, G: Gate, B: Bank>(
    rt: &R,
    alloc: Global,
    door: &mut Door<'_, G>,
    node: &mut Node,
    bank: &mut B,
    n: usize,
    lines: u16,
) -> Result<Vec<u64>, WorkRefusal>
    requires ready { IsBankOf (B.way bank.old) node.old }
    requires room { lines < (B.way bank.old).lines }
    requires size { IsRingSize n lines }
    requires ring { IsRingOf (B.Keep.fits (B.keep bank.old)) n lines }
    ensures items { IfOk result (λ v. (source : List ℕ) → IsRing (B.Keep.fits (B.keep bank.old)) source lines → n ≤ length source → v.items ≡ take n source) }
    ensures ok { OnOk result (Made B.gives B.readies B.at_step (count_writes lines n) node.old bank.old node.new bank.new) }
    ensures err { IfErr result ComesInWork }
    ensures made { MadeSome B.gives B.readies B.at_step (count_writes lines) n node.old bank.old node.new bank.new }
    ensures still { (ws : List (ℕ × List ℕ)) × IsStillBankOf node.old.keeps ws B.way B.keep B.at_step B.gives B.readies B.receipts bank.old node.new bank.new × OnOk result (ws ≡ count_writes lines n) }
{
    let mut items = Vec::new(alloc);
    for i in 0..n {
        let number = i as u64;
        let value = item(rt, door, node, bank, lines, number)?;
        if items.push(value).is_err() {
            return Err(WorkRefusal::OutOfMemory);
        }
        write_line(rt, door, node, bank, lines, count_of(number + 1))?;
    }
    Ok(items)
}

/// Reads the first `n` items of a ring, 0 to 100,000, in order, over its 1 to 1,023 lines, and counts each as consumed once it
/// was read. It may wait for ever. The bank is the node's, holds the ring's lines and the one behind them, and has no call
/// open. The refusals: 22 for a number outside these limits, and then 7, 11, 19 where a line shows a later item than the one
/// awaited, 20 where the gate held a call back to its limit, and 25 where the stop mark was raised. Whoever refuses has raised
/// it, with no call open.
pub fn consume<R: Wait, G: Gate, B: Bank>(
    rt: &R,
    alloc: Global,
    node: &mut Node,
    bank: &mut B,
    n: usize,
    lines: u16,
    gate: &G,
    stop: &AtomicBool,
) -> Result<Vec<u64>, WorkRefusal>
    requires ready { IsBankOf (B.way bank.old) node.old }
    requires room { lines < (B.way bank.old).lines }
    requires ring { IsRingOf (B.Keep.fits (B.keep bank.old)) n lines }
    ensures limits { (result ≡ Err WorkRefusal.BadSettings) ↔ (IsRingSize n lines → ⊥) }
    ensures untouched { (IsRingSize n lines → ⊥) → (node.new ≡ node.old) × (bank.new ≡ bank.old) }
    ensures items { IfOk result (λ v. (source : List ℕ) → IsRing (B.Keep.fits (B.keep bank.old)) source lines → n ≤ length source → v.items ≡ take n source) }
    ensures ok { OnOk result (Made B.gives B.readies B.at_step (count_writes lines n) node.old bank.old node.new bank.new) }
    ensures err { IsRingSize n lines → IfErr result ComesInWork }
    ensures made { MadeSome B.gives B.readies B.at_step (count_writes lines) n node.old bank.old node.new bank.new }
    ensures still { (ws : List (ℕ × List ℕ)) × IsStillBankOf node.old.keeps ws B.way B.keep B.at_step B.gives B.readies B.receipts bank.old node.new bank.new × OnOk result (ws ≡ count_writes lines n) }
{
    let mut door = Door::new(gate, stop, node.id().get());
    if !is_ring_size(n, lines) {
        door.raise();
        return Err(WorkRefusal::BadSettings);
    }
    let ended = consumed(rt, alloc, &mut door, node, bank, n, lines);
    door.told(ended)
}
