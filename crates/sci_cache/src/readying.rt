//! Room for receipts and the mark, before a request's turns.
ghost use Rattle.std.specs.Prelude.{◌≡◌, ◌≢◌, ◌<◌, ◌≤◌, ℕ, true, IfSome, IsOk, OnOk};
ghost use Rattle.sci_port.specs.KeepsAll.{IsReadied};
ghost use Rattle.sci_ops.specs.declared.goals.Goal.{Goal};
ghost use Rattle.sci_cache.specs.Called.{IsSameButRoom, most_needed};
ghost use Rattle.sci_cache.specs.Nodes.{IsLine};

use sci_port::Bank;
use sci_words::LineNo;
use std::alloc::AllocError;

/// Room for n more receipts on the line, at least, which takes memory only where there is less. `AllocError`: it was refused.
#[inline(always)]
pub(crate) fn reserve_at<B: Bank>(bank: &mut B, line: LineNo, n: usize) -> Result<(), AllocError>
    requires line { line < (B.way bank.old).lines }
    ensures readied { IsReadied B.readies bank.old bank.new }
    ensures room { OnOk result (n ≤ (B.receipts bank.new line).room) }
    ensures enough { n ≤ (B.receipts bank.old line).room → IsOk result }
    ensures same { (m : ℕ) → IsSameButRoom (B.receipts bank.old m) (B.receipts bank.new m) }
    ensures others { (m : ℕ) → m ≢ line → B.receipts bank.new m ≡ B.receipts bank.old m }
{
    if n <= bank.room(line) {
        return Ok(());
    }
    bank.reserve(line, n)
}

/// For how many receipts an exit needs room at most: that of a line that is still held, and that of the way.
const EXIT: usize = 2;

/// The same for the eviction of a line that is put out, where there is one.
#[inline(always)]
pub(crate) fn reserve_out<B: Bank>(bank: &mut B, victim: Option<LineNo>) -> Result<(), AllocError>
    requires line { IsLine (B.way bank.old).lines victim }
    ensures readied { IsReadied B.readies bank.old bank.new }
    ensures room { OnOk result (IfSome victim (λ w. most_needed Goal.Evict ≤ (B.receipts bank.new w).room)) }
    ensures same { (m : ℕ) → IsSameButRoom (B.receipts bank.old m) (B.receipts bank.new m) }
    ensures others { (m : ℕ) → IfSome victim (λ w. m ≢ w) → B.receipts bank.new m ≡ B.receipts bank.old m }
{
    let Some(victim) = victim else {
        return Ok(());
    };
    reserve_at(bank, victim, EXIT)
}

/// Sets the mark for a request's line, and for the eviction of the line that it puts out.
#[inline(always)]
pub(crate) fn aim_at<B: Bank>(bank: &mut B, line: LineNo, passing: bool, victim: Option<LineNo>)
    requires line { line < (B.way bank.old).lines }
    requires other { IsLine (B.way bank.old).lines victim }
    requires apart { IfSome victim (λ w. line ≢ w) }
    ensures readied { IsReadied B.readies bank.old bank.new }
    ensures mark { (B.receipts bank.new line).passing ≡ passing }
    ensures out { IfSome victim (λ w. (B.receipts bank.new w).passing ≡ true) }
    ensures others { (m : ℕ) → m ≢ line → IfSome victim (λ w. m ≢ w) → B.receipts bank.new m ≡ B.receipts bank.old m }
{
    bank.aim(line, passing);
    let Some(victim) = victim else {
        return;
    };
    bank.aim(victim, true);
}
