//! Desks over banks of lines that threads share: they print what a desk of whole lines does.
ghost use Rattle.std.specs.Prelude.{◌≡◌, ℕ, List, length, vec_items, IsTrue};
ghost use Rattle.sci_port.specs.SeatBanks.{IsLine};
ghost use Rattle.sci_script.specs.BankDesks.{AreBanksOf, IsBankOf};
ghost use Rattle.sci_script.specs.Dealt.{ArePiled, AreShared};

use crate::shared::{ScriptLine, hand_of, opened};
use sci_port::{Bank, SeatBank};
use sci_script::{BankDesk, Script, ScriptRefusal, read_script};
use std::alloc::Global;
use std::test::Fail;

/// Whether it is the bank of the node of this number, of as many lines and nodes as the script has.
fn is_bank<B: Bank>(script: &Script, bank: &B, number: u16) -> bool
    requires { (line : ℕ) (words : List ℕ) → B.Keep.fits (B.keep bank.now) line words }
    ensures { IsTrue result → IsBankOf B.way B.nodes_on (λ b line words. B.Keep.fits (B.keep b) line words) script.now.size number bank.now }
{
    if bank.node().get() != number || bank.lines() != script.lines() {
        return false;
    }
    for line in 0..script.lines() {
        if bank.nodes(line) != script.nodes() {
            return false;
        }
    }
    true
}

/// Whether they are the banks of the script's nodes, in order.
pub(crate) fn are_banks<B: Bank>(script: &Script, banks: &[B]) -> bool
    requires { (b : B) (line : ℕ) (words : List ℕ) → B.Keep.fits (B.keep b) line words }
    ensures { IsTrue result → AreBanksOf B.way B.nodes_on (λ b line words. B.Keep.fits (B.keep b) line words) script.now.size banks.now }
{
    if banks.len() != usize::from(script.nodes()) {
        return false;
    }
    for number in 0..script.nodes() {
        if !is_bank(script, &banks[usize::from(number)], number) {
            return false;
        }
    }
    true
}

/// Runs a script over these banks. None: they are not its banks, before it or behind it, or there is no memory.
pub(crate) fn run_over<B: Bank + Drop>(
    alloc: Global,
    script: &Script,
    banks: Vec<B>,
    out: &mut Vec<u8>,
) -> Option<Result<(), ScriptRefusal>>
    requires { (b : B) (line : ℕ) (words : List ℕ) → B.Keep.fits (B.keep b) line words }
{
    if !are_banks(script, &banks) {
        return None;
    }
    let Ok(mut desk) = BankDesk::new(alloc, script, banks) else {
        return None;
    };
    let end = script.run(alloc, &mut desk, out);
    are_banks(script, &desk.into_banks()).then_some(end)
}

/// The banks of the script's nodes over these lines. None: there is no memory, or they make no banks.
fn banks_of<'a, L: ScriptLine>(
    alloc: Global,
    script: &Script,
    lines: &'a [L],
    piles: &mut Vec<Vec<L::Seat>>,
) -> Option<Vec<SeatBank<'a, L>>>
    requires count { length lines.now ≡ script.now.size.lines }
    requires lines { AreShared (λ l nodes number. IsLine nodes (record {}) number (L.terms l)) script.now.size.nodes lines.now }
    requires piles { ArePiled L.is_seat vec_items lines.now piles.old.items }
{
    let mut banks = Vec::new(alloc);
    for _ in 0..script.nodes() {
        let hand = hand_of(alloc, lines, piles)?;
        let bank = SeatBank::new(lines, hand).ok()?;
        banks.insert(0, bank).ok()?;
    }
    Some(banks)
}

/// Reads a script, and runs it over banks of such lines.
pub(crate) fn run_on<L: ScriptLine>(
    alloc: Global,
    text: &str,
    out: &mut Vec<u8>,
) -> Result<Result<(), ScriptRefusal>, Fail> {
    let script = read_script(alloc, text.as_bytes())?;
    let (lines, mut piles) = opened::<L>(alloc, &script).ok_or("no lines")?;
    let banks = banks_of(alloc, &script, &lines, &mut piles).ok_or("no banks")?;
    Ok(run_over(alloc, &script, banks, out).ok_or("no desk")?)
}
