//! A node's calls, each through its door. They are told one after another.
ghost use Rattle.std.specs.Prelude.{◌≡◌, ◌<◌, ◌≤◌, ℕ, List, [], ◌∷◌, slice_index, true, IfOk, IfErr, OnOk, OnErr};
ghost use Rattle.sci_ops.specs.declared.goals.Goal as goal;
ghost use Rattle.sci_ops.specs.declared.goals.Write as write;
ghost use Rattle.sci_ops.specs.Change.{StoresFitting};
ghost use Rattle.sci_cache.specs.declared.refusals.NodeRefusal as refusals;
ghost use Rattle.sci_work.specs.Adding.{HasAdded};
ghost use Rattle.sci_work.specs.Made.{ComesInCall, HasWatched, IsBankOf, IsLineRefusal, IsStillBankOf, Made};
ghost use Rattle.sci_work.specs.Workers.{HasWorked, IsReady};

use crate::doors::Door;
use crate::gates::Gate;
use crate::refusals::WorkRefusal;
use crossbeam_utils::Backoff;
use sci_cache::{Node, NodeRefusal};
use sci_ops::Answer;
use sci_port::Bank;
use sci_words::{Kind, LineNo, Tag};
use std::sync::Wait;

// The refusals that a call has on a line that there is, where none is open.
#[inline(always)]
fn refused(refusal: NodeRefusal) -> WorkRefusal
    requires { IsLineRefusal refusal }
    ensures comes { ComesInCall result }
    ensures spent { refusal ≡ refusals.NodeRefusal.StampsSpent → result ≡ WorkRefusal.StampsSpent }
    ensures memory { refusal ≡ refusals.NodeRefusal.OutOfMemory → result ≡ WorkRefusal.OutOfMemory }
{
    match refusal {
        NodeRefusal::OutOfMemory => WorkRefusal::OutOfMemory,
        NodeRefusal::StampsSpent => WorkRefusal::StampsSpent,
        NodeRefusal::BadWord
        | NodeRefusal::BadLine
        | NodeRefusal::BadCapacity
        | NodeRefusal::CallOpen
        | NodeRefusal::NoCall => unreachable!(),
    }
}

/// The words of a line. The refusals: 25 and 20 before the call, then 7.
#[inline(always)]
pub(crate) fn load<R: Wait, G: Gate, B: Bank>(
    rt: &R,
    door: &mut Door<'_, G>,
    node: &mut Node,
    bank: &mut B,
    line: LineNo,
) -> Result<[u64; 8], WorkRefusal>
    requires ready { IsBankOf (B.way bank.old) node.old }
    requires line { line < (B.way bank.old).lines }
    ensures fits { IfOk result (λ words. B.Keep.fits (B.keep bank.old) line words) }
    ensures err { IfErr result ComesInCall }
    ensures made { Made B.gives B.readies B.at_step [] node.old bank.old node.new bank.new }
    ensures still { IsStillBankOf node.old.keeps [] B.way B.keep B.at_step B.gives B.readies B.receipts bank.old node.new bank.new }
{
    door.enter()?;
    let answer = node.load(rt, bank, line);
    door.leave();
    match answer {
        Ok(Answer::Seen { words, .. }) => Ok(words),
        Ok(_) => unreachable!(),
        Err(refusal) => Err(refused(refusal)),
    }
}

// How many more looks a node takes at its own tag, at most, behind the first and before it loads the line again.
const LOOKS: u32 = 64;

/// Waits while the node's own tag stays as it is: no other node writes to the line before it has changed that. Refusal 25.
fn watch<G: Gate, B: Bank>(
    door: &Door<'_, G>,
    bank: &mut B,
    line: LineNo,
) -> Result<(), WorkRefusal>
    requires line { line < (B.way bank.old).lines }
    ensures err { IfErr result (λ e. e ≡ WorkRefusal.Stopped) }
    ensures watched { HasWatched B.way B.keep B.at_step B.gives B.readies B.receipts bank.old bank.new }
{
    let seen = bank.own(line);
    if let Some(
        Tag {
            kind: Kind::Invalid,
            ..
        },
    ) = seen
    {
        return Ok(());
    }
    let backoff = Backoff::new();
    for _ in 0..LOOKS {
        door.unstopped()?;
        backoff.snooze();
        let found = bank.own(line);
        if found != seen {
            return Ok(());
        }
    }
    Ok(())
}

/// The words of a line, once its word 0 is at least this number.
#[inline(always)]
pub(crate) fn load_until<R: Wait, G: Gate, B: Bank>(
    rt: &R,
    door: &mut Door<'_, G>,
    node: &mut Node,
    bank: &mut B,
    line: LineNo,
    number: u64,
) -> Result<[u64; 8], WorkRefusal>
    requires ready { IsBankOf (B.way bank.old) node.old }
    requires line { line < (B.way bank.old).lines }
    ensures fits { IfOk result (λ words. B.Keep.fits (B.keep bank.old) line words) }
    ensures number { IfOk result (λ words. number ≤ slice_index words 0) }
    ensures err { IfErr result ComesInCall }
    ensures made { Made B.gives B.readies B.at_step [] node.old bank.old node.new bank.new }
    ensures still { IsStillBankOf node.old.keeps [] B.way B.keep B.at_step B.gives B.readies B.receipts bank.old node.new bank.new }
{
    for _ in rt.forever() {
        let words = load(rt, door, node, bank, line)?;
        if words[0] >= number {
            return Ok(words);
        }
        watch(door, bank, line)?;
    }
    unreachable!()
}

/// Replaces a line's words. The refusals: 25 and 20 before the call, then 7 and 11.
#[inline(always)]
pub(crate) fn write_line<R: Wait, G: Gate, B: Bank>(
    rt: &R,
    door: &mut Door<'_, G>,
    node: &mut Node,
    bank: &mut B,
    line: LineNo,
    words: [u64; 8],
) -> Result<(), WorkRefusal>
    requires ready { IsBankOf (B.way bank.old) node.old }
    requires line { line < (B.way bank.old).lines }
    requires fits { B.Keep.fits (B.keep bank.old) line words }
    ensures err { IfErr result ComesInCall }
    ensures made { OnOk result (Made B.gives B.readies B.at_step ((line, words) ∷ []) node.old bank.old node.new bank.new) }
    ensures none { OnErr result (Made B.gives B.readies B.at_step [] node.old bank.old node.new bank.new) }
    ensures still { (ws : List (ℕ × List ℕ)) × IsStillBankOf node.old.keeps ws B.way B.keep B.at_step B.gives B.readies B.receipts bank.old node.new bank.new × OnOk result (ws ≡ (line, words) ∷ []) }
{
    door.enter()?;
    let answer = node.write_line(rt, bank, line, words);
    door.leave();
    match answer {
        Ok(_) => Ok(()),
        Err(refusal) => Err(refused(refusal)),
    }
}

/// Adds 1 to word 0 of a line. The refusals: 25 and 20 before the call, then 7 and 11.
#[inline(always)]
pub(crate) fn add_one<R: Wait, G: Gate, B: Bank>(
    rt: &R,
    door: &mut Door<'_, G>,
    node: &mut Node,
    bank: &mut B,
    line: LineNo,
) -> Result<(), WorkRefusal>
    requires ready { IsReady B.at_step (B.way bank.old) node.old bank.old }
    requires line { line < (B.way bank.old).lines }
    requires fits { StoresFitting (B.Keep.fits (B.keep bank.old) line) (goal.Goal.Write (write.Write.Add 0 1)) }
    ensures err { IfErr result ComesInCall }
    ensures worked { (ws : List (ℕ × List ℕ)) × HasWorked node.old.keeps ws B.way B.keep B.at_step B.gives B.readies B.receipts bank.old node.new bank.new }
    ensures added { node.old.keeps ≡ true → OnOk result (HasAdded 1 (B.receipts bank.old line).list (B.receipts bank.new line).list) }
{
    door.enter()?;
    let answer = node.add(rt, bank, line, 0, 1);
    door.leave();
    match answer {
        Ok(_) => Ok(()),
        Err(refusal) => Err(refused(refusal)),
    }
}
