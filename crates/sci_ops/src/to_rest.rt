//! A line is brought to rest, by turns alone.
ghost use Rattle.std.specs.Prelude.{◌≡◌, ◌+◌, ◌*◌, ◌<◌, ◌≤◌, ℕ, true, List, is_some, length};
ghost use Rattle.sci_core.specs.Progress.{IsAtRest};
ghost use Rattle.sci_core.specs.Run.{HasValue};
ghost use Rattle.sci_core.specs.Whole.{IsSameLine, nodes_of, state_of};
ghost use Rattle.sci_core.specs.State.{State};
ghost use Rattle.sci_core.specs.declared.lines.Line.{Line};
ghost use Rattle.sci_ops.specs.Change.{StoresFitting};
ghost use Rattle.sci_ops.specs.Ranking.{ranking};
ghost use Rattle.sci_ops.specs.Rest.{Rests, EndsOne, EndsEach, HasNoCircle, EachWaits, op_at};

use crate::alone::Steps;
use crate::ops::Op;
use sci_core::{Keeps, Whole};
use sci_port::{Receipts, Solo};
use sci_words::NodeId;
use std::sync::ledger::Ledger;

/// Takes turns of nodes that aren't Idle until every node is Idle, as for a checkpoint: of n nodes at most n * n + 9 * n. Each turn
/// is a mover's (`Whole::mover`) and makes an exchange, as a load would take it, and is counted as one step. So nothing is written,
/// and the line's value stays. Calls that are open stay open: a call whose step was taken so goes on from Idle later. No `Receipts` keep
/// what these turns show.
pub fn rest<K: Keeps, L: Ledger>(whole: &mut Whole<K>, steps: &mut Steps<L>)
    ensures rest { IsAtRest (state_of whole.new) }
    ensures bound { steps.new ≤ steps.old + (nodes_of whole.old * nodes_of whole.old + 9 * nodes_of whole.old) }
    ensures turns { (k : _) × (steps.new ≡ steps.old + k) × Rests (nodes_of whole.old) (K.fits whole.old.keep whole.old.number) (state_of whole.old) k (state_of whole.new) }
    ensures value { (v : _) → HasValue (nodes_of whole.old) (K.fits whole.old.keep whole.old.number) (state_of whole.old) v → HasValue (nodes_of whole.old) (K.fits whole.old.keep whole.old.number) (state_of whole.new) v }
    ensures same { IsSameLine whole.old whole.new }
{
    // What stands is lawful.
    let _ = whole.nodes();
    while let Some(node) = whole.mover() {
        steps.count();
        let mut load = Op::load();
        let _ = load.turn_on(whole, node);
    }
}

// The operation of a node, taken to its end if it hasn't ended.
fn ended<K: Keeps, L: Ledger>(
    whole: &mut Whole<K>,
    node: NodeId,
    op: Op,
    steps: &mut Steps<L>,
) -> Op
    requires node { node < nodes_of whole.old }
    requires fits { StoresFitting (K.fits whole.old.keep whole.old.number) op.goal }
    requires rest { IsAtRest (state_of whole.old) }
    ensures ends { (k : _) × (steps.new ≡ steps.old + k) × EndsOne (nodes_of whole.old) (K.fits whole.old.keep whole.old.number) node op op.answer (state_of whole.old) k result (state_of whole.new) }
    ensures rest { IsAtRest (state_of whole.new) }
    ensures bound { steps.new ≤ steps.old + (3 * nodes_of whole.old + 16) }
    ensures same { IsSameLine whole.old whole.new }
{
    if op.answer().is_some() {
        return op;
    }
    let mut left = op;
    let mut receipts = Receipts::new(whole.allocator());
    let _ = left.alone(&mut Solo::new(whole, &mut receipts, node), steps);
    left
}

/// `rest`, and then each operation that hasn't ended is taken to its end alone, in the order of their nodes: of n nodes at most
/// n * n + 9 * n turns, and then 3 * n + 16 for each node, each counted as one step. `ops` has the operation of each node. One that has ended
/// stays as it is. No `Receipts` keep what these turns show.
pub fn end<K: Keeps, L: Ledger>(whole: &mut Whole<K>, ops: &mut [Op], steps: &mut Steps<L>)
    requires count { length ops.old ≡ nodes_of whole.old }
    requires fit { (i : ℕ) → StoresFitting (K.fits whole.old.keep whole.old.number) (op_at ops.old i).goal }
    ensures ends { (mid : _) × (k turns : _) × (steps.new ≡ steps.old + k + turns) × Rests (nodes_of whole.old) (K.fits whole.old.keep whole.old.number) (state_of whole.old) k mid × IsAtRest mid × EndsEach (nodes_of whole.old) (K.fits whole.old.keep whole.old.number) (nodes_of whole.old) ops.old ops.new mid turns (state_of whole.new) }
    ensures rest { IsAtRest (state_of whole.new) }
    ensures bound { steps.new ≤ steps.old + (nodes_of whole.old * nodes_of whole.old + 9 * nodes_of whole.old) + nodes_of whole.old * (3 * nodes_of whole.old + 16) }
    ensures ended { (i : ℕ) → i < nodes_of whole.old → is_some (op_at ops.new i).answer ≡ true }
    ensures count { length ops.new ≡ length ops.old }
    ensures same { IsSameLine whole.old whole.new }
{
    rest(whole, steps);
    for number in 0..whole.nodes() {
        let node = NodeId::new(number).unwrap();
        let place = usize::from(number);
        ops[place] = ended(whole, node, ops[place], steps);
    }
}

/// How far a line is from rest at most, in any lawful state: it computes nothing, and its contract is the law. So where only nodes
/// that aren't Idle take turns in one go, in any order, of n nodes all are Idle after at most n * n + 9 * n exchanges: each leads
/// nearer to rest (`Op::turn_on`), and wherever a step is pending there is a next one (`Whole::mover`). This project's profile.
pub fn rest_is_near<K: Keeps>()
    ensures { (n : ℕ) (keep : K) (number : ℕ) (s : State) (v : Line) → HasValue n (K.fits keep number) s v → ranking n s ≤ n * n + 9 * n }
{}

/// From a node that waits at most n - 1 links lead to one that doesn't, of n nodes: it computes nothing, and its contract is the
/// law. `Whole::waits_for` gives each link, and its clause `no_circle` what the law wants of the line. This project's profile.
pub fn few_wait_in_a_row()
    ensures { (n : ℕ) (s : State) (nodes : List ℕ) → HasNoCircle n s → EachWaits n s nodes → length nodes ≤ n }
{}
