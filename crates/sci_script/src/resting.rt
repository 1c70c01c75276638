//! A desk of whole lines that is brought to rest.
ghost use Rattle.std.specs.Prelude.{◌≡◌, ◌+◌, ◌*◌, ◌<◌, ◌≤◌, ℕ, true, length, is_some, All};
ghost use Rattle.sci_core.specs.Whole.{IsSameLine, nodes_of};
ghost use Rattle.sci_script.specs.Nodes.{whole_of};
ghost use Rattle.sci_script.specs.Resting.{ComeToRest};

use crate::commands::Size;
use crate::desk::Desk;
use crate::whole_desk::{LINES, WholeDesk, stir, turn_on};
use sci_core::{AnyWords, Whole};
use sci_ops::{Answer, Steps, Turn, rest};
use sci_port::{Bank, SoloBank};
use sci_words::NodeId;
use std::sync::ledger::Ledger;

// Brings these lines to rest, one after another.
fn rest_all<L: Ledger>(wholes: &mut Vec<Whole<AnyWords>>, size: Size, steps: &mut Steps<L>)
    requires lines { length wholes.old.items ≡ size.lines }
    requires widths { All (λ w. nodes_of w ≡ size.nodes) wholes.old.items }
    ensures rested { (k : ℕ) × (steps.new ≡ steps.old + k) × ComeToRest size.nodes size.lines wholes.old.items k wholes.new.items }
    ensures bound { steps.new ≤ steps.old + size.lines * (size.nodes * size.nodes + 9 * size.nodes) }
    ensures same { (line : ℕ) → IsSameLine (whole_of wholes.old.items line) (whole_of wholes.new.items line) }
    ensures lines { length wholes.new.items ≡ size.lines }
{
    for line in 0..size.lines {
        rest(&mut wholes[usize::from(line)], steps);
    }
}

impl WholeDesk {
    ghost use Rattle.std.specs.Prelude.{◌≢◌, false, None, slice_index_or};
    ghost use Rattle.sci_script.specs.Resting.{AreAtRest, SharedRests, TakesLentOf, EndsCall, EndsIfOpen, EndsCalls};
    ghost use Rattle.sci_script.specs.Shared.{Shared, shared_is_open};
    ghost use Rattle.sci_script.specs.Wholes.{shared_of};

    /// The desk with every line at rest, as for a checkpoint: line after line, as `rest` of `sci_ops` brings one to rest, by turns of
    /// nodes under way alone, as loads take them. So nothing is written, and each line's value stays. Of m lines and n nodes at most
    /// m * (n * n + 9 * n) turns, each counted as one step. The nodes are as they were: a call that is open stays open, with its victim, and
    /// goes on from Idle; none ends. This project's profile.
    pub fn rest<L: Ledger>(self, steps: &mut Steps<L>) -> WholeDesk
        ensures rested { (k : ℕ) × (steps.new ≡ steps.old + k) × SharedRests self.size.lines (shared_of self) k (shared_of result) }
        ensures rest { AreAtRest (shared_of result) }
        ensures bound { steps.new ≤ steps.old + self.size.lines * (self.size.nodes * self.size.nodes + 9 * self.size.nodes) }
        ensures size { result.size ≡ self.size }
    {
        let WholeDesk {
            size,
            bank,
            nodes,
            ..
        } = self;
        let node = bank.node();
        let parts = bank.into_parts();
        let mut wholes = parts.0;
        rest_all(&mut wholes, size, steps);
        let bank = SoloBank::new(wholes, parts.1, node);
        WholeDesk {
            size,
            bank,
            nodes,
            calm: [true; LINES],
        }
    }

    // One turn of the node's open call.
    fn lent_turn(&mut self, node: NodeId) -> Turn
        requires node { node < self.old.size.nodes }
        requires open { shared_is_open (shared_of self.old) node ≡ true }
        ensures lent { TakesLentOf (shared_of self.old) node ((shared_of self.old).nodes node).call result (shared_of self.new) }
        ensures size { self.new.size ≡ self.old.size }
    {
        let place = usize::from(node.get());
        self.bank.seat(node);
        stir(&mut self.calm, &self.nodes[place]);
        turn_on(&mut self.bank, &mut self.nodes[place])
    }

    // Takes the node's open call to its end.
    fn ended<L: Ledger>(&mut self, node: NodeId, steps: &mut Steps<L>) -> Answer
        requires node { node < self.old.size.nodes }
        requires open { shared_is_open (shared_of self.old) node ≡ true }
        requires rest { AreAtRest (shared_of self.old) }
        ensures ends { (k : ℕ) × (steps.new ≡ steps.old + k) × EndsCall node (shared_of self.old) k result (shared_of self.new) }
        ensures bound { steps.new ≤ steps.old + 2 * (3 * self.old.size.nodes + 16) }
        ensures rest { AreAtRest (shared_of self.new) }
        ensures closed { shared_is_open (shared_of self.new) node ≡ false }
        ensures others { (i : ℕ) → i ≢ node → (shared_of self.new).nodes i ≡ (shared_of self.old).nodes i }
        ensures size { self.new.size ≡ self.old.size }
    {
        'turns: loop {
            steps.count();
            match self.lent_turn(node) {
                Turn::Done(answer) => return answer,
                Turn::Moved => {}
                Turn::Waiting => unreachable!(),
            }
        }
    }

    // The answer of the node's open call, taken to its end, where it has one.
    fn ended_if_open<L: Ledger>(&mut self, node: NodeId, steps: &mut Steps<L>) -> Option<Answer>
        requires node { node < self.old.size.nodes }
        requires rest { AreAtRest (shared_of self.old) }
        ensures ends { (k : ℕ) × (steps.new ≡ steps.old + k) × EndsIfOpen (shared_is_open (shared_of self.old) node) node (shared_of self.old) k result (shared_of self.new) }
        ensures bound { steps.new ≤ steps.old + 2 * (3 * self.old.size.nodes + 16) }
        ensures rest { AreAtRest (shared_of self.new) }
        ensures answered { is_some result ≡ shared_is_open (shared_of self.old) node }
        ensures closed { shared_is_open (shared_of self.new) node ≡ false }
        ensures others { (i : ℕ) → i ≢ node → (shared_of self.new).nodes i ≡ (shared_of self.old).nodes i }
        ensures size { self.new.size ≡ self.old.size }
    {
        if !self.open(node) {
            return None;
        }
        Some(self.ended(node, steps))
    }

    /// `rest`, and then each open call is taken to its end alone, node after node from the lowest, as `done` takes it: by the node's own
    /// turns, the victim's eviction first, at most 2 * (3 * n + 16) of n nodes. None waits. `answers` has a place for each
    /// node: the answer of its call, in the order in which they end, or None where it had none open. Afterwards no call is open, and all
    /// is at rest. Each turn is counted as one step. This project's profile.
    pub fn end<L: Ledger>(self, answers: &mut [Option<Answer>], steps: &mut Steps<L>) -> WholeDesk
        requires { length answers.old ≡ self.size.nodes }
        ensures ends { (mid : Shared) × (k turns : ℕ) × (steps.new ≡ steps.old + k + turns) × SharedRests self.size.lines (shared_of self) k mid × AreAtRest mid × EndsCalls self.size.nodes mid turns answers.new (shared_of result) }
        ensures bound { steps.new ≤ steps.old + self.size.lines * (self.size.nodes * self.size.nodes + 9 * self.size.nodes) + self.size.nodes * (2 * (3 * self.size.nodes + 16)) }
        ensures rest { AreAtRest (shared_of result) }
        ensures answered { (node : ℕ) → node < self.size.nodes → is_some (slice_index_or answers.new node None) ≡ shared_is_open (shared_of self) node }
        ensures closed { (node : ℕ) → node < self.size.nodes → shared_is_open (shared_of result) node ≡ false }
        ensures count { length answers.new ≡ length answers.old }
        ensures size { result.size ≡ self.size }
    {
        let mut desk = self.rest(steps);
        for number in 0..desk.size.nodes {
            let place = usize::from(number);
            let node = desk.nodes[place].id();
            let answer = desk.ended_if_open(node, steps);
            answers[place] = answer;
        }
        desk
    }
}
