//! A turn of a desk of whole lines, and what passes in it.
ghost use Rattle.std.specs.Prelude.{◌≡◌, ◌≢◌, ◌<◌, ℕ, true, Some, Ok, length, is_some, IfSome};
ghost use Rattle.sci_core.specs.Stage.{stage_of};
ghost use Rattle.sci_core.specs.Whole.{nodes_of, state_of};
ghost use Rattle.sci_ops.specs.declared.goals.Goal.{Goal};
ghost use Rattle.sci_ops.specs.Alone.{TakesTurn};
ghost use Rattle.sci_ops.specs.Table.{begun};
ghost use Rattle.sci_cache.specs.Nodes.{IsSameNode, TurnsBy, line_by, node_after};
ghost use Rattle.sci_script.specs.Nodes.{TurnsOverOf, load_on, loader, whole_of};
ghost use Rattle.sci_script.specs.Passed.{PassesOn, PassesOverOf};
ghost use Rattle.sci_script.specs.Resting.{any};
ghost use Rattle.sci_script.specs.Turns.{TurnsOn};

use crate::desk::Toward;
use crate::whole_desk::{WholeDesk, stir};
use sci_cache::{Node, turn_at};
use sci_core::{AnyWords, Line, Pending, Stage};
use sci_ops::{Goal, Turn};
use sci_port::{Bank, Passed, SoloBank, WatchedBank};
use sci_words::{LineNo, NodeId};

/// One turn of the node's call, over the bank that it is seated at, and what passed.
#[tactic(auto, using(sci_ops::proofs::Storing::any_store_fits))]
#[inline(always)]
fn watched_turn_on(bank: &mut SoloBank<AnyWords>, node: &mut Node, passed: &mut Passed) -> Turn
    requires seat { bank.old.node ≡ node.old.id }
    requires lines { length bank.old.wholes.items ≡ node.old.lines }
    requires open { is_some node.old.call ≡ true }
    ensures turns { TurnsOverOf bank.old.wholes.items node.old node.old.call result bank.new.wholes.items node.new }
    ensures passed { PassesOverOf bank.old.wholes.items node.old node.old.call bank.new.wholes.items passed.old passed.new }
    ensures below { IfSome node.old.call (λ c. line_by c.victim c.line < node.old.lines) }
    ensures same_node { IsSameNode node.old node.new }
    ensures same_lines { length bank.new.wholes.items ≡ length bank.old.wholes.items }
    ensures same_widths { (line : ℕ) → nodes_of (whole_of bank.new.wholes.items line) ≡ nodes_of (whole_of bank.old.wholes.items line) }
{
    match node.turn(&mut WatchedBank { bank, passed }) {
        Ok(turn) => turn,
        Err(_) => unreachable!(),
    }
}

/// One turn of a load on the line by the bank's node.
fn load_turn<B: Bank>(bank: &mut B, line: LineNo) -> Turn
    requires { line < (B.way bank.old).lines }
    ensures turns { TurnsBy B.gives B.at_step (loader (B.way bank.old).node line) (Some (load_on line)) bank.old (Ok result) bank.new (node_after (loader (B.way bank.old).node line) (load_on line) result) }
    ensures same_way { B.way bank.new ≡ B.way bank.old }
    ensures same_nodes { (m : ℕ) → B.nodes_on bank.new m ≡ B.nodes_on bank.old m }
{
    let mut shown = Line::ZERO;
    turn_at(bank, line, &Goal::Load, &mut shown)
}

/// One turn of a load on the line by the node that the bank is seated at, and what passed.
fn watched_load_on(bank: &mut SoloBank<AnyWords>, line: LineNo, passed: &mut Passed) -> Turn
    requires { line < length bank.old.wholes.items }
    ensures made { TurnsOn (nodes_of (whole_of bank.old.wholes.items line)) bank.old.node (begun Goal.Load) (state_of (whole_of bank.old.wholes.items line)) result (state_of (whole_of bank.new.wholes.items line)) }
    ensures lent { TakesTurn (nodes_of (whole_of bank.old.wholes.items line)) any bank.old.node (begun Goal.Load) (state_of (whole_of bank.old.wholes.items line)) result (state_of (whole_of bank.new.wholes.items line)) }
    ensures passed { PassesOn (nodes_of (whole_of bank.old.wholes.items line)) bank.old.node line (begun Goal.Load) (state_of (whole_of bank.old.wholes.items line)) (state_of (whole_of bank.new.wholes.items line)) passed.old passed.new }
    ensures others { (m : ℕ) → m ≢ line → whole_of bank.new.wholes.items m ≡ whole_of bank.old.wholes.items m }
    ensures same_lines { length bank.new.wholes.items ≡ length bank.old.wholes.items }
    ensures same_widths { (m : ℕ) → nodes_of (whole_of bank.new.wholes.items m) ≡ nodes_of (whole_of bank.old.wholes.items m) }
{
    load_turn(&mut WatchedBank { bank, passed }, line)
}

impl WholeDesk {
    ghost use Rattle.sci_script.specs.Event.{Turned, Rested, IsNoEnd, IsTurned};
    ghost use Rattle.sci_script.specs.Passed.{shared_passes, toward_passes};
    ghost use Rattle.sci_script.specs.Size.{IsBelow};
    ghost use Rattle.sci_script.specs.Shared.{shared_far, shared_is_open, shared_does};
    ghost use Rattle.sci_script.specs.Wholes.{shared_of};

    /// One turn of the node's open call, as `turn`, and what passed in it.
    #[inline(always)]
    pub fn watched_turn(&mut self, node: NodeId, passed: &mut Passed) -> Turn
        requires node { node < self.old.size.nodes }
        requires open { shared_is_open (shared_of self.old) node ≡ true }
        ensures turned { shared_does (shared_of self.old) (Turned node result) (shared_of self.new) }
        ensures passed { shared_passes (shared_of self.old) node (shared_of self.new) passed.old passed.new }
        ensures line { passed.old.line ≡ 0 → passed.new.line < self.new.size.lines }
        ensures open { IsNoEnd result → shared_is_open (shared_of self.new) node ≡ true }
        ensures size { self.new.size ≡ self.old.size }
    {
        let place = usize::from(node.get());
        self.bank.seat(node);
        stir(&mut self.calm, &self.nodes[place]);
        watched_turn_on(&mut self.bank, &mut self.nodes[place], passed)
    }

    /// One turn towards rest, as `rest_turn`, and what passed in it.
    pub fn watched_rest_turn(&mut self, line: LineNo, passed: &mut Passed) -> Toward
        requires line { line < self.old.size.lines }
        ensures turned { shared_does (shared_of self.old) (Rested line result) (shared_of self.new) }
        ensures passed { toward_passes (shared_of self.old) line result (shared_of self.new) passed.old passed.new }
        ensures line { passed.old.line ≡ 0 → passed.new.line < self.new.size.lines }
        ensures node { IsBelow self.old.size.nodes result }
        ensures nearer { IsTurned result → shared_far (shared_of self.new) line < shared_far (shared_of self.old) line }
        ensures size { self.new.size ≡ self.old.size }
    {
        let place = usize::from(line);
        if self.calm[place] {
            return Toward::Reached;
        }
        let Some(node) = self.bank.whole(line).mover() else {
            self.calm[place] = true;
            return Toward::Reached;
        };
        self.bank.seat(node);
        watched_load_on(&mut self.bank, line, passed);
        Toward::Turned(node)
    }

    /// The node's pending step on the line.
    pub fn pending(&mut self, line: LineNo, node: NodeId) -> Pending
        requires line { line < self.old.size.lines }
        requires node { node < self.old.size.nodes }
        ensures value { result ≡ ((shared_of self.old).lines line).steps node }
        ensures same { shared_of self.new ≡ shared_of self.old }
        ensures size { self.new.size ≡ self.old.size }
    {
        self.bank.seat(node);
        Bank::pending(&self.bank, line)
    }

    /// The same, but for the bytes that it keeps.
    pub fn stage(&mut self, line: LineNo, node: NodeId) -> Stage
        requires line { line < self.old.size.lines }
        requires node { node < self.old.size.nodes }
        ensures value { result ≡ stage_of (((shared_of self.old).lines line).steps node) }
        ensures same { shared_of self.new ≡ shared_of self.old }
        ensures size { self.new.size ≡ self.old.size }
    {
        self.bank.seat(node);
        Bank::stage(&self.bank, line)
    }
}
