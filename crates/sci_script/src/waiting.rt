//! Whom a node waits for.
ghost use Rattle.std.specs.Prelude.{◌≡◌, ◌<◌, ◌||◌, ℕ, true, false, MatchOption};
ghost use Rattle.sci_core.specs.declared.pending.Pending.TheVariants.{Idle};
ghost use Rattle.sci_core.specs.Found.{names};
ghost use Rattle.sci_core.specs.Stage.{stage_of};
ghost use Rattle.sci_core.specs.Whole.{nodes_of, state_of};
ghost use Rattle.sci_script.specs.Waiting.{goal_at_work, goal_on, is_kept_out, keeps_waiting, IsAwaited, IsAwaitedOn};
ghost use Rattle.sci_script.specs.Wholes.{shared_of};

use crate::whole_desk::WholeDesk;
use sci_cache::OpenCall;
use sci_core::{AnyWords, Stage, Whole};
use sci_ops::Goal;
use sci_words::{Kind, LineNo, NodeId, Tag};

// The link names this node.
fn names(node: NodeId, link: &Option<NodeId>) -> bool
    ensures { result ≡ names node link.now }
{
    match link {
        Some(named) => named.get() == node.get(),
        None => false,
    }
}

// A node in this stage keeps the Idle entry waiting.
fn keeps_waiting(entry: NodeId, stage: &Stage) -> bool
    ensures { result ≡ keeps_waiting entry stage.now }
{
    match stage {
        Stage::Copying { forw, .. } => forw.get() == entry.get(),
        Stage::Advancing { victim, .. } | Stage::Clearing { victim, .. } => {
            victim.get() == entry.get()
        }
        Stage::Fetching { forw, .. } | Stage::InQueue { forw, .. } => names(entry, forw),
        Stage::Promoted { succ, .. } => succ.get() == entry.get(),
        _ => false,
    }
}

// The lowest of the nodes that keeps the Idle entry waiting.
fn keeper(line: &Whole<AnyWords>, entry: NodeId, nodes: u16) -> Option<NodeId>
    requires { nodes ≡ nodes_of line.now }
    ensures { MatchOption result ((y : ℕ) → y < nodes_of line.now → keeps_waiting entry (stage_of ((state_of line.now).steps y)) ≡ false)
        (λ y. (y < nodes_of line.now) × (keeps_waiting entry (stage_of ((state_of line.now).steps y)) ≡ true)) }
{
    for number in 0..nodes {
        let node = NodeId::new(number).unwrap();
        if keeps_waiting(entry, line.stage(node)) {
            return Some(node);
        }
    }
    None
}

// A turn towards this goal, from Idle with a tag of this kind that nobody holds, waits.
fn is_kept_out(goal: Goal, is_head: bool, kind: Kind) -> bool
    ensures { result ≡ is_kept_out goal is_head kind }
{
    match (goal, kind) {
        (_, Kind::Invalid | Kind::Valid) => false,
        (Goal::Load, Kind::Fresh | Kind::Dirty) | (Goal::Write(_), Kind::Dirty) => false,
        (_, Kind::Fresh | Kind::Dirty) => !is_head,
        _ => true,
    }
}

// A turn towards this goal, from Idle with this tag, waits.
fn is_late(goal: Goal, is_head: bool, tag: &Tag) -> bool
    ensures { result ≡ (tag.now.held || is_kept_out goal is_head tag.now.kind) }
{
    tag.held || is_kept_out(goal, is_head, tag.kind)
}

// Whom an Idle node waits for.
fn idle_waits_for(line: &Whole<AnyWords>, node: NodeId, goal: Goal) -> Option<NodeId>
    requires node { node < nodes_of line.now }
    requires idle { (state_of line.now).steps node ≡ Idle }
    ensures { IsAwaitedOn (nodes_of line.now) (state_of line.now) goal node result }
{
    let is_head = names(node, &line.mem().forw);
    if is_late(goal, is_head, &line.tag(node)) {
        let nodes = line.nodes();
        keeper(line, node, nodes)
    } else {
        None
    }
}

/// Whom a node with this goal waits for on the line, by its words as they stand: a node that isn't Idle. None exactly where the node's
/// next turn, if nobody comes between, makes its exchange or ends the operation. Of a node under way it is `Whole::waits_for`. An Idle one
/// waits for who copies from it or purges it; and, a head that is to write or to go, for who has come in front of it.
pub fn waits_for(line: &Whole<AnyWords>, node: NodeId, goal: Goal) -> Option<NodeId>
    requires { node < nodes_of line.now }
    ensures { IsAwaitedOn (nodes_of line.now) (state_of line.now) goal node result }
{
    match line.stage(node) {
        Stage::Idle => idle_waits_for(line, node, goal),
        _ => line.waits_for(node),
    }
}

// The goal of a call, where it is at work on this line.
fn goal_on(line: LineNo, call: Option<OpenCall>) -> Option<Goal>
    ensures { result ≡ goal_on line call }
{
    let call = call?;
    if call.line_at_work() == line {
        Some(call.goal_at_work())
    } else {
        None
    }
}

impl WholeDesk {
    /// The goal of the operation at work of the node's open call: its victim's eviction first.
    #[inline(always)]
    pub fn goal_at_work(&self, node: NodeId) -> Option<Goal>
        requires { node < self.now.size.nodes }
        ensures { result ≡ goal_at_work ((shared_of self.now).nodes node).call }
    {
        let call = self.open_call(node)?;
        Some(call.goal_at_work())
    }

    /// Whom the node's open call waits for on the line, as `waits_for` says it; nobody where it isn't at work there.
    pub fn waits_for(&self, line: LineNo, node: NodeId) -> Option<NodeId>
        requires line { line < self.now.size.lines }
        requires node { node < self.now.size.nodes }
        ensures { IsAwaited (shared_of self.now) line node result }
    {
        match goal_on(line, self.open_call(node)) {
            Some(goal) => waits_for(self.bank.whole(line), node, goal),
            None => None,
        }
    }
}
