//! Whom a node waits for.
ghost use Rattle.std.specs.Prelude.{◌≡◌, ◌≢◌, ◌⊎◌, ℕ, ◌<◌, IsTrue, MatchOption};
ghost use Rattle.std.specs.Option.{option_or};
ghost use Rattle.sci_words.specs.Tag.{link_below};
ghost use Rattle.sci_core.specs.declared.pending.Pending.TheVariants.{Idle};
ghost use Rattle.sci_core.specs.Progress.{Moves};
ghost use Rattle.sci_core.specs.Waiting.{Waits, borrows, due_at, due_at_link, first_due, is_due, is_in_front, is_taken, sought, works_on};
ghost use Rattle.sci_core.specs.Stage.{stage_of};
ghost use Rattle.sci_core.specs.Whole.{nodes_of, state_of};

use crate::keeps::Keeps;
use crate::stages::Stage;
use crate::table::found;
use crate::whole::Whole;
use sci_words::{Kind, NodeId, Tag};

/// What is in a node's way.
#[derive(Clone, Copy)]
pub(crate) enum Obstacle {
    /// Memory's slot, which a node has in hand.
    Memory,
    /// The tag of this entry, which a node has to itself.
    Taken(NodeId),
    /// The entry in front of this node, on its way to write or to go.
    Front(NodeId),
}

// It has memory's slot in hand.
fn borrows(stage: &Stage) -> bool
    ensures { result ≡ borrows stage.now }
{
    matches!(stage, Stage::Fetching { .. } | Stage::WritingBack)
}

// Somebody has this tag to himself.
fn is_taken(tag: &Tag) -> bool
    ensures { result ≡ is_taken tag.now }
{
    tag.held || matches!(tag.kind, Kind::Purged)
}

// The node, in this stage, has the tag of this entry to itself.
fn works_on(entry: NodeId, node: NodeId, stage: &Stage) -> bool
    ensures { result ≡ works_on entry node stage.now }
{
    match stage {
        Stage::Holding { .. } => node.get() == entry.get(),
        Stage::Copying { forw, .. } => forw.get() == entry.get(),
        Stage::Advancing { victim, .. } | Stage::Clearing { victim, .. } => {
            victim.get() == entry.get()
        }
        _ => false,
    }
}

// An entry with this tag, in this stage, has the node behind it, and is on its way to write or to go.
fn is_in_front(node: NodeId, tag: &Tag, stage: &Stage) -> bool
    ensures { result ≡ is_in_front node tag.now stage.now }
{
    found::names(node, &tag.forw)
        && (matches!(tag.kind, Kind::Purging) || matches!(stage, Stage::Rolling { .. }))
}

// The node, with this tag and in this stage, is what is in the way.
fn is_due(obstacle: &Obstacle, node: NodeId, tag: &Tag, stage: &Stage) -> bool
    ensures { result ≡ is_due obstacle.now node tag.now stage.now }
{
    match obstacle {
        Obstacle::Memory => borrows(stage),
        Obstacle::Taken(entry) => works_on(*entry, node, stage),
        Obstacle::Front(behind) => is_in_front(*behind, tag, stage),
    }
}

impl<K: Keeps> Whole<K> {
    // A node is what is in the way.
    fn is_due(&self, obstacle: &Obstacle, node: NodeId) -> bool
        requires { node < nodes_of self.now }
        ensures { result ≡ is_due obstacle.now node ((state_of self.now).tags node) (stage_of ((state_of self.now).steps node)) }
    {
        is_due(obstacle, node, &self.tag(node), self.stage(node))
    }

    // The lowest node that is what is in the way.
    fn first_due(&self, obstacle: &Obstacle) -> Option<NodeId>
        ensures { result ≡ first_due (state_of self.now) (nodes_of self.now) obstacle.now }
    {
        for number in 0..self.nodes() {
            let node = NodeId::new(number).unwrap();
            if self.is_due(obstacle, node) {
                return Some(node);
            }
        }
        None
    }

    // Who is due at the entry that a link names.
    fn due_at(&self, link: Option<NodeId>) -> Option<NodeId>
        requires { IsTrue (link_below (nodes_of self.now) link) }
        ensures { result ≡ due_at_link (state_of self.now) (nodes_of self.now) link }
    {
        match link {
            Some(entry) => {
                if is_taken(&self.tag(entry)) {
                    self.first_due(&Obstacle::Taken(entry))
                } else {
                    Some(entry)
                }
            }
            None => None,
        }
    }

    // Whom a node in its step would wait for.
    fn sought(&self, node: NodeId) -> Option<NodeId>
        requires { node < nodes_of self.now }
        ensures { result ≡ sought (state_of self.now) (nodes_of self.now) node (stage_of ((state_of self.now).steps node)) ((state_of self.now).tags node).forw ((state_of self.now).tags node).back }
    {
        let own = self.tag(node);
        match (self.stage(node), own.forw) {
            (Stage::Idle, _) => None,
            (Stage::Queueing { .. }, _) => self.first_due(&Obstacle::Memory),
            (Stage::Rolling { told: false, .. }, Some(_)) => self.due_at(own.forw),
            (Stage::Rolling { .. }, _) => {
                let front = self.first_due(&Obstacle::Front(node));
                let back = self.due_at(own.back);
                front.or(back)
            }
            _ => self.due_at(own.forw),
        }
    }

    /// Whom a node waits for: a node that isn't Idle and has to go on first. None exactly where the node is Idle or moves: then it
    /// makes an exchange in its next turn if nobody comes between. A node before the list waits for who has memory's slot in hand; one in
    /// the list for who is due at the entry behind it, or, where that one was told that the node goes, in front of it. So
    /// nobody ever waits in a circle. This project's profile.
    pub fn waits_for(&self, node: NodeId) -> Option<NodeId>
        requires { node < nodes_of self.now }
        ensures waits { MatchOption result (((state_of self.now).steps node ≡ Idle) ⊎ Moves (nodes_of self.now) (state_of self.now) node) (λ y. (y < nodes_of self.now) × ((state_of self.now).steps y ≢ Idle) × Waits (nodes_of self.now) (state_of self.now) node y) }
        ensures no_circle { (height : ℕ → ℕ) × ((i y z : ℕ) → Waits (nodes_of self.now) (state_of self.now) i y → Waits (nodes_of self.now) (state_of self.now) y z → height y < height i) }
    {
        // What stands is lawful.
        let _ = &self.number;
        if self.goes(node) {
            None
        } else {
            self.sought(node)
        }
    }
}
