//! Which nodes go on.
ghost use Rattle.std.specs.Prelude.{◌≡◌, ℕ, ◌<◌, IfSome, IsTrue, MatchOption};
ghost use Rattle.sci_words.specs.Tag.{link_below};
ghost use Rattle.sci_core.specs.Progress.{IsAtRest, IsMover, attaches, goes, goes_in, is_before, is_next, purges_or_adopts, tag_at};
ghost use Rattle.sci_core.specs.Whole.{nodes_of, state_of};

use crate::keeps::Keeps;
use crate::stages::Stage;
use crate::table::found;
use crate::whole::Whole;
use sci_words::{Mem, NodeId, Tag};

// A newcomer attaches this old head.
fn attaches(dirty: bool, has_copy: bool, tag: &Tag) -> bool
    ensures { result ≡ attaches dirty has_copy tag.now }
{
    if dirty {
        !has_copy && found::dirty(tag)
    } else {
        has_copy && found::fresh(tag)
    }
}

// A purging head purges this entry, or adopts it.
fn purges_or_adopts(me: NodeId, tag: &Tag) -> bool
    ensures { result ≡ purges_or_adopts me tag.now }
{
    found::settled_body(tag) || (found::rolling(tag) && !found::names(me, &tag.back))
}

// This entry is Valid, and has the node in front of it.
fn is_next(me: NodeId, tag: &Tag) -> bool
    ensures { result ≡ is_next me tag.now }
{
    found::settled_body(tag) && found::names(me, &tag.back)
}

// This entry may be told, and has the node behind it.
fn is_before(me: NodeId, tag: &Tag) -> bool
    ensures { result ≡ is_before me tag.now }
{
    found::tellable(tag) && found::names(me, &tag.forw)
}

// Whether the node goes on in this step, by memory's word and the tags that its own links name.
fn goes_in(
    me: NodeId,
    memory: &Mem,
    stage: &Stage,
    next: &Option<Tag>,
    before: &Option<Tag>,
) -> bool
    ensures { result ≡ goes_in me memory.now stage.now next.now before.now }
{
    match (stage, next) {
        (Stage::Idle, _) => false,
        (Stage::Queueing { .. }, _) => !memory.lent,
        (
            Stage::InQueue {
                dirty,
                has_copy,
                ..
            },
            Some(tag),
        ) => attaches(*dirty, *has_copy, tag),
        (Stage::Purging { .. }, Some(tag)) => purges_or_adopts(me, tag),
        (Stage::Leaving { .. }, Some(tag)) => {
            !found::names(me, &memory.forw) || is_next(me, tag)
        }
        (Stage::Rolling { told: false, .. }, Some(tag)) => is_next(me, tag),
        (Stage::Rolling { .. }, _) => match before {
            Some(tag) => is_before(me, tag),
            None => false,
        },
        _ => true,
    }
}

impl<K: Keeps> Whole<K> {
    // The tag that a link names.
    fn tag_at(&self, link: Option<NodeId>) -> Option<Tag>
        requires { IsTrue (link_below (nodes_of self.now) link) }
        ensures { result ≡ tag_at (state_of self.now) link }
    {
        match link {
            Some(node) => Some(self.tag(node)),
            None => None,
        }
    }

    // Whether a node goes on.
    pub(crate) fn goes(&self, node: NodeId) -> bool
        requires { node < nodes_of self.now }
        ensures { result ≡ goes (state_of self.now) node }
    {
        let own = self.tag(node);
        let next = self.tag_at(own.forw);
        let before = self.tag_at(own.back);
        goes_in(node, &self.memory, self.stage(node), &next, &before)
    }

    /// A node that isn't Idle and makes an exchange in its next turn, if nobody comes between: its step allows one that finds
    /// its word as it stands. None exactly where every step is Idle, so no line is ever deadlocked. Of several the one with the
    /// lowest number. This project's profile.
    pub fn mover(&self) -> Option<NodeId>
        ensures lowest { IfSome result (λ i. (j : ℕ) → j < i → IsMover (nodes_of self.now) (state_of self.now) j → ⊥) }
        ensures mover { MatchOption result (IsAtRest (state_of self.now)) (λ i. (i < nodes_of self.now) × IsMover (nodes_of self.now) (state_of self.now) i) }
    {
        // What stands is lawful.
        let _ = &self.number;
        for number in 0..self.nodes() {
            let node = NodeId::new(number).unwrap();
            if self.goes(node) {
                return Some(node);
            }
        }
        None
    }
}
