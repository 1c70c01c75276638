//! Whether the words of a line of three nodes, beside what each node is doing, are lawful: by a plain walk along the links.
mod changes;

use sci_core::Pending;
use sci_words::{Kind, Mem, MemState, NodeId, Tag};

const NODES: u16 = 3;

const INVALID: Tag = Tag {
    kind: Kind::Invalid,
    held: false,
    forw: None,
    back: None,
};

/// A line as it is read: memory's word, and of each node its pending step and its tag.
#[derive(Clone, Copy)]
pub(crate) struct Words {
    pub mem: Mem,
    pub nodes: [(Pending, Tag); 3],
}

/// The nodes along the forward links.
type Chain = [Option<NodeId>; 3];

impl Words {
    /// Of a line that nobody has used.
    pub(crate) const UNUSED: Words = Words {
        mem: Mem {
            state: MemState::Home,
            lent: false,
            forw: None,
        },
        nodes: [(Pending::Idle, INVALID); 3],
    };

    fn at(&self, node: NodeId) -> (Pending, Tag) {
        match self.nodes.get(usize::from(node.get())) {
            Some(own) => *own,
            None => (Pending::Idle, INVALID),
        }
    }

    // The nodes along the forward links. None: one of them comes twice, or there is none of its number.
    fn chain(&self) -> Option<Chain> {
        let mut chain = [None; 3];
        let mut next = self.mem.forw;
        for entry in chain.iter_mut() {
            *entry = next;
            if let Some(node) = next {
                next = self.at(node).1.forw;
            }
        }
        (next.is_none() && is_once(&chain)).then_some(chain)
    }

    // Whether an entry may stand behind another. A front stands behind one that waits for it, or leaves; a body entry behind a front
    // or a body entry, which is its back link but for ROLL and PURGING.
    fn may_follow(&self, before: NodeId, entry: NodeId) -> bool {
        let (tag, kind) = (self.at(entry).1, self.at(before).1.kind);
        if !is_body(tag.kind) {
            return matches!(kind, Kind::Queued | Kind::Leaving);
        }
        matches!(kind, Kind::Roll | Kind::Purging) || tag.back == Some(before)
    }

    // Whether each entry of the chain may stand where it stands. The head is a front.
    fn are_linked(&self, chain: &Chain) -> bool {
        let mut before = None;
        for entry in chain {
            let fits = match (before, *entry) {
                (_, None) => true,
                (None, Some(head)) => !is_body(self.at(head).1.kind),
                (Some(before), Some(entry)) => self.may_follow(before, entry),
            };
            if !fits {
                return false;
            }
            before = *entry;
        }
        true
    }

    // Whether no entry of the chain is dirty but the first valid one, and that only under GONE; and none is FRESH there.
    fn is_dirty_first(&self, chain: &Chain) -> bool {
        let mut may_be_dirty = self.mem.state == MemState::Gone;
        for entry in chain {
            let Some(node) = entry else {
                return true;
            };
            let kind = self.at(*node).1.kind;
            let is_stale = kind == Kind::Fresh && self.mem.state == MemState::Gone;
            if is_stale || is_dirty(kind) && !may_be_dirty {
                return false;
            }
            may_be_dirty = may_be_dirty
                && !is_dirty(kind)
                && !matches!(kind, Kind::Fresh | Kind::Convert | Kind::Valid);
        }
        true
    }

    // Whether a node has purged this one, and is to clear it.
    fn is_cleared(&self, node: NodeId) -> bool {
        for (step, _) in &self.nodes {
            if matches!(step, Pending::Clearing { victim, .. } if *victim == node) {
                return true;
            }
        }
        false
    }

    // Whether a node has purged this one, and has to step over it or to clear it.
    fn is_victim(&self, node: NodeId) -> bool {
        for (step, _) in &self.nodes {
            if matches!(step, Pending::Advancing { victim, .. } if *victim == node) {
                return true;
            }
        }
        self.is_cleared(node)
    }

    // Whether a node's bytes are read, by itself or by the one in front of it.
    fn is_read(&self, node: NodeId) -> bool {
        for (step, _) in &self.nodes {
            if matches!(step, Pending::Copying { forw, .. } if *forw == node) {
                return true;
            }
        }
        matches!(self.at(node).0, Pending::Holding { .. })
    }

    // Whether a node has memory's bytes in hand.
    fn is_lent(&self) -> bool {
        for (step, _) in &self.nodes {
            if matches!(step, Pending::Fetching { .. } | Pending::WritingBack { .. }) {
                return true;
            }
        }
        false
    }

    // Whether a node is in no list, by what it is doing.
    fn is_outside(&self, node: NodeId) -> bool {
        match self.at(node) {
            (Pending::Idle, tag) => {
                tag.kind == Kind::Invalid || tag.kind == Kind::Purged && self.is_cleared(node)
            }
            (Pending::Queueing { .. } | Pending::WritingBack { .. }, _) => true,
            (Pending::Parted { .. } | Pending::Unlinked { .. }, _) => true,
            _ => false,
        }
    }

    // Whether a node's tag is what its step says, and it stands in the chain exactly where its step says so.
    fn is_node_lawful(&self, chain: &Chain, node: NodeId) -> bool {
        let (step, tag) = self.at(node);
        let is_held = tag.held;
        is_own_word(&step, tag)
            && is_held == self.is_read(node)
            && (tag.kind == Kind::Purged) == self.is_victim(node)
            && self.is_outside(node) != chain.contains(&Some(node))
    }

    // The same of each node.
    fn are_nodes_lawful(&self, chain: &Chain) -> bool {
        for number in 0..NODES {
            let is_lawful = match NodeId::new(number) {
                Some(node) => self.is_node_lawful(chain, node),
                None => false,
            };
            if !is_lawful {
                return false;
            }
        }
        true
    }

    /// Whether they are lawful: the forward links from memory's word reach each valid sharer once; back links agree with them
    /// but behind ROLL and PURGING; at most one sharer is dirty, and it is the first valid one; and each tag is what its node's
    /// step says.
    pub(crate) fn are_lawful(&self) -> bool {
        let Some(chain) = self.chain() else {
            return false;
        };
        self.are_nodes_lawful(&chain)
            && self.are_linked(&chain)
            && self.is_dirty_first(&chain)
            && self.mem.well_formed()
            && self.mem.lent == self.is_lent()
    }
}

// Whether each entry is a node of the line, and comes once.
fn is_once(chain: &Chain) -> bool {
    for entry in chain {
        if entry.is_some_and(|node| node.get() >= NODES) {
            return false;
        }
    }
    let [head, second, third] = *chain;
    let is_twice = head.is_some() && (head == second || head == third);
    !is_twice && (second.is_none() || second != third)
}

fn is_body(kind: Kind) -> bool {
    matches!(kind, Kind::Valid | Kind::Roll | Kind::Purged)
}

fn is_dirty(kind: Kind) -> bool {
    matches!(kind, Kind::Dirty | Kind::Purging)
}

// Whether a tag is what a node's step says of it. The links of some steps may be changed by others.
fn is_own_word(step: &Pending, tag: Tag) -> bool {
    let (kind, forw, back) = match *step {
        Pending::Idle => {
            return matches!(
                tag.kind,
                Kind::Fresh | Kind::Dirty | Kind::Valid | Kind::Invalid | Kind::Purged
            );
        }
        Pending::Holding { word, .. } => (word.kind, word.forw, word.back),
        Pending::Queueing { forw }
        | Pending::Fetching { forw, .. }
        | Pending::InQueue { forw, .. }
        | Pending::Ready { forw, .. } => (Kind::Queued, forw, None),
        Pending::Copying { forw, .. } => (Kind::Queued, Some(forw), None),
        Pending::Converting { forw, .. } => (Kind::Convert, forw, None),
        Pending::Purging { .. } | Pending::Clearing { .. } => (Kind::Purging, tag.forw, None),
        Pending::Advancing { victim, .. } => (Kind::Purging, Some(victim), None),
        Pending::Leaving { .. } => (Kind::Leaving, tag.forw, None),
        Pending::Promoted { succ, .. } => (Kind::Leaving, Some(succ), None),
        Pending::WritingBack { .. } => (Kind::Leaving, None, None),
        Pending::Parted { forw } => (Kind::Leaving, forw, None),
        Pending::Rolling { .. } => (Kind::Roll, tag.forw, tag.back),
        Pending::Unlinked { forw, back } => (Kind::Roll, forw, Some(back)),
    };
    tag.kind == kind && tag.forw == forw && tag.back == back
}
