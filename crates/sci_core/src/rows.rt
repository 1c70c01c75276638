//! What an event's exchange does.
use crate::lines::Line;
use crate::pending::Pending;
use sci_words::{Mem, NodeId, Tag};

/// The one word that an exchange changes, with its values before and after.
#[derive(Clone, Copy, Debug, PartialEq, Eq)]
pub enum Change {
    /// Of memory's word.
    OfMemory {
        before: Mem,
        after: Mem,
    },
    /// Of this node's tag.
    OfTag {
        node: NodeId,
        before: Tag,
        after: Tag,
    },
}

/// Whose slot.
#[derive(Clone, Copy, Debug, PartialEq, Eq)]
pub enum Place {
    /// Memory's.
    Memory,
    /// This node's.
    Node(NodeId),
}

/// What an exchange does with a slot: nothing, takes its line into the actor's hand, or gives this line back into it.
#[derive(Clone, Copy, Debug, PartialEq, Eq)]
pub enum Carry {
    /// No slot moves.
    Stays,
    /// The line of this slot comes into the actor's hand.
    Takes(Place),
    /// This line goes back into this slot.
    Gives(Place, Line),
}

/// The exchange that an event asks for: one row of the table of exchanges.
#[derive(Clone, Copy, Debug, PartialEq, Eq)]
pub struct Exchange {
    pub change: Change,
    pub carry: Carry,
    /// The actor's pending step after the exchange.
    pub after: Pending,
    /// The line that the exchange answers.
    pub answer: Option<Line>,
}
