//! A call of a port, with its answer.
use sci_core::{Event, Outcome};
use sci_words::{Mem, NodeId, Tag};

/// One call of a port, and what it answered. Ports don't make them: what contracts say of calls one after another is said of
/// these.
#[derive(Clone, Copy)]
pub enum Call {
    /// A look at the own tag.
    Own(Option<Tag>),
    /// A load of the memory word.
    MemWas(Option<Mem>),
    /// A load of a node's tag.
    TagWas(NodeId, Option<Tag>),
    /// A step.
    Stepped(Event, Outcome),
}
