//! The pending step of a node, but for the line that it keeps.
use sci_words::{NodeId, Tag};

/// A pending step, but for its line: what a `Whole` keeps beside the lines, each in its own slot. `Pending` says what each
/// step is.
#[derive(Clone, Copy, Debug)]
pub enum Stage {
    /// Nothing.
    Idle,
    /// Reading a valid entry's bytes, behind the held bit.
    Holding {
        word: Tag,
    },
    /// About to prepend itself before the head that it found.
    Queueing {
        forw: Option<NodeId>,
    },
    /// Copying memory's bytes.
    Fetching {
        forw: Option<NodeId>,
        dirty: bool,
    },
    /// In the list, in front of the entry that it found.
    InQueue {
        forw: Option<NodeId>,
        dirty: bool,
        has_copy: bool,
    },
    /// Copying the old head's bytes.
    Copying {
        forw: NodeId,
        word: Tag,
    },
    /// About to settle with the bytes that it has.
    Ready {
        forw: Option<NodeId>,
        dirty: bool,
    },
    /// A fresh head on its way to write; turned once the home is GONE.
    Converting {
        forw: Option<NodeId>,
        turned: bool,
    },
    /// Purging the entries behind it. `seen` is the forward link that it last saw in its own tag.
    Purging {
        seen: Option<Option<NodeId>>,
    },
    /// It has purged the victim, and is to take the victim's forward link.
    Advancing {
        victim: NodeId,
        word: Tag,
    },
    /// It is to clear the purged victim, which has left the list.
    Clearing {
        victim: NodeId,
        word: Tag,
    },
    /// A head on its way out.
    Leaving {
        dirty: bool,
        seen: Option<Option<NodeId>>,
    },
    /// A leaving head whose successor has become a head too.
    Promoted {
        dirty: bool,
        succ: NodeId,
    },
    /// An only sharer that gives its bytes back to memory.
    WritingBack,
    /// It has left the list.
    Parted {
        forw: Option<NodeId>,
    },
    /// A body entry on its way out. `seen` holds the links that it last saw in its own tag.
    Rolling {
        told: bool,
        seen: Option<(Option<NodeId>, NodeId)>,
    },
    /// Both neighbours know: it has left the list.
    Unlinked {
        forw: Option<NodeId>,
        back: NodeId,
    },
}
