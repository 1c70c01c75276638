//! Where a line of text stands in a dump.

use sci_words::Layout;

/// The first line of a dump.
#[derive(Clone, Copy, Debug, PartialEq, Eq, Drop)]
pub struct DumpHead {
    pub layout: Layout,
    /// How many nodes each line has: 1 to 1,024, and of layout 1 at most 64.
    pub nodes: u16,
    /// How many closed lines there are: 1 to 1,024.
    pub lines: u16,
}

/// What stands in front of a line of text.
#[derive(Clone, Copy, Debug, PartialEq, Eq, Drop)]
pub enum DumpPlace {
    /// Nothing.
    Start,
    /// The head.
    Head(DumpHead),
    /// A row of this line of the memory, below the head's `lines`: its first, and `node` is 0; or that of the node before `node`, which
    /// is at most the head's `nodes`.
    Line {
        head: DumpHead,
        line: u64,
        node: u64,
    },
    /// `end`.
    End,
}

/// A line of text of a dump, or its end.
#[derive(Debug, Drop)]
pub struct DumpRow {
    /// Which it is, counted from 1.
    pub number: u64,
    /// Its bytes, through its line feed; of a longer line the first 1,024; none at the end of the text.
    pub text: Vec<u8>,
    /// What stands in front of it.
    pub place: DumpPlace,
}
