//! The content of a line.

/// A line's content: eight words, and a stamp that counts its writes.
#[derive(Clone, Copy, Debug, PartialEq, Eq, Hash)]
pub struct Line {
    pub words: [u64; 8],
    pub stamp: u64,
}

impl Line {
    /// All zeros.
    pub const ZERO: Line = Line {
        words: [0; 8],
        stamp: 0,
    };
}
