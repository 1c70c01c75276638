//! What the events of a node showed of a line.

/// What one event of a node showed of the line's value: its eight words, and its stamp. Those of all nodes, in lists, are one
/// history of the line (`IsLegal` in `specs/Legal.antt`), after Culler and Singh's coherence.
#[derive(Clone, Copy, Debug, PartialEq, Eq)]
pub enum Receipt {
    /// The line that the node was given: a newcomer settled for a load (Settle), or the node copied its own bytes (Unhold).
    Read {
        words: [u64; 8],
        stamp: u64,
    },
    /// The same, where a newcomer settled on its way to a write or out of the list. It counts as a Read; of those that follow
    /// one another only the last is kept.
    Passed {
        words: [u64; 8],
        stamp: u64,
    },
    /// The node wrote these words, with this stamp, over the words before, whose stamp was one less (Written).
    Wrote {
        before: [u64; 8],
        words: [u64; 8],
        stamp: u64,
    },
}
