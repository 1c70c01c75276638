//! What turns and operations answer.
ghost use Rattle.std.specs.Prelude.{◌≡◌};
ghost use Rattle.sci_ops.specs.TurnKinds.{turn_with};
ghost use Rattle.sci_ops.specs.Plan.{turn_after};

use sci_core::{Line, Outcome};

/// What an operation ends with.
#[derive(Clone, Copy, Debug, PartialEq, Eq)]
pub enum Answer {
    /// A load: the line that the node's slot held while the node was a valid sharer, or with which it became one.
    Seen { words: [u64; 8], stamp: u64 },
    /// A write: the words that were replaced, and the new stamp, which is one above the stamp that they had.
    Wrote { before: [u64; 8], stamp: u64 },
    /// An eviction: the node's tag is Invalid.
    Out,
    /// A write, refusal 11: the stamp was `u64::MAX`. The line keeps its words and stamp, and the node is its sole valid
    /// sharer.
    Spent,
}

/// What a turn came to.
#[derive(Clone, Copy, Debug, PartialEq, Eq)]
pub enum Turn {
    /// The operation has ended.
    Done(Answer),
    /// An exchange was made, and the operation goes on.
    Moved,
    /// No exchange was made.
    Waiting,
}

/// What an exchange ends a turn with, once it is made.
#[derive(Clone, Copy, Debug, PartialEq, Eq)]
pub enum End {
    /// The operation goes on.
    Moved,
    /// A load has the line that the exchange answers.
    Seen,
    /// A write replaced these words.
    Wrote { before: [u64; 8], stamp: u64 },
    /// A write found the last stamp.
    Spent,
    /// An eviction made the tag Invalid.
    Out,
}

/// The kind of a turn. The line that it shows stands apart, so that a turn that shows none copies none: of `Seen` the line, of
/// `Wrote` the words before, with the new stamp.
#[derive(Clone, Copy, Debug, PartialEq, Eq)]
pub enum TurnKind {
    /// An exchange was made, and the operation goes on.
    Moved,
    /// No exchange was made.
    Waiting,
    /// A load saw a line.
    Seen,
    /// A write replaced a line's words.
    Wrote,
    /// A write found the last stamp.
    Spent,
    /// An eviction made the tag Invalid, or found it so.
    Out,
}

impl TurnKind {
    /// The turn, with the line that it shows.
    #[inline(always)]
    pub(crate) fn with(self, shown: &Line) -> Turn
        ensures { result ≡ turn_with self shown.now }
    {
        match self {
            TurnKind::Moved => Turn::Moved,
            TurnKind::Waiting => Turn::Waiting,
            TurnKind::Seen => Turn::Done(Answer::Seen {
                words: shown.words,
                stamp: shown.stamp,
            }),
            TurnKind::Wrote => Turn::Done(Answer::Wrote {
                before: shown.words,
                stamp: shown.stamp,
            }),
            TurnKind::Spent => Turn::Done(Answer::Spent),
            TurnKind::Out => Turn::Done(Answer::Out),
        }
    }
}

impl End {
    /// The turn's kind, by the exchange's outcome. The line that it shows, if it shows one, goes into `shown`.
    #[inline(always)]
    pub(crate) fn kind_after(self, outcome: Outcome, shown: &mut Line) -> TurnKind
        ensures { turn_with result shown.new ≡ turn_after self outcome }
    {
        let Outcome::Done(line) = outcome else {
            return TurnKind::Waiting;
        };
        match (self, line) {
            (End::Seen, Some(line)) => {
                *shown = line;
                TurnKind::Seen
            }
            (End::Wrote { before, stamp }, _) => {
                *shown = Line {
                    words: before,
                    stamp,
                };
                TurnKind::Wrote
            }
            (End::Out, _) => TurnKind::Out,
            (End::Spent, _) => TurnKind::Spent,
            (End::Moved, _) | (End::Seen, None) => TurnKind::Moved,
        }
    }
}
