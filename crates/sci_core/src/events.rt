//! The events of a node on a line.
use sci_words::{NodeId, Tag};

/// One event of a node: a look at its own tag, or one of the kinds of compare-exchange. `found` is a tag that the node
/// loaded, which the word before must equal.
#[derive(Clone, Copy, Debug, PartialEq, Eq)]
pub enum Event {
    /// The node loads its own tag. No exchange.
    Look,
    /// Own tag, Invalid to Queued with this forward link: a newcomer notes whom it found as the head.
    Queue(Option<NodeId>),
    /// Own tag, still outside the list: the newcomer notes another head.
    Requeue(Option<NodeId>),
    /// Memory's word, HOME or FRESH to FRESH with this node as the head, and memory's bytes lent to it.
    PrependValid,
    /// Memory's word: the node gives memory's bytes back.
    ReturnMemory,
    /// The old head's tag, Fresh to Valid: its back link now names this node, which stands in front.
    AttachFresh(Tag),
    /// Own tag, Queued to Fresh or Dirty: the newcomer has the bytes and is the head. Answers the line.
    Settle,
    /// Own tag, settled: the held bit is set while the node copies its own bytes.
    Hold(Tag),
    /// Own tag: the held bit is cleared. Answers the line.
    Unhold,
    /// Own tag, Fresh to Convert: a fresh head is on its way to write.
    Convert(Tag),
    /// Memory's word, FRESH to GONE: from now on newcomers get their bytes from the head.
    FreshToGone,
    /// Own tag, Convert to Purging, after memory turned GONE. Answers the line.
    Converted,
    /// Own tag, Convert back to Fresh: somebody came in front first.
    Unconverted,
    /// Own tag, Dirty to Purging: a dirty head is about to write. Answers the line.
    BeginPurge(Tag),
    /// Own tag, Purging to Dirty, with nobody behind: writes these words, or none where the stamp is spent.
    Written(Option<[u64; 8]>),
    /// Memory's word, under GONE: this node is the new head, and has no bytes yet.
    PrependGone,
    /// The old head's tag, Dirty to Valid and held: this node stands in front, and takes its bytes to copy them.
    AttachDirty(Tag),
    /// The old head's tag: the node gives its bytes back, and the held bit is cleared.
    ReturnCopy,
    /// The next entry's tag, Valid to Purged: it is told to go, and still stands in the list.
    PurgeOne(Tag),
    /// Own tag: the forward link passes over the purged entry, which leaves the list.
    Advance,
    /// The purged entry's tag, Purged to Invalid: it is free.
    Clear,
    /// Own tag, Valid to Roll: a body entry is on its way out.
    Roll(Tag),
    /// The next entry's tag: its back link passes over this node.
    TellSuccessor(Tag),
    /// The tag of the entry before: its forward link passes over this node, which leaves the list.
    TellPredecessor(Tag),
    /// The next entry's tag, in Roll: its back link now names this node, which has purged the entry between.
    Adopt(Tag),
    /// Own tag, Roll to Invalid: the entry has left the list.
    Rolled,
    /// Own tag, Fresh or Dirty to Leaving: a head is on its way out.
    Leave(Tag),
    /// The next entry's tag, Valid to Fresh or Dirty: it becomes a head.
    Promote(Tag),
    /// Memory's word: it names the next entry as the head.
    PassOn,
    /// Own tag, Leaving back to Fresh or Dirty: the head stays.
    Stay,
    /// Own tag, Leaving to Queued, after Promote: somebody came in front, and the leaver queues up again.
    ReEnter,
    /// Memory's word, FRESH to HOME: the only sharer leaves.
    ReturnHomeFresh,
    /// Memory's word, GONE to HOME, with memory's bytes lent to the only sharer, which writes its own over them.
    ReturnHomeDirty,
    /// Own tag, Leaving to Invalid: the leaver is out of the list.
    Left,
    /// Memory's word, HOME to GONE with this node as the head, and memory's bytes lent to it: a writer that finds no list.
    HomeWrite,
}

impl Event {
    ghost use Rattle.std.specs.Prelude.{◌≡◌};
    ghost use Rattle.sci_core.specs.EventNumber.{event_number};
    ghost use Rattle.sci_core.specs.Step.{is_look};

    #[inline(always)]
    pub(crate) fn is_look(&self) -> bool
        ensures { result ≡ is_look self.now }
    {
        matches!(self, Event::Look)
    }

    /// Its number: 0 for a look, and 1 to 34 for the exchanges, in this order.
    #[inline(always)]
    pub fn number(&self) -> u8
        ensures { result ≡ event_number self.now }
    {
        match self {
            Event::Look => 0,
            Event::Queue(_) => 1,
            Event::Requeue(_) => 2,
            Event::PrependValid => 3,
            Event::ReturnMemory => 4,
            Event::AttachFresh(_) => 5,
            Event::Settle => 6,
            Event::Hold(_) => 7,
            Event::Unhold => 8,
            Event::Convert(_) => 9,
            Event::FreshToGone => 10,
            Event::Converted => 11,
            Event::Unconverted => 12,
            Event::BeginPurge(_) => 13,
            Event::Written(_) => 14,
            Event::PrependGone => 15,
            Event::AttachDirty(_) => 16,
            Event::ReturnCopy => 17,
            Event::PurgeOne(_) => 18,
            Event::Advance => 19,
            Event::Clear => 20,
            Event::Roll(_) => 21,
            Event::TellSuccessor(_) => 22,
            Event::TellPredecessor(_) => 23,
            Event::Adopt(_) => 24,
            Event::Rolled => 25,
            Event::Leave(_) => 26,
            Event::Promote(_) => 27,
            Event::PassOn => 28,
            Event::Stay => 29,
            Event::ReEnter => 30,
            Event::ReturnHomeFresh => 31,
            Event::ReturnHomeDirty => 32,
            Event::Left => 33,
            Event::HomeWrite => 34,
        }
    }
}
