//! What a line of a log tells: an event of a node on a line, and how it ended.

ghost use Rattle.std.specs.Prelude.{◌≡◌};
ghost use Rattle.sci_logs.specs.Told.{event_on, entry_of};

use crate::entries::{Claim, Entry};
use sci_core::Event;
use sci_words::{LineNo, NodeId, Tag};

/// Which event of those that ask for a tag that was loaded.
#[derive(Clone, Copy, Debug, PartialEq, Eq)]
pub enum Asks {
    AttachFresh,
    Hold,
    Convert,
    BeginPurge,
    AttachDirty,
    PurgeOne,
    Roll,
    TellSuccessor,
    TellPredecessor,
    Adopt,
    Leave,
    Promote,
}

impl Asks {
    /// The event that asks for this tag.
    pub fn event(self, found: Tag) -> Event
        ensures { result ≡ event_on self found }
    {
        match self {
            Asks::AttachFresh => Event::AttachFresh(found),
            Asks::Hold => Event::Hold(found),
            Asks::Convert => Event::Convert(found),
            Asks::BeginPurge => Event::BeginPurge(found),
            Asks::AttachDirty => Event::AttachDirty(found),
            Asks::PurgeOne => Event::PurgeOne(found),
            Asks::Roll => Event::Roll(found),
            Asks::TellSuccessor => Event::TellSuccessor(found),
            Asks::TellPredecessor => Event::TellPredecessor(found),
            Asks::Adopt => Event::Adopt(found),
            Asks::Leave => Event::Leave(found),
            Asks::Promote => Event::Promote(found),
        }
    }
}

/// The tag that an exchange asks for, as a log tells it.
#[derive(Clone, Copy, Debug, PartialEq, Eq)]
pub enum Found {
    /// The tag that stands there, which has the name of this one.
    Named(Tag),
    /// This tag.
    Exactly(Tag),
}

/// The event that a log tells of.
#[derive(Clone, Copy, Debug, PartialEq, Eq)]
pub enum Told {
    /// This one.
    Event(Event),
    /// One that asks for a tag: of this node, or its own.
    On {
        asks: Asks,
        whose: Option<NodeId>,
        found: Found,
    },
}

/// A line of a log behind its openings.
#[derive(Clone, Copy, Debug, PartialEq, Eq)]
pub struct Noted {
    pub node: NodeId,
    pub line: LineNo,
    pub told: Told,
    pub claim: Claim,
}

impl Noted {
    /// The entry of this event.
    pub fn entry(&self, event: Event) -> Entry
        ensures { result ≡ entry_of self.now event }
    {
        Entry {
            node: self.node,
            line: self.line,
            event,
            claim: self.claim,
        }
    }
}
