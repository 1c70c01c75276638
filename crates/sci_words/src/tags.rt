//! The tag word of a node's cache entry.
use crate::nodes::NodeId;
use crate::refusals::WordRefusal;

/// What a cache entry is. The front kinds (`Queued`, `Fresh`, `Dirty`, `Convert`, `Purging`, `Leaving`) stand at the head
/// of a sharing list, the body kinds (`Valid`, `Roll`, `Purged`) behind them.
#[derive(Clone, Copy, Debug, PartialEq, Eq, Hash)]
pub enum Kind {
    /// In no sharing list.
    Invalid,
    /// A newcomer at the head, whose bytes are still to come.
    Queued,
    /// A head whose bytes are those of memory.
    Fresh,
    /// A head that may write. Memory's bytes may be stale.
    Dirty,
    /// A fresh head on its way to write.
    Convert,
    /// A head that purges the entries behind it.
    Purging,
    /// A head on its way out.
    Leaving,
    /// A body entry with valid bytes.
    Valid,
    /// A body entry on its way out.
    Roll,
    /// A body entry that a purging head has told to go.
    Purged,
}

/// A cache entry's tag: its kind, whether it is held while its bytes are copied, and its links along the sharing list.
#[derive(Clone, Copy, Debug, PartialEq, Eq, Hash)]
pub struct Tag {
    pub kind: Kind,
    pub held: bool,
    /// The next entry, away from the head.
    pub forw: Option<NodeId>,
    /// The entry before it, towards the head.
    pub back: Option<NodeId>,
}

impl Kind {
    ghost use Rattle.std.specs.Prelude.{◌≡◌};
    ghost use Rattle.sci_words.specs.Tag.{is_body, may_be_held};

    /// Whether entries of this kind stand behind the fronts.
    fn is_body(self) -> bool
        ensures { result ≡ is_body self }
    {
        matches!(self, Kind::Valid | Kind::Roll | Kind::Purged)
    }

    /// Whether the bytes of entries of this kind may be copied.
    fn may_be_held(self) -> bool
        ensures { result ≡ may_be_held self }
    {
        matches!(self, Kind::Fresh | Kind::Dirty | Kind::Valid)
    }
}

impl Tag {
    ghost use Rattle.std.specs.Prelude.{◌≡◌, cond, Ok, Err};
    ghost use Rattle.sci_words.specs.Tag.{misses_link, has_unwanted_link, is_held_wrongly, tag_well_formed};

    /// Whether the tag keeps the rules of links and of the held bit: an Invalid tag has no link; the body kinds have a back
    /// link, and no other kind has one; only Fresh, Dirty and Valid are held.
    pub fn well_formed(&self) -> bool
        ensures { result ≡ tag_well_formed self.now }
    {
        self.check().is_ok()
    }

    /// The first of the rules of links and of the held bit that the tag breaks.
    pub(crate) fn check(&self) -> Result<(), WordRefusal>
        ensures { result ≡ cond (misses_link self.now) (Err WordRefusal.LinkMissing)
            (cond (has_unwanted_link self.now) (Err WordRefusal.LinkUnwanted)
            (cond (is_held_wrongly self.now) (Err WordRefusal.HeldNotValid) (Ok tt))) }
    {
        if self.kind.is_body() && self.back.is_none() {
            return Err(WordRefusal::LinkMissing);
        }
        if !self.kind.is_body() && self.back.is_some() {
            return Err(WordRefusal::LinkUnwanted);
        }
        if matches!(self.kind, Kind::Invalid) && self.forw.is_some() {
            return Err(WordRefusal::LinkUnwanted);
        }
        if self.held && !self.kind.may_be_held() {
            return Err(WordRefusal::HeldNotValid);
        }
        Ok(())
    }
}
