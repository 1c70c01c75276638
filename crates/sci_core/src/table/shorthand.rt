//! Short ways to write the words and the exchanges of the table.
ghost use Rattle.std.specs.Prelude.{◌≡◌, true, false};
ghost use Rattle.sci_core.specs.State.{word, held_word, unheld_word, lent_word, memory_word, invalid};
ghost use Rattle.sci_core.specs.Row.{queued_word, purging_word, leaving_word, attached, purged_word, settled_word, listed, home, home_or_listed, no_row};

use crate::outlines::{Motion, Outline};
use crate::rows::{Change, Place};
use crate::stages::Stage;
use sci_words::{Kind, Mem, MemState, NodeId, Tag};

#[inline]
pub fn word(kind: Kind, forw: Option<NodeId>, back: Option<NodeId>) -> Tag
    ensures { result ≡ word kind forw back }
{
    Tag {
        kind,
        held: false,
        forw,
        back,
    }
}

#[inline]
pub fn invalid() -> Tag
    ensures { result ≡ invalid }
{
    word(Kind::Invalid, None, None)
}

#[inline]
pub fn queued_word(forw: Option<NodeId>) -> Tag
    ensures { result ≡ queued_word forw }
{
    word(Kind::Queued, forw, None)
}

#[inline]
pub fn purging_word(forw: Option<NodeId>) -> Tag
    ensures { result ≡ purging_word forw }
{
    word(Kind::Purging, forw, None)
}

#[inline]
pub fn leaving_word(forw: Option<NodeId>) -> Tag
    ensures { result ≡ leaving_word forw }
{
    word(Kind::Leaving, forw, None)
}

/// The old head's word, with the actor in front of it.
#[inline]
pub fn attached(me: NodeId, found: &Tag) -> Tag
    ensures { result ≡ attached me found.now }
{
    word(Kind::Valid, found.forw, Some(me))
}

/// The victim's word.
#[inline]
pub fn purged_word(found: &Tag) -> Tag
    ensures { result ≡ purged_word found.now }
{
    word(Kind::Purged, found.forw, found.back)
}

/// A settled front.
#[inline]
pub fn settled_word(dirty: bool, forw: Option<NodeId>) -> Tag
    ensures { result ≡ settled_word dirty forw }
{
    word(if dirty { Kind::Dirty } else { Kind::Fresh }, forw, None)
}

#[inline]
pub fn held_word(tag: &Tag) -> Tag
    ensures { result ≡ held_word tag.now }
{
    Tag { held: true, ..*tag }
}

#[inline]
pub fn unheld_word(tag: &Tag) -> Tag
    ensures { result ≡ unheld_word tag.now }
{
    Tag {
        held: false,
        ..*tag
    }
}

/// Memory's word without a list.
#[inline]
pub fn home() -> Mem
    ensures { result ≡ home }
{
    Mem {
        state: MemState::Home,
        lent: false,
        forw: None,
    }
}

/// Memory's word with a list: GONE if the list is dirty.
#[inline]
pub fn listed(dirty: bool, head: NodeId) -> Mem
    ensures { result ≡ listed dirty head }
{
    Mem {
        state: if dirty {
            MemState::Gone
        } else {
            MemState::Fresh
        },
        lent: false,
        forw: Some(head),
    }
}

/// Memory's word where its data is valid.
#[inline]
pub fn home_or_listed(head: &Option<NodeId>) -> Mem
    ensures { result ≡ home_or_listed head.now }
{
    match head {
        Some(head) => listed(false, *head),
        None => home(),
    }
}

#[inline]
pub fn lent_word(mem: &Mem) -> Mem
    ensures { result ≡ lent_word mem.now }
{
    Mem { lent: true, ..*mem }
}

/// The change of the node's tag.
#[inline]
pub fn tag(node: NodeId, before: Tag, after: Tag) -> Change
    ensures { result ≡ Change.OfTag node before after }
{
    Change::OfTag {
        node,
        before,
        after,
    }
}

/// The change of memory's word.
#[inline]
pub fn memory(before: Mem, after: Mem) -> Change
    ensures { result ≡ Change.OfMemory before after }
{
    Change::OfMemory { before, after }
}

/// No slot is moved.
#[inline]
pub fn stays(change: Change, after: Stage) -> Outline
    ensures { result ≡ record { change = change; motion = Motion.Stays; after = after; answers = false } }
{
    Outline {
        change,
        motion: Motion::Stays,
        after,
        answers: false,
    }
}

/// A slot is taken.
#[inline]
pub fn takes(change: Change, place: Place, after: Stage) -> Outline
    ensures { result ≡ record { change = change; motion = Motion.Takes place; after = after; answers = false } }
{
    Outline {
        change,
        motion: Motion::Takes(place),
        after,
        answers: false,
    }
}

/// The own bytes are given back into this slot.
#[inline]
pub fn gives(change: Change, place: Place, after: Stage) -> Outline
    ensures { result ≡ record { change = change; motion = Motion.Gives place; after = after; answers = false } }
{
    Outline {
        change,
        motion: Motion::Gives(place),
        after,
        answers: false,
    }
}

/// The step that purges, just entered: nothing was seen yet.
#[inline]
pub fn purges() -> Stage
    ensures { result ≡ Stage.Purging None }
{
    Stage::Purging { seen: None }
}

/// The same exchange, which answers the line that is taken or given back.
#[inline]
pub fn answering(outline: Outline) -> Outline
    ensures { result ≡ record outline { answers = true } }
{
    Outline {
        answers: true,
        ..outline
    }
}

/// What stands for the exchange of an event that is not allowed.
#[inline]
pub fn no_outline() -> Outline
    ensures { result ≡ record { change = no_row.change; motion = Motion.Stays; after = Stage.Idle; answers = false } }
{
    stays(memory(home(), home()), Stage::Idle)
}
