//! The rows of a node in the list that attaches the entry behind it and settles.
ghost use Rattle.std.specs.Prelude.{◌≡◌, Some, None, cond};
ghost use Rattle.sci_core.specs.declared.lines.Line as a_line;
ghost use Rattle.sci_core.specs.Stage.{outline_of};
ghost use Rattle.sci_core.specs.Table.InQueue.{in_queue_allows, in_queue_row, copying_allows, copying_row, ready_allows, ready_row};

use crate::events::Event;
use crate::outlines::Outline;
use crate::rows::Place;
use crate::stages::Stage;
use crate::table::found;
use crate::table::shorthand::{
    answering, attached, gives, held_word, no_outline, queued_word, settled_word, stays, tag,
    takes, unheld_word,
};
use sci_words::{NodeId, Tag};

#[inline(always)]
pub fn in_queue_allows(forw: &Option<NodeId>, dirty: bool, has_copy: bool, event: &Event) -> bool
    ensures { (l : a_line.Line) → result ≡ in_queue_allows event.now forw.now dirty (cond has_copy (Some l) None) }
{
    match event {
        Event::AttachFresh(found) => { forw.is_some() && !dirty && has_copy && found::fresh(found) }
        Event::AttachDirty(found) => { forw.is_some() && dirty && !has_copy && found::dirty(found) }
        Event::Settle => forw.is_none() && has_copy,
        _ => false,
    }
}

#[inline(always)]
pub fn in_queue_outline(
    me: NodeId,
    forw: &Option<NodeId>,
    dirty: bool,
    has_copy: bool,
    event: &Event,
) -> Outline
    ensures { (l : a_line.Line) → result ≡ outline_of (in_queue_row me event.now forw.now dirty (cond has_copy (Some l) None)) }
{
    match (event, forw, has_copy) {
        (Event::AttachFresh(found), Some(head), true) => {
            let after = Stage::Ready {
                forw: Some(*head),
                dirty: false,
            };
            stays(tag(*head, *found, attached(me, found)), after)
        }
        (Event::AttachDirty(found), Some(head), false) => {
            let after = Stage::Copying {
                forw: *head,
                word: held_word(&attached(me, found)),
            };
            let copied = tag(*head, *found, held_word(&attached(me, found)));
            takes(copied, Place::Node(*head), after)
        }
        (Event::Settle, None, true) => {
            let change = tag(me, queued_word(None), settled_word(dirty, None));
            answering(gives(change, Place::Node(me), Stage::Idle))
        }
        _ => no_outline(),
    }
}

#[inline(always)]
pub fn copying_allows(event: &Event) -> bool
    ensures { result ≡ copying_allows event.now }
{
    matches!(event, Event::ReturnCopy)
}

#[inline(always)]
pub fn copying_outline(head: NodeId, kept: &Tag, event: &Event) -> Outline
    ensures { (l : a_line.Line) → result ≡ outline_of (copying_row head kept.now l event.now) }
{
    match event {
        Event::ReturnCopy => {
            let after = Stage::Ready {
                forw: Some(head),
                dirty: true,
            };
            gives(
                tag(head, *kept, unheld_word(kept)),
                Place::Node(head),
                after,
            )
        }
        _ => no_outline(),
    }
}

#[inline(always)]
pub fn ready_allows(event: &Event) -> bool
    ensures { result ≡ ready_allows event.now }
{
    matches!(event, Event::Settle)
}

#[inline(always)]
pub fn ready_outline(me: NodeId, forw: &Option<NodeId>, dirty: bool, event: &Event) -> Outline
    ensures { (l : a_line.Line) → result ≡ outline_of (ready_row me forw.now dirty l event.now) }
{
    match event {
        Event::Settle => {
            let change = tag(me, queued_word(*forw), settled_word(dirty, *forw));
            answering(gives(change, Place::Node(me), Stage::Idle))
        }
        _ => no_outline(),
    }
}
