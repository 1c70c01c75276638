//! The rows of a node that prepends itself and copies memory's bytes.
ghost use Rattle.std.specs.Prelude.{◌≡◌, None};
ghost use Rattle.sci_core.specs.declared.events.Event.TheVariants.{HomeWrite};
ghost use Rattle.sci_core.specs.declared.lines.Line as a_line;
ghost use Rattle.sci_core.specs.Stage.{outline_of};
ghost use Rattle.sci_core.specs.Table.Queueing.{queueing_allows, queueing_row, fetching_allows, fetching_row};

use crate::events::Event;
use crate::outlines::Outline;
use crate::rows::Place;
use crate::stages::Stage;
use crate::table::found;
use crate::table::shorthand::{
    gives, home, home_or_listed, lent_word, listed, memory, no_outline, queued_word, stays, tag,
    takes,
};
use sci_words::NodeId;

#[inline(always)]
pub fn queueing_allows(nodes: u16, forw: &Option<NodeId>, event: &Event) -> bool
    ensures { result ≡ queueing_allows nodes forw.now event.now }
{
    match event {
        Event::Requeue(next) => found::is_below(nodes, next),
        Event::PrependValid => true,
        Event::PrependGone => forw.is_some(),
        Event::HomeWrite => forw.is_none(),
        _ => false,
    }
}

// It finds no list: memory's word turns to GONE with this node as the head, and memory's bytes are lent to it.
#[inline(always)]
fn home_write(me: NodeId) -> Outline
    ensures { result ≡ outline_of (queueing_row me HomeWrite None) }
{
    let after = Stage::Fetching {
        forw: None,
        dirty: true,
    };
    let to_gone = memory(home(), lent_word(&listed(true, me)));
    takes(to_gone, Place::Memory, after)
}

#[inline(always)]
pub fn queueing_outline(me: NodeId, forw: &Option<NodeId>, event: &Event) -> Outline
    ensures { result ≡ outline_of (queueing_row me event.now forw.now) }
{
    match event {
        Event::Requeue(next) => {
            let after = Stage::Queueing { forw: *next };
            stays(tag(me, queued_word(*forw), queued_word(*next)), after)
        }
        Event::PrependValid => {
            let after = Stage::Fetching {
                forw: *forw,
                dirty: false,
            };
            let change = memory(home_or_listed(forw), lent_word(&listed(false, me)));
            takes(change, Place::Memory, after)
        }
        Event::PrependGone => match forw {
            Some(head) => {
                let after = Stage::InQueue {
                    forw: Some(*head),
                    dirty: true,
                    has_copy: false,
                };
                stays(memory(listed(true, *head), listed(true, me)), after)
            }
            None => no_outline(),
        },
        Event::HomeWrite => match forw {
            Some(_) => no_outline(),
            None => home_write(me),
        },
        _ => no_outline(),
    }
}

#[inline(always)]
pub fn fetching_allows(event: &Event) -> bool
    ensures { result ≡ fetching_allows event.now }
{
    matches!(event, Event::ReturnMemory)
}

#[inline(always)]
pub fn fetching_outline(me: NodeId, forw: &Option<NodeId>, dirty: bool, event: &Event) -> Outline
    ensures { (l : a_line.Line) → result ≡ outline_of (fetching_row me forw.now dirty l event.now) }
{
    match event {
        Event::ReturnMemory => {
            let after = Stage::InQueue {
                forw: *forw,
                dirty,
                has_copy: true,
            };
            let change = memory(lent_word(&listed(dirty, me)), listed(dirty, me));
            gives(change, Place::Memory, after)
        }
        _ => no_outline(),
    }
}
