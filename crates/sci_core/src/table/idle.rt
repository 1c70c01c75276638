//! The rows of a node that is Idle or Holding.
ghost use Rattle.std.specs.Prelude.{◌≡◌};
ghost use Rattle.sci_core.specs.declared.lines.Line as a_line;
ghost use Rattle.sci_core.specs.declared.events.Event.TheVariants.{Convert, Roll, Leave};
ghost use Rattle.sci_core.specs.Stage.{outline_of};
ghost use Rattle.sci_core.specs.Table.Idle.{idle_allows, idle_row, holding_allows, holding_row};

use crate::events::Event;
use crate::outlines::Outline;
use crate::rows::Place;
use crate::stages::Stage;
use crate::table::found;
use crate::table::shorthand::{
    answering, gives, held_word, invalid, leaving_word, no_outline, purges, purging_word,
    queued_word, stays, tag, takes, unheld_word, word,
};
use sci_words::{Kind, NodeId, Tag};

#[inline(always)]
pub fn idle_allows(nodes: u16, event: &Event) -> bool
    ensures { result ≡ idle_allows nodes event.now }
{
    match event {
        Event::Queue(forw) => found::is_below(nodes, forw),
        Event::Hold(own) => found::settled(own),
        Event::Convert(own) => found::fresh(own),
        Event::BeginPurge(own) => found::dirty(own),
        Event::Roll(own) => found::settled_body(own),
        Event::Leave(own) => found::settled_front(own),
        _ => false,
    }
}

#[inline(always)]
fn convert_outline(me: NodeId, own: &Tag) -> Outline
    ensures { result ≡ outline_of (idle_row me (Convert own.now)) }
{
    let after = Stage::Converting {
        forw: own.forw,
        turned: false,
    };
    stays(tag(me, *own, word(Kind::Convert, own.forw, None)), after)
}

#[inline(always)]
fn roll_outline(me: NodeId, own: &Tag) -> Outline
    ensures { result ≡ outline_of (idle_row me (Roll own.now)) }
{
    let after = Stage::Rolling {
        told: false,
        seen: None,
    };
    stays(tag(me, *own, word(Kind::Roll, own.forw, own.back)), after)
}

#[inline(always)]
fn leave_outline(me: NodeId, own: &Tag) -> Outline
    ensures { result ≡ outline_of (idle_row me (Leave own.now)) }
{
    let after = Stage::Leaving {
        dirty: found::is_dirty(own),
        seen: None,
    };
    takes(
        tag(me, *own, leaving_word(own.forw)),
        Place::Node(me),
        after,
    )
}

#[inline(always)]
pub fn idle_outline(me: NodeId, event: &Event) -> Outline
    ensures { result ≡ outline_of (idle_row me event.now) }
{
    let mine = Place::Node(me);
    match event {
        Event::Queue(forw) => {
            let after = Stage::Queueing { forw: *forw };
            takes(tag(me, invalid(), queued_word(*forw)), mine, after)
        }
        Event::Hold(own) => {
            let after = Stage::Holding { word: *own };
            takes(tag(me, *own, held_word(own)), mine, after)
        }
        Event::Convert(own) => convert_outline(me, own),
        Event::BeginPurge(own) => {
            let change = tag(me, *own, purging_word(own.forw));
            answering(takes(change, mine, purges()))
        }
        Event::Roll(own) => roll_outline(me, own),
        Event::Leave(own) => leave_outline(me, own),
        _ => no_outline(),
    }
}

#[inline(always)]
pub fn holding_allows(event: &Event) -> bool
    ensures { result ≡ holding_allows event.now }
{
    matches!(event, Event::Unhold)
}

#[inline(always)]
pub fn holding_outline(me: NodeId, kept: &Tag, event: &Event) -> Outline
    ensures { (l : a_line.Line) → result ≡ outline_of (holding_row me kept.now l event.now) }
{
    match event {
        Event::Unhold => {
            let change = tag(me, held_word(kept), unheld_word(kept));
            answering(gives(change, Place::Node(me), Stage::Idle))
        }
        _ => no_outline(),
    }
}
