//! The rows of a fresh head on its way to write.
ghost use Rattle.std.specs.Prelude.{◌≡◌};
ghost use Rattle.sci_core.specs.Stage.{outline_of};
ghost use Rattle.sci_core.specs.Table.Converting.{converting_allows, converting_row};

use crate::events::Event;
use crate::outlines::Outline;
use crate::rows::Place;
use crate::stages::Stage;
use crate::table::shorthand::{
    answering, listed, memory, no_outline, purges, purging_word, settled_word, stays, tag, takes,
    word,
};
use sci_words::{Kind, NodeId};

#[inline(always)]
pub fn converting_allows(turned: bool, event: &Event) -> bool
    ensures { result ≡ converting_allows turned event.now }
{
    match event {
        Event::FreshToGone | Event::Unconverted => !turned,
        Event::Converted => turned,
        _ => false,
    }
}

#[inline(always)]
pub fn converting_outline(me: NodeId, forw: &Option<NodeId>, event: &Event) -> Outline
    ensures { result ≡ outline_of (converting_row me forw.now event.now) }
{
    match event {
        Event::FreshToGone => {
            let after = Stage::Converting {
                forw: *forw,
                turned: true,
            };
            stays(memory(listed(false, me), listed(true, me)), after)
        }
        Event::Converted => {
            let change = tag(me, word(Kind::Convert, *forw, None), purging_word(*forw));
            answering(takes(change, Place::Node(me), purges()))
        }
        Event::Unconverted => {
            let before = word(Kind::Convert, *forw, None);
            stays(tag(me, before, settled_word(false, *forw)), Stage::Idle)
        }
        _ => no_outline(),
    }
}
