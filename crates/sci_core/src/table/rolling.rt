//! The rows of a body entry on its way out.
ghost use Rattle.std.specs.Prelude.{◌≡◌};
ghost use Rattle.sci_core.specs.Stage.{outline_of};
ghost use Rattle.sci_core.specs.Table.Rolling.{rolling_allows, rolling_row, unlinked_allows, unlinked_row};

use crate::events::Event;
use crate::outlines::Outline;
use crate::stages::Stage;
use crate::table::found;
use crate::table::shorthand::{invalid, no_outline, stays, tag, word};
use sci_words::{Kind, NodeId};

#[inline(always)]
pub fn rolling_allows(
    me: NodeId,
    told: bool,
    seen: &Option<(Option<NodeId>, NodeId)>,
    event: &Event,
) -> bool
    ensures { result ≡ rolling_allows me told event.now seen.now }
{
    match (event, seen) {
        (Event::TellSuccessor(found), Some((forw, _))) => {
            !told && forw.is_some() && found::settled_body(found) && found::names(me, &found.back)
        }
        (Event::TellPredecessor(found), Some((forw, _))) => {
            (told || forw.is_none()) && found::tellable(found) && found::names(me, &found.forw)
        }
        _ => false,
    }
}

#[inline(always)]
pub fn rolling_outline(seen: &Option<(Option<NodeId>, NodeId)>, event: &Event) -> Outline
    ensures { result ≡ outline_of (rolling_row event.now seen.now) }
{
    match (event, seen) {
        (Event::TellSuccessor(found), Some((Some(next), back))) => {
            let after = Stage::Rolling {
                told: true,
                seen: Some((Some(*next), *back)),
            };
            let passed = word(Kind::Valid, found.forw, Some(*back));
            stays(tag(*next, *found, passed), after)
        }
        (Event::TellPredecessor(found), Some((forw, back))) => {
            let after = Stage::Unlinked {
                forw: *forw,
                back: *back,
            };
            let passed = word(found.kind, *forw, found.back);
            stays(tag(*back, *found, passed), after)
        }
        _ => no_outline(),
    }
}

#[inline(always)]
pub fn unlinked_allows(event: &Event) -> bool
    ensures { result ≡ unlinked_allows event.now }
{
    matches!(event, Event::Rolled)
}

#[inline(always)]
pub fn unlinked_outline(me: NodeId, forw: &Option<NodeId>, back: NodeId, event: &Event) -> Outline
    ensures { result ≡ outline_of (unlinked_row me forw.now back event.now) }
{
    match event {
        Event::Rolled => {
            let change = tag(me, word(Kind::Roll, *forw, Some(back)), invalid());
            stays(change, Stage::Idle)
        }
        _ => no_outline(),
    }
}
