//! The rows of a head on its way out.
ghost use Rattle.std.specs.Prelude.{◌≡◌, ◌&&◌};
ghost use Rattle.sci_core.specs.declared.lines.Line as a_line;
ghost use Rattle.sci_core.specs.Found.{is_found, is_settled_body, names};
ghost use Rattle.sci_core.specs.Stage.{outline_of};
ghost use Rattle.sci_core.specs.Table.Leaving.{leaving_allows, leaving_row, promoted_allows, promoted_row, writing_back_allows, writing_back_row, parted_allows, parted_row};

use crate::events::Event;
use crate::outlines::Outline;
use crate::rows::Place;
use crate::stages::Stage;
use crate::table::found;
use crate::table::shorthand::{
    gives, home, invalid, leaving_word, lent_word, listed, memory, no_outline, queued_word,
    settled_word, stays, tag, takes,
};
use sci_words::{NodeId, Tag};

// The tag was found Valid, right behind this node.
#[inline(always)]
fn stands_behind(me: NodeId, found: &Tag) -> bool
    ensures { result ≡ (is_found is_settled_body found.now && names me found.now.back) }
{
    found::settled_body(found) && found::names(me, &found.back)
}

#[inline(always)]
pub fn leaving_allows(me: NodeId, dirty: bool, seen: &Option<Option<NodeId>>, event: &Event) -> bool
    ensures { result ≡ leaving_allows me dirty event.now seen.now }
{
    match (event, seen) {
        (Event::Promote(found), Some(Some(_))) => stands_behind(me, found),
        (Event::Stay, Some(_)) => true,
        (Event::ReturnHomeFresh, Some(None)) => !dirty,
        (Event::ReturnHomeDirty, Some(None)) => dirty,
        _ => false,
    }
}

#[inline(always)]
pub fn leaving_outline(
    me: NodeId,
    dirty: bool,
    seen: &Option<Option<NodeId>>,
    event: &Event,
) -> Outline
    ensures { (l : a_line.Line) → result ≡ outline_of (leaving_row me dirty l event.now seen.now) }
{
    match (event, seen) {
        (Event::Promote(found), Some(Some(next))) => {
            let after = Stage::Promoted { dirty, succ: *next };
            stays(tag(*next, *found, settled_word(dirty, found.forw)), after)
        }
        (Event::Stay, Some(forw)) => {
            let change = tag(me, leaving_word(*forw), settled_word(dirty, *forw));
            gives(change, Place::Node(me), Stage::Idle)
        }
        (Event::ReturnHomeFresh, Some(None)) => {
            stays(
                memory(listed(false, me), home()),
                Stage::Parted { forw: None },
            )
        }
        (Event::ReturnHomeDirty, Some(None)) => {
            let change = memory(listed(true, me), lent_word(&home()));
            takes(change, Place::Memory, Stage::WritingBack)
        }
        _ => no_outline(),
    }
}

#[inline(always)]
pub fn promoted_allows(event: &Event) -> bool
    ensures { result ≡ promoted_allows event.now }
{
    matches!(event, Event::PassOn | Event::ReEnter)
}

#[inline(always)]
pub fn promoted_outline(me: NodeId, dirty: bool, succ: NodeId, event: &Event) -> Outline
    ensures { (l : a_line.Line) → result ≡ outline_of (promoted_row me dirty l succ event.now) }
{
    match event {
        Event::PassOn => {
            let after = Stage::Parted { forw: Some(succ) };
            stays(memory(listed(dirty, me), listed(dirty, succ)), after)
        }
        Event::ReEnter => {
            let after = Stage::InQueue {
                forw: Some(succ),
                dirty,
                has_copy: !dirty,
            };
            stays(
                tag(me, leaving_word(Some(succ)), queued_word(Some(succ))),
                after,
            )
        }
        _ => no_outline(),
    }
}

#[inline(always)]
pub fn writing_back_allows(event: &Event) -> bool
    ensures { result ≡ writing_back_allows event.now }
{
    matches!(event, Event::ReturnMemory)
}

#[inline(always)]
pub fn writing_back_outline(event: &Event) -> Outline
    ensures { (l : a_line.Line) → result ≡ outline_of (writing_back_row l event.now) }
{
    match event {
        Event::ReturnMemory => {
            let after = Stage::Parted { forw: None };
            gives(memory(lent_word(&home()), home()), Place::Memory, after)
        }
        _ => no_outline(),
    }
}

#[inline(always)]
pub fn parted_allows(event: &Event) -> bool
    ensures { result ≡ parted_allows event.now }
{
    matches!(event, Event::Left)
}

#[inline(always)]
pub fn parted_outline(me: NodeId, forw: &Option<NodeId>, event: &Event) -> Outline
    ensures { result ≡ outline_of (parted_row me forw.now event.now) }
{
    match event {
        Event::Left => {
            let before = leaving_word(*forw);
            gives(tag(me, before, invalid()), Place::Node(me), Stage::Idle)
        }
        _ => no_outline(),
    }
}
