//! The rows of a head that purges the entries behind it, one after another, and writes.
ghost use Rattle.std.specs.Prelude.{◌≡◌, true, IfSome};
ghost use Rattle.sci_core.specs.declared.lines.Line as a_line;
ghost use Rattle.sci_core.specs.Stage.{outline_of};
ghost use Rattle.sci_core.specs.Table.Purging.{can_count, written, saw_entry, saw_none, purging_allows, purging_row, advancing_allows, advancing_row, clearing_allows, clearing_row};

use crate::events::Event;
use crate::lines::Line;
use crate::outlines::Outline;
use crate::rows::Place;
use crate::stages::Stage;
use crate::table::found;
use crate::table::shorthand::{
    gives, invalid, no_outline, purged_word, purges, purging_word, settled_word, stays, tag, word,
};
use sci_words::{Kind, NodeId, Tag};

// The stamp can count one more write.
#[inline]
fn can_count(line: &Line) -> bool
    ensures { result ≡ can_count line.now }
{
    line.stamp < u64::MAX
}

/// The line after a write of these words.
#[inline]
pub fn written(line: &Line, words: &Option<[u64; 8]>) -> Line
    requires stamp { IfSome words.now (λ _. can_count line.now ≡ true) }
    ensures { result ≡ written line.now words.now }
{
    match words {
        Some(words) => Line {
            words: *words,
            stamp: line.stamp + 1,
        },
        None => *line,
    }
}

#[inline]
fn saw_entry(seen: &Option<Option<NodeId>>) -> bool
    ensures { result ≡ saw_entry seen.now }
{
    matches!(seen, Some(Some(_)))
}

#[inline]
fn saw_none(seen: &Option<Option<NodeId>>) -> bool
    ensures { result ≡ saw_none seen.now }
{
    matches!(seen, Some(None))
}

#[inline(always)]
pub fn purging_allows(me: NodeId, line: &Line, seen: &Option<Option<NodeId>>, event: &Event) -> bool
    ensures { result ≡ purging_allows me line.now event.now seen.now }
{
    match event {
        Event::Written(words) => saw_none(seen) && (words.is_none() || can_count(line)),
        Event::PurgeOne(found) => saw_entry(seen) && found::settled_body(found),
        Event::Adopt(found) => {
            saw_entry(seen) && found::rolling(found) && !found::names(me, &found.back)
        }
        _ => false,
    }
}

#[inline(always)]
pub fn purging_outline(me: NodeId, seen: &Option<Option<NodeId>>, event: &Event) -> Outline
    ensures { (l : a_line.Line) → result ≡ outline_of (purging_row me l event.now seen.now) }
{
    match (event, seen) {
        (Event::Written(_), _) => {
            let change = tag(me, purging_word(None), settled_word(true, None));
            gives(change, Place::Node(me), Stage::Idle)
        }
        (Event::PurgeOne(found), Some(Some(next))) => {
            let after = Stage::Advancing {
                victim: *next,
                word: purged_word(found),
            };
            stays(tag(*next, *found, purged_word(found)), after)
        }
        (Event::Adopt(found), Some(Some(next))) => {
            let after = Stage::Purging {
                seen: Some(Some(*next)),
            };
            let adopted = word(Kind::Roll, found.forw, Some(me));
            stays(tag(*next, *found, adopted), after)
        }
        _ => no_outline(),
    }
}

#[inline(always)]
pub fn advancing_allows(event: &Event) -> bool
    ensures { result ≡ advancing_allows event.now }
{
    matches!(event, Event::Advance)
}

#[inline(always)]
pub fn advancing_outline(me: NodeId, victim: NodeId, kept: &Tag, event: &Event) -> Outline
    ensures { (l : a_line.Line) → result ≡ outline_of (advancing_row me l victim kept.now event.now) }
{
    match event {
        Event::Advance => {
            let after = Stage::Clearing {
                victim,
                word: *kept,
            };
            let change = tag(me, purging_word(Some(victim)), purging_word(kept.forw));
            stays(change, after)
        }
        _ => no_outline(),
    }
}

#[inline(always)]
pub fn clearing_allows(event: &Event) -> bool
    ensures { result ≡ clearing_allows event.now }
{
    matches!(event, Event::Clear)
}

#[inline(always)]
pub fn clearing_outline(victim: NodeId, kept: &Tag, event: &Event) -> Outline
    ensures { (l : a_line.Line) → result ≡ outline_of (clearing_row l victim kept.now event.now) }
{
    match event {
        Event::Clear => { stays(tag(victim, purged_word(kept), invalid()), purges()) }
        _ => no_outline(),
    }
}
