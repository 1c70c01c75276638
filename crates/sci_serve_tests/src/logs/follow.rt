//! Entries of logs, worked out by hand from the table of exchanges.
ghost use Rattle.std.specs.Prelude.{◌≡◌, ◌<◌, IfOk};
ghost use Rattle.sci_script.specs.Size.{IsSize};
ghost use Rattle.sci_logs.specs.Steps.{IsIn};

mod growths;
mod memory;

use crate::checks::same_at;
use sci_core::{Event, Line};
use sci_logs::{Claim, Departure, Deviation, Entry, Follower};
use sci_script::Size;
use sci_words::{Kind, NodeId, Tag};
use std::alloc::{AllocError, Global};
use std::process::Abort;
use std::test::Fail;

pub(crate) fn node(number: u16) -> NodeId
    requires { number < 65535 }
    ensures { result ≡ number }
{
    match NodeId::new(number) {
        Some(node) => node,
        None => unreachable!(),
    }
}

/// Two nodes and two lines.
pub(crate) fn two_lines(alloc: Global) -> Result<Follower, AllocError> {
    Follower::open(alloc, Size { nodes: 2, lines: 2 })
}

/// The tag of a node that is alone on its list.
const ALONE: Tag = Tag {
    kind: Kind::Fresh,
    held: false,
    forw: None,
    back: None,
};

const OTHER: Line = Line {
    words: [0; 8],
    stamp: 1,
};

/// What is said of an entry, if its node and line are there.
pub(crate) fn take(follower: &mut Follower, entry: &Entry) -> Option<Result<(), Deviation>>
    ensures size { follower.new.size ≡ follower.old.size }
{
    let Size { nodes, lines } = follower.size();
    if entry.node.get() < nodes && entry.line < lines {
        Some(follower.take(entry))
    } else {
        None
    }
}

/// What is said of entries, if their nodes and lines are there.
pub(crate) fn follow(follower: &mut Follower, entries: &[Entry]) -> Option<Result<(), Departure>>
    ensures size { follower.new.size ≡ follower.old.size }
{
    let Size { nodes, lines } = follower.size();
    if entries
        .iter()
        .all(|entry| entry.node.get() < nodes && entry.line < lines)
    {
        Some(follower.follow(entries))
    } else {
        None
    }
}

/// A node's event on line 0, and how it ended.
fn entry(number: u16, event: Event, claim: Claim) -> Entry
    requires { number < 65535 }
{
    Entry {
        node: node(number),
        line: 0,
        event,
        claim,
    }
}

/// Two nodes load the line, one after the other.
pub(crate) fn two_loads() -> [Entry; 9] {
    [
        entry(0, Event::Queue(None), Claim::Done),
        entry(0, Event::PrependValid, Claim::Done),
        entry(0, Event::ReturnMemory, Claim::Done),
        entry(0, Event::Settle, Claim::Answered(Line::ZERO)),
        entry(1, Event::Queue(Some(node(0))), Claim::Done),
        entry(1, Event::PrependValid, Claim::Done),
        entry(1, Event::ReturnMemory, Claim::Done),
        entry(1, Event::AttachFresh(ALONE), Claim::Done),
        entry(1, Event::Settle, Claim::Answered(Line::ZERO)),
    ]
}

/// Behind so many of these entries another one, and what is said of that.
pub(crate) type Changed = (usize, Entry, Result<(), Deviation>);

/// Entries left out, doubled, and of another node.
fn out_of_turn() -> [Changed; 8] {
    let no = Err(Deviation::NotInTurn);
    [
        (0, entry(0, Event::PrependValid, Claim::Done), no),
        (1, entry(0, Event::ReturnMemory, Claim::Done), no),
        (1, entry(0, Event::Queue(None), Claim::Done), no),
        (1, entry(1, Event::PrependValid, Claim::Done), no),
        (2, entry(1, Event::ReturnMemory, Claim::Done), no),
        (7, entry(1, Event::Settle, Claim::Done), no),
        (9, entry(1, Event::Settle, Claim::Done), no),
        (9, entry(1, Event::Settle, Claim::Missed(1)), no),
    ]
}

/// Entries with another outcome.
fn other_outcomes() -> [Changed; 8] {
    let cannot = Err(Deviation::CannotBe);
    let line = Err(Deviation::AnotherLine);
    [
        (0, entry(0, Event::Look, Claim::Missed(0)), cannot),
        (0, entry(0, Event::Look, Claim::Busy), cannot),
        (1, entry(0, Event::PrependValid, Claim::Missed(0)), cannot),
        (3, entry(0, Event::Settle, Claim::Missed(1)), cannot),
        (0, entry(0, Event::Look, Claim::Answered(Line::ZERO)), line),
        (
            0,
            entry(0, Event::Queue(None), Claim::Answered(Line::ZERO)),
            line,
        ),
        (3, entry(0, Event::Settle, Claim::Answered(OTHER)), line),
        (8, entry(1, Event::Settle, Claim::Answered(OTHER)), line),
    ]
}

/// Entries that tell less, and looks between the events.
pub(crate) fn lawful() -> [Changed; 6] {
    [
        (0, entry(0, Event::Look, Claim::Done), Ok(())),
        (2, entry(1, Event::Look, Claim::Done), Ok(())),
        (3, entry(0, Event::Settle, Claim::Done), Ok(())),
        (4, entry(1, Event::Queue(None), Claim::Done), Ok(())),
        (8, entry(1, Event::Settle, Claim::Done), Ok(())),
        (9, entry(0, Event::Look, Claim::Done), Ok(())),
    ]
}

/// The first entries are as the lines answer, and of the one behind them this is said.
fn is_told(rt: &impl Abort, alloc: Global, row: &Changed) -> Result<(), Fail> {
    let (front, changed, want) = *row;
    let mut follower = two_lines(alloc)?;
    for entry in two_loads().iter().take(front) {
        same_at(
            rt,
            &(front, *entry),
            &take(&mut follower, entry),
            &Some(Ok(())),
        );
    }
    same_at(rt, row, &take(&mut follower, &changed), &Some(want));
    Ok(())
}

#[test]
fn changed_entries_are_told(rt: HostRuntime) -> Result<(), Fail> {
    for row in out_of_turn().iter() {
        is_told(&rt, rt.alloc(), row)?;
    }
    for row in other_outcomes().iter() {
        is_told(&rt, rt.alloc(), row)?;
    }
    for row in lawful().iter() {
        is_told(&rt, rt.alloc(), row)?;
    }
    Ok(())
}

/// Node 1 noted no head, and memory names node 0: FRESH has the code 1, with the head 0 in the bits from 16 on.
fn missing() -> [(Entry, Result<(), Deviation>); 4] {
    let word = Err(Deviation::AnotherWord);
    [
        (entry(1, Event::PrependValid, Claim::Missed(1)), Ok(())),
        (entry(1, Event::PrependValid, Claim::Missed(2)), word),
        (entry(1, Event::PrependValid, Claim::Done), word),
        (
            entry(1, Event::PrependValid, Claim::Answered(Line::ZERO)),
            word,
        ),
    ]
}

#[test]
fn misses_tell_the_word_found(rt: HostRuntime) -> Result<(), Fail> {
    let mut follower = two_lines(rt.alloc())?;
    for entry in two_loads().iter().take(4) {
        same_at(&rt, entry, &take(&mut follower, entry), &Some(Ok(())));
    }
    let queued = entry(1, Event::Queue(None), Claim::Done);
    same_at(&rt, &queued, &take(&mut follower, &queued), &Some(Ok(())));
    for (entry, want) in missing().iter() {
        same_at(&rt, entry, &take(&mut follower, entry), &Some(*want));
    }
    Ok(())
}

#[test]
fn a_log_is_followed_to_its_first_departure(rt: HostRuntime) -> Result<(), Fail> {
    let mut follower = two_lines(rt.alloc())?;
    let log = two_loads();
    same_at(&rt, &"a log", &follow(&mut follower, &log), &Some(Ok(())));
    // node 0 may queue, but its tag isn't Invalid any more
    let want = Departure {
        place: 0,
        why: Deviation::AnotherWord,
    };
    same_at(
        &rt,
        &"behind it",
        &follow(&mut follower, &log),
        &Some(Err(want)),
    );
    let mut fresh = two_lines(rt.alloc())?;
    let mut doubled = two_loads();
    doubled[5] = doubled[4];
    let want = Departure {
        place: 5,
        why: Deviation::NotInTurn,
    };
    same_at(
        &rt,
        &"doubled",
        &follow(&mut fresh, &doubled),
        &Some(Err(want)),
    );
    Ok(())
}
