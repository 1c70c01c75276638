//! Logs that are accepted are runs of a line: its events, by `Whole::run`, are all in turn, and as many are done as the log says.

use super::{follow, texts};
use crate::checks::same_at;
use sci_core::{AnyWords, Event, Line, OpenRefusal, Whole};
use sci_logs::{Claim, Entry, Found, Noted, Told, read_entry, read_opening};
use sci_words::{NodeId, Tag};
use std::alloc::Global;
use std::process::Abort;
use std::test::Fail;

/// Events of nodes, if there are those nodes.
#[tactic(auto, using(sci_core::proofs::Fitting::any_events_fit))]
fn run(whole: &mut Whole<AnyWords>, events: &[(NodeId, Event)]) -> Option<Result<usize, usize>> {
    let nodes = whole.nodes();
    if events.iter().all(|event| event.0.get() < nodes) {
        Some(whole.run(events))
    } else {
        None
    }
}

fn tag_of(whole: &Whole<AnyWords>, node: NodeId) -> Option<Tag> {
    if node.get() < whole.nodes() {
        Some(whole.tag(node))
    } else {
        None
    }
}

/// The event that a line of a log tells of. A tag that it names is the one that stands there.
fn event_of(whole: &Whole<AnyWords>, noted: &Noted) -> Option<Event> {
    match noted.told {
        Told::Event(event) => Some(event),
        Told::On { asks, whose, found } => {
            let tag = match found {
                Found::Exactly(tag) => tag,
                Found::Named(_) => tag_of(whole, whose.unwrap_or(noted.node))?,
            };
            Some(asks.event(tag))
        }
    }
}

/// The node, its event, and how that ends.
fn step_of(whole: &Whole<AnyWords>, noted: &Noted) -> Option<(NodeId, Event, Claim)> {
    let event = event_of(whole, noted)?;
    Some((noted.node, event, noted.claim))
}

/// How many exchanges are made of an event that ends so.
fn made(claim: Claim) -> usize {
    match claim {
        Claim::Done | Claim::Answered(_) => 1,
        Claim::Missed(_) | Claim::Busy => 0,
    }
}

/// A line of two nodes.
fn opened(alloc: Global, content: Line) -> Result<Whole<AnyWords>, Fail> {
    match Whole::open(alloc, 2, 0, content, AnyWords) {
        Ok(whole) => Ok(whole),
        Err(OpenRefusal::OutOfMemory) => Err(Fail::new("no memory")),
        Err(OpenRefusal::BadNodes) => Err(Fail::new("no line of two nodes")),
    }
}

/// One event more: it is in turn, and done where the log says so.
fn goes_on(rt: &impl Abort, whole: &mut Whole<AnyWords>, node: NodeId, event: Event, claim: Claim) {
    let events = [(node, event)];
    let went = run(whole, &events);
    same_at(rt, &events[0], &went, &Some(Ok(made(claim))));
}

/// The content that line 0 of a log opens with.
fn content_of(text: &str) -> Line {
    let mut content = Line::ZERO;
    for line in text.lines() {
        if let Ok((_, opening)) = read_opening(line.as_bytes()) {
            content = opening;
        }
    }
    content
}

/// The events of a log of one line are a run, one by one.
fn is_run(rt: &impl Abort, alloc: Global, text: &str) -> Result<(), Fail> {
    let mut whole = opened(alloc, content_of(text))?;
    for line in text.lines() {
        let Ok(noted) = read_entry(line.as_bytes()) else {
            continue;
        };
        let Some((node, event, claim)) = step_of(&whole, &noted) else {
            return Err(Fail::new("no such node"));
        };
        goes_on(rt, &mut whole, node, event, claim);
    }
    Ok(())
}

#[test]
fn accepted_logs_are_runs(rt: HostRuntime) -> Result<(), Fail> {
    for (at, with, _) in texts::lawful().iter() {
        let text = texts::edited(rt.alloc(), *at, with)?;
        is_run(&rt, rt.alloc(), &text)?;
    }
    Ok(())
}

/// The first entries, and then the one behind them.
fn entries_run(rt: &impl Abort, alloc: Global, front: usize, changed: &Entry) -> Result<(), Fail> {
    let mut whole = opened(alloc, Line::ZERO)?;
    for entry in follow::two_loads().iter().take(front) {
        goes_on(rt, &mut whole, entry.node, entry.event, entry.claim);
    }
    goes_on(rt, &mut whole, changed.node, changed.event, changed.claim);
    Ok(())
}

#[test]
fn accepted_entries_are_runs(rt: HostRuntime) -> Result<(), Fail> {
    for (front, changed, _) in follow::lawful().iter() {
        entries_run(&rt, rt.alloc(), *front, changed)?;
    }
    Ok(())
}
