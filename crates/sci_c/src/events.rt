//! The numbers of events.
ghost use Rattle.std.specs.Prelude.{◌≡◌, ◌↔◌, true, false, IsTrue, MatchOption};
ghost use Rattle.sci_core.specs.declared.events.Event as an_event;
ghost use Rattle.sci_c.specs.Links.{fits_tag};
ghost use Rattle.sci_words.specs.Tag.{link_below};
ghost use Rattle.sci_c.specs.Events.{bare, linking, finding, writing, fits_event, words_meant, event_meant, IsEvent};

use crate::links::{link_meant, link_number, tag_meant, tag_number};
use sci_core::Event;
use sci_words::{NodeId, Tag};

/// An event in numbers. What an event doesn't have is 0.
#[repr(C)]
#[derive(Clone, Copy, Debug, PartialEq, Eq)]
pub struct EventNumbers {
    /// Which event: 0 Look, and 1 to 34 the exchanges in the order of `sci.h`.
    pub event: u8,
    /// Of Written: 1 where it writes words, 0 where the stamp is spent.
    pub has: u8,
    /// Of Queue and Requeue: the head that was found. 65,535: no list.
    pub link: u16,
    /// The code of the tag that was found, in layout 2, of an event that carries one.
    pub found: u64,
    /// The words that Written writes.
    pub words: [u64; 8],
}

// An event that carries nothing.
fn bare(event: u8) -> EventNumbers
    ensures { result ≡ bare event }
{
    EventNumbers {
        event,
        has: 0,
        link: 0,
        found: 0,
        words: [0; 8],
    }
}

// An event that carries a link.
fn linking(event: u8, link: &Option<NodeId>) -> EventNumbers
    ensures numbers { result ≡ linking event link.now }
    ensures below { link_below 65535 link.now ≡ true }
{
    EventNumbers {
        link: link_number(*link),
        ..bare(event)
    }
}

// An event that carries the tag that was found, where that is well formed.
fn finding(event: u8, found: &Tag) -> Option<EventNumbers>
    ensures { MatchOption result (fits_tag found.now ≡ false) (λ n. (fits_tag found.now ≡ true) × (n ≡ finding event found.now)) }
{
    match tag_number(found) {
        Some(found) => Some(EventNumbers {
            found,
            ..bare(event)
        }),
        None => None,
    }
}

// Written.
fn writing(event: u8, words: &Option<[u64; 8]>) -> EventNumbers
    ensures { result ≡ writing event words.now }
{
    match words {
        Some(words) => EventNumbers {
            has: 1,
            words: *words,
            ..bare(event)
        },
        None => bare(event),
    }
}

/// The numbers of an event, where it carries no tag that is ill formed.
fn write_event(event: &Event) -> Option<EventNumbers>
    ensures { MatchOption result (fits_event event.now ≡ false) (λ n. IsEvent n event.now) }
{
    let number = event.number();
    match event {
        Event::Queue(forw) | Event::Requeue(forw) => Some(linking(number, forw)),
        Event::Written(words) => Some(writing(number, words)),
        Event::AttachFresh(found)
        | Event::Hold(found)
        | Event::Convert(found)
        | Event::BeginPurge(found)
        | Event::AttachDirty(found)
        | Event::PurgeOne(found)
        | Event::Roll(found)
        | Event::TellSuccessor(found)
        | Event::TellPredecessor(found)
        | Event::Adopt(found)
        | Event::Leave(found)
        | Event::Promote(found) => finding(number, found),
        _ => Some(bare(number)),
    }
}

// The words that Written writes, if it writes some.
fn words_meant(numbers: &EventNumbers) -> Option<[u64; 8]>
    ensures { result ≡ words_meant numbers.now }
{
    if numbers.has == 1 {
        Some(numbers.words)
    } else {
        None
    }
}

// The only event that can have these numbers, if one has, from the tag that it would carry.
fn event_meant(numbers: &EventNumbers, found: Tag) -> Event
    ensures { result ≡ event_meant numbers.now found }
{
    match numbers.event {
        0 => Event::Look,
        1 => Event::Queue(link_meant(numbers.link)),
        2 => Event::Requeue(link_meant(numbers.link)),
        3 => Event::PrependValid,
        4 => Event::ReturnMemory,
        5 => Event::AttachFresh(found),
        6 => Event::Settle,
        7 => Event::Hold(found),
        8 => Event::Unhold,
        9 => Event::Convert(found),
        10 => Event::FreshToGone,
        11 => Event::Converted,
        12 => Event::Unconverted,
        13 => Event::BeginPurge(found),
        14 => Event::Written(words_meant(numbers)),
        15 => Event::PrependGone,
        16 => Event::AttachDirty(found),
        17 => Event::ReturnCopy,
        18 => Event::PurgeOne(found),
        19 => Event::Advance,
        20 => Event::Clear,
        21 => Event::Roll(found),
        22 => Event::TellSuccessor(found),
        23 => Event::TellPredecessor(found),
        24 => Event::Adopt(found),
        25 => Event::Rolled,
        26 => Event::Leave(found),
        27 => Event::Promote(found),
        28 => Event::PassOn,
        29 => Event::Stay,
        30 => Event::ReEnter,
        31 => Event::ReturnHomeFresh,
        32 => Event::ReturnHomeDirty,
        33 => Event::Left,
        _ => Event::HomeWrite,
    }
}

// Whether the numbers are the same.
fn is_same(numbers: &EventNumbers, own: &EventNumbers) -> bool
    ensures { IsTrue result ↔ (own.now ≡ numbers.now) }
{
    *own == *numbers
}

// Whether these are the numbers of this event.
fn is_event(numbers: &EventNumbers, event: &Event) -> bool
    ensures { IsTrue result ↔ IsEvent numbers.now event.now }
{
    match write_event(event) {
        Some(own) => is_same(numbers, &own),
        None => false,
    }
}

/// The event that has these numbers, where one has. No two have the same.
pub fn read_event(numbers: &EventNumbers) -> Option<Event>
    ensures event { MatchOption result ((e : an_event.Event) → IsEvent numbers.now e → ⊥) (λ e. IsEvent numbers.now e) }
    ensures one { (e d : an_event.Event) → IsEvent numbers.now e → IsEvent numbers.now d → e ≡ d }
{
    let event = event_meant(numbers, tag_meant(numbers.found));
    if is_event(numbers, &event) {
        Some(event)
    } else {
        None
    }
}
