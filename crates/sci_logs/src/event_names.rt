//! Which event a line of a log tells of, by its name.

ghost use Rattle.std.specs.Prelude.{◌≡◌};
ghost use Rattle.sci_dump.specs.Reading.{Reads};
ghost use Rattle.sci_logs.specs.Names.{bare_event_at, first_of, leaving_event_at, memory_event_at, other_asks_at, own_asks_at, own_event_at, step_event_at};

use crate::told::Asks;
use sci_core::Event;
use sci_dump::fields::behind;

/// An event on memory's word.
#[tactic(auto, unfolding(crate::specs::Names::memory_event_at))]
fn memory_event(text: &[u8]) -> Option<(Event, &[u8])>
    ensures { Reads (λ x. (x.0, x.1.now)) result (memory_event_at text.now) }
{
    if let Some(rest) = behind(b"PrependValid", text) {
        return Some((Event::PrependValid, rest));
    }
    if let Some(rest) = behind(b"ReturnMemory", text) {
        return Some((Event::ReturnMemory, rest));
    }
    if let Some(rest) = behind(b"PrependGone", text) {
        return Some((Event::PrependGone, rest));
    }
    if let Some(rest) = behind(b"HomeWrite", text) {
        return Some((Event::HomeWrite, rest));
    }
    if let Some(rest) = behind(b"FreshToGone", text) {
        return Some((Event::FreshToGone, rest));
    }
    None
}

/// An event on memory's word, of a head that leaves.
#[tactic(auto, unfolding(crate::specs::Names::leaving_event_at))]
fn leaving_event(text: &[u8]) -> Option<(Event, &[u8])>
    ensures { Reads (λ x. (x.0, x.1.now)) result (leaving_event_at text.now) }
{
    if let Some(rest) = behind(b"PassOn", text) {
        return Some((Event::PassOn, rest));
    }
    if let Some(rest) = behind(b"ReturnHomeFresh", text) {
        return Some((Event::ReturnHomeFresh, rest));
    }
    if let Some(rest) = behind(b"ReturnHomeDirty", text) {
        return Some((Event::ReturnHomeDirty, rest));
    }
    None
}

/// An event on the own tag, or on one that the step keeps.
#[tactic(auto, unfolding(crate::specs::Names::own_event_at))]
fn own_event(text: &[u8]) -> Option<(Event, &[u8])>
    ensures { Reads (λ x. (x.0, x.1.now)) result (own_event_at text.now) }
{
    if let Some(rest) = behind(b"Look", text) {
        return Some((Event::Look, rest));
    }
    if let Some(rest) = behind(b"Settle", text) {
        return Some((Event::Settle, rest));
    }
    if let Some(rest) = behind(b"Unhold", text) {
        return Some((Event::Unhold, rest));
    }
    if let Some(rest) = behind(b"Advance", text) {
        return Some((Event::Advance, rest));
    }
    if let Some(rest) = behind(b"Clear", text) {
        return Some((Event::Clear, rest));
    }
    if let Some(rest) = behind(b"Rolled", text) {
        return Some((Event::Rolled, rest));
    }
    None
}

/// The same, of other steps.
#[tactic(auto, unfolding(crate::specs::Names::step_event_at))]
fn step_event(text: &[u8]) -> Option<(Event, &[u8])>
    ensures { Reads (λ x. (x.0, x.1.now)) result (step_event_at text.now) }
{
    if let Some(rest) = behind(b"Converted", text) {
        return Some((Event::Converted, rest));
    }
    if let Some(rest) = behind(b"Unconverted", text) {
        return Some((Event::Unconverted, rest));
    }
    if let Some(rest) = behind(b"ReturnCopy", text) {
        return Some((Event::ReturnCopy, rest));
    }
    if let Some(rest) = behind(b"Stay", text) {
        return Some((Event::Stay, rest));
    }
    if let Some(rest) = behind(b"ReEnter", text) {
        return Some((Event::ReEnter, rest));
    }
    if let Some(rest) = behind(b"Left", text) {
        return Some((Event::Left, rest));
    }
    None
}

/// An event without an argument.
#[tactic(auto, unfolding(crate::specs::Names::bare_event_at))]
pub(crate) fn bare_event(text: &[u8]) -> Option<(Event, &[u8])>
    ensures { Reads (λ x. (x.0, x.1.now)) result (bare_event_at text.now) }
{
    if let Some(found) = own_event(text) {
        return Some(found);
    }
    if let Some(found) = memory_event(text) {
        return Some(found);
    }
    if let Some(found) = step_event(text) {
        return Some(found);
    }
    leaving_event(text)
}

/// Which event that asks for the own tag.
#[tactic(auto, unfolding(crate::specs::Names::own_asks_at))]
pub(crate) fn own_asks(text: &[u8]) -> Option<(Asks, &[u8])>
    ensures { Reads (λ x. (x.0, x.1.now)) result (own_asks_at text.now) }
{
    if let Some(rest) = behind(b"Hold", text) {
        return Some((Asks::Hold, rest));
    }
    if let Some(rest) = behind(b"Convert", text) {
        return Some((Asks::Convert, rest));
    }
    if let Some(rest) = behind(b"BeginPurge", text) {
        return Some((Asks::BeginPurge, rest));
    }
    if let Some(rest) = behind(b"Roll", text) {
        return Some((Asks::Roll, rest));
    }
    if let Some(rest) = behind(b"Leave", text) {
        return Some((Asks::Leave, rest));
    }
    None
}

/// Which event that asks for another node's tag.
#[tactic(auto, unfolding(crate::specs::Names::other_asks_at))]
pub(crate) fn other_asks(text: &[u8]) -> Option<(Asks, &[u8])>
    ensures { Reads (λ x. (x.0, x.1.now)) result (other_asks_at text.now) }
{
    if let Some(rest) = behind(b"AttachFresh", text) {
        return Some((Asks::AttachFresh, rest));
    }
    if let Some(rest) = behind(b"AttachDirty", text) {
        return Some((Asks::AttachDirty, rest));
    }
    if let Some(rest) = behind(b"PurgeOne", text) {
        return Some((Asks::PurgeOne, rest));
    }
    if let Some(rest) = behind(b"TellSuccessor", text) {
        return Some((Asks::TellSuccessor, rest));
    }
    if let Some(rest) = behind(b"TellPredecessor", text) {
        return Some((Asks::TellPredecessor, rest));
    }
    if let Some(rest) = behind(b"Adopt", text) {
        return Some((Asks::Adopt, rest));
    }
    if let Some(rest) = behind(b"Promote", text) {
        return Some((Asks::Promote, rest));
    }
    None
}
