//! The event that a line of a log tells of, with what it asks for.

ghost use Rattle.std.specs.Prelude.{◌≡◌};
ghost use Rattle.sci_logs.specs.LineText.{Gives, bare_told_at, bracketed_link_at, link_at, long_told_at, maybe_words_at, new_words_at, other_told_at, own_told_at, queue_at, requeue_at, some_node_at, tag_told_at, told_at, whose_at, written_at};

use crate::event_names::{bare_event, other_asks, own_asks};
use crate::fields::{MOST_NODE, closed, count, label, space, values};
use crate::parts::{Lack, Part};
use crate::tag_text::asked;
use crate::told::{Asks, Told};
use sci_core::Event;
use sci_dump::fields::behind;
use sci_words::NodeId;

/// A node.
#[tactic(auto, unfolding(crate::specs::LineText::some_node_at))]
fn some_node(text: &[u8]) -> Result<(Option<NodeId>, &[u8]), Lack>
    ensures { Gives (λ x. (x.0, x.1.now)) result (some_node_at text.now) }
{
    let (node, rest) = count(Part::Link, MOST_NODE, text)?;
    Ok((Some(NodeId::new(node).unwrap()), rest))
}

/// A link: a node, or `none`.
#[tactic(auto, unfolding(crate::specs::LineText::link_at))]
fn link(text: &[u8]) -> Result<(Option<NodeId>, &[u8]), Lack>
    ensures { Gives (λ x. (x.0, x.1.now)) result (link_at text.now) }
{
    if let Some(rest) = behind(b"none", text) {
        return Ok((None, rest));
    }
    some_node(text)
}

/// `(LINK) `.
#[tactic(auto, unfolding(crate::specs::LineText::bracketed_link_at))]
fn bracketed_link(text: &[u8]) -> Result<(Option<NodeId>, &[u8]), Lack>
    ensures { Gives (λ x. (x.0, x.1.now)) result (bracketed_link_at text.now) }
{
    let text = label(Part::Opened, b"(", text)?;
    match link(text) {
        Ok((link, text)) => {
            let rest = closed(text)?;
            Ok((link, rest))
        }
        Err(lack) => Err(lack),
    }
}

/// An event that asks for this tag, of that node or its own: `TAG) `.
#[tactic(auto, unfolding(crate::specs::LineText::tag_told_at))]
fn tag_told(asks: Asks, whose: Option<NodeId>, text: &[u8]) -> Result<(Told, &[u8]), Lack>
    ensures { Gives (λ x. (x.0, x.1.now)) result (tag_told_at asks whose text.now) }
{
    match asked(text) {
        Some((found, rest)) => {
            let rest = closed(rest)?;
            Ok((Told::On { asks, whose, found }, rest))
        }
        None => Err(Lack::new(Part::Tag, text)),
    }
}

/// Behind the name of an event that asks for nothing.
#[tactic(auto, unfolding(crate::specs::LineText::bare_told_at))]
fn bare_told(event: Event, text: &[u8]) -> Result<(Told, &[u8]), Lack>
    ensures { Gives (λ x. (x.0, x.1.now)) result (bare_told_at event text.now) }
{
    let rest = space(text)?;
    Ok((Told::Event(event), rest))
}

/// Of one that asks for the own tag: `(TAG) `.
#[tactic(auto, unfolding(crate::specs::LineText::own_told_at))]
fn own_told(asks: Asks, text: &[u8]) -> Result<(Told, &[u8]), Lack>
    ensures { Gives (λ x. (x.0, x.1.now)) result (own_told_at asks text.now) }
{
    let text = label(Part::Opened, b"(", text)?;
    tag_told(asks, None, text)
}

/// The node whose tag is asked for, behind a bracket.
#[tactic(auto, unfolding(crate::specs::LineText::whose_at))]
fn whose(text: &[u8]) -> Result<(NodeId, &[u8]), Lack>
    ensures { Gives (λ x. (x.0, x.1.now)) result (whose_at text.now) }
{
    let text = label(Part::Opened, b"(", text)?;
    let (node, text) = count(Part::NodeNumber, MOST_NODE, text)?;
    let rest = space(text)?;
    Ok((NodeId::new(node).unwrap(), rest))
}

/// Of one that asks for another node's tag: `(N TAG) `.
#[tactic(auto, unfolding(crate::specs::LineText::other_told_at))]
fn other_told(asks: Asks, text: &[u8]) -> Result<(Told, &[u8]), Lack>
    ensures { Gives (λ x. (x.0, x.1.now)) result (other_told_at asks text.now) }
{
    match whose(text) {
        Ok((node, text)) => tag_told(asks, Some(node), text),
        Err(lack) => Err(lack),
    }
}

/// Behind `Queue`: `(LINK) `.
#[tactic(auto, unfolding(crate::specs::LineText::queue_at))]
fn queue(text: &[u8]) -> Result<(Told, &[u8]), Lack>
    ensures { Gives (λ x. (x.0, x.1.now)) result (queue_at text.now) }
{
    match bracketed_link(text) {
        Ok((link, rest)) => Ok((Told::Event(Event::Queue(link)), rest)),
        Err(lack) => Err(lack),
    }
}

/// Behind `Requeue`, likewise.
#[tactic(auto, unfolding(crate::specs::LineText::requeue_at))]
fn requeue(text: &[u8]) -> Result<(Told, &[u8]), Lack>
    ensures { Gives (λ x. (x.0, x.1.now)) result (requeue_at text.now) }
{
    match bracketed_link(text) {
        Ok((link, rest)) => Ok((Told::Event(Event::Requeue(link)), rest)),
        Err(lack) => Err(lack),
    }
}

/// `words V V V V V V V V`.
#[tactic(auto, unfolding(crate::specs::LineText::new_words_at))]
fn new_words(text: &[u8]) -> Result<(Option<[u64; 8]>, &[u8]), Lack>
    ensures { Gives (λ x. (x.0, x.1.now)) result (new_words_at text.now) }
{
    let text = label(Part::NoneOrWords, b"words", text)?;
    let (words, rest) = values(text)?;
    Ok((Some(words), rest))
}

/// The same, or `none`.
#[tactic(auto, unfolding(crate::specs::LineText::maybe_words_at))]
fn maybe_words(text: &[u8]) -> Result<(Option<[u64; 8]>, &[u8]), Lack>
    ensures { Gives (λ x. (x.0, x.1.now)) result (maybe_words_at text.now) }
{
    if let Some(rest) = behind(b"none", text) {
        return Ok((None, rest));
    }
    new_words(text)
}

/// Behind `Written`: `(none) `, or `(words V V V V V V V V) `.
#[tactic(auto, unfolding(crate::specs::LineText::written_at))]
fn written(text: &[u8]) -> Result<(Told, &[u8]), Lack>
    ensures { Gives (λ x. (x.0, x.1.now)) result (written_at text.now) }
{
    let text = label(Part::Opened, b"(", text)?;
    let (words, text) = maybe_words(text)?;
    let rest = closed(text)?;
    Ok((Told::Event(Event::Written(words)), rest))
}

/// An event that is told with its link or its words.
#[tactic(auto, unfolding(crate::specs::LineText::long_told_at))]
fn long_told(text: &[u8]) -> Result<(Told, &[u8]), Lack>
    ensures { Gives (λ x. (x.0, x.1.now)) result (long_told_at text.now) }
{
    if let Some(rest) = behind(b"Queue", text) {
        return queue(rest);
    }
    if let Some(rest) = behind(b"Written", text) {
        return written(rest);
    }
    if let Some(rest) = behind(b"Requeue", text) {
        return requeue(rest);
    }
    Err(Lack::new(Part::Event, text))
}

/// What an event is told as, and a space.
#[tactic(auto, unfolding(crate::specs::LineText::told_at))]
pub(crate) fn told_event(text: &[u8]) -> Result<(Told, &[u8]), Lack>
    ensures { Gives (λ x. (x.0, x.1.now)) result (told_at text.now) }
{
    if let Some((event, rest)) = bare_event(text) {
        return bare_told(event, rest);
    }
    if let Some((asks, rest)) = own_asks(text) {
        return own_told(asks, rest);
    }
    if let Some((asks, rest)) = other_asks(text) {
        return other_told(asks, rest);
    }
    long_told(text)
}
