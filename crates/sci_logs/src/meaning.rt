//! A line of a log on the lines that it is followed on.

ghost use Rattle.std.specs.Prelude.{◌≡◌, ◌<◌, true};
ghost use Rattle.std.specs.Str.{bytes_eq};
ghost use Rattle.sci_words.specs.Tag.{name_of};
ghost use Rattle.sci_core.specs.Answers.{row_at};
ghost use Rattle.sci_core.specs.Whole.{nodes_of, state_of};
ghost use Rattle.sci_logs.specs.Steps.{lines_of};
ghost use Rattle.sci_logs.specs.Told.{IsNotedIn, is_told_in, TakesTold, asked_tag, asking, is_on, meant, on_tag_of, whose_tag};

use crate::entries::Deviation;
use crate::lines::Follower;
use crate::told::{Asks, Found, Noted, Told};
use sci_core::{AnyWords, Change, Event, Whole};
use sci_words::{NodeId, Tag, name};

/// Whose tag it is: the acting node's own, where none is told.
fn whose_tag(me: NodeId, whose: Option<NodeId>) -> NodeId
    ensures { result ≡ whose_tag me whose }
{
    match whose {
        Some(node) => node,
        None => me,
    }
}

/// Whether a tag has the name of this one.
fn has_name_of(sample: &Tag, tag: &Tag) -> bool
    ensures { result ≡ bytes_eq (name_of tag.now) (name_of sample.now) }
{
    let named = name(*tag).as_bytes();
    named == name(*sample).as_bytes()
}

/// The tag that is asked for, where this one stands.
fn asked_tag(stands: &Tag, found: &Found) -> Option<Tag>
    ensures { result ≡ asked_tag stands.now found.now }
{
    match found {
        Found::Named(sample) => {
            if has_name_of(sample, stands) {
                Some(*stands)
            } else {
                None
            }
        }
        Found::Exactly(tag) => Some(*tag),
    }
}

/// Whether the exchange would change this node's tag.
fn is_on(node: NodeId, change: &Change) -> bool
    ensures { result ≡ is_on node change.now }
{
    match change {
        Change::OfMemory { .. } => false,
        Change::OfTag { node: of, .. } => *of == node,
    }
}

/// What the node's event would change.
#[tactic(auto, using(crate::proofs::Standing::change_at))]
fn change(line: &Whole<AnyWords>, me: NodeId, event: &Event) -> Change
    requires { me < nodes_of line.now }
    ensures { result ≡ (row_at (state_of line.now) me event.now).change }
{
    let outline = line.stage(me).outline(me, event);
    outline.change
}

/// An event on a node's tag: one of that node, or not in turn.
fn on_tag_of(
    line: &Whole<AnyWords>,
    me: NodeId,
    node: NodeId,
    event: Event,
) -> Result<Event, Deviation>
    requires { me < nodes_of line.now }
    ensures { result ≡ on_tag_of (state_of line.now) me node event }
{
    if is_on(node, &change(line, me, &event)) {
        Ok(event)
    } else {
        Err(Deviation::NotInTurn)
    }
}

/// The event that is meant, or why it can't be one.
fn meant(line: &Whole<AnyWords>, me: NodeId, told: &Told) -> Result<Event, Deviation>
    requires me { me < nodes_of line.now }
    requires whose { is_told_in (nodes_of line.now) told.now ≡ true }
    ensures { result ≡ meant (state_of line.now) me told.now }
{
    match told {
        Told::Event(event) => Ok(*event),
        Told::On { asks, whose, found } => {
            let node = whose_tag(me, *whose);
            match asked_tag(&line.tag(node), found) {
                Some(tag) => on_tag_of(line, me, node, asks.event(tag)),
                None => Err(Deviation::AnotherWord),
            }
        }
    }
}

impl Follower {
    /// The event that is meant, or why it can't be one.
    #[tactic(auto, using(crate::proofs::Widths::width_at))]
    fn meant(&self, noted: &Noted) -> Result<Event, Deviation>
        requires { IsNotedIn self.now.size noted.now }
        ensures { result ≡ meant (lines_of self.now noted.now.line) noted.now.node noted.now.told }
    {
        meant(
            &self.lines[usize::from(noted.line)],
            noted.node,
            &noted.told,
        )
    }

    /// Has the told event happen on its line: a name that is told is that of the tag that stands. Ok: the line answers so. Err: it
    /// doesn't, and why; the lines after it are those of the table's step, or as they were where there is none.
    pub fn note(&mut self, noted: &Noted) -> Result<(), Deviation>
        requires { IsNotedIn self.old.size noted.now }
        ensures takes { TakesTold self.old.size.nodes (lines_of self.old) noted.now result (lines_of self.new) }
        ensures size { self.new.size ≡ self.old.size }
    {
        match self.meant(noted) {
            Ok(event) => self.take(&noted.entry(event)),
            Err(why) => Err(why),
        }
    }
}
