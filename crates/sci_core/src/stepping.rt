//! The steps of a `Whole`.
ghost use Rattle.std.specs.Prelude.{All, ◌≡◌, ◌≢◌, ◌<◌, ◌≤◌, ◌↔◌, true, cond, Some, None, IsTrue, MatchOption, length, slice_index_or};
ghost use Rattle.sci_words.specs.Codes.{tag_code, mem_code};
ghost use Rattle.sci_core.specs.Answers.{Answers, Exchanges, FitsEvent, Makes, found_code, is_allowed, row_at};
ghost use Rattle.sci_core.specs.Costs.{IsPaid};
ghost use Rattle.sci_core.specs.declared.events.Event.{Event};
ghost use Rattle.sci_core.specs.declared.outlines.Motion.TheVariants.{Takes, Gives};
ghost use Rattle.sci_core.specs.declared.stages.Stage.{Stage};
ghost use Rattle.sci_core.specs.Ranges.{ChangesBelow, PlaceBelow};
ghost use Rattle.sci_core.specs.Laid.{given_lines, lines_after, bytes_after, MovesBelow, CanCountIn};
ghost use Rattle.sci_core.specs.Stage.{outline_of};
ghost use Rattle.sci_core.specs.State.{blank};
ghost use Rattle.sci_core.specs.Run.{done_in, IsLawfulLine, KeepsLawful, RunsTo};
ghost use Rattle.sci_core.specs.Step.{Finds, looked, memory_after};
ghost use Rattle.sci_core.specs.Table.{has_row};
ghost use Rattle.sci_core.specs.WellFormed.{FindsWord, IsMem, IsTag};
ghost use Rattle.sci_core.specs.Whole.{nodes_of, state_of, tag_list_after, IsSameLine};

use crate::events::Event;
use crate::keeps::Keeps;
use crate::lines::Line;
use crate::outcomes::{NotInTurn, Outcome};
use crate::outlines::{Motion, Outline};
use crate::rows::{Change, Place};
use crate::stages::Stage;
use crate::table::purging::written;
use crate::whole::Whole;
use sci_words::{Mem, NodeId, Tag, write_mem, write_tag};

#[inline(always)]
fn place_of(node: NodeId) -> usize
    ensures { result ≡ node }
{
    usize::from(node.get())
}

// How many done events an outcome is.
fn done_in(outcome: &Outcome) -> usize
    ensures done { result ≡ done_in outcome.now }
    ensures few { result ≤ 1 }
{
    match outcome {
        Outcome::Done(_) => 1,
        Outcome::Missed(_) | Outcome::Busy => 0,
    }
}

#[inline(always)]
fn is_same(found: &Tag, before: &Tag) -> bool
    ensures { IsTrue result ↔ (found.now ≡ before.now) }
{
    *found == *before
}

// Writes the word after the change.
#[inline(always)]
fn write_word(memory: &mut Mem, tags: &mut [Tag], change: &Change)
    requires { ChangesBelow (length tags.old) change.now }
    ensures memory { memory.new ≡ memory_after memory.old change.now }
    ensures tags { tags.new ≡ tag_list_after tags.old change.now }
{
    match change {
        Change::OfMemory { after, .. } => *memory = *after,
        Change::OfTag { node, after, .. } => tags[place_of(*node)] = *after,
    }
}

// Writes over the own bytes as they are given back.
#[inline(always)]
fn give(lines: &mut [Line], me: NodeId, event: &Event)
    requires own { me < length lines.old }
    requires stamp { CanCountIn (slice_index_or lines.old me blank) event.now }
    ensures { lines.new ≡ given_lines lines.old me event.now }
{
    match event {
        Event::Left => lines[place_of(me)] = Line::ZERO,
        Event::Written(Some(words)) => {
            let line = written(&lines[place_of(me)], &Some(*words));
            lines[place_of(me)] = line;
        }
        _ => {}
    }
}

// Copies the bytes of the slot that is taken into the node's own; memory's only where a fetch takes them.
#[inline(always)]
fn take_bytes(bytes: &Line, lines: &mut [Line], me: NodeId, place: &Place, after: &Stage)
    requires own { me < length lines.old }
    requires place { PlaceBelow (length lines.old) place.now }
    ensures { (e : Event) → lines.new ≡ lines_after bytes.now lines.old me e (Takes place.now) after.now }
{
    match place {
        Place::Memory => {
            if matches!(after, Stage::Fetching { .. }) {
                lines[place_of(me)] = *bytes;
            }
        }
        Place::Node(node) => lines[place_of(me)] = lines[place_of(*node)],
    }
}

// Copies the node's own bytes into the slot that is given back.
#[inline(always)]
fn give_bytes(bytes: &mut Line, lines: &mut [Line], me: NodeId, event: &Event, place: &Place)
    requires own { me < length lines.old }
    requires place { PlaceBelow (length lines.old) place.now }
    requires stamp { CanCountIn (slice_index_or lines.old me blank) event.now }
    ensures memory { bytes.new ≡ bytes_after bytes.old lines.old me event.now (Gives place.now) }
    ensures lines { (s : Stage) → lines.new ≡ lines_after bytes.old lines.old me event.now (Gives place.now) s }
{
    give(lines, me, event);
    match place {
        Place::Memory => *bytes = lines[place_of(me)],
        Place::Node(node) => lines[place_of(*node)] = lines[place_of(me)],
    }
}

// Moves bytes where an exchange moves them.
#[inline(always)]
fn move_bytes(bytes: &mut Line, lines: &mut [Line], me: NodeId, event: &Event, outline: &Outline)
    requires own { me < length lines.old }
    requires motion { MovesBelow (length lines.old) outline.now.motion }
    requires stamp { CanCountIn (slice_index_or lines.old me blank) event.now }
    ensures memory { bytes.new ≡ bytes_after bytes.old lines.old me event.now outline.now.motion }
    ensures lines { lines.new ≡ lines_after bytes.old lines.old me event.now outline.now.motion outline.now.after }
{
    match &outline.motion {
        Motion::Stays => {}
        Motion::Takes(place) => take_bytes(bytes, lines, me, place, &outline.after),
        Motion::Gives(place) => give_bytes(bytes, lines, me, event, place),
    }
}

// The line, where it is to be answered.
#[inline(always)]
fn answer(answers: bool, line: &Line) -> Option<Line>
    ensures { result ≡ cond answers (Some line.now) None }
{
    if answers { Some(*line) } else { None }
}

impl<K: Keeps> Whole<K> {
    // The code of memory's word, where that isn't the word before.
    #[inline(always)]
    fn other_memory(&self, before: &Mem) -> Option<u64>
        ensures formed { IsMem (nodes_of self.now) (state_of self.now).memory }
        ensures other { MatchOption result ((state_of self.now).memory ≡ before.now) (λ w. ((state_of self.now).memory ≢ before.now) × (w ≡ mem_code (state_of self.now).memory)) }
    {
        let found = self.mem();
        if found == *before {
            None
        } else {
            Some(write_mem(found))
        }
    }

    // The code of a node's tag, where that isn't the word before.
    #[inline(always)]
    fn other_tag(&self, node: NodeId, before: &Tag) -> Option<u64>
        requires { node < nodes_of self.now }
        ensures formed { IsTag (nodes_of self.now) ((state_of self.now).tags node) }
        ensures other { MatchOption result ((state_of self.now).tags node ≡ before.now) (λ w. ((state_of self.now).tags node ≢ before.now) × (w ≡ tag_code ((state_of self.now).tags node))) }
    {
        let found = self.tag(node);
        if is_same(&found, before) {
            None
        } else {
            Some(write_tag(found))
        }
    }

    // The code of the word that stands where the change would be, where that isn't the word before.
    #[inline(always)]
    fn other_word(&self, change: &Change) -> Option<u64>
        requires { ChangesBelow (nodes_of self.now) change.now }
        ensures formed { FindsWord (nodes_of self.now) (state_of self.now) change.now }
        ensures other { MatchOption result (Finds (state_of self.now) change.now) (λ w. (Finds (state_of self.now) change.now → ⊥) × (w ≡ found_code (state_of self.now) change.now)) }
    {
        match change {
            Change::OfMemory { before, .. } => self.other_memory(before),
            Change::OfTag { node, before, .. } => self.other_tag(*node, before),
        }
    }

    // Whether the node's pending step allows the event.
    #[inline(always)]
    fn allows(&self, node: NodeId, event: &Event) -> bool
        requires { node < nodes_of self.now }
        ensures allowed { result ≡ is_allowed (nodes_of self.now) node ((state_of self.now).steps node) event.now }
        ensures lawful { IsLawfulLine (nodes_of self.now) (K.fits self.now.keep self.now.number) (state_of self.now) }
    {
        let nodes = self.nodes();
        let place = place_of(node);
        self.stages[place].allows(node, nodes, event, &self.lines[place])
    }

    // The exchange that an allowed event asks for, but for lines.
    #[inline(always)]
    fn asked(&self, node: NodeId, event: &Event) -> Outline
        requires { node < nodes_of self.now }
        ensures outline { result ≡ outline_of (row_at (state_of self.now) node event.now) }
        ensures change { ChangesBelow (nodes_of self.now) result.change }
        ensures motion { MovesBelow (nodes_of self.now) result.motion }
        ensures lawful { IsLawfulLine (nodes_of self.now) (K.fits self.now.keep self.now.number) (state_of self.now) }
    {
        self.stages[place_of(node)].outline(node, event)
    }

    // Makes the exchange that an allowed event asks for, which finds its word, and gives its answer.
    #[inline(always)]
    fn make(&mut self, node: NodeId, event: &Event, outline: &Outline) -> Option<Line>
        requires node { node < nodes_of self.old }
        requires allowed { has_row (nodes_of self.old) node ((state_of self.old).steps node) event.now ≡ true }
        requires outline { outline.now ≡ outline_of (row_at (state_of self.old) node event.now) }
        requires finds { Finds (state_of self.old) (row_at (state_of self.old) node event.now).change }
        requires change { ChangesBelow (nodes_of self.old) outline.now.change }
        requires motion { MovesBelow (nodes_of self.old) outline.now.motion }
        requires fits { FitsEvent (K.fits self.old.keep self.old.number) event.now }
        ensures same { IsSameLine self.old self.new }
        ensures makes { Makes (nodes_of self.old) (state_of self.old) node event.now result (state_of self.new) }
        ensures keeps { KeepsLawful (nodes_of self.old) (K.fits self.old.keep self.old.number) (state_of self.old) node event.now (Ok (Outcome.Done result)) (state_of self.new) }
    {
        let place = place_of(node);
        write_word(&mut self.memory, &mut self.tags, &outline.change);
        move_bytes(
            &mut self.memory_bytes,
            &mut self.lines,
            node,
            event,
            outline,
        );
        self.stages[place] = outline.after;
        answer(outline.answers, &self.lines[place])
    }

    // Makes the exchange of an allowed event, or finds another word than it asks for.
    #[inline(always)]
    fn exchange(&mut self, node: NodeId, event: &Event) -> Outcome
        requires node { node < nodes_of self.old }
        requires allowed { has_row (nodes_of self.old) node ((state_of self.old).steps node) event.now ≡ true }
        requires fits { FitsEvent (K.fits self.old.keep self.old.number) event.now }
        ensures same { IsSameLine self.old self.new }
        ensures outcome { Exchanges (nodes_of self.old) (state_of self.old) node event.now result (state_of self.new) }
        ensures keeps { KeepsLawful (nodes_of self.old) (K.fits self.old.keep self.old.number) (state_of self.old) node event.now (Ok result) (state_of self.new) }
    {
        let outline = self.asked(node, event);
        match self.other_word(&outline.change) {
            Some(found) => Outcome::Missed(found),
            None => Outcome::Done(self.make(node, event, &outline)),
        }
    }

    // The node looks at its own tag.
    #[inline(always)]
    fn look(&mut self, node: NodeId)
        requires node { node < nodes_of self.old }
        ensures same { IsSameLine self.old self.new }
        ensures looked { state_of self.new ≡ looked (state_of self.old) node }
        ensures keeps { KeepsLawful (nodes_of self.old) (K.fits self.old.keep self.old.number) (state_of self.old) node Event.Look (Ok (Outcome.Done None)) (state_of self.new) }
    {
        let own = self.tag(node);
        self.stages[place_of(node)].look(&own);
    }

    /// One event of one node. Done: its exchange was made, or the node looked at its own tag; the line that the event
    /// answers, where it answers one. Missed: another word was found than the exchange's word before; the word found, and
    /// nothing changed. Refusal 8: the node's pending step doesn't allow the event, and nothing changed. The line is lawful
    /// before and after, and its value changes only where words were written, by the only valid sharer. A line that is
    /// answered is the value, and the node is a valid sharer with it.
    #[inline(always)]
    pub fn step(&mut self, node: NodeId, event: Event) -> Result<Outcome, NotInTurn>
        requires node { node < nodes_of self.old }
        requires fits { FitsEvent (K.fits self.old.keep self.old.number) event }
        ensures same { IsSameLine self.old self.new }
        ensures answers { Answers (nodes_of self.old) (state_of self.old) node event result (state_of self.new) }
        ensures lawful { KeepsLawful (nodes_of self.old) (K.fits self.old.keep self.old.number) (state_of self.old) node event result (state_of self.new) }
    {
        if !self.allows(node, &event) {
            return Err(NotInTurn);
        }
        if event.is_look() {
            self.look(node);
            Ok(Outcome::Done(None))
        } else {
            Ok(self.exchange(node, &event))
        }
    }

    /// Events in order, up to the first that is not in turn. Ok: how many were done. Err: the place of the first event that
    /// is not in turn; those before it were made, and none after. Between any two events the line is lawful. What was done is
    /// paid, as `run_is_paid` says.
    pub fn run(&mut self, events: &[(NodeId, Event)]) -> Result<usize, usize>
        requires nodes { All (λ e. e.0 < nodes_of self.old) events.now }
        requires fits { All (λ e. FitsEvent (K.fits self.old.keep self.old.number) e.1) events.now }
        ensures same { IsSameLine self.old self.new }
        ensures runs { RunsTo (nodes_of self.old) (K.fits self.old.keep self.old.number) (state_of self.old) events.now result (state_of self.new) }
        ensures paid { IsPaid (nodes_of self.old) (state_of self.old) events.now result (state_of self.new) }
    {
        // What stands at the start is lawful.
        let _ = &self.number;
        let mut done = 0;
        for (place, (node, event)) in events.iter().enumerate() {
            match self.step(*node, *event) {
                Ok(outcome) => done += done_in(&outcome),
                Err(NotInTurn) => return Err(place),
            }
        }
        Ok(done)
    }
}
