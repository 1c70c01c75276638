//! A node's pending step, on the terms of its line.
ghost use Rattle.std.specs.Prelude.{◌≡◌, true};
ghost use Rattle.sci_core.specs.Stage.{outline_of, pending_of, stage_of};
ghost use Rattle.sci_core.specs.Step.{look_of};
ghost use Rattle.sci_core.specs.Table.{has_row, row_of};
ghost use Rattle.sci_core.specs.declared.pending.Pending.TheVariants.{Idle};
ghost use Rattle.sci_fine.specs.Standings.{IsStanding};
ghost use Rattle.sci_fine.specs.Steps.{GivesLine};

use crate::views::Terms;
use sci_core::{Event, Keeps, Line, Outline, Pending, Stage};
use sci_words::{NodeId, Tag};
use std::marker::Model;

/// A node's pending step, which it has on some lawful line on these terms.
#[derive(Drop)]
pub struct Standing<K: Keeps> {
    terms: Terms<K>,
    node: NodeId,
    stage: Stage,
    // That of the step, where it keeps one.
    line: Line,
}

impl<K: Keeps> Model for Standing<K> {
    ghost use Rattle.sci_core.specs.Stage.{pending_of};
    ghost use Rattle.sci_fine.specs.Standings.{StandingOn, IsStanding};

    ghost Value = { StandingOn K };

    ghost view = { λ s. record { terms = s.terms; node = s.node; pending = pending_of s.stage s.line } };

    ghost invariant = { λ s. IsStanding s.terms.nodes (K.fits s.terms.keep s.terms.number) s.node (pending_of s.stage s.line) };
}

// Writes over a slot, if it holds another line: a write disturbs who reads the slots beside it.
#[inline(always)]
fn write_over(slot: &mut Line, line: &Line)
    ensures { slot.new ≡ line.now }
{
    if *slot != *line {
        *slot = *line;
    }
}

impl<K: Keeps> Standing<K> {
    // That of a node in no step.
    pub(crate) fn idle(terms: Terms<K>, node: NodeId) -> Standing<K>
        requires { IsStanding terms.nodes (K.fits terms.keep terms.number) node Idle }
        ensures { (result.terms ≡ terms) × (result.node ≡ node) × (result.pending ≡ Idle) }
    {
        Standing {
            terms,
            node,
            stage: Stage::Idle,
            line: Line::ZERO,
        }
    }

    pub(crate) fn terms(&self) -> &Terms<K>
        ensures { result.now ≡ self.now.terms }
    {
        &self.terms
    }

    pub(crate) fn node(&self) -> NodeId
        ensures { result ≡ self.now.node }
    {
        self.node
    }

    pub(crate) fn stage(&self) -> Stage
        ensures value { result ≡ stage_of self.now.pending }
        ensures standing { IsStanding self.now.terms.nodes (K.fits self.now.terms.keep self.now.terms.number) self.now.node self.now.pending }
    {
        self.stage
    }

    #[inline(always)]
    pub(crate) fn pending(&self) -> Pending
        ensures value { result ≡ self.now.pending }
        ensures standing { IsStanding self.now.terms.nodes (K.fits self.now.terms.keep self.now.terms.number) self.now.node result }
    {
        self.stage.with(&self.line)
    }

    // The line that the step keeps; any line, where it keeps none.
    #[inline(always)]
    pub(crate) fn line(&self) -> Line
        ensures { self.now.pending ≡ pending_of (stage_of self.now.pending) result }
    {
        self.line
    }

    // The exchange that an allowed event asks for, but for lines.
    #[inline(always)]
    pub(crate) fn outline(&self, event: &Event) -> Outline
        ensures value { result ≡ outline_of (row_of self.now.node self.now.pending event.now) }
        ensures standing { IsStanding self.now.terms.nodes (K.fits self.now.terms.keep self.now.terms.number) self.now.node self.now.pending }
    {
        self.stage.outline(self.node, event)
    }

    // Writes the line that an allowed event gives back. What a write makes is new: it is not compared.
    #[inline(always)]
    pub(crate) fn give(&self, event: &Event, slot: &mut Line)
        requires { has_row self.now.terms.nodes self.now.node self.now.pending event.now ≡ true }
        ensures { GivesLine (row_of self.now.node self.now.pending event.now).carry slot.new }
    {
        match event {
            Event::Written(Some(words)) => {
                *slot = Line {
                    words: *words,
                    stamp: self.line.stamp + 1,
                };
            }
            Event::Left => write_over(slot, &Line::ZERO),
            _ => write_over(slot, &self.line),
        }
    }

    // The node's next step, after the exchange of an allowed event, and the line that it answers.
    #[inline(always)]
    pub(crate) fn go_on(&mut self, event: &Event, outline: &Outline, taken: &Line) -> Option<Line>
        requires allowed { has_row self.old.terms.nodes self.old.node self.old.pending event.now ≡ true }
        requires outline { outline.now ≡ outline_of (row_of self.old.node self.old.pending event.now) }
        requires next { IsStanding self.old.terms.nodes (K.fits self.old.terms.keep self.old.terms.number) self.old.node ((row_of self.old.node self.old.pending event.now).after taken.now) }
        ensures same { (self.new.terms ≡ self.old.terms) × (self.new.node ≡ self.old.node) }
        ensures pending { self.new.pending ≡ (row_of self.old.node self.old.pending event.now).after taken.now }
        ensures answer { result ≡ (row_of self.old.node self.old.pending event.now).answer taken.now }
    {
        outline.write_own(event, &mut self.line, taken);
        self.stage = outline.after;
        if outline.answers {
            Some(self.line)
        } else {
            None
        }
    }

    // The node looked at its own tag.
    #[inline(always)]
    pub(crate) fn look(&mut self, own: &Tag)
        requires { IsStanding self.old.terms.nodes (K.fits self.old.terms.keep self.old.terms.number) self.old.node (look_of self.old.pending own.now) }
        ensures same { (self.new.terms ≡ self.old.terms) × (self.new.node ≡ self.old.node) }
        ensures pending { self.new.pending ≡ look_of self.old.pending own.now }
    {
        self.stage.look(own);
    }
}
