//! A node's pending step, on the terms of its line.
ghost use Rattle.std.specs.Prelude.{◌≡◌, ◌<◌, Some, false};
ghost use Rattle.sci_core.specs.declared.lines.Line as a_line;
ghost use Rattle.sci_core.specs.declared.outcomes.Outcome.TheVariants.{Done};
ghost use Rattle.sci_core.specs.declared.pending.Pending.TheVariants.{Idle};
ghost use Rattle.sci_core.specs.Stage.{pending_of, stage_of};
ghost use Rattle.sci_core.specs.Step.{look_of};
ghost use Rattle.sci_core.specs.Whole.{nodes_of, state_of};
ghost use Rattle.sci_port.specs.Owes.{IsSoundStep};
ghost use Rattle.sci_coarse.specs.Rule.{IsOn};

use crate::views::Terms;
use sci_core::{Keeps, Line, Outcome, Pending, Stage, Whole};
use sci_words::{NodeId, Tag};
use std::marker::Model;

/// A node's pending step, which a lawful line on these terms may have.
#[derive(Drop)]
pub struct Standing<K: Keeps> {
    terms: Terms<K>,
    stage: Stage,
    // That of the step, where it keeps one.
    line: Line,
}

impl<K: Keeps> Model for Standing<K> {
    ghost use Rattle.sci_core.specs.Stage.{pending_of};
    ghost use Rattle.sci_port.specs.Owes.{IsSoundStep};
    ghost use Rattle.sci_coarse.specs.Standings.{StandingOn};

    ghost Value = { StandingOn K };

    ghost view = { λ s. record { terms = s.terms; pending = pending_of s.stage s.line } };

    ghost invariant = { λ s. IsSoundStep s.terms.nodes (K.fits s.terms.keep s.terms.number) (pending_of s.stage s.line) };
}

// Whether a step keeps a line.
#[inline(always)]
fn keeps_line(stage: &Stage) -> bool
    ensures { result ≡ false → (l m : a_line.Line) → pending_of stage.now l ≡ pending_of stage.now m }
{
    !matches!(
        stage,
        Stage::Idle
            | Stage::Queueing { .. }
            | Stage::InQueue {
                has_copy: false,
                ..
            }
            | Stage::Converting { .. }
            | Stage::Parted { .. }
            | Stage::Rolling { .. }
            | Stage::Unlinked { .. }
    )
}

// Writes over a line by that of a step, where the step keeps one.
#[inline(always)]
fn write_kept(line: &mut Line, pending: &Pending)
    ensures { pending_of (stage_of pending.now) line.new ≡ pending.now }
{
    match pending {
        Pending::Holding { line: kept, .. }
        | Pending::Fetching { line: kept, .. }
        | Pending::Copying { line: kept, .. }
        | Pending::Ready { line: kept, .. }
        | Pending::Purging { line: kept, .. }
        | Pending::Advancing { line: kept, .. }
        | Pending::Clearing { line: kept, .. }
        | Pending::Leaving { line: kept, .. }
        | Pending::Promoted { line: kept, .. }
        | Pending::WritingBack { line: kept }
        | Pending::InQueue {
            copy: Some(kept),
            ..
        } => *line = *kept,
        _ => {}
    }
}

impl<K: Keeps> Standing<K> {
    // That of a node in no step.
    pub(crate) fn idle(terms: Terms<K>) -> Standing<K>
        requires { IsSoundStep terms.nodes (K.fits terms.keep terms.number) Idle }
        ensures terms { result.terms ≡ terms }
        ensures pending { result.pending ≡ Idle }
    {
        Standing {
            terms,
            stage: Stage::Idle,
            line: Line::ZERO,
        }
    }

    pub(crate) fn terms(&self) -> &Terms<K>
        ensures { result.now ≡ self.now.terms }
    {
        &self.terms
    }

    pub(crate) fn stage(&self) -> Stage
        ensures value { result ≡ stage_of self.now.pending }
        ensures sound { IsSoundStep self.now.terms.nodes (K.fits self.now.terms.keep self.now.terms.number) self.now.pending }
    {
        self.stage
    }

    // A turn asks for the step of a node that is to write: that one is put together in place.
    #[inline(always)]
    pub(crate) fn pending(&self) -> Pending
        ensures value { result ≡ self.now.pending }
        ensures sound { IsSoundStep self.now.terms.nodes (K.fits self.now.terms.keep self.now.terms.number) result }
    {
        match self.stage {
            Stage::Purging { seen } => Pending::Purging {
                line: self.line,
                seen,
            },
            _ => self.stage.with(&self.line),
        }
    }

    // The node looked at its own tag.
    #[inline(always)]
    pub(crate) fn look(&mut self, own: &Tag)
        requires { IsSoundStep self.old.terms.nodes (K.fits self.old.terms.keep self.old.terms.number) (look_of self.old.pending own.now) }
        ensures terms { self.new.terms ≡ self.old.terms }
        ensures pending { self.new.pending ≡ look_of self.old.pending own.now }
    {
        self.stage.look(own);
    }

    // The node's pending step becomes what it is on the whole line. Its line is read there only where the step keeps one that the
    // event didn't answer.
    #[inline(always)]
    pub(crate) fn follow(&mut self, whole: &Whole<K>, node: NodeId, outcome: &Outcome)
        requires on { IsOn self.old.terms whole.now }
        requires node { node < nodes_of whole.now }
        requires answered { (l : a_line.Line) → outcome.now ≡ Done (Some l) → pending_of (stage_of ((state_of whole.now).steps node)) l ≡ (state_of whole.now).steps node }
        ensures terms { self.new.terms ≡ self.old.terms }
        ensures pending { self.new.pending ≡ (state_of whole.now).steps node }
    {
        // The node's own tag is well formed, and the line lawful.
        let _ = whole.tag(node);
        let _ = whole.nodes();
        self.stage = *whole.stage(node);
        if keeps_line(&self.stage) {
            match outcome {
                Outcome::Done(Some(line)) => self.line = *line,
                _ => write_kept(&mut self.line, &whole.pending(node)),
            }
        }
    }
}
