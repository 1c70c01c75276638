//! The table of exchanges: which event a pending step allows, and what its exchange does.
ghost use Rattle.std.specs.Prelude.{◌≡◌, ◌||◌, cond, Some, None};
ghost use Rattle.sci_core.specs.declared.lines.Line as a_line;
ghost use Rattle.sci_core.specs.Row.{exchange_with};
ghost use Rattle.sci_core.specs.Shape.{kept_line, line_of};
ghost use Rattle.sci_core.specs.Stage.{outline_of, pending_of, stage_of};
ghost use Rattle.sci_core.specs.Table.{has_row, row_of};
ghost use Rattle.sci_core.specs.Step.{look_of, is_look, CanCount};

mod converting;
pub mod found;
mod idle;
mod in_queue;
mod leaving;
pub mod purging;
mod queueing;
mod rolling;
mod shorthand;

use crate::events::Event;
use crate::lines::Line;
use crate::outlines::Outline;
use crate::pending::Pending;
use crate::rows::Exchange;
use crate::stages::Stage;
use sci_words::{NodeId, Tag};

// The copy that a step in the queue keeps.
#[inline(always)]
fn copy_kept(has_copy: bool, line: &Line) -> Option<Line>
    ensures { result ≡ cond has_copy (Some line.now) None }
{
    if has_copy { Some(*line) } else { None }
}

impl Stage {
    // Whether the table has a row for this event of the node `me` in this step, which keeps this line where it keeps one.
    #[inline(always)]
    fn has_row(&self, me: NodeId, nodes: u16, event: &Event, line: &Line) -> bool
        ensures { result ≡ has_row nodes me (pending_of self.now line.now) event.now }
    {
        match self {
            Stage::Idle => idle::idle_allows(nodes, event),
            Stage::Holding { .. } => idle::holding_allows(event),
            Stage::Queueing { forw } => queueing::queueing_allows(nodes, forw, event),
            Stage::Fetching { .. } => queueing::fetching_allows(event),
            Stage::InQueue {
                forw,
                dirty,
                has_copy,
            } => in_queue::in_queue_allows(forw, *dirty, *has_copy, event),
            Stage::Copying { .. } => in_queue::copying_allows(event),
            Stage::Ready { .. } => in_queue::ready_allows(event),
            Stage::Converting { turned, .. } => converting::converting_allows(*turned, event),
            Stage::Purging { seen } => purging::purging_allows(me, line, seen, event),
            Stage::Advancing { .. } => purging::advancing_allows(event),
            Stage::Clearing { .. } => purging::clearing_allows(event),
            Stage::Leaving { dirty, seen } => leaving::leaving_allows(me, *dirty, seen, event),
            Stage::Promoted { .. } => leaving::promoted_allows(event),
            Stage::WritingBack => leaving::writing_back_allows(event),
            Stage::Parted { .. } => leaving::parted_allows(event),
            Stage::Rolling { told, seen } => rolling::rolling_allows(me, *told, seen, event),
            Stage::Unlinked { .. } => rolling::unlinked_allows(event),
        }
    }

    // Whether the node `me` may make this event in this step: a look always.
    #[inline(always)]
    pub(crate) fn allows(&self, me: NodeId, nodes: u16, event: &Event, line: &Line) -> bool
        ensures { result ≡ (is_look event.now || has_row nodes me (pending_of self.now line.now) event.now) }
    {
        event.is_look() || self.has_row(me, nodes, event, line)
    }

    /// The exchange that an allowed event asks for, but for lines.
    #[inline(always)]
    pub fn outline(&self, me: NodeId, event: &Event) -> Outline
        ensures { (l : a_line.Line) → result ≡ outline_of (row_of me (pending_of self.now l) event.now) }
    {
        match self {
            Stage::Idle => idle::idle_outline(me, event),
            Stage::Holding { word } => idle::holding_outline(me, word, event),
            Stage::Queueing { forw } => queueing::queueing_outline(me, forw, event),
            Stage::Fetching { forw, dirty } => queueing::fetching_outline(me, forw, *dirty, event),
            Stage::InQueue {
                forw,
                dirty,
                has_copy,
            } => in_queue::in_queue_outline(me, forw, *dirty, *has_copy, event),
            Stage::Copying { forw, word } => in_queue::copying_outline(*forw, word, event),
            Stage::Ready { forw, dirty } => in_queue::ready_outline(me, forw, *dirty, event),
            Stage::Converting { forw, .. } => converting::converting_outline(me, forw, event),
            Stage::Purging { seen } => purging::purging_outline(me, seen, event),
            Stage::Advancing { victim, word } => {
                purging::advancing_outline(me, *victim, word, event)
            }
            Stage::Clearing { victim, word } => purging::clearing_outline(*victim, word, event),
            Stage::Leaving { dirty, seen } => leaving::leaving_outline(me, *dirty, seen, event),
            Stage::Promoted { dirty, succ } => leaving::promoted_outline(me, *dirty, *succ, event),
            Stage::WritingBack => leaving::writing_back_outline(event),
            Stage::Parted { forw } => leaving::parted_outline(me, forw, event),
            Stage::Rolling { seen, .. } => rolling::rolling_outline(seen, event),
            Stage::Unlinked { forw, back } => rolling::unlinked_outline(me, forw, *back, event),
        }
    }

    /// The node looked at its own tag: a step that purges or leaves records what it saw.
    pub fn look(&mut self, own: &Tag)
        ensures { (l : a_line.Line) → pending_of self.new l ≡ look_of (pending_of self.old l) own.now }
    {
        match self {
            Stage::Purging { seen } => *seen = Some(own.forw),
            Stage::Leaving { seen, .. } => *seen = Some(own.forw),
            Stage::Rolling { seen, .. } => {
                if let Some(back) = own.back {
                    *seen = Some((own.forw, back));
                }
            }
            _ => {}
        }
    }

    /// The pending step that keeps this line, where it keeps one.
    #[inline(always)]
    pub fn with(&self, line: &Line) -> Pending
        ensures { result ≡ pending_of self.now line.now }
    {
        let line = *line;
        match *self {
            Stage::Idle => Pending::Idle,
            Stage::Holding { word } => Pending::Holding { word, line },
            Stage::Queueing { forw } => Pending::Queueing { forw },
            Stage::Fetching { forw, dirty } => Pending::Fetching { forw, dirty, line },
            Stage::InQueue {
                forw,
                dirty,
                has_copy,
            } => {
                let copy = copy_kept(has_copy, &line);
                Pending::InQueue { forw, dirty, copy }
            }
            Stage::Copying { forw, word } => Pending::Copying { forw, word, line },
            Stage::Ready { forw, dirty } => Pending::Ready { forw, dirty, line },
            Stage::Converting { forw, turned } => Pending::Converting { forw, turned },
            Stage::Purging { seen } => Pending::Purging { line, seen },
            Stage::Advancing { victim, word } => Pending::Advancing { line, victim, word },
            Stage::Clearing { victim, word } => Pending::Clearing { line, victim, word },
            Stage::Leaving { dirty, seen } => Pending::Leaving { dirty, line, seen },
            Stage::Promoted { dirty, succ } => Pending::Promoted { dirty, line, succ },
            Stage::WritingBack => Pending::WritingBack { line },
            Stage::Parted { forw } => Pending::Parted { forw },
            Stage::Rolling { told, seen } => Pending::Rolling { told, seen },
            Stage::Unlinked { forw, back } => Pending::Unlinked { forw, back },
        }
    }
}

impl Pending {
    /// The step, but for its line.
    pub fn stage(&self) -> Stage
        ensures { result ≡ stage_of self.now }
    {
        match *self {
            Pending::Idle => Stage::Idle,
            Pending::Holding { word, .. } => Stage::Holding { word },
            Pending::Queueing { forw } => Stage::Queueing { forw },
            Pending::Fetching { forw, dirty, .. } => Stage::Fetching { forw, dirty },
            Pending::InQueue {
                forw,
                dirty,
                ref copy,
            } => {
                let has_copy = copy.is_some();
                Stage::InQueue {
                    forw,
                    dirty,
                    has_copy,
                }
            }
            Pending::Copying { forw, word, .. } => Stage::Copying { forw, word },
            Pending::Ready { forw, dirty, .. } => Stage::Ready { forw, dirty },
            Pending::Converting { forw, turned } => Stage::Converting { forw, turned },
            Pending::Purging { seen, .. } => Stage::Purging { seen },
            Pending::Advancing { victim, word, .. } => Stage::Advancing { victim, word },
            Pending::Clearing { victim, word, .. } => Stage::Clearing { victim, word },
            Pending::Leaving { dirty, seen, .. } => Stage::Leaving { dirty, seen },
            Pending::Promoted { dirty, succ, .. } => Stage::Promoted { dirty, succ },
            Pending::WritingBack { .. } => Stage::WritingBack,
            Pending::Parted { forw } => Stage::Parted { forw },
            Pending::Rolling { told, seen } => Stage::Rolling { told, seen },
            Pending::Unlinked { forw, back } => Stage::Unlinked { forw, back },
        }
    }

    /// The line that the step keeps, where it keeps one.
    #[inline(always)]
    pub fn kept_line(&self) -> Option<Line>
        ensures { result ≡ kept_line self.now }
    {
        match self {
            Pending::Holding { line, .. }
            | Pending::Fetching { line, .. }
            | Pending::Copying { line, .. }
            | Pending::Ready { line, .. }
            | Pending::Purging { line, .. }
            | Pending::Advancing { line, .. }
            | Pending::Clearing { line, .. }
            | Pending::Leaving { line, .. }
            | Pending::Promoted { line, .. }
            | Pending::WritingBack { line } => Some(*line),
            Pending::InQueue { copy, .. } => *copy,
            _ => None,
        }
    }

    // The same, or a blank one.
    fn line(&self) -> Line
        ensures { result ≡ line_of self.now }
    {
        self.kept_line().unwrap_or(Line::ZERO)
    }

    /// Whether the node `me`, one of `nodes`, may make this event in this step: a look always, an exchange where the
    /// table has a row for it. It says nothing of the word that the exchange will find.
    #[inline(always)]
    pub fn allows(&self, me: NodeId, nodes: u16, event: &Event) -> bool
        ensures { result ≡ (is_look event.now || has_row nodes me self.now event.now) }
    {
        self.stage().allows(me, nodes, event, &self.line())
    }

    /// The exchange that an allowed event asks for. `taken` is the line that was in the slot that it takes; the word that
    /// it changes and what becomes of a slot don't depend on it.
    pub fn exchange(&self, me: NodeId, event: &Event, taken: &Line) -> Exchange
        requires stamp { CanCount self.now event.now }
        ensures { result ≡ exchange_with taken.now (row_of me self.now event.now) }
    {
        let outline = self.stage().outline(me, event);
        outline.filled(event, &self.line(), taken)
    }

    /// The node looked at its own tag: a step that purges or leaves records what it saw.
    pub fn look(&mut self, own: &Tag)
        ensures { self.new ≡ look_of self.old own.now }
    {
        let line = self.line();
        let mut stage = self.stage();
        stage.look(own);
        *self = stage.with(&line);
    }
}
