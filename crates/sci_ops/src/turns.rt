//! What a turn does in each pending step.
ghost use Rattle.std.specs.Prelude.{◌≡◌, true};
ghost use Rattle.sci_core.specs.Answers.{is_allowed, FitsEvent};
ghost use Rattle.sci_ops.specs.Answers.{EndsWithStamp};
ghost use Rattle.sci_ops.specs.Change.{StoresFitting};
ghost use Rattle.sci_ops.specs.Plan.{Takes, exchange};
ghost use Rattle.sci_ops.specs.Table.{turn_in, move, seen_end, out_end};
ghost use Rattle.sci_ops.specs.TurnKinds.{TakesKind, turn_with};

mod entering;
mod idle;
mod leaving;
mod writing;

use crate::answers::{End, TurnKind};
use crate::goals::Goal;
use crate::turns::entering::{in_queue, queueing};
use crate::turns::idle::idle;
use crate::turns::leaving::{leaving, promoted, rolling};
use crate::turns::writing::{converting, purging};
use sci_core::{Event, Line, Outcome, Stage};
use sci_port::Port;

/// Tries an exchange, which ends the turn so once it is made. What it shows goes into `shown`.
#[inline(always)]
fn exchange<P: Port>(port: &mut P, shown: &mut Line, event: Event, end: End) -> TurnKind
    requires allowed { is_allowed (P.way port.old).nodes (P.way port.old).node (P.at_step port.old) event ≡ true }
    requires fits { FitsEvent (P.Keep.fits (P.keep port.old) (P.way port.old).number) event }
    ensures { Takes P.gives (exchange event end) port.old (turn_with result shown.new) port.new }
{
    let outcome = port.step(event);
    end.kind_after(outcome, shown)
}

/// Tries an exchange after which the operation goes on.
#[inline(always)]
fn go_on<P: Port>(port: &mut P, event: Event) -> TurnKind
    requires allowed { is_allowed (P.way port.old).nodes (P.way port.old).node (P.at_step port.old) event ≡ true }
    requires fits { FitsEvent (P.Keep.fits (P.keep port.old) (P.way port.old).number) event }
    ensures { TakesKind P.gives (move event) port.old result port.new }
{
    match port.step(event) {
        Outcome::Done(_) => TurnKind::Moved,
        Outcome::Missed(_) | Outcome::Busy => TurnKind::Waiting,
    }
}

/// What the exchange ends with that gives a line to a load.
fn seen_end(goal: Goal) -> End
    ensures { result ≡ seen_end goal }
{
    match goal {
        Goal::Load => End::Seen,
        Goal::Write(_) | Goal::Evict => End::Moved,
    }
}

/// What the exchange ends with that makes the node's tag Invalid.
fn out_end(goal: Goal) -> End
    ensures { result ≡ out_end goal }
{
    match goal {
        Goal::Evict => End::Out,
        Goal::Load | Goal::Write(_) => End::Moved,
    }
}

/// One turn towards a goal, by the node's pending step. The line that it shows, if it shows one, goes into `shown`.
pub fn turn_towards<P: Port>(port: &mut P, shown: &mut Line, goal: &Goal) -> TurnKind
    requires fits { StoresFitting (P.Keep.fits (P.keep port.old) (P.way port.old).number) goal.now }
    ensures calls { Takes P.gives (turn_in goal.now (P.way port.old).node (P.at_step port.old)) port.old (turn_with result shown.new) port.new }
    ensures stamp { EndsWithStamp (turn_with result shown.new) (P.at_step port.old) }
{
    match port.stage() {
        Stage::Idle => idle(port, *goal),
        Stage::Holding { .. } => exchange(port, shown, Event::Unhold, seen_end(*goal)),
        Stage::Queueing { forw } => queueing(port, *goal, forw),
        Stage::Fetching { .. } | Stage::WritingBack => go_on(port, Event::ReturnMemory),
        Stage::InQueue {
            forw,
            dirty,
            has_copy,
        } => in_queue(port, shown, *goal, forw, dirty, has_copy),
        Stage::Copying { .. } => go_on(port, Event::ReturnCopy),
        Stage::Ready { .. } => exchange(port, shown, Event::Settle, seen_end(*goal)),
        Stage::Converting { turned, .. } => converting(port, turned),
        Stage::Purging { .. } => purging(port, shown, *goal),
        Stage::Advancing { .. } => go_on(port, Event::Advance),
        Stage::Clearing { .. } => go_on(port, Event::Clear),
        Stage::Leaving { dirty, .. } => leaving(port, dirty),
        Stage::Promoted { .. } => promoted(port),
        Stage::Parted { .. } => exchange(port, shown, Event::Left, out_end(*goal)),
        Stage::Rolling { told, .. } => rolling(port, told),
        Stage::Unlinked { .. } => exchange(port, shown, Event::Rolled, out_end(*goal)),
    }
}
