//! The first turn of an operation, and the next one after a settling.
ghost use Rattle.std.specs.Prelude.{◌≡◌, true, false};
ghost use Rattle.sci_core.specs.Answers.{is_allowed, FitsEvent};
ghost use Rattle.sci_core.specs.WellFormed.{IsTag};
ghost use Rattle.sci_ops.specs.TurnKinds.{TakesKind};
ghost use Rattle.sci_ops.specs.Table.{idle, invalid, enter, fresh, dirty, valid, if_front, move, wait};

use crate::answers::TurnKind;
use crate::found::names;
use crate::goals::Goal;
use crate::turns::go_on;
use sci_core::{Event, Pending};
use sci_port::Port;
use sci_words::{Kind, Tag};

/// Idle: the node's own tag and the goal say how to begin.
pub fn idle<P: Port>(port: &mut P, goal: Goal) -> TurnKind
    requires step { P.at_step port.old ≡ Pending.Idle }
    ensures { TakesKind P.gives (idle goal (P.way port.old).node) port.old result port.new }
{
    let Some(tag) = port.own() else {
        return TurnKind::Waiting;
    };
    if tag.held {
        return TurnKind::Waiting;
    }
    match tag.kind {
        Kind::Invalid => invalid(port, goal),
        Kind::Fresh => fresh(port, goal, tag),
        Kind::Dirty => dirty(port, goal, tag),
        Kind::Valid => valid(port, goal, tag),
        Kind::Queued | Kind::Convert | Kind::Purging | Kind::Leaving | Kind::Roll | Kind::Purged =>
            TurnKind::Waiting,
    }
}

fn invalid<P: Port>(port: &mut P, goal: Goal) -> TurnKind
    requires step { P.at_step port.old ≡ Pending.Idle }
    ensures { TakesKind P.gives (invalid goal) port.old result port.new }
{
    match goal {
        Goal::Load | Goal::Write(_) => enter(port),
        Goal::Evict => TurnKind::Out,
    }
}

// It queues up before the head that memory names.
fn enter<P: Port>(port: &mut P) -> TurnKind
    requires step { P.at_step port.old ≡ Pending.Idle }
    ensures { TakesKind P.gives enter port.old result port.new }
{
    let Some(mem) = port.mem() else {
        return TurnKind::Waiting;
    };
    go_on(port, Event::Queue(mem.forw))
}

// It goes on where the node is at the front, and else waits.
fn at_front<P: Port>(port: &mut P, event: Event) -> TurnKind
    requires allowed { is_allowed (P.way port.old).nodes (P.way port.old).node (P.at_step port.old) event ≡ true }
    requires fits { FitsEvent (P.Keep.fits (P.keep port.old) (P.way port.old).number) event }
    ensures { TakesKind P.gives (if_front (P.way port.old).node (move event) wait) port.old result port.new }
{
    let me = port.node();
    let Some(mem) = port.mem() else {
        return TurnKind::Waiting;
    };
    if names(me, &mem.forw) {
        go_on(port, event)
    } else {
        TurnKind::Waiting
    }
}

fn fresh<P: Port>(port: &mut P, goal: Goal, tag: Tag) -> TurnKind
    requires step { P.at_step port.old ≡ Pending.Idle }
    requires kind { tag.kind ≡ Kind.Fresh }
    requires free { tag.held ≡ false }
    requires form { IsTag (P.way port.old).nodes tag }
    ensures { TakesKind P.gives (fresh goal (P.way port.old).node tag) port.old result port.new }
{
    match goal {
        Goal::Load => go_on(port, Event::Hold(tag)),
        Goal::Write(_) => at_front(port, Event::Convert(tag)),
        Goal::Evict => at_front(port, Event::Leave(tag)),
    }
}

fn dirty<P: Port>(port: &mut P, goal: Goal, tag: Tag) -> TurnKind
    requires step { P.at_step port.old ≡ Pending.Idle }
    requires kind { tag.kind ≡ Kind.Dirty }
    requires free { tag.held ≡ false }
    requires form { IsTag (P.way port.old).nodes tag }
    ensures { TakesKind P.gives (dirty goal (P.way port.old).node tag) port.old result port.new }
{
    match goal {
        Goal::Load => go_on(port, Event::Hold(tag)),
        Goal::Write(_) => go_on(port, Event::BeginPurge(tag)),
        Goal::Evict => at_front(port, Event::Leave(tag)),
    }
}

fn valid<P: Port>(port: &mut P, goal: Goal, tag: Tag) -> TurnKind
    requires step { P.at_step port.old ≡ Pending.Idle }
    requires kind { tag.kind ≡ Kind.Valid }
    requires free { tag.held ≡ false }
    requires form { IsTag (P.way port.old).nodes tag }
    ensures { TakesKind P.gives (valid goal tag) port.old result port.new }
{
    match goal {
        Goal::Load => go_on(port, Event::Hold(tag)),
        Goal::Write(_) | Goal::Evict => go_on(port, Event::Roll(tag)),
    }
}
