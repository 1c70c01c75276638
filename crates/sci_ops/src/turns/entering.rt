//! The turns of a node that enters the list.
ghost use Rattle.std.specs.Prelude.{◌≡◌, is_some};
ghost use Rattle.sci_port.specs.Owes.{IsSoundStep};
ghost use Rattle.sci_ops.specs.TurnKinds.{TakesKind, turn_with};
ghost use Rattle.sci_ops.specs.Plan.{Takes};
ghost use Rattle.sci_ops.specs.Table.{home_event, queueing, in_queue, attach};

use crate::answers::TurnKind;
use crate::found::{may_attach_dirty, may_attach_fresh};
use crate::goals::Goal;
use crate::turns::{exchange, go_on, seen_end};
use sci_core::{Event, Line, Pending};
use sci_port::Port;
use sci_words::{MemState, NodeId};

// How it enters where there is no list: a writer dirty, so that memory turns to GONE at once.
fn home_event(goal: Goal) -> Event
    ensures { result ≡ home_event goal }
{
    match goal {
        Goal::Write(_) => Event::HomeWrite,
        Goal::Load | Goal::Evict => Event::PrependValid,
    }
}

/// Queueing: it enters the list before the head that it found, or looks for the head again.
pub fn queueing<P: Port>(port: &mut P, goal: Goal, forw: Option<NodeId>) -> TurnKind
    requires step { P.at_step port.old ≡ Pending.Queueing forw }
    ensures { TakesKind P.gives (queueing goal forw) port.old result port.new }
{
    let Some(mem) = port.mem() else {
        return TurnKind::Waiting;
    };
    if mem.lent {
        TurnKind::Waiting
    } else if mem.forw != forw {
        go_on(port, Event::Requeue(mem.forw))
    } else {
        match mem.state {
            MemState::Home => go_on(port, home_event(goal)),
            MemState::Fresh => go_on(port, Event::PrependValid),
            MemState::Gone => go_on(port, Event::PrependGone),
        }
    }
}

/// InQueue: it attaches the old head behind itself, or settles where there was none.
pub fn in_queue<P: Port>(
    port: &mut P,
    shown: &mut Line,
    goal: Goal,
    forw: Option<NodeId>,
    dirty: bool,
    has_copy: bool,
) -> TurnKind
    requires step { (copy : _) × (P.at_step port.old ≡ Pending.InQueue forw dirty copy) × (is_some copy ≡ has_copy) }
    requires sound { IsSoundStep (P.way port.old).nodes (P.Keep.fits (P.keep port.old) (P.way port.old).number) (P.at_step port.old) }
    ensures { Takes P.gives (in_queue goal forw dirty has_copy) port.old (turn_with result shown.new) port.new }
{
    let Some(forw) = forw else {
        return exchange(port, shown, Event::Settle, seen_end(goal));
    };
    let Some(found) = port.tag(forw) else {
        return TurnKind::Waiting;
    };
    if may_attach_fresh(dirty, has_copy, &found) {
        go_on(port, Event::AttachFresh(found))
    } else if may_attach_dirty(dirty, has_copy, &found) {
        go_on(port, Event::AttachDirty(found))
    } else {
        TurnKind::Waiting
    }
}
