//! The turns of a node that leaves the list.
ghost use Rattle.std.specs.Prelude.{◌≡◌, ◌<◌, ◌||◌, true, false, Some, None, is_none, IsTrue};
ghost use Rattle.sci_words.specs.Tag.{link_below};
ghost use Rattle.sci_ops.specs.TurnKinds.{TakesKind};
ghost use Rattle.sci_ops.specs.Plan.{tag};
ghost use Rattle.sci_ops.specs.Table.{leaving, leave, promoted, rolling, tell_successor, tell_predecessor};

use crate::answers::TurnKind;
use crate::found::{is_before, is_behind, names};
use crate::turns::go_on;
use sci_core::{Event, Pending};
use sci_port::Port;
use sci_words::NodeId;

/// Leaving: it promotes the next entry or returns the line home, or stays where it is no longer the head.
pub fn leaving<P: Port>(port: &mut P, dirty: bool) -> TurnKind
    requires step { (line : _) × (seen : _) × (P.at_step port.old ≡ Pending.Leaving dirty line seen) }
    ensures { TakesKind P.gives (leaving (P.way port.old).node dirty) port.old result port.new }
{
    let me = port.node();
    let Some(tag) = port.own() else {
        return TurnKind::Waiting;
    };
    let Some(mem) = port.mem() else {
        return TurnKind::Waiting;
    };
    if !names(me, &mem.forw) {
        return go_on(port, Event::Stay);
    }
    leave(port, dirty, tag.forw)
}

// It promotes the next entry, or returns the line home where there is none.
fn leave<P: Port>(port: &mut P, dirty: bool, forw: Option<NodeId>) -> TurnKind
    requires step { (line : _) × (P.at_step port.old ≡ Pending.Leaving dirty line (Some forw)) }
    requires link { IsTrue (link_below (P.way port.old).nodes forw) }
    ensures { TakesKind P.gives (leave (P.way port.old).node dirty forw) port.old result port.new }
{
    let Some(next) = forw else {
        return go_on(
            port,
            if dirty {
                Event::ReturnHomeDirty
            } else {
                Event::ReturnHomeFresh
            },
        );
    };
    let me = port.node();
    let Some(found) = port.tag(next) else {
        return TurnKind::Waiting;
    };
    if is_behind(me, &found) {
        go_on(port, Event::Promote(found))
    } else {
        TurnKind::Waiting
    }
}

/// Promoted: it hands the home on, or enters again where it is no longer the head.
pub fn promoted<P: Port>(port: &mut P) -> TurnKind
    requires step { (dirty : _) × (line : _) × (succ : _) × (P.at_step port.old ≡ Pending.Promoted dirty line succ) }
    ensures { TakesKind P.gives (promoted (P.way port.old).node) port.old result port.new }
{
    let me = port.node();
    let Some(mem) = port.mem() else {
        return TurnKind::Waiting;
    };
    if names(me, &mem.forw) {
        go_on(port, Event::PassOn)
    } else {
        go_on(port, Event::ReEnter)
    }
}

/// Rolling: it tells the entry behind it, then the one in front of it.
pub fn rolling<P: Port>(port: &mut P, told: bool) -> TurnKind
    requires step { (seen : _) × (P.at_step port.old ≡ Pending.Rolling told seen) }
    ensures { TakesKind P.gives (rolling (P.way port.old).node told) port.old result port.new }
{
    let Some(tag) = port.own() else {
        return TurnKind::Waiting;
    };
    match tag.forw {
        Some(next) if !told => successor(port, next),
        _ => match tag.back {
            Some(previous) => predecessor(port, previous),
            None => TurnKind::Waiting,
        },
    }
}

// It tells the entry behind it.
fn successor<P: Port>(port: &mut P, next: NodeId) -> TurnKind
    requires node { next < (P.way port.old).nodes }
    requires step { (forw : _) × (back : _) × (P.at_step port.old ≡ Pending.Rolling false (Some (Some forw, back))) }
    ensures { TakesKind P.gives (tag next (tell_successor (P.way port.old).node)) port.old result port.new }
{
    let me = port.node();
    let Some(found) = port.tag(next) else {
        return TurnKind::Waiting;
    };
    if is_behind(me, &found) {
        go_on(port, Event::TellSuccessor(found))
    } else {
        TurnKind::Waiting
    }
}

// It tells the entry in front of it.
fn predecessor<P: Port>(port: &mut P, previous: NodeId) -> TurnKind
    requires node { previous < (P.way port.old).nodes }
    requires step { (told : _) × (forw : _) × (back : _) × (P.at_step port.old ≡ Pending.Rolling told (Some (forw, back))) × ((told || is_none forw) ≡ true) }
    ensures { TakesKind P.gives (tag previous (tell_predecessor (P.way port.old).node)) port.old result port.new }
{
    let me = port.node();
    let Some(found) = port.tag(previous) else {
        return TurnKind::Waiting;
    };
    if is_before(me, &found) {
        go_on(port, Event::TellPredecessor(found))
    } else {
        TurnKind::Waiting
    }
}
