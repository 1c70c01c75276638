//! The turns of a head on its way to write.
ghost use Rattle.std.specs.Prelude.{◌≡◌, ◌<◌, ◌≤◌, Some, None};
ghost use Rattle.sci_ops.specs.Answers.{EndsWithStamp, GoesOn};
ghost use Rattle.sci_ops.specs.TurnKinds.{TakesKind, turn_with};
ghost use Rattle.sci_ops.specs.Change.{StoresFitting};
ghost use Rattle.sci_ops.specs.Plan.{Takes, tag};
ghost use Rattle.sci_ops.specs.Table.{converting, purge, turn_in, write};

use crate::answers::{End, TurnKind};
use crate::found::{is_valid, may_adopt, names};
use crate::goals::Goal;
use crate::turns::{exchange, go_on};
use sci_core::{Event, Line, Pending};
use sci_port::Port;
use sci_words::NodeId;

/// Converting: it turns the home to GONE, or gives up where it is no longer the head.
pub fn converting<P: Port>(port: &mut P, turned: bool) -> TurnKind
    requires step { (forw : _) × (P.at_step port.old ≡ Pending.Converting forw turned) }
    ensures { TakesKind P.gives (converting (P.way port.old).node turned) port.old result port.new }
{
    if turned {
        return go_on(port, Event::Converted);
    }
    let me = port.node();
    let Some(mem) = port.mem() else {
        return TurnKind::Waiting;
    };
    if names(me, &mem.forw) {
        go_on(port, Event::FreshToGone)
    } else {
        go_on(port, Event::Unconverted)
    }
}

/// Purging: it purges the next entry, or writes where there is none.
pub fn purging<P: Port>(port: &mut P, shown: &mut Line, goal: Goal) -> TurnKind
    requires step { (line : _) × (seen : _) × (P.at_step port.old ≡ Pending.Purging line seen) }
    requires fits { StoresFitting (P.Keep.fits (P.keep port.old) (P.way port.old).number) goal }
    ensures calls { Takes P.gives (turn_in goal (P.way port.old).node (P.at_step port.old)) port.old (turn_with result shown.new) port.new }
    ensures stamp { EndsWithStamp (turn_with result shown.new) (P.at_step port.old) }
{
    let Some(tag) = port.own() else {
        return TurnKind::Waiting;
    };
    match tag.forw {
        Some(next) => purge(port, next),
        None => match port.pending() {
            Pending::Purging { line, .. } => write(port, shown, goal, &line),
            _ => unreachable!(),
        },
    }
}

// It purges the next entry, or lets one that leaves know who is in front of it.
fn purge<P: Port>(port: &mut P, next: NodeId) -> TurnKind
    requires node { next < (P.way port.old).nodes }
    requires step { (line : _) × (P.at_step port.old ≡ Pending.Purging line (Some (Some next))) }
    ensures calls { TakesKind P.gives (tag next (purge (P.way port.old).node)) port.old result port.new }
    ensures goes_on { (shown : Line) → GoesOn (turn_with result shown) }
{
    let me = port.node();
    let Some(found) = port.tag(next) else {
        return TurnKind::Waiting;
    };
    if is_valid(&found) {
        go_on(port, Event::PurgeOne(found))
    } else if may_adopt(me, &found) {
        go_on(port, Event::Adopt(found))
    } else {
        TurnKind::Waiting
    }
}

// It writes into the line that it keeps, if the stamp can count one more write.
fn write<P: Port>(port: &mut P, shown: &mut Line, goal: Goal, line: &Line) -> TurnKind
    requires step { P.at_step port.old ≡ Pending.Purging line.now (Some None) }
    requires fits { StoresFitting (P.Keep.fits (P.keep port.old) (P.way port.old).number) goal }
    requires line { P.Keep.fits (P.keep port.old) (P.way port.old).number line.now.words }
    ensures calls { Takes P.gives (write goal line.now) port.old (turn_with result shown.new) port.new }
    ensures stamp { line.now.stamp ≤ 18446744073709551615 }
{
    let stamp = line.stamp;
    let Goal::Write(write) = goal else {
        return go_on(port, Event::Written(None));
    };
    let can_count = stamp < u64::MAX;
    if can_count {
        let words = write.change(&line.words);
        let before = line.words;
        let stamp = stamp + 1;
        exchange(
            port,
            shown,
            Event::Written(Some(words)),
            End::Wrote { before, stamp },
        )
    } else {
        exchange(port, shown, Event::Written(None), End::Spent)
    }
}
