//! The events of recorded runs, made again on a line that threads share.
ghost use Rattle.std.specs.Prelude.{◌≡◌, All};

use super::{TestedLine, closes};
use crate::checks::same;
use crate::recorded::Recorded;
use crate::recorded::comparing::{is_left_as, step_whole};
use sci_core::{AnyWords, Event, Whole};
use sci_port::{Port, SeatPort};
use sci_words::NodeId;
use std::alloc::Global;
use std::process::Abort;
use std::test::Fail;

// Whether a seat's port finds the words, and its node's pending step, of the line that is lent.
fn finds<L: TestedLine>(port: &mut SeatPort<'_, L>, whole: &Whole<AnyWords>) -> bool
    ensures same_line { port.new.line ≡ port.old.line }
    ensures same_reference { port.new.seat.ghost_name ≡ port.old.seat.ghost_name }
{
    let me = port.node();
    if me.get() >= whole.nodes() || port.pending() != whole.pending(me) {
        return false;
    }
    let mut same = port.mem() == Some(whole.mem());
    for number in 0..whole.nodes() {
        let Some(node) = NodeId::new(number) else {
            return false;
        };
        if node.get() >= whole.nodes() || node.get() >= port.nodes() {
            return false;
        }
        same = port.tag(node) == Some(whole.tag(node)) && same;
    }
    same
}

// Makes an event on both lines. Whether outcome and words are the same.
fn step_alike<L: TestedLine>(
    line: &L,
    seat: &mut L::Seat,
    whole: &mut Whole<AnyWords>,
    event: &Event,
) -> bool
    requires { L.is_seat line.now seat.old }
    ensures { L.is_seat line.now seat.new }
{
    let wanted = step_whole(whole, L::seat_node(seat), *event);
    let outcome = line.try_step(seat, *event);
    let same = finds(&mut SeatPort::new(line, seat), whole);
    same && wanted.is_some() && outcome == wanted
}

// The same, with the node's seat. Whether it was found, and outcome and words are the same.
fn replay<L: TestedLine>(
    line: &L,
    seats: &mut [L::Seat],
    whole: &mut Whole<AnyWords>,
    node: NodeId,
    event: &Event,
) -> bool
    requires { All (λ s. L.is_seat line.now s) seats.old }
    ensures { All (λ s. L.is_seat line.now s) seats.new }
{
    let mut alike = false;
    for seat in seats.iter_mut() {
        if L::seat_node(seat) == node {
            alike = step_alike(line, seat, whole, event);
        }
    }
    alike
}

// Makes the events on both lines, and compares after each.
fn replay_all<L: TestedLine>(
    rt: &impl Abort,
    line: &L,
    seats: &mut [L::Seat],
    whole: &mut Whole<AnyWords>,
    events: &[(NodeId, Event)],
)
    requires { All (λ s. L.is_seat line.now s) seats.old }
    ensures { All (λ s. L.is_seat line.now s) seats.new }
{
    for (place, (node, event)) in events.iter().enumerate() {
        let alike = replay(line, seats, whole, *node, event);
        let told = (place, node, event);
        same(rt, &(told, alike), &(told, true));
    }
}

/// Makes a run again on a line that is lent and on one that threads share, to the end, where no node is in a step.
pub(crate) fn replay_run<L: TestedLine>(
    rt: &impl Abort,
    alloc: Global,
    run: &Recorded,
) -> Result<(), Fail> {
    let events = run.events.as_slice();
    assert!(rt; !events.is_empty());
    let mut whole = Whole::open(alloc, run.nodes, 0, run.opening, AnyWords)?;
    let (line, mut seats) = L::opened(alloc, run.nodes, 0, run.opening)?;
    replay_all(rt, &line, seats.as_mut_slice(), &mut whole, events);
    assert!(rt; is_left_as(&closes(rt, alloc, line, seats), &whole));
    Ok(())
}
