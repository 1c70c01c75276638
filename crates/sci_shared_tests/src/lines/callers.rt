//! Nodes with an operation each, which take its turns in threads of their own.
ghost use Rattle.std.specs.Prelude.{◌≡◌, All, IfSome};

use super::lawful::Words;
use super::{TestedLine, turn};
use crossbeam_utils::Backoff;
use sci_ops::{Answer, Op, Turn};
use sci_port::{Port, SeatPort};
use std::alloc::Global;

/// Turns of one operation at most.
const TURNS: u64 = 1_000_000_000;

/// A node's seat, the operation that the node has begun last, and its answer, if it has ended.
#[derive(Drop)]
pub(crate) struct Caller<S> {
    pub seat: S,
    pub op: Op,
    pub answer: Option<Answer>,
}

impl<S> Caller<S> {
    /// Begins an operation.
    pub(crate) fn begin(&mut self, op: Op)
        ensures { self.new.seat ≡ self.old.seat }
    {
        self.op = op;
        self.answer = None;
    }
}

/// A node for each seat, which has begun a load.
pub(crate) fn callers<L: TestedLine>(
    alloc: Global,
    line: &L,
    seats: Vec<L::Seat>,
) -> Option<Vec<Caller<L::Seat>>>
    requires { All (λ s. L.is_seat line.now s) seats.items }
    ensures { IfSome result (λ callers. All (λ c. L.is_seat line.now c.seat) callers.items) }
{
    let mut callers = Vec::new(alloc);
    for seat in seats {
        let caller = Caller {
            seat,
            op: Op::load(),
            answer: None,
        };
        let Ok(()) = callers.push(caller) else {
            return None;
        };
    }
    Some(callers)
}

/// Takes so many turns of the operation, fewer where it ends.
pub(crate) fn take_turns<L: TestedLine>(line: &L, caller: &mut Caller<L::Seat>, turns: usize)
    requires { L.is_seat line.now caller.old.seat }
    ensures { L.is_seat line.now caller.new.seat }
{
    for _ in 0..turns {
        if let Turn::Done(answer) = turn(
            &mut SeatPort::new(line, &mut caller.seat),
            &mut caller.op,
        ) {
            caller.answer = Some(answer);
        }
    }
}

/// Takes turns until the operation has ended, or this many in a row have made no exchange.
pub(crate) fn try_to_end<L: TestedLine>(line: &L, caller: &mut Caller<L::Seat>, patience: u32)
    requires { L.is_seat line.now caller.old.seat }
    ensures { L.is_seat line.now caller.new.seat }
{
    let backoff = Backoff::new();
    let mut left = patience;
    for _ in 0..TURNS {
        if left == 0 || caller.answer.is_some() {
            return;
        }
        left -= 1;
        match turn(&mut SeatPort::new(line, &mut caller.seat), &mut caller.op) {
            Turn::Done(answer) => caller.answer = Some(answer),
            Turn::Moved => {
                left = patience;
                backoff.reset();
            }
            Turn::Waiting => backoff.snooze(),
        }
    }
}

// Reads memory's word and the node's own through its seat. Whether they were to be had.
fn read_own<L: TestedLine>(line: &L, caller: &mut Caller<L::Seat>, words: &mut Words) -> bool
    requires { L.is_seat line.now caller.old.seat }
    ensures { L.is_seat line.now caller.new.seat }
{
    let mut port = SeatPort::new(line, &mut caller.seat);
    let (node, step) = (port.node(), port.pending());
    let (mem, tag) = (port.mem(), port.tag(node));
    let (Some(mem), Some(tag), Some(own)) = (mem, tag, words.nodes.get_mut(usize::from(node.get())))
    else {
        return false;
    };
    words.mem = mem;
    *own = (step, tag);
    true
}

/// The words of a line of three nodes, each tag read through its node's seat. None: one wasn't to be had.
pub(crate) fn words<L: TestedLine>(line: &L, callers: &mut [Caller<L::Seat>]) -> Option<Words>
    requires { All (λ c. L.is_seat line.now c.seat) callers.old }
    ensures { All (λ c. L.is_seat line.now c.seat) callers.new }
{
    let mut words = Words::UNUSED;
    let mut are_read = true;
    for caller in callers.iter_mut() {
        are_read = read_own(line, caller, &mut words) && are_read;
    }
    are_read.then_some(words)
}
