//! A line that threads share, whichever it is, as the tests of both use it.
ghost use Rattle.std.specs.Prelude.{◌≡◌, All, IfErr, IfOk, IsTrue, MatchOption};
ghost use Rattle.sci_core.specs.declared.pending.Pending.TheVariants.{Idle};
ghost use Rattle.sci_port.specs.declared.calls.Call.TheVariants.{Stepped};
ghost use Rattle.sci_port.specs.SeatBanks.{IsLine};

pub(crate) mod banks;
mod callers;
mod coarse;
mod fine;
mod growths;
mod keeping;
mod lawful;
mod memory;
mod opening;
pub(crate) mod replaying;
mod stopping;
mod threads;
pub(crate) mod turning;

use crossbeam_utils::Backoff;
use sci_core::{AnyWords, Closed, Event, Line, OpenRefusal, Outcome, Pending, Receipt};
use sci_ops::{Answer, Op, Turn};
use sci_port::{Port, SeatPort, SharedLine};
use sci_words::{LineNo, NodeId};
use std::alloc::Global;
use std::process::Abort;
use std::sync::Wait;

/// A closed line, with each node's receipts.
type Finished = (Closed, Vec<Vec<Receipt>>);

/// A kind of line that threads share, with what its crate alone says of it.
pub trait TestedLine: SharedLine<Keep = AnyWords> + Sized + Drop {
    /// A line that nobody has used, and its seats in the order of the nodes.
    fn opened(
        alloc: Global,
        nodes: u16,
        number: LineNo,
        opening: Line,
    ) -> Result<(Self, Vec<Self::Seat>), OpenRefusal>
        ensures line { IfOk result (λ r. IsLine nodes (record {}) number (Self.terms r.0)) }
        ensures seats { IfOk result (λ r. All (λ s. Self.is_seat r.0 s) r.1.items) };

    /// The line, closed, with each node's receipts; or the line and the seats, with the refusal.
    fn close(
        self,
        alloc: Global,
        seats: Vec<Self::Seat>,
    ) -> Result<Finished, (Self, Vec<Self::Seat>, u8)>
        requires seats { All (λ s. Self.is_seat self s) seats.items }
        requires rest { All (λ s. (Self.seating s).pending ≡ Idle) seats.items }
        ensures { IfErr result (λ e. (e.0 ≡ self) × (e.1 ≡ seats)) };

    /// What a seat says of itself: its node, its line's number, and the node's pending step.
    fn says(seat: &Self::Seat) -> (NodeId, LineNo, Pending)
        ensures { result.2 ≡ (Self.seating seat.now).pending };

    /// What a seat keeps of its node's loads and writes.
    fn receipts(seat: &Self::Seat) -> &[Receipt];

    /// An event of the seat's node, if it is in turn.
    fn try_step(&self, seat: &mut Self::Seat, event: Event) -> Option<Outcome>
        requires { Self.is_seat self.now seat.old }
        ensures { Self.is_seat self.now seat.new };
}

/// Whether the seat's node is Idle.
fn is_idle<L: TestedLine>(seat: &L::Seat) -> bool
    ensures { IsTrue result → (L.seating seat.now).pending ≡ Idle }
{
    matches!(L::says(seat).2, Pending::Idle)
}

/// Whether all are Idle.
fn are_idle<L: TestedLine>(seats: &[L::Seat]) -> bool
    ensures { IsTrue result → All (λ s. (L.seating s).pending ≡ Idle) seats.now }
{
    for seat in seats {
        if !is_idle::<L>(seat) {
            return false;
        }
    }
    true
}

/// The line, closed, with each node's receipts; or the refusal, with how many seats came back. 0: a seat is not Idle.
fn finished<L: TestedLine>(
    alloc: Global,
    line: L,
    seats: Vec<L::Seat>,
) -> Result<Finished, (u8, usize)>
    requires { All (λ s. L.is_seat line s) seats.items }
{
    if !are_idle::<L>(&seats) {
        return Err((0, seats.len()));
    }
    match line.close(alloc, seats) {
        Ok(finished) => Ok(finished),
        Err((_, seats, refusal)) => Err((refusal, seats.len())),
    }
}

/// The same without the receipts.
fn closed<L: TestedLine>(alloc: Global, line: L, seats: Vec<L::Seat>) -> Result<Closed, (u8, usize)>
    requires { All (λ s. L.is_seat line s) seats.items }
{
    let (closed, _receipts) = finished(alloc, line, seats)?;
    Ok(closed)
}

/// The same of a line that is to be closed.
fn closes<L: TestedLine>(rt: &impl Abort, alloc: Global, line: L, seats: Vec<L::Seat>) -> Closed
    requires { All (λ s. L.is_seat line s) seats.items }
{
    closed(alloc, line, seats).expect(rt, "it is not closed")
}

/// One turn, which leaves the port to the same seat of the same line.
fn turn<L: TestedLine>(port: &mut SeatPort<'_, L>, op: &mut Op) -> Turn
    ensures same_line { port.new.line ≡ port.old.line }
    ensures same_reference { port.new.seat.ghost_name ≡ port.old.seat.ghost_name }
{
    op.turn(port)
}

/// An event through a port, if it is in turn: the seat has then made this very call.
fn step<L: SharedLine<Keep = AnyWords>>(port: &mut SeatPort<'_, L>, event: Event) -> Option<Outcome>
    ensures same_line { port.new.line ≡ port.old.line }
    ensures same_reference { port.new.seat.ghost_name ≡ port.old.seat.ghost_name }
    ensures made { MatchOption result (port.new.seat.now ≡ port.old.seat.now) (λ outcome. L.makes port.old.seat.now (Stepped event outcome) port.new.seat.now) }
{
    if port.pending().allows(port.node(), port.nodes(), &event) {
        Some(port.step(event))
    } else {
        None
    }
}

/// Turns to the operation's end.
fn carry_out<R: Wait, L: TestedLine>(rt: &R, line: &L, seat: &mut L::Seat, op: Op) -> Answer
    requires { L.is_seat line.now seat.old }
    ensures { L.is_seat line.now seat.new }
{
    let mut op = op;
    let backoff = Backoff::new();
    for _ in rt.forever() {
        match turn(&mut SeatPort::new(line, seat), &mut op) {
            Turn::Done(answer) => return answer,
            Turn::Moved => backoff.reset(),
            Turn::Waiting => backoff.snooze(),
        }
    }
    unreachable!()
}
