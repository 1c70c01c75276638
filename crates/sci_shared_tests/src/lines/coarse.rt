//! A line under its lock word, as the tests of both lines use it.
ghost use Rattle.std.specs.Prelude.{◌≡◌, All, IfErr, MatchOption};
ghost use Rattle.sci_core.specs.declared.pending.Pending.TheVariants.{Idle};
ghost use Rattle.sci_coarse.specs.Laws.{IsLogged};
ghost use Rattle.sci_coarse.specs.Seats.{IsSeatOf};
ghost use Rattle.sci_port.specs.declared.calls.Call.TheVariants.{Stepped};

use super::{Finished, TestedLine};
use sci_coarse::{CoarseLine, CoarsePort, Seat, law_of_one_run};
use sci_core::{AnyWords, Event, Line, OpenRefusal, Outcome, Pending, Receipt};
use sci_port::Port;
use sci_words::{LineNo, NodeId};
use std::alloc::Global;

// An event through a port, if it is in turn: the seat's log then has this very call behind it, and nothing else.
fn step(port: &mut CoarsePort<'_, AnyWords>, event: Event) -> Option<Outcome>
    ensures same_line { port.new.line ≡ port.old.line }
    ensures same_reference { port.new.seat.ghost_name ≡ port.old.seat.ghost_name }
    ensures logged { MatchOption result (port.new.seat.now ≡ port.old.seat.now) (λ outcome. IsLogged port.old.seat.now.token.me.0 (Stepped event outcome) port.new.seat.now.token.me.0) }
{
    if port.pending().allows(port.node(), port.nodes(), &event) {
        law_of_one_run::<AnyWords>();
        Some(port.step(event))
    } else {
        None
    }
}

impl TestedLine for CoarseLine<AnyWords> {
    fn opened(
        alloc: Global,
        nodes: u16,
        number: LineNo,
        opening: Line,
    ) -> Result<(CoarseLine<AnyWords>, Vec<Seat<AnyWords>>), OpenRefusal> {
        let (line, seats) = CoarseLine::new(alloc, nodes, number, opening, AnyWords)?;
        Ok((line, seats))
    }

    fn close(
        self,
        alloc: Global,
        seats: Vec<Seat<AnyWords>>,
    ) -> Result<Finished, (CoarseLine<AnyWords>, Vec<Seat<AnyWords>>, u8)>
        requires seats { All (λ s. IsSeatOf self s) seats.items }
        requires rest { All (λ s. s.standing.pending ≡ Idle) seats.items }
        ensures { IfErr result (λ e. (e.0 ≡ self) × (e.1 ≡ seats)) }
    {
        match self.finish(alloc, seats) {
            Ok(finished) => Ok((finished.closed, finished.receipts)),
            Err(refused) => Err((refused.line, refused.seats, refused.refusal)),
        }
    }

    fn says(seat: &Seat<AnyWords>) -> (NodeId, LineNo, Pending) {
        (seat.node(), seat.number(), seat.pending())
    }

    fn receipts(seat: &Seat<AnyWords>) -> &[Receipt] {
        seat.receipts()
    }

    fn try_step(&self, seat: &mut Seat<AnyWords>, event: Event) -> Option<Outcome> {
        step(&mut self.port(seat), event)
    }
}
