//! A line on separate words, as the tests of both lines use it.
ghost use Rattle.std.specs.Prelude.{◌≡◌, All, IfErr, MatchOption};
ghost use Rattle.sci_core.specs.declared.pending.Pending.TheVariants.{Idle};
ghost use Rattle.sci_fine.specs.Laws.{IsLogged};
ghost use Rattle.sci_fine.specs.Seats.{IsSeatOf};
ghost use Rattle.sci_port.specs.declared.calls.Call.TheVariants.{Stepped};

use super::{Finished, TestedLine, step};
use sci_core::{AnyWords, Event, Line, OpenRefusal, Outcome, Pending, Receipt};
use sci_fine::{FineLine, Seat, law_of_one_run};
use sci_words::{LineNo, NodeId};
use std::alloc::Global;

impl TestedLine for FineLine<AnyWords> {
    fn opened(
        alloc: Global,
        nodes: u16,
        number: LineNo,
        opening: Line,
    ) -> Result<(FineLine<AnyWords>, Vec<Seat<AnyWords>>), OpenRefusal> {
        let (line, seats) = FineLine::new(alloc, nodes, number, opening, AnyWords)?;
        Ok((line, seats))
    }

    fn close(
        self,
        alloc: Global,
        seats: Vec<Seat<AnyWords>>,
    ) -> Result<Finished, (FineLine<AnyWords>, Vec<Seat<AnyWords>>, u8)>
        requires seats { All (λ s. IsSeatOf self s) seats.items }
        requires rest { All (λ s. s.standing.pending ≡ Idle) seats.items }
        ensures { IfErr result (λ e. (e.0 ≡ self) × (e.1 ≡ seats)) }
    {
        match self.finish(alloc, seats) {
            Ok(finished) => Ok((finished.closed, finished.receipts)),
            Err(refused) => Err((refused.line, refused.seats, refused.refusal)),
        }
    }

    fn says(seat: &Seat<AnyWords>) -> (NodeId, LineNo, Pending) {
        (seat.node(), seat.number(), seat.pending())
    }

    fn receipts(seat: &Seat<AnyWords>) -> &[Receipt] {
        seat.receipts()
    }

    // The seat's log then has this very call behind it, and nothing else.
    fn try_step(&self, seat: &mut Seat<AnyWords>, event: Event) -> Option<Outcome>
        requires { IsSeatOf self.now seat.old }
        ensures seat { IsSeatOf self.now seat.new }
        ensures logged { MatchOption result (seat.new ≡ seat.old) (λ outcome. IsLogged seat.old.token.me.0 (Stepped event outcome) seat.new.token.me.0) }
    {
        law_of_one_run::<AnyWords>();
        step(&mut self.port(seat), event)
    }
}
