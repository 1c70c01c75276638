//! The line as a node's bank takes it, by the node's seats.
ghost use Rattle.sci_fine.specs.Banks.{kept_of_seats, laws_of_seats, seat_of_prop, seating_of, terms_of};
ghost use Rattle.sci_fine.specs.Seats.{IsSeatOf, HasMade, HasReadied, HasReceived};

use crate::line::FineLine;
use crate::seats::Seat;
use sci_core::{Event, Keeps, Outcome, Pending, Stage};
use sci_port::{Receipts, SeatBank, SharedLine};
use sci_words::{LineNo, Mem, NodeId, Tag};
use std::alloc::AllocError;

/// A node's ports to the lines of a memory, by its seat at each. A call on a line is that of the line's port, and leaves every
/// other seat as it is.
pub type FineBank<'a, K> = SeatBank<'a, FineLine<K>>;

/// Refusal 9: the seats are not one per line, in the order of the lines and of one node. They come back as they were.
pub type SeatOfAnother<K> = sci_port::SeatOfAnother<Seat<K>>;

/// Each call is one load or one compare-exchange, and is answered: no load gives None, and no step Busy.
impl<K: Keeps> SharedLine for FineLine<K> {
    type Keep = K;

    type Seat = Seat<K>;

    ghost terms = { λ l. terms_of l.terms };

    ghost seating = { λ s. seating_of s };

    ghost is_seat = { λ l s. IsSeatOf l s };

    ghost is_fact = { λ c l s. seat_of_prop c l s };

    ghost makes = { λ s call t. HasMade K.fits s call t × HasReceived s call t };

    ghost readies = { λ s r t. HasReadied s r t };

    ghost laws = { laws_of_seats K.fits };

    ghost kept = { kept_of_seats K.fits };

    fn nodes(&self) -> u16 {
        self.terms.nodes
    }

    fn number(&self) -> LineNo {
        self.terms.number
    }

    fn keep(&self) -> K {
        self.terms.keep
    }

    fn seat_node(seat: &Seat<K>) -> NodeId {
        seat.node()
    }

    fn seat_number(seat: &Seat<K>) -> LineNo {
        seat.number()
    }

    fn seat_pending(seat: &Seat<K>) -> Pending {
        seat.standing.pending()
    }

    fn seat_stage(seat: &Seat<K>) -> Stage {
        seat.standing.stage()
    }

    #[inline(always)]
    fn own(&self, seat: &mut Seat<K>) -> Option<Tag> {
        Some(seat.own(self))
    }

    fn mem(&self, seat: &mut Seat<K>) -> Option<Mem> {
        Some(seat.mem(self))
    }

    fn tag(&self, seat: &mut Seat<K>, node: NodeId) -> Option<Tag> {
        Some(seat.tag(self, node))
    }

    #[inline(always)]
    fn step(&self, seat: &mut Seat<K>, event: Event) -> Outcome {
        seat.step(self, &event)
    }

    fn seat_reserve(seat: &mut Seat<K>, n: usize) -> Result<(), AllocError> {
        seat.receipts.reserve(n)
    }

    fn seat_receipts(seat: &Seat<K>) -> &Receipts {
        &seat.receipts
    }

    fn seat_aim(seat: &mut Seat<K>, passing: bool) {
        seat.receipts.aim(passing);
    }
}
