//! A seat's way to its line.
ghost use Rattle.std.specs.Prelude.{◌≡◌};
ghost use Rattle.sci_fine.specs.Seats.{IsSeatOf};

use crate::line::FineLine;
use crate::seats::Seat;
use sci_core::Keeps;
use sci_port::SeatPort;

/// A seat's port to its line. Each call is one load or one compare-exchange, and is answered: no load gives None, and no
/// step Busy.
pub type FinePort<'a, K> = SeatPort<'a, FineLine<K>>;

impl<K: Keeps> FineLine<K> {
    /// The port of a seat of this line.
    pub fn port<'a>(&'a self, seat: &'a mut Seat<K>) -> FinePort<'a, K>
        requires { IsSeatOf self.now seat.old }
        ensures line { result.line ≡ self.entry }
        ensures same_reference { result.seat.ghost_name ≡ seat.entry.ghost_name }
        ensures same_seat { result.seat.now ≡ seat.old }
    {
        SeatPort::new(self, seat)
    }
}
