//! A seat's way to its line.
ghost use Rattle.std.specs.Prelude.{◌≡◌};
ghost use Rattle.sci_coarse.specs.Seats.{IsSeatOf};

use crate::line::CoarseLine;
use crate::seats::Seat;
use sci_core::Keeps;
use sci_port::SeatPort;

/// A seat's port to its line. Each call is one region: the lock word is taken, the call is made on the line, and the lock
/// word is given back. Where the lock word is found taken, a load answers None and a step Busy, without a second try.
pub type CoarsePort<'a, K> = SeatPort<'a, CoarseLine<K>>;

impl<K: Keeps> CoarseLine<K> {
    /// The port of a seat of this line.
    pub fn port<'a>(&'a self, seat: &'a mut Seat<K>) -> CoarsePort<'a, K>
        requires { IsSeatOf self.now seat.old }
        ensures line { result.line ≡ self.entry }
        ensures same_reference { result.seat.ghost_name ≡ seat.entry.ghost_name }
        ensures same_seat { result.seat.now ≡ seat.old }
    {
        SeatPort::new(self, seat)
    }
}
