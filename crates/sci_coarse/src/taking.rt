//! A lock word that is taken and never given back.
ghost use Rattle.std.specs.Prelude.{◌≡◌};
ghost use Rattle.sci_coarse.specs.Seats.{IsSeatOf};

use crate::line::CoarseLine;
use crate::seats::Seat;
use sci_core::Keeps;

/// Takes the line's lock word by this seat, for good: whether it was free. Each other seat then finds the line busy.
pub fn take_for_good<K: Keeps>(line: &CoarseLine<K>, seat: Seat<K>) -> bool
    requires { IsSeatOf line.now seat }
{
    let Seat {
        mut token,
        node: _,
        standing: _,
        receipts: _,
    } = seat;
    line.take(&mut token)
}
