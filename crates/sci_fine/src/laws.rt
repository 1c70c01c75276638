//! The law of one run, on a public call.
ghost use Rattle.sci_fine.specs.Laws.{HasOneRun, AppendsCalls, HidesNothing, MissesTruly, LogsCalls};
ghost use Rattle.sci_fine.specs.Kept.{BeginsKept, StaysKept, StaysKeptReadied};

use crate::seats::Seat;
use sci_core::Keeps;

/// What the rule of a line's table says of any step of it that adds one call to its seat's log, or none, whatever else it does. It
/// does nothing: its contract is the law. The seats' logs tell one run alone; a call that is added was made there and then, on
/// the line as it stood, behind all others, so the order of the run is the order in time; where none is added, the line is as it
/// was; and a miss found another word than the row's. A call of a port adds itself to its seat's log, once and alone.
pub fn law_of_one_run<K: Keeps>()
    ensures one { HasOneRun K.fits }
    ensures appends { AppendsCalls K.fits }
    ensures hides { HidesNothing K.fits }
    ensures misses { MissesTruly K.fits }
    ensures logs { LogsCalls K.fits }
{}

/// How a seat comes to have kept all, which `finish` speaks of. It does nothing: its contract is the law. A new seat has; and one
/// that has, has also after a call of its port for whose receipt there was room, and after its receipts were readied.
pub fn law_of_kept_receipts<K: Keeps>(seat: &Seat<K>)
    ensures begins { BeginsKept seat.now }
    ensures stays { StaysKept K.fits seat.now }
    ensures readied { StaysKeptReadied seat.now }
{
    let _ = seat;
}
