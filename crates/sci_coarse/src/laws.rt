//! The law of one run, on a public call.
ghost use Rattle.sci_coarse.specs.Laws.{HasOneRun, AppendsSteps, HidesNothing, TakesTruly, MissesTruly, GivesTruly, NoFalseBusy, LogsCalls};
ghost use Rattle.sci_coarse.specs.Kept.{BeginsKept, StaysKept, StaysKeptReadied};

use crate::seats::Seat;
use sci_core::Keeps;

/// What the rule of a line's table says of any step of it that adds one entry to its seat's log, or none, whatever else it does. It
/// does nothing: its contract is the law. The seats' logs tell one run alone; an entry that is added is the last of the run, so the
/// order of the run is the order in time; where none is added, nobody took or gave the lock word; a take is told where it is free
/// alone, a miss where it is taken alone, and a give of a call that was made on the line as it stood. So no kind of step of the
/// lock word can say falsely that the line is busy. A call of a port adds its take and its give to its seat's log, or one miss, and
/// nothing else.
pub fn law_of_one_run<K: Keeps>()
    ensures one { HasOneRun K.fits }
    ensures appends { AppendsSteps K.fits }
    ensures hides { HidesNothing K.fits }
    ensures takes { TakesTruly K.fits }
    ensures misses { MissesTruly K.fits }
    ensures gives { GivesTruly K.fits }
    ensures no_false_busy { NoFalseBusy K.fits }
    ensures logs { LogsCalls K.fits }
{}

/// How a seat comes to have kept all, which `finish` speaks of. It does nothing: its contract is the law. A new seat has; and one
/// that has, has also after a call of its port for whose receipt there was room, and after its receipts were readied.
pub fn law_of_kept_receipts<K: Keeps>(seat: &Seat<K>)
    ensures begins { BeginsKept seat.now }
    ensures stays { StaysKept K.fits seat.now }
    ensures readied { StaysKeptReadied seat.now }
{
    let _ = seat;
}
