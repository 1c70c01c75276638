//! What each node kept of a line, once it is closed.
ghost use Rattle.std.specs.Prelude.{All};

use super::{TestedLine, carry_out, finished};
use crate::checks::same;
use crate::receipts::expects;
use sci_coarse::CoarseLine;
use sci_core::{AnyWords, Line};
use sci_fine::FineLine;
use sci_ops::Op;
use sci_port::{Port, SeatPort};
use std::alloc::Global;
use std::process::Abort;
use std::sync::Wait;
use std::test::Fail;

const SEVEN: [u64; 8] = [7, 0, 0, 0, 0, 0, 0, 0];

// Node 0 stores 7 in word 0, with room for two receipts; another node loads.
fn works<L: TestedLine, R: Wait>(rt: &R, line: &L, seat: &mut L::Seat) -> Result<(), Fail>
    requires { L.is_seat line.now seat.old }
    ensures { L.is_seat line.now seat.new }
{
    let is_first = L::seat_node(seat).get() == 0;
    let mut port = SeatPort::new(line, seat);
    port.reserve(2)?;
    port.aim(is_first);
    let op = if is_first {
        Op::store(0, 7).ok().ok_or("no such store")?
    } else {
        Op::load()
    };
    let _ = carry_out(rt, line, seat, op);
    Ok(())
}

// Each node in turn.
fn all_work<L: TestedLine, R: Wait>(rt: &R, line: &L, seats: &mut [L::Seat]) -> Result<(), Fail>
    requires { All (λ s. L.is_seat line.now s) seats.old }
    ensures { All (λ s. L.is_seat line.now s) seats.new }
{
    for seat in seats.iter_mut() {
        works(rt, line, seat)?;
    }
    Ok(())
}

// Node 0 stores in a line of zeros, and then node 1 loads: the closed line has what both kept.
fn gives_receipts<L: TestedLine, R: Abort + Wait>(rt: &R, alloc: Global) -> Result<(), Fail> {
    let Ok((line, mut seats)) = L::opened(alloc, 2, 0, Line::ZERO) else {
        return Err(Fail::new("new answered 7"));
    };
    all_work(rt, &line, seats.as_mut_slice())?;
    let Ok((closed, receipts)) = finished(alloc, line, seats) else {
        return Err(Fail::new("finish was refused"));
    };
    same(rt, &closed.value().words, &SEVEN);
    let [zero, one] = receipts.as_slice() else {
        panic!(rt; "not two nodes")
    };
    expects(rt, true, zero.as_slice());
    expects(rt, false, one.as_slice());
    Ok(())
}

#[test]
fn lines_finish_with_receipts(rt: HostRuntime) -> Result<(), Fail> {
    gives_receipts::<CoarseLine<AnyWords>, _>(&rt, rt.alloc())?;
    gives_receipts::<FineLine<AnyWords>, _>(&rt, rt.alloc())
}
