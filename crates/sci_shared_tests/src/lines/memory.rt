//! Seats, their ports and banks of them take no memory, as turns by chance show. tools/allocations runs each of these tests with the
//! allocation of its last line refused, and wants it to fail there, and there alone.
use super::TestedLine;
use super::banks::takes_turns;
use super::turning::turns;
use crate::checks::allocates;
use sci_coarse::CoarseLine;
use sci_core::{AnyWords, Line};
use sci_fine::FineLine;
use std::alloc::Global;
use std::process::Abort;
use std::test::Fail;

// Turns by chance of three nodes, by their seats.
fn seats_take_turns<L: TestedLine>(rt: &impl Abort, alloc: Global) -> Result<(), Fail> {
    let (line, mut seats) = L::opened(alloc, 3, 0, Line::ZERO)?;
    assert!(rt; matches!(turns(&line, seats.as_mut_slice()), Some(1_000..)));
    Ok(())
}

#[test]
fn seats_and_ports_take_no_memory(rt: HostRuntime) -> Result<(), Fail> {
    // A line under its lock word and its seats take seven, and one on separate words five.
    seats_take_turns::<CoarseLine<AnyWords>>(&rt, rt.alloc())?;
    seats_take_turns::<FineLine<AnyWords>>(&rt, rt.alloc())?;
    allocates(&rt, rt.alloc(), "allocation 13 is refused");
    Ok(())
}

#[test]
fn banks_take_no_memory(rt: HostRuntime) -> Result<(), Fail> {
    // Two lines under their lock words and their seats take fourteen, two on separate words ten, and each list of two one.
    takes_turns::<CoarseLine<AnyWords>>(&rt, rt.alloc())?;
    takes_turns::<FineLine<AnyWords>>(&rt, rt.alloc())?;
    allocates(&rt, rt.alloc(), "allocation 29 is refused");
    Ok(())
}
