//! Calls on a taken line take no memory. tools/allocations runs this test with the allocation of its last line refused, and wants it
//! to fail there, and there alone.
use crate::checks::{allocates, same};
use crate::lines::banks::pair_of;
use sci_coarse::CoarseLine;
use sci_coarse::parts::take_for_good;
use sci_core::{AnyWords, Event, Outcome};
use sci_port::Port;
use std::test::Fail;

/// Whether a port has none of what it loads, and what a look by a step answers.
fn calls_of<P: Port>(port: &mut P) -> (bool, Outcome) {
    let node = port.node();
    let (own, mem, tag) = (port.own(), port.mem(), port.tag(node));
    let outcome = port.step(Event::Look);
    (own.is_none() && mem.is_none() && tag.is_none(), outcome)
}

#[test]
fn calls_on_a_taken_line_take_no_memory(rt: HostRuntime) -> Result<(), Fail> {
    let (line, zero, mut one) = pair_of::<CoarseLine<AnyWords>>(rt.alloc(), 0)?;
    assert!(rt; take_for_good(&line, zero));
    let answers = calls_of(&mut line.port(&mut one));
    same(&rt, &answers, &(true, Outcome::Busy));
    allocates(&rt, rt.alloc(), "allocation 8 is refused");
    Ok(())
}
