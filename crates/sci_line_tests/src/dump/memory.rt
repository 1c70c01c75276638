//! `check` takes no memory. tools/allocations runs this test with the allocation of its last line refused, and wants it to
//! fail there, and there alone.
use super::SHARED;
use crate::checks::{allocates, same};
use sci_dump::{Verdict, check, read_dump};

#[test]
fn checks_take_no_memory(rt: HostRuntime) {
    // `read_dump` takes three.
    let Ok(read) = read_dump(rt.alloc(), SHARED.as_bytes()) else {
        panic!(rt; "`read_dump` takes more than three allocations")
    };
    // A lawful dump is looked at by every rule.
    same(&rt, &check(&read), &Verdict::Lawful);
    allocates(&rt, rt.alloc(), "allocation 4 is refused");
}
