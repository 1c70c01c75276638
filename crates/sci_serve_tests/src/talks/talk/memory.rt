//! A talk begins without memory, and comments take none. tools/allocations runs this test with the allocation of its last line
//! refused, and wants it to fail there, and there alone.

use crate::checks::{allocates, same};
use sci_script::Talk;

#[test]
fn talks_begun_take_no_memory(rt: HostRuntime) {
    let mut talk = Talk::start(rt.alloc());
    let mut text = String::new(rt.alloc());
    for _ in 0..1000 {
        same(&rt, &talk.say(b"# nothing", &mut text), &Ok(()));
        same(&rt, &talk.say(b" \t", &mut text), &Ok(()));
    }
    allocates(&rt, rt.alloc(), "allocation 1 is refused");
}
