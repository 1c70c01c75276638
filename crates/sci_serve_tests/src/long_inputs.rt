//! Inputs at the limits of their length, and of reads.
use crate::checks::{same_at, same_bytes_at};
use crate::slow::Slow;
use sci_script::ScriptRefusal;
use sci_serve::{Form, INPUT_LIMIT, SimFault, serve};
use std::test::Fail;

/// How many bytes an input may have; a comment of so many bytes; whether its reader is interrupted before each byte and its end, so that each takes two reads; whether its
/// last byte comes again and again; how often its reader is interrupted at the end; the read that fails; and the fault.
type Input = (usize, usize, bool, bool, u32, usize, SimFault);

const NEVER: usize = usize::MAX;

const LAST: SimFault = SimFault::Refused(ScriptRefusal::BadCommand(2));

const EMPTY: SimFault = SimFault::Refused(ScriptRefusal::BadCommand(1));

const LONG: SimFault = SimFault::InputTooLong;

const UNREAD: SimFault = SimFault::CannotRead;

const INPUTS: [Input; 14] = [
    (INPUT_LIMIT, 1_048_576, false, false, 0, NEVER, LAST),
    (INPUT_LIMIT, 1_048_577, false, false, 0, NEVER, LONG),
    // a fault is told before a length
    (INPUT_LIMIT, 1_048_577, false, false, 0, 1_048_577, UNREAD),
    // 2,097,152 reads
    (INPUT_LIMIT, 1_048_575, true, false, 0, NEVER, LAST),
    (INPUT_LIMIT, 1_048_576, true, false, 0, NEVER, UNREAD),
    (INPUT_LIMIT, 0, false, false, 2_097_151, NEVER, EMPTY),
    (INPUT_LIMIT, 0, false, false, 2_097_152, NEVER, UNREAD),
    (INPUT_LIMIT, 0, false, false, u32::MAX, NEVER, UNREAD),
    (INPUT_LIMIT, 1, false, true, 0, NEVER, UNREAD),
    (4, 4, false, false, 0, NEVER, LAST),
    (4, 5, false, false, 0, NEVER, LONG),
    (4, 30, true, false, 0, NEVER, LONG),
    (0, 0, false, false, 8, NEVER, EMPTY),
    // no limit but memory
    (NEVER, 1_048_577, false, false, 0, NEVER, LAST),
];

#[test]
fn long_inputs(rt: HostRuntime) -> Result<(), Fail> {
    for (limit, length, is_shy, is_endless, interruptions, faulty, fault) in &INPUTS {
        let mut input = vec![in rt.alloc(); b' '; *length]?;
        if let Some(first) = input.first_mut() {
            *first = b'#';
        }
        let mut reader = Slow::new(&input, *is_shy);
        reader.is_endless = *is_endless;
        reader.interruptions = *interruptions;
        reader.faulty = *faulty;
        let mut out = Vec::new(rt.alloc());
        let end = serve(rt.alloc(), *limit, Form::Script, &mut reader, &mut out);
        let row = (limit, length, is_shy, interruptions);
        same_at(&rt, &row, &end, &Err(*fault));
        same_bytes_at(&rt, &row, &out, b"");
    }
    Ok(())
}
