//! Which text `check` judges an input as, over readers that give a byte at a time, are interrupted, and fail.

use crate::checks::same_at;
use crate::slow::Slow;
use sci_serve::{Beginning, Kind, SimFault};
use std::alloc::Global;

/// A text; whether its reader is interrupted before each byte and its end; how often it is at its end; the read that fails; and what the
/// text begins, in how many reads.
type Row = (
    &'static str,
    bool,
    u32,
    usize,
    Result<(Kind, usize), SimFault>,
);

const NEVER: usize = usize::MAX;

const ROWS: [Row; 10] = [
    ("memory 1 1\n", false, 0, NEVER, Ok((Kind::Log, 7))),
    ("memory 1 1\n", true, 0, NEVER, Ok((Kind::Log, 14))),
    ("# a\n\nmemory", false, 0, NEVER, Ok((Kind::Log, 12))),
    (" memory 1 1\n", false, 0, NEVER, Ok((Kind::Dump, 8))),
    (
        "scihistory 1 1 1\n",
        false,
        0,
        NEVER,
        Ok((Kind::History, 11)),
    ),
    ("", false, 3, NEVER, Ok((Kind::Dump, 4))),
    ("memory 1 1\n", false, 0, 6, Err(SimFault::CannotRead)),
    ("memory 1 1\n", false, 0, 7, Ok((Kind::Log, 7))),
    // 2,097,152 reads
    ("", false, 2_097_151, NEVER, Ok((Kind::Dump, 2_097_152))),
    ("", false, 2_097_152, NEVER, Err(SimFault::CannotRead)),
];

fn begun(alloc: Global, reader: &mut Slow<'_>) -> Result<(Kind, usize), SimFault> {
    let beginning = Beginning::read(alloc, reader)?;
    Ok((beginning.kind, beginning.reads))
}

#[test]
fn beginnings(rt: HostRuntime) {
    for row in &ROWS {
        let (text, is_shy, interruptions, faulty, expected) = row;
        let mut reader = Slow::new(text.as_bytes(), *is_shy);
        reader.interruptions = *interruptions;
        reader.faulty = *faulty;
        same_at(&rt, row, &begun(rt.alloc(), &mut reader), expected);
    }
}
