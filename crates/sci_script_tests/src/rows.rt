//! Scripts with their exact texts, worked out by hand from the tables of rows and turns.
use crate::banks::run_on;
use crate::checks::{same_at, same_bytes_at};
use crate::texts::{SHARED, SHARERS, check_at};
use sci_coarse::CoarseLine;
use sci_core::AnyWords;
use sci_fine::FineLine;
use sci_script::ScriptRefusal;
use std::alloc::Global;
use std::fmt::Debug;
use std::process::Abort;
use std::test::Fail;

/// Reads, writes, exits, nodes that come late, and a bounded cache: each is run over whole lines, and over lines that threads share.
const ROWS: &[(&str, &str)] = &[
    (SHARERS, SHARED),
    ("memory 1 1", ""),
    ("memory 1 1\nlist 0\n", "line 0 HOME\n"),
    (
        "memory 2 1\nstore 0 0 0 7\ndone 0\nload 1 0 0\ndone 1\nlist 0\n",
        "node 0 wrote stamp 1\nnode 1 read 7 stamp 1\nline 0 GONE 1: 1 HEAD_DIRTY, 0 TAIL_VALID\n",
    ),
    (
        "memory 2 1\nstore 0 0 0 7\ndone 0\nevict 0 0\ndone 0\nlist 0\nload 1 0 0\ndone 1\n",
        "node 0 wrote stamp 1\nnode 0 out\nline 0 HOME\nnode 1 read 7 stamp 1\n",
    ),
    (
        "memory 3 1\nload 0 0 0\ndone 0\nload 1 0 0\ndone 1\nload 2 0 0\ndone 2\nstore 2 0 0 5\nturn 2\n\
         list 0\nturn 2\nlist 0\nturn 2\nlist 0\nturn 2\nlist 0\nturn 2\nlist 0\nturn 2\nlist 0\n\
         turn 2\nlist 0\nturn 2\nlist 0\nturn 2\nlist 0\nturn 2\nlist 0\n",
        "node 0 read 0 stamp 0\nnode 1 read 0 stamp 0\nnode 2 read 0 stamp 0\n\
         line 0 FRESH 2: 2 CONVERT, 1 MID_VALID, 0 TAIL_VALID\n\
         line 0 GONE 2: 2 CONVERT, 1 MID_VALID, 0 TAIL_VALID\n\
         line 0 GONE 2: 2 PURGING, 1 MID_VALID, 0 TAIL_VALID\n\
         line 0 GONE 2: 2 PURGING, 1 PURGED, 0 TAIL_VALID\nline 0 GONE 2: 2 PURGING, 0 TAIL_VALID\n\
         line 0 GONE 2: 2 PURGING, 0 TAIL_VALID\nline 0 GONE 2: 2 PURGING, 0 PURGED\n\
         line 0 GONE 2: 2 PURGING\nline 0 GONE 2: 2 PURGING\nnode 2 wrote stamp 1\n\
         line 0 GONE 2: 2 ONLY_DIRTY\n",
    ),
    (
        "memory 3 1\nstore 0 0 0 5\ndone 0\nstore 0 0 0 6\nturn 0\nload 1 0 0\nturn 1\nturn 1\n\
         load 2 0 0\nturn 2\nturn 2\nlist 0\nturn 2\nturn 1\nturn 0\ndone 1\ndone 2\nlist 0\n",
        "node 0 wrote stamp 1\nline 0 GONE 2: 2 QUEUED, 1 QUEUED, 0 PURGING\nnode 2 waits\n\
         node 1 waits\nnode 0 wrote stamp 2\nnode 1 read 6 stamp 2\nnode 2 read 6 stamp 2\n\
         line 0 GONE 2: 2 HEAD_DIRTY, 1 MID_VALID, 0 TAIL_VALID\n",
    ),
    (
        "memory 1 1\nopen 0 18446744073709551615 0 0 0 0 0 0 0 0\nstore 0 0 0 5\ndone 0\nlist 0\n\
         load 0 0 0\ndone 0\n",
        "node 0 refused 11\nline 0 GONE 0: 0 ONLY_DIRTY\nnode 0 read 0 stamp 18446744073709551615\n",
    ),
    (
        "memory 1 1\nopen 0 18446744073709551614 0 0 0 0 0 0 0 0\nstore 0 0 0 5\ndone 0\nstore 0 0 0 6\n\
         done 0\nload 0 0 0\ndone 0\n",
        "node 0 wrote stamp 18446744073709551615\nnode 0 refused 11\n\
         node 0 read 5 stamp 18446744073709551615\n",
    ),
    (
        "memory 1 1\nload 0 0 0\ndone 0\nlist 0\nevict 0 0\ndone 0\nlist 0\nevict 0 0\ndone 0\n",
        "node 0 read 0 stamp 0\nline 0 FRESH 0: 0 ONLY_FRESH\nnode 0 out\nline 0 HOME\nnode 0 out\n",
    ),
    (
        "memory 3 1\nload 0 0 0\ndone 0\nload 1 0 0\ndone 1\nload 2 0 0\ndone 2\nstore 0 0 0 5\ndone 0\n\
         list 0\nload 1 0 0\ndone 1\n",
        "node 0 read 0 stamp 0\nnode 1 read 0 stamp 0\nnode 2 read 0 stamp 0\nnode 0 wrote stamp 1\n\
         line 0 GONE 0: 0 ONLY_DIRTY\nnode 1 read 5 stamp 1\n",
    ),
    (
        "memory 3 1\nload 0 0 0\ndone 0\nload 1 0 0\ndone 1\nload 2 0 0\ndone 2\nstore 0 0 0 5\n\
         turn 0\nturn 0\nturn 0\nturn 0\nturn 0\nturn 0\nturn 0\nturn 0\nturn 0\nturn 0\nturn 0\n\
         turn 0\nturn 0\nturn 0\nturn 0\nturn 0\nturn 0\nlist 0\nturn 0\nlist 0\n",
        "node 0 read 0 stamp 0\nnode 1 read 0 stamp 0\nnode 2 read 0 stamp 0\nline 0 GONE 0: 0 PURGING\n\
         node 0 wrote stamp 1\nline 0 GONE 0: 0 ONLY_DIRTY\n",
    ),
    (
        "memory 3 1\nload 0 0 0\ndone 0\nload 1 0 0\ndone 1\nload 2 0 0\ndone 2\nevict 1 0\nturn 1\n\
         evict 0 0\nturn 0\nlist 0\nturn 1\nturn 0\nlist 0\nturn 0\nturn 1\nturn 1\nlist 0\n",
        "node 0 read 0 stamp 0\nnode 1 read 0 stamp 0\nnode 2 read 0 stamp 0\n\
         line 0 FRESH 2: 2 HEAD_FRESH, 1 ROLL, 0 ROLL\nnode 1 waits\n\
         line 0 FRESH 2: 2 HEAD_FRESH, 1 ROLL\nnode 0 out\nnode 1 out\nline 0 FRESH 2: 2 ONLY_FRESH\n",
    ),
    (
        "memory 4 1\nload 0 0 0\ndone 0\nload 1 0 0\ndone 1\nload 2 0 0\ndone 2\nload 3 0 0\ndone 3\n\
         evict 1 0\nturn 1\nturn 1\ntag 0 0\nstore 3 0 0 9\nturn 3\nturn 3\nturn 3\nturn 3\nturn 3\n\
         turn 3\nlist 0\ntag 0 1\nturn 3\ntag 0 1\nturn 3\nturn 1\nlist 0\nturn 1\ndone 3\nlist 0\n",
        "node 0 read 0 stamp 0\nnode 1 read 0 stamp 0\nnode 2 read 0 stamp 0\nnode 3 read 0 stamp 0\n\
         tag 0 0 TAIL_VALID forw - back 2\nline 0 GONE 3: 3 PURGING, 1 ROLL, 0 TAIL_VALID\n\
         tag 0 1 ROLL forw 0 back 2\ntag 0 1 ROLL forw 0 back 3\nnode 3 waits\n\
         line 0 GONE 3: 3 PURGING, 0 TAIL_VALID\nnode 1 out\nnode 3 wrote stamp 1\n\
         line 0 GONE 3: 3 ONLY_DIRTY\n",
    ),
    (
        "memory 2 1\nload 0 0 0\ndone 0\nstore 0 0 0 5\nturn 0\nload 1 0 0\nturn 1\nturn 1\nturn 1\n\
         list 0\nturn 1\nturn 0\nlist 0\nturn 0\nturn 1\nturn 1\nlist 0\ndone 0\nlist 0\n",
        "node 0 read 0 stamp 0\nline 0 FRESH 1: 1 QUEUED, 0 CONVERT\nnode 1 waits\n\
         line 0 FRESH 1: 1 QUEUED, 0 ONLY_FRESH\nnode 0 waits\nnode 1 read 0 stamp 0\n\
         line 0 FRESH 1: 1 HEAD_FRESH, 0 TAIL_VALID\nnode 0 wrote stamp 1\nline 0 GONE 0: 0 ONLY_DIRTY\n",
    ),
    (
        "memory 3 1\nstore 0 0 0 7\ndone 0\nload 1 0 0\ndone 1\nevict 1 0\nturn 1\nturn 1\nlist 0\n\
         store 0 0 0 9\ndone 0\nload 2 0 0\nturn 2\nturn 2\nturn 1\nlist 0\nturn 2\nturn 1\nturn 1\n\
         turn 1\nturn 1\ndone 2\ndone 1\nlist 0\n",
        "node 0 wrote stamp 1\nnode 1 read 7 stamp 1\nline 0 GONE 1: 1 LEAVING, 0 ONLY_DIRTY\n\
         node 0 wrote stamp 2\nline 0 GONE 2: 2 QUEUED, 1 QUEUED, 0 ONLY_DIRTY\nnode 2 waits\n\
         node 1 waits\nnode 2 read 9 stamp 2\nnode 1 out\nline 0 GONE 2: 2 HEAD_DIRTY, 0 TAIL_VALID\n",
    ),
    (
        "memory 2 1\nstore 0 0 0 7\ndone 0\nevict 0 0\nturn 0\nload 1 0 0\nturn 1\nturn 1\nturn 0\n\
         list 0\nturn 0\ndone 1\ndone 0\nlist 0\n",
        "node 0 wrote stamp 1\nline 0 GONE 1: 1 QUEUED, 0 ONLY_DIRTY\nnode 0 waits\n\
         node 1 read 7 stamp 1\nnode 0 out\nline 0 GONE 1: 1 ONLY_DIRTY\n",
    ),
    (
        "memory 1 2\ncapacity 1\nload 0 0 0\ndone 0\nload 0 1 0\ndone 0\nlist 0\nlist 1\nresidents 0\n",
        "node 0 read 0 stamp 0\nnode 0 read 0 stamp 0\nline 0 HOME\nline 1 FRESH 0: 0 ONLY_FRESH\n\
         node 0 residents 1\n",
    ),
    (
        "memory 2 1\nstore 0 0 0 7\nturn 0\nturn 0\nlist 0\nload 1 0 0\nturn 1\nturn 1\nturn 0\nturn 1\n\
         list 0\nturn 0\ndone 1\nlist 0\ndone 0\nlist 0\n",
        "line 0 GONE 0: 0 QUEUED\nnode 1 waits\nline 0 GONE 1: 1 QUEUED, 0 QUEUED\n\
         node 1 read 0 stamp 0\nline 0 GONE 1: 1 HEAD_DIRTY, 0 TAIL_VALID\nnode 0 wrote stamp 1\n\
         line 0 GONE 0: 0 ONLY_DIRTY\n",
    ),
    (
        "memory 1 1\nstore 0 0 0 5\nturn 0\nturn 0\nturn 0\nturn 0\nturn 0\nturn 0\n",
        "node 0 wrote stamp 1\n",
    ),
    (
        "memory 1024 1\nload 1023 0 0\ndone 1023\nlist 0\n",
        "node 1023 read 0 stamp 0\nline 0 FRESH 1023: 1023 ONLY_FRESH\n",
    ),
];

/// Over whole lines, and over banks of lines of both kinds, the script has this refusal, if it has one, and prints this text.
pub(crate) fn check_on_all<Row: Debug>(
    rt: &impl Abort,
    alloc: Global,
    row: &Row,
    script: &str,
    refusal: Option<ScriptRefusal>,
    text: &str,
) -> Result<(), Fail> {
    check_at(rt, alloc, row, script, refusal, text);
    let mut out = Vec::new(alloc);
    let end = run_on::<CoarseLine<AnyWords>>(alloc, script, &mut out)?;
    same_at(rt, row, &end.err(), &refusal);
    same_bytes_at(rt, row, &out, text.as_bytes());
    let mut out = Vec::new(alloc);
    let end = run_on::<FineLine<AnyWords>>(alloc, script, &mut out)?;
    same_at(rt, row, &end.err(), &refusal);
    same_bytes_at(rt, row, &out, text.as_bytes());
    Ok(())
}

#[test]
fn rows_over_each_kind_of_line(rt: HostRuntime) -> Result<(), Fail> {
    for (script, text) in ROWS {
        check_on_all(&rt, rt.alloc(), script, script, None, text)?;
    }
    let script = "memory 1025 1";
    let refusal = Some(ScriptRefusal::BadNumber(1));
    check_at(&rt, rt.alloc(), &script, script, refusal, "");
    Ok(())
}
