//! A node that stops on its way to a store: what stands in the list then, and what another node's load comes to.
use crate::rows::check_on_all;
use sci_script::ScriptRefusal;
use std::alloc::{AllocError, Global};
use std::test::Fail;

/// Where node 0 has stopped: the list, and what node 2 reads, or None where it waits for node 0.
type Stop = (&'static str, Option<&'static str>);

/// Three nodes load, one after the other, and node 0, the tail, begins a store.
const SHARED_FRONT: &str =
    "memory 3 1\nload 0 0 0\ndone 0\nload 1 0 0\ndone 1\nload 2 0 0\ndone 2\nstore 0 0 0 5\n";

const READS: &str = "node 0 read 0 stamp 0\nnode 1 read 0 stamp 0\nnode 2 read 0 stamp 0\n";

/// By how many turns node 0 has taken. It rolls out (to its turn 3), queues and attaches itself as the head (to 8), turns the list
/// GONE (10), and purges node 2 (12 to 14) and node 1 (15 to 17). Its turn 18 writes.
const SHARED_STOPS: [Stop; 19] = [
    (
        "line 0 FRESH 2: 2 HEAD_FRESH, 1 MID_VALID, 0 TAIL_VALID\n",
        ZERO,
    ),
    ("line 0 FRESH 2: 2 HEAD_FRESH, 1 MID_VALID, 0 ROLL\n", ZERO),
    ("line 0 FRESH 2: 2 HEAD_FRESH, 1 TAIL_VALID\n", ZERO),
    ("line 0 FRESH 2: 2 HEAD_FRESH, 1 TAIL_VALID\n", ZERO),
    ("line 0 FRESH 2: 2 HEAD_FRESH, 1 TAIL_VALID\n", ZERO),
    (
        "line 0 FRESH 0: 0 QUEUED, 2 HEAD_FRESH, 1 TAIL_VALID\n",
        ZERO,
    ),
    (
        "line 0 FRESH 0: 0 QUEUED, 2 HEAD_FRESH, 1 TAIL_VALID\n",
        ZERO,
    ),
    (
        "line 0 FRESH 0: 0 QUEUED, 2 MID_VALID, 1 TAIL_VALID\n",
        ZERO,
    ),
    (
        "line 0 FRESH 0: 0 HEAD_FRESH, 2 MID_VALID, 1 TAIL_VALID\n",
        ZERO,
    ),
    (
        "line 0 FRESH 0: 0 CONVERT, 2 MID_VALID, 1 TAIL_VALID\n",
        ZERO,
    ),
    (
        "line 0 GONE 0: 0 CONVERT, 2 MID_VALID, 1 TAIL_VALID\n",
        ZERO,
    ),
    (
        "line 0 GONE 0: 0 PURGING, 2 MID_VALID, 1 TAIL_VALID\n",
        ZERO,
    ),
    ("line 0 GONE 0: 0 PURGING, 2 PURGED, 1 TAIL_VALID\n", None),
    ("line 0 GONE 0: 0 PURGING, 1 TAIL_VALID\n", None),
    ("line 0 GONE 0: 0 PURGING, 1 TAIL_VALID\n", None),
    ("line 0 GONE 0: 0 PURGING, 1 PURGED\n", None),
    ("line 0 GONE 0: 0 PURGING\n", None),
    ("line 0 GONE 0: 0 PURGING\n", None),
    (
        "node 0 wrote stamp 1\nline 0 GONE 0: 0 ONLY_DIRTY\n",
        Some("node 2 read 5 stamp 1\n"),
    ),
];

/// Node 0 begins a store on a line that nobody has used.
const UNUSED_FRONT: &str = "memory 3 1\nstore 0 0 0 5\n";

/// The same of that store. Node 0 queues, turns HOME to GONE and takes memory's bytes (2), returns them, settles as the only
/// sharer (4), begins a purge of nobody (5), and writes in its turn 6. Who comes behind its turn 2 finds memory lent, behind 3 a
/// head in the queue, and behind 5 one that purges.
const UNUSED_STOPS: [Stop; 7] = [
    ("line 0 HOME\n", ZERO),
    ("line 0 HOME\n", ZERO),
    ("line 0 GONE 0: 0 QUEUED\n", None),
    ("line 0 GONE 0: 0 QUEUED\n", None),
    ("line 0 GONE 0: 0 ONLY_DIRTY\n", ZERO),
    ("line 0 GONE 0: 0 PURGING\n", None),
    (
        "node 0 wrote stamp 1\nline 0 GONE 0: 0 ONLY_DIRTY\n",
        Some("node 2 read 5 stamp 1\n"),
    ),
];

const ZERO: Option<&str> = Some("node 2 read 0 stamp 0\n");

/// A script in which node 0 stops behind so many turns of its store, and then node 2 loads; and what it prints.
fn stopped(
    alloc: Global,
    front: &str,
    printed: &str,
    turns: usize,
    stop: Stop,
) -> Result<(String, String), AllocError> {
    let (mut script, mut text) = (String::new(alloc), String::new(alloc));
    script.push_str(front)?;
    for _ in 0..turns {
        script.push_str("turn 0\n")?;
    }
    script.push_str("list 0\nload 2 0 0\ndone 2\n")?;
    let (list, read) = stop;
    text.push_str(printed)?;
    text.push_str(list)?;
    text.push_str(read.unwrap_or(""))?;
    Ok((script, text))
}

#[test]
fn node_0_stops(rt: HostRuntime) -> Result<(), Fail> {
    // without a turn, `done 2` stands in this line
    let stores: [(&str, &str, u64, &[Stop]); 2] = [
        (SHARED_FRONT, READS, 11, &SHARED_STOPS),
        (UNUSED_FRONT, "", 5, &UNUSED_STOPS),
    ];
    for (front, printed, first, stops) in stores {
        let mut done = first;
        for (turns, stop) in stops.iter().enumerate() {
            let (script, text) = stopped(rt.alloc(), front, printed, turns, *stop)?;
            let refusal = match stop.1 {
                Some(_) => None,
                None => Some(ScriptRefusal::NotDone(done)),
            };
            check_on_all(&rt, rt.alloc(), &turns, &script, refusal, &text)?;
            done = done.saturating_add(1);
        }
    }
    Ok(())
}
