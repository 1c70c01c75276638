//! Lines that are brought to rest more than once.
use crate::texts::check_at;
use std::process::Abort;

/// Worked out by hand from the table of turns.
const STIRRED: &[(&str, &str)] = &[
    // A call goes on from rest, and is brought to rest again.
    (
        "memory 2 1\nrest\nload 0 0 0\nturn 0\nturn 0\nlist 0\nrest\nlist 0\nturn 0\ntag 0 0\nrest\ntag 0 0\n\
         rest\ndone 0\n",
        "line 0 FRESH 0: 0 QUEUED\nline 0 FRESH 0: 0 ONLY_FRESH\ntag 0 0 ONLY_FRESH forw - back - held\n\
         tag 0 0 ONLY_FRESH forw - back -\nnode 0 read 0 stamp 0\n",
    ),
    // Node 0's call on line 1 stirs line 0, which it leaves first, and then line 1.
    (
        "memory 2 2\ncapacity 1\nload 0 0 0\ndone 0\nrest\nload 0 1 0\nturn 0\nlist 0\nrest\nlist 0\n\
         turn 0\nturn 0\ntag 1 0\nrest\ntag 1 0\nlist 1\ndone 0\n",
        "node 0 read 0 stamp 0\nline 0 FRESH 0: 0 LEAVING\nline 0 HOME\ntag 1 0 QUEUED forw - back -\n\
         tag 1 0 ONLY_FRESH forw - back -\nline 1 FRESH 0: 0 ONLY_FRESH\nnode 0 read 0 stamp 0\n",
    ),
    // Two nodes stir a line each, and a third one the second line behind `end`.
    (
        "memory 3 2\nrest\nstore 0 0 0 5\nstore 1 1 0 6\nturn 0\nturn 1\nturn 1\nlist 1\nrest\nlist 0\nlist 1\n\
         turn 0\nlist 0\nrest\nlist 0\nend\nlist 0\nlist 1\nstore 2 1 0 7\nturn 2\nturn 2\nlist 1\nrest\nlist 1\n",
        "line 1 GONE 1: 1 QUEUED\nline 0 FRESH 0: 0 ONLY_FRESH\nline 1 GONE 1: 1 ONLY_DIRTY\n\
         line 0 FRESH 0: 0 CONVERT\nline 0 GONE 0: 0 ONLY_DIRTY\nnode 0 wrote stamp 1\nnode 1 wrote stamp 1\n\
         line 0 GONE 0: 0 ONLY_DIRTY\nline 1 GONE 1: 1 ONLY_DIRTY\nline 1 GONE 2: 2 QUEUED, 1 ONLY_DIRTY\n\
         line 1 GONE 2: 2 HEAD_DIRTY, 1 TAIL_VALID\n",
    ),
];

#[test]
fn rest_moves_what_was_stirred(rt: HostRuntime) {
    for (script, text) in STIRRED {
        check_at(&rt, rt.alloc(), script, script, None, text);
    }
}
