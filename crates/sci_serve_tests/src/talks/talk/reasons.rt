//! Why lines are refused, of scripts and of talks; and each reason's text.

use crate::checks::{same, same_bytes_at};
use sci_script::{Reason, Talk, why_script};
use std::alloc::{AllocError, Global};
use std::process::Abort;

/// Scripts whose last line is refused, in a talk too, and why.
const REFUSED: [(&str, &str); 14] = [
    ("memory 1 1\nlist\x010", "a byte that is no printable ASCII"),
    ("memory 1 1\nlode 0", "unknown command"),
    ("load 0 0 0", "memory wanted first"),
    (
        "memory 1 1\nlist 0\nmemory 1 1",
        "too late for this command",
    ),
    (
        "memory 1 1\ncapacity 1\ncapacity 1",
        "too late for this command",
    ),
    (
        "memory 1 1\nlist 0\ncapacity 1",
        "too late for this command",
    ),
    ("memory 1 1\nevict 0", "3 words wanted, 2 found"),
    (
        "memory 2 1\nload 2 0 0",
        "word 2: a number from 0 to 1 wanted",
    ),
    ("memory 1 1\nload 1 0 0", "word 2: 0 wanted"),
    (
        "memory 2 1\nload 0 0 0\nevict 0 0",
        "node 0 has a call open",
    ),
    ("memory 2 1\nturn 1", "node 1 has no call open"),
    ("memory 2 1\nlist 0\ndone 1", "node 1 has no call open"),
    (
        "memory 2 1\nload 0 0 0\nturn 0\nturn 0\nload 1 0 0\nturn 1\ndone 1",
        "node 1 waits for node 0",
    ),
    (
        "memory 2 1\nstore 0 0 0 7\ndone 0\nevict 0 0\nturn 0\nload 1 0 0\nturn 1\nturn 1\nturn 0\ndone 0",
        "node 0 waits for node 1",
    ),
];

/// It is this reason, by its text.
fn is_told(rt: &impl Abort, alloc: Global, why: Result<Option<Reason>, AllocError>, text: &str) {
    let told = match why {
        Ok(Some(reason)) => format!(in alloc; "{reason}"),
        _ => Err(AllocError),
    };
    match told {
        Ok(told) => same_bytes_at(rt, &text, told.as_bytes(), text.as_bytes()),
        Err(_) => same_bytes_at(rt, &text, b"no reason", text.as_bytes()),
    }
}

#[test]
fn scripts_are_explained(rt: HostRuntime) {
    for (script, text) in REFUSED {
        is_told(
            &rt,
            rt.alloc(),
            why_script(rt.alloc(), script.as_bytes()),
            text,
        );
    }
    let accepted = why_script(rt.alloc(), b"memory 1 1\nlist 0");
    same(&rt, &accepted, &Ok(None));
    let twice = why_script(rt.alloc(), b"memory 1 1\nmemory 2 1");
    is_told(&rt, rt.alloc(), twice, "too late for this command");
}

/// A `memory` that is said again, in no right words or numbers.
const AGAIN: [(&str, &str); 3] = [
    ("memory 1 1\nmemory 2", "3 words wanted, 2 found"),
    (
        "memory 1 1\nmemory 0 1",
        "word 2: a number from 1 to 1024 wanted",
    ),
    (
        "memory 1 1\nopen 0 1 0 0 0 0 0 0 0 0\nmemory 1 1025",
        "word 3: a number from 1 to 1024 wanted",
    ),
];

#[test]
fn talks_are_explained(rt: HostRuntime) {
    for (script, text) in REFUSED.into_iter().chain(AGAIN) {
        let mut talk = Talk::start(rt.alloc());
        let mut printed = String::new(rt.alloc());
        let mut last = b"".as_slice();
        for line in script.as_bytes().split(|byte| *byte == b'\n') {
            let _ = talk.say(line, &mut printed);
            last = line;
        }
        is_told(&rt, rt.alloc(), talk.why(last), text);
    }
}
