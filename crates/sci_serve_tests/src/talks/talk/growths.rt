//! Each growth may be refused: its line then answers 7, all is as before, and a second try has the memory. With ample memory this
//! test passes. tools/allocations runs it once for each growth of its table, with that one refused, and the test ends by saying
//! which call answered it.

use crate::checks::{same, same_bytes_at};
use sci_script::{Reason, ScriptRefusal, Talk, why_script};
use std::alloc::{AllocError, Global};
use std::process::Abort;
use std::test::Fail;

/// What is said, and what it prints.
const LINES: [(&str, &str); 7] = [
    ("memory 2 1", ""),
    ("open 0 1 2 0 0 0 0 0 0 0", ""),
    ("load 0 0 0", ""),
    ("turn 0", ""),
    ("list 0", "line 0 HOME\n"),
    ("tag 0 1", "tag 0 1 INVALID forw - back -\n"),
    ("residents 0", "node 0 residents 0\n"),
];

fn refuses(rt: &impl Abort, alloc: Global) -> Result<(), Fail> {
    let mut talk = Talk::start(alloc);
    let mut text = String::new(alloc);
    let mut answered_7 = false;
    for (line, printed) in LINES {
        let mut said = talk.say(line.as_bytes(), &mut text);
        if said == Err(ScriptRefusal::OutOfMemory) {
            answered_7 = true;
            said = talk.say(line.as_bytes(), &mut text);
        }
        same(rt, &said, &Ok(()));
        same_bytes_at(rt, &line, text.as_bytes(), printed.as_bytes());
    }
    if answered_7 {
        return Err(Fail::new("say answered 7"));
    }
    Ok(())
}

/// Growths: 34 of say.
#[test]
fn refused_growths(rt: HostRuntime) -> Result<(), Fail> {
    refuses(&rt, rt.alloc())
}

/// A `memory` for which there is no memory is said again, smaller, where the first was.
const SMALLER: [(&str, &str); 3] = [
    ("memory 1 1", ""),
    ("list 0", "line 0 HOME\n"),
    ("tag 0 0", "tag 0 0 INVALID forw - back -\n"),
];

fn says_again(rt: &impl Abort, alloc: Global) -> Result<(), Fail> {
    let mut talk = Talk::start(alloc);
    let mut text = String::new(alloc);
    for line in ["memory 3 2", "open 1 5 6 0 0 0 0 0 0 0", "list 1"] {
        if talk.say(line.as_bytes(), &mut text) != Err(ScriptRefusal::OutOfMemory) {
            continue;
        }
        for (again, printed) in SMALLER {
            same(rt, &talk.say(again.as_bytes(), &mut text), &Ok(()));
            same_bytes_at(rt, &again, text.as_bytes(), printed.as_bytes());
        }
        let beyond = talk.say(b"list 1", &mut text);
        same(rt, &beyond, &Err(ScriptRefusal::BadNumber(1)));
        return Err(Fail::new("say answered 7"));
    }
    same_bytes_at(rt, &"list 1", text.as_bytes(), b"line 1 HOME\n");
    Ok(())
}

/// Growths: 23 of say.
#[test]
fn refused_growths_said_again(rt: HostRuntime) -> Result<(), Fail> {
    says_again(&rt, rt.alloc())
}

/// A script whose third line is refused, as a whole.
const SCRIPT: &[u8] = b"memory 2 1\nload 1 0 0\nload 1 0 0\n";

/// And its lines.
const SAID: [&[u8]; 3] = [b"memory 2 1", b"load 1 0 0", b"load 1 0 0"];

/// Whether it is the reason of that line; else memory was refused.
fn is_why(rt: &impl Abort, why: &Result<Option<Reason>, AllocError>) -> bool {
    let is_told = match why {
        Ok(Some(reason)) => matches!(reason, Reason::CallOpen(_)),
        Ok(None) => false,
        Err(_) => return false,
    };
    same(rt, &is_told, &true);
    true
}

fn explains(rt: &impl Abort, alloc: Global) -> Result<(), Fail> {
    if !is_why(rt, &why_script(alloc, SCRIPT)) {
        return Err(Fail::new("why_script answered 7"));
    }
    let mut talk = Talk::start(alloc);
    let mut text = String::new(alloc);
    for line in SAID {
        if talk.say(line, &mut text) == Err(ScriptRefusal::OutOfMemory) {
            return Err(Fail::new("say answered 7"));
        }
    }
    if !is_why(rt, &talk.why(SAID[2])) {
        return Err(Fail::new("why answered 7"));
    }
    Ok(())
}

/// Growths: 17 of why_script, 18 of say, 1 of why.
#[test]
fn refused_growths_of_reasons(rt: HostRuntime) -> Result<(), Fail> {
    explains(&rt, rt.alloc())
}
