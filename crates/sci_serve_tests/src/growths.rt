//! Each growth may be refused: the calls that serve a command, the reader of settings, the texts of results, a trace or a log
//! then answer 7, and a second try has the memory. Nothing is written then by checks and runs, by scripts and traces whole lines
//! at the front of their text, and by pages nothing or a whole one. Where the memory of a workload's thread is refused, runs
//! answer 26. With ample memory these tests pass. tools/allocations runs each once for each growth of its table, with that one
//! refused, and the test ends by saying which call answered it. Where a call makes up for a refused growth by a later one, it
//! answers Ok.

use crate::calls::{Call, buffered, served};
use crate::checks::{same, same_at};
use crate::fixed::{Fixed, empty, is_front};
use crate::rows::{ALONE, COUNTED, DUMP, LAWFUL};
use crate::texts::{SHORT_RING, are_read};
use sci_logs::{LogDesk, log};
use sci_script::{Script, ScriptRefusal, read_script};
use sci_serve::{Form, SimFault, cells_text, count_text, items_text};
use sci_settings::SettingsRefusal;
use sci_trace::parts::NoteText;
use sci_trace::{TraceDesk, draw, trace};
use sci_work::WorkRefusal;
use std::alloc::{AllocError, Global};
use std::process::Abort;
use std::sync::Wait;
use std::test::Fail;
use std::thread::Threads;

pub(crate) const NO_MEMORY: SimFault = SimFault::Refused(ScriptRefusal::OutOfMemory);

const SCRIPT: &str = "memory 1 1\nload 0 0 0\nturn 0\nturn 0\nlist 0\n";

const TOLD: &str = "# node 0 line 0 load: Queue(none) Done; Queueing(none); HOME\n\
    # node 0 line 0 load: PrependValid Done; Fetching(none); FRESH lent 0: 0 QUEUED\n\
    line 0 FRESH 0: 0 QUEUED\n";

const LISTED: &str = "line 0 FRESH 0: 0 QUEUED\n";

const LOGGED: &str = "memory 1 1\n\
    node 0 line 0 Look Done\n\
    node 0 line 0 Queue(none) Done\n\
    node 0 line 0 PrependValid Done\n";

/// Node 0 stores 7, and node 1 loads it.
const HISTORY: &str = "\
scihistory 1 2 1
line 0 0 0 0 0 0 0 0 0 0
closed 0 1 7 0 0 0 0 0 0 0
wrote 0 1 7 0 0 0 0 0 0 0 over 0 0 0 0 0 0 0 0
read 1 1 7 0 0 0 0 0 0 0
end
";

/// One node adds 1 once.
const ONCE: &str = "work = \"count\"\nnodes = 1\nadds = 1\ncapacity = 1\ndump = true\n";

/// It finds zeros on its way to its write.
const ONCE_KEPT: &str = "\
scihistory 1 1 1
line 0 0 0 0 0 0 0 0 0 0
closed 0 1 1 0 0 0 0 0 0 0
passed 0 0 0 0 0 0 0 0 0 0
wrote 0 1 1 0 0 0 0 0 0 0 over 0 0 0 0 0 0 0 0
end
";

/// What a call writes.
enum Written {
    /// This text; where it is refused, lines at the front of it.
    Lines(&'static str),
    /// This text; where it is refused, nothing.
    Whole(&'static str),
    /// A page; where it is refused, a shorter one, or nothing.
    Page,
}

/// A call, what it reads and writes, and what is told where it was refused memory, or a thread's.
type Row = (Call, &'static str, Written, &'static str, &'static str);

const SERVING: [Row; 4] = [
    (
        Call::Trace,
        SCRIPT,
        Written::Lines(TOLD),
        "serve_trace answered 7",
        "",
    ),
    (
        Call::Script,
        SCRIPT,
        Written::Lines(LISTED),
        "serve_script answered 7",
        "",
    ),
    (
        Call::Serve(Form::Trace),
        SCRIPT,
        Written::Lines(TOLD),
        "serve answered 7",
        "",
    ),
    (
        Call::Draw,
        SCRIPT,
        Written::Page,
        "serve_draw answered 7",
        "",
    ),
];

const CHECKING: [Row; 2] = [
    (
        Call::Check,
        DUMP,
        Written::Whole(LAWFUL),
        "serve_check answered 7",
        "",
    ),
    (
        Call::Legal,
        HISTORY,
        Written::Whole("legal\n"),
        "serve_legal answered 7",
        "",
    ),
];

const RUNNING: [Row; 4] = [
    (
        Call::Run,
        ALONE,
        Written::Whole(COUNTED),
        "serve_run answered 7",
        "serve_run answered 26",
    ),
    (
        Call::RunBy,
        ALONE,
        Written::Whole(COUNTED),
        "serve_run_by answered 7",
        "serve_run_by answered 26",
    ),
    (
        Call::History,
        ONCE,
        Written::Whole(ONCE_KEPT),
        "serve_history answered 7",
        "serve_history answered 26",
    ),
    (
        Call::HistoryBy,
        ONCE,
        Written::Whole(ONCE_KEPT),
        "serve_history_by answered 7",
        "serve_history_by answered 26",
    ),
];

/// All is written, or what may be where the call is refused.
fn is_written(written: &Written, out: &Fixed, is_refused: bool) -> bool {
    match *written {
        Written::Lines(text) if is_refused => {
            out.length < text.len() && is_front(out.text(), text.as_bytes())
        }
        Written::Lines(text) => out.text() == text.as_bytes(),
        Written::Whole(text) => is_refused && out.length == 0
            || !is_refused && out.text() == text.as_bytes(),
        Written::Page => is_refused && out.length == 0 || out.is_page(),
    }
}

/// Each call of these: at a second try, if it is refused memory, or a thread's.
fn tries<T: Abort + Threads + Wait + Sync>(
    rt: &T,
    alloc: Global,
    rows: &[Row],
) -> Result<(), Fail> {
    for (call, input, written, no_memory, no_thread) in rows {
        let mut out = empty();
        let end = served(rt, alloc, *call, &mut input.as_bytes(), &mut out);
        same_at(rt, call, &is_written(written, &out, end.is_some()), &true);
        let Some(fault) = end else {
            continue;
        };
        let mut all = empty();
        let again = served(rt, alloc, *call, &mut input.as_bytes(), &mut all);
        same_at(rt, call, &again, &None);
        same_at(rt, call, &is_written(written, &all, false), &true);
        same_at(rt, call, &(out.length < all.length), &true);
        if fault == SimFault::NoRun(WorkRefusal::NoThread) {
            return Err(Fail::new(no_thread));
        }
        same_at(rt, call, &fault, &NO_MEMORY);
        return Err(Fail::new(no_memory));
    }
    Ok(())
}

/// The same through a buffer.
fn buffers(rt: &impl Abort, alloc: Global) -> Result<(), Fail> {
    let Ok((out, end)) = buffered(alloc, Form::Script, SCRIPT, 4, empty()) else {
        return Err(Fail::new("with_capacity answered 7"));
    };
    if end.is_none() {
        assert!(rt; out.text() == LISTED.as_bytes());
        return Ok(());
    }
    same(rt, &end, &Some(NO_MEMORY));
    assert!(rt; out.length < LISTED.len() && is_front(out.text(), LISTED.as_bytes()));
    let (out, end) = buffered(alloc, Form::Script, SCRIPT, 4, empty())?;
    same(rt, &end, &None);
    assert!(rt; out.text() == LISTED.as_bytes());
    Err(Fail::new("serve_buffered answered 7"))
}

fn reads(rt: &impl Abort, alloc: Global) -> Result<(), Fail> {
    let read = are_read(alloc, SHORT_RING);
    if read == Ok(true) {
        return Ok(());
    }
    same(rt, &read, &Err(SettingsRefusal::OutOfMemory));
    same(rt, &are_read(alloc, SHORT_RING), &Ok(true));
    Err(Fail::new("read_settings answered 7"))
}

/// Each text of a result, and what is told where it was refused memory.
const RESULTS: [(&str, &str); 3] = [
    ("cells 1 22\n", "cells_text answered 7"),
    ("items 333\n", "items_text answered 7"),
    ("count 4000\n", "count_text answered 7"),
];

fn result(alloc: Global, text: &str) -> Result<String, AllocError> {
    match text {
        "cells 1 22\n" => cells_text(alloc, &[1, 22]),
        "items 333\n" => items_text(alloc, &[333]),
        _ => count_text(alloc, 4000),
    }
}

fn shows(rt: &impl Abort, alloc: Global) -> Result<(), Fail> {
    for (text, told) in RESULTS {
        let Ok(shown) = result(alloc, text) else {
            same(rt, &result(alloc, text)?.as_str(), &text);
            return Err(Fail::new(told));
        };
        same(rt, &shown.as_str(), &text);
    }
    Ok(())
}

// A page of a script that is read.
fn draws_a_script(rt: &impl Abort, alloc: Global, script: &Script) -> Result<(), Fail> {
    let Ok(mut desk) = TraceDesk::open(alloc, script) else {
        return Err(Fail::new("open answered 7"));
    };
    let mut out = empty();
    let end = draw(alloc, script, SCRIPT.as_bytes(), &mut desk, &mut out);
    assert!(rt; out.is_page());
    if end.is_ok() {
        return Ok(());
    }
    same(rt, &end, &Err(ScriptRefusal::OutOfMemory));
    Err(Fail::new("draw answered 7"))
}

// A trace of a script that is read.
fn traces_a_script(rt: &impl Abort, alloc: Global, script: &Script) -> Result<(), Fail> {
    let Ok(mut desk) = TraceDesk::open(alloc, script) else {
        TraceDesk::open(alloc, script)?;
        return Err(Fail::new("open answered 7"));
    };
    let mut out = empty();
    match trace(alloc, script, &mut desk, &mut out) {
        Ok(()) => {
            assert!(rt; out.text() == TOLD.as_bytes());
            Ok(())
        }
        Err(refusal) => {
            same(rt, &refusal, &ScriptRefusal::OutOfMemory);
            assert!(rt; out.length < TOLD.len());
            assert!(rt; is_front(out.text(), TOLD.as_bytes()));
            Err(Fail::new("trace answered 7"))
        }
    }
}

// A piece that is longer than what may wait.
fn pushes(rt: &impl Abort, alloc: Global) -> Result<(), Fail> {
    let mut text = NoteText::new(alloc);
    let piece = [b'#'; 2_049];
    match text.push_bytes(&piece) {
        Ok(()) => {
            assert!(rt; text.front() == piece.as_slice());
            Ok(())
        }
        Err(_) => {
            assert!(rt; text.front().is_empty() && text.waiting().is_empty());
            text.push_bytes(&piece)?;
            Err(Fail::new("push_bytes answered 7"))
        }
    }
}

// A log of a script that is read.
fn logs_a_script(rt: &impl Abort, alloc: Global, script: &Script) -> Result<(), Fail> {
    let Ok(mut desk) = LogDesk::open(alloc, script) else {
        LogDesk::open(alloc, script)?;
        return Err(Fail::new("open answered 7"));
    };
    let mut out = empty();
    match log(alloc, script, &mut desk, &mut out) {
        Ok(()) => {
            assert!(rt; out.text() == LOGGED.as_bytes());
            Ok(())
        }
        Err(refusal) => {
            same(rt, &refusal, &ScriptRefusal::OutOfMemory);
            same(rt, &out.length, &0);
            Err(Fail::new("log answered 7"))
        }
    }
}

/// Growths: 11 of serve_check, 7 of serve_legal, 9 of read_settings, 20 of serve_trace, 20 of serve_script, 20 of serve,
/// 20 of serve_draw, 1 of with_capacity, 20 of serve_buffered, 3 of cells_text, 2 of items_text, 2 of count_text.
#[test]
fn refused_growths(rt: HostRuntime) -> Result<(), Fail> {
    tries(&rt, rt.alloc(), &CHECKING)?;
    reads(&rt, rt.alloc())?;
    tries(&rt, rt.alloc(), &SERVING)?;
    buffers(&rt, rt.alloc())?;
    shows(&rt, rt.alloc())
}

/// What `serve_history` and `serve_history_by` write, to the byte.
/// Growths: 18 of serve_run, 1 thread of serve_run, 24 of serve_run, 18 of serve_run_by, 1 thread of serve_run_by,
/// 24 of serve_run_by, 18 of serve_history, 1 thread of serve_history, 23 of serve_history, 18 of serve_history_by,
/// 1 thread of serve_history_by, 23 of serve_history_by.
#[test]
fn refused_growths_of_runs(rt: HostRuntime) -> Result<(), Fail> {
    tries(&rt, rt.alloc(), &RUNNING)
}

/// Growths: 2 of read_script, 8 of open, 9 of trace, 8 of open, 9 of draw, 1 of push_bytes, 8 of open, 9 of log.
#[test]
fn refused_growths_of_traces(rt: HostRuntime) -> Result<(), Fail> {
    let Ok(script) = read_script(rt.alloc(), SCRIPT.as_bytes()) else {
        return Err(Fail::new("read_script answered 7"));
    };
    traces_a_script(&rt, rt.alloc(), &script)?;
    draws_a_script(&rt, rt.alloc(), &script)?;
    pushes(&rt, rt.alloc())?;
    logs_a_script(&rt, rt.alloc(), &script)
}
