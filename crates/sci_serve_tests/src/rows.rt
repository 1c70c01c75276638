//! What the calls read and write, and how they end: by one byte a read and two a write, before a writer that fills, and behind a
//! reader that fails.
use crate::calls::{Call, buffered, served};
use crate::checks::{same_at, same_bytes_at};
use crate::slow::{Narrow, Slow};
use sci_script::ScriptRefusal;
use sci_serve::{Form, SimFault};
use std::test::Fail;

/// A call, what it reads, its fault if it has one, and what it writes.
type Row = (Call, &'static str, Option<SimFault>, &'static str);

const SHARERS: &str =
    "memory 3 1\nload 0 0 0\ndone 0\nload 1 0 0\ndone 1\nload 2 0 0\ndone 2\nlist 0\n";

const SHARED: &str = "node 0 read 0 stamp 0\nnode 1 read 0 stamp 0\nnode 2 read 0 stamp 0\n\
    line 0 FRESH 2: 2 HEAD_FRESH, 1 MID_VALID, 0 TAIL_VALID\n";

const READER: &str = "memory 1 1\nload 0 0 0\ndone 0\n";

const READER_TOLD: &str = "# node 0 line 0 load: Queue(none) Done; Queueing(none); HOME\n\
    # node 0 line 0 load: PrependValid Done; Fetching(none); FRESH lent 0: 0 QUEUED\n\
    # node 0 line 0 load: ReturnMemory Done; InQueue(none); FRESH 0: 0 QUEUED\n\
    # node 0 line 0 load: Settle Done; Idle; FRESH 0: 0 ONLY_FRESH\n\
    node 0 read 0 stamp 0\n";

const READER_LOGGED: &str = "memory 1 1\n\
    node 0 line 0 Look Done\n\
    node 0 line 0 Queue(none) Done\n\
    node 0 line 0 PrependValid Done\n\
    node 0 line 0 ReturnMemory Done\n\
    node 0 line 0 Settle Done\n";

/// The dump of one line that nodes 0, 1 and 2 have loaded, in this order.
pub(crate) const DUMP: &str = "scidump 1 3 1\n\
    line 0 0000000000000201 0 0 0 0 0 0 0 0 0\n\
    tag 0 0 000000000001ff07 0 0 0 0 0 0 0 0 0\n\
    tag 0 1 0000000000020007 0 0 0 0 0 0 0 0 0\n\
    tag 0 2 0000000000ff0102 0 0 0 0 0 0 0 0 0\n\
    end\n";

/// The same, with node 2's tag held.
pub(crate) const HELD: &str = "scidump 1 3 1\n\
    line 0 0000000000000201 0 0 0 0 0 0 0 0 0\n\
    tag 0 0 000000000001ff07 0 0 0 0 0 0 0 0 0\n\
    tag 0 1 0000000000020007 0 0 0 0 0 0 0 0 0\n\
    tag 0 2 0000000000ff0112 0 0 0 0 0 0 0 0 0\n\
    end\n";

pub(crate) const LAWFUL: &str = "line 0 FRESH 2: 2 HEAD_FRESH, 1 MID_VALID, 0 TAIL_VALID\nlawful\n";

/// One node adds 1 three times: its line, dirty and its own, and memory's bytes from before.
pub(crate) const ALONE: &str = "work = \"count\"\nnodes = 1\nadds = 3\ncapacity = 1\ndump = true\n";

pub(crate) const COUNTED: &str = "count 3\n\
    scidump 2 1 1\n\
    line 0 0000000000000002 0 0 0 0 0 0 0 0 0\n\
    tag 0 0 0000ffffffff0003 3 3 0 0 0 0 0 0 0\n\
    end\n";

const ROWS: [Row; 11] = [
    (Call::Script, SHARERS, None, SHARED),
    (Call::Script, "memory 1 1", None, ""),
    (Call::Script, "memory 1 1\nlist 0\n", None, "line 0 HOME\n"),
    (
        Call::Script,
        "memory 0 1",
        Some(SimFault::Refused(ScriptRefusal::BadNumber(1))),
        "",
    ),
    (
        Call::Script,
        "memory 1 1\nlist 0\nturn 0",
        Some(SimFault::Refused(ScriptRefusal::BadCommand(3))),
        "line 0 HOME\n",
    ),
    (Call::Serve(Form::Script), SHARERS, None, SHARED),
    (Call::Serve(Form::Trace), READER, None, READER_TOLD),
    (Call::Serve(Form::Log), READER, None, READER_LOGGED),
    (Call::Check, DUMP, None, LAWFUL),
    (
        Call::Check,
        HELD,
        Some(SimFault::Unlawful),
        "line 0 breaks C1\n",
    ),
    (Call::Run, ALONE, None, COUNTED),
];

/// A writer that fills is told before another fault, and holds a front of the text. Nothing is written of what can't be read.
#[test]
fn what_is_served_byte_by_byte(rt: HostRuntime) {
    for (call, input, fault, text) in &ROWS {
        for room in 0..text.len() + 1 {
            let row = (call, input, room);
            let mut reader = Slow::new(input.as_bytes(), true);
            let mut writer = Narrow::new(rt.alloc(), room);
            let end = served(&rt, rt.alloc(), *call, &mut reader, &mut writer);
            let cut = Some(SimFault::CannotWrite);
            let wanted = if room < text.len() { &cut } else { fault };
            same_at(&rt, &row, &end, wanted);
            let front = text.as_bytes().get(..room).unwrap_or(b"");
            same_bytes_at(&rt, &row, &writer.held, front);
        }
        for faulty in 0..input.len() + 1 {
            for is_broken in [false, true] {
                let row = (call, input, faulty);
                let mut reader = Slow::new(input.as_bytes(), false);
                reader.faulty = faulty;
                reader.is_broken = is_broken;
                let mut writer = Narrow::new(rt.alloc(), 1000);
                let end = served(&rt, rt.alloc(), *call, &mut reader, &mut writer);
                same_at(&rt, &row, &end, &Some(SimFault::CannotRead));
                same_bytes_at(&rt, &row, &writer.held, b"");
            }
        }
    }
}

/// A form, what it reads, its fault if it has one, and what it writes.
const BUFFERED: [(Form, &str, Option<SimFault>, &str); 5] = [
    (Form::Script, SHARERS, None, SHARED),
    (
        Form::Script,
        "memory 1 1\nlist 0\nlist 0\nturn 0\n",
        Some(SimFault::Refused(ScriptRefusal::BadCommand(4))),
        "line 0 HOME\nline 0 HOME\n",
    ),
    (
        Form::Script,
        "memory 0 1",
        Some(SimFault::Refused(ScriptRefusal::BadNumber(1))),
        "",
    ),
    (Form::Trace, READER, None, READER_TOLD),
    (
        Form::Trace,
        "memory 1 1\nlist 0\nload 0 0 0\nturn 0\nload 0 0 0\n",
        Some(SimFault::Refused(ScriptRefusal::BadCommand(5))),
        "line 0 HOME\n# node 0 line 0 load: Queue(none) Done; Queueing(none); HOME\n",
    ),
];

/// What is written before a refusal goes out.
#[test]
fn buffers_before_a_writer_that_fills(rt: HostRuntime) -> Result<(), Fail> {
    for (form, input, fault, text) in &BUFFERED {
        for capacity in [0, 1, 20, 24, 70, 65_536] {
            for room in 0..text.len() + 1 {
                let row = (input, capacity, room);
                let writer = Narrow::new(rt.alloc(), room);
                let (writer, end) = buffered(rt.alloc(), *form, input, capacity, writer)?;
                let cut = Some(SimFault::CannotWrite);
                let wanted = if room < text.len() { &cut } else { fault };
                same_at(&rt, &row, &end, wanted);
                let front = text.as_bytes().get(..room).unwrap_or(b"");
                same_bytes_at(&rt, &row, &writer.held, front);
            }
        }
    }
    Ok(())
}
