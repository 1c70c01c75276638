//! Why a line of a log is refused: of a text with no memory, and of a line at each stage of a log. tools/statuses has the parts of each line.

use crate::checks::same_at;
use sci_logs::{LineReason, Part, Seen};
use sci_script::ScriptRefusal;
use sci_serve::{SimFault, serve_follow_told};
use std::io::sink;

/// A text, the fault of `check` over it, and why.
type Row = (&'static str, SimFault, Option<LineReason>);

fn bad(line: u64) -> SimFault {
    SimFault::Refused(ScriptRefusal::BadCommand(line))
}

fn out(line: u64) -> SimFault {
    SimFault::Refused(ScriptRefusal::BadNumber(line))
}

/// This word stands there, or nothing, at the end.
fn at(column: usize, wanted: Part, text: &[u8]) -> Option<LineReason> {
    let mut bytes = [0; 20];
    for (to, from) in bytes.iter_mut().zip(text) {
        *to = *from;
    }
    let count = text.len();
    let found = Seen { bytes, count };
    Some(LineReason {
        column,
        wanted,
        found,
    })
}

fn rows() -> [Row; 14] {
    let (low, high) = (1, 1024);
    let size = Part::Number { low, high };
    let few = Part::Number { low: 0, high: 1 };
    [
        ("", bad(1), at(1, Part::Memory, b"")),
        ("# nothing\n\n", bad(3), at(1, Part::Memory, b"")),
        ("\nload 0 0 0\n", bad(2), at(1, Part::Memory, b"load")),
        (
            "memory 2 1\n\nload 0 0 0",
            bad(3),
            at(1, Part::OpenOrNode, b"load"),
        ),
        (
            "memory 2 1\r\nnode 2 line 0 Look Done\r\n",
            out(2),
            at(6, few, b"2"),
        ),
        // of a faulty line what lacks is told, whatever its numbers are; of a faulty number that number
        (
            "memory 2 1\nnode 2 line 0 Loop Done\n",
            bad(2),
            at(15, Part::Event, b"Loop"),
        ),
        (
            "memory 2 1\nnode 0 line 0 Abcdefghijklmnopqrstu Done\n",
            bad(2),
            at(15, Part::Event, b"Abcdefghijklmnopqrstu"),
        ),
        ("memory 0 one\n", bad(1), at(10, size, b"one")),
        (
            "memory 2 1\nnode 0 line 0 AttachFresh(2 INVALID) Done\n",
            out(2),
            at(27, few, b"2"),
        ),
        (
            "memory 2 1\nnode 0 line 0 Look Done\nopen 0 0 0 0 0 0 0 0 0 0\n",
            bad(3),
            at(1, Part::Node, b"open"),
        ),
        (
            "memory 2 1\nnode 0 line 0 Look Done\r",
            bad(2),
            at(24, Part::EndOrValue, b"\r"),
        ),
        (
            "memory 2 1\nnode 0 line 0 Written(none)Done\n",
            bad(2),
            at(28, Part::Space, b"Done"),
        ),
        (
            "memory 2 1\nnode 0 line 0 Look Missed",
            bad(2),
            at(26, Part::Space, b""),
        ),
        (
            "memory 2 1\nnode 0 line 0 Settle Done\n",
            SimFault::Unlawful,
            None,
        ),
    ]
}

#[test]
fn reasons_of_logs(rt: HostRuntime) {
    for row in &rows() {
        let mut input = row.0.as_bytes();
        let told = serve_follow_told(rt.alloc(), &mut input, &mut sink());
        same_at(&rt, row, &told, &Err((row.1, row.2)));
    }
}
