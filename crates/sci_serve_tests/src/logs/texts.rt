//! Logs as text, each of them one run with a change, and what is told of it: worked out by hand from the table of exchanges.

use crate::checks::same_at;
use sci_logs::{Deviation, LogFault, follow_text};
use std::alloc::{AllocError, Global};
use std::process::Abort;
use std::test::Fail;

/// Node 0 loads the line, then node 1 does; node 1, in front of it, purges node 0 and writes 5. Line of text 1 is in front.
const RUN: [&str; 19] = [
    "memory 2 1",
    "node 0 line 0 Queue(none) Done",
    "node 0 line 0 PrependValid Done",
    "node 0 line 0 ReturnMemory Done",
    "node 0 line 0 Settle Done",
    "node 1 line 0 Queue(0) Done",
    "node 1 line 0 PrependValid Done",
    "node 1 line 0 ReturnMemory Done",
    "node 1 line 0 AttachFresh(0 ONLY_FRESH) Done",
    "node 1 line 0 Settle Done",
    "node 1 line 0 Convert(HEAD_FRESH) Done",
    "node 1 line 0 FreshToGone Done",
    "node 1 line 0 Converted Done",
    "node 1 line 0 Look Done",
    "node 1 line 0 PurgeOne(0 TAIL_VALID) Done",
    "node 1 line 0 Advance Done",
    "node 1 line 0 Clear Done",
    "node 1 line 0 Look Done",
    "node 1 line 0 Written(words 5 0 0 0 0 0 0 0) Done",
];

/// The run with this text in the place of one of its lines.
pub(crate) fn edited(alloc: Global, at: usize, with: &str) -> Result<String, AllocError> {
    let mut text = String::new(alloc);
    for (place, line) in RUN.iter().enumerate() {
        if place == at {
            text.push_str(with)?;
        } else {
            text.push_str(line)?;
            text.push_str("\n")?;
        }
    }
    Ok(text)
}

/// Which line of text, counted from 0, what stands in its place, and what is told of the log.
pub(crate) type Row = (usize, &'static str, Result<(), LogFault>);

fn no(line: u64, why: Deviation) -> Result<(), LogFault> {
    Err(LogFault::Departs(line, why))
}

fn bad(line: u64) -> Result<(), LogFault> {
    Err(LogFault::BadLine(line))
}

fn is_told(rt: &impl Abort, alloc: Global, rows: &[Row]) -> Result<(), Fail> {
    for row in rows {
        let (at, with, want) = *row;
        let text = edited(alloc, at, with)?;
        let mut input = text.as_bytes();
        let told = follow_text(alloc, &mut input);
        same_at(rt, row, &told, &want);
    }
    Ok(())
}

fn changed() -> [Row; 10] {
    let turn = Deviation::NotInTurn;
    let word = Deviation::AnotherWord;
    [
        (1, "node 0 line 0 PrependValid Done\n", no(2, turn)),
        (2, "node 0 line 0 HomeWrite Done\n", no(7, word)),
        (3, "node 0 line 0 ReturnCopy Done\n", no(4, turn)),
        (5, "node 1 line 0 Queue(none) Done\n", no(7, word)),
        (
            8,
            "node 1 line 0 AttachFresh(0 HEAD_FRESH) Done\n",
            no(9, word),
        ),
        (
            8,
            "node 1 line 0 AttachFresh(1 ONLY_FRESH) Done\n",
            no(9, word),
        ),
        (
            8,
            "node 1 line 0 AttachDirty(0 ONLY_FRESH) Done\n",
            no(9, turn),
        ),
        (
            10,
            "node 1 line 0 BeginPurge(HEAD_FRESH) Done\n",
            no(11, turn),
        ),
        (
            14,
            "node 1 line 0 PurgeOne(0 MID_VALID) Done\n",
            no(15, word),
        ),
        (10, "node 1 line 0 Leave(HEAD_FRESH) Done\n", no(12, turn)),
    ]
}

fn left_out() -> [Row; 9] {
    let turn = Deviation::NotInTurn;
    [
        (1, "", no(2, turn)),
        (2, "", no(3, turn)),
        (3, "", no(4, turn)),
        (4, "", no(8, Deviation::AnotherWord)),
        (8, "", no(9, turn)),
        (12, "", no(14, turn)),
        (13, "", no(14, turn)),
        (15, "", no(16, turn)),
        (17, "", no(18, turn)),
    ]
}

fn doubled() -> [Row; 6] {
    let turn = Deviation::NotInTurn;
    let word = Deviation::AnotherWord;
    let attach =
        "node 1 line 0 AttachFresh(0 ONLY_FRESH) Done\nnode 1 line 0 AttachFresh(0 ONLY_FRESH) Done\n";
    let purge =
        "node 1 line 0 PurgeOne(0 TAIL_VALID) Done\nnode 1 line 0 PurgeOne(0 TAIL_VALID) Done\n";
    [
        (
            1,
            "node 0 line 0 Queue(none) Done\nnode 0 line 0 Queue(none) Done\n",
            no(3, turn),
        ),
        (
            2,
            "node 0 line 0 PrependValid Done\nnode 0 line 0 PrependValid Done\n",
            no(4, turn),
        ),
        (
            4,
            "node 0 line 0 Settle Done\nnode 0 line 0 Settle Done\n",
            no(6, turn),
        ),
        (
            5,
            "node 1 line 0 Queue(0) Done\nnode 1 line 0 Queue(0) Done\n",
            no(7, turn),
        ),
        (8, attach, no(10, word)),
        (14, purge, no(16, word)),
    ]
}

fn of_another() -> [Row; 7] {
    let turn = Deviation::NotInTurn;
    [
        (1, "node 1 line 0 Queue(none) Done\n", no(3, turn)),
        (3, "node 1 line 0 ReturnMemory Done\n", no(4, turn)),
        (6, "node 0 line 0 PrependValid Done\n", no(7, turn)),
        (
            10,
            "node 0 line 0 Convert(HEAD_FRESH) Done\n",
            no(11, Deviation::AnotherWord),
        ),
        (10, "node 0 line 0 Convert(TAIL_VALID) Done\n", no(11, turn)),
        (
            2,
            "node 2 line 0 PrependValid Done\n",
            Err(LogFault::BadNumber(3)),
        ),
        (
            2,
            "node 0 line 1 PrependValid Done\n",
            Err(LogFault::BadNumber(3)),
        ),
    ]
}

fn otherwise() -> [Row; 7] {
    let cannot = Deviation::CannotBe;
    let line = Deviation::AnotherLine;
    [
        (
            1,
            "node 0 line 0 Queue(none) Missed 0000000000000000\n",
            no(2, cannot),
        ),
        (
            1,
            "node 0 line 0 Queue(none) Done 0 0 0 0 0 0 0 0 0\n",
            no(2, line),
        ),
        (2, "node 0 line 0 PrependValid Busy\n", no(3, cannot)),
        (
            4,
            "node 0 line 0 Settle Done 1 0 0 0 0 0 0 0 0\n",
            no(5, line),
        ),
        (
            13,
            "node 1 line 0 Look Missed 0000000000000000\n",
            no(14, cannot),
        ),
        (
            8,
            "node 1 line 0 AttachFresh(0 ONLY_FRESH) Missed 0000ffffffff0002\n",
            Err(LogFault::BadLine(9)),
        ),
        (
            8,
            "node 1 line 0 AttachFresh(0 0000ffff00010002) Missed 0000ffff00000002\n",
            no(9, Deviation::AnotherWord),
        ),
    ]
}

fn faulty() -> [Row; 8] {
    [
        (0, "", bad(1)),
        (0, "memory 0 1\n", Err(LogFault::BadNumber(1))),
        (
            0,
            "memory 2 1\nopen 1 0 0 0 0 0 0 0 0 0\n",
            Err(LogFault::BadNumber(2)),
        ),
        (1, "node 0 line 0 Queue(none) Done \n", bad(2)),
        (1, "node 0 line  0 Queue(none) Done\n", bad(2)),
        (1, "node 0 line 0 Queue() Done\n", bad(2)),
        (
            1,
            "node 0 line 0 Queue(none) Done\nopen 0 0 0 0 0 0 0 0 0 0\n",
            bad(3),
        ),
        (1, "node 0 line 0 Queue(none)\n", bad(2)),
    ]
}

/// Logs that are accepted.
pub(crate) fn lawful() -> [Row; 8] {
    let missed =
        "node 1 line 0 AttachFresh(0 0000ffff00010002) Missed 0000ffffffff0002\nnode 1 line 0 AttachFresh(0 0000ffffffff0002) Done\n";
    let late =
        "node 1 line 0 Queue(none) Done\nnode 1 line 0 PrependValid Missed 0000000000000001\nnode 1 line 0 Requeue(0) Done\n";
    [
        (0, "# a run\n\nmemory 2 1\n", Ok(())),
        (0, "memory 2 1\r\nopen 0 7 1 2 3 4 5 6 7 8\r\n", Ok(())),
        (4, "node 0 line 0 Settle Done 0 0 0 0 0 0 0 0 0\n", Ok(())),
        (5, late, Ok(())),
        (8, missed, Ok(())),
        (
            8,
            "node 1 line 0 AttachFresh(0 0000ffffffff0002) Done\n",
            Ok(()),
        ),
        (
            13,
            "node 1 line 0 Look Done\nnode 0 line 0 Look Done\nnode 1 line 0 Look Done\n",
            Ok(()),
        ),
        (18, "node 1 line 0 Written(none) Done", Ok(())),
    ]
}

#[test]
fn logs_are_told(rt: HostRuntime) -> Result<(), Fail> {
    is_told(&rt, rt.alloc(), &changed())?;
    is_told(&rt, rt.alloc(), &left_out())?;
    is_told(&rt, rt.alloc(), &doubled())?;
    is_told(&rt, rt.alloc(), &of_another())?;
    is_told(&rt, rt.alloc(), &otherwise())?;
    is_told(&rt, rt.alloc(), &faulty())?;
    is_told(&rt, rt.alloc(), &lawful())
}
