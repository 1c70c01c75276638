//! How a line that threads share is opened and closed.
use super::{TestedLine, closed, closes};
use crate::checks::{same, same_at};
use sci_coarse::CoarseLine;
use sci_core::{AnyWords, Closed, Line};
use sci_fine::FineLine;
use sci_words::{Kind, LineNo, Mem, MemState, Tag};
use std::alloc::Global;
use std::process::Abort;
use std::test::Fail;

pub(super) const OPENING: Line = Line {
    words: [7; 8],
    stamp: 3,
};

const HOME: Mem = Mem {
    state: MemState::Home,
    lent: false,
    forw: None,
};

const INVALID: Tag = Tag {
    kind: Kind::Invalid,
    held: false,
    forw: None,
    back: None,
};

// A line of so many nodes opens under this number with so many seats, and is closed again with so many tags; or is refused.
fn opens<L: TestedLine>(
    rt: &impl Abort,
    alloc: Global,
    nodes: u16,
    number: LineNo,
    want: Result<(usize, usize), u8>,
) {
    let counts = match L::opened(alloc, nodes, number, OPENING) {
        Ok((line, seats)) => {
            let count = seats.len();
            match closed(alloc, line, seats) {
                Ok(closed) => Ok((count, closed.tags.len())),
                Err((refusal, _)) => Err(refusal),
            }
        }
        Err(refusal) => Err(refusal.number()),
    };
    same_at(rt, &(nodes, number), &counts, &want);
}

/// Numbers of lines, the least and the greatest among them.
const NUMBERS: [LineNo; 9] = [0, 7, 255, 256, 1_000, 1_023, 1_024, 32_768, u16::MAX];

// A line opens with 1 to 1,024 nodes, and with each of these numbers, and is closed again.
fn opens_and_finishes<L: TestedLine>(rt: &impl Abort, alloc: Global) {
    for nodes in 1..1025 {
        let count = usize::from(nodes);
        opens::<L>(rt, alloc, nodes, 7, Ok((count, count)));
    }
    for number in NUMBERS {
        opens::<L>(rt, alloc, 1024, number, Ok((1024, 1024)));
    }
    for nodes in [0, 1025, u16::MAX] {
        opens::<L>(rt, alloc, nodes, 7, Err(6));
    }
}

/// A line of two nodes was closed as it was opened.
pub(super) fn is_unused(rt: &impl Abort, closed: &Closed) {
    same(rt, &closed.mem, &HOME);
    same(rt, &closed.memory, &OPENING);
    same(rt, &closed.tags.as_slice(), &[INVALID; 2].as_slice());
    same(rt, &closed.lines.as_slice(), &[OPENING; 2].as_slice());
}

// A line is closed with its seats in order, and with no others.
fn finishes_in_order<L: TestedLine>(rt: &impl Abort, alloc: Global) -> Result<(), Fail> {
    let (line, mut seats) = L::opened(alloc, 2, 0, OPENING)?;
    seats.reverse();
    let refused = closed(alloc, line, seats);
    assert!(rt; matches!(refused, Err((9, 2))));
    let (line, seats) = L::opened(alloc, 2, 0, OPENING)?;
    is_unused(rt, &closes(rt, alloc, line, seats));
    Ok(())
}

#[test]
fn lines_open_and_finish_with_1_to_1024_nodes(rt: HostRuntime) {
    opens_and_finishes::<CoarseLine<AnyWords>>(&rt, rt.alloc());
    opens_and_finishes::<FineLine<AnyWords>>(&rt, rt.alloc());
}

#[test]
fn lines_finish_with_seats_in_order(rt: HostRuntime) -> Result<(), Fail> {
    finishes_in_order::<CoarseLine<AnyWords>>(&rt, rt.alloc())?;
    finishes_in_order::<FineLine<AnyWords>>(&rt, rt.alloc())
}
