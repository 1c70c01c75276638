//! Which events answer the line, and which a run counts.
use super::{ALONE, LINE, node, run, step, two_have_read};
use crate::checks::same;
use sci_core::{AnyWords, Event, Line, Outcome, Whole};
use sci_words::{Kind, NodeId, Tag};
use std::process::Abort;
use std::test::Fail;

const WORDS: [u64; 8] = [9; 8];

/// The tag of a writer that is alone on its list.
const DIRTY: Tag = Tag {
    kind: Kind::Dirty,
    held: false,
    forw: None,
    back: None,
};

const WRITTEN: Line = Line {
    words: WORDS,
    stamp: 41,
};

// A node alone reads, reads again, turns to a writer, writes, and begins another write, with the line that each event answers.
fn reads_and_writes() -> [(Event, Option<Line>); 12] {
    [
        (Event::Queue(None), None),
        (Event::PrependValid, None),
        (Event::ReturnMemory, None),
        (Event::Settle, Some(LINE)),
        (Event::Hold(ALONE), None),
        (Event::Unhold, Some(LINE)),
        (Event::Convert(ALONE), None),
        (Event::FreshToGone, None),
        (Event::Converted, Some(LINE)),
        (Event::Look, None),
        (Event::Written(Some(WORDS)), None),
        (Event::BeginPurge(DIRTY), Some(WRITTEN)),
    ]
}

// An event of node 0 answers this line, or none.
fn answers(rt: &impl Abort, whole: &mut Whole<AnyWords>, row: &(Event, Option<Line>)) {
    let (event, answer) = *row;
    let outcome = step(whole, 0, event);
    same(rt, &outcome, &Some(Ok(Outcome::Done(answer))));
}

#[test]
fn four_rows_answer_the_line(rt: HostRuntime) -> Result<(), Fail> {
    let mut whole = Whole::open(rt.alloc(), 1, 0, LINE, AnyWords)?;
    for row in &reads_and_writes() {
        answers(&rt, &mut whole, row);
    }
    Ok(())
}

// The first of two readers misses, and turns back.
fn misses(zero: NodeId) -> [(NodeId, Event); 3] {
    [
        (zero, Event::FreshToGone),
        (zero, Event::Unconverted),
        (zero, Event::Look),
    ]
}

#[test]
fn a_missed_event_is_not_counted(rt: HostRuntime) -> Result<(), Fail> {
    let mut whole = Whole::open(rt.alloc(), 2, 0, LINE, AnyWords)?;
    same(&rt, &two_have_read(&mut whole), &Some(Ok(7)));
    same(&rt, &run(&mut whole, &misses(node(0))), &Some(Ok(2)));
    Ok(())
}
