//! What a node's steps append to its receipts.

mod growths;
mod memory;

use crate::checks::same_at;
use sci_core::{Event, Line, Outcome, Receipt};
use sci_port::Receipts;
use std::alloc::Global;
use std::process::Abort;
use std::test::Fail;

const SEVEN: [u64; 8] = [7, 0, 0, 0, 0, 0, 0, 0];

const NINE: [u64; 8] = [9, 0, 0, 0, 0, 0, 0, 0];

const SEVEN_AT_1: Line = Line {
    words: SEVEN,
    stamp: 1,
};

/// What an event came to is appended, if there is room, and the stamp of the line before can count one more write.
#[tactic(auto, using(sci_port::proofs::Room::has_room, sci_port::proofs::Room::counts_over))]
fn receives(receipts: &mut Receipts, event: Event, before: &Line, outcome: &Outcome) -> Option<()> {
    if receipts.room() == 0 || before.stamp == u64::MAX {
        return None;
    }
    receipts.receive(&event, before, outcome);
    Some(())
}

/// A settle that is passed takes the place of a last receipt that was passed, and needs no room.
#[tactic(auto, using(sci_port::proofs::Room::has_place))]
fn passes_again(receipts: &mut Receipts, line: Line) -> bool {
    receipts.aim(true);
    let is_again = receipts.last_passed();
    if is_again {
        receipts.receive(&Event::Settle, &Line::ZERO, &Outcome::Done(Some(line)));
    }
    is_again
}

fn read(line: Line) -> Receipt {
    let Line { words, stamp } = line;
    Receipt::Read { words, stamp }
}

fn passed(line: Line) -> Receipt {
    let Line { words, stamp } = line;
    Receipt::Passed { words, stamp }
}

/// The mark, an event and what it came to, how many receipts there are then, and the last of them.
type Row = (bool, Event, Outcome, usize, Receipt);

// A write that settles twice on its way, a load, a copy of the own bytes; and events that append nothing.
fn rows() -> [Row; 9] {
    let (zero, one) = (Line::ZERO, SEVEN_AT_1);
    let wrote = Receipt::Wrote {
        before: SEVEN,
        words: NINE,
        stamp: 2,
    };
    let (at_zero, at_one) = (Outcome::Done(Some(zero)), Outcome::Done(Some(one)));
    [
        (true, Event::Settle, at_zero, 1, passed(zero)),
        (true, Event::Settle, at_one, 1, passed(one)),
        (true, Event::Converted, at_one, 1, passed(one)),
        (
            true,
            Event::Written(None),
            Outcome::Done(None),
            1,
            passed(one),
        ),
        (
            true,
            Event::Written(Some(NINE)),
            Outcome::Missed(7),
            1,
            passed(one),
        ),
        (
            true,
            Event::Written(Some(NINE)),
            Outcome::Done(None),
            2,
            wrote,
        ),
        (true, Event::Settle, Outcome::Busy, 2, wrote),
        (false, Event::Settle, at_one, 3, read(one)),
        (false, Event::Unhold, at_zero, 4, read(zero)),
    ]
}

// The row's event leaves so many receipts, with this one at the end, and room for as many less as they are more.
fn leaves(rt: &impl Abort, receipts: &mut Receipts, row: &Row) -> Result<(), Fail> {
    let (passing, event, outcome, count, last) = *row;
    receipts.aim(passing);
    let (were, room) = (receipts.as_slice().len(), receipts.room());
    receives(receipts, event, &SEVEN_AT_1, &outcome).ok_or("no room")?;
    let now = receipts.as_slice();
    same_at(rt, row, &now.len(), &count);
    same_at(rt, row, &now.last(), &Some(&last));
    same_at(
        rt,
        row,
        &room.saturating_sub(receipts.room()),
        &count.saturating_sub(were),
    );
    Ok(())
}

#[test]
fn steps_append_their_receipts(rt: HostRuntime) -> Result<(), Fail> {
    let mut receipts = Receipts::new(rt.alloc());
    receipts.reserve(5)?;
    for row in rows() {
        leaves(&rt, &mut receipts, &row)?;
    }
    Ok(())
}

// Receipts with room for so many.
fn with_room(alloc: Global, room: usize) -> Result<Receipts, Fail> {
    let mut receipts = Receipts::new(alloc);
    receipts.reserve(room)?;
    Ok(receipts)
}
