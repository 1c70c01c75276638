//! Each event and each name of a tag, as a line of a log has them.

use super::follow::node;
use crate::checks::same_at;
use sci_core::{Event, Line};
use sci_logs::{Asks, Claim, Found, Noted, Told, read_entry};
use sci_words::{Kind, Tag};
use std::alloc::{AllocError, Global};
use std::process::Abort;
use std::test::Fail;

/// What stands behind `node 3 line 5 `, and what it tells.
type Row = (&'static str, Told, Claim);

fn line_of(alloc: Global, text: &str) -> Result<String, AllocError> {
    let mut line = String::new(alloc);
    line.push_str("node 3 line 5 ")?;
    line.push_str(text)?;
    Ok(line)
}

fn are_read(rt: &impl Abort, alloc: Global, rows: &[Row]) -> Result<(), Fail> {
    for row in rows {
        let (text, told, claim) = *row;
        let line = line_of(alloc, text)?;
        let want = Noted {
            node: node(3),
            line: 5,
            told,
            claim,
        };
        same_at(rt, row, &read_entry(line.as_bytes()), &Ok(want));
    }
    Ok(())
}

fn bare(text: &'static str, event: Event) -> Row {
    (text, Told::Event(event), Claim::Done)
}

/// A tag of this kind, which an entry follows or doesn't.
fn tag(kind: Kind, is_followed: bool) -> Tag {
    Tag {
        kind,
        held: false,
        forw: if is_followed { Some(node(0)) } else { None },
        back: None,
    }
}

fn own(text: &'static str, asks: Asks, kind: Kind, is_followed: bool) -> Row {
    let found = Found::Named(tag(kind, is_followed));
    let whose = None;
    (text, Told::On { asks, whose, found }, Claim::Done)
}

fn other(text: &'static str, asks: Asks, kind: Kind, is_followed: bool) -> Row {
    let found = Found::Named(tag(kind, is_followed));
    let whose = Some(node(7));
    (text, Told::On { asks, whose, found }, Claim::Done)
}

fn bare_events() -> [Row; 20] {
    [
        bare("Look Done", Event::Look),
        bare("PrependValid Done", Event::PrependValid),
        bare("ReturnMemory Done", Event::ReturnMemory),
        bare("Settle Done", Event::Settle),
        bare("Unhold Done", Event::Unhold),
        bare("FreshToGone Done", Event::FreshToGone),
        bare("Converted Done", Event::Converted),
        bare("Unconverted Done", Event::Unconverted),
        bare("PrependGone Done", Event::PrependGone),
        bare("ReturnCopy Done", Event::ReturnCopy),
        bare("Advance Done", Event::Advance),
        bare("Clear Done", Event::Clear),
        bare("Rolled Done", Event::Rolled),
        bare("PassOn Done", Event::PassOn),
        bare("Stay Done", Event::Stay),
        bare("ReEnter Done", Event::ReEnter),
        bare("ReturnHomeFresh Done", Event::ReturnHomeFresh),
        bare("ReturnHomeDirty Done", Event::ReturnHomeDirty),
        bare("Left Done", Event::Left),
        bare("HomeWrite Done", Event::HomeWrite),
    ]
}

fn tags() -> [Row; 13] {
    [
        own("Hold(INVALID) Done", Asks::Hold, Kind::Invalid, false),
        own("Convert(QUEUED) Done", Asks::Convert, Kind::Queued, false),
        own(
            "BeginPurge(HEAD_FRESH) Done",
            Asks::BeginPurge,
            Kind::Fresh,
            true,
        ),
        own("Roll(ONLY_FRESH) Done", Asks::Roll, Kind::Fresh, false),
        own("Leave(HEAD_DIRTY) Done", Asks::Leave, Kind::Dirty, true),
        other(
            "AttachFresh(7 ONLY_DIRTY) Done",
            Asks::AttachFresh,
            Kind::Dirty,
            false,
        ),
        other(
            "AttachDirty(7 CONVERT) Done",
            Asks::AttachDirty,
            Kind::Convert,
            false,
        ),
        other(
            "PurgeOne(7 PURGING) Done",
            Asks::PurgeOne,
            Kind::Purging,
            false,
        ),
        other(
            "TellSuccessor(7 LEAVING) Done",
            Asks::TellSuccessor,
            Kind::Leaving,
            false,
        ),
        other(
            "TellPredecessor(7 MID_VALID) Done",
            Asks::TellPredecessor,
            Kind::Valid,
            true,
        ),
        other("Adopt(7 TAIL_VALID) Done", Asks::Adopt, Kind::Valid, false),
        other("Promote(7 ROLL) Done", Asks::Promote, Kind::Roll, false),
        own("Hold(PURGED) Done", Asks::Hold, Kind::Purged, false),
    ]
}

/// A tag with both links, held: MID_VALID with 2 in front of it and 1 behind, the code 7, and 16 for the held bit.
fn exactly() -> Told {
    let tag = Tag {
        kind: Kind::Valid,
        held: true,
        forw: Some(node(1)),
        back: Some(node(2)),
    };
    Told::On {
        asks: Asks::PurgeOne,
        whose: Some(node(7)),
        found: Found::Exactly(tag),
    }
}

fn others() -> [Row; 8] {
    let line = Line {
        stamp: 9,
        words: [1, 2, 3, 4, 5, 6, 7, 18446744073709551615],
    };
    [
        bare("Queue(none) Done", Event::Queue(None)),
        bare("Queue(4) Done", Event::Queue(Some(node(4)))),
        bare("Requeue(65534) Done", Event::Requeue(Some(node(65534)))),
        bare("Written(none) Done", Event::Written(None)),
        bare(
            "Written(words 1 2 3 4 5 6 7 18446744073709551615) Done",
            Event::Written(Some(line.words)),
        ),
        (
            "Settle Done 9 1 2 3 4 5 6 7 18446744073709551615",
            Told::Event(Event::Settle),
            Claim::Answered(line),
        ),
        (
            "PurgeOne(7 0000000200010017) Missed 00000000ffff0000",
            exactly(),
            Claim::Missed(4294901760),
        ),
        ("Settle Busy", Told::Event(Event::Settle), Claim::Busy),
    ]
}

fn no_lines() -> [&'static str; 20] {
    [
        "",
        "Look",
        "look Done",
        "Look Done ",
        "Look  Done",
        "Look() Done",
        "Queue Done",
        "Queue(+5) Done",
        "Queue(04) Done",
        "Hold(7 MID_VALID) Done",
        "PurgeOne(MID_VALID) Done",
        "Hold(VALID) Done",
        "Hold(MID_VALID) Missed 0000000000000000",
        "Hold(0000ffffffff0000) Missed 0000FFFFFFFF0000",
        "Hold(0000ffffffff000a) Done",
        "Settle Done 9 1 2 3 4 5 6 7",
        "Settle Done 9 1 2 3 4 5 6 7 18446744073709551616",
        "Settle Done 9 1 2 3 4 5 6 7 100000000000000000008",
        "Settle Done 340282366920938463463374607431768211465 1 2 3 4 5 6 7 8",
        "Queue(4 ) Done",
    ]
}

#[test]
fn lines_are_read(rt: HostRuntime) -> Result<(), Fail> {
    are_read(&rt, rt.alloc(), &bare_events())?;
    are_read(&rt, rt.alloc(), &tags())?;
    are_read(&rt, rt.alloc(), &others())
}

#[test]
fn other_lines_are_none(rt: HostRuntime) -> Result<(), Fail> {
    for text in no_lines().iter() {
        let line = line_of(rt.alloc(), text)?;
        same_at(&rt, text, &read_entry(line.as_bytes()).is_ok(), &false);
    }
    Ok(())
}
