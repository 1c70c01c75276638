//! Desks that are brought to rest, and their calls to their ends.
ghost use Rattle.std.specs.Prelude.{◌≡◌, ◌<◌, length};

use sci_ops::{Answer, Steps};
use sci_script::{Script, WholeDesk, read_script};
use std::alloc::Global;
use std::marker::Brand;
use std::process::Abort;
use std::sync::ledger::{Blank, Ledger};
use std::test::Fail;

// The desk comes to rest.
fn counted<L: Ledger>(desk: WholeDesk, blank: Blank) -> WholeDesk
    requires name { blank.name ≡ L.name }
    requires parts { blank.parts ≡ L.parts }
    requires some { 0 < L.parts }
    ensures { result.size ≡ desk.size }
{
    let mut steps = Steps::<L>::open(blank);
    desk.rest(&mut steps)
}

// The same, with its steps counted in a ledger of its own.
pub(crate) fn bring_to_rest(desk: WholeDesk) -> WholeDesk
    ensures { result.size ≡ desk.size }
{
    counted::<Brand>(desk, Blank::new(1))
}

// Its calls end.
fn counted_end<L: Ledger>(
    desk: WholeDesk,
    answers: &mut [Option<Answer>],
    blank: Blank,
) -> WholeDesk
    requires count { length answers.old ≡ desk.size.nodes }
    requires name { blank.name ≡ L.name }
    requires parts { blank.parts ≡ L.parts }
    requires some { 0 < L.parts }
    ensures { result.size ≡ desk.size }
{
    let mut steps = Steps::<L>::open(blank);
    desk.end(answers, &mut steps)
}

// The same, with its steps counted in a ledger of its own.
pub(crate) fn take_to_end(desk: WholeDesk, answers: &mut [Option<Answer>]) -> WholeDesk
    requires count { length answers.old ≡ desk.size.nodes }
    ensures { result.size ≡ desk.size }
{
    counted_end::<Brand>(desk, answers, Blank::new(1))
}

// A script's text, behind what stands there. None: it was refused, or isn't of this desk.
fn prints(alloc: Global, desk: &mut WholeDesk, script: &Script, out: &mut Vec<u8>) -> Option<()> {
    if desk.size().nodes != script.nodes() || desk.size().lines != script.lines() {
        return None;
    }
    script.run(alloc, desk, out).ok()
}

/// A script in which calls begin, the same desk's script that is run behind `rest`, and what both print.
type Rested = (&'static str, &'static str, &'static str);

/// Worked out by hand from the table of turns.
const RESTED: [Rested; 3] = [
    // Nodes 1 and 2 queue up for a write, both before node 0. To rest they enter as readers, node 1 first, and then they write.
    (
        "memory 3 1\nload 0 0 0\ndone 0\nstore 1 0 0 7\nstore 2 0 0 8\nturn 1\nturn 2\n",
        "memory 3 1\nlist 0\ndone 2\ndone 1\n",
        "node 0 read 0 stamp 0\nline 0 FRESH 2: 2 HEAD_FRESH, 1 MID_VALID, 0 TAIL_VALID\n\
         node 2 wrote stamp 1\nnode 1 wrote stamp 2\n",
    ),
    // Node 0's call on line 1 evicts line 0 first, and is on its way out. To rest it leaves line 0, and doesn't begin on line 1.
    (
        "memory 2 2\ncapacity 1\nload 0 0 0\ndone 0\nload 0 1 0\nturn 0\n",
        "memory 2 2\nlist 0\nlist 1\nresidents 0\ndone 0\nlist 1\n",
        "node 0 read 0 stamp 0\nline 0 HOME\nline 1 HOME\nnode 0 residents 1\nnode 0 read 0 stamp 0\n\
         line 1 FRESH 0: 0 ONLY_FRESH\n",
    ),
    // A writer that purges gives its write up for now: it is alone and dirty, and the line's value stays.
    (
        "memory 2 1\nload 0 0 0\ndone 0\nload 1 0 0\ndone 1\nstore 1 0 0 5\nturn 1\nturn 1\nturn 1\n",
        "memory 2 1\nlist 0\nload 0 0 0\ndone 0\ndone 1\n",
        "node 0 read 0 stamp 0\nnode 1 read 0 stamp 0\nline 0 GONE 1: 1 ONLY_DIRTY\nnode 0 read 0 stamp 0\nnode 1 wrote stamp 1\n",
    ),
];

// What both scripts of a row print, where the desk comes to rest in between.
fn printed(alloc: Global, row: &Rested) -> Option<Vec<u8>> {
    let (before, after, _) = row;
    let (Ok(begun), Ok(then)) = (
        read_script(alloc, before.as_bytes()),
        read_script(alloc, after.as_bytes()),
    ) else {
        return None;
    };
    let Ok(mut desk) = WholeDesk::open(alloc, &begun) else {
        return None;
    };
    let mut out = Vec::new(alloc);
    prints(alloc, &mut desk, &begun, &mut out)?;
    let mut desk = bring_to_rest(desk);
    prints(alloc, &mut desk, &then, &mut out)?;
    Some(out)
}

#[test]
fn calls_stay_open(rt: HostRuntime) -> Result<(), Fail> {
    for row in &RESTED {
        let Some(out) = printed(rt.alloc(), row) else {
            panic!(rt; "refused: {row:?}");
        };
        assert!(rt; out.as_slice() == row.2.as_bytes(), "{row:?}");
    }
    Ok(())
}

/// A race of two writers that may go round for ever, and a reader whose call evicts another line first.
pub(crate) const RACE: &str = "memory 4 2\ncapacity 1\nload 2 0 0\ndone 2\nload 3 1 0\ndone 3\n\
    store 0 0 0 5\nstore 1 0 1 6\nload 3 0 0\nturn 0\nturn 1\nturn 3\nturn 0\nturn 0\nturn 0\nturn 1\n";

/// A desk on which a race has begun.
pub(crate) fn begun(alloc: Global, race: &str) -> Option<WholeDesk> {
    let Ok(script) = read_script(alloc, race.as_bytes()) else {
        return None;
    };
    let Ok(mut desk) = WholeDesk::open(alloc, &script) else {
        return None;
    };
    let mut out = Vec::new(alloc);
    prints(alloc, &mut desk, &script, &mut out)?;
    Some(desk)
}

// What the calls of a race answer that are taken to their ends.
fn answers_of(alloc: Global, race: &str) -> Option<[Option<Answer>; 4]> {
    let desk = begun(alloc, race)?;
    if desk.size().nodes != 4 {
        return None;
    }
    let mut answers = [None; 4];
    let _ = take_to_end(desk, &mut answers);
    Some(answers)
}

#[test]
fn calls_end(rt: HostRuntime) -> Result<(), Fail> {
    let first = Answer::Wrote {
        before: [0; 8],
        stamp: 1,
    };
    let second = Answer::Wrote {
        before: [5, 0, 0, 0, 0, 0, 0, 0],
        stamp: 2,
    };
    let last = Answer::Seen {
        words: [5, 6, 0, 0, 0, 0, 0, 0],
        stamp: 2,
    };
    let expected = Some([Some(first), Some(second), None, Some(last)]);
    assert_eq!(rt; answers_of(rt.alloc(), RACE), expected);
    Ok(())
}
