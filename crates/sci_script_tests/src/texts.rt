//! Scripts, and the texts of what they print and say.
ghost use Rattle.std.specs.Prelude.{◌≡◌, ◌<◌};

use crate::checks::{same, same_at, same_bytes_at};
use sci_core::Line;
use sci_script::{ScriptRefusal, WholeDesk, list_text, read_script, tag_text};
use sci_words::{Kind, Mem, MemState, NodeId, Tag};
use std::alloc::Global;
use std::fmt::Debug;
use std::io::Write;
use std::process::Abort;
use std::test::Fail;

pub(crate) const SHARERS: &str =
    "memory 3 1\nload 0 0 0\ndone 0\nload 1 0 0\ndone 1\nload 2 0 0\ndone 2\nlist 0\n";

pub(crate) const SHARED: &str =
    "node 0 read 0 stamp 0\nnode 1 read 0 stamp 0\nnode 2 read 0 stamp 0\n\
    line 0 FRESH 2: 2 HEAD_FRESH, 1 MID_VALID, 0 TAIL_VALID\n";

/// Reads a script, opens a desk for it, and runs it.
pub(crate) fn run_text<W: Write>(
    alloc: Global,
    text: &str,
    out: &mut W,
) -> Result<(), ScriptRefusal> {
    let script = read_script(alloc, text.as_bytes())?;
    let mut desk = WholeDesk::open(alloc, &script)?;
    script.run(alloc, &mut desk, out)
}

/// The script has this refusal, if it has one, and prints this text. Otherwise the message tells the row.
pub(crate) fn check_at<Row: Debug>(
    rt: &impl Abort,
    alloc: Global,
    row: &Row,
    script: &str,
    refusal: Option<ScriptRefusal>,
    text: &str,
) {
    let mut out = Vec::new(alloc);
    let end = run_text(alloc, script, &mut out);
    same_at(rt, row, &end.err(), &refusal);
    same_bytes_at(rt, row, &out, text.as_bytes());
}

pub(crate) fn node(number: u16) -> NodeId
    requires { number < 65535 }
    ensures { result ≡ number }
{
    match NodeId::new(number) {
        Some(node) => node,
        None => unreachable!(),
    }
}

pub(crate) fn tag(kind: Kind, forw: Option<NodeId>, back: Option<NodeId>) -> Tag {
    Tag {
        kind,
        held: false,
        forw,
        back,
    }
}

/// The text of a list of three nodes, of a line that is at home, of a tag in its list, and of one that is held.
#[test]
fn texts_of_lists_and_tags(rt: HostRuntime) -> Result<(), Fail> {
    let (zero, one, two) = (node(0), node(1), node(2));
    let mem = Mem {
        state: MemState::Fresh,
        lent: false,
        forw: Some(two),
    };
    let roll = tag(Kind::Roll, Some(zero), Some(two));
    let entries = [
        (two, tag(Kind::Fresh, Some(one), None)),
        (one, tag(Kind::Valid, Some(zero), Some(two))),
        (zero, tag(Kind::Valid, None, Some(one))),
    ];
    let list = list_text(rt.alloc(), 0, mem, &entries)?;
    let wanted = "line 0 FRESH 2: 2 HEAD_FRESH, 1 MID_VALID, 0 TAIL_VALID\n";
    same(&rt, &list.as_str(), &wanted);
    let home = Mem {
        state: MemState::Home,
        lent: false,
        forw: None,
    };
    let list = list_text(rt.alloc(), 7, home, &[])?;
    same(&rt, &list.as_str(), &"line 7 HOME\n");
    let shown = tag_text(rt.alloc(), 0, one, roll)?;
    same(&rt, &shown.as_str(), &"tag 0 1 ROLL forw 0 back 2\n");
    let held = Tag {
        held: true,
        ..tag(Kind::Fresh, None, None)
    };
    let shown = tag_text(rt.alloc(), 3, two, held)?;
    same(
        &rt,
        &shown.as_str(),
        &"tag 3 2 ONLY_FRESH forw - back - held\n",
    );
    Ok(())
}

/// What a script says of its memory, and how many lines a node may name: what it says, or all.
#[test]
fn what_scripts_say(rt: HostRuntime) -> Result<(), Fail> {
    for (text, capacity) in [
        ("memory 2 3\n", 1024),
        ("memory 2 3\nlist 0\n", 1024),
        ("memory 2 3\ncapacity 1\n", 1),
        (
            "memory 2 3\n\n# of a small cache\n\ncapacity 0007\nlist 0\n",
            7,
        ),
        ("memory 2 3\ncapacity 1024", 1024),
    ] {
        let script = read_script(rt.alloc(), text.as_bytes())?;
        let said = (script.nodes(), script.lines(), script.capacity());
        same_at(&rt, &text, &said, &(2, 3, capacity));
    }
    let text = "memory 2 3\nopen 1 4 1 2 3 4 5 6 7 8\nlist 1\n";
    let script = read_script(rt.alloc(), text.as_bytes())?;
    let words = [1, 2, 3, 4, 5, 6, 7, 8];
    same(&rt, &script.opening(1), &Line { words, stamp: 4 });
    same(&rt, &script.opening(2), &Line::ZERO);
    check_at(&rt, rt.alloc(), &text, text, None, "line 1 HOME\n");
    Ok(())
}
