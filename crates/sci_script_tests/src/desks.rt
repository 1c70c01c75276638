//! A desk whose words and ends of calls come late, or never, or whose list doesn't end.
ghost use Rattle.std.specs.Prelude.{◌≡◌};

use crate::checks::{same_at, same_bytes_at};
use sci_cache::Request;
use sci_ops::{Answer, Turn};
use sci_script::{Ask, Desk, Look, Script, ScriptRefusal, Size, Toward, read_script};
use sci_words::{Kind, LineNo, Mem, MemState, NodeId, Tag};
use std::alloc::{AllocError, Global};
use std::test::Fail;

/// How many nodes and lines the script's memory has.
pub(crate) fn size_of(script: &Script) -> Size
    ensures { result ≡ script.now.size }
{
    Size {
        nodes: script.nodes(),
        lines: script.lines(),
    }
}

/// Gives a word, and the end of a call, behind so many tries in which it doesn't.
#[derive(Drop)]
struct Late {
    size: Size,
    left: u32,
    has_mem: bool,
    has_tags: bool,
    /// Its list begins with a node that is the next behind itself, and no call ends.
    is_endless: bool,
    has_call: bool,
}

impl Late {
    /// A try: whether it comes too early.
    fn is_early(&mut self) -> bool
        ensures same_size { self.new.size ≡ self.old.size }
        ensures same_call { self.new.has_call ≡ self.old.has_call }
    {
        if self.left == 0 {
            return false;
        }
        self.left -= 1;
        true
    }
}

impl Desk for Late {
    ghost size = { λ late. late.size };

    ghost is_open = { λ late _. late.has_call };

    ghost far = { λ _ _. 0 };

    ghost does = { λ _ _ _. Unit {0} };

    fn open(&self, _node: NodeId) -> bool {
        self.has_call
    }

    fn begin(&mut self, _node: NodeId, _request: Request) -> Result<(), AllocError> {
        self.has_call = true;
        Ok(())
    }

    fn turn(&mut self, _node: NodeId) -> Turn {
        if self.is_endless || self.is_early() {
            return Turn::Waiting;
        }
        Turn::Done(Answer::Out)
    }

    fn waits_on(&self) -> bool {
        false
    }

    fn rest_turn(&mut self, _line: LineNo) -> Toward {
        Toward::Unknown
    }

    fn look(&self, _alloc: Global, _ask: Ask) -> Result<Look, AllocError> {
        Err(AllocError)
    }

    fn mem(&mut self, _line: LineNo) -> Option<Mem> {
        if !self.has_mem || self.size.nodes == 0 || self.is_early() {
            return None;
        }
        let (state, forw) = if self.is_endless {
            (MemState::Fresh, NodeId::new(0))
        } else {
            (MemState::Home, None)
        };
        Some(Mem {
            state,
            lent: false,
            forw,
        })
    }

    fn tag(&mut self, _line: LineNo, node: NodeId) -> Option<Tag> {
        if !self.has_tags || self.is_early() {
            return None;
        }
        let (kind, forw) = if self.is_endless {
            (Kind::Fresh, Some(node))
        } else {
            (Kind::Invalid, None)
        };
        Some(Tag {
            kind,
            held: false,
            forw,
            back: None,
        })
    }
}

/// A script, how many tries come too early, whether memory's word is had then, and the tags, whether list and calls are endless, the
/// line where it stops, if it does, and what it prints.
type Row = (&'static str, u32, [bool; 3], Option<u64>, &'static str);

/// Words and ends that are had, but late.
const LATE: [bool; 3] = [true, true, false];

const LIST: &str = "memory 2 1\n\nlist 0\n";

const TAG: &str = "memory 1 1\ntag 0 0\n";

const CALL: &str = "memory 1 1\nevict 0 0\ndone 0\n";

/// The hundred thousandth try is the last.
const ROWS: [Row; 13] = [
    (LIST, 0, [false, true, true], Some(3), ""),
    (LIST, 0, [true, false, true], Some(3), ""),
    (LIST, 0, [true, true, true], Some(3), ""),
    (TAG, 0, [true, false, true], Some(2), ""),
    (
        "memory 1 1\nload 0 0 0\ndone 0\n",
        0,
        [true, true, true],
        Some(3),
        "",
    ),
    ("memory 1 1\nrest\n", 0, [true, true, true], Some(2), ""),
    ("memory 1 1\n\nend\n", 0, [true, true, true], Some(3), ""),
    (LIST, 99_999, LATE, None, "line 0 HOME\n"),
    (LIST, 100_000, LATE, Some(3), ""),
    (TAG, 99_999, LATE, None, "tag 0 0 INVALID forw - back -\n"),
    (TAG, 100_000, LATE, Some(2), ""),
    (CALL, 99_999, LATE, None, "node 0 out\n"),
    (CALL, 100_000, LATE, Some(3), ""),
];

#[test]
fn what_is_not_to_be_had_in_time(rt: HostRuntime) -> Result<(), Fail> {
    for (text, left, had, stops, said) in &ROWS {
        let [has_mem, has_tags, is_endless] = *had;
        let script = read_script(rt.alloc(), text.as_bytes())?;
        let mut late = Late {
            size: size_of(&script),
            left: *left,
            has_mem,
            has_tags,
            is_endless,
            has_call: false,
        };
        let mut out = Vec::new(rt.alloc());
        let end = script.run(rt.alloc(), &mut late, &mut out);
        let wanted = match stops {
            Some(line) => Err(ScriptRefusal::NotDone(*line)),
            None => Ok(()),
        };
        same_at(&rt, &(text, left), &end, &wanted);
        same_bytes_at(&rt, &(text, left), &out, said.as_bytes());
    }
    Ok(())
}
